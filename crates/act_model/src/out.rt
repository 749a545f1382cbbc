//! Where an answer goes.
ghost use Rattle.std.specs.Prelude.{◌≡◌, ◌≤◌, ◌++◌, ◌∷◌, [], ℕ, List, OnOk, OnErr, IsErrOf};
ghost use Rattle.disk_model.specs.Files.{Rose};
ghost use Rattle.series_model.specs.declared.sample.Sample.{Sample};
ghost use Rattle.act_model.specs.Event.{AreEvents};
ghost use Rattle.act_model.specs.Out.{Subject, MayGive};

use pb_messages::About;
use series_model::Query;

/// Why an output stopped.
#[derive(Clone, Copy, Debug, PartialEq, Eq)]
pub enum OutErr {
    /// A write failed, which the output has counted.
    SinkFault,
    /// Memory ran out.
    Memory,
}

/// A text of an answer, written as the answer's samples come: `begin` once, then `sample` for each
/// sample in order, then `finish`.
///
/// Each kind of output says what its text is, by three relations between the output before `begin` and the output now.
/// After an error a front of the text went out, whatever samples were still to come, and no further call is made.
pub trait Out {
    /// It has begun with this subject and was given these samples. Their text went out, or is
    /// gathered, as far as it has come.
    ghost gave: { Self → Subject → List Sample → Self → Type 0 };

    /// The whole text of these samples went out.
    ghost finished: { Self → Subject → List Sample → Self → Type 0 };

    /// A front of the text of these samples went out.
    ghost broke: { Self → Subject → List Sample → Self → Type 0 };

    /// How often a write failed. The count stays at the last number of a `u64`.
    ghost faults: { Self → ℕ };

    /// Begins the text of an answer of the variable `name`.
    fn begin(&mut self, name: &[u8], about: &About, query: Query) -> Result<(), OutErr>
        ensures begun { OnOk result
            (gave self.old (record { name = name.now; about = about.now; query = query }) [] self.new) }
        ensures broken { OnErr result ((all : List Sample) → AreEvents about.now.ty all
            → broke self.old (record { name = name.now; about = about.now; query = query }) all self.new) }
        ensures faults { faults self.old ≤ faults self.new }
        ensures cause { IsErrOf result OutErr.SinkFault → Rose (faults self.old) (faults self.new) };

    /// Gives the next sample: `line` is an event of the variable's type at the moment `t`,
    /// escaped and without its newline.
    fn sample(&mut self, t: u64, line: &[u8]) -> Result<(), OutErr>
        requires event { MayGive gave self.old (record { t = t; line = line.now }) }
        ensures given { (before : Self) (subject : Subject) (xs : List Sample) → gave before subject xs self.old
            → OnOk result (gave before subject (xs ++ record { t = t; line = line.now } ∷ []) self.new) }
        ensures broken { (before : Self) (subject : Subject) (xs more : List Sample)
            → AreEvents subject.about.ty (xs ++ record { t = t; line = line.now } ∷ more)
            → gave before subject xs self.old
            → OnErr result (broke before subject (xs ++ record { t = t; line = line.now } ∷ more) self.new) }
        ensures faults { faults self.old ≤ faults self.new }
        ensures cause { IsErrOf result OutErr.SinkFault → Rose (faults self.old) (faults self.new) };

    /// Ends the text.
    fn finish(&mut self) -> Result<(), OutErr>
        ensures finished { (before : Self) (subject : Subject) (xs : List Sample) → gave before subject xs self.old
            → OnOk result (finished before subject xs self.new) }
        ensures broken { (before : Self) (subject : Subject) (xs : List Sample) → gave before subject xs self.old
            → OnErr result (broke before subject xs self.new) }
        ensures faults { faults self.old ≤ faults self.new }
        ensures cause { IsErrOf result OutErr.SinkFault → Rose (faults self.old) (faults self.new) };

    /// What was given is a front, whatever events follow.
    ghost front: { (before now : Self) (subject : Subject) (xs more : List Sample)
        → AreEvents subject.about.ty (xs ++ more)
        → gave before subject xs now
        → broke before subject (xs ++ more) now };
}
