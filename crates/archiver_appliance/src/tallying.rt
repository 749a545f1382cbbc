// An answer of which its samples are counted.
ghost use Rattle.std.specs.Prelude.{◌≡◌, ◌<◌, ◌++◌, ◌∷◌, [], ℕ, List, None, Some, IfSome};
ghost use Rattle.series_model.specs.declared.sample.Sample.{Sample};
ghost use Rattle.archiver_appliance.specs.Tallying.{AreTallied, IsEarly, IsTallyOf};

use act_model::{Out, OutErr};
use arch_time::END;
use drill_feed::Tally;
use pb_messages::About;
use series_model::Query;

/// An output that keeps of an answer how many samples it has, and the moments of the first and the last.
#[derive(Drop)]
pub struct TallyOut {
    // What was counted by now; nothing of an answer without samples.
    tally: Option<Tally>,
    ghost early: { IsEarly tally },
}

impl TallyOut {
    /// Nothing was counted.
    pub fn new() -> TallyOut
        ensures { result.tally ≡ None }
    {
        TallyOut { tally: None }
    }

    /// What was counted. Nothing is told of an answer without samples.
    pub fn tally(&self) -> Option<Tally>
        ensures value { result ≡ self.now.tally }
        ensures early { IfSome result (λ t. (t.first < END) × (t.last < END)) }
    {
        self.tally
    }
}

// A tally is no text: it can't break off, and no write of it fails.
impl Out for TallyOut {
    ghost gave = { λ before subject xs now. AreTallied xs now.tally };

    ghost finished = { λ before subject xs now. AreTallied xs now.tally };

    ghost broke = { λ before subject xs now. Unit {0} };

    ghost faults = { λ out. 0 };

    ghost front = { λ before now subject xs more events gave. tt };

    fn begin(&mut self, _name: &[u8], _about: &About, _query: Query) -> Result<(), OutErr> {
        *self = TallyOut::new();
        Ok(())
    }

    fn sample(&mut self, t: u64, _line: &[u8]) -> Result<(), OutErr> {
        *self = TallyOut {
            tally: Some(one_more(self.tally, t)),
        };
        Ok(())
    }

    fn finish(&mut self) -> Result<(), OutErr> {
        Ok(())
    }
}

// The tally of one sample more. The count stays at its last value.
fn one_more(tally: Option<Tally>, t: u64) -> Tally
    ensures early { IsEarly tally → t < END → IsEarly (Some result) }
    ensures tally { (xs : List Sample) (line : List ℕ) → AreTallied xs tally
        → IsTallyOf (xs ++ record { t = t; line = line } ∷ []) result }
{
    match tally {
        None => Tally {
            count: 1,
            first: t,
            last: t,
        },
        Some(tally) => Tally {
            count: tally.count.saturating_add(1),
            first: tally.first,
            last: t,
        },
    }
}
