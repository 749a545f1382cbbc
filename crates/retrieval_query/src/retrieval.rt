// A retrieval: the answer of a variable, from its pin on.
ghost use Rattle.std.specs.Prelude.{◌≡◌, ◌≤◌, ◌<◌, ◌^◌, ◌+◌, ◌⊎◌, [], IsTrue, IsErrOf, Err, OnOk, OnErr, None, true};
ghost use Rattle.std.specs.Prelude.{List, ℕ, length};
ghost use Rattle.disk_model.specs.Files.{Rose};
ghost use Rattle.series_model.specs.declared.sample.Sample.{Sample as SampleValue};
ghost use Rattle.series_model.specs.Series.{IsRising};
ghost use Rattle.series_model.specs.Retrieval.{answer};
ghost use Rattle.act_model.specs.declared.acts.Act.{Act};
ghost use Rattle.act_model.specs.declared.acts.Answer.TheVariants as told;
ghost use Rattle.act_model.specs.Event.{AreEvents};
ghost use Rattle.act_model.specs.History.{Made, MadeOne};
ghost use Rattle.act_model.specs.Machine.{Machine};
ghost use Rattle.act_model.specs.Out.{Subject};
ghost use Rattle.stream_merge.specs.Pieces.{NamedBytes};
ghost use Rattle.stream_merge.specs.Reading.{AreSamplesOf, AreReadAs};
ghost use Rattle.stream_merge.specs.Merging.{IsGoing, Rest};
ghost use Rattle.stream_merge.specs.Over.{over_all};
ghost use Rattle.stream_merge.specs.Reads.{HasGiven};
ghost use Rattle.retrieval_query.specs.Giving.{Gives, GivesBy, GivesReadAt, GivesSome};
ghost use Rattle.retrieval_query.specs.Openings.{FailsOf, Holds, LeftOf, OpensLeaving, OpensOf};
ghost use Rattle.retrieval_query.specs.Pinning.{AnswersPinned, GivesUp, IsHeld, subject_of};
ghost use Rattle.retrieval_query.specs.Retrieving.{NotPinned, IsPinned, ReadsPinned, EndsPinned, WritesSome, Writes};
ghost use Rattle.retrieval_query.specs.Retrieving.{WritesAnswer, ReadsHeaders, ReadsToEnd, RetrievesToEnd};

use crate::give::give_answer;
use crate::pinned::PinPieces;
use crate::retrieved::Retrieved;
use crate::variable::{PinnedVariable, pin_variable};
use act_model::{Actor, Out, Spent, Unpinned, ask_unpin};
use disk_model::ReadAt;
use pb_messages::About;
use series_model::{Query, Samples};
use std::alloc::Global;
use std::marker::Brand;
use std::sync::ledger::{Blank, Ledger};
use stream_merge::Merge;

/// Writes the answer of a variable to an output: the last sample before the interval, and those of the interval, of all
/// that was accepted of the variable as its pin was made.
///
/// It pins the variable, opens the pin's pieces one by one, in order, by later acts, and reads them outside every act.
/// Then it gives up the pin, at every answer, unless no act is left for that. At `Finished` the whole text was written,
/// and at every other answer a front of it. Where no pin was made the output is untouched. Whatever somebody else has
/// made of the files, the text at `Finished` is the answer over what was read: of each piece all from where its reading
/// began, with none left, or as much as there is up to a sample behind the interval.
pub fn retrieve<A: Actor, O: Out>(
    alloc: Global,
    actor: &mut A,
    name: &[u8],
    query: Query,
    out: &mut O,
) -> Retrieved<A::Reader>
    requires stands { (m : Machine) × A.stands actor.old m }
    ensures acts { NotPinned A.number A.between A.is_spent actor.old name.now query out.old result actor.new out.new
        ⊎ IsPinned A.number A.between A.is_spent A.Reader.tells A.Reader.faults O.finished O.broke
        (Rose (O.faults out.old) (O.faults out.new)) actor.old name.now query out.old result actor.new out.new }
    ensures whole { IsTrue A.Reader.tells → (m : Machine) → A.stands actor.old m → m.told ≡ true → ReadsHeaders m.rule
        → NotPinned A.number A.between A.is_spent actor.old name.now query out.old result actor.new out.new
        ⊎ WritesAnswer A.number A.between O.finished O.broke actor.old m name.now query
        out.old result actor.new out.new }
    ensures read { IsTrue A.Reader.tells
        → RetrievesToEnd A.number A.between O.finished actor.old name.now query out.old result actor.new out.new }
    ensures faults { O.faults out.old ≤ O.faults out.new }
    ensures stands { (n : Machine) × A.stands actor.new n }
{
    match pin_variable(alloc, actor, name, query) {
        Ok(variable) => read_pinned(alloc, actor, variable, query, out),
        Err(why) => Retrieved::from(why),
    }
}

/// Writes the answer of a pinned variable to an output, and gives its pin up, at every answer,
/// unless no act is left for that.
///
/// It opens the pin's pieces one by one, in order, and reads them outside every act. At `Finished` the whole text was
/// written, and at every other answer a front of it.
pub fn read_pinned<A: Actor, O: Out>(
    alloc: Global,
    actor: &mut A,
    variable: PinnedVariable,
    query: Query,
    out: &mut O,
) -> Retrieved<A::Reader>
    requires held { IsHeld A.number A.stands actor.old variable }
    ensures answers { AnswersPinned A.number A.between A.is_spent A.stands A.Reader.tells A.Reader.faults O.finished
        O.broke (Rose (O.faults out.old) (O.faults out.new)) actor.old variable query out.old result actor.new out.new }
    ensures read { IsTrue A.Reader.tells
        → ReadsToEnd A.number A.between O.finished actor.old variable.pin variable.pieces variable.tail
        (subject_of variable query) out.old result actor.new out.new }
    ensures faults { O.faults out.old ≤ O.faults out.new }
    ensures stands { (n : Machine) × A.stands actor.new n }
{
    let PinnedVariable {
        pin,
        name,
        about,
        pieces,
        tail,
    } = variable;
    read_pieces(
        alloc,
        actor,
        pin,
        name.bytes(),
        &about,
        pieces,
        tail,
        query,
        out,
    )
}

/// Gives the pin of a variable up whose answer isn't read, unless no act is left for that.
pub fn give_up_pin<A: Actor>(actor: &mut A, variable: PinnedVariable)
    requires held { IsHeld A.number A.stands actor.old variable }
    ensures gives_up { GivesUp A.number A.between A.is_spent actor.old variable.pin actor.new }
    ensures stands { (n : Machine) × A.stands actor.new n }
{
    let _unpinned = give_up(actor, variable.pin);
}

// Writes the answer over a pin's pieces and the tail, and gives the pin up.
fn read_pieces<A: Actor, O: Out>(
    alloc: Global,
    actor: &mut A,
    pin: u32,
    name: &[u8],
    about: &About,
    pieces: u64,
    tail: Samples,
    query: Query,
    out: &mut O,
) -> Retrieved<A::Reader>
    requires holds { Holds A.number A.stands actor.old pin 0 pieces }
    requires events { AreSamplesOf about.now.ty tail }
    ensures reads { ReadsPinned A.number A.between A.is_spent A.Reader.tells A.Reader.faults about.now.ty actor.old pin
        (Rose (O.faults out.old) (O.faults out.new)) result actor.new }
    ensures some { WritesSome O.finished O.broke out.old
        (record { name = name.now; about = about.now; query = query }) result out.new }
    ensures whole { IsTrue A.Reader.tells → (ps : List NamedBytes) (lists : List (List SampleValue))
        → LeftOf A.number A.stands actor.old pin 0 pieces ps
        → AreReadAs about.now.ty ps lists → IsRising tail
        → AreEvents about.now.ty (answer (over_all lists tail) query)
        → Writes O.finished O.broke out.old (record { name = name.now; about = about.now; query = query })
        (answer (over_all lists tail) query) result out.new }
    ensures read { IsTrue A.Reader.tells
        → ReadsToEnd A.number A.between O.finished actor.old pin pieces tail
        (record { name = name.now; about = about.now; query = query }) out.old result actor.new out.new }
    ensures faults { O.faults out.old ≤ O.faults out.new }
{
    let merge = Merge::new(alloc, query, about.ty, tail);
    let mut pieces = PinPieces {
        actor,
        pin,
        next: 0,
        left: pieces as u32,
        faults: 0,
    };
    let blank = Blank::new(1);
    let given = give_pinned::<A, O, Brand>(
        alloc,
        &mut pieces,
        merge,
        name,
        about,
        query,
        out,
        blank,
    );
    end_pinned(pieces.actor, pin, given, out)
}

// Gives the answer over a pin's pieces, which keep their actor.
fn give_pinned<A: Actor, O: Out, L: Ledger>(
    alloc: Global,
    pieces: &mut PinPieces<'_, A>,
    merge: Merge<A::Reader>,
    name: &[u8],
    about: &About,
    query: Query,
    out: &mut O,
    blank: Blank,
) -> Result<u64, Retrieved<A::Reader>>
    requires ledger_name { blank.name ≡ L.name }
    requires parts { blank.parts ≡ L.parts }
    requires some { 0 < blank.parts }
    requires going { IsGoing A.Reader.tells A.Reader.bytes merge }
    requires none_open { merge.source.piece ≡ None }
    requires ty { merge.source.ty ≡ about.now.ty }
    requires holds { Holds A.number A.stands pieces.old.actor.now pieces.old.pin pieces.old.next pieces.old.left }
    ensures same_reference { pieces.new.actor.ghost_name ≡ pieces.old.actor.ghost_name }
    ensures gives { GivesBy A.Reader.tells A.Reader.faults
        (OpensOf A.number A.between pieces.old.pin pieces.old.next pieces.old.left)
        (FailsOf A.number A.between A.is_spent pieces.old.pin pieces.old.next)
        about.now.ty pieces.old.actor.now result pieces.new.actor.now }
    ensures gave { GivesSome O.gave O.broke out.old
        (record { name = name.now; about = about.now; query = query }) result out.new }
    ensures whole { IsTrue A.Reader.tells → (ps : List NamedBytes) (xs : List SampleValue)
        → LeftOf A.number A.stands pieces.old.actor.now pieces.old.pin pieces.old.next pieces.old.left ps
        → Rest A.Reader.bytes merge ps xs → AreEvents about.now.ty xs
        → Gives O.gave O.broke out.old
        (record { name = name.now; about = about.now; query = query }) xs result out.new }
    ensures reads { IsTrue A.Reader.tells → merge.query ≡ query
        → HasGiven A.Reader.bytes merge pieces.old.left [] []
        → GivesReadAt (OpensLeaving A.number A.between pieces.old.pin pieces.old.next pieces.old.left pieces.new.left)
        O.gave query pieces.new.left merge.source.tail.items out.old
        (record { name = name.now; about = about.now; query = query })
        pieces.old.actor.now result pieces.new.actor.now out.new }
    ensures faults { O.faults out.old ≤ O.faults out.new }
    ensures cause { IsErrOf result Retrieved.SinkFault → Rose (O.faults out.old) (O.faults out.new) }
{
    give_answer::<PinPieces<'_, A>, O, L>(alloc, pieces, merge, name, about, query, out, blank)
}

// Gives the pin up, and then ends the text, if the answer was given.
fn end_pinned<A: Actor, O: Out>(
    actor: &mut A,
    pin: u32,
    given: Result<u64, Retrieved<A::Reader>>,
    out: &mut O,
) -> Retrieved<A::Reader>
    requires holds { (next left : ℕ) × Holds A.number A.stands actor.old pin next left }
    requires spent { given ≡ Err Retrieved.Spent → A.is_spent actor.old }
    requires whole { (count : ℕ) → given ≡ Err (Retrieved.Finished count) → ⊥ }
    ensures ends { EndsPinned A.number A.between A.is_spent actor.old pin
        (Rose (O.faults out.old) (O.faults out.new)) given result actor.new }
    ensures writes { (before : O) (subject : Subject) (xs : List SampleValue) → AreEvents subject.about.ty xs
        → Gives O.gave O.broke before subject xs given out.old
        → Writes O.finished O.broke before subject xs result out.new }
    ensures faults { O.faults out.old ≤ O.faults out.new }
{
    if let Err(Retrieved::Spent) = given {
        return Retrieved::Spent;
    }
    let unpinned = give_up(actor, pin);
    match given {
        Ok(count) => {
            if let Err(Spent) = unpinned {
                return Retrieved::Spent;
            }
            finish(count, out)
        }
        Err(stopped) => stopped,
    }
}

// Ends a text of so many samples.
fn finish<R: ReadAt, O: Out>(count: u64, out: &mut O) -> Retrieved<R>
    ensures ends { (result ≡ Retrieved.Finished count)
        ⊎ ((result ≡ Retrieved.SinkFault) × Rose (O.faults out.old) (O.faults out.new)) ⊎ (result ≡ Retrieved.Memory) }
    ensures writes { (before : O) (subject : Subject) (xs : List SampleValue) → O.gave before subject xs out.old
        → count ≡ length xs → Writes O.finished O.broke before subject xs result out.new }
    ensures faults { O.faults out.old ≤ O.faults out.new }
{
    match out.finish() {
        Ok(()) => Retrieved::Finished { count },
        Err(err) => Retrieved::from(err),
    }
}

// Gives the pin up. It is there, so nothing but want of acts stands against it.
fn give_up<A: Actor>(actor: &mut A, pin: u32) -> Result<(), Spent>
    requires holds { (next left : ℕ) × Holds A.number A.stands actor.old pin next left }
    ensures made { OnOk result (MadeOne A.number A.between actor.old (Act.Unpin pin) told.Unpinned actor.new) }
    ensures spent { OnErr result (Made A.number A.between actor.old [] actor.new × A.is_spent actor.new) }
    ensures stands { (n : Machine) × A.stands actor.new n }
{
    match ask_unpin(actor, pin)? {
        Unpinned::Unpinned => Ok(()),
        Unpinned::NoPin => unreachable!(),
        Unpinned::NotYours { .. } => unreachable!(),
    }
}
