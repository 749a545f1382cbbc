//! What follows from what calls on twins promise, for all passes.
ghost use Rattle.std.specs.Prelude.{◌≡◌, ◌↔◌, ℕ};
ghost use Rattle.turn_rooms.specs.declared.view.RoomSeen.{RoomSeen};
ghost use Rattle.turn_rooms.specs.Views.{full_word};
ghost use Rattle.turn_rooms.specs.Passes.{IsSpentTry, IsSpentTurn};
ghost use Rattle.turn_rooms.specs.LaneTurns.{LaneTries, LaneTurns};
ghost use Rattle.turn_rooms.specs.TwinPasses.{IsTwinPassOf, StoreGoes, IntakeGoes, TwinOpens, TwinParts, TwinMeets};
ghost use Rattle.turn_rooms.specs.TwinPasses.{TwinTakesBack};
ghost use Rattle.turn_rooms.specs.TwinPasses.{TwinKnowsAllOf, IsLastTwin, pass_standing};

use crate::beside::{ActBeside, Beside};
use crate::room::Room;
use crate::rooms::{Tried, Turned};
use crate::twins::{Twin, TwinPass};

/// A turn on a half is spent exactly where its last load read the word of a half that has had all its acts.
pub fn a_half_is_spent_exactly_after_all_its_acts<R: Room>()
    ensures tries { (number other loaded : ℕ) (old new : RoomSeen R (ActBeside R.Act) R.Answer) (act : R.Act)
        (answer : Tried R R.Act R.Answer)
        → LaneTries number other old new act loaded answer
        → IsSpentTry answer ↔ (loaded ≡ full_word) }
    ensures turns { (number other loaded : ℕ) (old new : RoomSeen R (ActBeside R.Act) R.Answer) (act : R.Act)
        (answer : Turned R R.Act R.Answer)
        → LaneTurns number other old new act loaded answer
        → IsSpentTurn answer ↔ (loaded ≡ full_word) }
{}

/// A pass takes back what it gives out: turns give nothing out, and a pass that was made from another and ends in
/// it again leaves no number out, where each of the two took back what it gave out in between. A first pass that
/// took back all is the last.
pub fn a_twin_pass_that_took_back_all_is_last<S: Room, I: Beside<S>>()
    ensures turns { (old new : TwinPass S I S.Act S.Answer I.Act I.Answer) → pass_standing new ≡ pass_standing old
        → TwinTakesBack old new }
    ensures meets { (twin : Twin S I S.Act S.Answer I.Act I.Answer)
        (first made made_later last note note_later : TwinPass S I S.Act S.Answer I.Act I.Answer)
        → TwinParts S.steps I.steps I.together twin first made note
        → TwinTakesBack made made_later → TwinTakesBack note note_later
        → TwinMeets S.steps I.steps I.together twin made_later last note_later
        → TwinTakesBack first last }
    ensures last { (twin : Twin S I S.Act S.Answer I.Act I.Answer) (store : S) (intake : I)
        (first last : TwinPass S I S.Act S.Answer I.Act I.Answer)
        → TwinOpens S.steps I.steps I.together twin store intake first
        → TwinTakesBack first last → IsLastTwin last }
{}

/// A pass in which another ended knows every act of the other's numbers on either half, whatever turns it makes, passes
/// it makes from itself and passes it takes in after that. So the last pass knows every act of every pass.
pub fn a_twin_pass_knows_all_acts_of_those_that_ended_in_it<S: Room, I: Beside<S>>()
    ensures meets { (twin : Twin S I S.Act S.Answer I.Act I.Answer)
        (old new ended : TwinPass S I S.Act S.Answer I.Act I.Answer)
        → IsTwinPassOf S.steps I.steps I.together twin old
        → TwinMeets S.steps I.steps I.together twin old new ended
        → TwinKnowsAllOf ended new }
    ensures through { (twin : Twin S I S.Act S.Answer I.Act I.Answer)
        (old new ended other : TwinPass S I S.Act S.Answer I.Act I.Answer)
        → TwinKnowsAllOf ended old → TwinMeets S.steps I.steps I.together twin other new old
        → IsTwinPassOf S.steps I.steps I.together twin other
        → TwinKnowsAllOf ended new }
    ensures still { (twin : Twin S I S.Act S.Answer I.Act I.Answer)
        (old new ended note : TwinPass S I S.Act S.Answer I.Act I.Answer)
        → TwinKnowsAllOf ended old → TwinMeets S.steps I.steps I.together twin old new note → TwinKnowsAllOf ended new }
    ensures store_turns { (twin : Twin S I S.Act S.Answer I.Act I.Answer)
        (old new ended : TwinPass S I S.Act S.Answer I.Act I.Answer)
        → TwinKnowsAllOf ended old → StoreGoes S.steps I.steps I.together twin old new → TwinKnowsAllOf ended new }
    ensures intake_turns { (twin : Twin S I S.Act S.Answer I.Act I.Answer)
        (old new ended : TwinPass S I S.Act S.Answer I.Act I.Answer)
        → TwinKnowsAllOf ended old → IntakeGoes S.steps I.steps I.together twin old new → TwinKnowsAllOf ended new }
    ensures parts { (twin : Twin S I S.Act S.Answer I.Act I.Answer)
        (old new ended note : TwinPass S I S.Act S.Answer I.Act I.Answer)
        → TwinKnowsAllOf ended old → TwinParts S.steps I.steps I.together twin old new note → TwinKnowsAllOf ended new }
{}
