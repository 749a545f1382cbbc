//! One of many who act on an archive in turns.
ghost use Rattle.std.specs.Prelude.{◌≡◌, ℕ, ◌++◌, List, []};
ghost use Rattle.std.proofs.Common.{refl, ◌∙◌};
ghost use Rattle.turn_rooms.specs.Histories.{end_of};
ghost use Rattle.turn_rooms.specs.Passes.{opened, known};
ghost use Rattle.act_model.specs.Reply.{reply_of};
ghost use Rattle.act_model.specs.Machine.{Machine};
ghost use Rattle.archive_actors.specs.Steps.{SharedStands, SharedStep};
ghost use Rattle.archive_actors.specs.Seats.{StandsFor, HasLearnt, KnowsAll};
ghost use Rattle.archive_actors.specs.SeatLaws.{seat_legal, seat_nothing, seat_joined};

use crate::applies::Applies;
use crate::shared::Shared;
use act_model::{Act, Actor, Answer, Spent};
use std::sync::Wait;
use turn_rooms::{Pass, Rooms, Turned};

/// An actor that shares an archive with others, by turns of a pass of its own. What it knows are the acts that the pass
/// knows, those of others among them. An act may wait for the turns of others. `Spent` comes only where the archive has
/// had all its acts, 2^63 - 1.
#[derive(Drop)]
pub struct Seated<'a, R: Wait, X: Applies> {
    rt: &'a R,
    rooms: &'a Rooms<Shared<X>>,
    pass: &'a mut Pass<Shared<X>>,
}

impl<'a, R: Wait, X: Applies> Seated<'a, R, X> {
    /// Acts by turns of this pass, which it lends. It takes no memory.
    pub fn new(
        rt: &'a R,
        rooms: &'a Rooms<Shared<X>>,
        pass: &'a mut Pass<Shared<X>>,
    ) -> Seated<'a, R, X>
        ensures rooms { result.rooms.now ≡ rooms.now }
        ensures pass { result.pass.now ≡ pass.old }
        ensures same_reference { result.pass.ghost_name ≡ pass.entry.ghost_name }
    {
        Seated { rt, rooms, pass }
    }
}

impl<'a, R: Wait, X: Applies> Actor for Seated<'a, R, X> {
    type Reader = X::Reader;

    ghost number = { λ a. a.pass.now.number };

    ghost stands = { λ a m. StandsFor (SharedStep X.stands X.leaves X.Reader.tells X.Reader.bytes X.Reader.faults)
        (SharedStands X.stands) a.rooms.now a.pass.now m };

    // It acts by the pass that it was made with, so its lender has that pass back.
    ghost between = { λ a entries b. (b.pass.ghost_name ≡ a.pass.ghost_name)
        × HasLearnt (SharedStep X.stands X.leaves X.Reader.tells X.Reader.bytes X.Reader.faults)
        (reply_of X.Reader.tells X.Reader.bytes X.Reader.faults) a.rooms.now
        a.pass.now entries b.rooms.now b.pass.now };

    ghost is_spent = { λ a. KnowsAll a.pass.now };

    fn act(&mut self, act: Act) -> Result<Answer<X::Reader>, Spent> {
        match self.rooms.turn(self.rt, self.pass, act) {
            Turned::Done(answer) => Ok(answer),
            Turned::Spent(_) => Err(Spent),
        }
    }

    ghost legal = { λ a b entries m h s.
        seat_legal (SharedStep X.stands X.leaves X.Reader.tells X.Reader.bytes X.Reader.faults) (SharedStands X.stands)
        (reply_of X.Reader.tells X.Reader.bytes X.Reader.faults)
        (λ old new who n act answer step. step.0) a.rooms.now a.pass.now entries b.rooms.now b.pass.now m h.1 s };

    ghost sound = { λ a m s. X.sound (end_of (opened a.rooms.now) (known a.pass.now)).archive m s.now };

    ghost nothing = { λ a. (
      refl,
      seat_nothing (SharedStep X.stands X.leaves X.Reader.tells X.Reader.bytes X.Reader.faults)
          (reply_of X.Reader.tells X.Reader.bytes X.Reader.faults) a.rooms.now a.pass.now,
    ) };

    ghost joined = { λ a b c xs ys p q. (
      q.0 ∙ p.0,
      seat_joined (SharedStep X.stands X.leaves X.Reader.tells X.Reader.bytes X.Reader.faults)
          (reply_of X.Reader.tells X.Reader.bytes X.Reader.faults) a.rooms.now a.pass.now xs b.rooms.now b.pass.now
          ys c.rooms.now c.pass.now p.1 q.1,
    ) };

    ghost number_stays = { λ a b entries h. h.1.same_number };
}
