// All that is due at one moment is moved.
ghost use Rattle.std.specs.Prelude.{◌≡◌, IsErrOf};
ghost use Rattle.act_model.specs.Machine.{Machine};
ghost use Rattle.serving.specs.Does.{Does};
ghost use Rattle.serving.specs.Due.{MovesDue};

use crate::moves::{MoveErr, move_store, sweep};
use act_model::Actor;
use std::sync::Wait;

/// So many partitions were retired. Each number stays at the last one that a u64 can show.
#[derive(Clone, Copy, Debug, PartialEq, Eq)]
pub struct DueMoved {
    /// Of the short term, store 1.
    pub short: u64,
    /// Of the medium term, store 2.
    pub medium: u64,
}

/// Moves all that is due at a moment: of the short term until nothing is due there, then of the medium term, and then
/// sweeps. It tells how many partitions its acts retired from each.
///
/// Just these acts are made, in this order. It stops at the first that fails, and tells why; `Spent` comes only where
/// no act is left. It waits for nothing, but may go on for as long as others give it work.
pub fn move_all_due<A: Actor>(rt: &impl Wait, actor: &mut A, now: u64) -> Result<DueMoved, MoveErr>
    requires stands { (m : Machine) × A.stands actor.old m }
    ensures moves { Does A.Actor actor.old (MovesDue now result) actor.new }
    ensures spent { IsErrOf result MoveErr.Spent → A.is_spent actor.new }
    ensures stands { (n : Machine) × A.stands actor.new n }
{
    let short = match move_store(rt, actor, 1, now) {
        Ok(short) => short,
        Err(err) => return Err(err),
    };
    let medium = match move_store(rt, actor, 2, now) {
        Ok(medium) => medium,
        Err(err) => return Err(err),
    };
    match sweep(actor) {
        Ok(()) => Ok(DueMoved {
            short: short.retired,
            medium: medium.retired,
        }),
        Err(err) => Err(err),
    }
}
