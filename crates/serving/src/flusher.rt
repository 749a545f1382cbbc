// The flusher: round after round it ticks each row and flushes all.
ghost use Rattle.std.specs.Prelude.{◌≡◌, ℕ, List, IfOk, IsErr, OnErr, None, Some};
ghost use Rattle.act_model.specs.Machine.{Machine};
ghost use Rattle.serving.specs.Rounds.{AreTicks};
ghost use Rattle.serving.specs.Does.{Does, AreNone, AsksDoors};
ghost use Rattle.serving.specs.Flushes.{TicksRow, TicksAll, FlushesAll, FlushesTo, FlushCutAt, IsRoundSo};
ghost use Rattle.serving.specs.Timed.{DoesAt};

use crate::ends::FlushEnd;
use act_model::{Actor, Flushed as FlushAnswer, Spent, Ticked, ask_doors, ask_flush, ask_tick};
use edge_io::Clock;
use series_model::limits::{INTAKE_ROOM, MOST_ROWS};
use std::sync::Wait;

/// How long the flusher rests between two rounds, in nanoseconds.
pub const FLUSHER_RESTS: u64 = 100_000_000;

// Whether no doors are left.
pub(crate) fn are_doors_shut<A: Actor>(actor: &mut A) -> Result<bool, Spent>
    requires stands { (m : Machine) × A.stands actor.old m }
    ensures asks { IfOk result (λ none. Does A.Actor actor.old (AsksDoors none) actor.new) }
    ensures spent { OnErr result (Does A.Actor actor.old AreNone actor.new × A.is_spent actor.new) }
    ensures stands { (n : Machine) × A.stands actor.new n }
{
    match ask_doors(actor) {
        Ok(left) => return Ok(left.doors == 0),
        Err(spent) => return Err(spent),
    }
}

// Ticks a row, and tells whether there is none.
fn tick_row<A: Actor>(actor: &mut A, row: u32, now: u64) -> Result<bool, Spent>
    requires stands { (m : Machine) × A.stands actor.old m }
    ensures ticks { IfOk result (λ none. Does A.Actor actor.old (TicksRow now row none) actor.new) }
    ensures spent { OnErr result (Does A.Actor actor.old AreNone actor.new × A.is_spent actor.new) }
    ensures stands { (n : Machine) × A.stands actor.new n }
{
    match ask_tick(actor, row, now) {
        Ok(Ticked::NoRow) => return Ok(true),
        Ok(_) => return Ok(false),
        Err(spent) => return Err(spent),
    }
}

// Ticks each row at this moment.
fn tick_all<A: Actor>(actor: &mut A, now: u64) -> Result<(), Spent>
    requires stands { (m : Machine) × A.stands actor.old m }
    ensures ticks { IfOk result (λ done. Does A.Actor actor.old (TicksAll now) actor.new) }
    ensures spent { OnErr result (Does A.Actor actor.old (AreTicks now 0) actor.new × A.is_spent actor.new) }
    ensures stands { (n : Machine) × A.stands actor.new n }
{
    for row in 0..MOST_ROWS as u32 {
        match tick_row(actor, row, now) {
            Ok(true) => return Ok(()),
            Ok(false) => {}
            Err(spent) => return Err(spent),
        }
    }
    Ok(())
}

// Flushes as much as the intake holds at most, so that nothing of what was there is left. It tells nothing where
// something is left.
fn flush_all<A: Actor>(actor: &mut A) -> Result<Option<FlushEnd>, Spent>
    requires stands { (m : Machine) × A.stands actor.old m }
    ensures flushes { IfOk result (λ end. Does A.Actor actor.old (FlushesAll end) actor.new) }
    ensures spent { OnErr result (Does A.Actor actor.old AreNone actor.new × A.is_spent actor.new) }
    ensures stands { (n : Machine) × A.stands actor.new n }
{
    match ask_flush(actor, INTAKE_ROOM) {
        Ok(FlushAnswer::Flushed { left: 0, .. }) => return Ok(Some(FlushEnd::LeavesNone)),
        Ok(FlushAnswer::Flushed { .. }) => return Ok(None),
        Ok(FlushAnswer::DiskFault) => return Ok(Some(FlushEnd::FailsToWrite)),
        Ok(FlushAnswer::Memory) => return Ok(Some(FlushEnd::LacksMemory)),
        Err(spent) => return Err(spent),
    }
}

// Ticks each row and flushes all. It tells how that ended where no doors were left before it.
fn flush_round<A: Actor>(actor: &mut A, now: u64) -> Result<Option<FlushEnd>, Spent>
    requires stands { (m : Machine) × A.stands actor.old m }
    ensures round { IfOk result (λ end. Does A.Actor actor.old (IsRoundSo now end) actor.new) }
    ensures spent { OnErr result (Does A.Actor actor.old (FlushCutAt now) actor.new × A.is_spent actor.new) }
    ensures stands { (n : Machine) × A.stands actor.new n }
{
    let shut = match are_doors_shut(actor) {
        Ok(shut) => shut,
        Err(spent) => return Err(spent),
    };
    match tick_all(actor, now) {
        Ok(()) => {}
        Err(spent) => return Err(spent),
    }
    match flush_all(actor) {
        Ok(end) => {
            if shut {
                return Ok(end);
            }
            return Ok(None);
        }
        Err(spent) => return Err(spent),
    }
}

/// The flusher's work, to its end: rounds, of which the last begins when no doors are left, and leaves nothing that
/// isn't durable, fails, or lacks memory. The clock gives one moment for each round, at which the round ticks all rows,
/// and between two rounds it rests. `Spent` comes only where no act is left, within the last of the rounds.
pub fn flush_to_end<A: Actor, C: Clock>(
    rt: &impl Wait,
    actor: &mut A,
    clock: &mut C,
) -> Result<FlushEnd, Spent>
    requires stands { (m : Machine) × A.stands actor.old m }
    ensures flushes { DoesAt A.Actor actor.old (C.coming clock.old)
        (FlushesTo result) actor.new (C.coming clock.new) }
    ensures spent { IsErr result → A.is_spent actor.new }
    ensures stands { (n : Machine) × A.stands actor.new n }
{
    for _ in rt.forever() {
        let now = clock.now();
        match flush_round(actor, now) {
            Ok(Some(end)) => return Ok(end),
            Ok(None) => clock.rest(FLUSHER_RESTS),
            Err(spent) => return Err(spent),
        }
    }
    unreachable!()
}
