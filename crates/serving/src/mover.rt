// The mover: round after round it moves what is ripe, and sweeps.
ghost use Rattle.std.specs.Prelude.{◌≡◌, ◌≤◌, ℕ, List, IfOk, IsErr, OnErr, Option};
ghost use Rattle.act_model.specs.Machine.{Machine};
ghost use Rattle.serving.specs.Does.{Does, AreNone};
ghost use Rattle.serving.specs.Moves.{AreSoFar, StoreSo, SweepsSo, end_met, fault_of, end_of_round};
ghost use Rattle.serving.specs.Moves.{IsMoverRoundSo, MovesCutAt, MovesTo};
ghost use Rattle.serving.specs.Timed.{DoesAt};

use crate::ends::MoverEnd;
use crate::flusher::are_doors_shut;
use crate::moves::{MoveErr, move_store, sweep};
use act_model::{Actor, Spent};
use edge_io::Clock;
use std::sync::Wait;

/// How long the mover rests between two rounds, in nanoseconds.
pub const MOVER_RESTS: u64 = 1_000_000_000;

// How a round goes on where its moves stopped.
fn end_met(err: MoveErr) -> Result<Option<MoverEnd>, Spent>
    ensures { result ≡ end_met err }
{
    match err {
        MoveErr::DiskFault => Ok(Some(MoverEnd::MeetsFault)),
        MoveErr::Damaged { .. } => Ok(Some(MoverEnd::MeetsFault)),
        MoveErr::Spent => Err(Spent),
        MoveErr::Memory => Ok(Some(MoverEnd::MeetsNoMemory)),
    }
}

// The moves of a store in a round, up to where it has none to make, meets a fault or lacks memory. It tells nothing
// where the store has none to make and doors are left.
fn move_in_round<A: Actor>(
    rt: &impl Wait,
    actor: &mut A,
    store: u8,
    now: u64,
) -> Result<Option<MoverEnd>, Spent>
    requires stands { (m : Machine) × A.stands actor.old m }
    requires low { 1 ≤ store }
    requires high { store ≤ 2 }
    ensures moves { IfOk result (λ end. Does A.Actor actor.old (StoreSo store now end) actor.new) }
    ensures spent { OnErr result
        (Does A.Actor actor.old (AreSoFar store now) actor.new × A.is_spent actor.new) }
    ensures stands { (n : Machine) × A.stands actor.new n }
{
    match move_store(rt, actor, store, now) {
        Ok(moved) => {
            if moved.doors == 0 {
                return Ok(Some(MoverEnd::Rests));
            }
            return Ok(None);
        }
        Err(err) => return end_met(err),
    }
}

// The sweep of a round. It tells where that met a fault or lacked memory.
fn sweep_in_round<A: Actor>(actor: &mut A) -> Result<Option<MoverEnd>, Spent>
    requires stands { (m : Machine) × A.stands actor.old m }
    ensures sweeps { IfOk result (λ end. Does A.Actor actor.old (SweepsSo end) actor.new) }
    ensures spent { OnErr result (Does A.Actor actor.old AreNone actor.new × A.is_spent actor.new) }
    ensures stands { (n : Machine) × A.stands actor.new n }
{
    match sweep(actor) {
        Ok(()) => return Ok(None),
        Err(err) => return end_met(err),
    }
}

// The fault or want of memory of an end.
fn fault_in(end: Option<MoverEnd>) -> Option<MoverEnd>
    ensures { result ≡ fault_of end }
{
    match end {
        Some(MoverEnd::MeetsFault) => Some(MoverEnd::MeetsFault),
        Some(MoverEnd::MeetsNoMemory) => Some(MoverEnd::MeetsNoMemory),
        Some(MoverEnd::Rests) => None,
        None => None,
    }
}

// How a round ended, if it is the last: both stores had nothing to move and no doors were left, or the round began with
// no doors and met a fault or lacked memory.
fn round_end(
    shut: bool,
    short: Option<MoverEnd>,
    medium: Option<MoverEnd>,
    swept: Option<MoverEnd>,
) -> Option<MoverEnd>
    ensures { result ≡ end_of_round shut short medium swept }
{
    match (short, medium) {
        (Some(MoverEnd::Rests), Some(MoverEnd::Rests)) => return Some(MoverEnd::Rests),
        _ => {}
    }
    if !shut {
        return None;
    }
    fault_in(short).or(fault_in(medium).or(swept))
}

// Moves what is ripe in both stores, and sweeps. It tells how that ended, if it is the last round.
fn move_round<A: Actor>(rt: &impl Wait, actor: &mut A, now: u64) -> Result<Option<MoverEnd>, Spent>
    requires stands { (m : Machine) × A.stands actor.old m }
    ensures round { IfOk result (λ end. Does A.Actor actor.old (IsMoverRoundSo now end) actor.new) }
    ensures spent { OnErr result (Does A.Actor actor.old (MovesCutAt now) actor.new × A.is_spent actor.new) }
    ensures stands { (n : Machine) × A.stands actor.new n }
{
    let shut = match are_doors_shut(actor) {
        Ok(shut) => shut,
        Err(spent) => return Err(spent),
    };
    let short = match move_in_round(rt, actor, 1, now) {
        Ok(short) => short,
        Err(spent) => return Err(spent),
    };
    let medium = match move_in_round(rt, actor, 2, now) {
        Ok(medium) => medium,
        Err(spent) => return Err(spent),
    };
    match sweep_in_round(actor) {
        Ok(swept) => return Ok(round_end(shut, short, medium, swept)),
        Err(spent) => return Err(spent),
    }
}

/// The mover's work, to its end: rounds, up to one in which both stores had nothing to move and no doors were left,
/// or one that began when no doors were left and met a fault or lacked memory. The clock gives one moment for each
/// round, at which all its moves begin, and between two rounds it rests. `Spent` comes only where no act is left,
/// within the last of the rounds.
pub fn move_to_end<A: Actor, C: Clock>(
    rt: &impl Wait,
    actor: &mut A,
    clock: &mut C,
) -> Result<MoverEnd, Spent>
    requires stands { (m : Machine) × A.stands actor.old m }
    ensures moves { DoesAt A.Actor actor.old (C.coming clock.old)
        (MovesTo result) actor.new (C.coming clock.new) }
    ensures spent { IsErr result → A.is_spent actor.new }
    ensures stands { (n : Machine) × A.stands actor.new n }
{
    for _ in rt.forever() {
        let now = clock.now();
        match move_round(rt, actor, now) {
            Ok(Some(end)) => return Ok(end),
            Ok(None) => clock.rest(MOVER_RESTS),
            Err(spent) => return Err(spent),
        }
    }
    unreachable!()
}
