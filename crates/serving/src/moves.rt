// Moves of one store, each to its end.
ghost use Rattle.std.specs.Prelude.{◌≡◌, ◌≤◌, IsErrOf};
ghost use Rattle.act_model.specs.Machine.{Machine};
ghost use Rattle.serving.specs.Does.{Does};
ghost use Rattle.serving.specs.Moves.{BeginsSo, StepsSo, MovesSo, OneMoveSo, StoreMovesSo, IsSwept};

use act_model::{
    Actor, MoveBegun, MoveStepped, Spent, Swept, ask_move_begin, ask_move_step, ask_sweep,
};
use disk_model::FileName;
use std::sync::Wait;

/// Why moves stopped before all was moved.
#[derive(Drop)]
pub enum MoveErr {
    /// The disk failed in an act, which it has counted.
    DiskFault,
    /// The bytes of this file are no file of its variable's type; the first bad line begins at this place.
    Damaged { name: FileName, at: u64 },
    /// No act is left.
    Spent,
    /// Memory ran out.
    Memory,
}

// How a move began.
#[derive(Clone, Copy, Drop)]
enum BegunMove {
    // This move is to go on.
    Moves(u32),
    // The store has nothing to move, at a time when so many doors are left.
    Nothing(u64),
}

// What one more move of a store came to.
#[derive(Clone, Copy, Drop)]
enum OneMove {
    // It is over, and retired so many partitions.
    Over(u64),
    // The store has nothing to move, at a time when so many doors are left.
    Nothing(u64),
}

/// The moves of a store, up to where it had nothing to move.
#[derive(Clone, Copy, Drop)]
pub(crate) struct StoreMoved {
    /// So many partitions were retired. It stays at the last number that a u64 can show.
    pub retired: u64,
    /// So many doors were left when nothing was to move.
    pub doors: u64,
}

// Begins a move, or finds the one that runs.
fn begin_move<A: Actor>(actor: &mut A, store: u8, now: u64) -> Result<BegunMove, MoveErr>
    requires stands { (m : Machine) × A.stands actor.old m }
    requires low { 1 ≤ store }
    requires high { store ≤ 2 }
    ensures begins { Does A.Actor actor.old (BeginsSo store now result) actor.new }
    ensures spent { IsErrOf result MoveErr.Spent → A.is_spent actor.new }
    ensures stands { (n : Machine) × A.stands actor.new n }
{
    match ask_move_begin(actor, store, now) {
        Ok(MoveBegun::Begun { m, .. }) => Ok(BegunMove::Moves(m)),
        Ok(MoveBegun::Busy { m }) => Ok(BegunMove::Moves(m)),
        Ok(MoveBegun::Nothing { doors }) => Ok(BegunMove::Nothing(doors)),
        Ok(MoveBegun::DiskFault) => Err(MoveErr::DiskFault),
        Ok(MoveBegun::Memory) => Err(MoveErr::Memory),
        Err(Spent) => Err(MoveErr::Spent),
    }
}

// One step of a move. Where the move is over it tells how many partitions that retired.
fn step_move<A: Actor>(actor: &mut A, m: u32) -> Result<Option<u64>, MoveErr>
    requires stands { (m : Machine) × A.stands actor.old m }
    ensures steps { Does A.Actor actor.old (StepsSo m result) actor.new }
    ensures spent { IsErrOf result MoveErr.Spent → A.is_spent actor.new }
    ensures stands { (n : Machine) × A.stands actor.new n }
{
    match ask_move_step(actor, m) {
        Ok(MoveStepped::Copying) => Ok(None),
        Ok(MoveStepped::Copied) => Ok(None),
        Ok(MoveStepped::Published) => Ok(None),
        Ok(MoveStepped::NoMove) => Ok(Some(0)),
        Ok(MoveStepped::Retired { parts }) => Ok(Some(parts)),
        Ok(MoveStepped::Again { .. }) => Ok(Some(0)),
        Ok(MoveStepped::DiskFault) => Err(MoveErr::DiskFault),
        Ok(MoveStepped::Damaged { name, at }) => Err(MoveErr::Damaged { name, at }),
        Ok(MoveStepped::Memory) => Err(MoveErr::Memory),
        Err(Spent) => Err(MoveErr::Spent),
    }
}

// A move to its end. It tells how many partitions that retired.
fn move_through<A: Actor>(rt: &impl Wait, actor: &mut A, m: u32) -> Result<u64, MoveErr>
    requires stands { (m : Machine) × A.stands actor.old m }
    ensures moves { Does A.Actor actor.old (MovesSo m result) actor.new }
    ensures spent { IsErrOf result MoveErr.Spent → A.is_spent actor.new }
    ensures stands { (n : Machine) × A.stands actor.new n }
{
    for _ in rt.forever() {
        match step_move(actor, m) {
            Ok(None) => {}
            Ok(Some(parts)) => return Ok(parts),
            Err(err) => return Err(err),
        }
    }
    unreachable!()
}

// One more move of a store, to its end: the next, or the one that runs.
fn move_once<A: Actor>(
    rt: &impl Wait,
    actor: &mut A,
    store: u8,
    now: u64,
) -> Result<OneMove, MoveErr>
    requires stands { (m : Machine) × A.stands actor.old m }
    requires low { 1 ≤ store }
    requires high { store ≤ 2 }
    ensures moves { Does A.Actor actor.old (OneMoveSo store now result) actor.new }
    ensures spent { IsErrOf result MoveErr.Spent → A.is_spent actor.new }
    ensures stands { (n : Machine) × A.stands actor.new n }
{
    match begin_move(actor, store, now) {
        Ok(BegunMove::Moves(m)) => match move_through(rt, actor, m) {
            Ok(parts) => Ok(OneMove::Over(parts)),
            Err(err) => Err(err),
        },
        Ok(BegunMove::Nothing(doors)) => Ok(OneMove::Nothing(doors)),
        Err(err) => Err(err),
    }
}

/// The moves of a store, all begun at one moment, up to where it has none to make.
pub(crate) fn move_store<A: Actor>(
    rt: &impl Wait,
    actor: &mut A,
    store: u8,
    now: u64,
) -> Result<StoreMoved, MoveErr>
    requires stands { (m : Machine) × A.stands actor.old m }
    requires low { 1 ≤ store }
    requires high { store ≤ 2 }
    ensures moves { Does A.Actor actor.old (StoreMovesSo store now result) actor.new }
    ensures spent { IsErrOf result MoveErr.Spent → A.is_spent actor.new }
    ensures stands { (n : Machine) × A.stands actor.new n }
{
    let mut retired: u64 = 0;
    for _ in rt.forever() {
        match move_once(rt, actor, store, now) {
            Ok(OneMove::Over(parts)) => retired = retired.saturating_add(parts),
            Ok(OneMove::Nothing(doors)) => return Ok(StoreMoved { retired, doors }),
            Err(err) => return Err(err),
        }
    }
    unreachable!()
}

/// Sweeps.
pub(crate) fn sweep<A: Actor>(actor: &mut A) -> Result<(), MoveErr>
    requires stands { (m : Machine) × A.stands actor.old m }
    ensures sweeps { Does A.Actor actor.old (IsSwept result) actor.new }
    ensures spent { IsErrOf result MoveErr.Spent → A.is_spent actor.new }
    ensures stands { (n : Machine) × A.stands actor.new n }
{
    match ask_sweep(actor) {
        Ok(Swept::Swept { .. }) => Ok(()),
        Ok(Swept::DiskFault) => Err(MoveErr::DiskFault),
        Ok(Swept::Memory) => Err(MoveErr::Memory),
        Err(Spent) => Err(MoveErr::Spent),
    }
}
