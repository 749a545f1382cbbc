// The types of callers.
use turn_rooms::{Pass, Room};

/// One who works in a thread of its own.
#[derive(Drop)]
pub struct Worker<R: Room, C, E> {
    /// By which it acts.
    pub pass: Pass<R>,
    /// By which it tells the time.
    pub clock: C,
    /// Its place among the workers, from 0 on.
    pub place: usize,
    /// How its work ended.
    pub end: E,
}

/// Why workers could not be drawn.
#[derive(Clone, Copy, Debug, PartialEq, Eq)]
pub enum NotDrawn {
    /// All numbers of passes are drawn.
    Spent,
    /// Memory ran out.
    Memory,
}
