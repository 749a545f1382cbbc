//! Workers that act on one room in turns, each by a pass and a clock of its own, and work on pairs in threads.
//!
//! [`draw_workers`] makes them of one pass before any thread starts, so that nothing can be wanting once threads run.
//! [`meet_workers`] ends their passes in that one again, when their work is done. Neither runs anything.
//!
//! [`run_all`] pairs the values of two slices by their places and calls a closure on each pair, in a thread of its own;
//! [`run_with`] is two `run_all` at a time. Each call returns once all its threads have ended.
//!
//! Model: which passes are left beside the caller's (`specs/Left.antt`), and what the caller's pass then knows: all
//! acts of its workers, and no others since, but where other passes are left. Of calls on pairs what each may leave of
//! its pair, pair by pair, as if they were made one after another. Nothing is claimed of which calls run at the same
//! time, nor of their order: where no thread can be made, calls are made one after another by the caller.
#![tactic(auto)]

mod drawing;
mod meeting;
mod pairs;
mod worker;

pub use drawing::draw_workers;
pub use meeting::meet_workers;
pub use pairs::{run_all, run_with};
pub use worker::{NotDrawn, Worker};
