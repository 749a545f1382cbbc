//! The intake's half of an archive: the rows that it knows, what it accepted of them that it has not let go, and how
//! many doors are open to links.
//!
//! `IntakeHalf::new`, then `offer` for each sample that comes and `tick` for each sampled row. A flush takes a look at
//! a batch, and what the store made durable of it leaves by a take, which also tells the rows that were registered,
//! paused or resumed. No call touches a file.
//!
//! Model: an `IntakeHalf` of `two_histories`, rows in the order of their numbers. Each call is a step of the intake
//! (`IntakeStep`), or memory was wanting and all is as it was. Memory is taken for all rows up to the greatest that is
//! known.
#![tactic(auto)]

mod applying;
mod half;
mod known;
mod looking;
mod memory;
mod names;
mod parts;
mod taking;
mod told;
mod trying;

pub use half::IntakeHalf;
pub use memory::{RowMemory, clear, sampling};
pub use parts::{IntakeAnswer, IntakePart};
pub use told::{BatchLook, Registered, RowLook};
pub use trying::{offer_row, reason_by_row, runs, tick_row};
