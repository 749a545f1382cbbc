//! The samples that were offered and are not in files yet, in memory: those that were accepted, for each row a tail,
//! and of a row that is sampled at a period the newest since the last tick, which is tried at the next one that is due.
//!
//! `Intake::new`, then `offer` for each sample that is accepted. A flush takes a `batch`, makes it durable, and gives
//! up each row's front by `trim`. All tails together have at most 67,108,864 bytes, each line counted with its newline.
//!
//! A row that is sampled has one [`Scan`]: `offer` for each sample that comes, `tick` where a tick is due and is
//! answered otherwise than by want of room or memory, and `clear` where the row is paused or resumed.
//!
//! Model: for each row its samples, and its spare, which is how many more samples it has memory for. An offer to a row
//! that has a spare does not answer want of memory, and no call but such an offer lowers a spare. Of a sampled row the
//! period, and one cell with what is held and when the row is due. That the cell keeps what the whole history says is a
//! law (`laws::history`). No call of a `Scan` takes memory.
//!
//! Rows are told by numbers, the lower ones in closer use: memory is taken for all rows up to the
//! greatest that was offered to.
#![tactic(auto)]

mod intake;
pub mod laws;
mod sampling;
mod tail;

pub use intake::{Intake, OfferErr};
pub use sampling::Scan;
