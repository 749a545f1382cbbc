//! The running move of a series' oldest partition files from one store to the next.
#![tactic(auto)]

mod copying;
pub mod laws;
mod lines;
mod moving;
mod publishing;
mod reading;
mod stepping;
mod writing;

pub use copying::header_of;
pub use moving::{Copied, Move, Stage};
pub use reading::{MOST_BYTES, read};
