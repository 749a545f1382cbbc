//! The command `extract`, which needs no archive: chunks of a raw stream, cut to an interval.
//!
//! Model: a function from the source's bytes to a text (`Extracts`), in one pass with one line held back.
//!
//! Tests: the built program's run it.
#![tactic(auto)]

mod answer;
mod extracting;
mod running;

pub use answer::ChunkAnswer;
pub use extracting::extract;
