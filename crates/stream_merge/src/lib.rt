//! The answer over the files of a variable and its tail, line by line.
//!
//! `Merge::new(alloc, query, ty, tail)`, then `next` up to `End`, gives the last sample before an interval and those of
//! the interval, over pieces that are opened one by one and a tail in memory. A piece is a PB file, or a front of one,
//! and each list of samples stands over those before it: of it only the samples count that are later. So a sample that
//! a move between stores has copied and not yet taken away is given once.
//!
//! Model: `IsReadAs` says that the bytes of a piece are a file of the type with these samples, and `Rest` relates a
//! merge and the pieces left to the lines that it has yet to give. `Pieces` is the trait by which pieces are opened.
//! [`laws`] says what of the pieces counts.
//!
//! A piece is read from the last sample that is earlier than the interval, or from behind the last one taken,
//! and no further than the first one behind the interval. These places are found by search, so `TakesFew` bounds
//! the lines that a call reads by the logarithms of the pieces' lengths. A piece that stands behind the
//! interval's end isn't opened.
//!
//! Memory doesn't grow with the pieces: two buffers of one line change places, one line given and one held back.
//!
//! Caveats: of a piece that is no file of the type the contracts say that each line that is given is an event of the
//! type and later than those before it, that `Damaged` tells a line that no such file has there, and that at the end
//! what was given is the answer over what was read (`AnswersRead`): of each piece good lines from where its reading
//! began to its end, or to one behind the interval. Lines that are passed over aren't looked at, so damage in them
//! isn't found, and `TakesFew` isn't promised. Of readers that don't tell their bytes, as real files, the contracts say
//! besides why a call fails, and not which lines come.
//!
//! Tests: `unit_cases`, of worked merges and of the bytes that are read of a large file.
#![tactic(auto)]

mod beginning;
pub mod laws;
mod merge;
mod pieces;
mod source;

pub use merge::Merge;
pub use pieces::{Merged, Opened, Pieces};
