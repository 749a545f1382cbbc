//! Files of partitions (PB file format of the EPICS Archiver Appliance).
//!
//! A file is the line of a header and then the lines of samples of its type and year, each later
//! than the one before. Each line ends with a newline and is escaped. Lines may have any length.
//!
//! `08 05 12 03 41 3A 42 18 E8 0F 0A` is a header's line (integers of `A:B` in 2024), and with
//! `08 01 10 00 1D 01 00 00 00 0A` behind it a file of one sample: the value 1, one second into
//! 2024.
//!
//! Model: `IsFile` of `pb_lines` relates bytes to a header's line, what it means, and samples; `IsBadAt`
//! tells where the first line begins that isn't so. All bytes are the one or have the other, and each
//! has one answer. A torn last line is bad at its start, and no bytes at all at 0.
//!
//! `FileWalk::new(alloc, len)`, then `next` up to `End` or `Damaged`, reads the first `len` bytes of
//! an opened file line by line, in reads of 512 bytes that grow to 16,384. `check_file` walks over a partition's
//! file and tells its samples' number, first and last moment, or the first line that fails. `good_front` gives the part
//! of such a file before that line.
//!
//! Caveats: each call of `next` is given the same file. Of a file that doesn't tell its bytes, as a
//! real one, the contracts say that what is given is a header's line and then later and later
//! samples, and not that these are the file's.
#![tactic(auto)]

mod block;
mod check;
mod good;
pub mod laws;
mod line;
mod search;
mod steps;
mod walk;

pub use check::{Verdict, check_file};
pub use good::{Front, FrontErr, good_front};
pub use search::{SearchErr, first_after, last_before};
pub use steps::Steps;
pub use walk::{FileWalk, Walked};
