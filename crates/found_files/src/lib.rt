//! Files of a disk that nothing lists: whether one is a variable's file of a partition, and which part of it is good.
//!
//! Such a file is named as the usual tool names the file of a variable and a partition, by the variable that its own
//! header tells, and it begins with a header's line and at least one sample of the partition. `find_candidate` tells
//! the longest front of it that is a file by itself. The file is read once, through the disk's own reads: it isn't
//! opened, and stays as it is.
#![tactic(auto)]

mod finding;
mod path;
mod reading;

pub use finding::{Candidate, find_candidate};
pub use path::{has_path, part_in};
