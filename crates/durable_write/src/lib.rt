//! The durable write of the archiver: samples go to partition files behind what is listed of them,
//! and one commit lists all.
//!
//! What an image of a disk holds of one store is said once, in the archive's terms (`Holds`): rows, and per row the
//! listed partition files with their samples. [`plan_flush`] says which bytes of a batch go to which files, and
//! [`flush_files`] writes all of them behind the listed lengths, then syncs each file, and then commits the manifest.
//! A crash at any moment leaves what was held before, or that with all of the batch. [`relist`] is the commit alone, of
//! files that a move has copied, or is to drop.
//!
//! A store whose listed files somebody else damaged may be written to as any other, as long as each is there and no
//! shorter than it is listed. What is held then doesn't stand (`Held.stands`): nothing is promised of its samples, but
//! the listed bytes stay as they are (`LeavesListed`).
//!
//! Caveat: a commit that fails may or may not have been made. Whose commit it was finds
//! out which, by `Manifest::review`.
#![tactic(auto)]

mod file_write;
mod flushing;
mod name;
mod plan;
mod relisting;
mod writing;

pub use file_write::FileWrite;
pub use flushing::flush_files;
pub use name::file_name;
pub use plan::{MOST_WRITES, Plan, header, plan_flush};
pub use relisting::relist;
