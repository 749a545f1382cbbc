//! The manifest of a store: which partition files the store lists, and how much of each.
//!
//! A manifest is a journal of batches in store 0. Its first batch says the granularity, and may set entries
//! behind that; each later one is one or more changes: an entry is set, in place of the one of its series and
//! partition, or one that is listed is dropped. Of hours, with an entry of series 7 dropped after it was set,
//! the batches are `01 03`, then `02 07 00 00 00` and 44 bytes more, then `03 07 00 00 00` and the eight bytes
//! of the partition's start.
//!
//! `Manifest::load` folds the batches to entries, and tells the number of the first one that doesn't go on.
//! `Manifest::commit` adds a batch, whole or not at all, also across a crash. After a commit that failed,
//! `Manifest::review` takes its changes in where the file has them.
//!
//! A manifest doesn't grow for good. Before a commit whose journal has as many bytes as four batches that list all
//! entries, and at least 1,048,576, the journal begins anew with such a batch: the granularity, and each entry set.
//!
//! Contracts see one list of entries in the order of series and time. In memory each series has a list of its own, in
//! which a commit makes its changes in place once they are on the disk; the memory for them it takes before. Whether
//! the listed files are there, and as long as listed, isn't said here.
#![tactic(auto)]

mod all;
mod entry;
mod entry_list;
mod error;
mod folding;
mod laws;
mod listing;
mod lists;
mod manifest;
mod reading;
mod series;
mod whole;
mod writing;

pub use all::AllEntries;
pub use entry::{Change, Entry};
pub use error::ManifestErr;
pub use laws::{
    a_checkpoint_lists_the_entries, bad_batches, changes_keep_entries, changes_take_bytes,
    entries_are_in_order, one_granularity, one_listing,
};
pub use manifest::{Manifest, manifest_file};
pub use series::begins_at;
