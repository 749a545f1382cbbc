// What an adoption came to.
use crate::ReopenErr;
use disk_model::Disk;

/// The numbers of an adoption.
#[derive(Clone, Copy, Debug, PartialEq, Eq)]
pub struct Adopted {
    /// The files that are listed now.
    pub files: u64,
    /// The samples that are listed of these.
    pub samples: u64,
    /// The new rows.
    pub rows: u64,
    /// The files of stores 1 to 3 that weren't listed and aren't now, whatever the reason.
    pub skipped: u64,
    /// Of the files that are listed now those with bytes past what is listed.
    pub cut: u64,
}

/// Why files aren't adopted. The disk comes back with the cause.
#[derive(Drop)]
pub enum AdoptErr<D: Disk> {
    /// As of an opening; `DiskFault` also where a file couldn't be read, or a step of the adoption couldn't be made.
    Reopen(ReopenErr<D>),
}
