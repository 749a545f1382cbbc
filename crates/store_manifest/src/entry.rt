// What a manifest lists, and how it changes.
use partition_names::Part;

/// A listed partition file.
#[derive(Clone, Copy, Debug, PartialEq, Eq)]
pub struct Entry {
    /// The number of its series.
    pub series: u32,
    /// Its partition.
    pub part: Part,
    /// How many bytes of the file are listed.
    pub len: u64,
    /// How many bytes the header line takes, with its newline.
    pub head_len: u32,
    /// The moment of the first listed sample, in nanoseconds since 1970.
    pub first: u64,
    /// The moment of the last listed sample, in nanoseconds since 1970.
    pub last: u64,
    /// How many samples are listed.
    pub count: u64,
}

/// A change of what is listed.
#[derive(Clone, Copy, Debug, PartialEq, Eq)]
pub enum Change {
    /// The entry is listed, in place of the one of its series and partition if there is one.
    Set(Entry),
    /// The entry of this series whose partition begins at `start` is no longer listed.
    Drop { series: u32, start: u64 },
}

impl Change {
    ghost use Rattle.std.specs.Prelude.{◌≡◌};
    ghost use Rattle.store_manifest.specs.Entries.{place_of};
    ghost use Rattle.store_manifest.specs.Listing.{sets};

    // The series that it changes.
    pub(crate) fn series(&self) -> u32
        ensures { result ≡ (place_of self.now).0 }
    {
        match self {
            Change::Set(entry) => entry.series,
            Change::Drop { series, .. } => *series,
        }
    }

    // How many entries more it may make.
    pub(crate) fn sets(&self) -> usize
        ensures { result ≡ sets self.now }
    {
        match self {
            Change::Set(_) => 1,
            Change::Drop { .. } => 0,
        }
    }
}
