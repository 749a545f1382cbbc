// Why a disk isn't opened.
ghost use Rattle.std.specs.Prelude.{◌≡◌};
ghost use Rattle.disk_model.specs.declared.disk.DiskErr.TheVariants.{Memory as DiskMemory};
ghost use Rattle.store_reopen.specs.declared.error.NotOpened.TheVariants.{Disk as OfDisk};

use disk_model::{Disk, DiskErr, FileName};
use partition_names::Granularity;
use std::alloc::{AllocError, AllocFailed};

/// Why a disk isn't opened. The disk comes back with each cause.
#[derive(Drop)]
pub enum ReopenErr<D: Disk> {
    /// The disk failed, which it has counted.
    DiskFault(D),
    /// This file is the first that is wrong. Of a file of a journal `at` is the place of the open gate behind which
    /// something is cut off or of the first batch that means nothing or isn't the next generation, and 0 where a later
    /// generation's file is absent or shorter than two bytes; of a manifest it is 0 where an entry is of no row; of a
    /// listed file it is its length, 0 where it is absent.
    Damaged {
        disk: D,
        name: FileName,
        at: u64,
    },
    /// The catalogue and the first manifests are good, and the next one is of another granularity than its store.
    GranularityDiffers {
        disk: D,
        kept: Granularity,
        asked: Granularity,
    },
    /// Memory is wanting.
    Memory(D),
}

impl<D: Disk> ReopenErr<D> {
    ghost use Rattle.std.specs.Prelude.{◌≡◌};
    ghost use Rattle.store_reopen.specs.Reopen.{disk_in};

    /// The disk, given back. It takes no memory.
    pub fn into_disk(self) -> D
        ensures { result ≡ disk_in self }
    {
        match self {
            ReopenErr::DiskFault(disk) => disk,
            ReopenErr::Damaged { disk, .. } => disk,
            ReopenErr::GranularityDiffers { disk, .. } => disk,
            ReopenErr::Memory(disk) => disk,
        }
    }
}

// The same without the disk.
#[derive(Drop)]
pub enum NotOpened {
    Disk(DiskErr),
    Damaged {
        name: FileName,
        at: u64,
    },
    GranularityDiffers {
        kept: Granularity,
        asked: Granularity,
    },
}

impl From<DiskErr> for NotOpened {
    ghost from_gives = { λ d e. e ≡ OfDisk d };

    fn from(e: DiskErr) -> Self {
        NotOpened::Disk(e)
    }
}

impl From<AllocError> for NotOpened {
    ghost from_gives = { λ _ e. e ≡ OfDisk DiskMemory };

    fn from(_: AllocError) -> Self {
        NotOpened::Disk(DiskErr::Memory)
    }
}

impl<T: Drop> From<AllocFailed<T>> for NotOpened {
    ghost from_gives = { λ _ e. e ≡ OfDisk DiskMemory };

    fn from(_: AllocFailed<T>) -> Self {
        NotOpened::Disk(DiskErr::Memory)
    }
}
