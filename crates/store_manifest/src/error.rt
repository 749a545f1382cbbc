// Why a manifest isn't loaded.
ghost use Rattle.std.specs.Prelude.{◌≡◌};
ghost use Rattle.disk_model.specs.declared.disk.DiskErr.TheVariants.{Memory};
ghost use Rattle.store_manifest.specs.declared.error.ManifestErr.TheVariants.{Disk as OfDisk};
ghost use Rattle.store_manifest.specs.Load.{of_journal};

use disk_model::{DiskErr, FileName};
use gate_journal::JournalErr;
use partition_names::Granularity;
use std::alloc::AllocError;
use std::fmt;

/// Why a manifest couldn't be loaded, in the order in which the causes are looked for.
#[derive(Drop)]
pub enum ManifestErr {
    /// The disk failed, which it has counted, or memory is wanting.
    Disk(DiskErr),
    /// The file of this name isn't of its form at place `at`: it is one of the journal's, as `JournalErr` has it.
    BadJournal {
        name: FileName,
        at: u64,
    },
    /// The batch of this number, counted from 0, doesn't go on from those before it.
    BadBatch {
        number: u64,
    },
    /// The manifest is good, and of another granularity than the one asked for.
    GranularityDiffers {
        kept: Granularity,
        asked: Granularity,
    },
}

impl fmt::Debug for ManifestErr {
    fn fmt<W: fmt::Write>(&self, f: &mut fmt::Formatter<W>) -> fmt::Result {
        match self {
            ManifestErr::Disk(e) => write!(f, "Disk({e:?})"),
            ManifestErr::BadJournal { name, at } => {
                let (store, path) = (name.store, &name.path);
                write!(
                    f,
                    "BadJournal {{ store: {store}, path: {path:?}, at: {at} }}"
                )
            }
            ManifestErr::BadBatch { number } => write!(f, "BadBatch {{ number: {number} }}"),
            ManifestErr::GranularityDiffers { kept, asked } => {
                write!(
                    f,
                    "GranularityDiffers {{ kept: {kept:?}, asked: {asked:?} }}"
                )
            }
        }
    }
}

impl From<DiskErr> for ManifestErr {
    ghost from_gives = { λ d e. e ≡ OfDisk d };

    fn from(e: DiskErr) -> Self {
        ManifestErr::Disk(e)
    }
}

impl From<AllocError> for ManifestErr {
    ghost from_gives = { λ _ e. e ≡ OfDisk Memory };

    fn from(_: AllocError) -> Self {
        ManifestErr::Disk(DiskErr::Memory)
    }
}

impl From<JournalErr> for ManifestErr {
    ghost from_gives = { λ j e. e ≡ of_journal j };

    fn from(e: JournalErr) -> Self {
        match e {
            JournalErr::Disk(e) => ManifestErr::Disk(e),
            JournalErr::BadJournal { name, at } => ManifestErr::BadJournal { name, at },
        }
    }
}
