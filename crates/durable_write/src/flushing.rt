// The durable part of a flush: the files are written and synced, and only then one commit lists them.
ghost use Rattle.std.specs.Prelude.{◌≡◌, ◌≤◌, ◌<◌, ◌*◌, List, All, length, map, IfOk, IsErrOf, IsTrue};
ghost use Rattle.disk_model.specs.Files.{Rose};
ghost use Rattle.gate_journal.specs.Batches.{greatest_batch};
ghost use Rattle.gate_journal.specs.Journal.{JournalState};
ghost use Rattle.gate_journal.specs.DiskShown.{shown_by};
ghost use Rattle.partition_names.specs.Part.{IsPart};
ghost use Rattle.store_manifest.specs.Entries.{all_changed};
ghost use Rattle.durable_write.specs.Held.{Filed, Held};
ghost use Rattle.durable_write.specs.Flush.{MakesFiles};
ghost use Rattle.durable_write.specs.Relisting.{FlushesFiles, ManifestEnds, StaysBeside};
ghost use Rattle.durable_write.specs.Writing.{set_of};
ghost use Rattle.durable_write.specs.Ahead.{HasCopied};

use crate::file_write::FileWrite;
use crate::relisting::relist;
use crate::writing::write_all;
use disk_model::{Disk, DiskErr};
use pv_catalog::Row;
use std::alloc::{AllocError, Global};
use store_manifest::{Change, Manifest};

// How many bytes the manifest's change takes that lists a file.
const SET_BYTES: usize = 49;

// The changes that list the writes' files.
fn changes_of(alloc: Global, writes: &[FileWrite]) -> Result<Vec<Change>, AllocError>
    ensures { IfOk result (λ v. v.items ≡ map set_of writes.now) }
{
    writes
        .iter()
        .map(|write| Change::Set(write.entry))
        .collect(alloc)
}

/// Makes the writes, syncs each file, and then lists all of them in one commit of the manifest. They go on
/// from what is ahead of what is held, as files in limbo are; where nothing is, that is what is held. A crash at any
/// moment of the call leaves what was held before it, or that with the files of all the writes.
///
/// After `Fault` what was held is stored still, or, where the manifest isn't sound, the store is in doubt whether
/// the commit was made. After `Memory` what was held is stored still. `Fault` comes only where the disk's count
/// of faults rose in the call.
pub fn flush_files<D: Disk>(
    alloc: Global,
    disk: &mut D,
    store: u8,
    rows: &[Row],
    manifest: &mut Manifest,
    writes: &[FileWrite],
) -> Result<(), DiskErr>
    requires sound { IsTrue manifest.old.journal.sound }
    requires parts { All (λ p. IsPart manifest.old.granularity p.entry.part) writes.now }
    requires rows { All (λ p. p.entry.series < length rows.now) writes.now }
    requires few { length writes.now * SET_BYTES ≤ greatest_batch }
    requires stored { IsTrue D.tells → (catalogue : JournalState) × (held : Held) × (ahead : Held) × (fs : List Filed)
        × HasCopied catalogue manifest.old (store, rows.now) (shown_by D.Disk disk.old) held ahead
        × MakesFiles manifest.old.granularity ahead writes.now fs }

    ensures flushes { IsTrue D.tells → (catalogue : JournalState) (held ahead : Held) (fs : List Filed)
        → HasCopied catalogue manifest.old (store, rows.now) (shown_by D.Disk disk.old) held ahead
        → MakesFiles manifest.old.granularity ahead writes.now fs
        → FlushesFiles catalogue manifest.old manifest.new (store, rows.now) result
        (shown_by D.Disk disk.old) (shown_by D.Disk disk.new) held ahead fs }
    ensures stays { IsTrue D.tells → StaysBeside (store, rows.now) manifest.old writes.now
        (shown_by D.Disk disk.old) (shown_by D.Disk disk.new) }
    ensures ends { ManifestEnds manifest.old manifest.new
        (all_changed manifest.old.entries (map set_of writes.now)) result }
    ensures faults { D.faults disk.old ≤ D.faults disk.new }
    ensures cause { IsErrOf result DiskErr.Fault → Rose (D.faults disk.old) (D.faults disk.new) }
{
    let changes = changes_of(alloc, writes)?;
    write_all(alloc, disk, store, rows, writes)?;
    relist(disk, manifest, &changes)
}
