// One commit of a manifest that lists other files: how a flush, a publication and a retirement end.
ghost use Rattle.std.specs.Prelude.{◌≡◌, ◌≤◌, length, IsErrOf, IsTrue, false};
ghost use Rattle.disk_model.specs.Files.{Rose};
ghost use Rattle.gate_journal.specs.Batches.{greatest_batch};
ghost use Rattle.gate_journal.specs.Journal.{JournalState};
ghost use Rattle.gate_journal.specs.DiskShown.{shown_by};
ghost use Rattle.store_manifest.specs.Entries.{AllCanFollow, all_changed};
ghost use Rattle.store_manifest.specs.Batches.{batch_of};
ghost use Rattle.durable_write.specs.Held.{Held, Shelf};
ghost use Rattle.durable_write.specs.Relisting.{ManifestEnds, Relists, TouchesOwn};
ghost use Rattle.durable_write.specs.Ahead.{CanRelist};

use disk_model::{Disk, DiskErr};
use store_manifest::{Change, Manifest};

/// Lists other files of the same rows in one commit. A crash at any moment leaves what was held, or what is next.
pub fn relist<D: Disk>(
    disk: &mut D,
    manifest: &mut Manifest,
    changes: &[Change],
) -> Result<(), DiskErr>
    requires sound { IsTrue manifest.old.journal.sound }
    requires follow { AllCanFollow manifest.old.granularity manifest.old.entries changes.now }
    requires few { length (batch_of changes.now) ≤ greatest_batch }
    requires can { IsTrue D.tells → (catalogue : JournalState) × (shelf : Shelf) × (held : Held) × (next : Held)
        × CanRelist catalogue manifest.old shelf (shown_by D.Disk disk.old) held next changes.now }

    ensures lists { IsTrue D.tells → (catalogue : JournalState) (shelf : Shelf) (held next : Held)
        → CanRelist catalogue manifest.old shelf (shown_by D.Disk disk.old) held next changes.now
        → Relists catalogue manifest.old manifest.new shelf result
        (shown_by D.Disk disk.old) (shown_by D.Disk disk.new) held next }
    ensures ends { ManifestEnds manifest.old manifest.new (all_changed manifest.old.entries changes.now) result }
    ensures touches { IsTrue D.tells
        → TouchesOwn manifest.old.journal.name (shown_by D.Disk disk.old) (shown_by D.Disk disk.new) }
    ensures doubt { IsErrOf result DiskErr.Fault → manifest.new.journal.sound ≡ false }
    ensures faults { D.faults disk.old ≤ D.faults disk.new }
    ensures cause { IsErrOf result DiskErr.Fault → Rose (D.faults disk.old) (D.faults disk.new) }
{
    manifest.commit(disk, changes)
}
