// The publication: one commit lists what was copied.
ghost use Rattle.std.specs.Prelude.{◌≡◌, ◌≤◌, map, true, IfOk, OnOk, OnErr, IsErrOf, IsTrue};
ghost use Rattle.disk_model.specs.Files.{Rose};
ghost use Rattle.gate_journal.specs.Journal.{JournalState};
ghost use Rattle.gate_journal.specs.DiskShown.{shown_by};
ghost use Rattle.partition_names.specs.declared.granularity.Granularity.{Granularity};
ghost use Rattle.store_manifest.specs.Entries.{all_changed};
ghost use Rattle.durable_write.specs.Held.{Held, Shelf};
ghost use Rattle.durable_write.specs.Relisting.{ManifestEnds, Relists, TouchesOwn};
ghost use Rattle.durable_write.specs.Ahead.{HasCopied};
ghost use Rattle.etl_mover.specs.Move.{IsMove, IsAhead, IsCopied, set_entry};
ghost use Rattle.etl_mover.specs.declared.moving.Stage.TheVariants.{Published};

use crate::moving::{Move, Stage};
use disk_model::{Disk, DiskErr};
use durable_write::relist;
use std::alloc::AllocError;
use store_manifest::{Change, Manifest};

impl Move {
    // The changes that list the pending entries.
    fn sets(&self) -> Result<Vec<Change>, AllocError>
        ensures { IfOk result (λ v. v.items ≡ map set_entry self.now.pending) }
    {
        self.pending
            .iter()
            .map(|entry| Change::Set(*entry))
            .collect(self.alloc)
    }

    /// Lists what was copied in one commit of the destination's manifest. A crash at any moment leaves what the
    /// destination held, or that with all that was copied.
    ///
    /// After `Memory` the destination holds what it held, and its journal may have begun anew. After `Fault`, which
    /// comes only where the disk's count of faults rose in the call, it isn't known whether the commit was made.
    pub fn publish<D: Disk>(&mut self, disk: &mut D, dest: &mut Manifest) -> Result<(), DiskErr>
        requires running { (fine : Granularity) × IsMove fine self.old }
        requires stage { IsCopied self.old }
        requires sound { dest.old.journal.sound ≡ true }
        requires same { dest.old.granularity ≡ self.old.granularity }
        requires can { IsTrue D.tells → (catalogue : JournalState) × (shelf : Shelf) × (held : Held) × (ahead : Held)
            × HasCopied catalogue dest.old shelf (shown_by D.Disk disk.old) held ahead × IsAhead self.old held ahead }

        ensures relists { IsTrue D.tells → (catalogue : JournalState) (shelf : Shelf) (held ahead : Held)
            → HasCopied catalogue dest.old shelf (shown_by D.Disk disk.old) held ahead → IsAhead self.old held ahead
            → Relists catalogue dest.old dest.new shelf result
            (shown_by D.Disk disk.old) (shown_by D.Disk disk.new) held ahead }
        ensures commits { ManifestEnds dest.old dest.new
            (all_changed dest.old.entries (map set_entry self.old.pending)) result }
        ensures stage { OnOk result (self.new ≡ record self.old { stage = Published }) }
        ensures unchanged { OnErr result (self.new ≡ self.old) }
        ensures touches { IsTrue D.tells
            → TouchesOwn dest.old.journal.name (shown_by D.Disk disk.old) (shown_by D.Disk disk.new) }
        ensures faults { D.faults disk.old ≤ D.faults disk.new }
        ensures cause { IsErrOf result DiskErr.Fault → Rose (D.faults disk.old) (D.faults disk.new) }
    {
        let changes = self.sets()?;
        relist(disk, dest, &changes)?;
        self.stage = Stage::Published;
        Ok(())
    }
}
