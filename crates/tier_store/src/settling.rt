// The settling of a change that stands in doubt: it changes no file outside store 0.
ghost use Rattle.std.specs.Prelude.{◌≡◌, ◌≤◌, ◌<◌, length, slice_get, Some, None, IfSome, OnOk, OnErr, IsTrue, true};
ghost use Rattle.std.specs.Prelude.{false, Ok};
ghost use Rattle.disk_model.specs.Files.{Name};
ghost use Rattle.pv_catalog.specs.Rows.{KeepsRows};
ghost use Rattle.store_manifest.specs.Manifest.{ManifestState};
ghost use Rattle.durable_write.specs.Ends.{end_of_disk};
ghost use Rattle.tier_store.specs.Stores.{Stores};
ghost use Rattle.tier_store.specs.Seen.{seen, AtEach, IsSettled, granularities};
ghost use Rattle.tier_store.specs.Change.{IsOpen, HasEither, OnlySettles};
ghost use Rattle.tier_store.specs.Frame.{Frame};
ghost use Rattle.tier_store.specs.Moving.{LeavesLater};
ghost use Rattle.tier_store.specs.Pinned.{seen_all};

use crate::TierStore;
use disk_model::{Disk, DiskErr};
use store_manifest::Manifest;

// The place of the manifest of which a change stands in doubt.
fn doubted(manifests: &[Manifest]) -> Option<usize>
    ensures found { IfSome result (λ i. (i < length manifests.now)
        × ((m : ManifestState) → slice_get manifests.now i ≡ Some m → m.journal.sound ≡ false)) }
    ensures none { result ≡ None → AtEach manifests.now (λ i m. m.journal.sound ≡ true) }
{
    manifests.iter().position(|manifest| !manifest.is_sound())
}

impl<D: Disk> TierStore<D> {
    // Takes in a change of the rows that stands in doubt.
    fn settle_rows(&mut self) -> Result<(), DiskErr>
        requires unsound { self.old.catalogue.journal.sound ≡ false }
        requires begun { (before : Stores) × (after : Stores) × IsOpen D.tells (seen D.Disk self.old) before after }
        ensures settled { (before after : Stores) → IsOpen D.tells (seen D.Disk self.old) before after
            → OnOk result (HasEither D.tells (seen D.Disk self.new) before after) }
        ensures still { (before after : Stores) → IsOpen D.tells (seen D.Disk self.old) before after
            → OnErr result (IsOpen D.tells (seen D.Disk self.new) before after) }
        ensures keeps { KeepsRows self.old.catalogue.rows self.new.catalogue.rows }
        ensures manifests { self.new.manifests.items ≡ self.old.manifests.items }
        ensures pins { self.new.pinned ≡ self.old.pinned }
        ensures limbo { self.new.limbo ≡ self.old.limbo }
        ensures settles { OnlySettles D.tells (seen D.Disk self.old) (seen D.Disk self.new) (end_of_disk result) }
        ensures leaves { LeavesLater D.tells (seen_all D.Disk self.old) (seen_all D.Disk self.new) }
        ensures opened { IsTrue D.tells → (n : Name) → D.opened self.new.disk n ≤ D.opened self.old.disk n }
    {
        self.catalogue.review(&mut self.disk)?;
        Ok(())
    }

    // Takes in a change of the manifest at this place that stands in doubt.
    fn settle_list(&mut self, i: usize) -> Result<(), DiskErr>
        requires within { i < length self.old.manifests.items }
        requires unsound { (m : ManifestState) → slice_get self.old.manifests.items i ≡ Some m
            → m.journal.sound ≡ false }
        requires begun { (before : Stores) × (after : Stores) × IsOpen D.tells (seen D.Disk self.old) before after }
        ensures settled { (before after : Stores) → IsOpen D.tells (seen D.Disk self.old) before after
            → OnOk result (HasEither D.tells (seen D.Disk self.new) before after) }
        ensures still { (before after : Stores) → IsOpen D.tells (seen D.Disk self.old) before after
            → OnErr result (IsOpen D.tells (seen D.Disk self.new) before after) }
        ensures catalogue { self.new.catalogue ≡ self.old.catalogue }
        ensures pins { self.new.pinned ≡ self.old.pinned }
        ensures limbo { self.new.limbo ≡ self.old.limbo }
        ensures granularity { granularities self.new.manifests.items ≡ granularities self.old.manifests.items }
        ensures settles { OnlySettles D.tells (seen D.Disk self.old) (seen D.Disk self.new) (end_of_disk result) }
        ensures leaves { LeavesLater D.tells (seen_all D.Disk self.old) (seen_all D.Disk self.new) }
        ensures opened { IsTrue D.tells → (n : Name) → D.opened self.new.disk n ≤ D.opened self.old.disk n }
    {
        self.manifests[i].review(&mut self.disk)?;
        Ok(())
    }

    /// After a fault in a call that changes the stores: finds out whether its change was made, and takes it in if it
    /// was. Where nothing is in doubt it makes no call of the disk. It is the one call that settles a doubt: all others
    /// but `open_piece` and `unpin` need that there is none.
    ///
    /// After an error the doubt stands as before. `Fault` comes only where the disk's count of faults rose in the call.
    pub fn review(&mut self) -> Result<(), DiskErr>
        requires begun { (before : Stores) × (after : Stores) × IsOpen D.tells (seen D.Disk self.old) before after }

        ensures settled { (before after : Stores) → IsOpen D.tells (seen D.Disk self.old) before after
            → OnOk result (HasEither D.tells (seen D.Disk self.new) before after) }
        ensures still { (before after : Stores) → IsOpen D.tells (seen D.Disk self.old) before after
            → OnErr result (IsOpen D.tells (seen D.Disk self.new) before after) }
        ensures keeps { KeepsRows self.old.catalogue.rows self.new.catalogue.rows }
        ensures granularity { granularities self.new.manifests.items ≡ granularities self.old.manifests.items }
        ensures rows { IsTrue self.old.catalogue.journal.sound → self.new.catalogue ≡ self.old.catalogue }
        ensures frame { Frame D.tells (seen_all D.Disk self.old) (seen_all D.Disk self.new) }
        ensures same { (self.new.pinned ≡ self.old.pinned) × (self.new.limbo ≡ self.old.limbo) }
        ensures nothing { IsSettled (seen D.Disk self.old) → (result ≡ Ok tt) × (self.new ≡ self.old) }
        ensures settles { OnlySettles D.tells (seen D.Disk self.old) (seen D.Disk self.new) (end_of_disk result) }
        ensures opened { IsTrue D.tells → (n : Name) → D.opened self.new.disk n ≤ D.opened self.old.disk n }
    {
        if !self.catalogue.is_sound() {
            return self.settle_rows();
        }
        match doubted(&self.manifests) {
            Some(i) => self.settle_list(i),
            None => Ok(()),
        }
    }
}
