// The retirement: the oldest files of a row leave a store's list.
//
// They go to limbo first, so that what is pinned is there whatever comes of the commit. Those that no pin
// names are removed behind it.
ghost use Rattle.std.specs.Prelude.{◌≡◌, ◌≤◌, ◌<◌, ◌+◌, ℕ, List, All, Ok, Some, None, IfErr, IfOk, IsErr};
ghost use Rattle.std.specs.Prelude.{IsTrue, Contains, [], length, map, slice_get};
ghost use Rattle.series_model.specs.Limits.{most_parts};
ghost use Rattle.disk_model.specs.Files.{Name, Rose};
ghost use Rattle.store_manifest.specs.Manifest.{ManifestState};
ghost use Rattle.durable_write.specs.Ends.{end_of_disk};
ghost use Rattle.durable_write.specs.Held.{Filed};
ghost use Rattle.tier_store.specs.Stores.{Stores};
ghost use Rattle.tier_store.specs.Seen.{seen, IsSettled};
ghost use Rattle.tier_store.specs.Change.{Has, IsKnown, Changes};
ghost use Rattle.tier_store.specs.Limbo.{LimboStands, AreRemovable, IsUseless, NamesDiffer};
ghost use Rattle.tier_store.specs.Pinned.{seen_all, KeepsShown};
ghost use Rattle.tier_store.specs.Retiring.{FailsToRetire, AreApart, oldest, oldest_entries, drop_entry, retired_of};
ghost use Rattle.tier_store.specs.Retiring.{dropping, retiring, HasGrown, HasNotGrown, Remain, ShowsKept};
ghost use Rattle.tier_store.specs.Moving.{LeavesFiles, LeavesNames};
ghost use Rattle.tier_store.specs.Revival.{KeepsWholeOf};
ghost use Rattle.tier_store.specs.Strays.{HasRemoved, LeavesNoStray};
ghost use Rattle.tier_store.specs.declared.limbo.Retired.{Retired as RetiredValue};
ghost use Rattle.tier_store.specs.declared.retirement.RetireEnd.TheVariants.{Again, Retired as IsRetired};

use crate::TierStore;
use crate::retiring::{Leaving, oldest};
use disk_model::{Disk, DiskErr, FileName};
use durable_write::relist;
use store_manifest::{Change, Entry};

/// How a retirement ended.
#[derive(Clone, Copy, Debug, PartialEq, Eq)]
pub enum RetireEnd {
    /// The store lists the files no more. Those that a pin names are in limbo. `removed` says whether the others are
    /// removed from the disk for good: else `Fault`, and some may be there still.
    Retired { removed: Result<(), DiskErr> },
    /// A file is listed at `len` bytes, longer than the `copied` bytes up to which it was copied. Nothing has changed.
    Again { len: u64, copied: u64 },
}

// The first entry that is listed longer than it was copied: its length, and that up to which it was copied.
fn grown(now: &[Entry], published: &[u64]) -> Option<(u64, u64)>
    requires { length now.now ≤ length published.now }
    ensures grown { (len copied : ℕ) → result ≡ Some (len, copied) → HasGrown published.now now.now len copied }
    ensures none { result ≡ None → (k : ℕ) → HasNotGrown published.now now.now k }
{
    for (i, entry) in now.iter().enumerate() {
        if entry.len > published[i] {
            return Some((entry.len, published[i]));
        }
    }
    None
}

impl<D: Disk> TierStore<D> {
    // Drops the oldest entries of a row at a place in one commit, where no change stands in doubt and
    // their files are in limbo.
    fn drop_oldest(
        &mut self,
        place: usize,
        row: u32,
        n: usize,
        drops: &[Change],
    ) -> Result<(), DiskErr>
        requires within { place < length self.old.manifests.items }
        requires few { length drops.now ≤ most_parts }
        requires has { (held : Stores) × Has D.tells (seen D.Disk self.old) held }
        requires drops { (m : ManifestState) → slice_get self.old.manifests.items place ≡ Some m
            → drops.now ≡ map drop_entry (oldest_entries row n m.entries) }
        requires handed { (held : Stores) (f : Filed) → IsKnown self.old.catalogue self.old.manifests.items held
            → Contains (oldest place row n held) f
            → Contains self.old.limbo.items (retired_of (place + 1, self.old.catalogue.rows) f.entry) }

        ensures changes { Changes D.tells (dropping place row n)
            (seen D.Disk self.old) (seen D.Disk self.new) (end_of_disk result) }
        ensures shown { KeepsShown D.tells (seen_all D.Disk self.old) (seen_all D.Disk self.new) }
        ensures leaves { LeavesFiles D.tells (seen_all D.Disk self.old) (seen_all D.Disk self.new) }
        ensures catalogue { self.new.catalogue ≡ self.old.catalogue }
        ensures pins { self.new.pinned ≡ self.old.pinned }
        ensures limbo { self.new.limbo ≡ self.old.limbo }
    {
        relist(&mut self.disk, &mut self.manifests[place], drops)
    }

    // Asks which of the files that are to leave no pin names and are there, and then drops these from their list.
    fn drop_asked(
        &mut self,
        place: usize,
        row: u32,
        n: usize,
        leaving: &Leaving,
    ) -> Result<Vec<FileName>, DiskErr>
        requires within { place < length self.old.manifests.items }
        requires few { length leaving.now.drops.items ≤ most_parts }
        requires has { (held : Stores) × Has D.tells (seen D.Disk self.old) held }
        requires drops { (m : ManifestState) → slice_get self.old.manifests.items place ≡ Some m
            → leaving.now.drops.items ≡ map drop_entry (oldest_entries row n m.entries) }
        requires handed { (held : Stores) (f : Filed) → IsKnown self.old.catalogue self.old.manifests.items held
            → Contains (oldest place row n held) f
            → Contains self.old.limbo.items (retired_of (place + 1, self.old.catalogue.rows) f.entry) }
        requires differ { NamesDiffer leaving.now.files.items }
        requires numbered { All (λ (r : RetiredValue). 1 ≤ r.name.0) leaving.now.files.items }

        ensures removable { IsTrue D.tells → IfOk result (λ names.
            AreRemovable (IsUseless self.old.pinned []) leaving.now.files.items (D.files self.new.disk) names.items) }
        ensures changes { Changes D.tells (dropping place row n)
            (seen D.Disk self.old) (seen D.Disk self.new) (end_of_disk result) }
        ensures shown { KeepsShown D.tells (seen_all D.Disk self.old) (seen_all D.Disk self.new) }
        ensures leaves { LeavesFiles D.tells (seen_all D.Disk self.old) (seen_all D.Disk self.new) }
        ensures catalogue { self.new.catalogue ≡ self.old.catalogue }
        ensures pins { self.new.pinned ≡ self.old.pinned }
        ensures limbo { self.new.limbo ≡ self.old.limbo }
    {
        let removable = self.find_leaving(&leaving.files)?;
        self.drop_oldest(place, row, n, &leaving.drops)?;
        Ok(removable)
    }

    /// Takes the oldest files of a row, as many as lengths are given, from the list at a place, which is a store's
    /// number less one: of store 1 or 2. `published` has the lengths in bytes up to which these files were copied to
    /// the next store, which lists that, oldest first. It needs that nothing stands in doubt, as after `review`.
    /// `Again` comes exactly where a file is listed longer than it was copied; it tells of the first of these, and
    /// nothing has changed then.
    ///
    /// Else the files go to limbo, one commit drops them from the list, and those that no pin names leave limbo and are
    /// removed. A crash at any moment leaves what was held, or that without the files. What is pinned stays as it is,
    /// whatever is answered, and so do all names of stores 1 to 3 but those of the files. Which of the files are there
    /// is asked before the commit. A removal that fails is no failure of the retirement; it is told, as `Fault` alone.
    ///
    /// After `Fault`, which comes only where the disk's count of faults rose in the call, it may not be known whether
    /// the commit was made; `review` finds out. The files are in limbo till then, and count for nothing while they are
    /// listed. After `Memory` what was held is still held.
    pub fn retire(
        &mut self,
        place: usize,
        row: u32,
        published: &[u64],
    ) -> Result<RetireEnd, DiskErr>
        requires within { place < 2 }
        requires few { length published.now ≤ most_parts }
        requires has { (held : Stores) × Has D.tells (seen D.Disk self.old) held }
        requires stands { LimboStands (seen D.Disk self.old) self.old.limbo.items }

        ensures changes { Changes D.tells (retiring place row published.now
            (Remain D.tells (seen D.Disk self.new) self.old.pinned self.old.limbo.items self.new.limbo.items))
            (seen D.Disk self.old) (seen D.Disk self.new) (end_of_disk result) }
        ensures shown { ShowsKept D.tells self.old.pinned (seen_all D.Disk self.old) (seen_all D.Disk self.new) }
        ensures leaves { (held : Stores) (names : List Name) → Has D.tells (seen D.Disk self.old) held
            → All (λ (n : Name). 1 ≤ n.0) names
            → AreApart place row (length published.now) held names
            → LeavesNames names D.tells (seen_all D.Disk self.old) (seen_all D.Disk self.new) }
        ensures whole { (held : Stores) → Has D.tells (seen D.Disk self.old) held
            → KeepsWholeOf D.tells (seen_all D.Disk self.old) (seen_all D.Disk self.new) held }
        ensures tidy { IfOk result (λ end. IsSettled (seen D.Disk self.new)
            × (HasRemoved end → LeavesNoStray D.tells (seen_all D.Disk self.old) (seen_all D.Disk self.new))) }
        ensures again { (len copied : ℕ) → result ≡ Ok (Again len copied) → self.new.limbo ≡ self.old.limbo }
        ensures fails { IfErr result (λ e. FailsToRetire place row published.now D.tells
            (seen_all D.Disk self.old) (seen_all D.Disk self.new) e) }
        ensures cause { (removed : _) → result ≡ Ok (IsRetired removed) → IsErr removed
            → Rose (D.faults self.old.disk) (D.faults self.new.disk) }
        ensures stands { LimboStands (seen D.Disk self.new) self.new.limbo.items }
        ensures same { (self.new.catalogue ≡ self.old.catalogue) × (self.new.pinned ≡ self.old.pinned) }
    {
        let n = published.len();
        let entries = oldest(self.manifests[place].entries(row), n);
        if let Some((len, copied)) = grown(entries, published) {
            return Ok(RetireEnd::Again { len, copied });
        }
        let leaving = self.hand_over(place, row, n)?;
        let removable = self.drop_asked(place, row, n, &leaving)?;
        let removed = self.remove_handed(&leaving.files, &removable);
        Ok(RetireEnd::Retired { removed })
    }
}
