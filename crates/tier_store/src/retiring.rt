// How a retirement hands its files over to limbo, and removes from the disk what no pin names.
//
// They go there before its commit, so that pinned pieces are there whatever comes of it: made, not made or in doubt.
// While a store lists them they count for nothing.
ghost use Rattle.std.specs.Prelude.{◌≡◌, ◌<◌, ◌+◌, ◌++◌, [], List, All, Contains, IfOk, OnOk, OnErr, IsErr, IsTrue};
ghost use Rattle.std.specs.Prelude.{None, Some, true, false, length, map, slice_get, take};
ghost use Rattle.std.specs.List.{list_any};
ghost use Rattle.disk_model.specs.Files.{Name, Rose};
ghost use Rattle.disk_model.specs.Past.{Only};
ghost use Rattle.disk_model.specs.Record.{is_same};
ghost use Rattle.store_manifest.specs.Manifest.{ManifestState};
ghost use Rattle.store_manifest.specs.declared.entry.Entry.{Entry as EntryValue};
ghost use Rattle.durable_write.specs.Ends.{Done, end_of_disk};
ghost use Rattle.tier_store.specs.Stores.{Stores};
ghost use Rattle.tier_store.specs.Seen.{seen, SameMemory};
ghost use Rattle.tier_store.specs.Change.{Has, Changes};
ghost use Rattle.tier_store.specs.Pinned.{seen_all, KeepsShown};
ghost use Rattle.tier_store.specs.Limbo.{LimboStands, AreRemovable, IsUseless, NamesDiffer, IsListedName, Stay};
ghost use Rattle.tier_store.specs.Limbo.{StayUnlisted, LeaveListed, LeavesKept, AreFree, staying};
ghost use Rattle.tier_store.specs.Copying.{OnlyLooks};
ghost use Rattle.tier_store.specs.Moving.{LeavesFiles, LeavesNames};
ghost use Rattle.tier_store.specs.Retiring.{IsFree, Stays, names_in, oldest_entries, drop_entry, retired_of};
ghost use Rattle.tier_store.specs.Revival.{KeepsWhole};
ghost use Rattle.tier_store.specs.declared.limbo.Retired.{Retired as RetiredValue};

use crate::TierStore;
use crate::limbo::{Retired, leave_listed};
use crate::removing::{find_removable, is_needed, remove_for_good};
use disk_model::{Disk, DiskErr, FileName};
use durable_write::file_name;
use pins::PinnedPieces;
use pv_catalog::Row;
use std::alloc::{AllocError, Global};
use store_manifest::{Change, Entry};

// What a retirement takes from a list: the files, and the changes that drop them.
#[derive(Drop)]
pub(crate) struct Leaving {
    pub(crate) files: Vec<Retired>,
    pub(crate) drops: Vec<Change>,
}

// Whether a file of this name leaves.
fn leaves(files: &[Retired], name: &FileName) -> bool
    ensures { result ≡ list_any (λ other. is_same other.name name.now) files.now }
{
    files.iter().any(|other| other.name.is_same(name))
}

// Whether a file stays in limbo: it isn't one that leaves, or a pin names it.
fn remains(files: &[Retired], pinned: &PinnedPieces, name: &FileName) -> bool
    ensures stays { result ≡ true → Stays pinned.now files.now name.now }
    ensures leaves { result ≡ false → IsFree pinned.now files.now name.now }
{
    !leaves(files, name) || is_needed(pinned, &[], name)
}

// The oldest entries of a list, so many.
pub(crate) fn oldest(entries: &[Entry], n: usize) -> &[Entry]
    ensures { result.now ≡ take n entries.now }
{
    &entries[..n.min(entries.len())]
}

// A listed file as one to be retired.
fn retired(alloc: Global, store: u8, rows: &[Row], entry: &Entry) -> Result<Retired, AllocError>
    requires { entry.now.series < length rows.now }
    ensures { IfOk result (λ file. file ≡ retired_of (store, rows.now) entry.now) }
{
    let name = file_name(alloc, store, rows, entry)?;
    Ok(Retired {
        name,
        entry: *entry,
    })
}

// Listed files as ones to be retired.
fn all_retired(
    alloc: Global,
    store: u8,
    rows: &[Row],
    entries: &[Entry],
) -> Result<Vec<Retired>, AllocError>
    requires { All (λ (e : EntryValue). e.series < length rows.now) entries.now }
    ensures { IfOk result (λ files. files.items ≡ map (retired_of (store, rows.now)) entries.now) }
{
    let mut files = Vec::with_capacity(alloc, entries.len())?;
    for entry in entries {
        files.push(retired(alloc, store, rows, entry)?)?;
    }
    Ok(files)
}

// The changes that drop entries.
fn drops(alloc: Global, entries: &[Entry]) -> Result<Vec<Change>, AllocError>
    ensures { IfOk result (λ changes. changes.items ≡ map drop_entry entries.now) }
{
    entries
        .iter()
        .map(|entry| Change::Drop {
            series: entry.series,
            start: entry.part.start,
        })
        .collect(alloc)
}

impl<D: Disk> TierStore<D> {
    // Takes from limbo what a store lists again, puts the oldest files of a row at a place behind the rest, and answers
    // these files and the changes that drop them from their list.
    pub(crate) fn hand_over(
        &mut self,
        place: usize,
        row: u32,
        n: usize,
    ) -> Result<Leaving, AllocError>
        requires within { place < 2 }
        requires has { (held : Stores) × Has D.tells (seen D.Disk self.old) held }
        requires stands { LimboStands (seen D.Disk self.old) self.old.limbo.items }

        ensures files { (m : ManifestState) → slice_get self.old.manifests.items place ≡ Some m
            → IfOk result (λ l.
            l.files.items ≡ map (retired_of (place + 1, self.old.catalogue.rows)) (oldest_entries row n m.entries)) }
        ensures drops { (m : ManifestState) → slice_get self.old.manifests.items place ≡ Some m
            → IfOk result (λ l. l.drops.items ≡ map drop_entry (oldest_entries row n m.entries)) }
        ensures entered { IfOk result (λ l. (kept : List RetiredValue)
            × StayUnlisted (seen D.Disk self.old) self.old.limbo.items kept
            × (self.new.limbo.items ≡ kept ++ l.files.items)) }
        ensures failed { OnErr result (LeaveListed (seen D.Disk self.old) self.old.limbo.items self.new.limbo.items) }
        ensures whole { OnErr result (KeepsWhole D.tells (seen_all D.Disk self.old) (seen_all D.Disk self.new)) }
        ensures shown { KeepsShown D.tells (seen_all D.Disk self.old) (seen_all D.Disk self.new) }
        ensures same { (self.new.catalogue ≡ self.old.catalogue)
            × (self.new.manifests ≡ self.old.manifests)
            × (self.new.disk ≡ self.old.disk)
            × (self.new.pinned ≡ self.old.pinned) }
    {
        let store = place as u8 + 1;
        let rows = self.catalogue.rows();
        let entries = oldest(self.manifests[place].entries(row), n);
        let files = all_retired(self.alloc, store, rows, entries)?;
        let mut entering = all_retired(self.alloc, store, rows, entries)?;
        let drops = drops(self.alloc, entries)?;
        leave_listed(&self.manifests, &mut self.limbo);
        self.limbo.append(&mut entering)?;
        Ok(Leaving { files, drops })
    }

    // Asks which of the files no pin names and are there, whether a store lists them or not.
    pub(crate) fn find_leaving(&mut self, files: &[Retired]) -> Result<Vec<FileName>, DiskErr>
        requires has { (held : Stores) × Has D.tells (seen D.Disk self.old) held }
        requires differ { NamesDiffer files.now }

        ensures found { IsTrue D.tells → IfOk result (λ names.
            AreRemovable (IsUseless self.new.pinned []) files.now (D.files self.new.disk) names.items) }
        ensures looks { OnlyLooks D.tells (seen_all D.Disk self.old) (seen_all D.Disk self.new) (end_of_disk result) }
        ensures later { LeavesFiles D.tells (seen_all D.Disk self.old) (seen_all D.Disk self.new) }
        ensures same { SameMemory self.old self.new }
    {
        find_removable(self.alloc, &mut self.disk, &[], files, &self.pinned, &[])
    }

    // Takes from limbo files that have left their list, but for those that a pin names, and removes them from the disk,
    // where just these names have a file.
    pub(crate) fn remove_handed(
        &mut self,
        files: &[Retired],
        removable: &[FileName],
    ) -> Result<(), DiskErr>
        requires has { (held : Stores) × Has D.tells (seen D.Disk self.old) held }
        requires stands { LimboStands (seen D.Disk self.old) self.old.limbo.items }
        requires unlisted { All
            (λ (r : RetiredValue). IsListedName (seen D.Disk self.old) r.name → ⊥) self.old.limbo.items }
        requires among { All (Contains self.old.limbo.items) files.now }
        requires removable { IsTrue D.tells
            → AreRemovable (IsUseless self.old.pinned []) files.now (D.files self.old.disk) removable.now }

        ensures changes { Changes D.tells staying (seen D.Disk self.old) (seen D.Disk self.new) (Done result) }
        ensures leaves { LeavesKept D.tells self.old.pinned (names_in self.new.limbo.items)
            (seen_all D.Disk self.old) (seen_all D.Disk self.new) }
        ensures others { (names : List Name) → All (λ (r : RetiredValue). Contains names r.name → ⊥) files.now
            → LeavesNames names D.tells (seen_all D.Disk self.old) (seen_all D.Disk self.new) }
        ensures whole { KeepsWhole D.tells (seen_all D.Disk self.old) (seen_all D.Disk self.new) }
        ensures stands { LimboStands (seen D.Disk self.new) self.new.limbo.items }
        ensures left { Stay (λ r. Stays self.old.pinned files.now r.name)
            (λ r. IsFree self.old.pinned files.now r.name) self.old.limbo.items self.new.limbo.items }
        ensures gone { IsTrue D.tells
            → OnOk result (AreFree self.old.pinned [] (λ n. Only (D.past self.new.disk) n None) files.now) }
        ensures cause { IsErr result → Rose (D.faults self.old.disk) (D.faults self.new.disk) }
        ensures same { (self.new.catalogue ≡ self.old.catalogue)
            × (self.new.manifests ≡ self.old.manifests)
            × (self.new.pinned ≡ self.old.pinned) }
    {
        let pinned = &self.pinned;
        let removed = remove_for_good(&mut self.disk, files, removable, pinned, &[]);
        self.limbo.retain(|file| remains(files, pinned, &file.name));
        removed
    }
}
