// The removal of files in limbo that nothing needs: it is asked which of them are there, as long as nothing has
// changed, since only that may want memory. Then each of these is removed, and then each name is synced, so that a
// folder which loses many files is synced once. One that isn't there counts as removed.
//
// Where the disk fails, the others are removed still. What is left so is an unlisted file: it is removed when
// its name is written again.
ghost use Rattle.std.specs.Prelude.{◌≡◌, ◌≢◌, ◌≤◌, ◌+◌, ◌↔◌, None, true, false, All, OnOk, IfOk, IsErr, IsErrOf};
ghost use Rattle.std.specs.Prelude.{IsTrue, IsSome, length};
ghost use Rattle.disk_model.specs.Files.{Name, Rose};
ghost use Rattle.disk_model.specs.Past.{Passes, Only};
ghost use Rattle.disk_model.specs.Record.{is_same};
ghost use Rattle.gate_journal.specs.DiskShown.{shown_by};
ghost use Rattle.std.specs.List.{list_any, AllPairs};
ghost use Rattle.store_manifest.specs.Entries.{InOrder};
ghost use Rattle.tier_store.specs.Counting.{OnlyReadsDisk};
ghost use Rattle.tier_store.specs.Limbo.{IsNeeded, StayNeeded, Elsewhere, Removes, RemovesNames, AreFree, AreRemovable};
ghost use Rattle.tier_store.specs.Limbo.{IsUseless, IsLeftOver, NamesDiffer};
ghost use Rattle.tier_store.specs.Seen.{AtEach};

use crate::limbo::{Retired, is_unlisted};
use disk_model::{Disk, DiskErr, FileName};
use pins::PinnedPieces;
use std::alloc::Global;
use store_manifest::Manifest;

/// What a sweep has done.
#[derive(Clone, Copy, Debug, PartialEq, Eq)]
pub struct StoreSwept {
    /// How many files have left limbo since nothing needs them.
    pub files: u64,
    /// Whether these are removed from the disk for good: else `Fault`, and some may be there still.
    pub removed: Result<(), DiskErr>,
}

// The names of those of the files that are there, that no manifest lists, that no pin names and into which
// no running move has copied.
pub(crate) fn find_removable<D: Disk>(
    alloc: Global,
    disk: &mut D,
    manifests: &[Manifest],
    files: &[Retired],
    pinned: &PinnedPieces,
    copied: &[FileName],
) -> Result<Vec<FileName>, DiskErr>
    requires { NamesDiffer files.now }
    ensures found { IsTrue D.tells → AtEach manifests.now (λ i m. InOrder m.entries)
        → IfOk result (λ names.
        AreRemovable (IsLeftOver manifests.now pinned.now copied.now) files.now (D.files disk.old) names.items) }
    ensures reads { OnlyReadsDisk D.Disk disk.old disk.new }
    ensures faults { D.faults disk.old ≤ D.faults disk.new }
    ensures cause { IsErrOf result DiskErr.Fault → Rose (D.faults disk.old) (D.faults disk.new) }
{
    let mut names = Vec::new(alloc);
    for file in files {
        if !is_left_over(manifests, file, pinned, copied) {
            continue;
        }
        let there = is_there(disk, &file.name)?;
        if there {
            names.push(file.name.copy(alloc)?)?;
        }
    }
    Ok(names)
}

// Whether no manifest lists a file and nothing needs it.
fn is_left_over(
    manifests: &[Manifest],
    file: &Retired,
    pinned: &PinnedPieces,
    copied: &[FileName],
) -> bool
    ensures left { AtEach manifests.now (λ i m. InOrder m.entries) → result ≡ true
        → IsLeftOver manifests.now pinned.now copied.now file.now }
    ensures other { AtEach manifests.now (λ i m. InOrder m.entries) → result ≡ false
        → IsLeftOver manifests.now pinned.now copied.now file.now → ⊥ }
{
    is_unlisted(manifests, file) && !is_needed(pinned, copied, &file.name)
}

// Whether a file has the name.
fn is_there<D: Disk>(disk: &mut D, name: &FileName) -> Result<bool, DiskErr>
    ensures there { IsTrue D.tells → IfOk result (λ there. IsTrue there ↔ IsSome (D.files disk.old name.now)) }
    ensures reads { OnlyReadsDisk D.Disk disk.old disk.new }
    ensures faults { D.faults disk.old ≤ D.faults disk.new }
    ensures cause { IsErrOf result DiskErr.Fault → Rose (D.faults disk.old) (D.faults disk.new) }
{
    let size = disk.size(name)?;
    Ok(size.is_some())
}

// Takes from limbo those of its files that nothing needs, and removes them from the disk, where
// just these names have a file.
pub(crate) fn clear_limbo<D: Disk>(
    disk: &mut D,
    limbo: &mut Vec<Retired>,
    removable: &[FileName],
    pinned: &PinnedPieces,
    copied: &[FileName],
) -> StoreSwept
    requires { IsTrue D.tells
        → AreRemovable (IsUseless pinned.now copied.now) limbo.old.items (D.files disk.old) removable.now }

    ensures removes { IsTrue D.tells
        → Removes pinned.now copied.now limbo.old.items (shown_by D.Disk disk.old) (shown_by D.Disk disk.new) }
    ensures gone { IsTrue D.tells
        → OnOk result.removed (AreFree pinned.now copied.now (λ n. Only (D.past disk.new) n None) limbo.old.items) }
    ensures needed { StayNeeded pinned.now copied.now limbo.old.items limbo.new.items }
    ensures count { result.files + length limbo.new.items ≡ length limbo.old.items }
    ensures faults { D.faults disk.old ≤ D.faults disk.new }
    ensures cause { IsErr result.removed → Rose (D.faults disk.old) (D.faults disk.new) }
{
    let removed = remove_for_good(disk, limbo.as_slice(), removable, pinned, copied);
    let files = keep_needed(limbo, pinned, copied);
    StoreSwept { files, removed }
}

// Removes those of the files that nothing needs, so that no crash brings them back. Just these names have a file.
pub(crate) fn remove_for_good<D: Disk>(
    disk: &mut D,
    files: &[Retired],
    removable: &[FileName],
    pinned: &PinnedPieces,
    copied: &[FileName],
) -> Result<(), DiskErr>
    requires { IsTrue D.tells
        → AreRemovable (IsUseless pinned.now copied.now) files.now (D.files disk.old) removable.now }

    ensures removes { IsTrue D.tells
        → Removes pinned.now copied.now files.now (shown_by D.Disk disk.old) (shown_by D.Disk disk.new) }
    ensures gone { IsTrue D.tells
        → OnOk result (AreFree pinned.now copied.now (λ n. Only (D.past disk.new) n None) files.now) }
    ensures faults { D.faults disk.old ≤ D.faults disk.new }
    ensures cause { IsErr result → Rose (D.faults disk.old) (D.faults disk.new) }
{
    let removed = remove_all(disk, removable);
    let synced = sync_unneeded(disk, files, pinned, copied);
    synced.and(removed)
}

// Takes from limbo what nothing needs, and answers how many files that were.
fn keep_needed(limbo: &mut Vec<Retired>, pinned: &PinnedPieces, copied: &[FileName]) -> u64
    ensures needed { StayNeeded pinned.now copied.now limbo.old.items limbo.new.items }
    ensures count { result + length limbo.new.items ≡ length limbo.old.items }
{
    let before = limbo.len();
    limbo.retain(|file| is_needed(pinned, copied, &file.name));
    (before - limbo.len()) as u64
}

// Whether a pin names a file, or a running move has copied into it.
pub(crate) fn is_needed(pinned: &PinnedPieces, copied: &[FileName], name: &FileName) -> bool
    ensures { IsTrue result ↔ IsNeeded pinned.now copied.now name.now }
{
    pinned.pins().is_pinned(name) || is_among(copied, name)
}

// Whether one of the names is this one.
fn is_among(names: &[FileName], name: &FileName) -> bool
    ensures { result ≡ list_any (λ other. is_same other name.now) names.now }
{
    names.iter().any(|other| other.is_same(name))
}

// Removes the files of these names, one after another, and syncs none. It goes on behind a
// failure, and answers the last.
fn remove_all<D: Disk>(disk: &mut D, names: &[FileName]) -> Result<(), DiskErr>
    requires { IsTrue D.tells
        → AllPairs (λ (a b : Name). a ≢ b) names.now × All (λ (n : Name). IsSome (D.files disk.old n)) names.now }

    ensures removes { IsTrue D.tells → RemovesNames names.now (shown_by D.Disk disk.old) (shown_by D.Disk disk.new) }
    ensures gone { IsTrue D.tells → OnOk result (All (λ (n : Name). D.files disk.new n ≡ None) names.now) }
    ensures faults { D.faults disk.old ≤ D.faults disk.new }
    ensures cause { IsErr result → Rose (D.faults disk.old) (D.faults disk.new) }
{
    let mut done = Ok(());
    for name in names {
        let removed = remove_file(disk, name);
        done = removed.and(done);
    }
    done
}

// Removes a file.
fn remove_file<D: Disk>(disk: &mut D, name: &FileName) -> Result<(), DiskErr>
    requires { IsTrue D.tells → IsSome (D.files disk.old name.now) }
    ensures gone { IsTrue D.tells → OnOk result (D.files disk.new name.now ≡ None) }
    ensures elsewhere { IsTrue D.tells → Elsewhere name.now (D.files disk.old) (D.files disk.new) }
    ensures any_moment { IsTrue D.tells → Passes (Elsewhere name.now) (D.past disk.old) (D.past disk.new) }
    ensures fewer { IsTrue D.tells → (n : Name) → D.opened disk.new n ≤ D.opened disk.old n }
    ensures faults { D.faults disk.old ≤ D.faults disk.new }
    ensures cause { IsErr result → Rose (D.faults disk.old) (D.faults disk.new) }
{
    disk.remove(name)
}

// Syncs the names of those of the files that nothing needs, one after another: each later crash leaves of them what
// reads give. It goes on behind a failure, and answers the last.
fn sync_unneeded<D: Disk>(
    disk: &mut D,
    files: &[Retired],
    pinned: &PinnedPieces,
    copied: &[FileName],
) -> Result<(), DiskErr>
    ensures durable { IsTrue D.tells
        → OnOk result (AreFree pinned.now copied.now (λ n. Only (D.past disk.new) n (D.files disk.old n)) files.now) }
    ensures reads { OnlyReadsDisk D.Disk disk.old disk.new }
    ensures faults { D.faults disk.old ≤ D.faults disk.new }
    ensures cause { IsErr result → Rose (D.faults disk.old) (D.faults disk.new) }
{
    let mut done = Ok(());
    for file in files {
        if is_needed(pinned, copied, &file.name) {
            continue;
        }
        let synced = disk.sync(&file.name);
        done = synced.and(done);
    }
    done
}
