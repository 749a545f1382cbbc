// The sweep at an opening: strays are removed, so that no crash brings them back.
ghost use Rattle.std.specs.Prelude.{◌≡◌, ◌≤◌, ◌<◌, ◌+◌, ℕ, All, None, OnOk, IsErrOf, IsTrue, false, length};
ghost use Rattle.disk_model.specs.Files.{Name, Rose};
ghost use Rattle.pv_catalog.specs.Rows.{AreRows};
ghost use Rattle.store_manifest.specs.Entries.{AreEntries};
ghost use Rattle.tier_store.specs.Seen.{AtEach};
ghost use Rattle.store_reopen.specs.Verdict.{HasRow};
ghost use Rattle.store_reopen.specs.Strays.{AreGone, IsGone, IsGoneIf, IsStrayBelow, IsStrayOf, Removes};

use crate::journals::STORES;
use crate::strays::is_stray;
use disk_model::{Disk, DiskErr, FileName};
use pv_catalog::Catalogue;
use std::alloc::Global;
use store_manifest::Manifest;

// Removes the strays of all stores, but none while an adoption isn't finished.
pub(crate) fn sweep_finished<D: Disk>(
    alloc: Global,
    disk: &mut D,
    catalogue: &Catalogue,
    manifests: &[Manifest],
    unfinished: bool,
) -> Result<(), DiskErr>
    requires three { length manifests.now ≡ 3 }
    requires rows { AreRows catalogue.now.rows }
    requires entries { AtEach manifests.now (λ i m. AreEntries m.granularity m.entries) }
    requires of_rows { AtEach manifests.now (λ i m. All (HasRow catalogue.now.rows) m.entries) }
    ensures removes { IsTrue D.tells
        → Removes D.Disk (IsStrayBelow 3 catalogue.now.rows manifests.now) disk.old disk.new }
    ensures gone { IsTrue D.tells → unfinished ≡ false
        → OnOk result (AreGone (IsStrayBelow 3 catalogue.now.rows manifests.now)
        (D.files disk.old) (D.files disk.new) (D.past disk.new)) }
    ensures left { IsTrue unfinished → disk.new ≡ disk.old }
    ensures faults { D.faults disk.old ≤ D.faults disk.new }
    ensures cause { IsErrOf result DiskErr.Fault → Rose (D.faults disk.old) (D.faults disk.new) }
{
    if unfinished {
        return Ok(());
    }
    sweep_stores(alloc, disk, catalogue, manifests)
}

// Removes the strays of all stores, one after another. It stops at the first failure.
fn sweep_stores<D: Disk>(
    alloc: Global,
    disk: &mut D,
    catalogue: &Catalogue,
    manifests: &[Manifest],
) -> Result<(), DiskErr>
    requires three { length manifests.now ≡ 3 }
    requires rows { AreRows catalogue.now.rows }
    requires entries { AtEach manifests.now (λ i m. AreEntries m.granularity m.entries) }
    requires of_rows { AtEach manifests.now (λ i m. All (HasRow catalogue.now.rows) m.entries) }
    ensures removes { IsTrue D.tells
        → Removes D.Disk (IsStrayBelow 3 catalogue.now.rows manifests.now) disk.old disk.new }
    ensures gone { IsTrue D.tells → OnOk result (AreGone (IsStrayBelow 3 catalogue.now.rows manifests.now)
        (D.files disk.old) (D.files disk.new) (D.past disk.new)) }
    ensures faults { D.faults disk.old ≤ D.faults disk.new }
    ensures cause { IsErrOf result DiskErr.Fault → Rose (D.faults disk.old) (D.faults disk.new) }
{
    for place in 0..STORES {
        sweep_store(
            alloc,
            disk,
            place,
            catalogue,
            &manifests[usize::from(place)],
        )?;
    }
    Ok(())
}

// Removes the strays of the store at this place.
fn sweep_store<D: Disk>(
    alloc: Global,
    disk: &mut D,
    place: u8,
    catalogue: &Catalogue,
    manifest: &Manifest,
) -> Result<(), DiskErr>
    requires place { place < 3 }
    requires rows { AreRows catalogue.now.rows }
    requires entries { AreEntries manifest.now.granularity manifest.now.entries }
    requires of_rows { All (HasRow catalogue.now.rows) manifest.now.entries }
    ensures removes { IsTrue D.tells → Removes D.Disk
        (IsStrayOf place manifest.now.granularity catalogue.now.rows manifest.now.entries) disk.old disk.new }
    ensures gone { IsTrue D.tells
        → OnOk result (AreGone (IsStrayOf place manifest.now.granularity catalogue.now.rows manifest.now.entries)
        (D.files disk.old) (D.files disk.new) (D.past disk.new)) }
    ensures faults { D.faults disk.old ≤ D.faults disk.new }
    ensures cause { IsErrOf result DiskErr.Fault → Rose (D.faults disk.old) (D.faults disk.new) }
{
    let names = disk.names(place + 1)?;
    remove_strays(alloc, disk, catalogue, manifest, names.as_slice())
}

// Removes those of the files of the manifest's store that are strays, one after another. It stops at the first failure.
fn remove_strays<D: Disk>(
    alloc: Global,
    disk: &mut D,
    catalogue: &Catalogue,
    manifest: &Manifest,
    names: &[FileName],
) -> Result<(), DiskErr>
    requires rows { AreRows catalogue.now.rows }
    requires entries { AreEntries manifest.now.granularity manifest.now.entries }
    requires of_rows { All (HasRow catalogue.now.rows) manifest.now.entries }
    ensures removes { IsTrue D.tells → (place : ℕ) → All (λ (n : Name). n.0 ≡ place + 1) names.now
        → Removes D.Disk
        (IsStrayOf place manifest.now.granularity catalogue.now.rows manifest.now.entries) disk.old disk.new }
    ensures gone { IsTrue D.tells → (place : ℕ) → All (λ (n : Name). n.0 ≡ place + 1) names.now
        → OnOk result (All (IsGoneIf (IsStrayOf place manifest.now.granularity catalogue.now.rows manifest.now.entries)
        (D.files disk.new) (D.past disk.new)) names.now) }
    ensures faults { D.faults disk.old ≤ D.faults disk.new }
    ensures cause { IsErrOf result DiskErr.Fault → Rose (D.faults disk.old) (D.faults disk.new) }
{
    for name in names {
        let stray = is_stray(alloc, catalogue, manifest, name)?;
        if !stray {
            continue;
        }
        remove_for_good(disk, name)?;
    }
    Ok(())
}

// Removes a file, if it is there, so that no crash brings it back.
pub(crate) fn remove_for_good<D: Disk>(disk: &mut D, name: &FileName) -> Result<(), DiskErr>
    ensures removes { IsTrue D.tells → Removes D.Disk (λ (n : Name). n ≡ name.now) disk.old disk.new }
    ensures gone { IsTrue D.tells → OnOk result (IsGone (D.files disk.new) (D.past disk.new) name.now) }
    ensures faults { D.faults disk.old ≤ D.faults disk.new }
    ensures cause { IsErrOf result DiskErr.Fault → Rose (D.faults disk.old) (D.faults disk.new) }
{
    remove_file(disk, name)?;
    disk.sync(name)
}

// Removes a file, if it is there.
fn remove_file<D: Disk>(disk: &mut D, name: &FileName) -> Result<(), DiskErr>
    ensures removes { IsTrue D.tells → Removes D.Disk (λ (n : Name). n ≡ name.now) disk.old disk.new }
    ensures gone { IsTrue D.tells → OnOk result (D.files disk.new name.now ≡ None) }
    ensures faults { D.faults disk.old ≤ D.faults disk.new }
    ensures cause { IsErrOf result DiskErr.Fault → Rose (D.faults disk.old) (D.faults disk.new) }
{
    match disk.size(name)? {
        None => Ok(()),
        Some(_) => disk.remove(name),
    }
}
