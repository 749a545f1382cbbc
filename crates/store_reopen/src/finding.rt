// The files of the stores that no manifest lists, and which of them may be listed.
ghost use Rattle.std.specs.Prelude.{◌≡◌, ◌≤◌, ◌<◌, ◌+◌, ◌++◌, ◌↔◌, ℕ, List, All, IfOk, IfSome, IsErrOf, IsTrue, OnOk};
ghost use Rattle.std.specs.Prelude.{Some, length, slice_get};
ghost use Rattle.disk_model.specs.Files.{Name, Files, Rose};
ghost use Rattle.found_files.specs.Reading.{OnlyReads};
ghost use Rattle.pv_catalog.specs.Rows.{AreRows};
ghost use Rattle.store_manifest.specs.Entries.{AreEntries};
ghost use Rattle.store_manifest.specs.Manifest.{ManifestState};
ghost use Rattle.tier_store.specs.Seen.{AtEach};
ghost use Rattle.store_reopen.specs.Adoption.{AreUnlisted, Finds, IsUnlisted};
ghost use Rattle.store_reopen.specs.Finding.{AreUnlistedOf, IsOfPlace};
ghost use Rattle.store_reopen.specs.Verdict.{HasRow};
ghost use Rattle.store_reopen.specs.declared.finding.Unlisted.{Unlisted as UnlistedValue};

use crate::strays::{is_listed, own_file};
use disk_model::{Disk, DiskErr, FileName};
use found_files::{Candidate, find_candidate};
use pv_catalog::Catalogue;
use std::alloc::{AllocError, Global};
use store_manifest::Manifest;

// A file that no manifest lists.
#[derive(Drop)]
pub struct Unlisted {
    // Its store's place.
    pub place: u8,
    pub file: FileName,
    // What may be listed of it, if anything may.
    pub candidate: Option<Candidate>,
}

// A file that a row takes.
#[derive(Drop)]
pub struct TakenFile {
    pub file: FileName,
    pub candidate: Candidate,
}

// Finds what isn't listed in store 3, then in store 2, then in store 1. The disk is only read.
pub(crate) fn find_unlisted<D: Disk>(
    alloc: Global,
    disk: &mut D,
    catalogue: &Catalogue,
    manifests: &[Manifest],
) -> Result<Vec<Unlisted>, DiskErr>
    requires three { length manifests.now ≡ 3 }
    requires rows { AreRows catalogue.now.rows }
    requires entries { AtEach manifests.now (λ i m. AreEntries m.granularity m.entries) }
    requires of_rows { AtEach manifests.now (λ i m. All (HasRow catalogue.now.rows) m.entries) }
    ensures found { IsTrue D.tells
        → IfOk result (λ v. AreUnlistedOf (D.files disk.old) catalogue.now.rows manifests.now v.items) }
    ensures shape { IfOk result (λ v. All (IsOfPlace manifests.now) v.items) }
    ensures read { OnlyReads D.Disk disk.old disk.new }
    ensures cause { IsErrOf result DiskErr.Fault → Rose (D.faults disk.old) (D.faults disk.new) }
{
    let mut unlisted = Vec::new(alloc);
    find_in(alloc, disk, 2, catalogue, &manifests[2], &mut unlisted)?;
    find_in(alloc, disk, 1, catalogue, &manifests[1], &mut unlisted)?;
    find_in(alloc, disk, 0, catalogue, &manifests[0], &mut unlisted)?;
    Ok(unlisted)
}

// Adds what isn't listed in the store at this place.
fn find_in<D: Disk>(
    alloc: Global,
    disk: &mut D,
    place: u8,
    catalogue: &Catalogue,
    manifest: &Manifest,
    unlisted: &mut Vec<Unlisted>,
) -> Result<(), DiskErr>
    requires place { place < 3 }
    requires rows { AreRows catalogue.now.rows }
    requires entries { AreEntries manifest.now.granularity manifest.now.entries }
    requires of_rows { All (HasRow catalogue.now.rows) manifest.now.entries }
    ensures found { IsTrue D.tells
        → OnOk result ((xs : List UnlistedValue) × (unlisted.new.items ≡ unlisted.old.items ++ xs)
        × AreUnlisted manifest.now.granularity (D.files disk.old)
        ((place + 1, catalogue.now.rows), manifest.now.entries) place xs) }
    ensures shape { (ms : List ManifestState) → slice_get ms place ≡ Some manifest.now
        → All (IsOfPlace ms) unlisted.old.items
        → OnOk result (All (IsOfPlace ms) unlisted.new.items) }
    ensures read { OnlyReads D.Disk disk.old disk.new }
    ensures cause { IsErrOf result DiskErr.Fault → Rose (D.faults disk.old) (D.faults disk.new) }
{
    let names = disk.names(place + 1)?;
    look_at(
        alloc,
        disk,
        place,
        catalogue,
        manifest,
        names.as_slice(),
        unlisted,
    )
}

// Adds those of these files of the store that aren't listed.
fn look_at<D: Disk>(
    alloc: Global,
    disk: &mut D,
    place: u8,
    catalogue: &Catalogue,
    manifest: &Manifest,
    names: &[FileName],
    unlisted: &mut Vec<Unlisted>,
) -> Result<(), DiskErr>
    requires place { place < 3 }
    requires rows { AreRows catalogue.now.rows }
    requires entries { AreEntries manifest.now.granularity manifest.now.entries }
    requires of_rows { All (HasRow catalogue.now.rows) manifest.now.entries }
    ensures found { IsTrue D.tells → All (λ (n : Name). n.0 ≡ place + 1) names.now
        → OnOk result ((xs : List UnlistedValue) × (unlisted.new.items ≡ unlisted.old.items ++ xs)
        × Finds manifest.now.granularity (D.files disk.old)
        ((place + 1, catalogue.now.rows), manifest.now.entries) place names.now xs) }
    ensures shape { (ms : List ManifestState) → slice_get ms place ≡ Some manifest.now
        → All (IsOfPlace ms) unlisted.old.items
        → OnOk result (All (IsOfPlace ms) unlisted.new.items) }
    ensures read { OnlyReads D.Disk disk.old disk.new }
    ensures cause { IsErrOf result DiskErr.Fault → Rose (D.faults disk.old) (D.faults disk.new) }
{
    for file in names {
        if !is_unlisted(alloc, catalogue, manifest, file)? {
            continue;
        }
        let candidate = find_candidate(alloc, disk, manifest.granularity(), file)?;
        unlisted.push(Unlisted {
            place,
            file: file.copy(alloc)?,
            candidate,
        })?;
    }
    Ok(())
}

// Whether the manifest doesn't list a file of its store.
fn is_unlisted(
    alloc: Global,
    catalogue: &Catalogue,
    manifest: &Manifest,
    file: &FileName,
) -> Result<bool, AllocError>
    requires rows { AreRows catalogue.now.rows }
    requires entries { AreEntries manifest.now.granularity manifest.now.entries }
    requires of_rows { All (HasRow catalogue.now.rows) manifest.now.entries }
    ensures { (place : ℕ) → file.now.0 ≡ place + 1
        → IfOk result (λ b. IsTrue b ↔ IsUnlisted ((place + 1, catalogue.now.rows), manifest.now.entries) file.now) }
{
    let path = file.path.as_slice();
    match own_file(alloc, catalogue, manifest.granularity(), path)? {
        None => Ok(true),
        Some((row, part)) => Ok(!is_listed(manifest, row, part.start)),
    }
}
