// Which files are strays: they are named as files of rows and partitions, and no manifest lists them.
ghost use Rattle.std.specs.Prelude.{◌≡◌, ◌<◌, ◌+◌, ◌↔◌, ℕ, All, IfOk, IfSome, IsTrue, Some, false, length, slice_get};
ghost use Rattle.partition_names.specs.declared.part.Part.{Part as PartValue};
ghost use Rattle.pv_name.specs.Key.{key_of};
ghost use Rattle.pv_catalog.specs.Rows.{AreRows, HasKey};
ghost use Rattle.pv_catalog.specs.declared.row.Row.{Row as RowValue};
ghost use Rattle.store_manifest.specs.Entries.{AreEntries, InOrder, is_listed};
ghost use Rattle.store_reopen.specs.Verdict.{HasRow};
ghost use Rattle.store_reopen.specs.Strays.{IsFileOf, IsStrayOf};

use disk_model::FileName;
use found_files::{has_path, part_in};
use partition_names::{Granularity, Part};
use pv_catalog::{Catalogue, RegisterErr};
use pv_name::{NameErr, PvName};
use std::alloc::{AllocError, Global};
use store_manifest::{Manifest, begins_at};

// Whether a file of the manifest's store is a stray.
pub(crate) fn is_stray(
    alloc: Global,
    catalogue: &Catalogue,
    manifest: &Manifest,
    name: &FileName,
) -> Result<bool, AllocError>
    requires rows { AreRows catalogue.now.rows }
    requires entries { AreEntries manifest.now.granularity manifest.now.entries }
    requires of_rows { All (HasRow catalogue.now.rows) manifest.now.entries }
    ensures { (place : ℕ) → name.now.0 ≡ place + 1
        → IfOk result (λ b. IsTrue b
        ↔ IsStrayOf place manifest.now.granularity catalogue.now.rows manifest.now.entries name.now) }
{
    let path = name.path.as_slice();
    match own_file(alloc, catalogue, manifest.granularity(), path)? {
        None => Ok(false),
        Some((row, part)) => Ok(!is_listed(manifest, row, part.start)),
    }
}

// The row and the partition whose file has this path.
pub(crate) fn own_file(
    alloc: Global,
    catalogue: &Catalogue,
    granularity: Granularity,
    path: &[u8],
) -> Result<Option<(u32, Part)>, AllocError>
    requires rows { AreRows catalogue.now.rows }
    ensures found { IfOk result (λ r. IfSome r (λ p. IsFileOf granularity catalogue.now.rows path.now p.0 p.1)) }
    ensures only { (series : ℕ) (part : PartValue) → IsFileOf granularity catalogue.now.rows path.now series part
        → IfOk result (λ r. r ≡ Some (series, part)) }
{
    let Some((end, part)) = part_in(granularity, path) else {
        return Ok(None);
    };
    let row = match row_of_key(alloc, catalogue, &path[..end])? {
        Some(row) => row,
        None => return Ok(None),
    };
    let name = &catalogue.rows()[row as usize].name;
    if has_path(alloc, name, &part.name, path)? {
        Ok(Some((row, part)))
    } else {
        Ok(None)
    }
}

// The row that has this key.
fn row_of_key(alloc: Global, catalogue: &Catalogue, key: &[u8]) -> Result<Option<u32>, AllocError>
    requires rows { AreRows catalogue.now.rows }
    ensures within { IfOk result (λ r. IfSome r (λ i. i < length catalogue.now.rows)) }
    ensures only { (i : ℕ) (row : RowValue) → slice_get catalogue.now.rows i ≡ Some row
        → key_of row.name ≡ key.now → IfOk result (λ r. r ≡ Some i) }
{
    match PvName::new(alloc, key) {
        Ok(name) => Ok(row_of(catalogue, &name)),
        Err(NameErr::BadName { .. }) => Ok(None),
        Err(NameErr::Memory) => Err(AllocError),
    }
}

// The row that has the key of this name.
fn row_of(catalogue: &Catalogue, name: &PvName) -> Option<u32>
    requires rows { AreRows catalogue.now.rows }
    ensures within { IfSome result (λ i. i < length catalogue.now.rows) }
    ensures only { (i : ℕ) → HasKey catalogue.now.rows i (key_of name.now) → result ≡ Some i }
{
    match catalogue.refusal(name) {
        Some(RegisterErr::NameTaken { row }) => Some(row),
        Some(RegisterErr::KeyTaken { row }) => Some(row),
        Some(RegisterErr::Full) => None,
        Some(RegisterErr::Disk(_)) => None,
        None => None,
    }
}

// Whether the manifest lists an entry of this series whose partition begins at this moment.
pub(crate) fn is_listed(manifest: &Manifest, series: u32, start: u64) -> bool
    requires { InOrder manifest.now.entries }
    ensures { result ≡ is_listed manifest.now.entries (series, start) }
{
    begins_at(manifest.entries(series), start)
}
