// The listed files: whether each is of a row, there, and long enough.
ghost use Rattle.std.specs.Prelude.{◌≡◌, ◌≢◌, ◌≤◌, ◌<◌, ◌+◌, ℕ, List, All, Contains, true, false, IfErr, IfOk, IfSome};
ghost use Rattle.std.specs.Prelude.{OnOk, IsErrOf, IsTrue, None, Err, length};
ghost use Rattle.disk_model.specs.Files.{Name, Files, Rose, HasFile};
ghost use Rattle.disk_model.specs.declared.disk.DiskErr.TheVariants.{Fault};
ghost use Rattle.gate_journal.specs.DiskShown.{ReadsDisk, shown_by};
ghost use Rattle.partition_names.specs.declared.granularity.Granularity.{Granularity};
ghost use Rattle.store_manifest.specs.declared.entry.Entry.{Entry as EntryValue};
ghost use Rattle.durable_write.specs.Held.{file_of};
ghost use Rattle.tier_store.specs.Seen.{AtEach};
ghost use Rattle.store_reopen.specs.Verdict.{AreSaid, IsThere, HasRow, EndsEarly};
ghost use Rattle.store_reopen.specs.NotOpened.{IsTold, IsToldShort};
ghost use Rattle.store_reopen.specs.Reopen.{lists_of};
ghost use Rattle.store_reopen.specs.declared.error.NotOpened.TheVariants.{Disk as OfDisk};

use crate::error::NotOpened;
use crate::journals::STORES;
use disk_model::{Disk, DiskErr, FileName};
use partition_names::file_path;
use pv_catalog::Row;
use std::alloc::{AllocError, Global};
use store_manifest::{Entry, Manifest, manifest_file};

// Looks whether each entry is of a row. Tells the first manifest that has one of no row.
pub(crate) fn check_rows(
    alloc: Global,
    rows: &[Row],
    manifests: &[Manifest],
) -> Result<(), NotOpened>
    requires three { length manifests.now ≡ 3 }
    ensures of_rows { OnOk result (AtEach manifests.now (λ i m. All (HasRow rows.now) m.entries)) }
    ensures told { (gs : List Granularity) (seen : Files) → length gs ≡ 3
        → AreSaid gs seen rows.now (lists_of manifests.now)
        → IfErr result (IsTold gs seen) }
    ensures no_fault { result ≢ Err (OfDisk Fault) }
{
    for place in 0..STORES {
        if !have_rows(rows, &manifests[usize::from(place)]) {
            let name = manifest_file(alloc, place + 1)?;
            return Err(NotOpened::Damaged { name, at: 0 });
        }
    }
    Ok(())
}

// Whether each entry is of one of the rows.
fn have_rows(rows: &[Row], manifest: &Manifest) -> bool
    ensures each { IsTrue result → All (HasRow rows.now) manifest.now.entries }
    ensures one { result ≡ false → (e : EntryValue) × Contains manifest.now.entries e × (length rows.now ≤ e.series) }
{
    let count = rows.len();
    manifest.all().all(|entry| (entry.series as usize) < count)
}

// Looks, store by store and in the order of each list, whether each listed file is there and long enough. Tells the
// first that isn't. It reads nothing but lengths.
pub(crate) fn check_files<D: Disk>(
    alloc: Global,
    disk: &mut D,
    rows: &[Row],
    manifests: &[Manifest],
) -> Result<(), NotOpened>
    requires three { length manifests.now ≡ 3 }
    requires of_rows { AtEach manifests.now (λ i m. All (HasRow rows.now) m.entries) }
    ensures there { IsTrue D.tells
        → OnOk result (AtEach manifests.now (λ i m. All (IsThere i (D.files disk.old) rows.now) m.entries)) }
    ensures told { IsTrue D.tells → (gs : List Granularity) (seen : Files) → length gs ≡ 3
        → AreSaid gs seen rows.now (lists_of manifests.now)
        → ((n : Name) → n.0 ≢ 0 → D.files disk.old n ≡ seen n)
        → IfErr result (IsTold gs seen) }
    ensures reads { IsTrue D.tells → ReadsDisk (shown_by D.Disk disk.old) (shown_by D.Disk disk.new) }
    ensures faults { D.faults disk.old ≤ D.faults disk.new }
    ensures cause { result ≡ Err (OfDisk Fault) → Rose (D.faults disk.old) (D.faults disk.new) }
{
    for place in 0..STORES {
        check_store(alloc, disk, place, rows, &manifests[usize::from(place)])?;
    }
    Ok(())
}

// The same of the store at this place.
fn check_store<D: Disk>(
    alloc: Global,
    disk: &mut D,
    place: u8,
    rows: &[Row],
    manifest: &Manifest,
) -> Result<(), NotOpened>
    requires place { place < 3 }
    requires of_rows { All (HasRow rows.now) manifest.now.entries }
    ensures there { IsTrue D.tells
        → OnOk result (All (IsThere place (D.files disk.old) rows.now) manifest.now.entries) }
    ensures told { IsTrue D.tells → IfErr result (IsToldShort place (D.files disk.old) rows.now manifest.now.entries) }
    ensures reads { IsTrue D.tells → ReadsDisk (shown_by D.Disk disk.old) (shown_by D.Disk disk.new) }
    ensures faults { D.faults disk.old ≤ D.faults disk.new }
    ensures cause { result ≡ Err (OfDisk Fault) → Rose (D.faults disk.old) (D.faults disk.new) }
{
    let store = place + 1;
    let mut name = FileName {
        store,
        path: Vec::new(alloc),
    };
    for entry in manifest.all() {
        set_name(&mut name, store, rows, entry)?;
        if let Some(at) = shortfall(disk, &name, entry.len)? {
            return Err(NotOpened::Damaged { name, at });
        }
    }
    Ok(())
}

// Makes the name that of an entry's file, in the memory that it has.
fn set_name(name: &mut FileName, store: u8, rows: &[Row], entry: &Entry) -> Result<(), AllocError>
    requires { HasRow rows.now entry.now }
    ensures { OnOk result (name.new ≡ file_of (store, rows.now) entry.now) }
{
    name.store = store;
    name.path.clear();
    let row = &rows[entry.series as usize];
    file_path(&row.name, &entry.part.name, &mut name.path)
}

// Where a file ends that is absent or shorter than this.
fn shortfall<D: Disk>(disk: &mut D, name: &FileName, len: u64) -> Result<Option<u64>, DiskErr>
    ensures long { IsTrue D.tells
        → IfOk result (λ r. r ≡ None → HasFile (D.files disk.old) name.now (λ b. len ≤ length b)) }
    ensures short { IsTrue D.tells → IfOk result (λ r. IfSome r (λ at. EndsEarly len at (D.files disk.old name.now))) }
    ensures reads { IsTrue D.tells → ReadsDisk (shown_by D.Disk disk.old) (shown_by D.Disk disk.new) }
    ensures faults { D.faults disk.old ≤ D.faults disk.new }
    ensures cause { IsErrOf result DiskErr.Fault → Rose (D.faults disk.old) (D.faults disk.new) }
{
    match disk.size(name)? {
        None => Ok(Some(0)),
        Some(size) => {
            if size < len {
                return Ok(Some(size));
            }
            Ok(None)
        }
    }
}
