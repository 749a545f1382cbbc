// Writes what a flush is to list: each file grows behind its listed bytes, or is made anew where nothing is listed.
// Once all are written, each is synced.
ghost use Rattle.std.specs.Prelude.{◌≡◌, ◌≢◌, ◌≤◌, ◌<◌, ◌++◌, ℕ, List, All, length, map, take, IfOk, OnOk, IsErrOf};
ghost use Rattle.std.specs.Prelude.{IsTrue, Some};
ghost use Rattle.disk_model.specs.Files.{Name, Rose, At, HasFile};
ghost use Rattle.disk_model.specs.Past.{Passes};
ghost use Rattle.gate_journal.specs.DiskShown.{ReadsDisk, shown_by};
ghost use Rattle.store_files.specs.Fronts.{Keeps};
ghost use Rattle.partition_names.specs.declared.granularity.Granularity.{Granularity};
ghost use Rattle.durable_write.specs.Held.{Filed, Held, file_of};
ghost use Rattle.durable_write.specs.Flush.{Grows, MakesFiles, start_of, with_files};
ghost use Rattle.durable_write.specs.Stored.{AreLong, AreSafe};
ghost use Rattle.durable_write.specs.Writing.{Behind, IsSafe, IsWritten, IsSynced, IsOfNone, WritesBehind};

use crate::file_write::FileWrite;
use disk_model::{Disk, DiskErr, FileName};
use partition_names::file_path;
use pv_catalog::Row;
use std::alloc::{AllocError, Global};
use store_files::{make, settle, write};
use store_manifest::Entry;

// Makes the name that of an entry's file, in the memory that it has.
pub(crate) fn set_name(
    name: &mut FileName,
    store: u8,
    rows: &[Row],
    entry: &Entry,
) -> Result<(), AllocError>
    requires { entry.now.series < length rows.now }
    ensures { OnOk result (name.new ≡ file_of (store, rows.now) entry.now) }
{
    let row = &rows[entry.series as usize];
    name.store = store;
    name.path.clear();
    file_path(&row.name, &entry.part.name, &mut name.path)
}

// Writes bytes behind the listed ones, of which there may be none.
fn go_on<D: Disk>(disk: &mut D, name: &FileName, len: u64, bytes: &[u8]) -> Result<(), DiskErr>
    requires { IsTrue D.tells
        → HasFile (D.files disk.old) name.now (λ b. (D.opened disk.old name.now ≤ len) × (len ≤ length b)) }
    ensures grown { IsTrue D.tells → (b : List ℕ) → D.files disk.old name.now ≡ Some b
        → OnOk result (D.files disk.new name.now ≡ Some (take len b ++ bytes.now)) }
    ensures long { IsTrue D.tells → HasFile (D.files disk.new) name.now (λ b. len ≤ length b) }
    ensures kept { IsTrue D.tells → At name.now (Keeps len) (D.files disk.old) (D.files disk.new) }
    ensures any_moment { IsTrue D.tells → Passes (At name.now (Keeps len)) (D.past disk.old) (D.past disk.new) }
    ensures opened { IsTrue D.tells → D.opened disk.new ≡ D.opened disk.old }
    ensures faults { D.faults disk.old ≤ D.faults disk.new }
    ensures cause { IsErrOf result DiskErr.Fault → Rose (D.faults disk.old) (D.faults disk.new) }
{
    settle(disk, name, len)?;
    write(disk, name, len, bytes)?;
    Ok(())
}

// Makes a file that nothing lists of these bytes.
fn make_anew<D: Disk>(disk: &mut D, name: &FileName, bytes: &[u8]) -> Result<(), DiskErr>
    ensures made { IsTrue D.tells → OnOk result (D.files disk.new name.now ≡ Some bytes.now) }
    ensures closed { IsTrue D.tells → OnOk result (D.opened disk.new name.now ≡ 0) }
    ensures kept { IsTrue D.tells → At name.now (Keeps 0) (D.files disk.old) (D.files disk.new) }
    ensures any_moment { IsTrue D.tells → Passes (At name.now (Keeps 0)) (D.past disk.old) (D.past disk.new) }
    ensures no_more { IsTrue D.tells → (n : Name) → D.opened disk.new n ≤ D.opened disk.old n }
    ensures faults { D.faults disk.old ≤ D.faults disk.new }
    ensures cause { IsErrOf result DiskErr.Fault → Rose (D.faults disk.old) (D.faults disk.new) }
{
    make(disk, name, bytes)?;
    Ok(())
}

// Makes one write. The name is only a place to build the file's in.
fn write_file<D: Disk>(
    disk: &mut D,
    name: &mut FileName,
    store: u8,
    rows: &[Row],
    write: &FileWrite,
) -> Result<(), DiskErr>
    requires row { write.now.entry.series < length rows.now }
    requires can { IsTrue D.tells → (g : Granularity) × (held : Held) × (f : Filed)
        × IsSafe g (store, rows.now) (shown_by D.Disk disk.old) held × Grows g held write.now f }
    ensures written { IsTrue D.tells → (g : Granularity) (held : Held) (f : Filed)
        → IsSafe g (store, rows.now) (shown_by D.Disk disk.old) held → Grows g held write.now f
        → OnOk result (IsWritten held (D.files disk.new) (D.opened disk.new) f) }
    ensures still { IsTrue D.tells → (g : Granularity) (held : Held) (f : Filed)
        → IsSafe g (store, rows.now) (shown_by D.Disk disk.old) held → Grows g held write.now f
        → AreLong held (D.files disk.new) }
    ensures kept { IsTrue D.tells → At (file_of (store, rows.now) write.now.entry) (Keeps (start_of write.now.at))
        (D.files disk.old) (D.files disk.new) }
    ensures any_moment { IsTrue D.tells
        → Passes (At (file_of (store, rows.now) write.now.entry) (Keeps (start_of write.now.at)))
        (D.past disk.old) (D.past disk.new) }
    ensures no_more { IsTrue D.tells → (n : Name) → D.opened disk.new n ≤ D.opened disk.old n }
    ensures faults { D.faults disk.old ≤ D.faults disk.new }
    ensures cause { IsErrOf result DiskErr.Fault → Rose (D.faults disk.old) (D.faults disk.new) }
{
    set_name(name, store, rows, &write.entry)?;
    match write.at {
        Some(len) => go_on(disk, name, len, &write.bytes)?,
        None => make_anew(disk, name, &write.bytes)?,
    }
    Ok(())
}

// Makes the writes, one after another, and syncs none.
fn write_files<D: Disk>(
    disk: &mut D,
    name: &mut FileName,
    store: u8,
    rows: &[Row],
    writes: &[FileWrite],
) -> Result<(), DiskErr>
    requires rows { All (λ p. p.entry.series < length rows.now) writes.now }
    requires can { IsTrue D.tells → (g : Granularity) × (held : Held) × (fs : List Filed)
        × IsSafe g (store, rows.now) (shown_by D.Disk disk.old) held × MakesFiles g held writes.now fs }
    ensures any_moment { IsTrue D.tells → (g : Granularity) (held : Held) (fs : List Filed)
        → IsSafe g (store, rows.now) (shown_by D.Disk disk.old) held → MakesFiles g held writes.now fs
        → Passes (Behind held) (D.past disk.old) (D.past disk.new) }
    ensures behind { IsTrue D.tells → (g : Granularity) (held : Held) (fs : List Filed)
        → IsSafe g (store, rows.now) (shown_by D.Disk disk.old) held → MakesFiles g held writes.now fs
        → Behind held (D.files disk.old) (D.files disk.new) }
    ensures still { IsTrue D.tells → (g : Granularity) (held : Held) (fs : List Filed)
        → IsSafe g (store, rows.now) (shown_by D.Disk disk.old) held → MakesFiles g held writes.now fs
        → AreLong held (D.files disk.new) }
    ensures written { IsTrue D.tells → (g : Granularity) (held : Held) (fs : List Filed)
        → IsSafe g (store, rows.now) (shown_by D.Disk disk.old) held → MakesFiles g held writes.now fs
        → OnOk result (All (IsWritten held (D.files disk.new) (D.opened disk.new)) fs) }
    ensures elsewhere { IsTrue D.tells → (n : Name) → n.0 ≢ store → D.files disk.new n ≡ D.files disk.old n }
    ensures others { IsTrue D.tells → (n : Name) → IsOfNone (store, rows.now) writes.now n
        → D.files disk.new n ≡ D.files disk.old n }
    ensures no_more { IsTrue D.tells → (n : Name) → D.opened disk.new n ≤ D.opened disk.old n }
    ensures faults { D.faults disk.old ≤ D.faults disk.new }
    ensures cause { IsErrOf result DiskErr.Fault → Rose (D.faults disk.old) (D.faults disk.new) }
{
    for write in writes {
        write_file(disk, name, store, rows, write)?;
    }
    Ok(())
}

// The names of the writes' files.
fn names_of(
    alloc: Global,
    store: u8,
    rows: &[Row],
    writes: &[FileWrite],
) -> Result<Vec<FileName>, AllocError>
    requires { All (λ p. p.entry.series < length rows.now) writes.now }
    ensures { IfOk result (λ names. names.items ≡ map (λ p. file_of (store, rows.now) p.entry) writes.now) }
{
    let mut names = Vec::new(alloc);
    for write in writes {
        let mut name = FileName {
            store,
            path: Vec::new(alloc),
        };
        set_name(&mut name, store, rows, &write.entry)?;
        names.push(name)?;
    }
    Ok(names)
}

// Syncs the writes' files, many at a time where the disk does: each later crash leaves them as reads give them.
fn sync_files<D: Disk>(
    alloc: Global,
    disk: &mut D,
    store: u8,
    rows: &[Row],
    writes: &[FileWrite],
) -> Result<(), DiskErr>
    requires { All (λ p. p.entry.series < length rows.now) writes.now }
    ensures durable { IsTrue D.tells
        → OnOk result (All (IsSynced (store, rows.now) (D.files disk.old) (D.past disk.new)) writes.now) }
    ensures reads { IsTrue D.tells → ReadsDisk (shown_by D.Disk disk.old) (shown_by D.Disk disk.new) }
    ensures faults { D.faults disk.old ≤ D.faults disk.new }
    ensures cause { IsErrOf result DiskErr.Fault → Rose (D.faults disk.old) (D.faults disk.new) }
{
    let names = names_of(alloc, store, rows, writes)?;
    disk.sync_each(&names)?;
    Ok(())
}

/// Makes the writes, and then syncs each file: so a folder that gets many new files is synced with the
/// first of them. It lists nothing: what was held is still held, at every moment of the call and after each answer. At
/// `Ok` the files with the writes are as safe as those that were held.
///
/// `Fault` comes only where the disk's count of faults rose in the call.
pub(crate) fn write_all<D: Disk>(
    alloc: Global,
    disk: &mut D,
    store: u8,
    rows: &[Row],
    writes: &[FileWrite],
) -> Result<(), DiskErr>
    requires rows { All (λ p. p.entry.series < length rows.now) writes.now }
    requires can { IsTrue D.tells → (g : Granularity) × (held : Held) × (fs : List Filed)
        × IsSafe g (store, rows.now) (shown_by D.Disk disk.old) held × MakesFiles g held writes.now fs }

    ensures goes { IsTrue D.tells → (g : Granularity) (held : Held) (fs : List Filed)
        → IsSafe g (store, rows.now) (shown_by D.Disk disk.old) held → MakesFiles g held writes.now fs
        → WritesBehind held (shown_by D.Disk disk.old) (shown_by D.Disk disk.new) }
    ensures written { IsTrue D.tells → (g : Granularity) (held : Held) (fs : List Filed)
        → IsSafe g (store, rows.now) (shown_by D.Disk disk.old) held → MakesFiles g held writes.now fs
        → OnOk result (AreSafe (with_files held fs) (shown_by D.Disk disk.new)) }

    ensures elsewhere { IsTrue D.tells → (n : Name) → n.0 ≢ store → D.files disk.new n ≡ D.files disk.old n }
    ensures others { IsTrue D.tells → (n : Name) → IsOfNone (store, rows.now) writes.now n
        → D.files disk.new n ≡ D.files disk.old n }
    ensures no_more { IsTrue D.tells → (n : Name) → D.opened disk.new n ≤ D.opened disk.old n }
    ensures faults { D.faults disk.old ≤ D.faults disk.new }
    ensures cause { IsErrOf result DiskErr.Fault → Rose (D.faults disk.old) (D.faults disk.new) }
{
    let mut name = FileName {
        store,
        path: Vec::new(alloc),
    };
    write_files(disk, &mut name, store, rows, writes)?;
    sync_files(alloc, disk, store, rows, writes)?;
    Ok(())
}
