// The file of store 0 that is there while an adoption isn't finished.
ghost use Rattle.std.specs.Prelude.{◌≡◌, ◌≤◌, ◌↔◌, IfOk, IsErrOf, IsSome, IsTrue, OnOk};
ghost use Rattle.disk_model.specs.Files.{Rose};
ghost use Rattle.disk_model.specs.Past.{Passes};
ghost use Rattle.gate_journal.specs.DiskShown.{ReadsDisk, shown_by};
ghost use Rattle.store_reopen.specs.Marking.{Begins, IsThereForGood, Marks};
ghost use Rattle.store_reopen.specs.Strays.{IsGone, adoption_name};

use crate::sweeping::remove_for_good;
use disk_model::{Disk, DiskErr, FileName};
use std::alloc::{AllocError, Global};

// Whether it is there. The disk is only read.
pub(crate) fn is_unfinished<D: Disk>(alloc: Global, disk: &mut D) -> Result<bool, DiskErr>
    ensures there { IsTrue D.tells → IfOk result (λ b. IsTrue b ↔ IsSome (D.files disk.old adoption_name)) }
    ensures reads { IsTrue D.tells → ReadsDisk (shown_by D.Disk disk.old) (shown_by D.Disk disk.new) }
    ensures faults { D.faults disk.old ≤ D.faults disk.new }
    ensures cause { IsErrOf result DiskErr.Fault → Rose (D.faults disk.old) (D.faults disk.new) }
{
    let name = adoption_file(alloc)?;
    let size = disk.size(&name)?;
    Ok(size.is_some())
}

// Makes it, unless it is there, so that no crash takes it away. Every other file stays as it is.
pub(crate) fn begin_adoption<D: Disk>(alloc: Global, disk: &mut D) -> Result<(), DiskErr>
    ensures there { IsTrue D.tells → OnOk result (IsThereForGood (D.files disk.new) (D.past disk.new)) }
    ensures marks { IsTrue D.tells → Marks D.Disk disk.old disk.new }
    ensures stays { IsTrue D.tells → Passes Begins (D.past disk.old) (D.past disk.new) }
    ensures faults { D.faults disk.old ≤ D.faults disk.new }
    ensures cause { IsErrOf result DiskErr.Fault → Rose (D.faults disk.old) (D.faults disk.new) }
{
    let name = adoption_file(alloc)?;
    make_file(disk, &name)?;
    disk.sync(&name)
}

// Makes it, unless it is there.
fn make_file<D: Disk>(disk: &mut D, name: &FileName) -> Result<(), DiskErr>
    requires { name.now ≡ adoption_name }
    ensures there { IsTrue D.tells → OnOk result (IsSome (D.files disk.new adoption_name)) }
    ensures marks { IsTrue D.tells → Marks D.Disk disk.old disk.new }
    ensures stays { IsTrue D.tells → Passes Begins (D.past disk.old) (D.past disk.new) }
    ensures faults { D.faults disk.old ≤ D.faults disk.new }
    ensures cause { IsErrOf result DiskErr.Fault → Rose (D.faults disk.old) (D.faults disk.new) }
{
    match disk.size(name)? {
        Some(_) => Ok(()),
        None => disk.create(name),
    }
}

// Removes it, so that no crash brings it back. Every other file stays as it is.
pub(crate) fn end_adoption<D: Disk>(alloc: Global, disk: &mut D) -> Result<(), DiskErr>
    ensures gone { IsTrue D.tells → OnOk result (IsGone (D.files disk.new) (D.past disk.new) adoption_name) }
    ensures marks { IsTrue D.tells → Marks D.Disk disk.old disk.new }
    ensures faults { D.faults disk.old ≤ D.faults disk.new }
    ensures cause { IsErrOf result DiskErr.Fault → Rose (D.faults disk.old) (D.faults disk.new) }
{
    let name = adoption_file(alloc)?;
    remove_for_good(disk, &name)
}

// Its name.
fn adoption_file(alloc: Global) -> Result<FileName, AllocError>
    ensures { IfOk result (λ name. name ≡ adoption_name) }
{
    let path = b"adopt".to_vec(alloc)?;
    Ok(FileName { store: 0, path })
}
