// A file that is made anew, and one that is no longer needed.
ghost use Rattle.std.specs.Prelude.{◌≡◌, ◌≢◌, ◌≤◌, ℕ, List, [], OnOk, IsErr, IsErrOf, IsTrue, Some, None};
ghost use Rattle.disk_model.specs.Files.{Name, Rose, HasFile, At, KeptOr};
ghost use Rattle.disk_model.specs.Past.{Passes, Only};
ghost use Rattle.gate_journal.specs.DiskShown.{ChangesUnopened, shown_by};

use disk_model::{Disk, DiskErr, FileName, write_synced};

// Makes a file of these bytes, whatever the name had, and syncs it.
pub(crate) fn make_anew<D: Disk>(disk: &mut D, name: &FileName, bytes: &[u8]) -> Result<(), DiskErr>
    requires unopened { IsTrue D.tells → D.opened disk.old name.now ≡ 0 }
    ensures made { IsTrue D.tells → OnOk result (D.files disk.new name.now ≡ Some bytes.now) }
    ensures durable { IsTrue D.tells → OnOk result (Only (D.past disk.new) name.now (Some bytes.now)) }
    ensures elsewhere { IsTrue D.tells → (n : Name) → n ≢ name.now → D.files disk.new n ≡ D.files disk.old n }
    ensures any_moment { IsTrue D.tells → Passes (At name.now (λ a b. Unit {0})) (D.past disk.old) (D.past disk.new) }
    ensures opened { IsTrue D.tells → (n : Name) → n ≢ name.now → D.opened disk.new n ≡ D.opened disk.old n }
    ensures unopened { IsTrue D.tells → D.opened disk.new name.now ≡ 0 }
    ensures faults { D.faults disk.old ≤ D.faults disk.new }
    ensures cause { IsErrOf result DiskErr.Fault → Rose (D.faults disk.old) (D.faults disk.new) }
{
    empty(disk, name)?;
    write_synced(disk, name, 0, bytes)
}

// Makes an empty file, or empties the one that is there.
fn empty<D: Disk>(disk: &mut D, name: &FileName) -> Result<(), DiskErr>
    requires unopened { IsTrue D.tells → D.opened disk.old name.now ≡ 0 }
    ensures made { IsTrue D.tells → OnOk result (D.files disk.new name.now ≡ Some []) }
    ensures elsewhere { IsTrue D.tells → (n : Name) → n ≢ name.now → D.files disk.new n ≡ D.files disk.old n }
    ensures any_moment { IsTrue D.tells → Passes (At name.now (λ a b. Unit {0})) (D.past disk.old) (D.past disk.new) }
    ensures opened { IsTrue D.tells → (n : Name) → n ≢ name.now → D.opened disk.new n ≡ D.opened disk.old n }
    ensures unopened { IsTrue D.tells → D.opened disk.new name.now ≡ 0 }
    ensures faults { D.faults disk.old ≤ D.faults disk.new }
    ensures cause { IsErrOf result DiskErr.Fault → Rose (D.faults disk.old) (D.faults disk.new) }
{
    match disk.size(name)? {
        Some(_) => disk.cut(name, 0),
        None => disk.create(name),
    }
}

// Removes a file, and syncs its name.
pub(crate) fn remove_synced<D: Disk>(disk: &mut D, name: &FileName) -> Result<(), DiskErr>
    requires file { IsTrue D.tells → HasFile (D.files disk.old) name.now (λ b. Unit {0}) }
    requires unopened { IsTrue D.tells → D.opened disk.old name.now ≡ 0 }
    ensures removes { IsTrue D.tells
        → ChangesUnopened name.now (KeptOr None) (shown_by D.Disk disk.old) (shown_by D.Disk disk.new) }
    ensures gone { IsTrue D.tells
        → OnOk result ((D.files disk.new name.now ≡ None) × Only (D.past disk.new) name.now None) }
    ensures faults { D.faults disk.old ≤ D.faults disk.new }
    ensures cause { IsErr result → Rose (D.faults disk.old) (D.faults disk.new) }
    ensures no_memory { IsErrOf result DiskErr.Memory → ⊥ }
{
    disk.remove(name)?;
    disk.sync(name)
}

// The same, where the file may be gone.
pub(crate) fn clear<D: Disk>(disk: &mut D, name: &FileName) -> Result<(), DiskErr>
    requires unopened { IsTrue D.tells → D.opened disk.old name.now ≡ 0 }
    ensures removes { IsTrue D.tells
        → ChangesUnopened name.now (KeptOr None) (shown_by D.Disk disk.old) (shown_by D.Disk disk.new) }
    ensures gone { IsTrue D.tells
        → OnOk result ((D.files disk.new name.now ≡ None) × Only (D.past disk.new) name.now None) }
    ensures faults { D.faults disk.old ≤ D.faults disk.new }
    ensures cause { IsErrOf result DiskErr.Fault → Rose (D.faults disk.old) (D.faults disk.new) }
{
    match disk.size(name)? {
        Some(_) => remove_synced(disk, name),
        None => disk.sync(name),
    }
}
