// The writing of one destination's file ahead of what is listed.
ghost use Rattle.std.specs.Prelude.{◌≡◌, ◌≢◌, ◌≤◌, ◌++◌, ℕ, List, None, Some, length, take, OnOk, IsErrOf, IsTrue};
ghost use Rattle.disk_model.specs.Files.{HasFile, Rose};
ghost use Rattle.gate_journal.specs.DiskShown.{shown_by};
ghost use Rattle.etl_mover.specs.Writing.{LeavesFile, WritesFile};

use disk_model::{Disk, DiskErr, FileName};
use store_files::{append, extend, settle};

// Writes lines behind the first `at` bytes of a file and syncs it, or makes the file of the header and the lines
// where nothing is listed of it.
pub(crate) fn write_file<D: Disk>(
    disk: &mut D,
    name: &FileName,
    at: Option<u64>,
    head: &[u8],
    lines: &[u8],
) -> Result<(), DiskErr>
    requires there { IsTrue D.tells → (len : ℕ) → at ≡ Some len
        → HasFile (D.files disk.old) name.now (λ b. (D.opened disk.old name.now ≤ len) × (len ≤ length b)) }
    ensures leaves { IsTrue D.tells → LeavesFile name.now at (shown_by D.Disk disk.old) (shown_by D.Disk disk.new) }
    ensures grows { IsTrue D.tells → (len : ℕ) → at ≡ Some len
        → OnOk result (WritesFile name.now at lines.now (D.files disk.old) (shown_by D.Disk disk.new)) }
    ensures makes { IsTrue D.tells → at ≡ None
        → OnOk result (WritesFile name.now at (head.now ++ lines.now) (D.files disk.old) (shown_by D.Disk disk.new)) }
    ensures faults { D.faults disk.old ≤ D.faults disk.new }
    ensures cause { IsErrOf result DiskErr.Fault → Rose (D.faults disk.old) (D.faults disk.new) }
{
    match at {
        Some(len) => go_on(disk, name, len, lines),
        None => make_anew(disk, name, head, lines),
    }
}

// Cuts what stands behind the first `len` bytes, and writes the lines there.
fn go_on<D: Disk>(disk: &mut D, name: &FileName, len: u64, lines: &[u8]) -> Result<(), DiskErr>
    requires { IsTrue D.tells
        → HasFile (D.files disk.old) name.now (λ b. (D.opened disk.old name.now ≤ len) × (len ≤ length b)) }
    ensures leaves { IsTrue D.tells
        → LeavesFile name.now (Some len) (shown_by D.Disk disk.old) (shown_by D.Disk disk.new) }
    ensures grows { IsTrue D.tells
        → OnOk result (WritesFile name.now (Some len) lines.now (D.files disk.old) (shown_by D.Disk disk.new)) }
    ensures faults { D.faults disk.old ≤ D.faults disk.new }
    ensures cause { IsErrOf result DiskErr.Fault → Rose (D.faults disk.old) (D.faults disk.new) }
{
    settle(disk, name, len)?;
    append(disk, name, len, lines)?;
    Ok(())
}

// Makes the file of the header and the lines, in place of one that nothing lists.
fn make_anew<D: Disk>(
    disk: &mut D,
    name: &FileName,
    head: &[u8],
    lines: &[u8],
) -> Result<(), DiskErr>
    ensures leaves { IsTrue D.tells → LeavesFile name.now None (shown_by D.Disk disk.old) (shown_by D.Disk disk.new) }
    ensures makes { IsTrue D.tells
        → OnOk result (WritesFile name.now None (head.now ++ lines.now) (D.files disk.old) (shown_by D.Disk disk.new)) }
    ensures faults { D.faults disk.old ≤ D.faults disk.new }
    ensures cause { IsErrOf result DiskErr.Fault → Rose (D.faults disk.old) (D.faults disk.new) }
{
    extend(disk, name, 0, head, lines)?;
    Ok(())
}
