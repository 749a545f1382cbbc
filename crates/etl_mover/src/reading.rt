// Reads of a part's file, which leave the disk as it is.
ghost use Rattle.std.specs.Prelude.{◌≡◌, ◌⊎◌, ◌≤◌, ◌<◌, ◌+◌, ℕ, List, Some, length, take, drop, IfOk, IsErrOf, IsTrue};
ghost use Rattle.disk_model.specs.Files.{HasFile, Rose};
ghost use Rattle.gate_journal.specs.DiskShown.{shown_by, ReadsDisk};
ghost use Rattle.etl_mover.specs.Reading.{IsChunk, cut_to_line, most_copied};

use disk_model::{Disk, DiskErr, FileName};
use line_escape::line_len;
use std::alloc::Global;

/// As many bytes as one step of copying appends, but for a line that is longer.
pub const MOST_BYTES: usize = 1_048_576;

/// Reads bytes of a file from a place on that isn't past its end, at most so many. The disk is only read.
///
/// `Fault` comes only where the disk's count of faults rose in the call.
pub fn read<D: Disk>(
    alloc: Global,
    disk: &mut D,
    name: &FileName,
    at: u64,
    len: usize,
) -> Result<Vec<u8>, DiskErr>
    requires { IsTrue D.tells → HasFile (D.files disk.old) name.now (λ b. at ≤ length b) }
    ensures bytes { IsTrue D.tells → (b : List ℕ) → D.files disk.old name.now ≡ Some b
        → IfOk result (λ v. v.items ≡ take len (drop at b)) }
    ensures long { IfOk result (λ v. length v.items ≤ len) }
    ensures reads { IsTrue D.tells → ReadsDisk (shown_by D.Disk disk.old) (shown_by D.Disk disk.new) }
    ensures faults { D.faults disk.old ≤ D.faults disk.new }
    ensures cause { IsErrOf result DiskErr.Fault → Rose (D.faults disk.old) (D.faults disk.new) }
{
    let mut bytes = vec![in alloc; 0u8; len]?;
    let count = disk.read(name, at, &mut bytes)?;
    bytes.truncate(count);
    Ok(bytes)
}

// Reads lines of a file from a place on, behind which `rest` bytes of it count: at most as many bytes as one step
// appends, or, where no line ends in these, one line.
pub(crate) fn read_lines<D: Disk>(
    alloc: Global,
    disk: &mut D,
    name: &FileName,
    from: u64,
    rest: u64,
) -> Result<Vec<u8>, DiskErr>
    requires some { 1 ≤ rest }
    requires there { IsTrue D.tells → HasFile (D.files disk.old) name.now (λ b. from + rest ≤ length b) }
    ensures chunk { IsTrue D.tells → (b : List ℕ) → D.files disk.old name.now ≡ Some b
        → IfOk result (λ v. IsChunk (drop from b) rest most_copied v.items) }
    ensures reads { IsTrue D.tells → ReadsDisk (shown_by D.Disk disk.old) (shown_by D.Disk disk.new) }
    ensures faults { D.faults disk.old ≤ D.faults disk.new }
    ensures cause { IsErrOf result DiskErr.Fault → Rose (D.faults disk.old) (D.faults disk.new) }
{
    let mut want = rest.min(MOST_BYTES as u64);
    loop {
        let mut bytes = read(alloc, disk, name, from, want as usize)?;
        let end = line_len(&bytes);
        if end < bytes.len() || want == rest {
            cut_to_line(&mut bytes, end);
            return Ok(bytes);
        }
        want = want.saturating_mul(2).min(rest);
    }
}

// Cuts more bytes than one step appends to their first line, whose newline stands at `end`, if there is one.
fn cut_to_line(bytes: &mut Vec<u8>, end: usize)
    ensures { bytes.new.items ≡ cut_to_line most_copied end bytes.old.items }
{
    if bytes.len() > MOST_BYTES && end < bytes.len() {
        bytes.truncate(end + 1);
    }
}
