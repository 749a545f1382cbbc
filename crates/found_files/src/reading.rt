// The reading of one file of a disk, which isn't opened.
ghost use Rattle.std.specs.Prelude.{◌≡◌, ◌≢◌, ◌≤◌, None, Some, Err, IfOk, IfSome, IsTrue, length};
ghost use Rattle.disk_model.specs.Files.{Rose, HasFile};
ghost use Rattle.disk_model.specs.declared.disk.DiskErr.TheVariants.{Fault};
ghost use Rattle.pb_file.specs.GoodFront.{IsShapedAs};
ghost use Rattle.found_files.specs.Reading.{HasFront, OnlyReads};

use disk_model::{Disk, DiskErr, FileName, ReadAt, ReadFailed};
use partition_names::Part;
use pb_file::{Front, FrontErr, good_front};
use std::alloc::Global;

// A file that is there on a disk, as one that was opened. It keeps what the disk answered last where that was a
// refusal, and counts the refusals.
#[derive(Drop)]
struct DiskFile<'a, D: Disk> {
    disk: &'a mut D,
    name: &'a FileName,
    refused: Option<DiskErr>,
    count: u64,
    ghost there: { IsTrue D.tells → D.files disk.now name.now ≢ None },
}

impl<'a, D: Disk> ReadAt for DiskFile<'a, D> {
    ghost use Rattle.std.specs.Prelude.{◌≡◌};
    ghost use Rattle.std.proofs.Common.{◌∙◌, refl};
    ghost use Rattle.found_files.specs.Reading.{bytes_in};
    ghost use Rattle.found_files.specs.Refusals.{ReadsOn};
    ghost use Rattle.found_files.specs.ReadRuns.{reads_none, reads_then};

    ghost tells = { D.tells };

    ghost bytes = { λ f. bytes_in (D.files f.disk.now f.name.now) };

    ghost faults = { λ f. f.count };

    ghost leaves = { λ old new. (new.disk.ghost_name ≡ old.disk.ghost_name) × (new.name ≡ old.name)
        × ReadsOn D.Disk old.disk.now old.refused old.count new.disk.now new.refused new.count };

    fn read_at(&mut self, at: u64, buf: &mut [u8]) -> Result<usize, ReadFailed> {
        match self.disk.read(self.name, at, buf) {
            Ok(n) => Ok(n),
            Err(e) => {
                self.refused = Some(e);
                self.count = self.count.saturating_add(1);
                Err(ReadFailed)
            }
        }
    }

    ghost leaves_none = { λ f. (
      refl,
      refl,
      reads_none _ f.disk.now f.refused f.count,
    ) };

    ghost leaves_then = { λ a b c first second. (
      second.0 ∙ first.0,
      second.1 ∙ first.1,
      reads_then _ a.disk.now a.refused a.count b.disk.now b.refused b.count
          c.disk.now c.refused c.count first.2 second.2,
    ) };
}

// Gives the front of the first `len` bytes of a file for this partition, or `None` where it has
// none. The disk is only read.
pub(crate) fn front_of<'a, D: Disk>(
    alloc: Global,
    disk: &'a mut D,
    name: &'a FileName,
    part: &Part,
    len: u64,
) -> Result<Option<Front>, DiskErr>
    requires there { IsTrue D.tells → HasFile (D.files disk.old) name.now (λ b. len ≡ length b) }
    ensures front { IsTrue D.tells → IfOk result (HasFront part.now (D.files disk.old) name.now) }
    ensures shape { IfOk result (λ r. IfSome r (IsShapedAs part.now len)) }
    ensures read { OnlyReads D.Disk disk.old disk.new }
    ensures cause { result ≡ Err Fault → Rose (D.faults disk.old) (D.faults disk.new) }
{
    let mut file = DiskFile {
        disk,
        name,
        refused: None,
        count: 0,
    };
    let front = good_front(alloc, &mut file, part, len);
    let refused = file.refused;
    match front {
        Ok(front) => Ok(Some(front)),
        Err(cause) => match cause {
            FrontErr::NoFront => Ok(None),
            FrontErr::Memory => Err(DiskErr::Memory),
            FrontErr::ReadFault => match refused {
                Some(e) => Err(e),
                None => unreachable!(),
            },
        },
    }
}
