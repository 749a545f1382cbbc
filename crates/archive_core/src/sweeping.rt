// Sweeping: files that were retired, and that nothing needs any more, are removed.
ghost use Rattle.std.specs.Prelude.{◌≡◌, ℕ, IfOk};
ghost use Rattle.act_model.specs.Machine.{Machine};
ghost use Rattle.act_model.specs.Reply.{reply_of};
ghost use Rattle.act_model.specs.declared.acts.Act.TheVariants.{Sweep as SweepAct};
ghost use Rattle.archive_core.specs.Acting.{Acted};
ghost use Rattle.archive_core.specs.Parts.{InMemory, parts, parts_beside};
ghost use Rattle.archive_core.specs.Stands.{Stands, Rests};
ghost use Rattle.archive_core.specs.Sweeping.{sweep_reply};
ghost use Rattle.archive_core.specs.Written.{AreWritten};

use crate::Archive;
use crate::archive::StoreHalf;
use crate::written::written_names;
use act_model::Answer;
use disk_model::{Disk, DiskErr, FileName, ReadAt};
use std::alloc::AllocError;
use tier_store::StoreSwept;

// What is answered after the stores' sweep.
fn swept<R: ReadAt>(done: Result<StoreSwept, DiskErr>) -> Answer<R>
    ensures { reply_of R.tells R.bytes R.faults result ≡ sweep_reply done }
{
    match done {
        Ok(
            StoreSwept {
                files,
                removed: Ok(()),
            },
        ) => Answer::Swept { files },
        Ok(_) | Err(DiskErr::Fault) => Answer::DiskFault,
        Err(DiskErr::Memory) => Answer::Memory,
    }
}

impl<D: Disk> StoreHalf<D> {
    // The names of the files that running moves have written to and not listed yet.
    fn written_names(&self) -> Result<Vec<FileName>, AllocError>
        requires rests { (w : InMemory) × (m : Machine) × Rests D.tells (parts_beside D.Disk self.now w) m }
        ensures { IfOk result (λ names.
            AreWritten self.now.store.catalogue.rows self.now.moves.slots.items names.items) }
    {
        written_names(
            self.alloc,
            self.store.catalogue().rows(),
            self.moves.slots(),
        )
    }
}

impl<D: Disk> Archive<D> {
    // Sweeps the stores, but for the files that running moves have written to.
    fn sweep_stores(&mut self) -> Result<StoreSwept, DiskErr>
        requires stands { (m : Machine) × Stands D.tells (parts D.Disk self.old) m }
        ensures { (who : ℕ)
            → Acted D.tells who SweepAct (parts D.Disk self.old) (sweep_reply result) (parts D.Disk self.new) }
    {
        self.settle()?;
        let written = self.half.written_names()?;
        self.half.store.sweep(&written)
    }

    /// Removes the files that were retired and that nothing needs any more, and answers how many these are: those that
    /// no pin names, and into which no running move has copied. A change that stands in doubt is settled first.
    /// `DiskFault` comes only where the disk's count of faults rose in the call: from the settling, or where a removal
    /// failed. Then the act has done all else, and the file counts for nothing any more. `Memory` leaves all as it was,
    /// but for a doubt that is settled.
    pub fn sweep(&mut self) -> Answer<D::Reader>
        requires stands { (m : Machine) × Stands D.tells (parts D.Disk self.old) m }
        ensures { (who : ℕ) → Acted D.tells who SweepAct (parts D.Disk self.old)
            (reply_of D.Reader.tells D.Reader.bytes D.Reader.faults result) (parts D.Disk self.new) }
    {
        swept(self.sweep_stores())
    }
}
