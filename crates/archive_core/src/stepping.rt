// The act by which a move goes on: it copies, lists what it has copied, and retires its parts.
ghost use Rattle.std.specs.Prelude.{◌≡◌, ◌≢◌, ◌<◌, ℕ, IfOk, length};
ghost use Rattle.tier_store.specs.Opening.{answer_of};
ghost use Rattle.act_model.specs.Machine.{Machine};
ghost use Rattle.act_model.specs.Reply.{reply_of};
ghost use Rattle.act_model.specs.declared.acts.Act.TheVariants.{MoveStep as MoveStepAct};
ghost use Rattle.etl_mover.specs.Move.{IsCopied};
ghost use Rattle.etl_mover.specs.declared.moving.Stage.TheVariants.{Copying as IsCopying, Published as IsPublished};
ghost use Rattle.archive_core.specs.Acting.{Acted};
ghost use Rattle.archive_core.specs.Parts.{InMemory, parts, parts_beside};
ghost use Rattle.archive_core.specs.Retiring.{lengths_of};
ghost use Rattle.archive_core.specs.Stands.{Stands};
ghost use Rattle.archive_core.specs.Stepping.{GoesOnWith, HasTaken};

use crate::Archive;
use crate::answering::answered;
use crate::archive::StoreHalf;
use crate::memory::Doubt;
use act_model::Answer;
use disk_model::{Disk, DiskErr};
use etl_mover::{Move, Stage};
use moves::Running;
use std::alloc::{AllocError, Global};
use tier_store::{CopyEnd, RetireEnd};

// The lengths up to which a move's parts are published.
fn published_lengths(alloc: Global, moving: &Move) -> Result<Vec<u64>, AllocError>
    ensures { IfOk result (λ lengths. lengths.items ≡ lengths_of moving.now.parts) }
{
    moving.parts().iter().map(|part| part.len).collect(alloc)
}

impl<D: Disk> StoreHalf<D> {
    // Copies more of the parts of a move that was taken out of the table, where nothing stands in doubt, and puts the
    // move back under its number. After a fault, or where a file is damaged, it isn't put back.
    fn copy_taken(
        &mut self,
        number: u32,
        mut running: Running<Move>,
    ) -> Result<Answer<D::Reader>, DiskErr>
        requires taken { (w : InMemory) × HasTaken D.tells number running (parts_beside D.Disk self.old w) }
        requires copies { running.moving.stage ≡ IsCopying }
        requires left { running.moving.at ≢ length running.moving.parts }
        requires room { number < length self.old.moves.slots.items }
        ensures { (w : InMemory) → GoesOnWith D.tells number running
            (parts_beside D.Disk self.old w) (parts_beside D.Disk self.new w)
            (reply_of D.Reader.tells D.Reader.bytes D.Reader.faults (answer_of result)) }
    {
        let place = usize::from(running.store) - 1;
        match self.store.copy(place, &mut running.moving) {
            Ok(CopyEnd::More) => {
                self.moves.put_back(number, running);
                Ok(Answer::Copying)
            }
            Ok(CopyEnd::Copied) => {
                self.moves.put_back(number, running);
                Ok(Answer::Copied)
            }
            Ok(CopyEnd::Damaged { name, at }) => Ok(Answer::Damaged { name, at }),
            Err(DiskErr::Fault) => Err(DiskErr::Fault),
            Err(DiskErr::Memory) => {
                self.moves.put_back(number, running);
                Err(DiskErr::Memory)
            }
        }
    }

    // Lists what a move has copied that was taken out of the table, where nothing stands in doubt, and puts it back
    // under its number. After a fault it isn't put back.
    fn publish_taken(
        &mut self,
        number: u32,
        mut running: Running<Move>,
    ) -> Result<Answer<D::Reader>, DiskErr>
        requires taken { (w : InMemory) × HasTaken D.tells number running (parts_beside D.Disk self.old w) }
        requires copied { IsCopied running.moving }
        requires room { number < length self.old.moves.slots.items }
        ensures { (w : InMemory) → GoesOnWith D.tells number running
            (parts_beside D.Disk self.old w) (parts_beside D.Disk self.new w)
            (reply_of D.Reader.tells D.Reader.bytes D.Reader.faults (answer_of result)) }
    {
        match self
            .store
            .publish(usize::from(running.store), &mut running.moving)
        {
            Ok(()) => {
                self.moves.put_back(number, running);
                Ok(Answer::Published)
            }
            Err(DiskErr::Fault) => {
                self.doubt = Some(Doubt::Published);
                Err(DiskErr::Fault)
            }
            Err(DiskErr::Memory) => {
                self.moves.put_back(number, running);
                Err(DiskErr::Memory)
            }
        }
    }

    // Retires the parts of a move that was taken out of the table and whose copies are listed, where nothing stands in
    // doubt. The move has ended then, whether its parts have left their store or one of them has grown, and after a
    // fault, be it that of a removal behind the commit. Where memory was wanting it is put back. Of a doubted
    // retirement nothing is kept: all that it changes in memory is the stores'.
    fn retire_taken(
        &mut self,
        number: u32,
        running: Running<Move>,
    ) -> Result<Answer<D::Reader>, DiskErr>
        requires taken { (w : InMemory) × HasTaken D.tells number running (parts_beside D.Disk self.old w) }
        requires published { running.moving.stage ≡ IsPublished }
        requires room { number < length self.old.moves.slots.items }
        ensures { (w : InMemory) → GoesOnWith D.tells number running
            (parts_beside D.Disk self.old w) (parts_beside D.Disk self.new w)
            (reply_of D.Reader.tells D.Reader.bytes D.Reader.faults (answer_of result)) }
    {
        let Ok(lengths) = published_lengths(self.alloc, &running.moving) else {
            self.moves.put_back(number, running);
            return Err(DiskErr::Memory);
        };
        match self
            .store
            .retire(usize::from(running.store) - 1, running.series, &lengths)
        {
            Ok(RetireEnd::Retired { removed: Ok(()) }) => Ok(Answer::Retired {
                parts: lengths.len() as u64,
            }),
            Ok(RetireEnd::Retired { removed: Err(_) }) => Err(DiskErr::Fault),
            Ok(RetireEnd::Again { len, copied }) => Ok(Answer::Again { len, copied }),
            Err(DiskErr::Fault) => Err(DiskErr::Fault),
            Err(DiskErr::Memory) => {
                self.moves.put_back(number, running);
                Err(DiskErr::Memory)
            }
        }
    }

    // Goes on with a move that was taken out of the table, where nothing stands in doubt.
    fn go_on(&mut self, number: u32, running: Running<Move>) -> Result<Answer<D::Reader>, DiskErr>
        requires taken { (w : InMemory) × HasTaken D.tells number running (parts_beside D.Disk self.old w) }
        requires room { number < length self.old.moves.slots.items }
        ensures { (w : InMemory) → GoesOnWith D.tells number running
            (parts_beside D.Disk self.old w) (parts_beside D.Disk self.new w)
            (reply_of D.Reader.tells D.Reader.bytes D.Reader.faults (answer_of result)) }
    {
        match running.moving.stage() {
            Stage::Published => self.retire_taken(number, running),
            _ if running.moving.at().is_none() => self.publish_taken(number, running),
            _ => self.copy_taken(number, running),
        }
    }
}

impl<D: Disk> Archive<D> {
    fn step_move(&mut self, number: u32) -> Result<Answer<D::Reader>, DiskErr>
        requires stands { (m : Machine) × Stands D.tells (parts D.Disk self.old) m }
        ensures { (who : ℕ) → Acted D.tells who (MoveStepAct number) (parts D.Disk self.old)
            (reply_of D.Reader.tells D.Reader.bytes D.Reader.faults (answer_of result)) (parts D.Disk self.new) }
    {
        if !self.half.moves.runs(number) {
            return Ok(Answer::NoMove);
        }
        match self.settle() {
            Ok(()) => {}
            Err(DiskErr::Fault) => {
                self.half.moves.take(number);
                return Err(DiskErr::Fault);
            }
            Err(DiskErr::Memory) => return Err(DiskErr::Memory),
        }
        let Some(running) = self.half.moves.take(number) else {
            return Ok(Answer::NoMove);
        };
        self.half.go_on(number, running)
    }

    /// Goes on with the move of this number by one step. A move copies what the next store lacks of its parts, at most
    /// 1,048,576 bytes of lines a step or one longer line, then it is listed what was copied, and then the parts leave
    /// their store. What is accepted and what is durable stay as they are. The step tells what it came to; where a part
    /// has grown since it was copied, nothing is retired, and the move has ended, as it has once its parts are retired.
    /// A file that is told as damaged is that of a part of the move, at a place within the length that is listed of it;
    /// the move has ended then too.
    ///
    /// A change that stands in doubt is settled first. `DiskFault` comes only where the disk's count of faults rose in
    /// the call; the move has ended then. Where only the removal of a part failed, all parts have left their store.
    /// `Memory` leaves it as it was.
    pub fn move_step(&mut self, number: u32) -> Answer<D::Reader>
        requires stands { (m : Machine) × Stands D.tells (parts D.Disk self.old) m }
        ensures { (who : ℕ) → Acted D.tells who (MoveStepAct number) (parts D.Disk self.old)
            (reply_of D.Reader.tells D.Reader.bytes D.Reader.faults result) (parts D.Disk self.new) }
    {
        answered(self.step_move(number))
    }
}
