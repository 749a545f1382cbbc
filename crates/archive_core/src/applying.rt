// Any act, by what is asked.
ghost use Rattle.std.specs.Prelude.{◌≡◌};
ghost use Rattle.act_model.specs.Machine.{Machine};
ghost use Rattle.act_model.specs.Reply.{reply_of};
ghost use Rattle.act_model.specs.Step.{MayAsk, Step};
ghost use Rattle.archive_core.specs.Acting.{Acted};
ghost use Rattle.archive_core.specs.Ends.{Steps};
ghost use Rattle.archive_core.specs.Leaving.{Leaves};
ghost use Rattle.archive_core.specs.Parts.{parts};
ghost use Rattle.archive_core.specs.Stands.{Stands};
ghost use Rattle.archive_core.specs.Strays.{ActsTidily};

use crate::Archive;
use act_model::{Act, Answer};
use disk_model::Disk;
use series_model::Sample;

impl<D: Disk> Archive<D> {
    // Makes an act: see `apply`.
    fn act(&mut self, who: u64, act: Act) -> Answer<D::Reader>
        requires stands { (m : Machine) × Stands D.tells (parts D.Disk self.old) m }
        requires may_ask { MayAsk act }
        ensures { Acted D.tells who act (parts D.Disk self.old)
            (reply_of D.Reader.tells D.Reader.bytes D.Reader.faults result) (parts D.Disk self.new) }
    {
        match act {
            Act::Register { name, about } => self.register(&name, &about),
            Act::Pause { name } => self.pause(name.bytes()),
            Act::Resume { name } => self.resume(name.bytes()),
            Act::Rename { name, newname } => self.rename(name.bytes(), &newname),
            Act::Offer {
                name,
                ty,
                t,
                line,
                now,
            } => self.offer(name.bytes(), ty, Sample { t, line }, now),
            Act::Tick { row, now } => self.tick(row, now),
            Act::Flush { limit } => self.flush(limit),
            Act::MoveBegin { store, now } => self.begin_move(store, now),
            Act::MoveStep { m } => self.move_step(m),
            Act::Sweep => self.sweep(),
            Act::Pin { name, query } => self.pin(who, name.bytes(), query),
            Act::OpenPiece { pin, i } => self.open_piece(who, pin, i),
            Act::Unpin { pin } => self.unpin(who, pin),
            Act::Names { from, most } => self.names(from, most),
            Act::Details { name } => self.details(name.bytes()),
            Act::Doors => self.doors(),
            Act::DoorDone => self.door_done(),
        }
    }

    /// Makes an act, which is asked under a number: that of the owner of pins. What is answered when is said at the
    /// method of each act. `Memory` is answered for no refusal, and for no sample but one that would be kept.
    ///
    /// Where nothing stood in doubt and neither `DiskFault`, `Damaged` nor `Memory` is answered, nothing stands in
    /// doubt then, and a file of the stores that no list, no limbo and no running move knows was one before.
    pub fn apply(&mut self, who: u64, act: Act) -> Answer<D::Reader>
        requires stands { (m : Machine) × Stands D.tells (parts D.Disk self.old) m }
        requires may_ask { MayAsk act }
        ensures step { Steps D.tells (Step who act) (parts D.Disk self.old)
            (reply_of D.Reader.tells D.Reader.bytes D.Reader.faults result) (parts D.Disk self.new) }
        ensures tidy { ActsTidily D.tells (parts D.Disk self.old)
            (reply_of D.Reader.tells D.Reader.bytes D.Reader.faults result) (parts D.Disk self.new) }
        ensures leaves { Leaves D.tells (parts D.Disk self.old)
            (record { who = who; act = act; answer = reply_of D.Reader.tells D.Reader.bytes D.Reader.faults result })
            (parts D.Disk self.new) }
    {
        self.act(who, act)
    }
}
