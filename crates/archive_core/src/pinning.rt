// Pins: one is made, a piece of one is opened, or its owner gives it up.
ghost use Rattle.std.specs.Prelude.{◌≡◌, ℕ};
ghost use Rattle.intake.specs.Tails.{tail_at};
ghost use Rattle.pv_catalog.specs.Rows.{HasName};
ghost use Rattle.tier_store.specs.Opening.{answer_of};
ghost use Rattle.act_model.specs.Machine.{Machine};
ghost use Rattle.act_model.specs.Pin.{MakesPin};
ghost use Rattle.act_model.specs.Reply.{reply_of};
ghost use Rattle.act_model.specs.declared.acts.Act.TheVariants.{OpenPiece as OpenPieceAct, Pin as PinAct};
ghost use Rattle.act_model.specs.declared.acts.Act.TheVariants.{Unpin as UnpinAct};
ghost use Rattle.archive_core.specs.Acting.{Acted, Asked};
ghost use Rattle.archive_core.specs.Leaving.{LeavesPins};
ghost use Rattle.archive_core.specs.Parts.{InMemory, parts, parts_beside};
ghost use Rattle.archive_core.specs.Stands.{Rests, Stands};

use crate::Archive;
use crate::answering::{answered, copied};
use crate::archive::StoreHalf;
use act_model::Answer;
use disk_model::{Disk, DiskErr};
use series_model::{Query, Samples};

impl<D: Disk> StoreHalf<D> {
    // Pins files of the row that has the name and this tail, where nothing stands in doubt.
    fn pin(&mut self, who: u64, name: &[u8], query: Query, tail: Samples) -> Answer<D::Reader>
        requires rests { (w : InMemory) × (m : Machine) × Rests D.tells (parts_beside D.Disk self.old w) m }
        ensures asked { (w : InMemory) (row : ℕ) → HasName self.old.store.catalogue.rows row name.now
            → tail ≡ (tail_at w.tails row).samples → Asked D.tells (MakesPin who name.now query)
            (parts_beside D.Disk self.old w) (reply_of D.Reader.tells D.Reader.bytes D.Reader.faults result)
            (parts_beside D.Disk self.new w) }
        ensures made { (w : InMemory) → LeavesPins D.tells (parts_beside D.Disk self.old w) (PinAct name.now query)
            (reply_of D.Reader.tells D.Reader.bytes D.Reader.faults result) (parts_beside D.Disk self.new w) }
        ensures moves { self.new.moves ≡ self.old.moves }
    {
        self.store.pin(who, name, query, tail)
    }

    // See `Archive::open_piece`.
    fn open_piece(&mut self, who: u64, pin: u32, i: u32) -> Answer<D::Reader>
        requires stands { (w : InMemory) × (m : Machine) × Stands D.tells (parts_beside D.Disk self.old w) m }
        ensures acted { (w : InMemory) → Acted D.tells who (OpenPieceAct pin i) (parts_beside D.Disk self.old w)
            (reply_of D.Reader.tells D.Reader.bytes D.Reader.faults result) (parts_beside D.Disk self.new w) }
        ensures moves { self.new.moves ≡ self.old.moves }
    {
        self.store.open_piece(who, pin, i)
    }

    // See `Archive::unpin`.
    fn unpin(&mut self, who: u64, pin: u32) -> Answer<D::Reader>
        ensures acted { (w : InMemory) → Acted D.tells who (UnpinAct pin) (parts_beside D.Disk self.old w)
            (reply_of D.Reader.tells D.Reader.bytes D.Reader.faults result) (parts_beside D.Disk self.new w) }
        ensures same { (self.new.store.catalogue ≡ self.old.store.catalogue)
            × (self.new.store.manifests ≡ self.old.store.manifests)
            × (self.new.store.disk ≡ self.old.store.disk)
            × (self.new.store.limbo ≡ self.old.store.limbo) }
        ensures moves { self.new.moves ≡ self.old.moves }
    {
        self.store.unpin(who, pin)
    }
}

impl<D: Disk> Archive<D> {
    // Pins the files of the row that has the name, if one has it. The memory for the tail is taken before.
    fn pin_named(
        &mut self,
        who: u64,
        name: &[u8],
        query: Query,
    ) -> Result<Answer<D::Reader>, DiskErr>
        requires stands { (m : Machine) × Stands D.tells (parts D.Disk self.old) m }
        ensures acted { Acted D.tells who (PinAct name.now query) (parts D.Disk self.old)
            (reply_of D.Reader.tells D.Reader.bytes D.Reader.faults (answer_of result)) (parts D.Disk self.new) }
        ensures moves { self.new.half.moves ≡ self.old.half.moves }
    {
        let Some(_) = self.half.store.catalogue().find(name) else {
            return Ok(Answer::NoSuchVariable);
        };
        self.settle()?;
        let Some(row) = self.half.store.catalogue().find(name) else {
            return Ok(Answer::NoSuchVariable);
        };
        let tail = copied(self.alloc, self.intake.tail(row))?;
        Ok(self.half.pin(who, name, query, tail))
    }

    /// Pins files of a variable that are enough for its samples of an interval, maybe more than these need, for the
    /// actor of this number: under the least number that no pin has. Those under names that the variable had before
    /// come first. It tells how many they are, and the samples that no store lists yet; the files in their order and
    /// these over them answer the query as all samples that are accepted do. A change that stands in doubt is settled
    /// first. `DiskFault` comes only where the disk's count of faults rose in the call.
    pub fn pin(&mut self, who: u64, name: &[u8], query: Query) -> Answer<D::Reader>
        requires stands { (m : Machine) × Stands D.tells (parts D.Disk self.old) m }
        ensures acted { Acted D.tells who (PinAct name.now query) (parts D.Disk self.old)
            (reply_of D.Reader.tells D.Reader.bytes D.Reader.faults result) (parts D.Disk self.new) }
        ensures moves { self.new.half.moves ≡ self.old.half.moves }
    {
        answered(self.pin_named(who, name, query))
    }

    /// Opens piece `i` of a pin of the actor of this number: the reader has just the bytes that were pinned, whatever
    /// has become of the file. A change that stands in doubt stays so. `DiskFault` comes only where the disk's count
    /// of faults rose in the call.
    pub fn open_piece(&mut self, who: u64, pin: u32, i: u32) -> Answer<D::Reader>
        requires stands { (m : Machine) × Stands D.tells (parts D.Disk self.old) m }
        ensures acted { Acted D.tells who (OpenPieceAct pin i) (parts D.Disk self.old)
            (reply_of D.Reader.tells D.Reader.bytes D.Reader.faults result) (parts D.Disk self.new) }
        ensures moves { self.new.half.moves ≡ self.old.half.moves }
    {
        self.half.open_piece(who, pin, i)
    }

    /// Gives up a pin of the actor of this number. It makes no call of the disk, and takes no memory.
    pub fn unpin(&mut self, who: u64, pin: u32) -> Answer<D::Reader>
        requires stands { (m : Machine) × Stands D.tells (parts D.Disk self.old) m }
        ensures acted { Acted D.tells who (UnpinAct pin) (parts D.Disk self.old)
            (reply_of D.Reader.tells D.Reader.bytes D.Reader.faults result) (parts D.Disk self.new) }
        ensures same { (self.new.half.store.catalogue ≡ self.old.half.store.catalogue)
            × (self.new.half.store.manifests ≡ self.old.half.store.manifests)
            × (self.new.half.store.disk ≡ self.old.half.store.disk)
            × (self.new.half.store.limbo ≡ self.old.half.store.limbo) }
        ensures moves { self.new.half.moves ≡ self.old.half.moves }
    {
        self.half.unpin(who, pin)
    }
}
