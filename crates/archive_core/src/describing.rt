// Details: what is known of a variable, with the numbers of its accepted and durable samples.
ghost use Rattle.std.specs.Prelude.{◌≡◌, ℕ};
ghost use Rattle.intake.specs.Tails.{tail_at};
ghost use Rattle.pv_catalog.specs.Rows.{HasName};
ghost use Rattle.tier_store.specs.Opening.{answer_of};
ghost use Rattle.act_model.specs.Details.{Describes};
ghost use Rattle.act_model.specs.Machine.{Machine};
ghost use Rattle.act_model.specs.Reply.{reply_of};
ghost use Rattle.act_model.specs.declared.acts.Act.TheVariants.{Details as DetailsAct};
ghost use Rattle.archive_core.specs.Acting.{Acted, Asked};
ghost use Rattle.archive_core.specs.Parts.{InMemory, parts, parts_beside};
ghost use Rattle.archive_core.specs.Stands.{Rests, Stands};

use crate::Archive;
use crate::answering::{answered, copied};
use crate::archive::StoreHalf;
use act_model::Answer;
use disk_model::{Disk, DiskErr};
use series_model::Samples;

impl<D: Disk> StoreHalf<D> {
    // Tells of the row that has the name and this tail, where nothing stands in doubt.
    fn details(&mut self, name: &[u8], tail: &Samples) -> Answer<D::Reader>
        requires rests { (w : InMemory) × (m : Machine) × Rests D.tells (parts_beside D.Disk self.old w) m }
        ensures asked { (w : InMemory) (row : ℕ) → HasName self.old.store.catalogue.rows row name.now
            → tail.now ≡ (tail_at w.tails row).samples → Asked D.tells (Describes name.now)
            (parts_beside D.Disk self.old w) (reply_of D.Reader.tells D.Reader.bytes D.Reader.faults result)
            (parts_beside D.Disk self.new w) }
        ensures moves { self.new.moves ≡ self.old.moves }
    {
        self.store.details(name, tail)
    }
}

impl<D: Disk> Archive<D> {
    // Tells of the row that has the name, if one has it. The memory for the tail is taken before.
    fn describe_named(&mut self, name: &[u8]) -> Result<Answer<D::Reader>, DiskErr>
        requires stands { (m : Machine) × Stands D.tells (parts D.Disk self.old) m }
        ensures acted { (who : ℕ) → Acted D.tells who (DetailsAct name.now) (parts D.Disk self.old)
            (reply_of D.Reader.tells D.Reader.bytes D.Reader.faults (answer_of result)) (parts D.Disk self.new) }
        ensures moves { self.new.half.moves ≡ self.old.half.moves }
    {
        let Some(_) = self.half.store.catalogue().find(name) else {
            return Ok(Answer::NoSuchVariable);
        };
        self.settle()?;
        let Some(row) = self.half.store.catalogue().find(name) else {
            return Ok(Answer::NoSuchVariable);
        };
        let tail = copied(self.alloc, self.intake.tail(row))?;
        Ok(self.half.details(name, &tail))
    }

    /// Tells what is known of a variable: its name, what the catalogue has about it, and its state, how many files each
    /// store lists of it under this name, how many samples of it are durable and how many are accepted, under the names
    /// before it too, and the moments of the first and the last of these. A change that stands in doubt is settled
    /// first, and files are only read. `DiskFault` comes only where the disk's count of faults rose in the call.
    /// `Memory` comes also where no `u64` has a number of samples.
    pub fn details(&mut self, name: &[u8]) -> Answer<D::Reader>
        requires stands { (m : Machine) × Stands D.tells (parts D.Disk self.old) m }
        ensures acted { (who : ℕ) → Acted D.tells who (DetailsAct name.now) (parts D.Disk self.old)
            (reply_of D.Reader.tells D.Reader.bytes D.Reader.faults result) (parts D.Disk self.new) }
        ensures moves { self.new.half.moves ≡ self.old.half.moves }
    {
        answered(self.describe_named(name))
    }
}
