// Samples that come: an offer, and a tick of a row that is sampled. No file is touched.
ghost use Rattle.std.specs.Prelude.{◌≡◌, ◌<◌, ℕ, length};
ghost use Rattle.act_model.specs.Asks.{offered_reply};
ghost use Rattle.act_model.specs.Event.{IsEvent};
ghost use Rattle.act_model.specs.Machine.{Machine};
ghost use Rattle.act_model.specs.Offer.{OfferStep};
ghost use Rattle.act_model.specs.Reply.{reply_of};
ghost use Rattle.act_model.specs.declared.acts.Act.TheVariants.{Offer as OfferAct, Tick as TickAct};
ghost use Rattle.archive_core.specs.Acting.{Acted};
ghost use Rattle.archive_core.specs.Ends.{EndsNamed};
ghost use Rattle.archive_core.specs.Parts.{parts};
ghost use Rattle.archive_core.specs.Stands.{Stands};
ghost use Rattle.archive_core.specs.Wanting.{WithWants, WouldKeep};

use crate::Archive;
use crate::answering::{offered, ticked};
use act_model::{Answer, Offered};
use disk_model::Disk;
use intake_half::{offer_row, reason_by_row, runs, tick_row};
use pb_messages::PayloadType;
use series_model::{Reason, Sample};

impl<D: Disk> Archive<D> {
    // An offer to the row of this number.
    fn offer_to(&mut self, row: u32, ty: PayloadType, sample: Sample, now: u64) -> Offered
        requires here { row < length self.old.half.store.catalogue.rows }
        requires there { row < length self.old.rows.items }
        requires event { IsEvent ty sample }
        ensures step { EndsNamed D.tells row (λ name. WithWants (WouldKeep name ty sample now)
            (OfferStep name ty sample now)) (parts D.Disk self.old) (offered_reply result) (parts D.Disk self.new) }
        ensures store { self.new.half.store ≡ self.old.half.store }
        ensures moves { self.new.half.moves ≡ self.old.half.moves }
    {
        let at = row as usize;
        let variable = &self.half.store.catalogue().rows()[at];
        match reason_by_row(variable.state, variable.about.ty, self.rows[at].next, ty) {
            Some(reason) => Offered::Dropped(reason),
            None => offer_row(&mut self.intake, &mut self.rows[at], row, sample, now),
        }
    }

    /// Offers a sample: its line is an event of the type at its moment, escaped and without its newline. It makes no
    /// call of the disk, and takes no memory but for the row's tail, and that only where the tail has none to spare.
    pub fn offer(
        &mut self,
        name: &[u8],
        ty: PayloadType,
        sample: Sample,
        now: u64,
    ) -> Answer<D::Reader>
        requires stands { (m : Machine) × Stands D.tells (parts D.Disk self.old) m }
        requires event { IsEvent ty sample }
        ensures acted { (who : ℕ)
            → Acted D.tells who (OfferAct name.now ty sample.t sample.line now) (parts D.Disk self.old)
            (reply_of D.Reader.tells D.Reader.bytes D.Reader.faults result) (parts D.Disk self.new) }
        ensures store { self.new.half.store ≡ self.old.half.store }
        ensures moves { self.new.half.moves ≡ self.old.half.moves }
    {
        match self.half.store.catalogue().find(name) {
            None => Answer::Dropped(Reason::Unknown),
            Some(row) => offered(self.offer_to(row, ty, sample, now)),
        }
    }

    /// Tries what a sampled row holds, where its period is over. It makes no call of the disk, and takes no
    /// memory but for the row's tail.
    pub fn tick(&mut self, row: u32, now: u64) -> Answer<D::Reader>
        requires stands { (m : Machine) × Stands D.tells (parts D.Disk self.old) m }
        ensures acted { (who : ℕ) → Acted D.tells who (TickAct row now) (parts D.Disk self.old)
            (reply_of D.Reader.tells D.Reader.bytes D.Reader.faults result) (parts D.Disk self.new) }
        ensures store { self.new.half.store ≡ self.old.half.store }
        ensures moves { self.new.half.moves ≡ self.old.half.moves }
    {
        let Some(variable) = self.half.store.catalogue().row(row) else {
            return Answer::NoRow;
        };
        let is_running = runs(variable.state);
        ticked(tick_row(
            &mut self.intake,
            &mut self.rows[row as usize],
            row,
            is_running,
            now,
        ))
    }
}
