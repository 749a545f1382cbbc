// The half as one value.
ghost use Rattle.std.specs.Prelude.{◌≡◌, ◌-◌, ◌≤◌, ◌<◌, ℕ, [], length, max, Some, None, IfSome, IfOk, OnOk, OnErr};
ghost use Rattle.act_model.specs.Asks.{offered_reply, ticked_reply};
ghost use Rattle.act_model.specs.Event.{IsEvent};
ghost use Rattle.act_model.specs.declared.acts.Act.TheVariants.{Offer as OfferAct};
ghost use Rattle.act_model.specs.declared.acts.Answer.TheVariants.{Memory};
ghost use Rattle.two_histories.specs.ArchiveIntake.{NamesAgree, known_as, look_at, taken};
ghost use Rattle.two_histories.specs.IntakeStep.{IntakeStep, Offers, Ticks, LooksForBatch, Replies, SawBatch};
ghost use Rattle.intake_half.specs.Known.{HasName, WouldKeep, WouldTick, number_of, slot_at};
ghost use Rattle.intake_half.specs.Taking.{end_in};

use crate::known::{KnownRow, offer_to, tick_in};
use crate::looking::{bytes_in, look_at_none, look_in};
use crate::names::Names;
use crate::taking::{make_room, take_rows, trim_tails};
use crate::told::{BatchLook, Registered, RowLook};
use act_model::{Offered, Ticked};
use intake::Intake;
use pb_messages::PayloadType;
use series_model::{Blob, Reason, Sample};
use std::alloc::{AllocError, Global};
use std::marker::Model;

/// The rows that the intake knows, with what it accepted of them that it has not let go, and the open doors.
#[derive(Drop)]
pub struct IntakeHalf {
    alloc: Global,
    slots: Vec<Option<KnownRow>>,
    names: Names,
    intake: Intake,
    upto: u64,
    doors: u64,
}

impl Model for IntakeHalf {
    ghost use Rattle.two_histories.specs.ArchiveIntake as halves;
    ghost use Rattle.intake_half.specs.Known.{AreKept, seen_from};

    ghost Value = { halves.IntakeHalf };

    ghost view = { λ h. record { rows = seen_from h.intake 0 h.slots.items; upto = h.upto; doors = h.doors } };

    ghost invariant = { λ h. AreKept h.slots.items h.intake h.names };
}

// The number of the row that has this name.
fn find(slots: &[Option<KnownRow>], names: &Names, name: &[u8]) -> Option<u32>
    ensures found { IfSome result (λ i. HasName slots.now i name.now) }
    ensures only { (i : ℕ) → number_of names.now name.now ≡ Some i → HasName slots.now i name.now → result ≡ Some i }
{
    let row = names.number(name)?;
    let slot = slots.get(row as usize)?;
    let known = slot.as_ref()?;
    if known.name.bytes() == name {
        Some(row)
    } else {
        None
    }
}

impl IntakeHalf {
    /// No row is known, and so many doors are open. It takes no memory.
    pub fn new(alloc: Global, doors: u64) -> IntakeHalf
        ensures { result ≡ record { rows = []; upto = 0; doors = doors } }
    {
        IntakeHalf {
            alloc,
            slots: Vec::new(alloc),
            names: Names::new(alloc),
            intake: Intake::new(alloc),
            upto: 0,
            doors,
        }
    }

    /// How many doors are open.
    pub fn doors(&self) -> u64
        ensures { result ≡ self.now.doors }
    {
        self.doors
    }

    /// Counts off a door that has ended, and tells how many are open then.
    pub fn door_done(&mut self) -> u64
        ensures left { result ≡ self.old.doors - 1 }
        ensures half { self.new ≡ record self.old { doors = self.old.doors - 1 } }
    {
        self.doors = self.doors.saturating_sub(1);
        self.doors
    }

    /// Offers a sample to the row of this name: its line is an event of the type at its moment, escaped and without its
    /// newline. It takes no memory but for the row's tail, and that only for a sample that is kept.
    pub fn offer(&mut self, name: &[u8], ty: PayloadType, sample: Sample, now: u64) -> Offered
        requires { IsEvent ty sample }
        ensures step { (who : ℕ) → IntakeStep who self.old (Offers (OfferAct name.now ty sample.t sample.line now))
            (Replies (offered_reply result)) self.new }
        ensures wants { offered_reply result ≡ Memory → WouldKeep name.now ty sample now self.old }
    {
        match find(&self.slots, &self.names, name) {
            None => Offered::Dropped(Reason::Unknown),
            Some(row) => offer_to(
                &mut self.intake,
                &mut self.slots[row as usize],
                row,
                ty,
                sample,
                now,
            ),
        }
    }

    /// Tries what a sampled row holds, where its period is over. It takes no memory but for the row's tail, and that
    /// only for a sample that is kept.
    pub fn tick(&mut self, row: u32, now: u64) -> Ticked
        ensures step { (who : ℕ) → IntakeStep who self.old (Ticks row now) (Replies (ticked_reply result)) self.new }
        ensures wants { ticked_reply result ≡ Memory → WouldTick row now self.old }
    {
        let at = row as usize;
        if at >= self.slots.len() {
            return Ticked::NoRow;
        }
        tick_in(&mut self.intake, &mut self.slots[at], row, now)
    }

    /// A look at a batch: copies of whole tails in the order of rows, at least one where any is held, until they have
    /// `limit` bytes.
    pub fn look_for_batch(&self, limit: u64) -> Result<BatchLook, AllocError>
        requires { 1 ≤ limit }
        ensures { IfOk result (λ look. (who : ℕ) → IntakeStep who self.now (LooksForBatch limit)
            (SawBatch look.doors look.batch look.left look.upto) self.now) }
    {
        let batch = self.intake.batch(limit)?;
        let left = self.intake.held() - bytes_in(&batch);
        Ok(BatchLook {
            doors: self.doors,
            batch,
            left,
            upto: self.upto,
        })
    }

    /// A look at the row of this name: a copy of its tail, and what is known of it.
    pub fn look_at(&self, name: Blob) -> Result<RowLook, AllocError>
        ensures { IfOk result (λ look. look ≡ look_at name (known_as self.now.rows name)) }
    {
        match find(&self.slots, &self.names, name.bytes()) {
            None => Ok(look_at_none(self.alloc, name)),
            Some(row) => {
                let slot = &self.slots[row as usize];
                look_in(self.alloc, &self.intake, slot, row, name)
            }
        }
    }

    /// Lets go of each tail the samples that are earlier than the row's end in `ends`, where the ends stand by the
    /// rows' numbers, and takes over the rows that are told. An `Err` leaves all as it was.
    pub fn take(&mut self, ends: &[u64], rows: Vec<Registered>) -> Result<(), AllocError>
        requires { NamesAgree self.old.rows rows.items }
        ensures ok { OnOk result (self.new ≡ taken (end_in ends.now) rows.items self.old) }
        ensures err { OnErr result (self.new ≡ self.old) }
    {
        make_room(self.alloc, &mut self.slots, &mut self.names, &rows)?;
        trim_tails(&mut self.intake, ends, self.slots.len());
        take_rows(&mut self.slots, rows);
        Ok(())
    }

    /// The take of a flush with which the store's history has the length `len`: as [`take`](Self::take), and `upto` is
    /// no less than that length from then on.
    pub fn take_flush(
        &mut self,
        len: u64,
        ends: &[u64],
        rows: Vec<Registered>,
    ) -> Result<(), AllocError>
        requires { NamesAgree self.old.rows rows.items }
        ensures ok { OnOk result (self.new
            ≡ record (taken (end_in ends.now) rows.items self.old) { upto = max self.old.upto len }) }
        ensures err { OnErr result (self.new ≡ self.old) }
    {
        self.take(ends, rows)?;
        self.upto = self.upto.max(len);
        Ok(())
    }
}
