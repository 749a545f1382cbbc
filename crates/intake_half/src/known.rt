// What is kept of a row that the intake knows, and an offer to it and a tick of it.
ghost use Rattle.std.specs.Prelude.{◌≡◌, ◌<◌, Some, None};
ghost use Rattle.act_model.specs.declared.answers.Offered.TheVariants.{Dropped};
ghost use Rattle.act_model.specs.declared.answers.Ticked.TheVariants.{NoRow};
ghost use Rattle.intake.specs.Row.{SampledRow};
ghost use Rattle.series_model.specs.declared.admission.Reason.TheVariants.{Unknown};
ghost use Rattle.series_model.specs.declared.sample.Sample.{Sample as SampleValue};
ghost use Rattle.intake_half.specs.Known.{OffersTo, TicksTo};
ghost use Rattle.intake_half.specs.Taking.{told_slot, taken_over};
ghost use Rattle.intake_half.specs.declared.known.KnownRow.{KnownRow as KnownValue};

use crate::memory::{RowMemory, clear, sampling};
use crate::told::Registered;
use crate::trying::{offer_row, reason_by_row, runs, tick_row};
use act_model::{Offered, Ticked};
use intake::Intake;
use pb_messages::{About, PayloadType, State};
use pv_name::PvName;
use series_model::{Reason, Sample};

/// A row that the intake knows.
#[derive(Drop)]
pub struct KnownRow {
    pub name: PvName,
    pub about: About,
    pub state: State,
    /// The row that the variable had under the name before, if it was renamed.
    pub base: Option<u32>,
    /// The change number that is known of it.
    pub changed: u64,
    pub memory: RowMemory,
}

impl KnownRow {
    // A row that is told, which takes samples from this moment on. Nothing of it is accepted or held.
    fn new(told: Registered, next: u64) -> KnownRow
        ensures { result ≡ told_slot told next None }
    {
        let Registered {
            row: _,
            name,
            about,
            state,
            base,
            changed,
        } = told;
        let scan = sampling(&about.method);
        KnownRow {
            name,
            about,
            state,
            base,
            changed,
            memory: RowMemory { next, scan },
        }
    }

    // Takes over a change that is later than the known one.
    fn take_over(&mut self, told: &Registered)
        ensures { self.new ≡ taken_over told.now self.old }
    {
        if self.changed < told.changed {
            self.changed = told.changed;
            self.state = told.state;
            clear(&mut self.memory);
        }
    }

    // Takes an offer to this row, which has this number.
    fn offer(
        &mut self,
        intake: &mut Intake,
        row: u32,
        ty: PayloadType,
        sample: Sample,
        now: u64,
    ) -> Offered
        requires { sample.t < u64.MAX }
        ensures { OffersTo intake.old self.old row ty sample now result intake.new self.new }
    {
        match reason_by_row(self.state, self.about.ty, self.memory.next, ty) {
            Some(reason) => Offered::Dropped(reason),
            None => offer_row(intake, &mut self.memory, row, sample, now),
        }
    }

    // Takes a tick of this row, which has this number.
    fn tick(&mut self, intake: &mut Intake, row: u32, now: u64) -> Ticked
        requires { (sampled : SampledRow) (s : SampleValue) → self.old.memory.scan ≡ Some sampled
            → sampled.cell.held ≡ Some s → s.t < u64.MAX }
        ensures { TicksTo intake.old self.old row now result intake.new self.new }
    {
        tick_row(intake, &mut self.memory, row, runs(self.state), now)
    }
}

// Offers a sample to the row in the slot of this number.
pub(crate) fn offer_to(
    intake: &mut Intake,
    slot: &mut Option<KnownRow>,
    row: u32,
    ty: PayloadType,
    sample: Sample,
    now: u64,
) -> Offered
    requires { sample.t < u64.MAX }
    ensures none { slot.old ≡ None → (result ≡ Dropped Unknown) × (intake.new ≡ intake.old) × (slot.new ≡ None) }
    ensures some { (known : KnownValue) → slot.old ≡ Some known → (kept : KnownValue) × (slot.new ≡ Some kept)
        × OffersTo intake.old known row ty sample now result intake.new kept }
{
    match slot {
        Some(known) => known.offer(intake, row, ty, sample, now),
        None => Offered::Dropped(Reason::Unknown),
    }
}

// Ticks the row in the slot of this number.
pub(crate) fn tick_in(
    intake: &mut Intake,
    slot: &mut Option<KnownRow>,
    row: u32,
    now: u64,
) -> Ticked
    requires { (known : KnownValue) (sampled : SampledRow) (s : SampleValue) → slot.old ≡ Some known
        → known.memory.scan ≡ Some sampled → sampled.cell.held ≡ Some s → s.t < u64.MAX }
    ensures none { slot.old ≡ None → (result ≡ NoRow) × (intake.new ≡ intake.old) × (slot.new ≡ None) }
    ensures some { (known : KnownValue) → slot.old ≡ Some known → (kept : KnownValue) × (slot.new ≡ Some kept)
        × TicksTo intake.old known row now result intake.new kept }
{
    match slot {
        Some(known) => known.tick(intake, row, now),
        None => Ticked::NoRow,
    }
}

// Takes over what is told of the row in this slot. A row that isn't known yet comes there, and takes samples from
// this moment on.
pub(crate) fn take_in(slot: &mut Option<KnownRow>, told: Registered, next: u64)
    ensures { slot.new ≡ Some (told_slot told next slot.old) }
{
    match slot {
        Some(known) => known.take_over(&told),
        None => *slot = Some(KnownRow::new(told, next)),
    }
}
