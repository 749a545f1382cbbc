// Samples that are tried: whether one is accepted, and where it goes then.
ghost use Rattle.std.specs.Prelude.{◌≡◌, ◌⊎◌, true, false, ◌≤◌, ◌<◌, ◌+◌, ◌++◌, ◌∷◌, [], ℕ, length, Some, None, IfSome};
ghost use Rattle.std.specs.Prelude.{IsSome, OnOk, OnErr};
ghost use Rattle.intake.specs.Tails.{tail_at, held_bytes, KeepsTails, SetsTail};
ghost use Rattle.series_model.specs.Limits.{intake_room};
ghost use Rattle.series_model.specs.Admission.{refused_by_row, refused_by_time};
ghost use Rattle.intake.specs.Row.{SampledRow};
ghost use Rattle.act_model.specs.declared.answers.Ticked.TheVariants.{TickNone, NotDue};
ghost use Rattle.act_model.specs.Rows.{is_running, number_of};
ghost use Rattle.series_model.specs.declared.sample.Sample.{Sample as SampleValue};
ghost use Rattle.intake_half.specs.Trying.{IsTried, IsOffered, IsTickedDue, moved_on};

use crate::memory::RowMemory;
use act_model::{Offered, Ticked};
use intake::Intake;
use pb_messages::{PayloadType, State};
use series_model::limits::INTAKE_ROOM;
use series_model::{Reason, Sample, Standing, refused_by_row, refused_by_time};

/// Why a sample isn't accepted.
#[derive(Drop)]
pub enum NotKept {
    /// For this reason.
    Dropped(Reason),
    /// The intake holds so many bytes.
    IntakeFull { held: u64 },
    /// Memory ran out.
    Memory,
}

/// Whether samples of a row in this state are tried.
pub fn runs(state: State) -> bool
    ensures { result ≡ is_running state }
{
    matches!(state, State::Running)
}

/// The first of the first three reasons to drop a sample of the type `ty` that is offered to a row in this state, of
/// the type `own`, whose next sample is at `next` at the earliest.
pub fn reason_by_row(state: State, own: PayloadType, next: u64, ty: PayloadType) -> Option<Reason>
    ensures { result ≡ refused_by_row
        (Some (record { is_running = is_running state; ty = number_of own; next = next })) (number_of ty) }
{
    let standing = Standing {
        is_running: runs(state),
        ty: own.number(),
        next,
    };
    refused_by_row(Some(standing), ty.number())
}

// Whether a sample of the row would be accepted. Where it would, there is memory for it.
fn examine(
    intake: &mut Intake,
    row: u32,
    next: u64,
    sample: &Sample,
    now: u64,
) -> Result<(), NotKept>
    ensures tried { IsTried next (held_bytes intake.old) sample.now.t (length sample.now.line) now result }
    ensures spare { OnOk result (1 ≤ (tail_at intake.new row).spare) }
    ensures tails { KeepsTails intake.old intake.new }
    ensures held { held_bytes intake.new ≡ held_bytes intake.old }
{
    if let Some(reason) = refused_by_time(next, sample.t, now) {
        return Err(NotKept::Dropped(reason));
    }
    let held = intake.held();
    if sample.line.bytes().len() as u64 >= INTAKE_ROOM - held {
        return Err(NotKept::IntakeFull { held });
    }
    match intake.reserve(row, 1) {
        Ok(()) => Ok(()),
        Err(_) => Err(NotKept::Memory),
    }
}

// Accepts a sample for which there is room and memory.
fn keep(intake: &mut Intake, memory: &mut RowMemory, row: u32, sample: Sample)
    requires time { sample.t < u64.MAX }
    requires room { held_bytes intake.old + (length sample.line + 1) ≤ intake_room }
    requires spare { 1 ≤ (tail_at intake.old row).spare }
    ensures tail { SetsTail row ((tail_at intake.old row).samples ++ sample ∷ []) intake.old intake.new }
    ensures memory { memory.new ≡ record memory.old { next = sample.t + 1 } }
{
    memory.next = sample.t + 1;
    let _ = intake.offer(row, sample);
}

// Tries a sample of the row, and accepts it where nothing speaks against it.
fn try_sample(
    intake: &mut Intake,
    memory: &mut RowMemory,
    row: u32,
    sample: Sample,
    now: u64,
) -> Result<(), NotKept>
    requires time { sample.t < u64.MAX }
    ensures tried { IsTried memory.old.next (held_bytes intake.old) sample.t (length sample.line) now result }
    ensures kept { OnOk result (SetsTail row ((tail_at intake.old row).samples ++ sample ∷ []) intake.old intake.new
        × (memory.new ≡ record memory.old { next = sample.t + 1 })) }
    ensures refused { OnErr result (KeepsTails intake.old intake.new × (memory.new ≡ memory.old)) }
{
    examine(intake, row, memory.next, &sample, now)?;
    keep(intake, memory, row, sample);
    Ok(())
}

/// Takes an offer to a row to which none of the first three reasons applies: a sampled row holds the sample, another
/// one tries it.
pub fn offer_row(
    intake: &mut Intake,
    memory: &mut RowMemory,
    row: u32,
    sample: Sample,
    now: u64,
) -> Offered
    requires time { sample.t < u64.MAX }
    ensures { IsOffered intake.old memory.old row sample now result intake.new memory.new }
{
    if let Some(scan) = &mut memory.scan {
        scan.offer(sample);
        return Offered::Held;
    }
    match try_sample(intake, memory, row, sample, now) {
        Ok(()) => Offered::Kept,
        Err(NotKept::Dropped(reason)) => Offered::Dropped(reason),
        Err(NotKept::IntakeFull { held }) => Offered::IntakeFull { held },
        Err(NotKept::Memory) => Offered::Memory,
    }
}

// Whether what a sampled row holds would be accepted, if it holds anything. Where it would, there is memory for it.
fn examine_held(
    intake: &mut Intake,
    memory: &RowMemory,
    row: u32,
    now: u64,
) -> Option<Result<(), NotKept>>
    ensures none { result ≡ None → (sampled : SampledRow) → memory.now.scan ≡ Some sampled → sampled.cell.held ≡ None }
    ensures tried { IfSome result (λ r. (sampled : SampledRow) → memory.now.scan ≡ Some sampled
        → (s : SampleValue) × (sampled.cell.held ≡ Some s)
        × IsTried memory.now.next (held_bytes intake.old) s.t (length s.line) now r) }
    ensures spare { IfSome result (λ r. OnOk r (1 ≤ (tail_at intake.new row).spare)) }
    ensures tails { KeepsTails intake.old intake.new }
    ensures held { held_bytes intake.new ≡ held_bytes intake.old }
{
    let sample = memory.scan.as_ref()?.held()?;
    Some(examine(intake, row, memory.next, sample, now))
}

// Gives up what a sampled row holds, at a tick that is due.
fn move_on(memory: &mut RowMemory, now: u64) -> Option<Sample>
    requires due { (sampled : SampledRow) → memory.old.scan ≡ Some sampled → sampled.cell.due ≤ now }
    ensures held { (sampled : SampledRow) → memory.old.scan ≡ Some sampled
        → (result ≡ sampled.cell.held) × (memory.new ≡ moved_on memory.old sampled now) }
{
    match &mut memory.scan {
        Some(scan) => scan.tick(now),
        None => None,
    }
}

// Tries what a sampled row holds, at a tick that is due.
fn try_held(intake: &mut Intake, memory: &mut RowMemory, row: u32, now: u64) -> Ticked
    requires sampled { IsSome memory.old.scan }
    requires due { (sampled : SampledRow) → memory.old.scan ≡ Some sampled → sampled.cell.due ≤ now }
    requires time { (sampled : SampledRow) (s : SampleValue) → memory.old.scan ≡ Some sampled
        → sampled.cell.held ≡ Some s → s.t < u64.MAX }
    ensures { (sampled : SampledRow) → memory.old.scan ≡ Some sampled
        → IsTickedDue intake.old memory.old sampled row now result intake.new memory.new }
{
    match examine_held(intake, memory, row, now) {
        None => {
            move_on(memory, now);
            Ticked::TickNone
        }
        Some(Err(NotKept::Dropped(reason))) => {
            move_on(memory, now);
            Ticked::Dropped(reason)
        }
        Some(Err(NotKept::IntakeFull { held })) => Ticked::IntakeFull { held },
        Some(Err(NotKept::Memory)) => Ticked::Memory,
        Some(Ok(())) => match move_on(memory, now) {
            Some(sample) => {
                let t = sample.t;
                keep(intake, memory, row, sample);
                Ticked::TickKept { t }
            }
            None => Ticked::TickNone,
        },
    }
}

/// A tick of a row: where it is sampled, running and due, what it holds is tried.
pub fn tick_row(
    intake: &mut Intake,
    memory: &mut RowMemory,
    row: u32,
    is_running: bool,
    now: u64,
) -> Ticked
    requires time { (sampled : SampledRow) (s : SampleValue) → memory.old.scan ≡ Some sampled
        → sampled.cell.held ≡ Some s → s.t < u64.MAX }
    ensures none { (memory.old.scan ≡ None) ⊎ (is_running ≡ false)
        → (result ≡ TickNone) × (intake.new ≡ intake.old) × (memory.new ≡ memory.old) }
    ensures early { (sampled : SampledRow) → memory.old.scan ≡ Some sampled → is_running ≡ true → now < sampled.cell.due
        → (result ≡ NotDue sampled.cell.due) × (intake.new ≡ intake.old) × (memory.new ≡ memory.old) }
    ensures due { (sampled : SampledRow) → memory.old.scan ≡ Some sampled → is_running ≡ true → sampled.cell.due ≤ now
        → IsTickedDue intake.old memory.old sampled row now result intake.new memory.new }
{
    if !is_running {
        return Ticked::TickNone;
    }
    let Some(scan) = &memory.scan else {
        return Ticked::TickNone;
    };
    let due = scan.due();
    if now < due {
        return Ticked::NotDue { due };
    }
    try_held(intake, memory, row, now)
}
