// Flushing: what is accepted becomes durable, and the intake gives it up.
ghost use Rattle.std.specs.Prelude.{◌≡◌, ◌≤◌, ◌<◌, ◌∷◌, ◌↔◌, [], ℕ, List, length, true, IfOk, IfSome, IsTrue};
ghost use Rattle.intake.specs.Tails.{tail_at, batch_of};
ghost use Rattle.series_model.specs.Series.{end_of, since};
ghost use Rattle.series_model.specs.declared.batch.RowSamples.{RowSamples};
ghost use Rattle.act_model.specs.Changes.{of_row};
ghost use Rattle.act_model.specs.Flush.{count_in};
ghost use Rattle.act_model.specs.Machine.{Machine, Appends};
ghost use Rattle.act_model.specs.Reply.{reply_of};
ghost use Rattle.act_model.specs.declared.acts.Act.TheVariants.{Flush as FlushAct};
ghost use Rattle.archive_core.specs.Acting.{Acted, Changed};
ghost use Rattle.archive_core.specs.Flushing.{GivesUp, ListsEnds, IsTrimmed, flush_reply};
ghost use Rattle.archive_core.specs.Memory.{row_end, row_ends};
ghost use Rattle.archive_core.specs.Opening.{end_at};
ghost use Rattle.archive_core.specs.Parts.{parts};
ghost use Rattle.archive_core.specs.Stands.{Stands, Rests};

use crate::Archive;
use crate::memory::{Doubt, RowEnd};
use crate::opening::end_in;
use act_model::Answer;
use disk_model::{Disk, DiskErr};
use intake::Intake;
use series_model::LentSamples;
use std::alloc::{AllocError, Global};
use tier_store::TierStore;

// The rows of a batch, with their last moments.
fn row_ends(alloc: Global, batch: &[LentSamples]) -> Result<Vec<RowEnd>, AllocError>
    ensures { IfOk result (λ ends. ends.items ≡ row_ends batch.now) }
{
    let mut ends = Vec::new(alloc);
    for part in batch {
        ends.push(row_end(part))?;
    }
    Ok(ends)
}

fn row_end(part: &LentSamples) -> RowEnd
    ensures { result ≡ row_end part.now }
{
    RowEnd {
        row: part.row,
        last: part.samples.last().map(|sample| sample.t),
    }
}

// Gives up what the intake holds of one row of a batch.
fn give_up_row(intake: &mut Intake, end: &RowEnd)
    ensures { (part : RowSamples) → row_end part ≡ end.now → (i : ℕ)
        → (tail_at intake.new i).samples ≡ since (end_of (of_row i (part ∷ []))) (tail_at intake.old i).samples }
{
    if let Some(last) = end.last {
        intake.trim(end.row, last);
    }
}

// Gives up what the intake holds of a batch with these ends.
fn give_up(intake: &mut Intake, ends: &[RowEnd])
    ensures { (batch : List RowSamples) → row_ends batch ≡ ends.now → GivesUp batch intake.old intake.new }
{
    for end in ends {
        give_up_row(intake, end);
    }
}

// Whether store 1 lists all of a row up to this end.
fn lists_row<D: Disk>(store: &TierStore<D>, end: &RowEnd) -> bool
    requires three { length store.now.manifests.items ≡ 3 }
    ensures { IsTrue result ↔ IfSome end.now.last (λ last. last < end_at store.now.manifests.items 0 end.now.row) }
{
    match end.last {
        Some(last) => last < end_in(store, 1, end.row),
        None => true,
    }
}

// Whether store 1 lists a batch with these ends, by the batch's first row.
fn lists_batch<D: Disk>(store: &TierStore<D>, ends: &[RowEnd]) -> bool
    requires three { length store.now.manifests.items ≡ 3 }
    ensures { IsTrue result ↔ ListsEnds store.now.manifests.items ends.now }
{
    match ends.first() {
        Some(end) => lists_row(store, end),
        None => true,
    }
}

// Takes in a doubted flush, where store 1 lists its batch.
pub(crate) fn trim_flushed<D: Disk>(
    store: &TierStore<D>,
    intake: &mut Intake,
    doubt: &Option<Doubt>,
)
    requires three { length store.now.manifests.items ≡ 3 }
    ensures { IsTrimmed store.now.manifests.items doubt.now intake.old intake.new }
{
    let Some(Doubt::Flush(ends)) = doubt else {
        return;
    };
    if lists_batch(store, ends) {
        give_up(intake, ends);
    }
}

impl<D: Disk> Archive<D> {
    // Flushes where nothing stands in doubt. What is kept of the batch is taken from it before, so that want of
    // memory leaves nothing done.
    fn flush_settled(&mut self, limit: u64) -> Result<u64, DiskErr>
        requires limit { 1 ≤ limit }
        requires rests { (m : Machine) × Rests D.tells (parts D.Disk self.old) m }
        ensures changed { Changed D.tells (Appends (batch_of limit self.old.intake))
            (parts D.Disk self.old) (parts D.Disk self.new) result }
        ensures count { IfOk result (λ samples. (m : Machine) → Rests D.tells (parts D.Disk self.old) m → m.told ≡ true
            → samples ≡ count_in (batch_of limit self.old.intake)) }
    {
        let batch = self.intake.lend(limit)?;
        let ends = row_ends(self.alloc, &batch)?;
        let flushed = self.half.store.flush_lent(&batch);
        drop(batch);
        match flushed {
            Ok(samples) => {
                give_up(&mut self.intake, &ends);
                Ok(samples)
            }
            Err(DiskErr::Fault) => {
                self.half.doubt = Some(Doubt::Flush(ends));
                Err(DiskErr::Fault)
            }
            Err(DiskErr::Memory) => Err(DiskErr::Memory),
        }
    }

    fn flush_tails(&mut self, limit: u64) -> Result<u64, DiskErr>
        requires limit { 1 ≤ limit }
        requires stands { (m : Machine) × Stands D.tells (parts D.Disk self.old) m }
        ensures { (who : ℕ) → Acted D.tells who (FlushAct limit) (parts D.Disk self.old)
            (flush_reply (parts D.Disk self.new) result) (parts D.Disk self.new) }
    {
        self.settle()?;
        self.flush_settled(limit)
    }

    /// Makes accepted samples durable: whole tails, in the order of rows, go to store 1 until they have `limit`
    /// bytes, and at least one where any is held; each line is counted with its newline. It answers how many
    /// samples these are, how many bytes the intake still holds, and how many doors are open. A change that stands
    /// in doubt is settled first.
    ///
    /// `DiskFault` comes only where the disk's count of faults rose in the call. The intake gives nothing up then:
    /// whether the samples are durable may stand in doubt, and the next act that settles it finds out.
    pub fn flush(&mut self, limit: u64) -> Answer<D::Reader>
        requires limit { 1 ≤ limit }
        requires stands { (m : Machine) × Stands D.tells (parts D.Disk self.old) m }
        ensures { (who : ℕ) → Acted D.tells who (FlushAct limit) (parts D.Disk self.old)
            (reply_of D.Reader.tells D.Reader.bytes D.Reader.faults result) (parts D.Disk self.new) }
    {
        match self.flush_tails(limit) {
            Ok(samples) => Answer::Flushed {
                samples,
                left: self.intake.held(),
                doors: self.doors,
            },
            Err(DiskErr::Fault) => Answer::DiskFault,
            Err(DiskErr::Memory) => Answer::Memory,
        }
    }
}
