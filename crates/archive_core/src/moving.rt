//! Moves: one begins, of a row's oldest files in store 1 or 2.
ghost use Rattle.std.specs.Prelude.{◌≡◌, ◌≤◌, ◌-◌, ℕ, IfOk, IfErr, OnErr, OnOk, slice_index};
ghost use Rattle.disk_model.specs.declared.disk.DiskErr.TheVariants.{Memory};
ghost use Rattle.tier_store.specs.Opening.{answer_of};
ghost use Rattle.tier_store.specs.Seen.{seen, IsSettled};
ghost use Rattle.act_model.specs.Machine.{Machine};
ghost use Rattle.act_model.specs.Reply.{reply_of};
ghost use Rattle.act_model.specs.Step.{store_of};
ghost use Rattle.act_model.specs.declared.acts.Act.TheVariants.{MoveBegin as MoveBeginAct};
ghost use Rattle.archive_core.specs.Acting.{Acted};
ghost use Rattle.archive_core.specs.Moving.{BeginsThere};
ghost use Rattle.archive_core.specs.Parts.{InMemory, parts, parts_beside};
ghost use Rattle.archive_core.specs.Stands.{Stands, Rests};
ghost use Rattle.archive_core.specs.Strays.{Tidies};

use crate::Archive;
use crate::answering::answered;
use crate::archive::StoreHalf;
use act_model::Answer;
use disk_model::{Disk, DiskErr};
use etl_rules::Config;
use moves::{MoveRule, Running};
use tier_store::StoreMove;

// When partitions of store 1 or 2 move on, at a moment.
fn rule_at(config: &Config, store: u8, now: u64) -> MoveRule
    requires first { 1 ≤ store }
    requires last { store ≤ 2 }
    ensures { result ≡ record {
      hold = slice_index config.now.hold (store - 1);
      gather = slice_index config.now.gather (store - 1);
      at = now;
    } }
{
    MoveRule {
        hold: config.hold(store),
        gather: config.gather(store),
        at: now,
    }
}

impl<D: Disk> StoreHalf<D> {
    // Begins the move that is to be made, where nothing stands in doubt and so many doors are open. It makes no call of
    // the disk.
    fn begin_chosen(
        &mut self,
        store: u8,
        now: u64,
        doors: u64,
    ) -> Result<Answer<D::Reader>, DiskErr>
        requires first { 1 ≤ store }
        requires last { store ≤ 2 }
        requires rests { (w : InMemory) × (m : Machine) × Rests D.tells (parts_beside D.Disk self.old w) m }
        ensures begins { IfOk result (λ begun. (w : InMemory) → w.doors ≡ doors → (m : Machine)
            → Rests D.tells (parts_beside D.Disk self.old w) m → BeginsThere D.tells (store_of store) now m
            (reply_of D.Reader.tells D.Reader.bytes D.Reader.faults begun) (parts_beside D.Disk self.new w)) }
        ensures spent { OnErr result ((w : InMemory) (m : Machine)
            → Rests D.tells (parts_beside D.Disk self.old w) m → Stands D.tells (parts_beside D.Disk self.new w) m) }
        ensures memory { IfErr result (λ e. e ≡ Memory) }
        ensures store { self.new.store ≡ self.old.store }
        ensures tidy { OnOk result ((w : InMemory)
            → Tidies D.tells (parts_beside D.Disk self.old w) (parts_beside D.Disk self.new w)) }
    {
        let running = self.moves.by_series()?;
        let rule = rule_at(&self.config, store, now);
        let begun = self
            .store
            .begin_move(usize::from(store) - 1, &rule, &running)?;
        match begun {
            StoreMove::Begun { row, parts, moving } => {
                let m = self.moves.begin(Running {
                    series: row,
                    store,
                    moving,
                })?;
                Ok(Answer::Begun { m, row, parts })
            }
            StoreMove::Running { number } => Ok(Answer::Busy { m: number }),
            StoreMove::Nothing => Ok(Answer::Nothing { doors }),
        }
    }
}

impl<D: Disk> Archive<D> {
    fn begin_due(&mut self, store: u8, now: u64) -> Result<Answer<D::Reader>, DiskErr>
        requires first { 1 ≤ store }
        requires last { store ≤ 2 }
        requires stands { (m : Machine) × Stands D.tells (parts D.Disk self.old) m }
        ensures acted { (who : ℕ) → Acted D.tells who (MoveBeginAct store now) (parts D.Disk self.old)
            (reply_of D.Reader.tells D.Reader.bytes D.Reader.faults (answer_of result)) (parts D.Disk self.new) }
        ensures quiet { IsSettled (seen D.Disk self.old.half.store)
            → self.new.half.store.disk ≡ self.old.half.store.disk }
    {
        self.settle()?;
        self.half.begin_chosen(store, now, self.doors)
    }

    /// Begins the move that is to be made from store 1 or 2 to the next, at a moment in nanoseconds since 1970: of the
    /// least row that has one to make and none running. It gets the least free number, and tells the row and how many
    /// of its oldest partitions move. Where each row that has a move to make has one running, that of the least such
    /// row is told. Nothing is copied yet.
    ///
    /// A change that stands in doubt is settled first, for which the disk is read. `DiskFault` comes only where the
    /// disk's count of faults rose in the call.
    pub fn begin_move(&mut self, store: u8, now: u64) -> Answer<D::Reader>
        requires first { 1 ≤ store }
        requires last { store ≤ 2 }
        requires stands { (m : Machine) × Stands D.tells (parts D.Disk self.old) m }
        ensures acted { (who : ℕ) → Acted D.tells who (MoveBeginAct store now) (parts D.Disk self.old)
            (reply_of D.Reader.tells D.Reader.bytes D.Reader.faults result) (parts D.Disk self.new) }
        ensures quiet { IsSettled (seen D.Disk self.old.half.store)
            → self.new.half.store.disk ≡ self.old.half.store.disk }
    {
        answered(self.begin_due(store, now))
    }
}
