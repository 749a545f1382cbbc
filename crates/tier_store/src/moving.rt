// The beginning of a move: the oldest files of a row are to go on to the next store.
ghost use Rattle.std.specs.Prelude.{◌≡◌, ◌≤◌, ◌<◌, length, IfOk, IfErr};
ghost use Rattle.std.specs.BTreeMap.{get};
ghost use Rattle.std.specs.Ordering.{nat_cmp};
ghost use Rattle.series_model.specs.Limits.{most_rows};
ghost use Rattle.disk_model.specs.declared.disk.DiskErr.TheVariants.{Memory};
ghost use Rattle.tier_store.specs.Beginning.{AreNested, IsBegun, SaysBegun};
ghost use Rattle.tier_store.specs.Stores.{Stores};
ghost use Rattle.tier_store.specs.Seen.{seen, granularities};
ghost use Rattle.tier_store.specs.Change.{Has};

use crate::TierStore;
use disk_model::{Disk, DiskErr};
use etl_mover::Move;
use moves::{MoveRule, ToMove, move_to_make};
use pv_catalog::Row;
use std::alloc::{AllocError, Global};
use std::collections::BTreeMap;
use store_manifest::Manifest;

/// How one is answered who asks for a move.
#[derive(Drop)]
pub enum StoreMove {
    /// This move begins, of so many of the oldest files of a row: the least row that has a move
    /// to make and none running.
    Begun { row: u32, parts: u64, moving: Move },
    /// Each row that has a move to make has one running; that of the least such row has this number.
    Running { number: u32 },
    /// No row has a move to make.
    Nothing,
}

// Begins the move that is to be made from one store to the next, of which these are the manifests.
fn begin_chosen(
    alloc: Global,
    rows: &[Row],
    source: &Manifest,
    destination: &Manifest,
    rule: &MoveRule,
    running: &BTreeMap<u32, u32>,
) -> Result<StoreMove, AllocError>
    requires { length rows.now ≤ most_rows }
    ensures { IfOk result (IsBegun rule.now (get nat_cmp running.now) rows.now source.now destination.now) }
{
    let count = rows.len() as u32;
    let choice = move_to_make(alloc, rule, source, destination, count, running)?;
    match choice {
        ToMove::Begin { series, parts } => {
            let row = &rows[series as usize];
            let moving = Move::begin(alloc, source, destination, series, &row.name, parts)?;
            Ok(StoreMove::Begun {
                row: series,
                parts: parts as u64,
                moving,
            })
        }
        ToMove::Running { number } => Ok(StoreMove::Running { number }),
        ToMove::Nothing => Ok(StoreMove::Nothing),
    }
}

impl<D: Disk> TierStore<D> {
    /// Begins the move that is to be made from the store at a place, which is its number less one, to the next: of
    /// the least row that has one to make and none running. `running` tells by its row the number of each move that
    /// runs. How many files of a row are to move is said by `rule`, which has the moment that counts as now, and by
    /// what both stores list of it.
    ///
    /// It needs that nothing stands in doubt, as after `review`, and calls no disk. Nothing is copied yet, and what is
    /// held stays. There is no error but want of memory.
    pub fn begin_move(
        &self,
        place: usize,
        rule: &MoveRule,
        running: &BTreeMap<u32, u32>,
    ) -> Result<StoreMove, DiskErr>
        requires within { place < 2 }
        requires nested { AreNested place (granularities self.now.manifests.items) }
        requires has { (held : Stores) × Has D.tells (seen D.Disk self.now) held }

        ensures says { (held : Stores) → Has D.tells (seen D.Disk self.now) held
            → IfOk result (λ b.
            SaysBegun D.tells place rule.now (get nat_cmp running.now) self.now.manifests.items b held) }
        ensures memory { IfErr result (λ e. e ≡ Memory) }
    {
        let store = place as u8 + 1;
        let source = self.manifest(store);
        let destination = self.manifest(store + 1);
        let rows = self.catalogue.rows();
        let begun = begin_chosen(self.alloc, rows, source, destination, rule, running)?;
        Ok(begun)
    }
}
