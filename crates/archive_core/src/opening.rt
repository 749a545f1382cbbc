// An archive is opened on stores, and gives them back.
ghost use Rattle.std.specs.FinMap as map;
ghost use Rattle.std.specs.Prelude.{◌≡◌, ◌≤◌, ◌+◌, ◌==◌, ◌^◌, ◌-◌, [], ℕ, length, filter, min, IfOk, IfErr};
ghost use Rattle.pv_catalog.specs.Rows.{AreRows};
ghost use Rattle.tier_store.specs.Change.{Has};
ghost use Rattle.tier_store.specs.Beginning.{AllNested};
ghost use Rattle.tier_store.specs.Seen.{seen, granularities};
ghost use Rattle.tier_store.specs.Stores.{Stores};
ghost use Rattle.archive_core.specs.Opening.{listed_end, end_at, next_in, memory_of, memories, OpensAs};
ghost use Rattle.archive_core.specs.Parts.{parts};

use crate::Archive;
use crate::archive::StoreHalf;
use disk_model::Disk;
use intake::Intake;
use intake_half::{RowMemory, sampling};
use moves::RunningMoves;
use pv_catalog::Row;
use std::alloc::{AllocError, Global};
use store_manifest::Entry;
use tier_store::TierStore;

// The first moment later than all that a row's entries in a store list, 0 where they list nothing.
fn end_of(entries: &[Entry]) -> u64
    ensures { result ≡ min (listed_end entries.now) (2 ^ 64 - 1) }
{
    match entries.last() {
        Some(entry) => entry.last.saturating_add(1),
        None => 0,
    }
}

// That of the store of this number.
pub(crate) fn end_in<D: Disk>(store: &TierStore<D>, number: u8, row: u32) -> u64
    requires first { 1 ≤ number }
    requires last { number ≤ length store.now.manifests.items }
    ensures { (place : ℕ) → number ≡ place + 1 → result ≡ end_at store.now.manifests.items place row }
{
    end_of(store.manifest(number).entries(row))
}

// From which moment on the base of a row takes samples, 0 where it has none.
fn next_of_base(before: &[RowMemory], base: Option<u32>) -> u64
    ensures { result ≡ next_in before.now base }
{
    match base {
        Some(i) => before.get(i as usize).map_or(0, |memory| memory.next),
        None => 0,
    }
}

fn open_row<D: Disk>(store: &TierStore<D>, before: &[RowMemory], row: &Row) -> RowMemory
    requires three { length store.now.manifests.items ≡ 3 }
    ensures { result ≡ memory_of store.now.manifests.items before.now row.now }
{
    let short = end_in(store, 1, row.id);
    let medium = end_in(store, 2, row.id);
    let long = end_in(store, 3, row.id);
    RowMemory {
        next: long
            .max(medium)
            .max(short)
            .max(next_of_base(before, row.base)),
        scan: sampling(&row.about.method),
    }
}

// What is kept of each row, as it is opened.
fn open_rows<D: Disk>(alloc: Global, store: &TierStore<D>) -> Result<Vec<RowMemory>, AllocError>
    requires three { length store.now.manifests.items ≡ 3 }
    ensures rows { IfOk result (λ rows. rows.items ≡ memories store.now.manifests.items [] store.now.catalogue.rows) }
    ensures are { AreRows store.now.catalogue.rows }
{
    let mut kept = Vec::new(alloc);
    for row in store.catalogue().rows() {
        kept.push(open_row(store, &kept, row))?;
    }
    Ok(kept)
}

impl<D: Disk> Archive<D> {
    /// The archive of stores that no change stands in doubt of and that have no pin and no file in limbo,
    /// with so many doors. All that is durable is accepted, and nothing else. Moves are due by the settings
    /// that the stores have then.
    ///
    /// `Err` comes for want of memory alone, and gives the stores back.
    pub fn of(alloc: Global, store: TierStore<D>, doors: u32) -> Result<Archive<D>, TierStore<D>>
        requires nested { AllNested (granularities store.manifests.items) }
        requires settled { (held : Stores) × Has D.tells (seen D.Disk store) held }
        requires limbo { store.limbo.items ≡ [] }
        requires pins { store.pinned ≡ map.empty }
        ensures opened { IfOk result (λ archive.
            OpensAs D.tells (seen D.Disk store) store.config doors (parts D.Disk archive)) }
        ensures store { IfOk result (λ archive. archive.half.store ≡ store) }
        ensures intake { IfOk result (λ archive. archive.intake ≡ []) }
        ensures back { IfErr result (λ given. given ≡ store) }
    {
        let config = store.config();
        match open_rows(alloc, &store) {
            Ok(rows) => Ok(Archive {
                alloc,
                half: StoreHalf {
                    alloc,
                    store,
                    doubt: None,
                    config,
                    moves: RunningMoves::new(alloc),
                },
                intake: Intake::new(alloc),
                rows,
                doors: u64::from(doors),
            }),
            Err(_) => Err(store),
        }
    }

    /// The stores, given back. What the intake holds is given up. It takes no memory.
    pub fn into_store(self) -> TierStore<D>
        ensures { result ≡ self.half.store }
    {
        let half = self.half;
        half.store
    }
}
