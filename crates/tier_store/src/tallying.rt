// How many samples are held of a row, by what the stores list of it. Where a later store's samples reach into an
// earlier store's file, as while a move is half done, that file is read.
ghost use Rattle.std.specs.Prelude.{◌≡◌, ◌≤◌, ◌<◌, ◌+◌, ◌++◌, ◌∷◌, List, [], All, Some, length, map, max, IfOk};
ghost use Rattle.std.specs.Prelude.{IfSome, IsErrOf, IsTrue};
ghost use Rattle.std.specs.List.{flat_map};
ghost use Rattle.disk_model.specs.Files.{Rose};
ghost use Rattle.partition_names.specs.declared.granularity.Granularity.{Granularity};
ghost use Rattle.series_model.specs.Series.{since, over, IsRising};
ghost use Rattle.series_model.specs.declared.sample.Sample.{Sample as SampleValue};
ghost use Rattle.store_manifest.specs.declared.entry.Entry.{Entry as EntryValue};
ghost use Rattle.durable_write.specs.Held.{Filed, entry_of};
ghost use Rattle.tier_store.specs.Counting.{OnlyReadsDisk, behind};
ghost use Rattle.tier_store.specs.Details.{IsLong, IsTally, IsWhole};
ghost use Rattle.tier_store.specs.Tallying.{Adds, end_of_files};

use crate::counting::count_later;
use crate::finding::is_later;
use disk_model::{Disk, DiskErr};
use durable_write::file_name;
use pv_catalog::Row;
use series_model::Sample;
use std::alloc::Global;
use store_manifest::Entry;

/// How many samples there are, and the moments of the first and of the last, in nanoseconds since 1970-01-01T00:00:00Z.
#[derive(Clone, Copy, Debug, PartialEq, Eq)]
pub struct Tally {
    /// How many samples there are.
    pub count: u64,
    /// The moment of the first one, if there is one.
    pub first: Option<u64>,
    /// The moment of the last one, if there is one.
    pub last: Option<u64>,
}

// The tally of no samples.
pub(crate) fn none() -> Tally
    ensures { IsTally [] result }
{
    Tally {
        count: 0,
        first: None,
        last: None,
    }
}

// The later one of two moments, of which the first may be none.
fn later(before: Option<u64>, last: u64) -> Option<u64>
    ensures { behind result ≡ max (behind before) (last + 1) }
{
    match before {
        Some(t) => Some(t.max(last)),
        None => Some(last),
    }
}

// The moment of the last sample by these entries, but no earlier one than that given.
pub(crate) fn last_listed(before: Option<u64>, entries: &[Entry]) -> Option<u64>
    ensures { behind result ≡ end_of_files (behind before) entries.now }
{
    let mut last = before;
    for entry in entries {
        last = later(last, entry.last);
    }
    last
}

// How many samples of a listed file are later than a moment.
fn count_over<D: Disk>(
    alloc: Global,
    disk: &mut D,
    store: u8,
    rows: &[Row],
    entry: &Entry,
    last: Option<u64>,
) -> Result<u64, DiskErr>
    requires row { entry.now.series < length rows.now }
    requires there { IsTrue D.tells → IsLong (D.files disk.old) (store, rows.now) entry.now }
    ensures count { IsTrue D.tells → (g : Granularity) (f : Filed) → f.entry ≡ entry.now
        → IsWhole g (store, rows.now) (D.files disk.old) f
        → IfOk result (λ n. n ≡ length (since (behind last) f.samples)) }
    ensures listed { behind last ≤ entry.now.first → IfOk result (λ n. n ≡ entry.now.count) }
    ensures reads { OnlyReadsDisk D.Disk disk.old disk.new }
    ensures faults { D.faults disk.old ≤ D.faults disk.new }
    ensures cause { IsErrOf result DiskErr.Fault → Rose (D.faults disk.old) (D.faults disk.new) }
{
    let Some(last) = last else {
        return Ok(entry.count);
    };
    if last < entry.first {
        return Ok(entry.count);
    }
    if entry.last <= last {
        return Ok(0);
    }
    let name = file_name(alloc, store, rows, entry)?;
    count_later(alloc, disk, &name, entry, last)
}

// Adds the samples of a listed file that are later than those before it. Want of memory comes also where
// no `u64` has their number.
fn add_file<D: Disk>(
    alloc: Global,
    disk: &mut D,
    store: u8,
    rows: &[Row],
    entry: &Entry,
    tally: Tally,
) -> Result<Tally, DiskErr>
    requires row { entry.now.series < length rows.now }
    requires there { IsTrue D.tells → IsLong (D.files disk.old) (store, rows.now) entry.now }
    ensures tally { IsTrue D.tells → (g : Granularity) (f : Filed) (samples : List SampleValue) → f.entry ≡ entry.now
        → IsWhole g (store, rows.now) (D.files disk.old) f → IsTally samples tally
        → IfOk result (IsTally (over samples f.samples)) }
    ensures listed { behind tally.last ≤ entry.now.first
        → IfOk result (λ t. (t.count ≡ tally.count + entry.now.count)
        × (behind t.last ≡ max (behind tally.last) (entry.now.last + 1))) }
    ensures ends { IfOk result (λ t. behind t.last ≡ max (behind tally.last) (entry.now.last + 1)) }
    ensures reads { OnlyReadsDisk D.Disk disk.old disk.new }
    ensures faults { D.faults disk.old ≤ D.faults disk.new }
    ensures cause { IsErrOf result DiskErr.Fault → Rose (D.faults disk.old) (D.faults disk.new) }
{
    let more = count_over(alloc, disk, store, rows, entry, tally.last)?;
    let Some(count) = tally.count.checked_add(more) else {
        return Err(DiskErr::Memory);
    };
    let first = tally.first.unwrap_or(entry.first);
    Ok(Tally {
        count,
        first: Some(first),
        last: later(tally.last, entry.last),
    })
}

// Adds the samples of what a store lists of a row that are later than those before them.
pub(crate) fn add_files<D: Disk>(
    alloc: Global,
    disk: &mut D,
    store: u8,
    rows: &[Row],
    entries: &[Entry],
    tally: Tally,
) -> Result<Tally, DiskErr>
    requires rows { All (λ (e : EntryValue). e.series < length rows.now) entries.now }
    requires there { IsTrue D.tells → All (IsLong (D.files disk.old) (store, rows.now)) entries.now }
    ensures tally { IsTrue D.tells → (g : Granularity) (files : List Filed) (samples : List SampleValue)
        → entries.now ≡ map entry_of files
        → All (IsWhole g (store, rows.now) (D.files disk.old)) files
        → IsRising (flat_map (λ (f : Filed). f.samples) files) → IsTally samples tally
        → IfOk result (IsTally (over samples (flat_map (λ (f : Filed). f.samples) files))) }
    ensures listed { IfOk result (Adds tally entries.now) }
    ensures ends { IfOk result (λ t. behind t.last ≡ end_of_files (behind tally.last) entries.now) }
    ensures reads { OnlyReadsDisk D.Disk disk.old disk.new }
    ensures faults { D.faults disk.old ≤ D.faults disk.new }
    ensures cause { IsErrOf result DiskErr.Fault → Rose (D.faults disk.old) (D.faults disk.new) }
{
    let mut tally = tally;
    for entry in entries {
        tally = add_file(alloc, disk, store, rows, entry, tally)?;
    }
    Ok(tally)
}

// Adds the samples of a tail that are later than those before it. `None` where no `u64` has their number.
pub(crate) fn with_tail(durable: Tally, tail: &[Sample]) -> Option<Tally>
    ensures { (samples : List SampleValue) → IsTally samples durable → IfSome result (IsTally (over samples tail.now)) }
{
    let mut all = durable;
    for sample in tail {
        all = with_later(all, sample, durable.last)?;
    }
    Some(all)
}

// Adds a sample where it is later than a moment, which may be none.
fn with_later(all: Tally, sample: &Sample, last: Option<u64>) -> Option<Tally>
    ensures { (samples : List SampleValue) → IsTally samples all
        → IfSome result (IsTally (samples ++ since (behind last) (sample.now ∷ []))) }
{
    if !is_later(last, sample.t) {
        return Some(all);
    }
    let count = all.count.checked_add(1)?;
    let first = all.first.unwrap_or(sample.t);
    Some(Tally {
        count,
        first: Some(first),
        last: Some(sample.t),
    })
}
