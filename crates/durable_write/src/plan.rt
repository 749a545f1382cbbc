// The planning of a flush: which bytes go to which files. It stands apart from any disk.
//
// A manifest that somebody damaged may list lengths and counts of any numbers. Where a file's length or its count of
// samples wouldn't fit, a header's line had 4 GiB, or more files would be listed than one commit takes, the answer is
// want of memory; what the archiver wrote leads to none of these.
ghost use Rattle.std.specs.Prelude.{IsTrue, ◌≡◌, ◌≢◌, All, map, ◌≤◌, ◌<◌, ◌+◌, ◌++◌, [], ◌∷◌, Option, length, IfSome};
ghost use Rattle.std.specs.Prelude.{IfOk, OnOk, FitsSigned, if◌then◌else◌};
ghost use Rattle.std.specs.Int.{w32};
ghost use Rattle.std.specs.List.Sorted.{IsPermutation, IsNonDecreasingBy};
ghost use Rattle.series_model.specs.Series.{IsRising};
ghost use Rattle.arch_time.specs.YearTime.{IsSampleYear};
ghost use Rattle.line_escape.specs.Escaping.{escaped};
ghost use Rattle.pb_messages.specs.InfoSpelling.{info_text, FitsInfo};
ghost use Rattle.partition_names.specs.Part.{IsPart};
ghost use Rattle.store_manifest.specs.declared.entry.Entry.{Entry as EntryValue};
ghost use Rattle.durable_write.specs.Held.{Held};
ghost use Rattle.durable_write.specs.Flush.{IsSampleOf, IsOfRow, CanFlush, header_of, HoldsBoth, Flushes};
ghost use Rattle.durable_write.specs.Plan.{IsAppended, GoesTo, OfLast, IsLastWrite, side_of, IsBegun, IsPushed};
ghost use Rattle.durable_write.specs.Plan.{IsExtended, IsDraft, IsTarget, Adds, IsLastOf, later_of, last_with, PlansOn};
ghost use Rattle.durable_write.specs.Plan.{KeepsRows, most_writes};

use crate::file_write::FileWrite;
use arch_time::{END, START, split};
use partition_names::{Granularity, part_of};
use pb_lines::header_line;
use pb_messages::{About, PayloadInfo};
use pv_catalog::Row;
use series_model::{Blob, LentSamples, Sample};
use std::alloc::{AllocError, Global};
use store_manifest::{Entry, Manifest};

/// As many entries as one commit of a manifest may set: 49 bytes each in at most 1,073,741,824.
pub const MOST_WRITES: usize = 21_913_098;

/// The plan of a flush.
#[derive(Drop)]
pub struct Plan {
    /// What each file gets.
    pub writes: Vec<FileWrite>,
    /// How many samples more are listed with them.
    pub count: u64,
}

/// A row whose samples are planned.
#[derive(Clone, Copy)]
pub(crate) struct Target {
    /// The store's granularity.
    pub granularity: Granularity,
    /// The row's number.
    pub series: u32,
    /// The last of its files.
    pub listed: Option<Entry>,
}

/// Where a sample goes.
#[derive(Clone, Copy)]
pub(crate) enum Destination {
    /// Nowhere: it isn't later than the row's last.
    Late,
    /// Into the last write.
    Open,
    /// Behind the listed bytes of the row's last file.
    Listed(Entry),
    /// Into a file that is made anew.
    New,
}

/// Plans the flush of a batch: the writes that its samples make, each file's once, in the order of rows and time.
/// `limbo` has the entries of files that aren't listed but are on the disk still: where a row's last file is one of
/// them, its samples go on behind that.
pub fn plan_flush(
    alloc: Global,
    rows: &[Row],
    manifest: &Manifest,
    limbo: &[Entry],
    batch: &[LentSamples],
) -> Result<Plan, AllocError>
    requires can { CanFlush rows.now batch.now }
    requires listed { All (λ e. IsPart manifest.now.granularity e.part) manifest.now.entries }
    requires limbo { All (λ (e : EntryValue). IsPart manifest.now.granularity e.part) limbo.now }
    ensures flushes { IfOk result (λ plan. (held : Held)
        → HoldsBoth manifest.now.granularity rows.now manifest.now.entries limbo.now held
        → Flushes manifest.now.granularity held batch.now plan.writes.items plan.count) }
    ensures parts { IfOk result (λ plan. All (λ p. IsPart manifest.now.granularity p.entry.part) plan.writes.items) }
    ensures rows { IfOk result (λ plan. All (λ p. p.entry.series < length rows.now) plan.writes.items) }
    ensures few { IfOk result (λ plan. length plan.writes.items ≤ most_writes) }
{
    let order = by_row(alloc, batch)?;
    let mut writes = Vec::new(alloc);
    let mut count: u64 = 0;
    for part in &order {
        let more = add_part(alloc, rows, manifest, limbo, part, &mut writes)?;
        count += more;
    }
    Ok(Plan { writes, count })
}

// The lists of the batch by their rows; those of one row keep their order.
fn by_row<'a, 'b>(
    alloc: Global,
    parts: &'a [LentSamples<'b>],
) -> Result<Vec<&'a LentSamples<'b>>, AllocError>
    ensures same { IfOk result (λ order. KeepsRows parts.now (map (λ p. p.now) order.items)) }
    ensures moved { IfOk result (λ order. IsPermutation parts.now (map (λ p. p.now) order.items)) }
    ensures sorted { IfOk result (λ order. IsNonDecreasingBy (λ p. p.now.row) order.items) }
{
    let mut order = Vec::new(alloc);
    for part in parts {
        order.push(part)?;
    }
    order.sort_by_key(|part| part.row)?;
    Ok(order)
}

// Plans one list of the batch. Tells how many of its samples are later than those before them.
fn add_part(
    alloc: Global,
    rows: &[Row],
    manifest: &Manifest,
    limbo: &[Entry],
    part: &LentSamples,
    writes: &mut Vec<FileWrite>,
) -> Result<u64, AllocError>
    requires part { IsOfRow rows.now part.now }
    requires listed { All (λ e. IsPart manifest.now.granularity e.part) manifest.now.entries }
    requires limbo { All (λ (e : EntryValue). IsPart manifest.now.granularity e.part) limbo.now }
    requires draft { IsDraft manifest.now.granularity part.now.row writes.old.items }
    ensures draft { OnOk result (IsDraft manifest.now.granularity part.now.row writes.new.items) }
    ensures few { IfOk result (λ n. n ≤ length part.now.samples) }
    ensures added { IfOk result (λ n. PlansOn manifest.now.granularity rows.now manifest.now.entries limbo.now
        part.now n writes.old.items writes.new.items) }
{
    let listed = last_file(manifest, limbo, part.row);
    let target = Target {
        granularity: manifest.granularity(),
        series: part.row,
        listed,
    };
    let row = &rows[part.row as usize];
    let count = add_samples(alloc, &target, row, part.samples, writes)?;
    Ok(count)
}

// The last entry of a series, of those that are listed and those in limbo.
fn last_file(manifest: &Manifest, limbo: &[Entry], series: u32) -> Option<Entry>
    ensures { (last : Option EntryValue) × IsLastOf manifest.now.entries series last
        × (result ≡ last_with series last limbo.now) }
{
    let mut last = last_listed(manifest, series);
    for entry in limbo {
        last = later_of(series, last, entry);
    }
    last
}

// The later of a series' last entry and another entry, if that is of the series.
fn later_of(series: u32, last: Option<Entry>, other: &Entry) -> Option<Entry>
    ensures { result ≡ later_of series last other.now }
{
    if other.series != series {
        return last;
    }
    match last {
        Some(entry) if other.part.start < entry.part.start => Some(entry),
        _ => Some(*other),
    }
}

// The last listed entry of a series.
fn last_listed(manifest: &Manifest, series: u32) -> Option<Entry>
    ensures { IsLastOf manifest.now.entries series result }
{
    let entry = manifest.entries(series).last()?;
    Some(*entry)
}

// Plans the samples of a row that are later than its last. Tells how many.
fn add_samples(
    alloc: Global,
    target: &Target,
    row: &Row,
    samples: &[Sample],
    writes: &mut Vec<FileWrite>,
) -> Result<u64, AllocError>
    requires samples { All (IsSampleOf row.now) samples.now }
    requires rising { IsRising samples.now }
    requires draft { IsDraft target.now.granularity target.now.series writes.old.items }
    requires target { IsTarget target.now }
    ensures draft { OnOk result (IsDraft target.now.granularity target.now.series writes.new.items) }
    ensures added { IfOk result (λ n. Adds target.now row.now samples.now n writes.old.items writes.new.items) }
    ensures few { IfOk result (λ n. n ≤ length samples.now) }
{
    let mut count: u64 = 0;
    for sample in samples {
        if add_sample(alloc, target, row, sample, writes)? {
            count += 1;
        }
    }
    Ok(count)
}

// Plans a sample of the row, if it is later than the row's last. Says whether it is.
fn add_sample(
    alloc: Global,
    target: &Target,
    row: &Row,
    sample: &Sample,
    writes: &mut Vec<FileWrite>,
) -> Result<bool, AllocError>
    requires sample { IsSampleOf row.now sample.now }
    requires draft { IsDraft target.now.granularity target.now.series writes.old.items }
    requires target { IsTarget target.now }
    ensures draft { OnOk result (IsDraft target.now.granularity target.now.series writes.new.items) }
    ensures added { IfOk result (λ taken.
        Adds target.now row.now (sample.now ∷ []) (if taken then 1 else 0) writes.old.items writes.new.items) }
{
    match find_destination(target, sample.t, writes) {
        Destination::Late => return Ok(false),
        Destination::Open => extend_last(sample, writes)?,
        Destination::Listed(entry) => push(resume(alloc, entry), sample, writes)?,
        Destination::New => push(begin(alloc, target, row, sample.t)?, sample, writes)?,
    }
    Ok(true)
}

// Where the next sample of a row goes.
fn find_destination(target: &Target, t: u64, writes: &[FileWrite]) -> Destination
    requires draft { IsDraft target.now.granularity target.now.series writes.now }
    requires target { IsTarget target.now }
    ensures { GoesTo target.now writes.now t result }
{
    if let Some(write) = last_of_row(target.series, writes) {
        return side_of(&write.entry, t, Destination::Open);
    }
    match target.listed {
        Some(entry) => {
            let inside = Destination::Listed(entry);
            side_of(&entry, t, inside)
        }
        None => Destination::New,
    }
}

// The last write, if it is of the row.
fn last_of_row(series: u32, writes: &[FileWrite]) -> Option<&FileWrite>
    ensures some { IfSome result (λ p. IsLastWrite writes.now series p.now) }
    ensures none { result ≡ None → OfLast (λ p. p.entry.series ≢ series) writes.now }
{
    let write = writes.last()?;
    if write.entry.series == series {
        Some(write)
    } else {
        None
    }
}

// Where a moment lies by the row's last file.
fn side_of(last: &Entry, t: u64, inside: Destination) -> Destination
    ensures { result ≡ side_of last.now t inside }
{
    if t <= last.last {
        Destination::Late
    } else if t < last.part.end {
        inside
    } else {
        Destination::New
    }
}

// A write behind the listed bytes of a file, with no sample yet.
fn resume(alloc: Global, entry: Entry) -> FileWrite
    ensures entry { result.entry ≡ entry }
    ensures at { result.at ≡ Some entry.len }
    ensures bytes { result.bytes.items ≡ [] }
{
    let at = entry.len;
    FileWrite {
        entry,
        at: Some(at),
        bytes: Vec::new(alloc),
    }
}

// A write that makes the row's file of the partition of this moment, with its header and no sample yet.
fn begin(alloc: Global, target: &Target, row: &Row, t: u64) -> Result<FileWrite, AllocError>
    requires { (START ≤ t) × (t < END) }
    ensures { IfOk result (IsBegun target.now row.now t) }
{
    let Some(part) = part_of(target.granularity, t) else {
        unreachable!();
    };
    let Some(start) = split(part.start) else {
        unreachable!();
    };
    let bytes = header(alloc, row, start.year)?;
    let Ok(head_len) = u32::try_from(bytes.len()) else {
        return Err(AllocError);
    };
    Ok(FileWrite {
        entry: Entry {
            series: target.series,
            part,
            len: u64::from(head_len),
            head_len,
            first: t,
            last: t,
            count: 0,
        },
        at: None,
        bytes,
    })
}

/// The header's line of a row's file of this year, with its newline.
pub fn header(alloc: Global, row: &Row, year: i32) -> Result<Vec<u8>, AllocError>
    ensures bytes { IfOk result (λ line. line.items ≡ escaped (info_text (header_of row.now year)) ++ 10 ∷ []) }
    ensures count { IfOk result (λ line. IfSome row.now.about.count (FitsSigned w32)) }
{
    let info = PayloadInfo {
        ty: row.about.ty,
        name: Blob::from(row.name.bytes().to_vec(alloc)?),
        year,
        count: elements(&row.about),
        headers: row.about.headers.clone()?,
    };
    let mut line = Vec::new(alloc);
    header_line(&info, &mut line)?;
    Ok(line)
}

fn elements(about: &About) -> Option<i32>
    ensures value { result ≡ about.now.count }
    ensures fits { IfSome result (FitsSigned w32) }
{
    match about.count {
        Some(count) => Some(count),
        None => None,
    }
}

fn extend_last(sample: &Sample, writes: &mut Vec<FileWrite>) -> Result<(), AllocError>
    requires { 1 ≤ length writes.old.items }
    ensures { OnOk result (IsExtended sample.now writes.old.items writes.new.items) }
{
    let last = writes.len() - 1;
    append(&mut writes[last], sample)?;
    Ok(())
}

fn push(
    mut write: FileWrite,
    sample: &Sample,
    writes: &mut Vec<FileWrite>,
) -> Result<(), AllocError>
    ensures { OnOk result (IsPushed sample.now write writes.old.items writes.new.items) }
{
    if writes.len() >= MOST_WRITES {
        return Err(AllocError);
    }
    append(&mut write, sample)?;
    writes.push(write)?;
    Ok(())
}

// Appends the sample's line and its newline.
fn append(write: &mut FileWrite, sample: &Sample) -> Result<(), AllocError>
    ensures { OnOk result (IsAppended sample.now write.old write.new) }
{
    let more = sample.line.bytes().len() as u64 + 1;
    write.entry.len = write.entry.len.checked_add(more).ok_or(AllocError)?;
    write.entry.count = write.entry.count.checked_add(1).ok_or(AllocError)?;
    write.entry.last = sample.t;
    write.bytes.extend_from_slice(sample.line.bytes())?;
    write.bytes.push(b'\n')?;
    Ok(())
}
