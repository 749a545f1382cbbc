// One line for each row.
ghost use Rattle.std.specs.Prelude.{◌≡◌, ◌⊎◌, ◌≤◌, ◌<◌, ℕ, List, [], Option, Err, OnOk, IsErrOf, IsTrue, length};
ghost use Rattle.edge_io.specs.Stream.{Rose, AppendsFront};
ghost use Rattle.tier_store.specs.Stores.{Stores};
ghost use Rattle.tier_store.specs.Seen.{seen};
ghost use Rattle.tier_store.specs.Change.{Has};
ghost use Rattle.store_reports.specs.Keeping.{KeepsStores};
ghost use Rattle.store_reports.specs.Status.{EndsAs, Gathers, IsLine, Lines, Reports, Writes, end_of_status, row_line};
ghost use Rattle.store_reports.specs.Status.{state_name, status_of_disk, status_of_put, status_text};
ghost use Rattle.store_reports.specs.declared.summary.StatusErr.TheVariants.{SinkFault, OutOfMemory};

use disk_model::{Disk, DiskErr};
use edge_io::{PutErr, Sink, SinkBuffer};
use itoa::Buffer;
use pb_messages::State;
use pv_catalog::Row;
use std::alloc::{AllocError, Global};
use tier_store::TierStore;

/// Why a status ended before all rows were told.
#[derive(Clone, Copy, Debug, PartialEq, Eq)]
pub enum StatusErr {
    /// A write failed, which the sink has counted.
    SinkFault,
    /// The disk failed, which it has counted.
    DiskFault,
    /// Memory ran out, or no `u64` has the number of a row's samples.
    OutOfMemory,
}

impl From<DiskErr> for StatusErr {
    ghost from_gives = { λ d e. e ≡ status_of_disk d };

    fn from(err: DiskErr) -> Self {
        match err {
            DiskErr::Fault => StatusErr::DiskFault,
            DiskErr::Memory => StatusErr::OutOfMemory,
        }
    }
}

impl From<PutErr> for StatusErr {
    ghost from_gives = { λ p e. e ≡ status_of_put p };

    fn from(err: PutErr) -> Self {
        match err {
            PutErr::SinkFault => StatusErr::SinkFault,
            PutErr::Memory => StatusErr::OutOfMemory,
        }
    }
}

impl From<AllocError> for StatusErr {
    ghost from_gives = { λ _ e. e ≡ OutOfMemory };

    fn from(_: AllocError) -> Self {
        StatusErr::OutOfMemory
    }
}

/// Writes one line for each row, in the order of registration: `NAME TYPE STATE samples COUNT files F1 F2 F3`.
/// COUNT is how many samples the three stores hold of the variable under all its names up to the row's, one that
/// two of them list counted once; F1 to F3 are the numbers of the row's own files that they list. It needs that
/// no change stands in doubt.
///
/// A file is read only where samples that are read before it reach into it. So whatever somebody else has damaged,
/// COUNT is what the entries say where each file begins behind those of the rows of earlier names, of the later stores,
/// and of its own store before it.
///
/// It stops at its first fault. What was gathered goes out, and where that fails it is told.
pub fn status<D: Disk, K: Sink>(
    alloc: Global,
    store: &mut TierStore<D>,
    sink: &mut K,
) -> Result<(), StatusErr>
    requires { (held : Stores) × Has D.tells (seen D.Disk store.old) held }
    ensures reports { Reports D.tells (seen D.Disk store.old) (K.written sink.old) (K.written sink.new) result }

    // Where what is held stands, the text is the one of what is held.
    ensures held { (held : Stores) → Has D.tells (seen D.Disk store.old) held → IsTrue held.stands → IsTrue D.tells
        → Writes (K.written sink.old) (K.written sink.new) result (status_text held) }
    ensures stores { KeepsStores D.Disk store.old store.new (end_of_status result) }
    ensures faults { K.write_faults sink.old ≤ K.write_faults sink.new }
    ensures cause { IsErrOf result StatusErr.SinkFault → Rose (K.write_faults sink.old) (K.write_faults sink.new) }
{
    let mut buffer = SinkBuffer::new(alloc);
    let told = write_rows(alloc, store, &mut buffer, sink);
    ended(told, buffer, sink)
}

// Gathers the lines of the rows, and writes them where they are many.
fn write_rows<D: Disk, K: Sink>(
    alloc: Global,
    store: &mut TierStore<D>,
    buffer: &mut SinkBuffer,
    sink: &mut K,
) -> Result<(), StatusErr>
    requires { (held : Stores) × Has D.tells (seen D.Disk store.old) held }
    ensures told { buffer.old ≡ [] → Lines D.tells (seen D.Disk store.old) result
        (Gathers (K.written sink.old) (K.written sink.new) buffer.new result) }
    ensures stores { KeepsStores D.Disk store.old store.new (end_of_status result) }
    ensures faults { K.write_faults sink.old ≤ K.write_faults sink.new }
    ensures cause { IsErrOf result StatusErr.SinkFault → Rose (K.write_faults sink.old) (K.write_faults sink.new) }
{
    let mut line = Vec::new(alloc);
    let rows = store.catalogue().rows().len() as u32;
    for row in 0..rows {
        fill_row(store, row, &mut line)?;
        buffer.put(&line, sink)?;
    }
    Ok(())
}

// Makes the line that of a row, in the memory that it has.
fn fill_row<D: Disk>(
    store: &mut TierStore<D>,
    row: u32,
    line: &mut Vec<u8>,
) -> Result<(), StatusErr>
    requires row { row < length store.old.catalogue.rows }
    requires has { (held : Stores) × Has D.tells (seen D.Disk store.old) held }
    ensures line { OnOk result (IsLine D.tells (seen D.Disk store.old) row line.new.items) }
    ensures stores { KeepsStores D.Disk store.old store.new (end_of_status result) }
    ensures never { IsErrOf result StatusErr.SinkFault → ⊥ }
{
    let tally = store.tally(row)?;
    let short = store.manifest(1).entries(row);
    let medium = store.manifest(2).entries(row);
    let long = store.manifest(3).entries(row);
    let found = &store.catalogue().rows()[row as usize];
    fill_line(
        line,
        found,
        tally.count,
        short.len(),
        medium.len(),
        long.len(),
    )?;
    Ok(())
}

// Makes the line that of a row of which so many samples are held, in so many files of each store.
fn fill_line(
    line: &mut Vec<u8>,
    row: &Row,
    samples: u64,
    short: usize,
    medium: usize,
    long: usize,
) -> Result<(), AllocError>
    ensures { OnOk result (line.new.items ≡ row_line row.now samples short medium long) }
{
    let mut digits = Buffer::new();
    line.clear();
    line.extend_from_slice(row.name.bytes())?;
    line.extend_from_slice(b" ")?;
    line.extend_from_slice(row.about.ty.name().as_bytes())?;
    line.extend_from_slice(b" ")?;
    line.extend_from_slice(name_of(row.state).as_bytes())?;
    line.extend_from_slice(b" samples ")?;
    line.extend_from_slice(digits.format(samples).as_bytes())?;
    line.extend_from_slice(b" files ")?;
    line.extend_from_slice(digits.format(short).as_bytes())?;
    line.extend_from_slice(b" ")?;
    line.extend_from_slice(digits.format(medium).as_bytes())?;
    line.extend_from_slice(b" ")?;
    line.extend_from_slice(digits.format(long).as_bytes())?;
    line.extend_from_slice(b"\n")?;
    Ok(())
}

fn name_of(state: State) -> &'static str
    ensures { result.now ≡ state_name state }
{
    match state {
        State::Running => "running",
        State::Paused => "paused",
        State::Retired => "retired",
    }
}

// What a status came to, once what is gathered is written.
fn ended<K: Sink>(
    told: Result<(), StatusErr>,
    mut buffer: SinkBuffer,
    sink: &mut K,
) -> Result<(), StatusErr>
    ensures writes { (a : Option (List ℕ)) (text : List ℕ) → Gathers a (K.written sink.old) buffer told text
        → Writes a (K.written sink.new) result text }
    ensures ends { EndsAs (K.write_faults sink.old) (K.write_faults sink.new) told result }
    ensures faults { K.write_faults sink.old ≤ K.write_faults sink.new }
{
    match told {
        Ok(()) => match buffer.finish(sink) {
            Ok(()) => Ok(()),
            Err(_) => Err(StatusErr::SinkFault),
        },
        Err(err) => Err(stopped(err, &mut buffer, sink)),
    }
}

// What a status that stopped is told as, once what is gathered is written. After a failed write nothing more is.
fn stopped<K: Sink>(err: StatusErr, buffer: &mut SinkBuffer, sink: &mut K) -> StatusErr
    ensures went { (a : Option (List ℕ)) (text : List ℕ) → Gathers a (K.written sink.old) buffer.old (Err err) text
        → AppendsFront a (K.written sink.new) text }
    ensures faults { K.write_faults sink.old ≤ K.write_faults sink.new }
    ensures cause { (result ≡ err) ⊎ ((result ≡ SinkFault) × Rose (K.write_faults sink.old) (K.write_faults sink.new)) }
{
    if let StatusErr::SinkFault = err {
        return err;
    }
    match buffer.finish(sink) {
        Ok(()) => err,
        Err(_) => StatusErr::SinkFault,
    }
}
