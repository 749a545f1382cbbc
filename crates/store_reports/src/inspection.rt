// One line for each listed file.
ghost use Rattle.std.specs.Prelude.{◌≡◌, ◌≤◌, ◌⊎◌, ◌-◌, ℕ, Bool, List, None, Option, [], ◌∷◌, ◌++◌, slice_get, IfOk};
ghost use Rattle.std.specs.Prelude.{IsTrue};
ghost use Rattle.edge_io.specs.Stream.{Rose, AppendsFront};
ghost use Rattle.disk_model.specs.Files.{Files};
ghost use Rattle.pv_catalog.specs.declared.row.Row.{Row as RowValue};
ghost use Rattle.pins.specs.Choosing.{listed};
ghost use Rattle.pins.specs.declared.choosing.Listed.{Listed};
ghost use Rattle.tier_store.specs.Stores.{Stores};
ghost use Rattle.tier_store.specs.Seen.{seen};
ghost use Rattle.tier_store.specs.Change.{Has, IsListedIn};
ghost use Rattle.tier_store.specs.Pinning.{entries_of};
ghost use Rattle.store_reports.specs.declared.inspection.CheckErr.TheVariants.{SinkFault};
ghost use Rattle.store_reports.specs.Check.{Checks, InspectsSome, IsFound};
ghost use Rattle.store_reports.specs.Listing.{files_at, files_listed};
ghost use Rattle.store_reports.specs.Telling.{AreTold, EndsAs, Leaves, Remains, Shows, Tells, err_of_disk, err_of_put};

use crate::report::{Damage, Finding, Report};
use disk_model::{Disk, DiskErr, ReadAt};
use edge_io::{PutErr, Sink, SinkBuffer};
use pb_file::{Verdict, check_file};
use std::alloc::Global;
use store_manifest::Entry;
use tier_store::TierStore;

/// Why a check ended before all files were told. `R` is an opened file.
#[derive(Drop)]
pub enum CheckErr<R: ReadAt> {
    /// A write failed, which the sink has counted.
    SinkFault,
    /// The disk failed, which it has counted.
    DiskFault,
    /// A read of this file failed, which it has counted.
    ReadFault { file: R },
    /// Memory ran out.
    OutOfMemory,
}

impl<R: ReadAt> From<DiskErr> for CheckErr<R> {
    ghost from_gives = { λ d e. e ≡ err_of_disk d };

    fn from(err: DiskErr) -> Self {
        match err {
            DiskErr::Fault => CheckErr::DiskFault,
            DiskErr::Memory => CheckErr::OutOfMemory,
        }
    }
}

impl<R: ReadAt> From<PutErr> for CheckErr<R> {
    ghost from_gives = { λ p e. e ≡ err_of_put p };

    fn from(err: PutErr) -> Self {
        match err {
            PutErr::SinkFault => CheckErr::SinkFault,
            PutErr::Memory => CheckErr::OutOfMemory,
        }
    }
}

/// Reads every listed file up to its listed length, and writes one line for each: those of store 1, of store 2 and of
/// store 3, each in the order of rows and time. The line is `STORE PATH ok COUNT`, or `STORE PATH damaged AT` with the
/// place of the first line that fails, which is the listed length where the file has no sample. It goes on past
/// damage, and answers the first damaged file, or `None` where all are good. It stops at its first fault. It needs
/// that no change stands in doubt.
pub fn check<D: Disk, K: Sink>(
    alloc: Global,
    store: &mut TierStore<D>,
    sink: &mut K,
) -> Result<Option<Damage>, CheckErr<D::Reader>>
    requires { (held : Stores) × Has D.tells (seen D.Disk store.old) held }
    ensures checks { Checks D.tells store.old.catalogue.rows (D.files store.old.disk)
        (files_listed store.old.manifests.items) (K.written sink.old) (K.written sink.new) result }

    // Where what is held stands, no file is damaged.
    ensures stands { (held : Stores) → Has D.tells (seen D.Disk store.old) held → IsTrue held.stands → IsTrue D.tells
        → IfOk result (λ damage. damage ≡ None) }
    ensures leaves { Leaves D.Disk store.old store.new D.Reader.faults
        (K.write_faults sink.old) (K.write_faults sink.new) result }
{
    let mut report = Report::new(alloc);
    let told = check_stores(alloc, store, &mut report, sink);
    ended(told, report, sink)
}

// Checks the files of all stores, one store after another.
fn check_stores<D: Disk, K: Sink>(
    alloc: Global,
    store: &mut TierStore<D>,
    report: &mut Report,
    sink: &mut K,
) -> Result<(), CheckErr<D::Reader>>
    requires { (held : Stores) × Has D.tells (seen D.Disk store.old) held }
    ensures told { (rows : List RowValue) (files : Files) → Shows D.tells (seen D.Disk store.old) rows files
        → (a : Option (List ℕ))
        → AreTold D.tells rows files [] a (K.written sink.old) report.old.buffer report.old.first
        → Tells D.tells rows files (files_listed store.old.manifests.items) a
        (K.written sink.new) report.new.buffer report.new.first result }
    ensures leaves { Leaves D.Disk store.old store.new D.Reader.faults
        (K.write_faults sink.old) (K.write_faults sink.new) result }
{
    check_rows(alloc, store, 1, report, sink)?;
    check_rows(alloc, store, 2, report, sink)?;
    check_rows(alloc, store, 3, report, sink)
}

// Checks the files that a store lists, one row after another.
fn check_rows<D: Disk, K: Sink>(
    alloc: Global,
    store: &mut TierStore<D>,
    number: u8,
    report: &mut Report,
    sink: &mut K,
) -> Result<(), CheckErr<D::Reader>>
    requires first { 1 ≤ number }
    requires last { number ≤ 3 }
    requires has { (held : Stores) × Has D.tells (seen D.Disk store.old) held }
    ensures told { (rows : List RowValue) (files : Files) → Shows D.tells (seen D.Disk store.old) rows files
        → (before : List Listed) (a : Option (List ℕ))
        → AreTold D.tells rows files before a (K.written sink.old) report.old.buffer report.old.first
        → Tells D.tells rows files (before ++ files_at number store.old.manifests.items) a
        (K.written sink.new) report.new.buffer report.new.first result }
    ensures leaves { Leaves D.Disk store.old store.new D.Reader.faults
        (K.write_faults sink.old) (K.write_faults sink.new) result }
{
    let rows = store.catalogue().rows().len() as u32;
    for row in 0..rows {
        check_row(alloc, store, number, row, report, sink)?;
    }
    Ok(())
}

// Checks the files that a store lists of a row, one after another.
fn check_row<D: Disk, K: Sink>(
    alloc: Global,
    store: &mut TierStore<D>,
    number: u8,
    row: u32,
    report: &mut Report,
    sink: &mut K,
) -> Result<(), CheckErr<D::Reader>>
    requires first { 1 ≤ number }
    requires last { number ≤ 3 }
    requires has { (held : Stores) × Has D.tells (seen D.Disk store.old) held }
    ensures told { (rows : List RowValue) (files : Files) → Shows D.tells (seen D.Disk store.old) rows files
        → (before : List Listed) (a : Option (List ℕ))
        → AreTold D.tells rows files before a (K.written sink.old) report.old.buffer report.old.first
        → Tells D.tells rows files
        (before ++ listed number (entries_of row (slice_get store.old.manifests.items (number - 1)))) a
        (K.written sink.new) report.new.buffer report.new.first result }
    ensures leaves { Leaves D.Disk store.old store.new D.Reader.faults
        (K.write_faults sink.old) (K.write_faults sink.new) result }
{
    let count = store.manifest(number).entries(row).len();
    for at in 0..count {
        let entries = store.manifest(number).entries(row);
        let entry = entries[at];
        check_entry(alloc, store, number, &entry, report, sink)?;
    }
    Ok(())
}

// Checks the file of an entry that a store lists, and tells it.
fn check_entry<D: Disk, K: Sink>(
    alloc: Global,
    store: &mut TierStore<D>,
    number: u8,
    entry: &Entry,
    report: &mut Report,
    sink: &mut K,
) -> Result<(), CheckErr<D::Reader>>
    requires listed { IsListedIn store.old.manifests.items number entry.now }
    requires has { (held : Stores) × Has D.tells (seen D.Disk store.old) held }
    ensures told { (rows : List RowValue) (files : Files) → Shows D.tells (seen D.Disk store.old) rows files
        → (before : List Listed) (a : Option (List ℕ))
        → AreTold D.tells rows files before a (K.written sink.old) report.old.buffer report.old.first
        → Tells D.tells rows files (before ++ record { store = number; entry = entry.now } ∷ []) a
        (K.written sink.new) report.new.buffer report.new.first result }
    ensures leaves { Leaves D.Disk store.old store.new D.Reader.faults
        (K.write_faults sink.old) (K.write_faults sink.new) result }
{
    let finding = find(alloc, store, number, entry)?;
    report.tell(
        alloc,
        number,
        store.catalogue().rows(),
        entry,
        finding,
        sink,
    )?;
    Ok(())
}

// Reads the file of an entry that a store lists up to its listed length.
fn find<D: Disk>(
    alloc: Global,
    store: &mut TierStore<D>,
    number: u8,
    entry: &Entry,
) -> Result<Finding, CheckErr<D::Reader>>
    requires listed { IsListedIn store.old.manifests.items number entry.now }
    requires has { (held : Stores) × Has D.tells (seen D.Disk store.old) held }
    ensures found { IfOk result (λ finding. IsFound D.tells store.old.catalogue.rows (D.files store.old.disk)
        (record { file = record { store = number; entry = entry.now }; finding = finding })) }
    ensures leaves { (writes : ℕ) → Leaves D.Disk store.old store.new D.Reader.faults writes writes result }
{
    let mut reader = store.open_listed(number, entry)?;
    match check_file(alloc, &mut reader, &entry.part, entry.len) {
        Verdict::Good { count, .. } => Ok(Finding::Good { count }),
        Verdict::Damaged { at } => Ok(Finding::Damaged { at }),
        Verdict::ReadFault => Err(CheckErr::ReadFault { file: reader }),
        Verdict::Memory => Err(CheckErr::OutOfMemory),
    }
}

// What a check came to, once what is gathered is written.
fn ended<R: ReadAt, K: Sink>(
    told: Result<(), CheckErr<R>>,
    mut report: Report,
    sink: &mut K,
) -> Result<Option<Damage>, CheckErr<R>>
    ensures checks { (tells : Bool) (rows : List RowValue) (files : Files) (listed : List Listed) (a : Option (List ℕ))
        → Tells tells rows files listed a (K.written sink.old) report.buffer report.first told
        → Checks tells rows files listed a (K.written sink.new) result }
    ensures faults { K.write_faults sink.old ≤ K.write_faults sink.new }
    ensures cause { EndsAs (K.write_faults sink.old) (K.write_faults sink.new) told result }
{
    match told {
        Ok(()) => match report.buffer.finish(sink) {
            Ok(()) => Ok(report.first),
            Err(_) => Err(CheckErr::SinkFault),
        },
        Err(err) => Err(stopped(err, &mut report.buffer, sink)),
    }
}

// What a check that stopped is told as, once what is gathered is written. After a failed write nothing more is.
fn stopped<R: ReadAt, K: Sink>(
    err: CheckErr<R>,
    buffer: &mut SinkBuffer,
    sink: &mut K,
) -> CheckErr<R>
    ensures went { (tells : Bool) (rows : List RowValue) (files : Files) (listed : List Listed) (a : Option (List ℕ))
        → InspectsSome tells rows files listed (Remains err a (K.written sink.old) buffer.old)
        → InspectsSome tells rows files listed (AppendsFront a (K.written sink.new)) }
    ensures faults { K.write_faults sink.old ≤ K.write_faults sink.new }
    ensures cause { (result ≡ err) ⊎ ((result ≡ SinkFault) × Rose (K.write_faults sink.old) (K.write_faults sink.new)) }
{
    if let CheckErr::SinkFault = err {
        return err;
    }
    match buffer.finish(sink) {
        Ok(()) => err,
        Err(_) => CheckErr::SinkFault,
    }
}
