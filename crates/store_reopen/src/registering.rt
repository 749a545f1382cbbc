// The rows that variables get by their files.
ghost use Rattle.std.specs.Prelude.{◌≡◌, ◌≤◌, ◌↔◌, ◌∷◌, ◌++◌, [], ℕ, List, IfOk, IsErrOf, IsTrue, OnErr, OnOk, Some};
ghost use Rattle.std.specs.Prelude.{false, length, true};
ghost use Rattle.disk_model.specs.Files.{Rose};
ghost use Rattle.partition_names.specs.declared.granularity.Granularity.{Granularity as GranularityValue};
ghost use Rattle.pv_catalog.specs.Catalogue.{registered};
ghost use Rattle.pv_catalog.specs.declared.row.Row.{Row};
ghost use Rattle.pv_name.specs.Name.{IsName};
ghost use Rattle.store_manifest.specs.Manifest.{ManifestState};
ghost use Rattle.tier_store.specs.Change.{Has};
ghost use Rattle.tier_store.specs.Stores.{Stores};
ghost use Rattle.store_reopen.specs.Adoption.{GetRows, IsFree, IsShort, about_of, capped, headers_len};
ghost use Rattle.store_reopen.specs.Reopen.{ChangesJournals, IsReady, loaded};
ghost use Rattle.store_reopen.specs.Runs.{Goes, Stops};
ghost use Rattle.store_reopen.specs.Steps.{MakesSteps, NewRow};
ghost use Rattle.store_reopen.specs.declared.finding.Unlisted.{Unlisted as UnlistedValue};

use crate::finding::Unlisted;
use crate::stepping::add_row;
use disk_model::{Disk, DiskErr};
use found_files::Candidate;
use gate_journal::GREATEST_BATCH;
use pb_messages::{About, Method};
use pv_catalog::{Catalogue, RegisterErr};
use pv_name::PvName;
use series_model::Blob;
use std::alloc::{AllocError, Global};

// Registers each variable that may get a row, by its first file.
pub(crate) fn register_all<D: Disk>(
    alloc: Global,
    disk: &mut D,
    catalogue: &mut Catalogue,
    unlisted: &[Unlisted],
) -> Result<(), DiskErr>
    requires sound { IsTrue catalogue.old.journal.sound }
    requires has { IsTrue D.tells
        → (ms : List ManifestState) × (held : Stores) × Has D.tells (loaded D.Disk catalogue.old ms disk.old) held }
    ensures goes { IsTrue D.tells → (ms : List ManifestState)
        → ((held : Stores) × Has D.tells (loaded D.Disk catalogue.old ms disk.old) held)
        → OnOk result (Goes D.Disk (λ whole. GetRows whole catalogue.old.rows [] unlisted.now)
        (λ whole steps. steps ≡ []) catalogue.old ms disk.old catalogue.new ms disk.new) }
    ensures stops { IsTrue D.tells → (ms : List ManifestState)
        → ((held : Stores) × Has D.tells (loaded D.Disk catalogue.old ms disk.old) held)
        → OnErr result (Stops D.Disk (λ whole. GetRows whole catalogue.old.rows [] unlisted.now) catalogue.old ms
        disk.old catalogue.new ms disk.new) }
    ensures more { OnOk result (length catalogue.old.rows ≤ length catalogue.new.rows) }
    ensures ready { (gs : List GranularityValue) (ms : List ManifestState) → IsReady gs catalogue.old ms
        → OnOk result (IsReady gs catalogue.new ms) }
    ensures spares { IsTrue D.tells → ChangesJournals D.Disk disk.old disk.new }
    ensures faults { D.faults disk.old ≤ D.faults disk.new }
    ensures cause { IsErrOf result DiskErr.Fault → Rose (D.faults disk.old) (D.faults disk.new) }
{
    // The names whose first file would make too long an entry.
    let mut long = Vec::new(alloc);
    for file in unlisted {
        let Some(candidate) = &file.candidate else {
            continue;
        };
        register(disk, catalogue, &mut long, candidate)?;
    }
    Ok(())
}

// Registers a variable by a file, if it may get a row by this one.
fn register<D: Disk>(
    disk: &mut D,
    catalogue: &mut Catalogue,
    long: &mut Vec<PvName>,
    candidate: &Candidate,
) -> Result<(), DiskErr>
    requires sound { IsTrue catalogue.old.journal.sound }
    requires has { IsTrue D.tells
        → (ms : List ManifestState) × (held : Stores) × Has D.tells (loaded D.Disk catalogue.old ms disk.old) held }
    ensures goes { IsTrue D.tells → (ms : List ManifestState)
        → ((held : Stores) × Has D.tells (loaded D.Disk catalogue.old ms disk.old) held)
        → (x : UnlistedValue) (xs : List UnlistedValue) → x.candidate ≡ Some candidate.now
        → OnOk result (Goes D.Disk (λ whole. GetRows whole catalogue.old.rows long.old.items (x ∷ xs)) (λ whole.
        GetRows whole catalogue.new.rows long.new.items xs) catalogue.old ms disk.old catalogue.new ms disk.new) }
    ensures stops { IsTrue D.tells → (ms : List ManifestState)
        → ((held : Stores) × Has D.tells (loaded D.Disk catalogue.old ms disk.old) held)
        → (x : UnlistedValue) (xs : List UnlistedValue) → x.candidate ≡ Some candidate.now
        → OnErr result (Stops D.Disk (λ whole. GetRows whole catalogue.old.rows long.old.items (x ∷ xs)) catalogue.old
        ms disk.old catalogue.new ms disk.new) }
    ensures sound { OnOk result (IsTrue catalogue.new.journal.sound) }
    ensures more { OnOk result (length catalogue.old.rows ≤ length catalogue.new.rows) }
    ensures ready { (gs : List GranularityValue) (ms : List ManifestState) → IsReady gs catalogue.old ms
        → OnOk result (IsReady gs catalogue.new ms) }
    ensures spares { IsTrue D.tells → ChangesJournals D.Disk disk.old disk.new }
    ensures faults { D.faults disk.old ≤ D.faults disk.new }
    ensures cause { IsErrOf result DiskErr.Fault → Rose (D.faults disk.old) (D.faults disk.new) }
{
    let name = &candidate.name;
    if catalogue.refusal(name).is_some() {
        return Ok(());
    }
    if long.contains(name) {
        return Ok(());
    }
    if is_short(candidate) {
        return register_first(disk, catalogue, candidate);
    }
    long.push(name.clone()?)?;
    Ok(())
}

// Registers a variable that the rows don't refuse, by its first file.
fn register_first<D: Disk>(
    disk: &mut D,
    catalogue: &mut Catalogue,
    candidate: &Candidate,
) -> Result<(), DiskErr>
    requires sound { IsTrue catalogue.old.journal.sound }
    requires named { IsName candidate.now.name }
    requires free { IsFree catalogue.old.rows candidate.now }
    requires has { IsTrue D.tells
        → (ms : List ManifestState) × (held : Stores) × Has D.tells (loaded D.Disk catalogue.old ms disk.old) held }
    ensures rows { OnOk result (catalogue.new.rows
        ≡ catalogue.old.rows ++ registered catalogue.old.rows candidate.now.name (about_of candidate.now) ∷ []) }
    ensures makes { IsTrue D.tells → (ms : List ManifestState)
        → ((held : Stores) × Has D.tells (loaded D.Disk catalogue.old ms disk.old) held)
        → OnOk result (MakesSteps true D.tells (NewRow candidate.now.name (about_of candidate.now) ∷ [])
        (loaded D.Disk catalogue.old ms disk.old) (loaded D.Disk catalogue.new ms disk.new)) }
    ensures stops { IsTrue D.tells → (ms : List ManifestState)
        → ((held : Stores) × Has D.tells (loaded D.Disk catalogue.old ms disk.old) held)
        → OnErr result (MakesSteps false D.tells (NewRow candidate.now.name (about_of candidate.now) ∷ [])
        (loaded D.Disk catalogue.old ms disk.old) (loaded D.Disk catalogue.new ms disk.new)) }
    ensures sound { OnOk result (IsTrue catalogue.new.journal.sound) }
    ensures more { OnOk result (length catalogue.old.rows ≤ length catalogue.new.rows) }
    ensures ready { (gs : List GranularityValue) (ms : List ManifestState) → IsReady gs catalogue.old ms
        → OnOk result (IsReady gs catalogue.new ms) }
    ensures spares { IsTrue D.tells → ChangesJournals D.Disk disk.old disk.new }
    ensures faults { D.faults disk.old ≤ D.faults disk.new }
    ensures cause { IsErrOf result DiskErr.Fault → Rose (D.faults disk.old) (D.faults disk.new) }
{
    let about = describe(candidate)?;
    match add_row(disk, catalogue, &candidate.name, &about) {
        Ok(_) => Ok(()),
        Err(refusal) => match refusal {
            RegisterErr::Disk(e) => Err(e),
            _ => unreachable!(),
        },
    }
}

// What a file's header says of the variable, which is sampled as it changes.
fn describe(candidate: &Candidate) -> Result<About, AllocError>
    ensures { IfOk result (λ about. about ≡ about_of candidate.now) }
{
    let info = &candidate.front.info;
    Ok(About {
        ty: info.ty,
        method: Method::Monitor,
        count: info.count,
        headers: info.headers.clone()?,
    })
}

// Whether the entry of the variable's row isn't too long for the catalogue.
fn is_short(candidate: &Candidate) -> bool
    ensures short { (rows : List Row) → IsTrue result ↔ IsShort rows candidate.now }
    ensures name { IsName candidate.now.name }
{
    let name = candidate.name.bytes().len() as u64;
    let headers = headers_len(candidate.front.info.headers.items());
    name.saturating_add(headers).saturating_add(28) <= GREATEST_BATCH as u64
}

// How many bytes headers take in an entry.
fn headers_len(headers: &[(Blob, Blob)]) -> u64
    ensures { result ≡ capped (headers_len headers.now) }
{
    let mut len = 0_u64;
    for header in headers {
        len = len
            .saturating_add(8)
            .saturating_add(header.0.bytes().len() as u64)
            .saturating_add(header.1.bytes().len() as u64);
    }
    len
}
