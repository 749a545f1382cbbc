// The files that a row takes of a store, which are listed in one commit.
ghost use Rattle.std.specs.Prelude.{◌≡◌, ◌≤◌, ◌<◌, ◌*◌, [], ℕ, All, IfOk, IsErrOf, IsTrue, List, OnErr, OnOk, Some};
ghost use Rattle.std.specs.Prelude.{false, length, map, slice_get, take, true};
ghost use Rattle.disk_model.specs.Files.{Files, Rose};
ghost use Rattle.disk_model.specs.Past.{Only};
ghost use Rattle.etl_mover.specs.Move.{set_entry};
ghost use Rattle.found_files.specs.Reading.{OnlyReads};
ghost use Rattle.partition_names.specs.declared.granularity.Granularity.{Granularity};
ghost use Rattle.partition_names.specs.Part.{IsPart};
ghost use Rattle.store_manifest.specs.Manifest.{ManifestState};
ghost use Rattle.tier_store.specs.Change.{Has};
ghost use Rattle.tier_store.specs.Seen.{granularities};
ghost use Rattle.tier_store.specs.Stores.{Stores};
ghost use Rattle.store_reopen.specs.Adoption.{TakesTurns, entry_as};
ghost use Rattle.store_reopen.specs.Listing.{AllHaveParts, AllMayList, AllUnopened, AreFew, AreTurns, AreUnopened};
ghost use Rattle.store_reopen.specs.Listing.{ListsTaken, MayList, most_files, turns_of};
ghost use Rattle.store_reopen.specs.Reopen.{ChangesJournals, IsReady, SameStores, loaded};
ghost use Rattle.store_reopen.specs.Runs.{Goes, Stops};
ghost use Rattle.store_reopen.specs.declared.finding.TakenFile.{TakenFile as TakenValue};
ghost use Rattle.store_reopen.specs.declared.finding.Unlisted.{Unlisted as UnlistedValue};

use crate::finding::TakenFile;
use crate::stepping::add_files;
use disk_model::{Disk, DiskErr};
use found_files::Candidate;
use pv_catalog::Catalogue;
use std::alloc::{AllocError, Global};
use store_manifest::{Change, Entry, Manifest};

// So many changes are within the greatest batch of a journal. All years have fewer quarters of an hour, and no store
// has partitions of five minutes.
const MOST_FILES: usize = 18_600_000;

// Lists what each turn takes, one turn after another: turn k is of row k / 3, and of store 3, then 2, then 1.
pub(crate) fn list_all<D: Disk>(
    alloc: Global,
    disk: &mut D,
    catalogue: &Catalogue,
    manifests: &mut Vec<Manifest>,
    turns: &[Vec<TakenFile>],
) -> Result<(), DiskErr>
    requires count { length turns.now ≡ 3 * length catalogue.now.rows }
    requires ready { (gs : List Granularity) × (length gs ≡ 3) × IsReady gs catalogue.now manifests.old.items }
    requires parts { AllHaveParts (granularities manifests.old.items) (turns_of turns.now) }
    requires has { IsTrue D.tells
        → (held : Stores) × Has D.tells (loaded D.Disk catalogue.now manifests.old.items disk.old) held }
    requires may { IsTrue D.tells
        → AllMayList (granularities manifests.old.items) (D.files disk.old) catalogue.now.rows (turns_of turns.now) }
    requires unopened { IsTrue D.tells → AllUnopened (D.opened disk.old) (turns_of turns.now) }
    requires few { IsTrue D.tells → AreFew (turns_of turns.now) }
    ensures goes { IsTrue D.tells → (image : Files) (held : Stores) (unlisted : List UnlistedValue)
        → SameStores image (D.files disk.old)
        → AreTurns held catalogue.now.rows unlisted (turns_of turns.now)
        → OnOk result (Goes D.Disk
        (λ whole. TakesTurns image held catalogue.now.rows unlisted whole 0 (length turns.now)) (λ whole steps.
        steps ≡ []) catalogue.now manifests.old.items disk.old catalogue.now manifests.new.items disk.new) }
    ensures stops { IsTrue D.tells → (image : Files) (held : Stores) (unlisted : List UnlistedValue)
        → SameStores image (D.files disk.old)
        → AreTurns held catalogue.now.rows unlisted (turns_of turns.now)
        → OnErr result
        (Stops D.Disk (λ whole. TakesTurns image held catalogue.now.rows unlisted whole 0 (length turns.now))
        catalogue.now manifests.old.items disk.old catalogue.now manifests.new.items disk.new) }
    ensures ready { (gs : List Granularity) → IsReady gs catalogue.now manifests.old.items
        → OnOk result (IsReady gs catalogue.now manifests.new.items) }
    ensures spares { IsTrue D.tells → ChangesJournals D.Disk disk.old disk.new }
    ensures faults { D.faults disk.old ≤ D.faults disk.new }
    ensures cause { IsErrOf result DiskErr.Fault → Rose (D.faults disk.old) (D.faults disk.new) }
{
    for (turn, taken) in turns.iter().enumerate() {
        let place = 2 - turn % 3;
        let series = (turn / 3) as u32;
        list_taken(
            alloc,
            disk,
            catalogue,
            manifests,
            place,
            series,
            taken.as_slice(),
        )?;
    }
    Ok(())
}

// Lists these files of a row at a place, where nothing stands in doubt. What stands there unsynced might go in a crash
// once it is listed, so each is synced before. Where there are none, nothing is done.
pub(crate) fn list_taken<D: Disk>(
    alloc: Global,
    disk: &mut D,
    catalogue: &Catalogue,
    manifests: &mut Vec<Manifest>,
    place: usize,
    series: u32,
    taken: &[TakenFile],
) -> Result<(), DiskErr>
    requires place { place < 3 }
    requires series { series < length catalogue.now.rows }
    requires ready { (gs : List Granularity) × (length gs ≡ 3) × IsReady gs catalogue.now manifests.old.items }
    requires parts { (m : ManifestState) → slice_get manifests.old.items place ≡ Some m
        → All (λ (x : TakenValue). IsPart m.granularity x.candidate.part) taken.now }
    requires has { IsTrue D.tells
        → (held : Stores) × Has D.tells (loaded D.Disk catalogue.now manifests.old.items disk.old) held }
    requires may { IsTrue D.tells → (m : ManifestState) → slice_get manifests.old.items place ≡ Some m
        → All (MayList m.granularity (D.files disk.old) catalogue.now.rows series place) taken.now }
    requires unopened { IsTrue D.tells → AreUnopened (D.opened disk.old) taken.now }
    requires few { IsTrue D.tells → length taken.now ≤ most_files }
    ensures lists { IsTrue D.tells → OnOk result (ListsTaken D.Disk true catalogue.now place series taken.now
        manifests.old.items disk.old manifests.new.items disk.new) }
    ensures stops { IsTrue D.tells → OnErr result (ListsTaken D.Disk false catalogue.now place series taken.now
        manifests.old.items disk.old manifests.new.items disk.new) }
    ensures ready { (gs : List Granularity) → IsReady gs catalogue.now manifests.old.items
        → OnOk result (IsReady gs catalogue.now manifests.new.items) }
    ensures spares { IsTrue D.tells → ChangesJournals D.Disk disk.old disk.new }
    ensures faults { D.faults disk.old ≤ D.faults disk.new }
    ensures cause { IsErrOf result DiskErr.Fault → Rose (D.faults disk.old) (D.faults disk.new) }
{
    if taken.is_empty() {
        return Ok(());
    }
    sync_taken(disk, taken)?;
    let changes = changes_of(alloc, series, batch_of(taken))?;
    add_files(disk, catalogue, manifests, place, &changes)
}

// As many of these files as one batch may list: all, where the disk tells its files. One that doesn't may
// name a file more than once.
fn batch_of(taken: &[TakenFile]) -> &[TakenFile]
    ensures few { length result.now ≤ most_files }
    ensures front { (n : ℕ) × (result.now ≡ take n taken.now) }
    ensures all { length taken.now ≤ most_files → result.now ≡ taken.now }
{
    &taken[..taken.len().min(MOST_FILES)]
}

// Syncs each of these files. The disk's files stay.
fn sync_taken<D: Disk>(disk: &mut D, taken: &[TakenFile]) -> Result<(), DiskErr>
    ensures durable { IsTrue D.tells
        → OnOk result (All (λ (x : TakenValue). Only (D.past disk.new) x.file (D.files disk.old x.file)) taken.now) }
    ensures read { OnlyReads D.Disk disk.old disk.new }
    ensures cause { IsErrOf result DiskErr.Fault → Rose (D.faults disk.old) (D.faults disk.new) }
{
    for one in taken {
        disk.sync(&one.file)?;
    }
    Ok(())
}

// The changes that list these files of a row.
fn changes_of(alloc: Global, series: u32, taken: &[TakenFile]) -> Result<Vec<Change>, AllocError>
    ensures { IfOk result (λ v. v.items ≡ map (λ (x : TakenValue). set_entry (entry_as series x.candidate)) taken.now) }
{
    taken
        .iter()
        .map(|one| Change::Set(entry_of(series, &one.candidate)))
        .collect(alloc)
}

// The entry by which a row lists a candidate.
fn entry_of(series: u32, candidate: &Candidate) -> Entry
    ensures { result ≡ entry_as series candidate.now }
{
    let front = &candidate.front;
    Entry {
        series,
        part: candidate.part,
        len: front.len,
        head_len: front.head_len,
        first: front.first,
        last: front.last,
        count: front.count,
    }
}
