// The loads of the journals, and where a bad batch stands.
ghost use Rattle.std.specs.Prelude.{◌≡◌, ◌≤◌, ◌<◌, ◌+◌, ℕ, List, length, take, true, IfOk, IfErr, OnOk, IsErrOf};
ghost use Rattle.std.specs.Prelude.{Err, IsTrue};
ghost use Rattle.disk_model.specs.Files.{Name, Files, Rose};
ghost use Rattle.disk_model.specs.declared.disk.DiskErr.TheVariants.{Fault};
ghost use Rattle.gate_journal.specs.Batches.{open_gates};
ghost use Rattle.gate_journal.specs.Generations.{IsOwn};
ghost use Rattle.gate_journal.specs.Kept.{Says};
ghost use Rattle.gate_journal.specs.Load.{LeavesLoaded};
ghost use Rattle.gate_journal.specs.DiskShown.{shown_by};
ghost use Rattle.partition_names.specs.declared.granularity.Granularity.{Granularity as GranularityValue};
ghost use Rattle.pv_catalog.specs.declared.row.Row.{Row};
ghost use Rattle.pv_catalog.specs.Catalogue.{CatalogueState, catalogue_name, IsStored};
ghost use Rattle.pv_catalog.specs.Rows.{IsCatalogue};
ghost use Rattle.store_manifest.specs.Manifest.{ManifestState, IsKept, manifest_name};
ghost use Rattle.store_reopen.specs.OneJournal.{NoneOpened, IsGate};
ghost use Rattle.store_reopen.specs.Loading.{KeepsSaid};
ghost use Rattle.store_reopen.specs.NotOpened.{IsTold};
ghost use Rattle.store_reopen.specs.Reopen.{AreManifests, IsManifest, stores_of};
ghost use Rattle.store_reopen.specs.Verdict.{Listings, AreSaidBelow};
ghost use Rattle.store_reopen.specs.declared.error.NotOpened.TheVariants.{Disk as OfDisk};

use crate::error::NotOpened;
use disk_model::{Disk, DiskErr, FileName};
use etl_rules::Config;
use gate_journal::{Batches, Journal, JournalErr, one_bad_place};
use pv_catalog::{Catalogue, CatalogueErr, catalogue_file};
use std::alloc::{AllocError, Global};
use store_manifest::{Manifest, ManifestErr, manifest_file};

// How many stores there are.
pub(crate) const STORES: u8 = 3;

// Loads the catalogue, or tells where it is bad.
pub(crate) fn load_catalogue<D: Disk>(alloc: Global, disk: &mut D) -> Result<Catalogue, NotOpened>
    requires unopened { IsTrue D.tells → NoneOpened catalogue_name (D.opened disk.old) }
    ensures stored { IsTrue D.tells → IfOk result (λ c. IsStored c (shown_by D.Disk disk.new)) }
    ensures rows { IsTrue D.tells → IfOk result (λ c. Says IsCatalogue c.rows catalogue_name (D.files disk.old)) }
    ensures journal { IfOk result (λ c. (c.journal.name ≡ catalogue_name) × (c.journal.sound ≡ true)) }
    ensures told { IsTrue D.tells → (gs : List GranularityValue) → IfErr result (IsTold gs (D.files disk.old)) }
    ensures others { IsTrue D.tells → (n : Name) → (IsOwn catalogue_name n → ⊥)
        → D.files disk.new n ≡ D.files disk.old n }
    ensures keeps { IsTrue D.tells → (gs : List GranularityValue)
        → KeepsSaid gs (shown_by D.Disk disk.old) (shown_by D.Disk disk.new) }
    ensures faults { D.faults disk.old ≤ D.faults disk.new }
    ensures cause { result ≡ Err (OfDisk Fault) → Rose (D.faults disk.old) (D.faults disk.new) }
{
    let name = catalogue_file(alloc)?;
    match Catalogue::load(alloc, disk) {
        Ok(catalogue) => Ok(catalogue),
        Err(CatalogueErr::Disk(e)) => Err(NotOpened::Disk(e)),
        Err(CatalogueErr::BadJournal { name: file, at }) => {
            Err(NotOpened::Damaged { name: file, at })
        }
        Err(CatalogueErr::BadBatch { number }) => {
            let (file, at) = gate_of(alloc, disk, &name, number)?;
            Err(NotOpened::Damaged { name: file, at })
        }
    }
}

// Loads the manifests of stores 1 to 3 one after another, or tells where the first that is bad is so.
pub(crate) fn load_manifests<D: Disk>(
    alloc: Global,
    disk: &mut D,
    config: &Config,
) -> Result<Vec<Manifest>, NotOpened>
    requires unopened { IsTrue D.tells → (i : ℕ) → i < 3 → NoneOpened (manifest_name (i + 1)) (D.opened disk.old) }
    ensures loaded { IfOk result (λ ms. AreManifests D.Disk (stores_of config.now) disk.old ms.items disk.new) }
    ensures told { IsTrue D.tells → (seen : Files) (rows : List Row) → Says IsCatalogue rows catalogue_name seen
        → ((i : ℕ) (n : Name) → i < 3 → IsOwn (manifest_name (i + 1)) n → D.files disk.old n ≡ seen n)
        → IfErr result (IsTold (stores_of config.now) seen) }
    ensures catalogue { IsTrue D.tells → (c : CatalogueState) → c.journal.name ≡ catalogue_name
        → IsStored c (shown_by D.Disk disk.old) → OnOk result (IsStored c (shown_by D.Disk disk.new)) }
    ensures keeps { IsTrue D.tells
        → KeepsSaid (stores_of config.now) (shown_by D.Disk disk.old) (shown_by D.Disk disk.new) }
    ensures faults { D.faults disk.old ≤ D.faults disk.new }
    ensures cause { result ≡ Err (OfDisk Fault) → Rose (D.faults disk.old) (D.faults disk.new) }
{
    let mut manifests = Vec::new(alloc);
    for place in 0..STORES {
        let manifest = load_manifest(alloc, disk, config, place)?;
        manifests.push(manifest)?;
    }
    Ok(manifests)
}

// Loads the manifest of the store at this place, or tells where it is bad. Where it has no batch, one that says
// the granularity is committed.
fn load_manifest<D: Disk>(
    alloc: Global,
    disk: &mut D,
    config: &Config,
    place: u8,
) -> Result<Manifest, NotOpened>
    requires place { place < 3 }
    requires unopened { IsTrue D.tells → NoneOpened (manifest_name (place + 1)) (D.opened disk.old) }
    ensures loaded { IfOk result (λ m. IsManifest D.Disk (stores_of config.now) place disk.old m disk.new) }
    ensures told { IsTrue D.tells → (seen : Files) (rows : List Row) (lists : Listings)
        → Says IsCatalogue rows catalogue_name seen
        → AreSaidBelow place (stores_of config.now) seen lists
        → ((n : Name) → IsOwn (manifest_name (place + 1)) n → D.files disk.old n ≡ seen n)
        → IfErr result (IsTold (stores_of config.now) seen) }
    ensures others { IsTrue D.tells → (n : Name) → (IsOwn (manifest_name (place + 1)) n → ⊥)
        → OnOk result (D.files disk.new n ≡ D.files disk.old n) }
    ensures catalogue { IsTrue D.tells → (c : CatalogueState) → c.journal.name ≡ catalogue_name
        → IsStored c (shown_by D.Disk disk.old) → OnOk result (IsStored c (shown_by D.Disk disk.new)) }
    ensures earlier { IsTrue D.tells → (i : ℕ) (m : ManifestState) → i < place → m.journal.name ≡ manifest_name (i + 1)
        → IsKept m (shown_by D.Disk disk.old) → OnOk result (IsKept m (shown_by D.Disk disk.new)) }
    ensures keeps { IsTrue D.tells
        → KeepsSaid (stores_of config.now) (shown_by D.Disk disk.old) (shown_by D.Disk disk.new) }
    ensures faults { D.faults disk.old ≤ D.faults disk.new }
    ensures cause { result ≡ Err (OfDisk Fault) → Rose (D.faults disk.old) (D.faults disk.new) }
{
    let store = place + 1;
    let name = manifest_file(alloc, store)?;
    match Manifest::load(alloc, disk, store, config.granularity(store)) {
        Ok(manifest) => Ok(manifest),
        Err(ManifestErr::Disk(e)) => Err(NotOpened::Disk(e)),
        Err(ManifestErr::BadJournal { name: file, at }) => {
            Err(NotOpened::Damaged { name: file, at })
        }
        Err(ManifestErr::BadBatch { number }) => {
            let (file, at) = gate_of(alloc, disk, &name, number)?;
            Err(NotOpened::Damaged { name: file, at })
        }
        Err(ManifestErr::GranularityDiffers { kept, asked }) => {
            Err(NotOpened::GranularityDiffers { kept, asked })
        }
    }
}

// The file of a journal's current generation, and the place of a batch's open gate in it. It
// loads the journal once more.
fn gate_of<D: Disk>(
    alloc: Global,
    disk: &mut D,
    name: &FileName,
    number: u64,
) -> Result<(FileName, u64), DiskErr>
    requires unopened { IsTrue D.tells → NoneOpened name.now (D.opened disk.old) }
    ensures gate { IsTrue D.tells → IfOk result (λ r. IsGate name.now (D.files disk.old) number r.0 r.1) }
    ensures leaves { IsTrue D.tells → LeavesLoaded name.now (shown_by D.Disk disk.old) (shown_by D.Disk disk.new) }
    ensures faults { D.faults disk.old ≤ D.faults disk.new }
    ensures cause { IsErrOf result DiskErr.Fault → Rose (D.faults disk.old) (D.faults disk.new) }
{
    match Journal::load(alloc, disk, name) {
        Ok((journal, batches)) => {
            let at = place_of(&batches, number as usize)?;
            let file = journal.file().copy(alloc)?;
            Ok((file, at))
        }
        Err(JournalErr::Disk(e)) => Err(e),
        Err(JournalErr::BadJournal { name: file, at }) => {
            // No image that holds batches is bad.
            one_bad_place();
            Ok((file, at))
        }
    }
}

// The place of the open gate of a batch. A sum that doesn't fit counts as want of memory; no file is as long.
fn place_of(batches: &Batches, number: usize) -> Result<u64, AllocError>
    ensures { IfOk result (λ at. at ≡ length (open_gates (take number batches.now))) }
{
    let mut place: u64 = 0;
    for i in 0..number.min(batches.len()) {
        let framed = batches.batch(i).len() as u64 + 5;
        place = place.checked_add(framed).ok_or(AllocError)?;
    }
    Ok(place)
}
