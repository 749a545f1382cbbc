// The opening of a disk, from its journals to its listed files.
ghost use Rattle.std.specs.FinMap as map;
ghost use Rattle.std.specs.Prelude.{◌≡◌, ◌≤◌, ◌<◌, ◌+◌, [], ℕ, IfOk, IfErr, IsSome, IsTrue, None, OnOk, Err, ◌↔◌};
ghost use Rattle.disk_model.specs.Files.{Name, Rose};
ghost use Rattle.disk_model.specs.declared.disk.DiskErr.TheVariants.{Fault};
ghost use Rattle.gate_journal.specs.DiskShown.{shown_by};
ghost use Rattle.pv_catalog.specs.Catalogue.{catalogue_name};
ghost use Rattle.store_manifest.specs.Manifest.{manifest_name};
ghost use Rattle.tier_store.specs.Seen.{seen};
ghost use Rattle.tier_store.specs.Pinned.{seen_all};
ghost use Rattle.store_reopen.specs.OneJournal.{NoneOpened};
ghost use Rattle.store_reopen.specs.Reopen.{AreLoaded, IsOpenedAs, IsSwept, IsUnopened, LeavesSite, Reopens, Sweeps};
ghost use Rattle.store_reopen.specs.Reopen.{disk_of, loaded, stores_of};
ghost use Rattle.store_reopen.specs.Loading.{KeepsSaid};
ghost use Rattle.store_reopen.specs.NotOpened.{IsCauseOf, IsTold};
ghost use Rattle.store_reopen.specs.Strays.{HaveNoStray, IsStrayBelow, adoption_name};
ghost use Rattle.store_reopen.specs.declared.error.NotOpened.TheVariants.{Disk as OfDisk};

use crate::ReopenErr;
use crate::error::NotOpened;
use crate::files::{check_files, check_rows};
use crate::journals::{load_catalogue, load_manifests};
use crate::sweeping::sweep_finished;
use crate::unfinished::is_unfinished;
use disk_model::{Disk, DiskErr};
use etl_rules::Config;
use pv_catalog::Catalogue;
use std::alloc::Global;
use store_manifest::Manifest;
use tier_store::TierStore;

/// Opens a disk as three stores, in the configured granularities, and removes strays. What the disk's image holds is
/// what the stores hold, with no pin and nothing in limbo, and they keep the settings. It needs that no journal of the
/// disk was opened, and no listed file beyond its listed length.
///
/// The first that is wrong is told, in this order: the catalogue; the manifests of stores 1 to 3, each with its
/// granularity; an entry of no row; the listed files, store by store and in the order of series and time. Of files
/// it looks only at lengths. `DiskFault` comes only where the disk's count of faults rose in the call; `Memory`
/// alone may come at any time.
///
/// Strays are removed once all that is listed was found, each with a sync. At `Ok` none is left: a file of stores 1 to
/// 3 that is named as that of a row and of a partition of its store is listed there. Every other file stays. After
/// `DiskFault` and `Memory` some may be left. While store 0 has a file `adopt`, an adoption isn't finished: no file
/// counts as a stray then, and none is removed.
pub fn reopen<D: Disk>(
    alloc: Global,
    disk: D,
    config: &Config,
) -> Result<TierStore<D>, ReopenErr<D>>
    requires unopened { IsTrue D.tells → IsUnopened (D.files disk) (D.opened disk) }

    // What reads give is held from then on, if each image holds that or one thing more; and each disk that opens
    // has rows and lists files.
    ensures opened { IfOk result (λ s. IsOpenedAs D.Disk (stores_of config.now) disk (seen D.Disk s)) }
    ensures fresh { IfOk result (λ s. (s.limbo.items ≡ []) × (s.pinned ≡ map.empty)) }
    ensures settings { IfOk result (λ s. s.config ≡ config.now) }
    ensures told { IfErr result (IsCauseOf D.Disk (stores_of config.now) disk) }

    // No stray is left, where no adoption is unfinished. A crash at any moment leaves what the image held, and the disk
    // can be opened again. Of store 0 the file `adopt` stays as it is, and so does every other one that is no
    // journal's. Journals keep their batches, also where the image is refused.
    ensures swept { IsTrue D.tells
        → IfOk result (λ s. IsSwept (stores_of config.now) (D.files disk) (D.files s.disk) (D.past s.disk)) }
    ensures tidy { IsTrue D.tells → D.files disk adoption_name ≡ None
        → IfOk result (λ s. HaveNoStray (seen_all D.Disk s)) }
    ensures sweeps { IsTrue D.tells → Sweeps D.Disk (stores_of config.now) disk (disk_of result) }
    ensures site { IsTrue D.tells → LeavesSite D.Disk (stores_of config.now) disk (disk_of result) }
    ensures faults { D.faults disk ≤ D.faults (disk_of result) }
{
    let mut disk = disk;
    match open_stores(alloc, &mut disk, config) {
        Ok((catalogue, manifests)) => Ok(TierStore::new(
            alloc, disk, *config, catalogue, manifests,
        )),
        Err(NotOpened::Disk(DiskErr::Fault)) => Err(ReopenErr::DiskFault(disk)),
        Err(NotOpened::Disk(DiskErr::Memory)) => Err(ReopenErr::Memory(disk)),
        Err(NotOpened::Damaged { name, at }) => Err(ReopenErr::Damaged { disk, name, at }),
        Err(NotOpened::GranularityDiffers { kept, asked }) => {
            Err(ReopenErr::GranularityDiffers { disk, kept, asked })
        }
    }
}

/// Opens a disk as `reopen` does, and removes no stray: so a command opens it that only reads.
pub fn open_to_read<D: Disk>(
    alloc: Global,
    disk: D,
    config: &Config,
) -> Result<TierStore<D>, ReopenErr<D>>
    requires unopened { IsTrue D.tells → IsUnopened (D.files disk) (D.opened disk) }

    // The first four clauses are those of `reopen`.
    ensures opened { IfOk result (λ s. IsOpenedAs D.Disk (stores_of config.now) disk (seen D.Disk s)) }
    ensures fresh { IfOk result (λ s. (s.limbo.items ≡ []) × (s.pinned ≡ map.empty)) }
    ensures settings { IfOk result (λ s. s.config ≡ config.now) }
    ensures told { IfErr result (IsCauseOf D.Disk (stores_of config.now) disk) }

    // A crash at any moment leaves what the image held, and the disk can be opened again. The file `adopt` and all
    // others of store 0 that are no journals' stay, and journals keep their batches.
    ensures reopens { IsTrue D.tells → Reopens D.Disk (stores_of config.now) disk (disk_of result) }
    ensures site { IsTrue D.tells → LeavesSite D.Disk (stores_of config.now) disk (disk_of result) }
    ensures faults { D.faults disk ≤ D.faults (disk_of result) }
{
    let mut disk = disk;
    match load_stores(alloc, &mut disk, config) {
        Ok((catalogue, manifests)) => Ok(TierStore::new(
            alloc, disk, *config, catalogue, manifests,
        )),
        Err(NotOpened::Disk(DiskErr::Fault)) => Err(ReopenErr::DiskFault(disk)),
        Err(NotOpened::Disk(DiskErr::Memory)) => Err(ReopenErr::Memory(disk)),
        Err(NotOpened::Damaged { name, at }) => Err(ReopenErr::Damaged { disk, name, at }),
        Err(NotOpened::GranularityDiffers { kept, asked }) => {
            Err(ReopenErr::GranularityDiffers { disk, kept, asked })
        }
    }
}

// Asks whether an adoption is unfinished, loads the journals, and removes strays where none is.
fn open_stores<D: Disk>(
    alloc: Global,
    disk: &mut D,
    config: &Config,
) -> Result<(Catalogue, Vec<Manifest>), NotOpened>
    requires unopened { IsTrue D.tells → IsUnopened (D.files disk.old) (D.opened disk.old) }
    ensures opened { IfOk result (λ r.
        IsOpenedAs D.Disk (stores_of config.now) disk.old (loaded D.Disk r.0 r.1.items disk.new)) }
    ensures told { IsTrue D.tells → IfErr result (IsTold (stores_of config.now) (D.files disk.old)) }
    ensures swept { IsTrue D.tells
        → OnOk result (IsSwept (stores_of config.now) (D.files disk.old) (D.files disk.new) (D.past disk.new)) }
    ensures gone { IsTrue D.tells → D.files disk.old adoption_name ≡ None
        → IfOk result (λ r. (n : Name) → IsStrayBelow 3 r.0.rows r.1.items n → D.files disk.new n ≡ None) }
    ensures sweeps { IsTrue D.tells → Sweeps D.Disk (stores_of config.now) disk.old disk.new }
    ensures site { IsTrue D.tells → LeavesSite D.Disk (stores_of config.now) disk.old disk.new }
    ensures faults { D.faults disk.old ≤ D.faults disk.new }
    ensures cause { result ≡ Err (OfDisk Fault) → Rose (D.faults disk.old) (D.faults disk.new) }
{
    let unfinished = is_unfinished(alloc, disk)?;
    load_and_sweep(alloc, disk, config, unfinished)
}

// Loads the journals, looks whether all that they list is there, and removes strays, but not while
// an adoption is unfinished.
fn load_and_sweep<D: Disk>(
    alloc: Global,
    disk: &mut D,
    config: &Config,
    unfinished: bool,
) -> Result<(Catalogue, Vec<Manifest>), NotOpened>
    requires unopened { IsTrue D.tells → IsUnopened (D.files disk.old) (D.opened disk.old) }
    requires says { IsTrue D.tells → IsTrue unfinished ↔ IsSome (D.files disk.old adoption_name) }
    ensures opened { IfOk result (λ r.
        IsOpenedAs D.Disk (stores_of config.now) disk.old (loaded D.Disk r.0 r.1.items disk.new)) }
    ensures told { IsTrue D.tells → IfErr result (IsTold (stores_of config.now) (D.files disk.old)) }
    ensures swept { IsTrue D.tells
        → OnOk result (IsSwept (stores_of config.now) (D.files disk.old) (D.files disk.new) (D.past disk.new)) }
    ensures gone { IsTrue D.tells → D.files disk.old adoption_name ≡ None
        → IfOk result (λ r. (n : Name) → IsStrayBelow 3 r.0.rows r.1.items n → D.files disk.new n ≡ None) }
    ensures sweeps { IsTrue D.tells → Sweeps D.Disk (stores_of config.now) disk.old disk.new }
    ensures site { IsTrue D.tells → LeavesSite D.Disk (stores_of config.now) disk.old disk.new }
    ensures faults { D.faults disk.old ≤ D.faults disk.new }
    ensures cause { result ≡ Err (OfDisk Fault) → Rose (D.faults disk.old) (D.faults disk.new) }
{
    let (catalogue, manifests) = load_stores(alloc, disk, config)?;
    sweep_finished(alloc, disk, &catalogue, &manifests, unfinished)?;
    Ok((catalogue, manifests))
}

// Loads the journals, and looks whether all that they list is there.
pub(crate) fn load_stores<D: Disk>(
    alloc: Global,
    disk: &mut D,
    config: &Config,
) -> Result<(Catalogue, Vec<Manifest>), NotOpened>
    requires unopened { IsTrue D.tells → NoneOpened catalogue_name (D.opened disk.old)
        × ((i : ℕ) → i < 3 → NoneOpened (manifest_name (i + 1)) (D.opened disk.old)) }
    ensures loaded { IfOk result (λ r. AreLoaded D.Disk (stores_of config.now) disk.old r.0 r.1.items disk.new) }
    ensures told { IsTrue D.tells → IfErr result (IsTold (stores_of config.now) (D.files disk.old)) }
    ensures keeps { IsTrue D.tells
        → KeepsSaid (stores_of config.now) (shown_by D.Disk disk.old) (shown_by D.Disk disk.new) }
    ensures faults { D.faults disk.old ≤ D.faults disk.new }
    ensures cause { result ≡ Err (OfDisk Fault) → Rose (D.faults disk.old) (D.faults disk.new) }
{
    let catalogue = load_catalogue(alloc, disk)?;
    let manifests = load_manifests(alloc, disk, config)?;
    let rows = catalogue.rows();
    check_rows(alloc, rows, &manifests)?;
    check_files(alloc, disk, rows, &manifests)?;
    Ok((catalogue, manifests))
}
