// The adoption of files that no manifest lists.
ghost use Rattle.std.specs.FinMap as map;
ghost use Rattle.std.specs.Prelude.{◌≡◌, ◌≤◌, [], List, Err, IfErr, IfOk, IsErrOf, IsOk, IsTrue, OnErr, OnOk};
ghost use Rattle.std.specs.Prelude.{length};
ghost use Rattle.disk_model.specs.Files.{Files, Rose};
ghost use Rattle.disk_model.specs.Past.{Passes};
ghost use Rattle.disk_model.specs.declared.disk.DiskErr.TheVariants.{Fault};
ghost use Rattle.partition_names.specs.declared.granularity.Granularity.{Granularity as GranularityValue};
ghost use Rattle.tier_store.specs.Change.{Has};
ghost use Rattle.tier_store.specs.Seen.{granularities, seen};
ghost use Rattle.tier_store.specs.Stores.{Stores};
ghost use Rattle.store_reopen.specs.Adoption.{Adopts, HasAdopted, IsMarked, NoneFiner, NoneFoundOpened, adopt_disk};
ghost use Rattle.store_reopen.specs.Adoption.{cause_of};
ghost use Rattle.store_reopen.specs.Following.{FollowsAll, HasAdoptedOf, LeavesOff, NoneUnlistedOpened};
ghost use Rattle.store_reopen.specs.Listing.{AreCoarse};
ghost use Rattle.store_reopen.specs.NotOpened.{IsCauseOf, IsTold};
ghost use Rattle.store_reopen.specs.Reopen.{ChangesJournals, ChangesSite, IsReady, IsUnopened, OpensEither, SameStores};
ghost use Rattle.store_reopen.specs.Reopen.{loaded, stores_of};
ghost use Rattle.store_reopen.specs.Strays.{IsGone, adoption_name};
ghost use Rattle.store_reopen.specs.Verdict.{IsWhole};
ghost use Rattle.store_reopen.specs.declared.error.NotOpened.TheVariants.{Disk as OfDisk};

use crate::ReopenErr;
use crate::adopted::{AdoptErr, Adopted};
use crate::counting::numbers;
use crate::error::NotOpened;
use crate::finding::find_unlisted;
use crate::listing::list_all;
use crate::opening::load_stores;
use crate::registering::register_all;
use crate::taking::by_turn;
use crate::unfinished::{begin_adoption, end_adoption};
use disk_model::{Disk, DiskErr};
use etl_rules::Config;
use pv_catalog::Catalogue;
use std::alloc::Global;
use store_manifest::Manifest;
use tier_store::TierStore;

/// Opens a disk as `reopen` does, without a sweep, and lists the files that no manifest lists where they stand, by the
/// rule that `IsAdoption` tells. No file of stores 1 to 3 is changed.
///
/// A file may be listed where its path is that of a variable and of a partition of its store's granularity, where it
/// has a front for that partition, and where the header in it tells that variable. Of it the front is listed. Variables
/// without a row get one by their first file, in the order of stores 3, 2, 1 and of the files' names. Then each row
/// takes files of its type, of store 3, then 2, then 1, in one commit each; it takes none of a store where it lists a
/// file there or in a store before it.
///
/// While that is going on, store 0 has the file `adopt`, and no opening sweeps; at `Ok` it is gone. So after a stop at
/// any moment what was held is held, with a front of these steps made, and a second call makes the others. `DiskFault`
/// comes only where the disk's count of faults rose in the call; `Memory` alone may come at any time.
///
/// No store may have partitions of five minutes. It needs a disk of which no journal was opened, no listed file beyond
/// its listed length, and no unlisted one, and leaves it so, whatever it answers.
pub fn adopt<D: Disk>(
    alloc: Global,
    disk: D,
    config: &Config,
) -> Result<(TierStore<D>, Adopted), AdoptErr<D>>
    requires unopened { IsTrue D.tells → IsUnopened (D.files disk) (D.opened disk) }
    requires found { IsTrue D.tells → NoneFoundOpened (stores_of config.now) (D.files disk) (D.opened disk) }
    requires coarse { NoneFiner config.now }

    // A crash at any moment leaves what reads give, with a front of the rule's steps made; once it is done, all are,
    // and the numbers are theirs.
    ensures adopts { IsTrue D.tells → Adopts D.Disk (stores_of config.now) disk (adopt_disk result) }
    ensures adopted { IsTrue D.tells → (before after : Stores)
        → OpensEither (stores_of config.now) (D.past disk) before after
        → IfOk result (λ r. HasAdopted D.Disk (stores_of config.now) disk r.0 r.1 before after) }
    ensures finished { IsTrue D.tells → IfOk result (λ r. IsGone (D.files r.0.disk) (D.past r.0.disk) adoption_name) }
    ensures ready { IfOk result (λ r. let now = seen D.Disk r.0 in
        IsReady (stores_of config.now) now.catalogue now.manifests) }
    ensures fresh { IfOk result (λ r. (r.0.limbo.items ≡ []) × (r.0.pinned ≡ map.empty)) }
    ensures settings { IfOk result (λ r. r.0.config ≡ config.now) }

    ensures whole { IsTrue D.tells → IsOk result → IsWhole (stores_of config.now) (D.files disk) }
    ensures told { IfErr result (λ e. IsCauseOf D.Disk (stores_of config.now) disk (cause_of e)) }
    ensures faults { D.faults disk ≤ D.faults (adopt_disk result) }
{
    let mut disk = disk;
    match adopt_files(alloc, &mut disk, config) {
        Ok((catalogue, manifests, adopted)) => Ok((
            TierStore::new(alloc, disk, *config, catalogue, manifests),
            adopted,
        )),
        Err(NotOpened::Disk(DiskErr::Fault)) => Err(AdoptErr::Reopen(ReopenErr::DiskFault(disk))),
        Err(NotOpened::Disk(DiskErr::Memory)) => Err(AdoptErr::Reopen(ReopenErr::Memory(disk))),
        Err(NotOpened::Damaged { name, at }) => {
            Err(AdoptErr::Reopen(ReopenErr::Damaged { disk, name, at }))
        }
        Err(NotOpened::GranularityDiffers { kept, asked }) => Err(AdoptErr::Reopen(
            ReopenErr::GranularityDiffers { disk, kept, asked },
        )),
    }
}

// Loads the journals, looks whether all that they list is there, and adopts.
fn adopt_files<D: Disk>(
    alloc: Global,
    disk: &mut D,
    config: &Config,
) -> Result<(Catalogue, Vec<Manifest>, Adopted), NotOpened>
    requires unopened { IsTrue D.tells → IsUnopened (D.files disk.old) (D.opened disk.old) }
    requires found { IsTrue D.tells → NoneFoundOpened (stores_of config.now) (D.files disk.old) (D.opened disk.old) }
    requires coarse { NoneFiner config.now }
    ensures adopts { IsTrue D.tells → Adopts D.Disk (stores_of config.now) disk.old disk.new }
    ensures adopted { IsTrue D.tells → (before after : Stores)
        → OpensEither (stores_of config.now) (D.past disk.old) before after
        → IfOk result (λ r.
        HasAdoptedOf D.Disk (stores_of config.now) disk.old r.0 r.1.items disk.new r.2 before after) }
    ensures finished { IsTrue D.tells → OnOk result (IsGone (D.files disk.new) (D.past disk.new) adoption_name) }
    ensures ready { IfOk result (λ r. IsReady (stores_of config.now) r.0 r.1.items) }
    ensures whole { IsTrue D.tells → IsOk result → IsWhole (stores_of config.now) (D.files disk.old) }
    ensures told { IsTrue D.tells → IfErr result (IsTold (stores_of config.now) (D.files disk.old)) }
    ensures faults { D.faults disk.old ≤ D.faults disk.new }
    ensures cause { result ≡ Err (OfDisk Fault) → Rose (D.faults disk.old) (D.faults disk.new) }
{
    let (mut catalogue, mut manifests) = load_stores(alloc, disk, config)?;
    let adopted = adopt_loaded(alloc, disk, &mut catalogue, &mut manifests)?;
    Ok((catalogue, manifests, adopted))
}

// Finds what no manifest lists, and makes the steps of the rule behind a load, while store 0 has the file `adopt`.
fn adopt_loaded<D: Disk>(
    alloc: Global,
    disk: &mut D,
    catalogue: &mut Catalogue,
    manifests: &mut Vec<Manifest>,
) -> Result<Adopted, DiskErr>
    requires ready { (gs : List GranularityValue) × (length gs ≡ 3) × IsReady gs catalogue.old manifests.old.items }
    requires has { IsTrue D.tells
        → (held : Stores) × Has D.tells (loaded D.Disk catalogue.old manifests.old.items disk.old) held }
    requires unopened { IsTrue D.tells → NoneUnlistedOpened catalogue.old.rows manifests.old.items (D.opened disk.old) }
    requires coarse { AreCoarse (granularities manifests.old.items) }
    ensures follows { IsTrue D.tells → (gs : List GranularityValue) (image : Files) (held : Stores)
        → granularities manifests.old.items ≡ gs
        → SameStores image (D.files disk.old)
        → Has D.tells (loaded D.Disk catalogue.old manifests.old.items disk.old) held
        → IfOk result (FollowsAll D.Disk gs image held catalogue.old manifests.old.items
        disk.old catalogue.new manifests.new.items disk.new) }
    ensures leaves_off { IsTrue D.tells → (gs : List GranularityValue) (image : Files) (held : Stores)
        → granularities manifests.old.items ≡ gs
        → SameStores image (D.files disk.old)
        → Has D.tells (loaded D.Disk catalogue.old manifests.old.items disk.old) held
        → OnErr result (LeavesOff D.Disk gs image held catalogue.old manifests.old.items
        disk.old catalogue.new manifests.new.items disk.new) }
    ensures marked { IsTrue D.tells → (gs : List GranularityValue) (image : Files) (held : Stores)
        → granularities manifests.old.items ≡ gs
        → SameStores image (D.files disk.old)
        → Has D.tells (loaded D.Disk catalogue.old manifests.old.items disk.old) held
        → Passes (IsMarked gs image held) (D.past disk.old) (D.past disk.new) }
    ensures finished { IsTrue D.tells → OnOk result (IsGone (D.files disk.new) (D.past disk.new) adoption_name) }
    ensures ready { (gs : List GranularityValue) → IsReady gs catalogue.old manifests.old.items
        → OnOk result (IsReady gs catalogue.new manifests.new.items) }
    ensures site { IsTrue D.tells → ChangesSite D.Disk disk.old disk.new }
    ensures faults { D.faults disk.old ≤ D.faults disk.new }
    ensures cause { IsErrOf result DiskErr.Fault → Rose (D.faults disk.old) (D.faults disk.new) }
{
    begin_adoption(alloc, disk)?;
    let adopted = adopt_found(alloc, disk, catalogue, manifests)?;
    end_adoption(alloc, disk)?;
    Ok(adopted)
}

// Finds what no manifest lists, and makes the steps of the rule.
fn adopt_found<D: Disk>(
    alloc: Global,
    disk: &mut D,
    catalogue: &mut Catalogue,
    manifests: &mut Vec<Manifest>,
) -> Result<Adopted, DiskErr>
    requires ready { (gs : List GranularityValue) × (length gs ≡ 3) × IsReady gs catalogue.old manifests.old.items }
    requires has { IsTrue D.tells
        → (held : Stores) × Has D.tells (loaded D.Disk catalogue.old manifests.old.items disk.old) held }
    requires unopened { IsTrue D.tells → NoneUnlistedOpened catalogue.old.rows manifests.old.items (D.opened disk.old) }
    requires coarse { AreCoarse (granularities manifests.old.items) }
    ensures follows { IsTrue D.tells → (gs : List GranularityValue) (image : Files) (held : Stores)
        → granularities manifests.old.items ≡ gs
        → SameStores image (D.files disk.old)
        → Has D.tells (loaded D.Disk catalogue.old manifests.old.items disk.old) held
        → IfOk result (FollowsAll D.Disk gs image held catalogue.old manifests.old.items
        disk.old catalogue.new manifests.new.items disk.new) }
    ensures leaves_off { IsTrue D.tells → (gs : List GranularityValue) (image : Files) (held : Stores)
        → granularities manifests.old.items ≡ gs
        → SameStores image (D.files disk.old)
        → Has D.tells (loaded D.Disk catalogue.old manifests.old.items disk.old) held
        → OnErr result (LeavesOff D.Disk gs image held catalogue.old manifests.old.items
        disk.old catalogue.new manifests.new.items disk.new) }
    ensures ready { (gs : List GranularityValue) → IsReady gs catalogue.old manifests.old.items
        → OnOk result (IsReady gs catalogue.new manifests.new.items) }
    ensures spares { IsTrue D.tells → ChangesJournals D.Disk disk.old disk.new }
    ensures faults { D.faults disk.old ≤ D.faults disk.new }
    ensures cause { IsErrOf result DiskErr.Fault → Rose (D.faults disk.old) (D.faults disk.new) }
{
    let unlisted = find_unlisted(alloc, disk, catalogue, manifests.as_slice())?;
    let before = catalogue.rows().len();
    let count = unlisted.len();
    register_all(alloc, disk, catalogue, unlisted.as_slice())?;
    let turns = by_turn(alloc, catalogue, manifests.as_slice(), unlisted)?;
    list_all(alloc, disk, catalogue, manifests, turns.as_slice())?;
    let rows = catalogue.rows().len() - before;
    Ok(numbers(rows, count, turns.as_slice()))
}
