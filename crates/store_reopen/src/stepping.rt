// The steps of an adoption: each is one commit, of the catalogue or of a manifest.
ghost use Rattle.std.specs.Prelude.{◌≡◌, ◌≤◌, ◌<◌, ◌++◌, ◌∷◌, [], ℕ, true, All, Err, IfErr, IsErrOf, IsTrue, List};
ghost use Rattle.std.specs.Prelude.{OnOk, Some, length, map, slice_get};
ghost use Rattle.disk_model.specs.Files.{Rose};
ghost use Rattle.disk_model.specs.declared.disk.DiskErr.TheVariants.{Fault};
ghost use Rattle.durable_write.specs.Ends.{end_of_disk, end_of_register};
ghost use Rattle.durable_write.specs.Flush.{put_all};
ghost use Rattle.durable_write.specs.Held.{Filed};
ghost use Rattle.etl_mover.specs.Move.{set_entry};
ghost use Rattle.partition_names.specs.declared.granularity.Granularity.{Granularity};
ghost use Rattle.pv_catalog.specs.Catalogue.{IsRefusal, IsOfRows, registered};
ghost use Rattle.pv_catalog.specs.declared.error.RegisterErr.TheVariants.{Disk as RegisterDisk};
ghost use Rattle.pv_name.specs.Name.{IsName};
ghost use Rattle.store_manifest.specs.declared.entry.Entry.{Entry};
ghost use Rattle.store_manifest.specs.Entries.{AllCanFollow};
ghost use Rattle.store_manifest.specs.Manifest.{ManifestState};
ghost use Rattle.tier_store.specs.Change.{CanList, Changes, Has, registering};
ghost use Rattle.tier_store.specs.Moving.{publishing};
ghost use Rattle.tier_store.specs.Stores.{Stores, list_at};
ghost use Rattle.store_reopen.specs.Listing.{most_files};
ghost use Rattle.store_reopen.specs.Reopen.{ChangesJournals, IsReady, loaded};
ghost use Rattle.store_reopen.specs.Verdict.{HasRow};

use disk_model::{Disk, DiskErr};
use durable_write::relist;
use pb_messages::About;
use pv_catalog::{Catalogue, RegisterErr};
use pv_name::PvName;
use store_manifest::{Change, Manifest};

// A new row, where nothing stands in doubt. Where the rows refuse it, nothing has changed.
pub(crate) fn add_row<D: Disk>(
    disk: &mut D,
    catalogue: &mut Catalogue,
    name: &PvName,
    about: &About,
) -> Result<u32, RegisterErr>
    requires sound { IsTrue catalogue.old.journal.sound }
    requires named { IsName name.now }
    requires has { IsTrue D.tells
        → (ms : List ManifestState) × (held : Stores) × Has D.tells (loaded D.Disk catalogue.old ms disk.old) held }
    ensures rows { OnOk result
        (catalogue.new.rows ≡ catalogue.old.rows ++ registered catalogue.old.rows name.now about.now ∷ []) }
    ensures sound { OnOk result (IsTrue catalogue.new.journal.sound) }
    ensures ready { (gs : List Granularity) (ms : List ManifestState) → IsReady gs catalogue.old ms
        → OnOk result (IsReady gs catalogue.new ms) }
    ensures refusal { IfErr result (IsRefusal catalogue.old.rows name.now) }
    ensures unchanged { IfErr result (λ e. IsOfRows e → (catalogue.new ≡ catalogue.old) × (disk.new ≡ disk.old)) }
    ensures changes { (ms : List ManifestState)
        → ((held : Stores) × Has D.tells (loaded D.Disk catalogue.old ms disk.old) held)
        → Changes D.tells (registering name.now about.now)
        (loaded D.Disk catalogue.old ms disk.old) (loaded D.Disk catalogue.new ms disk.new) (end_of_register result) }
    ensures spares { IsTrue D.tells → ChangesJournals D.Disk disk.old disk.new }
    ensures faults { D.faults disk.old ≤ D.faults disk.new }
    ensures cause { result ≡ Err (RegisterDisk Fault) → Rose (D.faults disk.old) (D.faults disk.new) }
{
    catalogue.register(disk, name, about)
}

// Files more in the list at a place, where nothing stands in doubt. They are safe on the disk as it is.
pub(crate) fn add_files<D: Disk>(
    disk: &mut D,
    catalogue: &Catalogue,
    manifests: &mut Vec<Manifest>,
    place: usize,
    changes: &[Change],
) -> Result<(), DiskErr>
    requires within { place < length manifests.old.items }
    requires few { length changes.now ≤ most_files }
    requires sound { (m : ManifestState) → slice_get manifests.old.items place ≡ Some m → m.journal.sound ≡ true }
    requires follow { (m : ManifestState) → slice_get manifests.old.items place ≡ Some m
        → AllCanFollow m.granularity m.entries changes.now }
    requires has { IsTrue D.tells
        → (held : Stores) × Has D.tells (loaded D.Disk catalogue.now manifests.old.items disk.old) held }
    requires can { IsTrue D.tells → (files : List Filed)
        × ((held : Stores) → Has D.tells (loaded D.Disk catalogue.now manifests.old.items disk.old) held
        → CanList place D.tells (loaded D.Disk catalogue.now manifests.old.items disk.old) changes.now held
        (put_all (list_at place held) files)) }
    ensures ready { (gs : List Granularity) (entries : List Entry) → IsReady gs catalogue.now manifests.old.items
        → changes.now ≡ map set_entry entries
        → All (HasRow catalogue.now.rows) entries
        → OnOk result (IsReady gs catalogue.now manifests.new.items) }
    ensures changes { (files : List Filed)
        → ((held : Stores) → Has D.tells (loaded D.Disk catalogue.now manifests.old.items disk.old) held
        → CanList place D.tells (loaded D.Disk catalogue.now manifests.old.items disk.old) changes.now held
        (put_all (list_at place held) files))
        → Changes D.tells (publishing place files) (loaded D.Disk catalogue.now manifests.old.items disk.old)
        (loaded D.Disk catalogue.now manifests.new.items disk.new) (end_of_disk result) }
    ensures spares { IsTrue D.tells → ChangesJournals D.Disk disk.old disk.new }
    ensures faults { D.faults disk.old ≤ D.faults disk.new }
    ensures cause { IsErrOf result DiskErr.Fault → Rose (D.faults disk.old) (D.faults disk.new) }
{
    relist(disk, &mut manifests[place], changes)
}
