// `status` and `check`: what the stores hold.
ghost use Rattle.std.specs.Prelude.{◌≡◌, ◌≤◌, ℕ, List, Option, IsTrue};
ghost use Rattle.disk_model.specs.Files.{Rose as DiskRose};
ghost use Rattle.disk_model.specs.Past.{Passes};
ghost use Rattle.edge_io.specs.Stream.{Rose};
ghost use Rattle.tier_store.specs.Change.{Has};
ghost use Rattle.tier_store.specs.Seen.{seen};
ghost use Rattle.tier_store.specs.Stores.{Stores};
ghost use Rattle.store_reopen.specs.Reopen.{IsUnopened, lists_of};
ghost use Rattle.store_reports.specs.Status.{status_text};
ghost use Rattle.archiver_appliance.specs.Judging.{IsOfOpened};
ghost use Rattle.archiver_appliance.specs.Outside.{IsCausedBy};
ghost use Rattle.archiver_appliance.specs.Reporting.{ChecksAll, Tells, TellsListed, checked_file, checked_status};
ghost use Rattle.archiver_appliance.specs.Reporting.{reported_status};
ghost use Rattle.archiver_appliance.specs.Run.{EndsAs, NoDamage};
ghost use Rattle.command_words.specs.declared.command.StoreCommand.TheVariants as asked;

use crate::opened::Came;
use command_words::Status;
use disk_model::{Disk, ReadAt};
use edge_io::Sink;
use std::alloc::Global;
use store_reports::{CheckErr, Damage, StatusErr, check, status};
use tier_store::TierStore;

/// Writes one line for each row.
pub fn tell_rows<K: Sink, D: Disk>(alloc: Global, mut store: TierStore<D>, sink: &mut K) -> Came<D>
    requires has { (held : Stores) × Has D.tells (seen D.Disk store) held }
    ensures held { (held : Stores) → Has D.tells (seen D.Disk store) held → IsTrue held.stands → IsTrue D.tells
        → Tells (status_text held) (K.written sink.old) (K.written sink.new) result.status }
    ensures listed { TellsListed store.catalogue.rows (lists_of store.manifests.items 0)
        (lists_of store.manifests.items 1) (lists_of store.manifests.items 2)
        (K.written sink.old) (K.written sink.new) result.status }
    ensures ends { (input : Option (List ℕ)) → EndsAs asked.Status input result.status }
    ensures files { IsTrue D.tells → D.files result.disk ≡ D.files store.disk }
    ensures any_moment { IsTrue D.tells → Passes (λ a b. b ≡ a) (D.past store.disk) (D.past result.disk) }
    ensures caused { IsCausedBy D.Reader.faults ⊥ (Rose (K.write_faults sink.old) (K.write_faults sink.new))
        (DiskRose (D.faults store.disk) (D.faults result.disk)) result.status result.failed }
    ensures write_faults { K.write_faults sink.old ≤ K.write_faults sink.new }
    ensures disk_faults { D.faults store.disk ≤ D.faults result.disk }
    ensures unopened { IsTrue D.tells → IsUnopened (D.files result.disk) (D.opened result.disk) }
{
    let reported = status(alloc, &mut store, sink);
    Came {
        status: reported_status(reported),
        disk: store.into_disk(),
        failed: None,
    }
}

/// Reads every listed file, and writes one line for each.
pub fn tell_files<K: Sink, D: Disk>(alloc: Global, mut store: TierStore<D>, sink: &mut K) -> Came<D>
    requires has { (held : Stores) × Has D.tells (seen D.Disk store) held }
    ensures held { (held : Stores) → Has D.tells (seen D.Disk store) held → IsTrue held.stands → IsTrue D.tells
        → NoDamage result.status }
    ensures checks { IsTrue D.tells → ChecksAll store.catalogue.rows (D.files store.disk)
        (lists_of store.manifests.items 0) (lists_of store.manifests.items 1) (lists_of store.manifests.items 2)
        (K.written sink.old) (K.written sink.new) result.status }
    ensures opened { IsOfOpened result.status }
    ensures ends { (input : Option (List ℕ)) → EndsAs asked.Check input result.status }
    ensures files { IsTrue D.tells → D.files result.disk ≡ D.files store.disk }
    ensures any_moment { IsTrue D.tells → Passes (λ a b. b ≡ a) (D.past store.disk) (D.past result.disk) }
    ensures caused { IsCausedBy D.Reader.faults ⊥ (Rose (K.write_faults sink.old) (K.write_faults sink.new))
        (DiskRose (D.faults store.disk) (D.faults result.disk)) result.status result.failed }
    ensures write_faults { K.write_faults sink.old ≤ K.write_faults sink.new }
    ensures disk_faults { D.faults store.disk ≤ D.faults result.disk }
    ensures unopened { IsTrue D.tells → IsUnopened (D.files result.disk) (D.opened result.disk) }
{
    let checked = check(alloc, &mut store, sink);
    let (status, failed) = checked_status(checked);
    Came {
        status,
        disk: store.into_disk(),
        failed,
    }
}

// The status of what a report of the rows came to.
fn reported_status(reported: Result<(), StatusErr>) -> Status
    ensures { result ≡ reported_status reported }
{
    match reported {
        Ok(()) => Status::Done,
        Err(StatusErr::SinkFault) => Status::SinkFault,
        Err(StatusErr::DiskFault) => Status::DiskFault,
        Err(StatusErr::OutOfMemory) => Status::OutOfMemory,
    }
}

// The status of what a check came to, and the file of which a read failed.
fn checked_status<R: ReadAt>(checked: Result<Option<Damage>, CheckErr<R>>) -> (Status, Option<R>)
    ensures status { result.0 ≡ checked_status checked }
    ensures file { result.1 ≡ checked_file checked }
{
    match checked {
        Ok(None) => (Status::Done, None),
        Ok(Some(Damage { name, at })) => (Status::Damaged { name, at }, None),
        Err(CheckErr::SinkFault) => (Status::SinkFault, None),
        Err(CheckErr::DiskFault) => (Status::DiskFault, None),
        Err(CheckErr::ReadFault { file }) => (Status::DiskFault, Some(file)),
        Err(CheckErr::OutOfMemory) => (Status::OutOfMemory, None),
    }
}
