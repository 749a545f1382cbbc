// `get`: the answer of a variable.
ghost use Rattle.std.specs.Prelude.{◌≡◌, ◌≤◌, ◌⊎◌, ℕ, List, Option, IsTrue};
ghost use Rattle.disk_model.specs.Files.{Rose as DiskRose};
ghost use Rattle.edge_io.specs.Stream.{Rose};
ghost use Rattle.tier_store.specs.Change.{Has};
ghost use Rattle.tier_store.specs.Seen.{seen};
ghost use Rattle.tier_store.specs.Stores.{Stores};
ghost use Rattle.store_reopen.specs.Reopen.{lists_of};
ghost use Rattle.act_model.specs.Machine.{Machine};
ghost use Rattle.archive_core.specs.Parts.{parts};
ghost use Rattle.archive_core.specs.Stands.{Stands};
ghost use Rattle.archiver_appliance.specs.Acting.{IsFresh, IsNotMade};
ghost use Rattle.archiver_appliance.specs.Judging.{IsOfOpened};
ghost use Rattle.archiver_appliance.specs.Getting.{FindsName, GetsListed, LeavesAsRead};
ghost use Rattle.archiver_appliance.specs.Run.{EndsAs};
ghost use Rattle.command_words.specs.declared.command.StoreCommand.TheVariants as asked;
ghost use Rattle.archiver_appliance.specs.Outside.{HasNotFallen, IsCausedBy};
ghost use Rattle.archiver_appliance.specs.Retrieving.{GetsSome, IsRetrieved, ReadsPinAt, Retrieves, RetrievesFrom};

use crate::opened::{Came, out_of_memory};
use act_model::laws::soundness_stays;
use archive_actors::Alone;
use archive_core::Archive;
use command_words::Status;
use disk_model::{Disk, ReadAt};
use edge_io::Sink;
use retrieval_query::{RawOut, Retrieved, retrieve};
use series_model::Query;
use std::alloc::Global;
use tier_store::TierStore;

/// Opens an archive on the stores, and writes the raw text of a variable's answer.
pub fn get_from<K: Sink, D: Disk>(
    alloc: Global,
    store: TierStore<D>,
    name: &str,
    query: Query,
    sink: &mut K,
) -> Came<D>
    requires fresh { IsFresh D.Disk store }
    ensures retrieves { (IsNotMade store.disk result.disk result.status × (sink.new ≡ sink.old))
        ⊎ ((held : Stores) → Has D.tells (seen D.Disk store) held
        → RetrievesFrom (λ image. ⊥) D.tells store.config held name.now query (K.written sink.old) (K.written sink.new)
        (D.past store.disk) (D.past result.disk) result.status) }
    ensures some { GetsSome store.catalogue.rows name.now query
        (K.written sink.old) (K.written sink.new) result.status }
    ensures listed { IsTrue D.tells → GetsListed (D.files store.disk) store.catalogue.rows
        (lists_of store.manifests.items) name.now query (K.written sink.old) (K.written sink.new) result.status }
    ensures found { FindsName store.catalogue.rows name.now sink.old sink.new result.status }
    ensures left { IsTrue D.tells → LeavesAsRead D.Disk store.disk result.disk }
    ensures opened { IsOfOpened result.status }
    ensures ends { (input : Option (List ℕ)) → EndsAs (asked.Get name.entry query) input result.status }
    ensures caused { IsCausedBy D.Reader.faults ⊥ (Rose (K.write_faults sink.old) (K.write_faults sink.new))
        (DiskRose (D.faults store.disk) (D.faults result.disk)) result.status result.failed }
    ensures write_faults { K.write_faults sink.old ≤ K.write_faults sink.new }
    ensures disk_faults { HasNotFallen (D.faults store.disk) (D.faults result.disk) }
{
    soundness_stays();
    let mut archive = match Archive::of(alloc, store, 0) {
        Ok(archive) => archive,
        Err(store) => return out_of_memory(store),
    };
    let got = get_alone(alloc, &mut archive, name.as_bytes(), query, sink);
    let (status, failed) = got_status(got);
    Came {
        status,
        disk: archive.into_store().into_disk(),
        failed,
    }
}

// Writes the answer from an archive on which nobody else acts.
fn get_alone<K: Sink, D: Disk>(
    alloc: Global,
    archive: &mut Archive<D>,
    name: &[u8],
    query: Query,
    sink: &mut K,
) -> Retrieved<D::Reader>
    requires stands { (m : Machine) × Stands D.tells (parts D.Disk archive.old) m }
    ensures retrieves { Retrieves D.Disk D.Reader.tells D.Reader.faults
        (Rose (K.write_faults sink.old) (K.write_faults sink.new)) archive.old name.now query
        (K.written sink.old) (K.written sink.new) result archive.new }
    ensures read { IsTrue D.Reader.tells
        → ReadsPinAt D.Disk archive.old name.now query (K.written sink.old) (K.written sink.new) result archive.new }
    ensures not_spent { result ≡ Retrieved.Spent → ⊥ }
    ensures untouched { result ≡ Retrieved.NoSuchVariable → sink.new ≡ sink.old }
    ensures write_faults { K.write_faults sink.old ≤ K.write_faults sink.new }
{
    let mut actor = Alone::new(archive, 0);
    let mut out = RawOut::new(alloc, sink);
    let got = retrieve(alloc, &mut actor, name, query, &mut out);
    let _sink = out.into_sink();
    got
}

// The status of what a retrieval came to, and the file of which a read failed.
fn got_status<R: ReadAt>(got: Retrieved<R>) -> (Status, Option<R>)
    requires not_spent { got ≡ Retrieved.Spent → ⊥ }
    ensures { IsRetrieved got result.0 result.1 }
{
    match got {
        Retrieved::Finished { .. } => (Status::Done, None),
        Retrieved::NoSuchVariable => (Status::NoSuchVariable, None),
        Retrieved::ReadFault { failed } => (Status::DiskFault, failed),
        Retrieved::Damaged { name, at } => (Status::Damaged { name, at }, None),
        Retrieved::SinkFault => (Status::SinkFault, None),
        Retrieved::Spent => unreachable!(),
        Retrieved::Memory => (Status::OutOfMemory, None),
    }
}
