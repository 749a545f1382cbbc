// `ingest`: a stream is brought into the archive.
ghost use Rattle.std.specs.Prelude.{◌≡◌, ◌≤◌, ◌<◌, ◌+◌, ◌⊎◌, ℕ, List, IsTrue, true, Some, slice_get};
ghost use Rattle.edge_io.specs.Stream.{Rose};
ghost use Rattle.disk_model.specs.Files.{Rose as DiskRose};
ghost use Rattle.store_manifest.specs.Manifest.{ManifestState};
ghost use Rattle.durable_write.specs.Writing.{LeavesListed};
ghost use Rattle.tier_store.specs.Change.{Has};
ghost use Rattle.tier_store.specs.Seen.{seen};
ghost use Rattle.tier_store.specs.Stores.{Stores};
ghost use Rattle.store_reopen.specs.Reopen.{IsUnopened};
ghost use Rattle.act_model.specs.History.{Done};
ghost use Rattle.act_model.specs.Machine.{Machine};
ghost use Rattle.archive_core.specs.Parts.{parts};
ghost use Rattle.archive_core.specs.Stands.{Stands};
ghost use Rattle.feed_session.specs.Session.{Session, TakenItem};
ghost use Rattle.archiver_appliance.specs.Acting.{ActsAlone, IsFresh, IsNotMade};
ghost use Rattle.archiver_appliance.specs.Ingesting.{IngestsInto, IsIngested};
ghost use Rattle.archiver_appliance.specs.Judging.{IsOfOpened};
ghost use Rattle.archiver_appliance.specs.Run.{EndsAs, NoDamage};
ghost use Rattle.command_words.specs.declared.command.StoreCommand.TheVariants as asked;
ghost use Rattle.archiver_appliance.specs.Outside.{HasNotFallen, IsCausedBy};

use crate::opened::{Came, out_of_memory};
use act_model::laws::soundness_stays;
use archive_actors::Alone;
use archive_core::Archive;
use command_words::Status;
use disk_model::Disk;
use edge_io::{Clock, Source};
use feed_session::{Fed, ingest};
use std::alloc::Global;
use std::sync::Wait;
use tier_store::TierStore;

/// Opens an archive on the stores, and brings the source's stream into it.
pub fn ingest_into<S: Source, D: Disk, C: Clock>(
    rt: &impl Wait,
    alloc: Global,
    store: TierStore<D>,
    source: &mut S,
    clock: &mut C,
) -> Came<D>
    requires fresh { IsFresh D.Disk store }
    ensures ingests { (IsNotMade store.disk result.disk result.status
        × (source.new ≡ source.old) × (clock.new ≡ clock.old))
        ⊎ ((held : Stores) → Has D.tells (seen D.Disk store) held
        → IngestsInto (λ image. ⊥) D.tells store.config held (S.left source.old)
        (C.coming clock.old) (C.coming clock.new) (D.past store.disk) (D.past result.disk) result.status) }
    ensures lists { IsTrue D.tells → (i : ℕ) (m : ManifestState) → slice_get store.manifests.items i ≡ Some m
        → LeavesListed ((i + 1, store.catalogue.rows), m.entries) (D.files store.disk) (D.files result.disk)
        (D.past store.disk) (D.past result.disk) }
    ensures opened { IsOfOpened result.status }
    ensures undamaged { NoDamage result.status }
    ensures ends { EndsAs asked.Ingest (S.left source.old) result.status }
    ensures caused { IsCausedBy D.Reader.faults (Rose (S.read_faults source.old) (S.read_faults source.new)) ⊥
        (DiskRose (D.faults store.disk) (D.faults result.disk)) result.status result.failed }
    ensures read_faults { S.read_faults source.old ≤ S.read_faults source.new }
    ensures disk_faults { HasNotFallen (D.faults store.disk) (D.faults result.disk) }
    ensures unopened { IsTrue D.tells → IsUnopened (D.files result.disk) (D.opened result.disk) }
{
    soundness_stays();
    let mut archive = match Archive::of(alloc, store, 0) {
        Ok(archive) => archive,
        Err(store) => return out_of_memory(store),
    };
    let fed = ingest_alone(rt, alloc, &mut archive, source, clock);
    Came {
        status: ingested_status(fed),
        disk: archive.into_store().into_disk(),
        failed: None,
    }
}

// Brings the stream into an archive on which nobody else acts.
fn ingest_alone<S: Source, D: Disk, C: Clock>(
    rt: &impl Wait,
    alloc: Global,
    archive: &mut Archive<D>,
    source: &mut S,
    clock: &mut C,
) -> Fed
    requires stands { (m : Machine) × Stands D.tells (parts D.Disk archive.old) m }
    ensures session { (taken : List TakenItem) × (done : List Done)
        × Session true result taken (S.left source.old) (C.coming clock.old) (C.coming clock.new) done
        × ActsAlone D.Disk archive.old done archive.new }
    ensures not_spent { result ≡ Fed.Spent → ⊥ }
    ensures read_faults { S.read_faults source.old ≤ S.read_faults source.new }
    ensures peer_fault { result ≡ Fed.PeerFault → Rose (S.read_faults source.old) (S.read_faults source.new) }
{
    let mut actor = Alone::new(archive, 0);
    ingest(rt, alloc, &mut actor, source, clock)
}

// The status of what an ingest came to.
fn ingested_status(fed: Fed) -> Status
    requires not_spent { fed ≡ Fed.Spent → ⊥ }
    ensures { IsIngested fed result }
{
    match fed {
        Fed::Fed { .. } => Status::Done,
        Fed::Refused { line, fault } => Status::Refused { line, fault },
        Fed::PeerFault => Status::SourceFault,
        Fed::DiskFault => Status::DiskFault,
        Fed::Spent => unreachable!(),
        Fed::Memory => Status::OutOfMemory,
    }
}
