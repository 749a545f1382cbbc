// The commands over the archive.
ghost use Rattle.std.specs.FinMap as map;
ghost use Rattle.std.specs.Prelude.{◌≡◌, ◌≤◌, ◌<◌, ◌^◌, [], IfErr, IfOk, IsTrue, None, false, length, true};
ghost use Rattle.store_reopen.specs.Adoption.{NoneFiner, NoneFoundOpened};
ghost use Rattle.store_reopen.specs.NotOpened.{IsCauseOf};
ghost use Rattle.store_reopen.specs.Reopen.{IsOpenedAs, IsSwept, IsUnopened, disk_in, disk_of, stores_of};
ghost use Rattle.tier_store.specs.Seen.{seen};
ghost use Rattle.archiver_appliance.specs.Judging.{refusal_of};
ghost use Rattle.archiver_appliance.specs.Run.{IsReading, IsReport};
ghost use Rattle.archiver_appliance.specs.Run.{OnlyOpens, OnlyReads};
ghost use Rattle.command_words.specs.declared.command.Command.TheVariants.{OverStore};
ghost use Rattle.command_words.specs.declared.command.StoreCommand.TheVariants as asked;
ghost use Rattle.archiver_appliance.specs.Obeying.{CarriesOut};
ghost use Rattle.archiver_appliance.specs.World.{world};

use crate::adopting::adopt_found;
use crate::ingesting::ingest_into;
use crate::moving::move_due;
use crate::reporting::{tell_files, tell_rows};
use crate::retrieving::get_from;
use crate::service_run::serve_posts;
use command_words::{Status, StoreCommand};
use disk_model::Disk;
use edge_io::{Clock, Door, Sink, Source};
use etl_rules::Config;
use service::Post;
use service_watch::Logged;
use std::alloc::Global;
use std::sync::Wait;
use std::thread::Threads;
use store_reopen::laws::one_verdict;
use store_reopen::{ReopenErr, open_to_read, reopen};
use tier_store::TierStore;

/// What a command over the archive came to.
#[derive(Drop)]
pub struct Came<D: Disk> {
    pub status: Status,
    /// The disk that was handed in.
    pub disk: D,
    /// An opened file of which a read failed.
    pub failed: Option<D::Reader>,
}

/// What a command comes to for which no archive could be made of the stores: memory is wanting.
pub fn out_of_memory<D: Disk>(store: TierStore<D>) -> Came<D>
    ensures status { result.status ≡ Status.OutOfMemory }
    ensures disk { result.disk ≡ store.disk }
    ensures failed { result.failed ≡ None }
{
    Came {
        status: Status::OutOfMemory,
        disk: store.into_disk(),
        failed: None,
    }
}

/// Opens the disk as three stores, and does what is asked of them. `adopt` opens it by itself.
pub fn over_archive<
    R: Threads + Wait + Sync,
    S: Source,
    K: Sink,
    D: Disk + Send,
    C: Clock + Drop + Send,
    W: Door + Logged + Send,
>(
    rt: &R,
    alloc: Global,
    config: &Config,
    command: StoreCommand<'_>,
    source: &mut S,
    sink: &mut K,
    disk: D,
    clock: &mut C,
    posts: &mut [Post<W>],
) -> Came<D>
where
    D::Reader: Send,
    W::L: Send,
    requires few { length posts.old < 2 ^ 32 }
    requires unopened { IsTrue D.tells → IsUnopened (D.files disk) (D.opened disk) }
    requires found { command ≡ asked.Adopt → IsTrue D.tells
        → NoneFoundOpened (stores_of config.now) (D.files disk) (D.opened disk) }
    requires coarse { command ≡ asked.Adopt → NoneFiner config.now }
    ensures { CarriesOut S.Source K.Sink D.Disk C.Clock D.Reader.ReadAt W.L.Source W.L.Sink W.Door config.now
        (world source.old sink.old disk clock.old posts.old)
        (world source.new sink.new result.disk clock.new posts.new) (OverStore command.entry) result.status
        result.failed }
{
    one_verdict();
    if let StoreCommand::Adopt = command {
        return adopt_found(alloc, config, disk, sink);
    }
    match opened(alloc, disk, config, &command) {
        Err(err) => refused(err),
        Ok(store) => match command {
            StoreCommand::Ingest => ingest_into(rt, alloc, store, source, clock),
            StoreCommand::Get { name, query } => get_from(alloc, store, name, query, sink),
            StoreCommand::Etl => move_due(rt, alloc, store, sink, clock),
            StoreCommand::Status => tell_rows(alloc, store, sink),
            StoreCommand::Check => tell_files(alloc, store, sink),
            StoreCommand::Serve(_) => serve_posts(rt, alloc, store, posts, clock),
            StoreCommand::Adopt => unreachable!(),
        },
    }
}

// Opens the disk for a command: as it is for one that only reads, and without strays for one that acts.
fn opened<D: Disk>(
    alloc: Global,
    disk: D,
    config: &Config,
    command: &StoreCommand<'_>,
) -> Result<TierStore<D>, ReopenErr<D>>
    requires unopened { IsTrue D.tells → IsUnopened (D.files disk) (D.opened disk) }
    ensures opened { IfOk result (λ s. IsOpenedAs D.Disk (stores_of config.now) disk (seen D.Disk s)) }
    ensures fresh { IfOk result (λ s. (s.limbo.items ≡ []) × (s.pinned ≡ map.empty)) }
    ensures settings { IfOk result (λ s. s.config ≡ config.now) }
    ensures told { IfErr result (IsCauseOf D.Disk (stores_of config.now) disk) }
    ensures opens { IsTrue D.tells → OnlyOpens (stores_of config.now) (D.files disk) (D.files (disk_of result))
        (D.past disk) (D.past (disk_of result)) }
    ensures swept { IsTrue D.tells → (IsReport command.now → ⊥)
        → IfOk result (λ s. IsSwept (stores_of config.now) (D.files disk) (D.files s.disk) (D.past s.disk)) }
    ensures reads { IsTrue D.tells → IsReading (stores_of config.now) command.now (D.files disk)
        → OnlyReads (stores_of config.now) (D.files disk) (D.files (disk_of result))
        (D.past disk) (D.past (disk_of result)) }
    ensures unopened { IsTrue D.tells → IsUnopened (D.files (disk_of result)) (D.opened (disk_of result)) }
    ensures faults { D.faults disk ≤ D.faults (disk_of result) }
{
    if only_reads(command) {
        open_to_read(alloc, disk, config)
    } else {
        reopen(alloc, disk, config)
    }
}

// Whether it writes what a disk holds, and nothing else.
fn only_reads(command: &StoreCommand<'_>) -> bool
    ensures reads { result ≡ true → IsReport command.now }
    ensures acts { result ≡ false → IsReport command.now → ⊥ }
{
    match command {
        StoreCommand::Get { .. } => true,
        StoreCommand::Status => true,
        StoreCommand::Check => true,
        StoreCommand::Ingest => false,
        StoreCommand::Etl => false,
        StoreCommand::Serve(_) => false,
        StoreCommand::Adopt => false,
    }
}

/// What a disk that isn't opened comes to.
pub fn refused<D: Disk>(err: ReopenErr<D>) -> Came<D>
    ensures status { result.status ≡ refusal_of err }
    ensures disk { result.disk ≡ disk_in err }
    ensures failed { result.failed ≡ None }
{
    match err {
        ReopenErr::DiskFault(disk) => Came {
            status: Status::DiskFault,
            disk,
            failed: None,
        },
        ReopenErr::Damaged { disk, name, at } => Came {
            status: Status::Damaged { name, at },
            disk,
            failed: None,
        },
        ReopenErr::GranularityDiffers { disk, kept, asked } => Came {
            status: Status::GranularityDiffers { kept, asked },
            disk,
            failed: None,
        },
        ReopenErr::Memory(disk) => Came {
            status: Status::OutOfMemory,
            disk,
            failed: None,
        },
    }
}
