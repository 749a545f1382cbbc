// `drill N`: the stated workload over a disk, links and clocks in memory.
ghost use Rattle.std.specs.Prelude.{◌≡◌, ◌≤◌, ◌<◌, ◌∷◌, [], ℕ, List, IsTrue, IfOk, OnOk, IsErrOf};
ghost use Rattle.edge_io.specs.Stream.{Rose};
ghost use Rattle.drill_feed.specs.Feeds.{feed_door};
ghost use Rattle.tier_store.specs.Change.{Has};
ghost use Rattle.tier_store.specs.Seen.{seen};
ghost use Rattle.tier_store.specs.Stores.{Stores};
ghost use Rattle.store_reopen.specs.Reopen.{IsUnopened, stores_of};
ghost use Rattle.act_model.specs.History.{Done};
ghost use Rattle.act_model.specs.Machine.{Machine};
ghost use Rattle.archive_core.specs.Parts.{parts};
ghost use Rattle.archive_core.specs.Stands.{Stands};
ghost use Rattle.serving.specs.declared.due.DueMoved.{DueMoved};
ghost use Rattle.serving.specs.Due.{MovesAll};
ghost use Rattle.service.specs.declared.served.Kind.TheVariants.{Feed};
ghost use Rattle.archiver_appliance.specs.Acting.{ActsAlone, IsFresh};
ghost use Rattle.archiver_appliance.specs.Drilling.{AreFed, Drills, HasRegistered, IsBegunWith, IsDrillText, OfHeld};
ghost use Rattle.archiver_appliance.specs.Drilling.{OpensWell, WereSpent, nothing_held, registers, shipped, unmoving};

use crate::drill_report::report;
use crate::service_run::serve_archive;
use act_model::{Registered, ask_register};
use archive_actors::Alone;
use archive_core::Archive;
use command_words::Status;
use disk_model::{Disk, MemDisk};
use drill_feed::{DOORS, Drill, VARIABLES, about, name_of};
use edge_io::{ListDoor, MemLink, Sink, write_whole};
use etl_rules::Config;
use partition_names::Granularity;
use pv_name::PvName;
use service::{Kind, Post};
use service_watch::Log;
use serving::move_all_due;
use std::alloc::{AllocError, Global};
use std::sync::Wait;
use std::thread::Threads;
use store_reopen::laws::an_empty_disk_holds_nothing;
use store_reopen::reopen;
use tier_store::TierStore;

/// What a drill lacks. One who acts alone never lacks acts, so only the service of the feeds does.
#[derive(Drop)]
pub enum Lack {
    /// Acts.
    Acts,
    /// Memory. The disk and the doors are the drill's own, so a fault of theirs is a lack of memory too.
    Memory,
}

impl From<AllocError> for Lack {
    ghost use Rattle.archiver_appliance.specs.declared.drilling.Lack.TheVariants.{Memory};

    ghost from_gives = { λ _ e. e ≡ Memory };

    fn from(_err: AllocError) -> Lack {
        Lack::Memory
    }
}

/// Serves the feeds of the drill on an archive in memory, opens it again, moves what is due, and writes what it holds
/// then: a line for each variable, and one for the files. Nothing is written before all of it is known.
pub fn run_drill<R: Threads + Wait + Sync, K: Sink>(
    rt: &R,
    alloc: Global,
    drill: Drill,
    sink: &mut K,
) -> Status
    ensures drills { Drills drill.hours (K.written sink.old) (K.written sink.new) result }
    ensures failed { result ≡ Status.SinkFault → Rose (K.write_faults sink.old) (K.write_faults sink.new) }
    ensures faults { K.write_faults sink.old ≤ K.write_faults sink.new }
{
    match drilled(rt, alloc, drill) {
        Ok(text) => match write_whole(sink, &text) {
            Ok(()) => Status::Done,
            Err(_) => Status::SinkFault,
        },
        Err(Lack::Acts) => Status::Spent,
        Err(Lack::Memory) => Status::OutOfMemory,
    }
}

// The text of the drill, over a disk in memory.
fn drilled<R: Threads + Wait + Sync>(rt: &R, alloc: Global, drill: Drill) -> Result<Vec<u8>, Lack>
    ensures text { IfOk result (λ text. IsDrillText drill.hours nothing_held text.items) }
    ensures spent { IsErrOf result Lack.Acts → WereSpent drill.hours nothing_held }
{
    an_empty_disk_holds_nothing();
    drill_on(rt, alloc, drill, MemDisk::new(alloc, &[], None)?)
}

// The text of the drill, over a disk.
fn drill_on<R: Threads + Wait + Sync, D: Disk + Send>(
    rt: &R,
    alloc: Global,
    drill: Drill,
    disk: D,
) -> Result<Vec<u8>, Lack>
where
    D::Reader: Send,
    requires told { IsTrue D.tells }
    requires unopened { IsTrue D.tells → IsUnopened (D.files disk) (D.opened disk) }
    requires opens { OpensWell (stores_of shipped) (D.past disk) }
    ensures text { IfOk result (λ text.
        OfHeld (stores_of shipped) (D.past disk) (λ held. IsDrillText drill.hours held text.items)) }
    ensures spent { IsErrOf result Lack.Acts → OfHeld (stores_of shipped) (D.past disk) (WereSpent drill.hours) }
{
    let disk = served(rt, alloc, drill, disk)?;
    let mut archive = opened(alloc, disk, &Config::shipped(), 0)?;
    moved(rt, &mut archive, drill.now())?;
    Ok(report(alloc, &mut archive, drill)?)
}

// The disk once the feeds were served on it.
fn served<R: Threads + Wait + Sync, D: Disk + Send>(
    rt: &R,
    alloc: Global,
    drill: Drill,
    disk: D,
) -> Result<D, Lack>
where
    D::Reader: Send,
    requires unopened { IsTrue D.tells → IsUnopened (D.files disk) (D.opened disk) }
    requires opens { IsTrue D.tells → OpensWell (stores_of shipped) (D.past disk) }
    ensures unopened { IfOk result (λ left. IsTrue D.tells → IsUnopened (D.files left) (D.opened left)) }
    ensures fed { IfOk result (λ left. IsTrue D.tells
        → OfHeld (stores_of shipped) (D.past disk) (λ held. AreFed drill.hours held (D.past left))) }
    ensures spent { IsErrOf result Lack.Acts → IsTrue D.tells
        → OfHeld (stores_of shipped) (D.past disk) (WereSpent drill.hours) }
{
    let mut posts = [post(alloc, drill, 0)?, post(alloc, drill, 1)?];
    let mut clock = drill.clock(alloc)?;
    let archive = begun(alloc, disk)?;
    let Ok((told, archive)) = serve_archive(
        rt,
        alloc,
        archive,
        &mut posts,
        &mut clock,
        &Log::none(),
    ) else {
        return Err(Lack::Memory);
    };
    if told.spent {
        return Err(Lack::Acts);
    }
    if told.memory || told.disk_fault || told.door_faults > 0 {
        return Err(Lack::Memory);
    }
    Ok(archive.into_store().into_disk())
}

// The archive with the four variables, in which nothing moves by itself.
fn begun<D: Disk>(alloc: Global, disk: D) -> Result<Archive<D>, AllocError>
    requires unopened { IsTrue D.tells → IsUnopened (D.files disk) (D.opened disk) }
    requires opens { IsTrue D.tells → OpensWell (stores_of shipped) (D.past disk) }
    ensures stands { IfOk result (λ archive. (m : Machine) × Stands D.tells (parts D.Disk archive) m) }
    ensures begun { IfOk result (λ archive. IsTrue D.tells
        → OfHeld (stores_of shipped) (D.past disk) (λ held. (m : Machine) × Stands D.tells (parts D.Disk archive) m
        × HasRegistered D.tells held 4 m)) }
{
    let mut archive = opened(alloc, disk, &unmoving(), DOORS)?;
    for variable in 0..VARIABLES {
        register(alloc, &mut archive, variable)?;
    }
    Ok(archive)
}

// The shipped settings but for these: no mover finds so many partitions that a move is due.
fn unmoving() -> Config
    ensures { result ≡ unmoving }
{
    let granularity = [Granularity::Hour, Granularity::Day, Granularity::Year];
    match Config::new(granularity, [u32::MAX, u32::MAX], [3, 1]) {
        Some(config) => config,
        None => unreachable!(),
    }
}

// An archive on what the disk holds, which stands where the disk tells it.
fn opened<D: Disk>(
    alloc: Global,
    disk: D,
    config: &Config,
    doors: u32,
) -> Result<Archive<D>, AllocError>
    requires unopened { IsTrue D.tells → IsUnopened (D.files disk) (D.opened disk) }
    requires opens { IsTrue D.tells → OpensWell (stores_of config.now) (D.past disk) }
    ensures stands { IfOk result (λ archive. (m : Machine) × Stands D.tells (parts D.Disk archive) m) }
    ensures begun { IfOk result (λ archive. IsTrue D.tells
        → OfHeld (stores_of config.now) (D.past disk) (λ held. IsBegunWith D.Disk config.now held doors archive)) }
{
    match reopen(alloc, disk, config) {
        Ok(store) => on_stores(alloc, store, doors),
        Err(_) => Err(AllocError),
    }
}

// An archive on stores that were just opened.
fn on_stores<D: Disk>(
    alloc: Global,
    store: TierStore<D>,
    doors: u32,
) -> Result<Archive<D>, AllocError>
    requires fresh { IsFresh D.Disk store }
    ensures { IfOk result (λ archive. (held : Stores) → Has D.tells (seen D.Disk store) held
        → IsBegunWith D.Disk store.config held doors archive) }
{
    match Archive::of(alloc, store, doors) {
        Ok(archive) => Ok(archive),
        Err(_) => Err(AllocError),
    }
}

fn register<D: Disk>(
    alloc: Global,
    archive: &mut Archive<D>,
    variable: u32,
) -> Result<(), AllocError>
    requires known { variable < VARIABLES }
    requires stands { (m : Machine) × Stands D.tells (parts D.Disk archive.old) m }
    ensures { OnOk result ((row : ℕ) × ActsAlone D.Disk archive.old (registers variable row ∷ []) archive.new) }
{
    let Ok(name) = PvName::new(alloc, name_of(variable).as_bytes()) else {
        return Err(AllocError);
    };
    let mut actor = Alone::new(archive, 0);
    match ask_register(&mut actor, name, about(alloc)) {
        Ok(Registered::Registered { .. }) => Ok(()),
        _ => Err(AllocError),
    }
}

fn post(alloc: Global, drill: Drill, door: u32) -> Result<Post<ListDoor<MemLink>>, AllocError>
    requires known { door < DOORS }
    ensures { IfOk result (λ post. post ≡ record { kind = Feed; door = feed_door drill.hours door }) }
{
    Ok(Post {
        kind: Kind::Feed,
        door: drill.door(alloc, door)?,
    })
}

// Moves all that is due.
fn moved<D: Disk>(rt: &impl Wait, archive: &mut Archive<D>, now: u64) -> Result<(), AllocError>
    requires stands { (m : Machine) × Stands D.tells (parts D.Disk archive.old) m }
    ensures { OnOk result ((done : List Done) × (moved : DueMoved) × MovesAll now moved done
        × ActsAlone D.Disk archive.old done archive.new) }
{
    let mut actor = Alone::new(archive, 0);
    match move_all_due(rt, &mut actor, now) {
        Ok(_) => Ok(()),
        Err(_) => Err(AllocError),
    }
}
