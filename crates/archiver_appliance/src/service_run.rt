// `serve`: many feeds and clients at once on an archive, beside one who flushes and one who moves.
ghost use Rattle.std.specs.Prelude.{◌≡◌, ◌<◌, ◌^◌, ◌⊎◌, [], ℕ, List, Bool, Option, IfOk, IfErr, length, IsTrue};
ghost use Rattle.edge_io.specs.Moments.{Gives};
ghost use Rattle.disk_model.specs.Files.{Rose as DiskRose};
ghost use Rattle.tier_store.specs.Change.{Has};
ghost use Rattle.tier_store.specs.Seen.{seen};
ghost use Rattle.tier_store.specs.Stores.{Stores};
ghost use Rattle.store_reopen.specs.Reopen.{IsUnopened};
ghost use Rattle.turn_rooms.specs.Passes.{Opens, opened};
ghost use Rattle.act_model.specs.Machine.{Machine};
ghost use Rattle.act_model.specs.Reply.{reply_of};
ghost use Rattle.archive_core.specs.Parts.{parts};
ghost use Rattle.archive_core.specs.Stands.{Stands};
ghost use Rattle.service.specs.Doors.{IsServed};
ghost use Rattle.archiver_appliance.specs.Acting.{IsFresh, IsNotMade};
ghost use Rattle.archiver_appliance.specs.Judging.{IsOfOpened};
ghost use Rattle.archiver_appliance.specs.Outside.{HasNotFallen, IsCausedBy};
ghost use Rattle.archiver_appliance.specs.Run.{EndsAs, NoDamage};
ghost use Rattle.archiver_appliance.specs.Serving.{ArchiveStep, LeavesArchive, LeavesRoom, PostsLeft, ServesFrom};
ghost use Rattle.archiver_appliance.specs.Serving.{ServesPosts, status_of};
ghost use Rattle.archiver_appliance.specs.Sessions.{Given};
ghost use Rattle.command_words.specs.declared.command.StoreCommand.TheVariants as asked;
ghost use Rattle.command_words.specs.declared.service_words.ServeWords.{ServeWords as Numbers};

use crate::observed::Observed;
use crate::opened::{Came, out_of_memory};
use act_model::laws::soundness_stays;
use archive_actors::Shared;
use archive_core::Archive;
use command_words::Status;
use disk_model::Disk;
use edge_io::{Clock, Door};
use service::{AllServed, Post, serve_all};
use service_watch::{Log, Logged};
use std::alloc::Global;
use std::sync::Wait;
use std::thread::Threads;
use tier_store::TierStore;
use turn_rooms::{Pass, Rooms};

/// Opens an archive on the stores, with as many doors as there are posts; serves all posts on it to the ends of their
/// doors; and gives the disk back.
pub fn serve_posts<
    R: Threads + Wait + Sync,
    D: Disk + Send,
    C: Clock + Drop + Send,
    W: Door + Logged + Send,
>(rt: &R, alloc: Global, store: TierStore<D>, posts: &mut [Post<W>], clock: &mut C) -> Came<D>
where
    D::Reader: Send,
    W::L: Send,
    requires few { length posts.old < 2 ^ 32 }
    requires fresh { IsFresh D.Disk store }
    ensures serves { ServesPosts W.is_closed W.door_faults W.ledger
        (λ kind l. IsServed kind W.L.Sink.written W.L.Source.read_faults W.L.Sink.write_faults l)
        (IsNotMade store.disk result.disk result.status × (C.coming clock.new ≡ C.coming clock.old))
        (λ began told. (held : Stores) → Has D.tells (seen D.Disk store) held
        → ServesFrom (λ image. ⊥) D.tells store.config held (length posts.old) (λ start entries.
        Given start D.Reader.ReadAt W.L.Source W.L.Sink entries W.Door told posts.old posts.new)
        began told (D.past store.disk) (D.past result.disk)) result.status posts.old posts.new }
    ensures clock { Gives (C.coming clock.old) (C.coming clock.new) [] }
    ensures opened { IsOfOpened result.status }
    ensures undamaged { NoDamage result.status }
    ensures ends { (numbers : Numbers) (input : Option (List ℕ)) → EndsAs (asked.Serve numbers) input result.status }
    ensures caused { IsCausedBy D.Reader.faults ⊥ ⊥
        (DiskRose (D.faults store.disk) (D.faults result.disk)) result.status result.failed }
    ensures disk_faults { HasNotFallen (D.faults store.disk) (D.faults result.disk) }
    ensures unopened { IsTrue D.tells → IsUnopened (D.files result.disk) (D.opened result.disk) }
{
    soundness_stays();
    let archive = match Archive::of(alloc, store, posts.len() as u32) {
        Ok(archive) => archive,
        Err(store) => return out_of_memory(store),
    };
    let log = log_of(posts);
    match serve_archive(rt, alloc, archive, posts, clock, &log) {
        Ok((told, archive)) => Came {
            status: served_status(told),
            disk: archive.into_store().into_disk(),
            failed: None,
        },
        Err(archive) => out_of_memory(archive.into_store()),
    }
}

/// Serves all posts on an archive that has as many doors, to the ends of their doors, and hands in to `log` what is to
/// be told. `Err` comes for want of memory alone, and gives the archive back.
pub fn serve_archive<
    R: Threads + Wait + Sync,
    D: Disk + Send,
    C: Clock + Drop + Send,
    W: Door + Send,
>(
    rt: &R,
    alloc: Global,
    archive: Archive<D>,
    posts: &mut [Post<W>],
    clock: &mut C,
    log: &Log,
) -> Result<(AllServed, Archive<D>), Archive<D>>
where
    D::Reader: Send,
    W::L: Send,
    requires stands { (m : Machine) × Stands D.tells (parts D.Disk archive) m }
    requires few { length posts.old < 2 ^ 32 }
    ensures leaves { IfOk result (λ end. (began : Bool)
        × LeavesArchive D.Disk archive (length posts.old) (λ start entries.
        Given start D.Reader.ReadAt W.L.Source W.L.Sink entries W.Door end.0 posts.old posts.new) began end.0 end.1
        × PostsLeft W.is_closed W.door_faults W.ledger (λ kind l. IsServed kind
        W.L.Sink.written W.L.Source.read_faults W.L.Sink.write_faults l) began end.0 posts.old posts.new) }
    ensures clock { Gives (C.coming clock.old) (C.coming clock.new) [] }
    ensures back { IfErr result (λ given. (given ≡ archive) × (posts.new ≡ posts.old) × (clock.new ≡ clock.old)) }
{
    let observed = Observed::new(alloc, archive, log.again())?;
    match Rooms::new(alloc, Shared::new(observed)) {
        Ok((rooms, pass)) => Ok(serve_in_rooms(rt, alloc, rooms, pass, posts, clock, log)),
        Err(shared) => Err(shared.into_inner().into_archive()),
    }
}

// Where those hand in what is to be told who work at these posts.
fn log_of<W: Logged>(posts: &[Post<W>]) -> Log {
    match posts.first() {
        Some(post) => post.door.log(),
        None => Log::none(),
    }
}

// Serves all posts in rooms that were just opened, and closes these.
fn serve_in_rooms<R: Threads + Wait + Sync, D: Disk + Send, C: Clock + Drop + Send, W: Door + Send>(
    rt: &R,
    alloc: Global,
    rooms: Rooms<Shared<Observed<D>>>,
    mut pass: Pass<Shared<Observed<D>>>,
    posts: &mut [Post<W>],
    clock: &mut C,
    log: &Log,
) -> (AllServed, Archive<D>)
where
    D::Reader: Send,
    W::L: Send,
    requires opens { Opens (ArchiveStep D.Disk D.Reader.tells D.Reader.bytes D.Reader.faults)
        rooms (opened rooms) pass }
    requires stands { (m : Machine) × Stands D.tells (parts D.Disk (opened rooms).archive.archive.value) m }
    requires few { length posts.old < 2 ^ 32 }
    ensures leaves { (began : Bool)
        × LeavesRoom D.Disk (ArchiveStep D.Disk D.Reader.tells D.Reader.bytes D.Reader.faults)
        (reply_of D.Reader.tells D.Reader.bytes D.Reader.faults) (opened rooms) (length posts.old) (λ start entries.
        Given start D.Reader.ReadAt W.L.Source W.L.Sink entries W.Door result.0 posts.old posts.new)
        began result.0 result.1
        × PostsLeft W.is_closed W.door_faults W.ledger (λ kind l. IsServed kind
        W.L.Sink.written W.L.Source.read_faults W.L.Sink.write_faults l) began result.0 posts.old posts.new }
    ensures clock { Gives (C.coming clock.old) (C.coming clock.new) [] }
{
    let told = serve_all(rt, alloc, &rooms, &mut pass, posts, clock, log);
    (told, rooms.close(pass).into_inner().into_archive())
}

// The status of what a service came to: of what befell it, the first of these.
fn served_status(told: AllServed) -> Status
    ensures { result ≡ status_of told }
{
    if told.door_faults > 0 {
        Status::DoorFault
    } else if told.disk_fault {
        Status::DiskFault
    } else if told.memory {
        Status::OutOfMemory
    } else if told.spent {
        Status::Spent
    } else {
        Status::Done
    }
}
