// `etl`: all that is due moves on to the next stores.
ghost use Rattle.std.specs.Prelude.{◌≡◌, ◌≤◌, ◌⊎◌, ◌∷◌, [], ℕ, List, Option, IsTrue, Err};
ghost use Rattle.disk_model.specs.Files.{Name, Rose as DiskRose};
ghost use Rattle.edge_io.specs.Moments.{Gives};
ghost use Rattle.edge_io.specs.Stream.{Rose, AppendsFront};
ghost use Rattle.std.specs.Io.KnownBytes.{Appends};
ghost use Rattle.tier_store.specs.Change.{Has};
ghost use Rattle.tier_store.specs.Seen.{seen};
ghost use Rattle.tier_store.specs.Stores.{Stores};
ghost use Rattle.store_reopen.specs.Reopen.{IsUnopened, stores_of};
ghost use Rattle.act_model.specs.History.{Done};
ghost use Rattle.act_model.specs.Machine.{Machine};
ghost use Rattle.archive_core.specs.Parts.{parts};
ghost use Rattle.archive_core.specs.Stands.{Stands};
ghost use Rattle.serving.specs.Due.{MovesDue};
ghost use Rattle.archiver_appliance.specs.Acting.{ActsAlone, IsFresh, IsNotMade};
ghost use Rattle.archiver_appliance.specs.Moving.{MovesFrom, TellsMoved, moved_text};
ghost use Rattle.archiver_appliance.specs.Judging.{FindsPart, IsOfOpened};
ghost use Rattle.archiver_appliance.specs.Run.{EndsAs};
ghost use Rattle.command_words.specs.declared.command.StoreCommand.TheVariants as asked;
ghost use Rattle.archiver_appliance.specs.Outside.{HasNotFallen, IsCausedBy};

use crate::opened::{Came, out_of_memory};
use act_model::laws::{moves_are_as_told, soundness_stays};
use archive_actors::Alone;
use archive_core::Archive;
use command_words::{Status, write_pieces};
use disk_model::Disk;
use edge_io::{Clock, Sink};
use itoa::Buffer;
use serving::{DueMoved, MoveErr, move_all_due};
use std::alloc::Global;
use std::sync::Wait;
use tier_store::TierStore;

/// Opens an archive on the stores, reads one moment, and moves all that is due then. It tells how many partitions
/// stores 1 and 2 retired. A file that it tells as damaged is one that a store lists in the end.
pub fn move_due<K: Sink, D: Disk, C: Clock>(
    rt: &impl Wait,
    alloc: Global,
    store: TierStore<D>,
    sink: &mut K,
    clock: &mut C,
) -> Came<D>
    requires fresh { IsFresh D.Disk store }
    ensures moves { (IsNotMade store.disk result.disk result.status × (sink.new ≡ sink.old) × (clock.new ≡ clock.old))
        ⊎ ((held : Stores) → Has D.tells (seen D.Disk store) held
        → MovesFrom (λ image. ⊥) D.tells store.config held (C.coming clock.old) (C.coming clock.new)
        (K.written sink.old) (K.written sink.new) (D.past store.disk) (D.past result.disk) result.status) }
    ensures damaged { IsTrue D.tells → (held : Stores) → Has D.tells (seen D.Disk store) held → IsTrue held.stands
        → (file : Name) (at : ℕ) → result.status ≡ Status.Damaged file at → ⊥ }
    ensures part { IsTrue D.tells → FindsPart (stores_of store.config) (D.files result.disk) result.status }
    ensures opened { IsOfOpened result.status }
    ensures ends { (input : Option (List ℕ)) → EndsAs asked.Etl input result.status }
    ensures caused { IsCausedBy D.Reader.faults ⊥ (Rose (K.write_faults sink.old) (K.write_faults sink.new))
        (DiskRose (D.faults store.disk) (D.faults result.disk)) result.status result.failed }
    ensures write_faults { K.write_faults sink.old ≤ K.write_faults sink.new }
    ensures disk_faults { HasNotFallen (D.faults store.disk) (D.faults result.disk) }
    ensures unopened { IsTrue D.tells → IsUnopened (D.files result.disk) (D.opened result.disk) }
{
    soundness_stays();
    moves_are_as_told();
    let mut archive = match Archive::of(alloc, store, 0) {
        Ok(archive) => archive,
        Err(store) => return out_of_memory(store),
    };
    let now = clock.now();
    let moved = move_alone(rt, &mut archive, now);
    Came {
        status: moved_status(moved, sink),
        disk: archive.into_store().into_disk(),
        failed: None,
    }
}

// Moves all that is due in an archive on which nobody else acts.
fn move_alone<D: Disk>(
    rt: &impl Wait,
    archive: &mut Archive<D>,
    now: u64,
) -> Result<DueMoved, MoveErr>
    requires stands { (m : Machine) × Stands D.tells (parts D.Disk archive.old) m }
    ensures moves { (done : List Done) × MovesDue now result done × ActsAlone D.Disk archive.old done archive.new }
    ensures not_spent { result ≡ Err MoveErr.Spent → ⊥ }
{
    let mut actor = Alone::new(archive, 0);
    move_all_due(rt, &mut actor, now)
}

// The status of what the moves came to. Where they came to their end, that is told first.
fn moved_status<K: Sink>(moved: Result<DueMoved, MoveErr>, sink: &mut K) -> Status
    requires not_spent { moved ≡ Err MoveErr.Spent → ⊥ }
    ensures tells { TellsMoved moved (K.written sink.old) (K.written sink.new) result }
    ensures failed { result ≡ Status.SinkFault → Rose (K.write_faults sink.old) (K.write_faults sink.new) }
    ensures faults { K.write_faults sink.old ≤ K.write_faults sink.new }
{
    match moved {
        Ok(moved) => tell_moved(moved, sink),
        Err(MoveErr::DiskFault) => Status::DiskFault,
        Err(MoveErr::Damaged { name, at }) => Status::Damaged { name, at },
        Err(MoveErr::Spent) => unreachable!(),
        Err(MoveErr::Memory) => Status::OutOfMemory,
    }
}

// Writes how many partitions were retired. It takes no memory.
fn tell_moved<K: Sink>(moved: DueMoved, sink: &mut K) -> Status
    ensures told { ((result ≡ Status.Done) × Appends (K.written sink.old) (K.written sink.new) (moved_text moved))
        ⊎ ((result ≡ Status.SinkFault) × AppendsFront (K.written sink.old) (K.written sink.new) (moved_text moved)) }
    ensures failed { result ≡ Status.SinkFault → Rose (K.write_faults sink.old) (K.write_faults sink.new) }
    ensures faults { K.write_faults sink.old ≤ K.write_faults sink.new }
{
    let mut short = Buffer::new();
    let mut medium = Buffer::new();
    let pieces = [
        b"moved ".as_slice(),
        short.format(moved.short).as_bytes(),
        b" ",
        medium.format(moved.medium).as_bytes(),
        b"\n",
    ];
    match write_pieces(&pieces, sink) {
        Ok(()) => Status::Done,
        Err(_) => Status::SinkFault,
    }
}
