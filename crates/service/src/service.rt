// All doors of a service at once, beside one who flushes and one who moves.
ghost use Rattle.std.specs.Prelude.{◌≡◌, ◌<◌, ◌^◌, ◌-◌, ◌+◌, ◌≤◌, ◌⊎◌, ℕ, [], All, length, true, false, map};
ghost use Rattle.edge_io.specs.Moments.{Gives};
ghost use Rattle.turn_rooms.specs.Histories.{most_acts};
ghost use Rattle.turn_rooms.specs.Passes.{IsLast, IsPassOf, known};
ghost use Rattle.workers.specs.Left.{IsBack};
ghost use Rattle.act_model.specs.Machine.{Machine};
ghost use Rattle.archive_actors.specs.Seats.{StandsFor};
ghost use Rattle.archive_actors.specs.Steps.{SharedStands};
ghost use Rattle.service.specs.Doors.{IsTold, ServesDoorAt};
ghost use Rattle.service.specs.Seats.{seat, seat_pass, seat_rooms};
ghost use Rattle.service.specs.Service.{CanWork, DoorEnds, NumbersSpent, ServesAll, ShiftEnds, TaskEnds, WorkDone};
ghost use Rattle.service.specs.Service.{told_of, with_end};
ghost use Rattle.serving.specs.Acting.{EndsInTurns, HasFlushFault, room_reply, room_steps};

use crate::door::DoorServed;
use crate::gate::Gate;
use crate::posts::{Post, Task, WorkEnd, serve_post, tend};
use act_model::Actor;
use archive_actors::{Applies, Seated, Shared};
use edge_io::{Clock, Door};
use serving::{FlushEnd, MoverEnd};
use std::alloc::Global;
use std::sync::Wait;
use std::thread::Threads;
use turn_rooms::{Pass, Room, Rooms};
use workers::{NotDrawn, Worker, draw_workers, meet_workers, run_with};

/// How a service ended.
#[derive(Clone, Copy, Debug, PartialEq, Eq)]
pub struct AllServed {
    /// So many doors failed at their ends.
    pub door_faults: u64,
    /// Whether the disk failed in the flusher's last flush.
    pub disk_fault: bool,
    /// Whether no act was left, or no number of a pass.
    pub spent: bool,
    /// Whether memory ran out: for the workers, for a link, in the last flush or in the last moves.
    pub memory: bool,
}

// One more of those who worked.
fn with_end(told: AllServed, end: WorkEnd) -> AllServed
    requires few { told.door_faults < 2 ^ 64 - 1 }
    ensures { result ≡ with_end told end }
{
    match end {
        WorkEnd::NotBegun => told,
        WorkEnd::Door(DoorServed::Done { lacked, failed }) => AllServed {
            door_faults: told.door_faults + u64::from(failed),
            memory: told.memory || lacked,
            ..told
        },
        WorkEnd::Flushed(FlushEnd::LeavesNone) => told,
        WorkEnd::Flushed(FlushEnd::FailsToWrite) => AllServed {
            disk_fault: true,
            ..told
        },
        WorkEnd::Flushed(FlushEnd::LacksMemory) => AllServed {
            memory: true,
            ..told
        },
        WorkEnd::Moved(MoverEnd::MeetsNoMemory) => AllServed {
            memory: true,
            ..told
        },
        WorkEnd::Moved(_) => told,
        WorkEnd::Door(DoorServed::Spent) | WorkEnd::Spent => AllServed {
            spent: true,
            ..told
        },
    }
}

// What is told of all who worked.
fn tell<R: Room, C>(workers: &[Worker<R, C, WorkEnd>]) -> AllServed
    ensures { result ≡ told_of (map (λ w. w.end) workers.now) }
{
    let mut told = AllServed {
        door_faults: 0,
        disk_fault: false,
        spent: false,
        memory: false,
    };
    for worker in workers {
        told = with_end(told, worker.end);
    }
    told
}

// The work of all: at each post by the worker at its place, and by the last two workers beside them.
fn work_all<
    R: Threads + Wait + Sync,
    X: Applies + Send,
    C: Clock + Send,
    W: Door + Send,
    G: Gate + Sync,
>(
    rt: &R,
    alloc: Global,
    rooms: &Rooms<Shared<X>>,
    gate: &G,
    workers: &mut [Worker<Shared<X>, C, WorkEnd>],
    posts: &mut [Post<W>],
)
where
    X::Reader: Send,
    W::L: Send,
    requires stand { All (CanWork (room_steps X.Applies X.Reader.ReadAt) (SharedStands X.stands) rooms.now)
        workers.old }
    requires as_many { length workers.old ≡ length posts.old + 2 }
    ensures { WorkDone (ServesDoorAt (seat rt.now X.Applies X.Reader.ReadAt) X.Reader.ReadAt W.L.Source W.L.Sink W.Door
        (IsTold G.Gate gate.now)) seat_pass seat_rooms C.coming (room_steps X.Applies X.Reader.ReadAt)
        (room_reply X.Reader.ReadAt) rooms.now workers.old posts.old workers.new posts.new }
{
    let at_posts = posts.len();
    let (at_doors, beside) = workers.split_at_mut(at_posts);
    let mut tasks = [Task::Flush, Task::Move];
    run_with(
        rt,
        &|worker: &mut Worker<Shared<X>, C, WorkEnd>, task: &mut Task|
            requires { (m : Machine)
                × StandsFor (room_steps X.Applies X.Reader.ReadAt) (SharedStands X.stands) rooms.now worker.now.pass m }
            ensures { TaskEnds (room_steps X.Applies X.Reader.ReadAt) (room_reply X.Reader.ReadAt) rooms.entry.now
                task.entry.now worker.entry.now.pass (C.coming worker.entry.now.clock)
                worker.exit.now.end worker.exit.now.pass (C.coming worker.exit.now.clock) }
        { tend(rt, rooms, worker, task) },
        beside,
        &mut tasks,
        &|worker: &mut Worker<Shared<X>, C, WorkEnd>, post: &mut Post<W>|
            requires { (m : Machine)
                × StandsFor (room_steps X.Applies X.Reader.ReadAt) (SharedStands X.stands) rooms.now worker.now.pass m }
            ensures acts { ShiftEnds (room_steps X.Applies X.Reader.ReadAt) (room_reply X.Reader.ReadAt)
                rooms.entry.now worker.entry.now.pass worker.exit.now.end worker.exit.now.pass }
            ensures door { DoorEnds (ServesDoorAt (seat rt.entry.now X.Applies X.Reader.ReadAt) X.Reader.ReadAt
                W.L.Source W.L.Sink W.Door (IsTold G.Gate gate.entry.now)) seat_pass seat_rooms rooms.entry.now
                post.entry.now.kind worker.entry.now.place worker.entry.now.pass
                (C.coming worker.entry.now.clock) post.entry.now.door
                worker.exit.now.end worker.exit.now.pass (C.coming worker.exit.now.clock) post.exit.now.door }
            ensures kind { post.exit.now.kind ≡ post.entry.now.kind }
        { serve_post(rt, alloc, rooms, gate, worker, post) },
        at_doors,
        posts,
    );
}

/// Serves all posts: one worker at each asks its door for links to the end and serves them as
/// [`serve_door`](crate::serve_door) does, one who flushes also ticks all rows, and one moves, each in a thread of
/// its own, by turns of a pass of its own and at the moments of a clock of its own, up to their ends. Where no thread
/// can be made, the doors are served one after another, and then all is flushed and moved. `gate` is told of each
/// link with its post's place.
///
/// What is told is how each of them ended, and of each door it holds whatever became of the others. Where no passes
/// could be drawn for them, nothing was done: for want of memory, or where their numbers and those that the pass stands
/// for would be more than there are. No other pass may be left, and none is at the end.
pub fn serve_all<
    R: Threads + Wait + Sync,
    X: Applies + Send,
    C: Clock + Drop + Send,
    W: Door + Send,
    G: Gate + Sync,
>(
    rt: &R,
    alloc: Global,
    rooms: &Rooms<Shared<X>>,
    pass: &mut Pass<Shared<X>>,
    posts: &mut [Post<W>],
    clock: &mut C,
    gate: &G,
) -> AllServed
where
    X::Reader: Send,
    W::L: Send,
    requires stands { (m : Machine)
        × StandsFor (room_steps X.Applies X.Reader.ReadAt) (SharedStands X.stands) rooms.now pass.old m }
    requires last { IsLast pass.old }
    requires few { length posts.old < 2 ^ 32 }
    ensures rooms { IsPassOf (room_steps X.Applies X.Reader.ReadAt) rooms.now pass.new }
    ensures back { IsBack pass.old pass.new }
    ensures served { ServesAll (ServesDoorAt (seat rt.now X.Applies X.Reader.ReadAt) X.Reader.ReadAt W.L.Source W.L.Sink
        W.Door (IsTold G.Gate gate.now)) seat_pass seat_rooms C.coming (room_steps X.Applies X.Reader.ReadAt)
        (room_reply X.Reader.ReadAt) rooms.now result pass.old pass.new posts.old posts.new }
    ensures clock { Gives (C.coming clock.old) (C.coming clock.new) [] }
    ensures spent { result.spent ≡ true
        → (most_acts ≤ length (known pass.new)) ⊎ NumbersSpent pass.old pass.new (length posts.old + 2) }
    ensures disk_fault { result.disk_fault ≡ true → HasFlushFault (room_reply X.Reader.ReadAt) pass.old pass.new }
    ensures ends { (m : Machine)
        → StandsFor (room_steps X.Applies X.Reader.ReadAt) (SharedStands X.stands) rooms.now pass.old m
        → m.doors ≡ length posts.old → result.spent ≡ false
        → result.memory ≡ false → result.disk_fault ≡ false
        → (mover : ℕ) × EndsInTurns (room_steps X.Applies X.Reader.ReadAt) (SharedStands X.stands)
        (room_reply X.Reader.ReadAt) rooms.now pass.old pass.new m mover }
{
    match draw_workers(
        rt,
        alloc,
        rooms,
        pass,
        clock,
        posts.len() + 2,
        WorkEnd::NotBegun,
    ) {
        Ok(mut workers) => {
            work_all(rt, alloc, rooms, gate, workers.as_mut_slice(), posts);
            let told = tell(workers.as_slice());
            meet_workers(rooms, pass, workers);
            told
        }
        Err(NotDrawn::Spent) => AllServed {
            door_faults: 0,
            disk_fault: false,
            spent: true,
            memory: false,
        },
        Err(NotDrawn::Memory) => AllServed {
            door_faults: 0,
            disk_fault: false,
            spent: false,
            memory: true,
        },
    }
}
