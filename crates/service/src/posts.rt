// The posts of a service, and the tasks beside them.
ghost use Rattle.std.specs.Prelude.{◌≡◌};
ghost use Rattle.act_model.specs.Machine.{Machine};
ghost use Rattle.archive_actors.specs.Seats.{StandsFor};
ghost use Rattle.archive_actors.specs.Steps.{SharedStands};
ghost use Rattle.service.specs.Doors.{IsTold, ServesDoorAt};
ghost use Rattle.service.specs.Seats.{seat, seat_pass, seat_rooms};
ghost use Rattle.service.specs.Service.{DoorEnds, ShiftEnds, TaskEnds};
ghost use Rattle.serving.specs.Acting.{room_reply, room_steps};

use crate::door::{DoorServed, serve_door};
use crate::gate::{Gate, PostHook};
use crate::served::Kind;
use act_model::{Actor, Spent};
use archive_actors::{Applies, Seated, Shared};
use edge_io::{Clock, Door};
use serving::{FlushEnd, MoverEnd, flush_to_end, move_to_end};
use std::alloc::Global;
use std::sync::Wait;
use turn_rooms::{Pass, Rooms};
use workers::Worker;

/// A door, and what its links are for.
#[derive(Drop)]
pub struct Post<W> {
    pub kind: Kind,
    pub door: W,
}

/// How the work of one in a service ended.
#[derive(Clone, Copy, Drop)]
pub(crate) enum WorkEnd {
    // It hasn't begun.
    NotBegun,
    Door(DoorServed),
    Flushed(FlushEnd),
    Moved(MoverEnd),
    // No act was left for one who flushed or moved.
    Spent,
}

// What one does in a service beside those at the doors.
#[derive(Clone, Copy, Drop)]
pub(crate) enum Task {
    Flush,
    Move,
}

/// The work of one at a post: serves its door by turns of a pass.
pub(crate) fn serve_post<R: Wait, X: Applies, C: Clock, W: Door, G: Gate>(
    rt: &R,
    alloc: Global,
    rooms: &Rooms<Shared<X>>,
    gate: &G,
    worker: &mut Worker<Shared<X>, C, WorkEnd>,
    post: &mut Post<W>,
)
    requires stands { (m : Machine)
        × StandsFor (room_steps X.Applies X.Reader.ReadAt) (SharedStands X.stands) rooms.now worker.old.pass m }
    ensures acts { ShiftEnds (room_steps X.Applies X.Reader.ReadAt) (room_reply X.Reader.ReadAt)
        rooms.now worker.old.pass worker.new.end worker.new.pass }
    ensures door { DoorEnds (ServesDoorAt (seat rt.now X.Applies X.Reader.ReadAt) X.Reader.ReadAt W.L.Source W.L.Sink
        W.Door (IsTold G.Gate gate.now)) seat_pass seat_rooms rooms.now post.old.kind
        worker.old.place worker.old.pass (C.coming worker.old.clock) post.old.door
        worker.new.end worker.new.pass (C.coming worker.new.clock) post.new.door }
    ensures kind { post.new.kind ≡ post.old.kind }
{
    let hook = PostHook {
        gate,
        post: worker.place,
    };
    let mut actor = Seated::new(rt, rooms, &mut worker.pass);
    let served = serve_door(
        rt,
        alloc,
        &mut actor,
        post.kind,
        &mut post.door,
        &mut worker.clock,
        &hook,
    );
    worker.end = WorkEnd::Door(served);
}

/// The work of one who flushes or moves, by turns of a pass.
pub(crate) fn tend<R: Wait, X: Applies, C: Clock>(
    rt: &R,
    rooms: &Rooms<Shared<X>>,
    worker: &mut Worker<Shared<X>, C, WorkEnd>,
    task: &mut Task,
)
    requires stands { (m : Machine)
        × StandsFor (room_steps X.Applies X.Reader.ReadAt) (SharedStands X.stands) rooms.now worker.old.pass m }
    ensures { TaskEnds (room_steps X.Applies X.Reader.ReadAt) (room_reply X.Reader.ReadAt) rooms.now
        task.old worker.old.pass (C.coming worker.old.clock)
        worker.new.end worker.new.pass (C.coming worker.new.clock) }
{
    let mut actor = Seated::new(rt, rooms, &mut worker.pass);
    match *task {
        Task::Flush => match flush_to_end(rt, &mut actor, &mut worker.clock) {
            Ok(end) => worker.end = WorkEnd::Flushed(end),
            Err(Spent) => worker.end = WorkEnd::Spent,
        },
        Task::Move => match move_to_end(rt, &mut actor, &mut worker.clock) {
            Ok(end) => worker.end = WorkEnd::Moved(end),
            Err(Spent) => worker.end = WorkEnd::Spent,
        },
    }
}
