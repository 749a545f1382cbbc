// Workers are made of one pass.
ghost use Rattle.std.specs.Prelude.{◌≡◌, ◌<◌, ◌≤◌, ◌+◌, [], length, IfOk, OnErr, IsErr, IsErrOf, vec_len, map};
ghost use Rattle.std.specs.List.{range_with_len};
ghost use Rattle.edge_io.specs.Moments.{Gives};
ghost use Rattle.turn_rooms.specs.Histories.{most_numbers};
ghost use Rattle.turn_rooms.specs.Passes.{IsLast, IsPassOf, Parts, Stays, drained, known, stands};
ghost use Rattle.workers.specs.Left.{Drawn, IsBack};

use crate::meeting::meet_workers;
use crate::worker::{NotDrawn, Worker};
use edge_io::Clock;
use std::alloc::Global;
use std::sync::Wait;
use turn_rooms::{Pass, Room, Rooms, Spent};

// One worker more.
fn draw_one<R: Room, C: Clock, E: Copy>(
    rt: &impl Wait,
    rooms: &Rooms<R>,
    pass: &mut Pass<R>,
    clock: &mut C,
    place: usize,
    end: E,
) -> Result<Worker<R, C, E>, Spent>
    requires { IsPassOf R.steps rooms.now pass.old }
    ensures parts { IfOk result (λ worker. Parts R.steps rooms.now pass.old pass.new worker.pass) }
    ensures worker { IfOk result (λ worker. (worker.place ≡ place) × (worker.end ≡ end)) }
    ensures spent { OnErr result
        (Stays R.steps rooms.now pass.old pass.new × (drained pass.new ≡ drained pass.old + 1)) }
    ensures numbers { OnErr result (IsLast pass.old → most_numbers ≤ length (stands pass.old)) }
    ensures clock { Gives (C.coming clock.old) (C.coming clock.new) [] }
{
    match rooms.part(rt, pass) {
        Ok(note) => Ok(Worker {
            pass: note,
            clock: clock.split(),
            place,
            end,
        }),
        Err(spent) => Err(spent),
    }
}

/// Draws so many workers of a pass beside which no other is left. Each has a second clock, its place from 0
/// on, and `end` for an end.
///
/// At `Err` the pass is again one beside which no other is left, and knows what it knew. `Spent` comes only where the
/// numbers that the pass stands for and those of the workers would be more than there are, 2^64 - 1, and `Memory`
/// before any was drawn. No moment is read of the clock.
pub fn draw_workers<R: Room, C: Clock + Drop, E: Copy + Drop>(
    rt: &impl Wait,
    alloc: Global,
    rooms: &Rooms<R>,
    pass: &mut Pass<R>,
    clock: &mut C,
    count: usize,
    end: E,
) -> Result<Vec<Worker<R, C, E>>, NotDrawn>
    requires rooms { IsPassOf R.steps rooms.now pass.old }
    requires last { IsLast pass.old }
    ensures drawn { IfOk result (λ workers.
        Drawn R.steps rooms.now pass.old pass.new (map (λ w. w.pass) workers.items)) }
    ensures places { IfOk result (λ workers. map (λ w. w.place) workers.items ≡ range_with_len 0 count) }
    ensures back { IsErr result
        → IsPassOf R.steps rooms.now pass.new × IsBack pass.old pass.new × (known pass.new ≡ known pass.old) }
    ensures spent { IsErrOf result NotDrawn.Spent → drained pass.old < drained pass.new }
    ensures numbers { IsErrOf result NotDrawn.Spent → most_numbers < length (stands pass.old) + count }
    ensures memory { IsErrOf result NotDrawn.Memory → pass.new ≡ pass.old }
    ensures clock { Gives (C.coming clock.old) (C.coming clock.new) [] }
{
    let Ok(mut workers) = Vec::with_capacity(alloc, count) else {
        return Err(NotDrawn::Memory);
    };
    for place in 0..count {
        match draw_one(rt, rooms, pass, clock, place, end) {
            Ok(worker) => workers.push_reserved(worker),
            Err(Spent) => {
                meet_workers(rooms, pass, workers);
                return Err(NotDrawn::Spent);
            }
        }
    }
    Ok(workers)
}
