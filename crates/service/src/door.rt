// A worker: it serves its door to the end, and counts it off.
ghost use Rattle.std.specs.Prelude.{◌≡◌, Bool};
ghost use Rattle.edge_io.specs.Doors.{IsFresh};
ghost use Rattle.act_model.specs.Machine.{Machine};
ghost use Rattle.act_model.specs.Roles.{is_of_link};
ghost use Rattle.service.specs.Serving.{MakesOnly, WasSpent};
ghost use Rattle.service.specs.Doors.{AsksOn, AsksToEnd, InTurn, IsServed, IsTold, ServesDoorAt, ServesLinkTold};

use crate::gate::{Gate, PostHook};
use crate::link::serve_link;
use crate::served::{Kind, Served};
use act_model::{Actor, Spent, ask_door_done};
use edge_io::{Clock, Door, Next};
use std::alloc::Global;
use std::sync::Wait;

/// How a door was served.
#[derive(Clone, Copy, Debug, PartialEq, Eq)]
pub enum DoorServed {
    /// The door was asked to its end, each of its links was served, and it was counted off. Whether memory ran out for
    /// one of them, and whether the door failed at its end; else no link comes any more.
    Done { lacked: bool, failed: bool },
    /// No act is left.
    Spent,
}

// What was asked of a door once more.
#[derive(Clone, Copy, Drop)]
enum DoorAsked {
    // A link came, and was served. Whether memory ran out for it, or for an earlier one.
    Link { lacked: bool },
    // No link comes any more, or none could be had, as is told.
    End { failed: bool },
    // A link came, for which no act was left.
    Spent,
}

/// Serves all links of a door, each of one kind: asks the door for them to its end, serves each, gives each back, and
/// then counts the door off. It goes on behind a fault of a link and behind want of memory.
///
/// `hook` is told of each link before and after it is served, and of a damaged file that ended its reply.
///
/// The acts are those of the links' sessions, one session after another, and then one `DoorDone`. `Spent` comes only
/// where no act was left for one of them.
pub fn serve_door<A: Actor, W: Door, C: Clock, G: Gate>(
    rt: &impl Wait,
    alloc: Global,
    actor: &mut A,
    kind: Kind,
    door: &mut W,
    clock: &mut C,
    hook: &PostHook<'_, G>,
) -> DoorServed
    requires stands { (m : Machine) × A.stands actor.old m }
    ensures serves { ServesDoorAt A.Actor A.Reader.ReadAt W.L.Source W.L.Sink W.Door
        (IsTold G.Gate hook.now.gate.now) kind hook.now.post actor.old (C.coming clock.old) door.old
        result actor.new (C.coming clock.new) door.new }
    ensures stands { (n : Machine) × A.stands actor.new n }
{
    match serve_links(rt, alloc, actor, kind, door, clock, hook) {
        DoorServed::Done { lacked, failed } => match ask_door_done(actor) {
            Ok(_) => DoorServed::Done { lacked, failed },
            Err(Spent) => DoorServed::Spent,
        },
        DoorServed::Spent => DoorServed::Spent,
    }
}

// Serves all links of a door. At `Done` the door is still to be counted off.
fn serve_links<A: Actor, W: Door, C: Clock, G: Gate>(
    rt: &impl Wait,
    alloc: Global,
    actor: &mut A,
    kind: Kind,
    door: &mut W,
    clock: &mut C,
    hook: &PostHook<'_, G>,
) -> DoorServed
    requires stands { (m : Machine) × A.stands actor.old m }
    ensures acts { MakesOnly A.Actor is_of_link actor.old actor.new }
    ensures asked { AsksToEnd W.Door (IsServed kind W.L.Sink.written W.L.Source.read_faults W.L.Sink.write_faults)
        (λ links results. InTurn (IsFresh W.L.Sink.written W.L.Source.read_faults W.L.Sink.write_faults)
        (ServesLinkTold A.Actor A.Reader.ReadAt W.L.Source W.L.Sink (IsTold G.Gate hook.now.gate.now hook.now.post)
        kind) actor.old (C.coming clock.old) links results actor.new (C.coming clock.new)) door.old result door.new }
    ensures spent { result ≡ DoorServed.Spent → WasSpent A.Actor actor.new }
    ensures stands { (n : Machine) × A.stands actor.new n }
{
    let mut lacked = false;
    for _ in rt.forever() {
        match serve_next(rt, alloc, actor, kind, door, clock, hook, lacked) {
            DoorAsked::Link { lacked: now } => lacked = now,
            DoorAsked::End { failed } => return DoorServed::Done { lacked, failed },
            DoorAsked::Spent => return DoorServed::Spent,
        }
    }
    unreachable!()
}

// Asks a door for a link, serves it and gives it back. `lacked` says whether memory ran out for an earlier link.
fn serve_next<A: Actor, W: Door, C: Clock, G: Gate>(
    rt: &impl Wait,
    alloc: Global,
    actor: &mut A,
    kind: Kind,
    door: &mut W,
    clock: &mut C,
    hook: &PostHook<'_, G>,
    lacked: bool,
) -> DoorAsked
    requires stands { (m : Machine) × A.stands actor.old m }
    ensures acts { MakesOnly A.Actor is_of_link actor.old actor.new }
    ensures asked { AsksOn W.Door (IsFresh W.L.Sink.written W.L.Source.read_faults W.L.Sink.write_faults)
        (IsServed kind W.L.Sink.written W.L.Source.read_faults W.L.Sink.write_faults)
        (λ was served link. ServesLinkTold A.Actor A.Reader.ReadAt W.L.Source W.L.Sink
        (IsTold G.Gate hook.now.gate.now hook.now.post) kind actor.old (C.coming clock.old) was
        served actor.new (C.coming clock.new) link) door.old lacked result door.new }
    ensures stays { (failed : Bool) → result ≡ DoorAsked.End failed
        → (actor.new ≡ actor.old) × (C.coming clock.new ≡ C.coming clock.old) }
    ensures spent { result ≡ DoorAsked.Spent → WasSpent A.Actor actor.new }
    ensures stands { (n : Machine) × A.stands actor.new n }
{
    match door.next() {
        Next::Link(mut link) => {
            hook.enter();
            let served = serve_link(rt, alloc, actor, kind, &mut link, clock);
            hook.leave(&served);
            door.back(link);
            match served {
                Served::Spent => return DoorAsked::Spent,
                Served::Memory => return DoorAsked::Link { lacked: true },
                _ => return DoorAsked::Link { lacked },
            }
        }
        Next::Closed => DoorAsked::End { failed: false },
        Next::Failed => DoorAsked::End { failed: true },
    }
}
