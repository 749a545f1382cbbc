// One connection is served.
ghost use Rattle.std.specs.Prelude.{◌≡◌, ◌⊎◌, ◌≤◌};
ghost use Rattle.edge_io.specs.Stream.{Rose};
ghost use Rattle.act_model.specs.Machine.{Machine};
ghost use Rattle.act_model.specs.Roles.{is_of_link};
ghost use Rattle.service.specs.Completeness.{CompletesLink, IsQuiet};
ghost use Rattle.service.specs.Serving.{HasBegun, IsToldWhy, MakesOnly, ServesLink, WasSpent};

use crate::request::reply_to_request;
use crate::served::{Kind, Served};
use act_model::Actor;
use act_model::laws::soundness_stays;
use edge_io::{Clock, Link};
use feed_session::feed;
use std::alloc::Global;
use std::sync::Wait;

/// Serves one connection: a feed to its end, or one request. Just the acts of the feed or of the request are made, in
/// order; each is an act of a link. The clock is read for the samples of a feed alone.
///
/// `PeerFault` comes only where one of the link's own counts rose in this call, and `Spent` only where no act was left.
/// At every answer but these two and `Memory` a request's reply has begun, and a feed has its last line.
///
/// Where no count rises and acts are left, a feed has its last line, a request for data of a variable that is there the
/// whole answer, and a management call the reply over answers that tell no fault. Beside these there is `Memory` alone.
pub fn serve_link<A: Actor, L: Link, C: Clock>(
    rt: &impl Wait,
    alloc: Global,
    actor: &mut A,
    kind: Kind,
    link: &mut L,
    clock: &mut C,
) -> Served<A::Reader>
    requires stands { (m : Machine) × A.stands actor.old m }
    ensures serves { ServesLink A.Actor A.Reader.ReadAt L.Source L.Sink kind actor.old
        (C.coming clock.old) link.old result actor.new (C.coming clock.new) link.new }
    ensures acts { MakesOnly A.Actor is_of_link actor.old actor.new }
    ensures begun { HasBegun kind result (L.Sink.written link.old) (L.Sink.written link.new) }
    ensures refused { IsToldWhy result }
    ensures peer_fault { result ≡ Served.PeerFault
        → Rose (L.Source.read_faults link.old) (L.Source.read_faults link.new)
        ⊎ Rose (L.Sink.write_faults link.old) (L.Sink.write_faults link.new) }
    ensures write_faults { L.Sink.write_faults link.old ≤ L.Sink.write_faults link.new }
    ensures spent { result ≡ Served.Spent → WasSpent A.Actor actor.new }
    ensures complete { (m : Machine) → A.stands actor.old m
        → IsQuiet A.Actor A.Reader.ReadAt L.Source L.Sink m actor.old link.old result actor.new link.new
        → CompletesLink A.Actor A.Reader.ReadAt L.Source L.Sink kind m actor.old link.old result actor.new link.new }
    ensures stands { (n : Machine) × A.stands actor.new n }
{
    soundness_stays();
    match kind {
        Kind::Feed => Served::from(feed(rt, alloc, actor, link, clock)),
        Kind::Http => reply_to_request(alloc, actor, link),
    }
}
