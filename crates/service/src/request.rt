// One request of a link, from its first byte to the end of its reply.
ghost use Rattle.std.specs.Prelude.{◌≡◌, ◌⊎◌, ◌≤◌};
ghost use Rattle.edge_io.specs.Stream.{Rose};
ghost use Rattle.act_model.specs.Machine.{Machine};
ghost use Rattle.http_front.specs.Calls.{IsWide};
ghost use Rattle.admin_commands.specs.Refusals.{refusal_of};
ghost use Rattle.service.specs.Data.{AnswersData, Tells};
ghost use Rattle.service.specs.Requests.{RepliesCall, unreplied};
ghost use Rattle.service.specs.Serving.{HasBegun, ServesRequest};
ghost use Rattle.service.specs.declared.served.Kind.TheVariants.{Http};

use crate::data::reply_with_data;
use crate::format::Format;
use crate::served::Served;
use act_model::{Actor, OutErr};
use admin_commands::{Refusal, admin, refuse};
use disk_model::ReadAt;
use edge_io::{Link, Sink};
use http_front::{HttpErr, Request, WebCall, read_request};
use std::alloc::Global;

/// Reads one request of a link, makes just the acts that it asks for, in order, and writes its whole reply, over their
/// answers. A request that isn't served makes no act. `Fed` is never answered.
///
/// `PeerFault` comes only where one of the link's counts rose. At every answer but `PeerFault`, `Spent` and `Memory` a
/// reply has begun. At `Memory` nothing was written to a management call and to bytes that are no request, and a front
/// of the reply to a request for data.
pub fn reply_to_request<A: Actor, L: Link>(
    alloc: Global,
    actor: &mut A,
    link: &mut L,
) -> Served<A::Reader>
    requires stands { (m : Machine) × A.stands actor.old m }
    ensures replies { ServesRequest A.Actor A.Reader.ReadAt L.Source L.Sink actor.old link.old
        result actor.new link.new }
    ensures begun { HasBegun Http result (L.Sink.written link.old) (L.Sink.written link.new) }
    ensures peer_fault { result ≡ Served.PeerFault
        → Rose (L.Source.read_faults link.old) (L.Source.read_faults link.new)
        ⊎ Rose (L.Sink.write_faults link.old) (L.Sink.write_faults link.new) }
    ensures write_faults { L.Sink.write_faults link.old ≤ L.Sink.write_faults link.new }
    ensures stands { (n : Machine) × A.stands actor.new n }
{
    match read_request(alloc, link) {
        Ok(request) => serve(alloc, actor, &request, link),
        Err(HttpErr::SourceFault) => Served::PeerFault,
        Err(why) => refuse_request(alloc, why, link),
    }
}

// Makes the acts of a request, and writes its reply.
fn serve<A: Actor, K: Sink>(
    alloc: Global,
    actor: &mut A,
    request: &Request,
    link: &mut K,
) -> Served<A::Reader>
    requires stands { (m : Machine) × A.stands actor.old m }
    requires version { request.now.version ≤ 1 }
    requires wide { IsWide request.now.call }
    ensures replies { RepliesCall A.Actor (AnswersData A.Actor A.Reader.ReadAt
        (Rose (K.write_faults link.old) (K.write_faults link.new)) actor.old (K.written link.old) actor.new
        (K.written link.new)) request.now.version actor.old request.now.call (K.written link.old)
        result actor.new (K.written link.new) }
    ensures peer_fault { result ≡ Served.PeerFault → Rose (K.write_faults link.old) (K.write_faults link.new) }
    ensures write_faults { K.write_faults link.old ≤ K.write_faults link.new }
    ensures stands { (n : Machine) × A.stands actor.new n }
{
    let version = request.version;
    match &request.call {
        WebCall::Raw { pv, query, op } => Served::from(reply_with_data(
            alloc,
            actor,
            pv.bytes(),
            *query,
            Format::Raw { op: *op },
            version,
            link,
        )),
        WebCall::Json { pv, query, op } => Served::from(reply_with_data(
            alloc,
            actor,
            pv.bytes(),
            *query,
            Format::Json { op: *op },
            version,
            link,
        )),
        _ => match admin(alloc, actor, &request.call, link) {
            Ok(()) => Served::Finished,
            Err(err) => Served::from(err),
        },
    }
}

// Writes the reply to bytes that are no request which is served. Nothing is replied where memory ran out.
fn refuse_request<K: Sink, R: ReadAt>(alloc: Global, why: HttpErr, link: &mut K) -> Served<R>
    requires heard { why ≡ HttpErr.SourceFault → ⊥ }
    ensures tells { Tells (refusal_of why) (Rose (K.write_faults link.old) (K.write_faults link.new))
        (Served.Refused why) Served.PeerFault (unreplied why) (K.written link.old) result (K.written link.new) }
    ensures peer_fault { result ≡ Served.PeerFault → Rose (K.write_faults link.old) (K.write_faults link.new) }
    ensures write_faults { K.write_faults link.old ≤ K.write_faults link.new }
{
    let Some(refusal) = Refusal::of_request(why) else {
        return Served::Memory;
    };
    match refuse(alloc, link, refusal) {
        Ok(()) => Served::Refused { why },
        Err(OutErr::SinkFault) => Served::PeerFault,
        Err(OutErr::Memory) => Served::Memory,
    }
}
