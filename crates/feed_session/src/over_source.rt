// A stream is brought into an archive.
ghost use Rattle.std.specs.Prelude.{◌≡◌, ◌≤◌};
ghost use Rattle.edge_io.specs.Stream.{Rose};
ghost use Rattle.act_model.specs.Machine.{Machine};
ghost use Rattle.feed_session.specs.Session.{Ingests};

use crate::asking::{closed, register, take_sample};
use crate::end::Fed;
use crate::tally::OfferCounts;
use act_model::Actor;
use edge_io::{Clock, Source};
use pb_lines::{ChunkItem, ChunkReader};
use std::alloc::Global;
use std::sync::Wait;

/// Brings a stream of chunks into an archive. Each header's name is registered as a row where it is a name, and each
/// sample is offered at a moment that the clock gives for it; where the intake is full all is flushed, and the same
/// sample is offered again with the same moment. At the end of the stream, and at its first bad line, all is flushed.
///
/// So after `Fed` and `Refused` all that was kept is durable. It stops at its first fault. `PeerFault` comes only where
/// the source's count of faults rose in this call, `DiskFault` only where the last act was answered so, and `Spent`
/// only where no act is left.
pub fn ingest<A: Actor, S: Source, C: Clock>(
    rt: &impl Wait,
    alloc: Global,
    actor: &mut A,
    source: &mut S,
    clock: &mut C,
) -> Fed
    requires stands { (m : Machine) × A.stands actor.old m }

    ensures ingests { Ingests A.number A.between result actor.old actor.new (S.left source.old)
        (C.coming clock.old) (C.coming clock.new) }
    ensures stands { (n : Machine) × A.stands actor.new n }
    ensures spent { result ≡ Fed.Spent → A.is_spent actor.new }
    ensures read_faults { S.read_faults source.old ≤ S.read_faults source.new }
    ensures peer_fault { result ≡ Fed.PeerFault → Rose (S.read_faults source.old) (S.read_faults source.new) }
{
    let Ok(mut reader) = ChunkReader::new(alloc) else {
        return Fed::Memory;
    };
    let mut tally = OfferCounts::new();
    'items: loop {
        let asked = match reader.next(source) {
            ChunkItem::Header => register(alloc, actor, &reader),
            ChunkItem::Sample { t } => {
                let now = clock.now();
                take_sample(rt, alloc, actor, &reader, t, now, &mut tally)
            }
            ChunkItem::ChunkEnd => Ok(()),
            ChunkItem::End => return closed(actor, tally.fed()),
            ChunkItem::Refused(fault) => {
                let line = reader.number();
                return closed(actor, Fed::Refused { line, fault });
            }
            ChunkItem::SourceFault => return Fed::PeerFault,
            ChunkItem::Memory => return Fed::Memory,
        };
        if let Err(stopped) = asked {
            return Fed::from(stopped);
        }
    }
}
