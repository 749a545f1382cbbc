// A feed: a stream comes over a link, and its peer is told what came of it.
ghost use Rattle.std.specs.Prelude.{◌≡◌, ◌⊎◌, ◌≤◌, IfNone};
ghost use Rattle.edge_io.specs.Stream.{Rose};
ghost use Rattle.act_model.specs.Machine.{Machine};
ghost use Rattle.pb_lines.specs.Reader.{IsLineOf, ReadsItem, to_come};
ghost use Rattle.feed_session.specs.Replies.{Feeds, FeedsChunks};

use crate::asking::{closed, take_sample};
use crate::end::Fed;
use crate::replies::{tell_chunk, tell_end};
use crate::tally::OfferCounts;
use act_model::Actor;
use edge_io::{Clock, Link};
use pb_lines::{ChunkItem, ChunkReader};
use std::alloc::Global;
use std::sync::Wait;

/// Brings the stream of a link into an archive whose rows are registered already, and replies to its peer. Each sample
/// is offered at a moment that the clock gives for it; where the intake is full all is flushed, and the same sample is
/// offered again with the same moment. At the end of the stream, and at its first bad line, all is flushed.
///
/// Behind each chunk the line `ok KEPT HELD DROPPED` goes out, with the numbers of its samples. The last line goes out
/// behind the flush: `durable KEPT`, with the number of the whole stream, or `refused LINE CODE`; or it is
/// `fault disk`. What is told so is durable.
///
/// It stops at its first fault. `PeerFault` comes only where one of the link's counts of faults rose in this call,
/// `DiskFault` only where the last act was answered so, and `Spent` only where no act is left.
pub fn feed<A: Actor, L: Link, C: Clock>(
    rt: &impl Wait,
    alloc: Global,
    actor: &mut A,
    link: &mut L,
    clock: &mut C,
) -> Fed
    requires stands { (m : Machine) × A.stands actor.old m }

    ensures feeds { Feeds A.number A.between result actor.old actor.new (L.Source.left link.old)
        (C.coming clock.old) (C.coming clock.new) (L.Sink.written link.old) (L.Sink.written link.new) }
    ensures stands { (n : Machine) × A.stands actor.new n }
    ensures spent { result ≡ Fed.Spent → A.is_spent actor.new }
    ensures read_faults { L.Source.read_faults link.old ≤ L.Source.read_faults link.new }
    ensures write_faults { L.Sink.write_faults link.old ≤ L.Sink.write_faults link.new }
    ensures peer_fault { result ≡ Fed.PeerFault
        → Rose (L.Source.read_faults link.old) (L.Source.read_faults link.new)
        ⊎ Rose (L.Sink.write_faults link.old) (L.Sink.write_faults link.new) }
{
    let end = feed_chunks(rt, alloc, actor, link, clock);
    tell_end(alloc, link, end)
}

// All of a feed but its last line.
fn feed_chunks<A: Actor, L: Link, C: Clock>(
    rt: &impl Wait,
    alloc: Global,
    actor: &mut A,
    link: &mut L,
    clock: &mut C,
) -> Fed
    requires stands { (m : Machine) × A.stands actor.old m }

    ensures feeds { FeedsChunks A.number A.between result actor.old actor.new (L.Source.left link.old)
        (C.coming clock.old) (C.coming clock.new) (L.Sink.written link.old) (L.Sink.written link.new) }
    ensures stands { (n : Machine) × A.stands actor.new n }
    ensures spent { result ≡ Fed.Spent → A.is_spent actor.new }
    ensures read_faults { L.Source.read_faults link.old ≤ L.Source.read_faults link.new }
    ensures write_faults { L.Sink.write_faults link.old ≤ L.Sink.write_faults link.new }
    ensures peer_fault { result ≡ Fed.PeerFault
        → Rose (L.Source.read_faults link.old) (L.Source.read_faults link.new)
        ⊎ Rose (L.Sink.write_faults link.old) (L.Sink.write_faults link.new) }
{
    let Ok(mut reader) = ChunkReader::new(alloc) else {
        return Fed::Memory;
    };
    let mut tally = OfferCounts::new();
    let mut begun = tally;
    'items: loop {
        match next_item(&mut reader, link) {
            ChunkItem::Header => begun = tally,
            ChunkItem::Sample { t } => {
                let now = clock.now();
                match take_sample(rt, alloc, actor, &reader, t, now, &mut tally) {
                    Ok(()) => {}
                    Err(stopped) => return Fed::from(stopped),
                }
            }
            ChunkItem::ChunkEnd => match tell_chunk(alloc, link, tally.since(begun)) {
                Ok(()) => {}
                Err(cut) => return Fed::from(cut),
            },
            ChunkItem::End => return closed(actor, tally.fed()),
            ChunkItem::Refused(fault) => {
                let line = reader.number();
                return closed(actor, Fed::Refused { line, fault });
            }
            ChunkItem::SourceFault => return Fed::PeerFault,
            ChunkItem::Memory => return Fed::Memory,
        }
    }
}

// Reads the next item of a link. What was written stays.
fn next_item<L: Link>(reader: &mut ChunkReader, link: &mut L) -> ChunkItem
    ensures item { IfNone reader.old.refused (ReadsItem reader.old reader.new
        (to_come reader.old (L.Source.left link.old)) (to_come reader.new (L.Source.left link.new)) result) }
    ensures line { IsLineOf reader.new result }
    ensures faults { L.Source.read_faults link.old ≤ L.Source.read_faults link.new }
    ensures failed { result ≡ ChunkItem.SourceFault
        → Rose (L.Source.read_faults link.old) (L.Source.read_faults link.new) }
    ensures written { L.Sink.written link.new ≡ L.Sink.written link.old }
    ensures write_faults { L.Sink.write_faults link.new ≡ L.Sink.write_faults link.old }
{
    reader.next(link)
}
