// The body of a reply with data, on its way to a link.
ghost use Rattle.std.specs.Prelude.{◌≡◌, ◌≤◌, List, ℕ, Some};
ghost use Rattle.edge_io.specs.Stream.{Rose};
ghost use Rattle.act_model.specs.Machine.{Machine};
ghost use Rattle.retrieval_query.specs.Pinning.{AnswersPinned, IsHeld};
ghost use Rattle.service.specs.Data.{BreaksBody, BreaksText, Closes, FinishesBody, FinishesText, IsWide};

use crate::format::Format;
use crate::text::give_text;
use act_model::Actor;
use disk_model::ReadAt;
use edge_io::Sink;
use http_front::ChunkedSink;
use retrieval_query::{PinnedVariable, Retrieved};
use series_model::Query;
use std::alloc::Global;

/// Writes the body of a pinned variable's answer, and gives the pin up. Where anything fails the body has no end.
pub(crate) fn give_body<A: Actor, K: Sink>(
    alloc: Global,
    actor: &mut A,
    variable: PinnedVariable,
    query: Query,
    format: Format,
    version: u8,
    link: &mut K,
) -> Retrieved<A::Reader>
    requires held { IsHeld A.number A.stands actor.old variable }
    requires wide { IsWide format }
    ensures answers { AnswersPinned A.number A.between A.is_spent A.stands A.Reader.tells A.Reader.faults
        (FinishesBody format version) (BreaksBody format version)
        (Rose (K.write_faults link.old) (K.write_faults link.new)) actor.old variable query
        (K.written link.old) result actor.new (K.written link.new) }
    ensures faults { K.write_faults link.old ≤ K.write_faults link.new }
    ensures stands { (n : Machine) × A.stands actor.new n }
{
    let mut body = ChunkedSink::new(link, version);
    let given = give_in_chunks(alloc, actor, variable, query, format, &mut body);
    let end = end_body(given, &mut body);
    body.has_front();
    let _link = body.into_link();
    end
}

// Writes the text of the answer as the body's. It says that the body still writes to the same link, which
// `give_text` can't of any sink.
fn give_in_chunks<'a, A: Actor, K: Sink>(
    alloc: Global,
    actor: &mut A,
    variable: PinnedVariable,
    query: Query,
    format: Format,
    body: &mut ChunkedSink<'a, K>,
) -> Retrieved<A::Reader>
    requires held { IsHeld A.number A.stands actor.old variable }
    requires wide { IsWide format }
    requires told { (told : List ℕ) × (⟦<ChunkedSink<'a, K> as Sink>⟧.written body.old ≡ Some told) }
    ensures same_reference { body.new.link.ghost_name ≡ body.old.link.ghost_name }
    ensures answers { AnswersPinned A.number A.between A.is_spent A.stands A.Reader.tells A.Reader.faults
        (FinishesText format) (BreaksText format)
        (Rose (K.write_faults body.old.link.now) (K.write_faults body.new.link.now)) actor.old
        variable query (⟦<ChunkedSink<'a, K> as Sink>⟧.written body.old)
        result actor.new (⟦<ChunkedSink<'a, K> as Sink>⟧.written body.new) }
    ensures faults { K.write_faults body.old.link.now ≤ K.write_faults body.new.link.now }
    ensures stands { (n : Machine) × A.stands actor.new n }
{
    give_text::<A, ChunkedSink<'a, K>>(alloc, actor, variable, query, format, body)
}

// Ends the body, if its text is whole.
fn end_body<'a, K: Sink, R: ReadAt>(
    given: Retrieved<R>,
    body: &mut ChunkedSink<'a, K>,
) -> Retrieved<R>
    ensures same_reference { body.new.link.ghost_name ≡ body.old.link.ghost_name }
    ensures closes { Closes given (Rose (K.write_faults body.old.link.now) (K.write_faults body.new.link.now)) result
        (⟦<ChunkedSink<'a, K> as Sink>⟧.written body.old) (⟦<ChunkedSink<'a, K> as Sink>⟧.written body.new)
        (K.written body.new.link.now) }
    ensures faults { K.write_faults body.old.link.now ≤ K.write_faults body.new.link.now }
{
    let Retrieved::Finished { count } = given else {
        return given;
    };
    match body.finish() {
        Ok(()) => Retrieved::Finished { count },
        Err(_) => Retrieved::SinkFault,
    }
}
