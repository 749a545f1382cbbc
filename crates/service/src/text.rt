// The text of a pinned variable's answer, written to a sink.
ghost use Rattle.std.specs.Prelude.{◌≤◌, IfSome};
ghost use Rattle.edge_io.specs.Stream.{Rose};
ghost use Rattle.act_model.specs.Machine.{Machine};
ghost use Rattle.retrieval_query.specs.Pinning.{AnswersPinned, IsHeld};
ghost use Rattle.sample_bins.specs.Bins.{IsInRange};
ghost use Rattle.service.specs.Data.{BreaksText, FinishesText, IsWide};

use crate::format::Format;
use act_model::Actor;
use edge_io::Sink;
use json_out::JsonOut;
use retrieval_query::{PinnedVariable, RawOut, Retrieved, read_pinned};
use sample_bins::{BinOut, Op};
use series_model::Query;
use std::alloc::Global;

/// Writes the text of a pinned variable's answer, or of what an operator makes of it, and gives the pin up.
pub(crate) fn give_text<A: Actor, S: Sink>(
    alloc: Global,
    actor: &mut A,
    variable: PinnedVariable,
    query: Query,
    format: Format,
    sink: &mut S,
) -> Retrieved<A::Reader>
    requires held { IsHeld A.number A.stands actor.old variable }
    requires wide { IsWide format }
    ensures answers { AnswersPinned A.number A.between A.is_spent A.stands A.Reader.tells A.Reader.faults
        (FinishesText format) (BreaksText format) (Rose (S.write_faults sink.old) (S.write_faults sink.new)) actor.old
        variable query (S.written sink.old) result actor.new (S.written sink.new) }
    ensures faults { S.write_faults sink.old ≤ S.write_faults sink.new }
    ensures stands { (n : Machine) × A.stands actor.new n }
{
    match format {
        Format::Raw { op } => give_raw(alloc, actor, variable, query, op, sink),
        Format::Json { op } => give_json(alloc, actor, variable, query, op, sink),
    }
}

// Writes lines of the PB file format.
fn give_raw<A: Actor, S: Sink>(
    alloc: Global,
    actor: &mut A,
    variable: PinnedVariable,
    query: Query,
    op: Option<Op>,
    sink: &mut S,
) -> Retrieved<A::Reader>
    requires held { IsHeld A.number A.stands actor.old variable }
    requires wide { IfSome op IsInRange }
    ensures answers { AnswersPinned A.number A.between A.is_spent A.stands A.Reader.tells A.Reader.faults
        (FinishesText (Format.Raw op)) (BreaksText (Format.Raw op))
        (Rose (S.write_faults sink.old) (S.write_faults sink.new)) actor.old variable query
        (S.written sink.old) result actor.new (S.written sink.new) }
    ensures faults { S.write_faults sink.old ≤ S.write_faults sink.new }
    ensures stands { (n : Machine) × A.stands actor.new n }
{
    match op {
        None => {
            let mut out = RawOut::new(alloc, sink);
            let end = read_pinned::<A, RawOut<'_, S>>(alloc, actor, variable, query, &mut out);
            let _sink = out.into_sink();
            end
        }
        Some(op) => {
            let mut out = BinOut::new(alloc, op, RawOut::new(alloc, sink));
            let end = read_pinned::<A, BinOut<RawOut<'_, S>>>(
                alloc, actor, variable, query, &mut out,
            );
            let _sink = out.into_inner().into_sink();
            end
        }
    }
}

// Writes a JSON text.
fn give_json<A: Actor, S: Sink>(
    alloc: Global,
    actor: &mut A,
    variable: PinnedVariable,
    query: Query,
    op: Option<Op>,
    sink: &mut S,
) -> Retrieved<A::Reader>
    requires held { IsHeld A.number A.stands actor.old variable }
    requires wide { IfSome op IsInRange }
    ensures answers { AnswersPinned A.number A.between A.is_spent A.stands A.Reader.tells A.Reader.faults
        (FinishesText (Format.Json op)) (BreaksText (Format.Json op))
        (Rose (S.write_faults sink.old) (S.write_faults sink.new)) actor.old variable query
        (S.written sink.old) result actor.new (S.written sink.new) }
    ensures faults { S.write_faults sink.old ≤ S.write_faults sink.new }
    ensures stands { (n : Machine) × A.stands actor.new n }
{
    match op {
        None => {
            let mut out = JsonOut::new(alloc, sink);
            let end = read_pinned::<A, JsonOut<'_, S>>(alloc, actor, variable, query, &mut out);
            let _sink = out.into_sink();
            end
        }
        Some(op) => {
            let mut out = BinOut::new(alloc, op, JsonOut::new(alloc, sink));
            let end = read_pinned::<A, BinOut<JsonOut<'_, S>>>(
                alloc, actor, variable, query, &mut out,
            );
            let _sink = out.into_inner().into_sink();
            end
        }
    }
}
