// A request for data is replied to.
ghost use Rattle.std.specs.Prelude.{◌≡◌, ◌≤◌, true, IsTrue};
ghost use Rattle.edge_io.specs.Stream.{Rose};
ghost use Rattle.act_model.specs.Machine.{Machine};
ghost use Rattle.retrieval_query.specs.Pinning.{AnswersPinned, IsHeld, ended_by};
ghost use Rattle.retrieval_query.specs.Retrieving.{ReadsHeaders};
ghost use Rattle.service.specs.Data.{BreaksBody, FinishesBody, IsWhole, IsWide, MakesActs, RepliesPinned, Tells};
ghost use Rattle.service.specs.Data.{pin_refusal};

use crate::body::give_body;
use crate::format::Format;
use act_model::{Actor, OutErr};
use admin_commands::{Refusal, refuse};
use disk_model::ReadAt;
use edge_io::Sink;
use http_front::{Head, write_head};
use retrieval_query::{PinVariableErr, PinnedVariable, Retrieved, give_up_pin, pin_variable};
use series_model::Query;
use std::alloc::Global;

/// Writes the answer of a variable as the reply to a request of HTTP/1.0 or HTTP/1.1, by its minor version:
/// pins the variable, writes the head, reads the pin's pieces and writes the text as it comes, gives the
/// pin up, and ends the body.
///
/// At `Finished` the link has the whole reply. Where no pin was made it has the refusal that says why, a front of that
/// where a write failed, and nothing where memory ran out. At every other answer it has a front of the reply, and
/// nothing where memory ran out for the head.
pub fn reply_with_data<A: Actor, K: Sink>(
    alloc: Global,
    actor: &mut A,
    name: &[u8],
    query: Query,
    format: Format,
    version: u8,
    link: &mut K,
) -> Retrieved<A::Reader>
    requires stands { (m : Machine) × A.stands actor.old m }
    requires wide { IsWide format }
    requires version { version ≤ 1 }
    ensures acts { MakesActs A.Actor A.Reader.ReadAt (Rose (K.write_faults link.old) (K.write_faults link.new))
        actor.old (K.written link.old) actor.new (K.written link.new) format version name.now query result }
    ensures whole { IsTrue A.Reader.tells → (m : Machine) → A.stands actor.old m → m.told ≡ true → ReadsHeaders m.rule
        → IsWhole A.Actor (Rose (K.write_faults link.old) (K.write_faults link.new)) m actor.old
        (K.written link.old) actor.new (K.written link.new) format version name.now query result }
    ensures faults { K.write_faults link.old ≤ K.write_faults link.new }
    ensures stands { (n : Machine) × A.stands actor.new n }
{
    match pin_variable(alloc, actor, name, query) {
        Ok(variable) => reply_pinned(alloc, actor, variable, query, format, version, link),
        Err(why) => refuse_pin(alloc, why, link),
    }
}

// Writes the head, and the body of a pinned variable's answer.
fn reply_pinned<A: Actor, K: Sink>(
    alloc: Global,
    actor: &mut A,
    variable: PinnedVariable,
    query: Query,
    format: Format,
    version: u8,
    link: &mut K,
) -> Retrieved<A::Reader>
    requires held { IsHeld A.number A.stands actor.old variable }
    requires wide { IsWide format }
    requires version { version ≤ 1 }
    ensures replies { RepliesPinned A.Actor (Rose (K.write_faults link.old) (K.write_faults link.new)) format version
        actor.old variable (K.written link.old) (λ mid. AnswersPinned A.number A.between A.is_spent A.stands
        A.Reader.tells A.Reader.faults (FinishesBody format version) (BreaksBody format version)
        (Rose (K.write_faults link.old) (K.write_faults link.new)) actor.old variable query mid
        result actor.new (K.written link.new)) result actor.new (K.written link.new) }
    ensures faults { K.write_faults link.old ≤ K.write_faults link.new }
    ensures stands { (n : Machine) × A.stands actor.new n }
{
    let head = Head {
        status: 200,
        json: format.is_json(),
        length: None,
        version,
    };
    match write_head(alloc, link, &head) {
        Ok(()) => give_body(alloc, actor, variable, query, format, version, link),
        Err(err) => {
            give_up_pin(actor, variable);
            Retrieved::from(err)
        }
    }
}

// Writes the refusal that says why no pin was made.
fn refuse_pin<K: Sink, R: ReadAt>(alloc: Global, why: PinVariableErr, link: &mut K) -> Retrieved<R>
    ensures tells { Tells (pin_refusal why) (Rose (K.write_faults link.old) (K.write_faults link.new))
        (ended_by why) Retrieved.SinkFault Retrieved.Memory (K.written link.old) result (K.written link.new) }
    ensures faults { K.write_faults link.old ≤ K.write_faults link.new }
{
    let Some(refusal) = pin_refusal(why) else {
        return Retrieved::Memory;
    };
    match refuse(alloc, link, refusal) {
        Ok(()) => Retrieved::from(why),
        Err(OutErr::SinkFault) => Retrieved::SinkFault,
        Err(OutErr::Memory) => Retrieved::Memory,
    }
}

// How a request is refused for whose variable no pin was made. Nothing is replied where memory ran out.
fn pin_refusal(why: PinVariableErr) -> Option<Refusal>
    ensures { result ≡ pin_refusal why }
{
    match why {
        PinVariableErr::NoSuchVariable => Some(Refusal::NoSuchVariable),
        PinVariableErr::DiskFault => Some(Refusal::DiskFault),
        PinVariableErr::Spent => Some(Refusal::Spent),
        PinVariableErr::Memory => None,
    }
}
