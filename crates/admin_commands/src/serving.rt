// A management call is served.
ghost use Rattle.std.specs.Prelude.{◌≡◌, ◌≤◌, true, IsErrOf};
ghost use Rattle.edge_io.specs.Stream.{Rose};
ghost use Rattle.act_model.specs.Machine.{Machine};
ghost use Rattle.admin_commands.specs.Next.{is_management};
ghost use Rattle.admin_commands.specs.Serving.{Serves};

use crate::calls::serve;
use crate::end::{AdminErr, NoReply};
use crate::refusal::Refusal;
use crate::reply::{refuse, send};
use act_model::{Actor, OutErr};
use edge_io::Sink;
use http_front::WebCall;
use std::alloc::Global;

/// Serves a management call, which is neither of the two retrievals: makes just the acts that it asks for, in order,
/// and writes the whole reply over their answers. A fault of the disk is a reply.
///
/// `SinkFault` comes only where the sink's count of failed writes rose, and then a front of the reply went out. `Spent`
/// comes only where no act is left, and then the reply that says so went out. At `Memory` nothing was written.
pub fn admin<A: Actor, K: Sink>(
    alloc: Global,
    actor: &mut A,
    call: &WebCall,
    sink: &mut K,
) -> Result<(), AdminErr>
    requires stands { (m : Machine) × A.stands actor.old m }
    requires management { is_management call.now ≡ true }
    ensures serves { Serves A.number A.between A.is_spent call.now actor.old result actor.new
        (K.written sink.old) (K.written sink.new) }
    ensures stands { (n : Machine) × A.stands actor.new n }
    ensures memory { IsErrOf result AdminErr.Memory → sink.new ≡ sink.old }
    ensures write_faults { K.write_faults sink.old ≤ K.write_faults sink.new }
    ensures sink_fault { IsErrOf result AdminErr.SinkFault → Rose (K.write_faults sink.old) (K.write_faults sink.new) }
{
    match serve(alloc, actor, call) {
        Ok(reply) => match send(alloc, sink, reply) {
            Ok(()) => Ok(()),
            Err(OutErr::SinkFault) => Err(AdminErr::SinkFault),
            Err(OutErr::Memory) => Err(AdminErr::Memory),
        },
        Err(NoReply::Spent) => match refuse(alloc, sink, Refusal::Spent) {
            Ok(()) => Err(AdminErr::Spent),
            Err(OutErr::SinkFault) => Err(AdminErr::SinkFault),
            Err(OutErr::Memory) => Err(AdminErr::Memory),
        },
        Err(NoReply::Memory) => Err(AdminErr::Memory),
    }
}
