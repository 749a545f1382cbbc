// What a buffer takes for a sink, told as an output tells it.
ghost use Rattle.std.specs.Prelude.{◌≡◌, ◌≤◌, ◌∷◌, ◌++◌, [], OnOk, OnErr, IsErrOf};
ghost use Rattle.edge_io.specs.Stream.{Rose, AppendsFront};
ghost use Rattle.edge_io.specs.Sent.{Sends};

use act_model::OutErr;
use edge_io::{PutErr, Sink, SinkBuffer};

/// Takes a piece of the text.
pub(crate) fn put<K: Sink>(
    buffer: &mut SinkBuffer,
    piece: &[u8],
    sink: &mut K,
) -> Result<(), OutErr>
    ensures sent { OnOk result (Sends (K.written sink.old) (K.written sink.new) (buffer.old ++ piece.now) buffer.new) }
    ensures front { OnErr result (AppendsFront (K.written sink.old) (K.written sink.new) (buffer.old ++ piece.now)) }
    ensures faults { K.write_faults sink.old ≤ K.write_faults sink.new }
    ensures cause { IsErrOf result OutErr.SinkFault → Rose (K.write_faults sink.old) (K.write_faults sink.new) }
{
    match buffer.put(piece, sink) {
        Ok(()) => Ok(()),
        Err(err) => Err(told(err)),
    }
}

/// Takes a line of the text, and a newline behind it.
pub(crate) fn put_line<K: Sink>(
    buffer: &mut SinkBuffer,
    line: &[u8],
    sink: &mut K,
) -> Result<(), OutErr>
    ensures sent { OnOk result
        (Sends (K.written sink.old) (K.written sink.new) (buffer.old ++ (line.now ++ 10 ∷ [])) buffer.new) }
    ensures front { OnErr result
        (AppendsFront (K.written sink.old) (K.written sink.new) (buffer.old ++ (line.now ++ 10 ∷ []))) }
    ensures faults { K.write_faults sink.old ≤ K.write_faults sink.new }
    ensures cause { IsErrOf result OutErr.SinkFault → Rose (K.write_faults sink.old) (K.write_faults sink.new) }
{
    match buffer.put_line(line, sink) {
        Ok(()) => Ok(()),
        Err(err) => Err(told(err)),
    }
}

fn told(err: PutErr) -> OutErr
    ensures { result ≡ OutErr.SinkFault → err ≡ PutErr.SinkFault }
{
    match err {
        PutErr::SinkFault => OutErr::SinkFault,
        PutErr::Memory => OutErr::Memory,
    }
}
