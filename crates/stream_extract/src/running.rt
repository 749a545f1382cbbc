// The samples that a reader holds one behind another, taken at once.
ghost use Rattle.std.specs.Prelude.{◌≡◌, ◌≤◌, ◌++◌, ℕ, List, OnOk, OnErr, IsErrOf};
ghost use Rattle.edge_io.specs.Stream.{Rose, AppendsFront};
ghost use Rattle.stream_extract.specs.Run.{RunsOn, Sends};

use crate::answer::ChunkAnswer;
use edge_io::{Failed, Sink, write_two};
use pb_lines::ChunkReader;

// Lines of fewer bytes are gathered, and others written from where they stand.
const MANY: usize = 4096;

// Why a run wasn't written.
#[derive(Clone, Copy)]
pub(crate) enum RunErr {
    // A write failed.
    SinkFault,
    // Memory ran out. The run is still to be read.
    Memory,
}

// Where samples rise, reads those that the reader holds behind the last one, as far as they stand on its side
// of the interval, and writes or gathers those that are in the answer.
pub(crate) fn run_on<K: Sink>(
    rises: bool,
    reader: &mut ChunkReader,
    answer: &mut ChunkAnswer,
    out: &mut Vec<u8>,
    sink: &mut K,
) -> Result<(), RunErr>
    ensures ok { OnOk result ((total : List ℕ) × RunsOn reader.old reader.new answer.old answer.new out.old.items total
        × Sends (K.written sink.old) (K.written sink.new) total out.new.items) }
    ensures fault { IsErrOf result RunErr.SinkFault
        → (total : List ℕ) × RunsOn reader.old reader.new answer.old answer.new out.old.items total
        × AppendsFront (K.written sink.old) (K.written sink.new) total }
    ensures memory { IsErrOf result RunErr.Memory → (out.new.items ≡ out.old.items) × (sink.new ≡ sink.old) }
    ensures faults { K.write_faults sink.old ≤ K.write_faults sink.new }
    ensures failed { IsErrOf result RunErr.SinkFault → Rose (K.write_faults sink.old) (K.write_faults sink.new) }
{
    if !rises {
        return Ok(());
    }
    let Some((last, to)) = answer.run_bounds() else {
        return Ok(());
    };
    let Some(run) = reader.find_run(last, to) else {
        return Ok(());
    };
    let text = reader.run_text(&run);
    let Ok(lines) = answer.take_samples(&run, text, out) else {
        return Err(RunErr::Memory);
    };
    let sent = put_lines(lines, out, sink);
    reader.take_run(run);
    match sent {
        Ok(()) => Ok(()),
        Err(Failed) => Err(RunErr::SinkFault),
    }
}

// Gathers lines, or writes what was gathered and then them, where they are many or memory runs out.
fn put_lines<K: Sink>(lines: &[u8], out: &mut Vec<u8>, sink: &mut K) -> Result<(), Failed>
    ensures ok { OnOk result
        (Sends (K.written sink.old) (K.written sink.new) (out.old.items ++ lines.now) out.new.items) }
    ensures front { OnErr result (AppendsFront (K.written sink.old) (K.written sink.new) (out.old.items ++ lines.now)) }
    ensures faults { K.write_faults sink.old ≤ K.write_faults sink.new }
    ensures failed { OnErr result (Rose (K.write_faults sink.old) (K.write_faults sink.new)) }
{
    if lines.len() >= MANY {
        return write_lines(lines, out, sink);
    }
    match out.extend_from_slice(lines) {
        Ok(()) => Ok(()),
        Err(_) => write_lines(lines, out, sink),
    }
}

// Writes what was gathered, and then lines.
fn write_lines<K: Sink>(lines: &[u8], out: &mut Vec<u8>, sink: &mut K) -> Result<(), Failed>
    ensures ok { OnOk result
        (Sends (K.written sink.old) (K.written sink.new) (out.old.items ++ lines.now) out.new.items) }
    ensures front { OnErr result (AppendsFront (K.written sink.old) (K.written sink.new) (out.old.items ++ lines.now)) }
    ensures faults { K.write_faults sink.old ≤ K.write_faults sink.new }
    ensures failed { OnErr result (Rose (K.write_faults sink.old) (K.write_faults sink.new)) }
{
    write_two(sink, out, lines)?;
    out.clear();
    Ok(())
}
