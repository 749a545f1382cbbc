// The command that needs no store.
ghost use Rattle.std.specs.Prelude.{◌≡◌, ◌⊎◌, ◌≤◌, ◌∷◌, [], ◌++◌, Some, None, OnOk, OnErr, if◌then◌else◌};
ghost use Rattle.std.specs.Io.{StartsWith};
ghost use Rattle.std.specs.Io.KnownBytes.{Appends};
ghost use Rattle.edge_io.specs.Stream.{Rose, AppendsFront};
ghost use Rattle.series_model.specs.declared.sample.Query.{Query};
ghost use Rattle.pb_lines.specs.Reader.{HoldsLine, line_number};
ghost use Rattle.stream_extract.specs.Text.{Extracts, IsFlushed};

use crate::answer::{ChunkAnswer, add_line};
use crate::running::{RunErr, run_on};
use command_words::Status;
use edge_io::{Failed, Sink, Source, write_whole};
use pb_lines::{ChunkFault, ChunkItem, ChunkReader};
use series_model::Query;
use std::alloc::{AllocError, Global};

/// Writes, of each chunk of the source, its header, the last sample before the interval and the
/// interval's samples, each line as it stands, and an empty line between two chunks.
///
/// What is to be written is gathered, and goes out before each read, at the end, and before a refusal.
/// Many lines of samples that follow one another are written from where they were read.
pub fn extract<S: Source, K: Sink>(
    alloc: Global,
    query: Query,
    source: &mut S,
    sink: &mut K,
) -> Status
    ensures text { Extracts query (S.left source.old) (K.written sink.old) (K.written sink.new) result }
    ensures source_fault { result ≡ Status.SourceFault → Rose (S.read_faults source.old) (S.read_faults source.new) }
    ensures sink_fault { result ≡ Status.SinkFault → Rose (K.write_faults sink.old) (K.write_faults sink.new) }
    ensures source_faults { S.read_faults source.old ≤ S.read_faults source.new }
    ensures sink_faults { K.write_faults sink.old ≤ K.write_faults sink.new }
{
    let Ok(mut reader) = ChunkReader::new(alloc) else {
        return Status::OutOfMemory;
    };
    let mut answer = ChunkAnswer::new(alloc, query);
    let mut out = Vec::new(alloc);
    let mut later = false;
    // Whether the last sample was later than those before it, as its followers may be.
    let mut rises = false;
    'lines: loop {
        if before_read(&reader, &mut out, sink).is_err() {
            return Status::SinkFault;
        }
        let done = match reader.read_line(source) {
            None => Ok(()),
            Some(ChunkItem::Header) => {
                answer.begin();
                let done = add_header(later, reader.line(), &mut out);
                later = true;
                done
            }
            Some(ChunkItem::Sample { t }) => {
                rises = !answer.is_past(t);
                answer.take(t, reader.line(), &mut out)
            }
            Some(ChunkItem::ChunkEnd) => answer.finish(&mut out),
            Some(ChunkItem::End) => return ended(Status::Done, &out, sink),
            Some(ChunkItem::Refused(fault)) => return ended(refused(&reader, fault), &out, sink),
            Some(ChunkItem::SourceFault) => return ended(Status::SourceFault, &out, sink),
            Some(ChunkItem::Memory) => return ended(Status::OutOfMemory, &out, sink),
        };
        if done.is_err() {
            return ended(Status::OutOfMemory, &out, sink);
        }
        match run_on(rises, &mut reader, &mut answer, &mut out, sink) {
            Ok(()) => {}
            Err(RunErr::SinkFault) => return Status::SinkFault,
            Err(RunErr::Memory) => return ended(Status::OutOfMemory, &out, sink),
        }
    }
}

// The refusal of the bad line that was met.
fn refused(reader: &ChunkReader, fault: ChunkFault) -> Status
    ensures { result ≡ Status.Refused (line_number reader.now) fault }
{
    Status::Refused {
        line: reader.number(),
        fault,
    }
}

// Adds a header's line, behind an empty line where a chunk came before. Where memory runs out,
// `out` stays.
fn add_header(later: bool, line: &[u8], out: &mut Vec<u8>) -> Result<(), AllocError>
    ensures ok { OnOk result
        (out.new.items ≡ out.old.items ++ ((if later then 10 ∷ [] else []) ++ (line.now ++ 10 ∷ []))) }
    ensures err { OnErr result (out.new.items ≡ out.old.items) }
{
    let before = out.len();
    let done = add_header_lines(later, line, out);
    if done.is_err() {
        out.truncate(before);
    }
    done
}

// The same, but where memory runs out a part may stand behind the old bytes.
fn add_header_lines(later: bool, line: &[u8], out: &mut Vec<u8>) -> Result<(), AllocError>
    ensures ok { OnOk result
        (out.new.items ≡ out.old.items ++ ((if later then 10 ∷ [] else []) ++ (line.now ++ 10 ∷ []))) }
    ensures grows { StartsWith out.new.items out.old.items }
{
    if later {
        out.push(b'\n')?;
    }
    add_line(line, out)
}

// Writes what was gathered where the next line isn't held yet: one write for each read.
fn before_read<K: Sink>(reader: &ChunkReader, out: &mut Vec<u8>, sink: &mut K) -> Result<(), Failed>
    ensures ok { OnOk result (IsFlushed (K.written sink.old) (K.written sink.new) out.old.items out.new.items) }
    ensures all { (HoldsLine reader.now → ⊥) → OnOk result (out.new.items ≡ []) }
    ensures front { OnErr result (AppendsFront (K.written sink.old) (K.written sink.new) out.old.items) }
    ensures faults { K.write_faults sink.old ≤ K.write_faults sink.new }
    ensures failed { OnErr result (Rose (K.write_faults sink.old) (K.write_faults sink.new)) }
{
    if reader.holds_line() {
        return Ok(());
    }
    write_out(out, sink)
}

// Writes what was gathered, and gathers anew.
fn write_out<K: Sink>(out: &mut Vec<u8>, sink: &mut K) -> Result<(), Failed>
    ensures ok { OnOk result (Appends (K.written sink.old) (K.written sink.new) out.old.items) }
    ensures empty { OnOk result (out.new.items ≡ []) }
    ensures front { OnErr result (AppendsFront (K.written sink.old) (K.written sink.new) out.old.items) }
    ensures faults { K.write_faults sink.old ≤ K.write_faults sink.new }
    ensures failed { OnErr result (Rose (K.write_faults sink.old) (K.write_faults sink.new)) }
{
    write_whole(sink, out)?;
    out.clear();
    Ok(())
}

// Writes what was gathered last. The sink's fault is told in place of what ended the input.
fn ended<K: Sink>(status: Status, out: &[u8], sink: &mut K) -> Status
    requires { status ≡ Status.SinkFault → ⊥ }
    ensures all { result ≡ status → Appends (K.written sink.old) (K.written sink.new) out.now }
    ensures front { AppendsFront (K.written sink.old) (K.written sink.new) out.now }
    ensures status { (result ≡ status) ⊎ (result ≡ Status.SinkFault) }
    ensures faults { K.write_faults sink.old ≤ K.write_faults sink.new }
    ensures failed { result ≡ Status.SinkFault → Rose (K.write_faults sink.old) (K.write_faults sink.new) }
{
    match write_whole(sink, out) {
        Ok(()) => status,
        Err(_) => Status::SinkFault,
    }
}
