// The one line that tells why a command ended with a status other than 0.
ghost use Rattle.std.specs.Prelude.{◌≤◌, OnOk, OnErr};
ghost use Rattle.std.specs.List.{flat_map};
ghost use Rattle.std.specs.Io.KnownBytes.{Appends};
ghost use Rattle.edge_io.specs.Stream.{Rose, AppendsFront};
ghost use Rattle.command_words.specs.declared.status.Status.TheVariants.{Damaged};
ghost use Rattle.command_words.specs.Complaint.{Complains, complaint_of};

use crate::status::Status;
use disk_model::FileName;
use edge_io::{Failed, Sink, write_whole};
use itoa::Buffer;

/// Writes the one line that tells why a command ended with a status other than 0, or a front of it. Takes no memory.
pub fn complain<E: Sink>(status: &Status, complaints: &mut E)
    ensures told { Complains (E.written complaints.old) (E.written complaints.new)
        (E.write_faults complaints.old) (E.write_faults complaints.new) (complaint_of status.now) }
    ensures faults { E.write_faults complaints.old ≤ E.write_faults complaints.new }
{
    let mut first = Buffer::new();
    let mut second = Buffer::new();
    match status {
        Status::Done => tell(&[], complaints),
        Status::Usage => tell(
            &[
                b"archappl: usage: archappl extract FROM TO / ingest / get NAME FROM TO / etl / status",
                b" / check / drill N / serve FEEDPORT HTTPPORT WORKERS LINKS / adopt\n",
            ],
            complaints,
        ),
        Status::Refused { line, fault } => tell(
            &[
                b"archappl: line ",
                first.format(*line).as_bytes(),
                b": E",
                second.format(fault.number()).as_bytes(),
                b"\n",
            ],
            complaints,
        ),
        Status::NoSuchVariable => tell(&[b"archappl: no such variable\n"], complaints),
        Status::SourceFault => tell(&[b"archappl: input failed\n"], complaints),
        Status::SinkFault => tell(&[b"archappl: output failed\n"], complaints),
        Status::DiskFault => tell(&[b"archappl: disk failed\n"], complaints),
        Status::Damaged { name, at } => tell_damage(name, *at, complaints),
        Status::OutOfMemory => tell(&[b"archappl: out of memory\n"], complaints),
        Status::DoorFault => tell(&[b"archappl: door failed\n"], complaints),
        Status::Spent => tell(&[b"archappl: acts are spent\n"], complaints),
        Status::GranularityDiffers { kept, asked } => tell(
            &[
                b"archappl: granularity: kept ",
                kept.name(),
                b", asked ",
                asked.name(),
                b"\n",
            ],
            complaints,
        ),
    }
}

fn tell_damage<E: Sink>(name: &FileName, at: u64, complaints: &mut E)
    ensures told { Complains (E.written complaints.old) (E.written complaints.new)
        (E.write_faults complaints.old) (E.write_faults complaints.new) (complaint_of (Damaged name.now at)) }
    ensures faults { E.write_faults complaints.old ≤ E.write_faults complaints.new }
{
    let mut store = Buffer::new();
    let mut place = Buffer::new();
    tell(
        &[
            b"archappl: damaged: ",
            store.format(name.store).as_bytes(),
            b" ",
            name.path.as_slice(),
            b" at ",
            place.format(at).as_bytes(),
            b"\n",
        ],
        complaints,
    );
}

// Writes the pieces of a line. Nobody is left to hear of a fault here.
fn tell<E: Sink>(pieces: &[&[u8]], complaints: &mut E)
    ensures told { Complains (E.written complaints.old) (E.written complaints.new)
        (E.write_faults complaints.old) (E.write_faults complaints.new) (flat_map (λ piece. piece.now) pieces.now) }
    ensures faults { E.write_faults complaints.old ≤ E.write_faults complaints.new }
{
    let _ = write_pieces(pieces, complaints);
}

/// Writes the pieces of a line, one after another, each whole, up to the first write that fails. It takes no memory.
pub fn write_pieces<E: Sink>(pieces: &[&[u8]], sink: &mut E) -> Result<(), Failed>
    ensures all { OnOk result
        (Appends (E.written sink.old) (E.written sink.new) (flat_map (λ piece. piece.now) pieces.now)) }
    ensures front { OnErr result
        (AppendsFront (E.written sink.old) (E.written sink.new) (flat_map (λ piece. piece.now) pieces.now)) }
    ensures failed { OnErr result (Rose (E.write_faults sink.old) (E.write_faults sink.new)) }
    ensures faults { E.write_faults sink.old ≤ E.write_faults sink.new }
{
    for piece in pieces {
        write_whole(sink, piece)?;
    }
    Ok(())
}
