// The lines that a feed is replied.
ghost use Rattle.std.specs.Prelude.{◌≡◌, ◌⊎◌, ◌≤◌, IfOk, IsErrOf, OnOk};
ghost use Rattle.std.specs.Io.KnownBytes.{Appends};
ghost use Rattle.edge_io.specs.Stream.{AppendsFront, Rose};
ghost use Rattle.feed_session.specs.Replies.{Tells, last_line, ok_text};
ghost use Rattle.feed_session.specs.Asking.{cut_by};

use crate::end::Fed;
use crate::tally::OfferCounts;
use edge_io::{Link, write_whole};
use itoa::Buffer;
use std::alloc::{AllocError, Global};

/// Why a reply didn't go out whole.
#[derive(Clone, Copy)]
pub(crate) enum Cut {
    Peer,
    Memory,
}

impl From<Cut> for Fed {
    ghost from_gives = { λ cut end. end ≡ cut_by cut };

    fn from(cut: Cut) -> Fed {
        match cut {
            Cut::Peer => Fed::PeerFault,
            Cut::Memory => Fed::Memory,
        }
    }
}

/// Writes the line for a chunk that ended. Where it is cut off a front of it went out.
pub(crate) fn tell_chunk<L: Link>(
    alloc: Global,
    link: &mut L,
    chunk: OfferCounts,
) -> Result<(), Cut>
    ensures all { OnOk result (Appends (L.Sink.written link.old) (L.Sink.written link.new) (ok_text chunk)) }
    ensures front { AppendsFront (L.Sink.written link.old) (L.Sink.written link.new) (ok_text chunk) }
    ensures faults { L.Sink.write_faults link.old ≤ L.Sink.write_faults link.new }
    ensures peer { IsErrOf result Cut.Peer → Rose (L.Sink.write_faults link.old) (L.Sink.write_faults link.new) }
    ensures left { L.Source.left link.new ≡ L.Source.left link.old }
    ensures read_faults { L.Source.read_faults link.new ≡ L.Source.read_faults link.old }
{
    let Ok(line) = ok_line(alloc, chunk) else {
        return Err(Cut::Memory);
    };
    match write_whole(link, &line) {
        Ok(()) => Ok(()),
        Err(_) => Err(Cut::Peer),
    }
}

/// Writes the last line of a session that ended so, and tells how it ended with that.
pub(crate) fn tell_end<L: Link>(alloc: Global, link: &mut L, end: Fed) -> Fed
    ensures tells { Tells end (last_line end) result (L.Sink.written link.old) (L.Sink.written link.new) }
    ensures faults { L.Sink.write_faults link.old ≤ L.Sink.write_faults link.new }
    ensures peer { result ≡ Fed.PeerFault
        → (end ≡ Fed.PeerFault) ⊎ Rose (L.Sink.write_faults link.old) (L.Sink.write_faults link.new) }
    ensures left { L.Source.left link.new ≡ L.Source.left link.old }
    ensures read_faults { L.Source.read_faults link.new ≡ L.Source.read_faults link.old }
{
    let Ok(line) = last_line(alloc, end) else {
        return Fed::Memory;
    };
    match write_whole(link, &line) {
        Ok(()) => end,
        Err(_) => Fed::PeerFault,
    }
}

// The line for a chunk that ended.
fn ok_line(alloc: Global, chunk: OfferCounts) -> Result<Vec<u8>, AllocError>
    ensures { IfOk result (λ line. line.items ≡ ok_text chunk) }
{
    let mut number = Buffer::new();
    let mut line = Vec::from_slice(alloc, b"ok ")?;
    line.extend_from_slice(number.format(chunk.kept).as_bytes())?;
    line.extend_from_slice(b" ")?;
    line.extend_from_slice(number.format(chunk.held).as_bytes())?;
    line.extend_from_slice(b" ")?;
    line.extend_from_slice(number.format(chunk.dropped).as_bytes())?;
    line.extend_from_slice(b"\n")?;
    Ok(line)
}

// The last line of a session that ended so, nothing where there is none.
fn last_line(alloc: Global, end: Fed) -> Result<Vec<u8>, AllocError>
    ensures { IfOk result (λ line. line.items ≡ last_line end) }
{
    let mut number = Buffer::new();
    match end {
        Fed::Fed { kept, .. } => {
            let mut line = Vec::from_slice(alloc, b"durable ")?;
            line.extend_from_slice(number.format(kept).as_bytes())?;
            line.extend_from_slice(b"\n")?;
            Ok(line)
        }
        Fed::Refused { line, fault } => {
            let mut text = Vec::from_slice(alloc, b"refused ")?;
            text.extend_from_slice(number.format(line).as_bytes())?;
            text.extend_from_slice(b" E")?;
            text.extend_from_slice(number.format(fault.number()).as_bytes())?;
            text.extend_from_slice(b"\n")?;
            Ok(text)
        }
        Fed::DiskFault => Vec::from_slice(alloc, b"fault disk\n"),
        Fed::PeerFault | Fed::Spent | Fed::Memory => Ok(Vec::new(alloc)),
    }
}
