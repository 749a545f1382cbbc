//! The head of a reply.
ghost use Rattle.std.specs.Prelude.{◌≡◌, ◌≤◌, ◌++◌, ◌∷◌, [], List, length, decimal, IfOk, OnOk, IsErrOf};
ghost use Rattle.std.specs.Io.KnownBytes.{Appends};
ghost use Rattle.edge_io.specs.Stream.{Rose, AppendsFront};
ghost use Rattle.http_front.specs.Reply.{status_text, type_text, framing_text, head_text, IsHead};

use act_model::OutErr;
use edge_io::{Sink, write_whole};
use itoa::Buffer;
use std::alloc::{AllocError, Global};

/// The head of a reply (RFC 9112, section 4).
#[derive(Clone, Copy, Debug, PartialEq, Eq)]
pub struct Head {
    /// The status: 200, 400, 404, 405, 409, 431, 500 or 503.
    pub status: u16,
    /// Whether the body is JSON. Otherwise it is a stream of PB lines.
    pub json: bool,
    /// The body's length in bytes; `None` for a body in chunks.
    pub length: Option<u64>,
    /// The minor version of the request, which is 0 or 1. A body without a length goes out in chunks
    /// for version 1, and as it is for version 0, which knows no chunks.
    pub version: u8,
}

/// Writes the head of a reply, each of its lines with CR LF and the empty line behind it, in one text.
///
/// After an error a front of the text went out. `SinkFault` comes only where the sink's count of
/// failed writes rose; at `Memory` nothing was written.
pub fn write_head<K: Sink>(alloc: Global, sink: &mut K, head: &Head) -> Result<(), OutErr>
    requires { IsHead head.now }
    ensures all { OnOk result (Appends (K.written sink.old) (K.written sink.new) (head_text head.now)) }
    ensures front { AppendsFront (K.written sink.old) (K.written sink.new) (head_text head.now) }
    ensures memory { IsErrOf result OutErr.Memory → sink.new ≡ sink.old }
    ensures faults { K.write_faults sink.old ≤ K.write_faults sink.new }
    ensures cause { IsErrOf result OutErr.SinkFault → Rose (K.write_faults sink.old) (K.write_faults sink.new) }
{
    let Ok(text) = head_text(alloc, head) else {
        return Err(OutErr::Memory);
    };
    match write_whole(sink, &text) {
        Ok(()) => Ok(()),
        Err(_) => Err(OutErr::SinkFault),
    }
}

fn head_text(alloc: Global, head: &Head) -> Result<Vec<u8>, AllocError>
    ensures { IfOk result (λ text. text.items ≡ head_text head.now) }
{
    let mut text = Vec::from_slice(alloc, b"HTTP/1.1 ")?;
    text.extend_from_slice(status_text(head.status).as_bytes())?;
    text.extend_from_slice(b"\r\nContent-Type: ")?;
    text.extend_from_slice(type_text(head.json).as_bytes())?;
    text.extend_from_slice(b"\r\n")?;
    add_framing(&mut text, head)?;
    text.extend_from_slice(b"Connection: close\r\n\r\n")?;
    Ok(text)
}

// Appends the line that says where the body ends. HTTP/1.0 knows no chunks.
fn add_framing(text: &mut Vec<u8>, head: &Head) -> Result<(), AllocError>
    ensures { OnOk result (text.new.items ≡ text.old.items ++ framing_text head.now) }
{
    match head.length {
        Some(length) => {
            text.extend_from_slice(b"Content-Length: ")?;
            text.extend_from_slice(Buffer::new().format(length).as_bytes())?;
            text.extend_from_slice(b"\r\n")
        }
        None if head.version == 0 => Ok(()),
        None => text.extend_from_slice(b"Transfer-Encoding: chunked\r\n"),
    }
}

// A status and its phrase (RFC 9110, section 15; RFC 6585 for 431).
fn status_text(status: u16) -> &'static str
    ensures { result.now ≡ status_text status }
{
    match status {
        200 => "200 OK",
        400 => "400 Bad Request",
        404 => "404 Not Found",
        405 => "405 Method Not Allowed",
        409 => "409 Conflict",
        431 => "431 Request Header Fields Too Large",
        500 => "500 Internal Server Error",
        _ => "503 Service Unavailable",
    }
}

fn type_text(json: bool) -> &'static str
    ensures { result.now ≡ type_text json }
{
    if json {
        "application/json"
    } else {
        "application/octet-stream"
    }
}
