// A reply: a head and a JSON body, written to a sink.
ghost use Rattle.std.specs.Prelude.{◌≡◌, ◌≤◌, ◌++◌, ◌==◌, IfOk, OnOk, IsErrOf, IsTrue};
ghost use Rattle.std.specs.List.{list_any};
ghost use Rattle.std.specs.Io.KnownBytes.{Appends};
ghost use Rattle.edge_io.specs.Stream.{Rose, AppendsFront};
ghost use Rattle.http_front.specs.Reply.{head_text, statuses};
ghost use Rattle.admin_commands.specs.Replies.{body_of, head_of, reply_text, status_of, text_of};

use crate::refusal::Refusal;
use act_model::OutErr;
use edge_io::{Sink, write_whole};
use http_front::{Head, write_head};
use series_model::Blob;
use std::alloc::{AllocError, Global};

/// What a request is replied: this text, or a refusal.
#[derive(Drop)]
pub(crate) enum WebReply {
    Success(Blob),
    Refused(Refusal),
}

impl WebReply {
    // The status, which is one of those that a head may have.
    fn status(&self) -> u16
        ensures is { result ≡ status_of self.now }
        ensures listed { IsTrue (list_any (λ status. status == result) statuses) }
    {
        match self {
            WebReply::Success(_) => 200,
            WebReply::Refused(refusal) => refusal.status(),
        }
    }

    // The body, with its newline.
    fn into_body(self, alloc: Global) -> Result<Vec<u8>, AllocError>
        ensures { IfOk result (λ body. body.items ≡ body_of self) }
    {
        let mut body = self.into_text(alloc)?;
        body.push(b'\n')?;
        Ok(body)
    }

    fn into_text(self, alloc: Global) -> Result<Vec<u8>, AllocError>
        ensures { IfOk result (λ text. text.items ≡ text_of self) }
    {
        match self {
            WebReply::Success(text) => text.bytes().to_vec(alloc),
            WebReply::Refused(refusal) => refused_text(alloc, refusal),
        }
    }
}

fn refused_text(alloc: Global, refusal: Refusal) -> Result<Vec<u8>, AllocError>
    ensures { IfOk result (λ text. text.items ≡ text_of (WebReply.Refused refusal)) }
{
    let mut text = Vec::new(alloc);
    refusal.put(&mut text)?;
    Ok(text)
}

/// Writes a whole reply.
pub(crate) fn send<K: Sink>(alloc: Global, sink: &mut K, reply: WebReply) -> Result<(), OutErr>
    ensures all { OnOk result (Appends (K.written sink.old) (K.written sink.new) (reply_text reply)) }
    ensures front { AppendsFront (K.written sink.old) (K.written sink.new) (reply_text reply) }
    ensures memory { IsErrOf result OutErr.Memory → sink.new ≡ sink.old }
    ensures faults { K.write_faults sink.old ≤ K.write_faults sink.new }
    ensures cause { IsErrOf result OutErr.SinkFault → Rose (K.write_faults sink.old) (K.write_faults sink.new) }
{
    let status = reply.status();
    let Ok(body) = reply.into_body(alloc) else {
        return Err(OutErr::Memory);
    };
    send_body(alloc, sink, status, &body)
}

// Writes the head of a body, and the body.
fn send_body<K: Sink>(alloc: Global, sink: &mut K, status: u16, body: &[u8]) -> Result<(), OutErr>
    requires { IsTrue (list_any (λ listed. listed == status) statuses) }
    ensures all { OnOk result
        (Appends (K.written sink.old) (K.written sink.new) (head_text (head_of status body.now) ++ body.now)) }
    ensures front { AppendsFront (K.written sink.old) (K.written sink.new)
        (head_text (head_of status body.now) ++ body.now) }
    ensures memory { IsErrOf result OutErr.Memory → sink.new ≡ sink.old }
    ensures faults { K.write_faults sink.old ≤ K.write_faults sink.new }
    ensures cause { IsErrOf result OutErr.SinkFault → Rose (K.write_faults sink.old) (K.write_faults sink.new) }
{
    let head = Head {
        status,
        json: true,
        length: Some(body.len() as u64),
        version: 1,
    };
    write_head(alloc, sink, &head)?;
    match write_whole(sink, body) {
        Ok(()) => Ok(()),
        Err(_) => Err(OutErr::SinkFault),
    }
}

/// Writes the whole reply of a request that is refused.
///
/// After an error a front of the reply went out. `SinkFault` comes only where the sink's count of failed writes rose;
/// at `Memory` nothing was written.
pub fn refuse<K: Sink>(alloc: Global, sink: &mut K, refusal: Refusal) -> Result<(), OutErr>
    ensures all { OnOk result
        (Appends (K.written sink.old) (K.written sink.new) (reply_text (WebReply.Refused refusal))) }
    ensures front { AppendsFront (K.written sink.old) (K.written sink.new) (reply_text (WebReply.Refused refusal)) }
    ensures memory { IsErrOf result OutErr.Memory → sink.new ≡ sink.old }
    ensures faults { K.write_faults sink.old ≤ K.write_faults sink.new }
    ensures cause { IsErrOf result OutErr.SinkFault → Rose (K.write_faults sink.old) (K.write_faults sink.new) }
{
    send(alloc, sink, WebReply::Refused(refusal))
}
