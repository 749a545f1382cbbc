// Heads of requests that are read, and heads of replies that are written.
ghost use Rattle.std.specs.Prelude.{IfSome};
ghost use Rattle.http_front.specs.Reply.{IsHead};

use crate::peer::Peer;
use crate::texts::add_text;
use crate::words::Words;
use http_front::{Head, HttpErr, WebCall, read_request, write_head};
use pb_messages::Method;
use pv_name::PvName;
use sample_bins::Op;
use series_model::Query;
use std::alloc::{AllocError, Global};
use std::fmt::Write as _;

/// Reads a request, and tells it with the number of reads and of bytes that were left.
pub fn read(alloc: Global, input: &[u8], words: &Words<'_>) -> Result<String, AllocError> {
    let mut text = String::new(alloc);
    let mut peer = Peer::new(alloc, input, words.size(0), &words.list(alloc, 1)?, &[])?;
    match read_request(alloc, &mut peer) {
        Ok(request) => {
            write!(text, "{} ", request.version)?;
            add_call(&mut text, &request.call)?;
        }
        Err(refusal) => add_refusal(&mut text, refusal)?,
    }
    let left = input.len().saturating_sub(peer.given);
    writeln!(text, "; {} reads, {left} left", peer.reads)?;
    Ok(text)
}

/// What is told of bytes that are no request.
pub fn add_refusal(text: &mut String, refusal: HttpErr) -> Result<(), AllocError> {
    match refusal {
        HttpErr::SourceFault => text.push_str("fault"),
        HttpErr::BadHead => text.push_str("E27"),
        HttpErr::HeadTooLong => text.push_str("E28"),
        HttpErr::BadMethod => text.push_str("E29"),
        HttpErr::BadPath => text.push_str("E30"),
        HttpErr::BadParameter { which } => write!(text, "E31 {}", which.name()),
        HttpErr::Memory => text.push_str("memory"),
    }
}

fn add_call(text: &mut String, call: &WebCall) -> Result<(), AllocError> {
    match call {
        WebCall::Raw { pv, query, op } => add_data(text, "raw ", pv, query, *op),
        WebCall::Json { pv, query, op } => add_data(text, "json ", pv, query, *op),
        WebCall::AllPvs => text.push_str("all"),
        WebCall::PvStatus { pv } => add_named(text, "status ", pv),
        WebCall::PvDetails { pv } => add_named(text, "details ", pv),
        WebCall::ArchivePv { pv, about } => {
            add_named(text, "archive ", pv)?;
            write!(text, " {}", about.ty.name())?;
            add_method(text, about.method)?;
            write!(text, " {}", about.headers.items().len())
        }
        WebCall::PausePv { pv } => add_named(text, "pause ", pv),
        WebCall::ResumePv { pv } => add_named(text, "resume ", pv),
        WebCall::RenamePv { pv, newname } => {
            add_named(text, "rename ", pv)?;
            add_named(text, " ", newname)
        }
        WebCall::FlushAll => text.push_str("flush"),
    }
}

fn add_method(text: &mut String, method: Method) -> Result<(), AllocError> {
    match method {
        Method::Monitor => text.push_str(" monitor"),
        Method::Scan { period } => write!(text, " scan {period}"),
    }
}

fn add_named(text: &mut String, word: &str, pv: &PvName) -> Result<(), AllocError> {
    text.push_str(word)?;
    add_text(text, pv.bytes())
}

fn add_data(
    text: &mut String,
    word: &str,
    pv: &PvName,
    query: &Query,
    op: Option<Op>,
) -> Result<(), AllocError> {
    add_named(text, word, pv)?;
    write!(text, " {} {}", query.from, query.to)?;
    match op {
        None => Ok(()),
        Some(Op::FirstSample(width)) => write!(text, " firstSample {width}"),
        Some(Op::LastSample(width)) => write!(text, " lastSample {width}"),
        Some(Op::Count(width)) => write!(text, " count {width}"),
        Some(Op::Nth(number)) => write!(text, " nth {number}"),
        Some(Op::NCount) => text.push_str(" ncount"),
    }
}

/// Writes the head of a reply, if the words are one's.
pub fn write(alloc: Global, words: &Words<'_>) -> Result<String, AllocError> {
    let mut text = String::new(alloc);
    let mut peer = Peer::new(alloc, &[], usize::MAX, &[], &[])?;
    if let Some(head) = head_of(words)
        && write_head(alloc, &mut peer, &head).is_ok()
    {
        add_text(&mut text, peer.written())?;
    }
    text.push('\n')?;
    Ok(text)
}

fn head_of(words: &Words<'_>) -> Option<Head>
    ensures { IfSome result IsHead }
{
    let status = u16::try_from(words.number(0)?).ok()?;
    let json = words.is_one(1);
    let version = u8::from(words.is_one(2));
    let length = words.number(3);
    let is_known = matches!(status, 200 | 400 | 404 | 405 | 409 | 431 | 500 | 503);
    if !is_known || (length.is_none() && status != 200) || (length.is_some() && !json) {
        return None;
    }
    Some(Head {
        status,
        json,
        length,
        version,
    })
}
