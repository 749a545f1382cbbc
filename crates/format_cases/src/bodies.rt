// Bodies of replies that are written.
use crate::peer::Peer;
use crate::texts::add_sum;
use crate::words::Words;
use edge_io::{Sink, write_whole};
use http_front::ChunkedSink;
use std::alloc::{AllocError, Global};
use std::fmt::Write as _;

// More calls than a body takes.
const CALLS: u32 = 100_000;

/// Writes a body and its end, each call once. It tells what was written, how many calls failed, and
/// how many writes there were.
pub fn write_once(alloc: Global, input: &[u8], words: &Words<'_>) -> Result<String, AllocError> {
    let mut peer = peer_of(alloc, words)?;
    let failed = failed_once(&mut peer, version_of(words), input, words.size(1));
    told(alloc, failed, &peer)
}

/// Writes a body and its end, each call again and again until it ends well, then the end once
/// more, and bytes behind it.
pub fn write_again(alloc: Global, input: &[u8], words: &Words<'_>) -> Result<String, AllocError> {
    let mut peer = peer_of(alloc, words)?;
    let failed = failed_again(&mut peer, version_of(words), input, words.size(1));
    told(alloc, failed, &peer)
}

// How many calls fail where each is made once.
fn failed_once<K: Sink>(link: &mut K, version: u8, input: &[u8], piece: usize) -> u64 {
    let mut failed = 0u64;
    let mut sink = ChunkedSink::new(link, version);
    for part in input.chunks(piece.max(1)) {
        failed = failed.saturating_add(u64::from(write_whole(&mut sink, part).is_err()));
    }
    failed.saturating_add(u64::from(sink.finish().is_err()))
}

// How many calls fail where each is made until it ends well.
fn failed_again<K: Sink>(link: &mut K, version: u8, input: &[u8], piece: usize) -> u64 {
    let mut failed = 0u64;
    let mut sink = ChunkedSink::new(link, version);
    write_until_taken(&mut sink, input, piece, &mut failed);
    finish_until_done(&mut sink, &mut failed);
    finish_until_done(&mut sink, &mut failed);
    write_until_taken(&mut sink, b"HTTP", piece, &mut failed);
    failed
}

fn write_until_taken<K: Sink>(sink: &mut K, bytes: &[u8], piece: usize, failed: &mut u64) {
    let mut rest = bytes;
    for _ in 0..CALLS {
        if rest.is_empty() {
            break;
        }
        match sink.write(&rest[..piece.max(1).min(rest.len())]) {
            Ok(count) => rest = &rest[count..],
            Err(_) => *failed = failed.saturating_add(1),
        }
    }
}

fn finish_until_done<K: Sink>(sink: &mut ChunkedSink<'_, K>, failed: &mut u64) {
    for _ in 0..CALLS {
        if sink.finish().is_ok() {
            break;
        }
        *failed = failed.saturating_add(1);
    }
}

fn version_of(words: &Words<'_>) -> u8 {
    u8::from(words.is_one(0))
}

fn peer_of(alloc: Global, words: &Words<'_>) -> Result<Peer, AllocError> {
    Peer::new(alloc, &[], words.size(2), &[], &words.list(alloc, 3)?)
}

fn told(alloc: Global, failed: u64, peer: &Peer) -> Result<String, AllocError> {
    let mut text = String::new(alloc);
    add_sum(&mut text, peer.written())?;
    writeln!(text, "; {failed} failed; {} writes", peer.writes)?;
    Ok(text)
}
