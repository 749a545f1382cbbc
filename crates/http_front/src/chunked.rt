//! The body of a reply, on its way to a link.
ghost use Rattle.std.specs.Prelude.{◌≡◌, ◌≤◌, ◌++◌, [], ◌==◌, not, true, false, Some, drop, OnOk, OnErr, length, IfOk};
ghost use Rattle.std.specs.Prelude.{IfSome, ◌<◌, option_map};
ghost use Rattle.std.specs.Io.KnownBytes.{Keeps, WriteAppends};
ghost use Rattle.http_front.specs.Chunks.{chunk_len};
ghost use Rattle.arrayvec.specs.ArrayVec.{array_vec_len};
ghost use Rattle.edge_io.specs.Stream.{Rose};

use crate::coding::{CHUNK, CODED, gather, put_chunk, put_end, send};
use crate::ghost_text::{GhostText, TextPiece};
use arrayvec::ArrayVec;
use edge_io::{Failed, Sink};
use std::snapshot::Snapshot;

/// A sink of a reply's body over a link: the body goes out in chunks of 8,192 bytes (RFC 9112,
/// section 7.1), or as it is.
///
/// After `Failed` the link has a front of the text, nothing of the call's bytes was taken, and the same call goes on
/// where the writing stopped. It takes no memory beyond itself, whatever the body's length.
#[derive(Drop)]
pub struct ChunkedSink<'a, K> {
    link: &'a mut K,
    // Whether the text goes out in chunks.
    in_chunks: bool,
    // The bytes of the next chunk.
    held: ArrayVec<u8, CHUNK>,
    // A chunk, or the end, of which what stands from a place on is still to go out.
    room: ArrayVec<u8, CODED>,
    from: usize,
    // In proofs alone: the link as it came, and what was taken but for the bytes that are held.
    start: Snapshot<K>,
    taken: GhostText,
    ghost within: { from ≤ array_vec_len room },
}

impl<'a, K: Sink> ChunkedSink<'a, K> {
    ghost use Rattle.http_front.specs.Behind.{behind, ended, EndsBody, HasFront};

    /// A sink that has taken nothing. To a client of HTTP/1.1 the body goes out in chunks; the
    /// minor version 0 knows none.
    pub fn new(link: &'a mut K, version: u8) -> ChunkedSink<'a, K>
        ensures same_reference { result.link.ghost_name ≡ link.entry.ghost_name }
        ensures link { result.link.now ≡ link.old }
        ensures written { ⟦<ChunkedSink<'a, K> as Sink>⟧.written result
            ≡ Some (behind (not (version == 0)) link.entry.ghost_name (K.written link.old) []) }
    {
        ChunkedSink {
            in_chunks: version != 0,
            held: ArrayVec::new(),
            room: ArrayVec::new(),
            from: 0,
            start: Snapshot::of(link),
            taken: GhostText::new(),
            link,
        }
    }

    /// Writes what is left of the body, and its end. What is written later goes out as it is.
    ///
    /// `Failed` comes only where the link's count of failed writes rose. Then the link has a front of the text,
    /// and another call goes on.
    pub fn finish(&mut self) -> Result<(), Failed>
        ensures same_reference { self.new.link.ghost_name ≡ self.old.link.ghost_name }
        ensures ends { EndsBody (⟦<ChunkedSink<'a, K> as Sink>⟧.written self.old)
            (⟦<ChunkedSink<'a, K> as Sink>⟧.written self.new) (K.written self.new.link.now) result }
        ensures faults { K.write_faults self.old.link.now ≤ K.write_faults self.new.link.now }
        ensures failed { OnErr result (Rose (K.write_faults self.old.link.now) (K.write_faults self.new.link.now)) }
    {
        self.flush()?;
        self.close();
        self.flush()
    }

    // Writes what is on its way.
    fn flush(&mut self) -> Result<(), Failed>
        ensures same_reference { self.new.link.ghost_name ≡ self.old.link.ghost_name }
        ensures kept { Keeps
            (⟦<ChunkedSink<'a, K> as Sink>⟧.written self.old) (⟦<ChunkedSink<'a, K> as Sink>⟧.written self.new) }
        ensures all { OnOk result (drop self.new.from self.new.room.items ≡ []) }
        ensures rest { (self.new.in_chunks ≡ self.old.in_chunks) × (self.new.held ≡ self.old.held) }
        ensures faults { K.write_faults self.old.link.now ≤ K.write_faults self.new.link.now }
        ensures failed { OnErr result (Rose (K.write_faults self.old.link.now) (K.write_faults self.new.link.now)) }
    {
        send(self.link, self.room.as_slice(), &mut self.from)
    }

    // Where a chunk is full, makes it and writes it.
    fn make_room(&mut self) -> Result<(), Failed>
        requires chunks { self.old.in_chunks ≡ true }
        requires out { drop self.old.from self.old.room.items ≡ [] }
        ensures same_reference { self.new.link.ghost_name ≡ self.old.link.ghost_name }
        ensures kept { Keeps
            (⟦<ChunkedSink<'a, K> as Sink>⟧.written self.old) (⟦<ChunkedSink<'a, K> as Sink>⟧.written self.new) }
        ensures room { (self.new.in_chunks ≡ true) × (array_vec_len self.new.held < chunk_len) }
        ensures out { OnOk result (drop self.new.from self.new.room.items ≡ []) }
        ensures faults { K.write_faults self.old.link.now ≤ K.write_faults self.new.link.now }
        ensures failed { OnErr result (Rose (K.write_faults self.old.link.now) (K.write_faults self.new.link.now)) }
    {
        if !self.held.is_full() {
            return Ok(());
        }
        self.close_chunk();
        self.flush()
    }

    // Makes a chunk of what is held, behind what went out.
    fn close_chunk(&mut self)
        requires chunks { self.old.in_chunks ≡ true }
        requires full { array_vec_len self.old.held ≡ chunk_len }
        requires out { drop self.old.from self.old.room.items ≡ [] }
        ensures link { self.new.link ≡ self.old.link }
        ensures kept { Keeps
            (⟦<ChunkedSink<'a, K> as Sink>⟧.written self.old) (⟦<ChunkedSink<'a, K> as Sink>⟧.written self.new) }
        ensures rest { (self.new.in_chunks ≡ true) × (self.new.held.items ≡ []) }
    {
        self.room.clear();
        self.from = 0;
        put_chunk(&mut self.room, self.held.as_slice());
        self.taken = self.taken.then(&TextPiece(self.held.as_slice()));
        self.held.clear();
    }

    // Makes the end, where the text goes out in chunks.
    fn close(&mut self)
        requires out { drop self.old.from self.old.room.items ≡ [] }
        ensures link { self.new.link ≡ self.old.link }
        ensures plain { self.new.in_chunks ≡ false }
        ensures kept { Keeps (option_map ended (⟦<ChunkedSink<'a, K> as Sink>⟧.written self.old))
            (⟦<ChunkedSink<'a, K> as Sink>⟧.written self.new) }
    {
        if self.in_chunks {
            self.close_body();
        }
    }

    // Makes the end of what is held, behind what went out. What is written later goes out as it is.
    fn close_body(&mut self)
        requires chunks { self.old.in_chunks ≡ true }
        requires out { drop self.old.from self.old.room.items ≡ [] }
        ensures link { self.new.link ≡ self.old.link }
        ensures plain { self.new.in_chunks ≡ false }
        ensures kept { Keeps (option_map ended (⟦<ChunkedSink<'a, K> as Sink>⟧.written self.old))
            (⟦<ChunkedSink<'a, K> as Sink>⟧.written self.new) }
    {
        self.room.clear();
        self.from = 0;
        put_end(&mut self.room, self.held.as_slice());
        self.taken = self.taken.chunked(&TextPiece(self.held.as_slice()));
        self.held.clear();
        self.in_chunks = false;
    }

    // Writes bytes as they are.
    fn pass(&mut self, bytes: &[u8]) -> Result<usize, Failed>
        requires plain { self.old.in_chunks ≡ false }
        requires out { drop self.old.from self.old.room.items ≡ [] }
        requires some { 0 < length bytes.now }
        ensures same_reference { self.new.link.ghost_name ≡ self.old.link.ghost_name }
        ensures rest { (self.new.in_chunks ≡ false) × (drop self.new.from self.new.room.items ≡ []) }
        ensures least { IfOk result (λ n. 0 < n) }
        ensures bound { IfOk result (λ n. n ≤ length bytes.now) }
        ensures bytes { WriteAppends (⟦<ChunkedSink<'a, K> as Sink>⟧.written self.old)
            (⟦<ChunkedSink<'a, K> as Sink>⟧.written self.new) result bytes.now }
        ensures faults { K.write_faults self.old.link.now ≤ K.write_faults self.new.link.now }
        ensures failed { OnErr result (Rose (K.write_faults self.old.link.now) (K.write_faults self.new.link.now)) }
    {
        let count = self.link.write(bytes)?;
        self.taken = self.taken.then(&TextPiece(&bytes[..count]));
        Ok(count)
    }

    /// Gives the link back, as it is: what of the body hasn't gone out is given up.
    pub fn into_link(self) -> &'a mut K
        ensures same_reference { result.ghost_name ≡ self.entry.link.ghost_name }
        ensures link { result.now ≡ self.entry.link.now }
    {
        let ChunkedSink { link, .. } = self;
        link
    }

    /// Whatever follows of the body, the link has a front of what it will have in the end, and no less
    /// than it had before the body.
    pub fn has_front(&self)
        ensures { IfSome (⟦<ChunkedSink<'a, K> as Sink>⟧.written self.now) (λ told.
            HasFront told (K.written self.now.link.now)) }
    {}
}

impl<'a, K: Sink> Sink for ChunkedSink<'a, K> {
    ghost use Rattle.http_front.specs.Behind.{written_behind, Takes};

    ghost written = { λ s. written_behind (K.written s.start.value)
        (K.written s.link.now) s.link.ghost_name s.in_chunks s.taken.bytes s.held.items (drop s.from s.room.items) };

    ghost write_faults = { λ s. K.write_faults s.link.now };

    /// Takes the first bytes: in chunks as many as there is room for in the chunk that they stand in, which goes out
    /// once more comes; and as it is as many as the link takes in one write.
    fn write(&mut self, bytes: &[u8]) -> Result<usize, Failed>
        requires { 0 < length bytes.now }
        ensures least { IfOk result (λ n. 0 < n) }
        ensures bound { IfOk result (λ n. n ≤ length bytes.now) }
        ensures bytes { WriteAppends (⟦<ChunkedSink<'a, K> as Sink>⟧.written self.old)
            (⟦<ChunkedSink<'a, K> as Sink>⟧.written self.new) result bytes.now }
        ensures faults { K.write_faults self.old.link.now ≤ K.write_faults self.new.link.now }
        ensures failed { OnErr result (Rose (K.write_faults self.old.link.now) (K.write_faults self.new.link.now)) }
        ensures same_reference { self.new.link.ghost_name ≡ self.old.link.ghost_name }
        ensures takes { Takes (⟦<ChunkedSink<'a, K> as Sink>⟧.written self.old)
            (⟦<ChunkedSink<'a, K> as Sink>⟧.written self.new) (K.written self.new.link.now) (length bytes.now) result }
    {
        self.flush()?;
        if !self.in_chunks {
            return self.pass(bytes);
        }
        self.make_room()?;
        Ok(gather(&mut self.held, bytes))
    }
}
