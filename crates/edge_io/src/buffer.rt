// The bytes that are gathered for a sink.
ghost use Rattle.std.specs.Prelude.{◌≡◌, ◌+◌, ◌≤◌, ◌<◌, ◌∷◌, [], ◌++◌, length, OnOk, OnErr, IsErrOf};
ghost use Rattle.std.specs.Io.KnownBytes.{Appends};
ghost use Rattle.edge_io.specs.Stream.{Rose, AppendsFront};
ghost use Rattle.edge_io.specs.declared.buffer.PutErr.TheVariants.{Memory, SinkFault};
ghost use Rattle.edge_io.specs.Sent.{Sends, most_gathered};

use crate::stream::{Failed, Sink, write_two, write_whole};
use std::alloc::{AllocError, Global};
use std::marker::Model;

/// So many bytes are gathered at most.
pub const MOST: usize = 65_536;

/// Why a piece was not taken.
#[derive(Clone, Copy, Debug, PartialEq, Eq)]
pub enum PutErr {
    /// A write failed, which the sink has counted.
    SinkFault,
    /// Memory ran out.
    Memory,
}

impl From<AllocError> for PutErr {
    ghost from_gives = { λ _ e. e ≡ Memory };

    fn from(_: AllocError) -> Self {
        PutErr::Memory
    }
}

impl From<Failed> for PutErr {
    ghost from_gives = { λ _ e. e ≡ SinkFault };

    fn from(_: Failed) -> Self {
        PutErr::SinkFault
    }
}

/// Bytes that are gathered for a sink. Each call is given the same sink.
#[derive(Drop)]
pub struct SinkBuffer {
    bytes: Vec<u8>,
}

impl Model for SinkBuffer {
    ghost use Rattle.std.specs.Prelude.{ℕ, ◌≤◌, List, vec_len};
    ghost use Rattle.edge_io.specs.Sent.{most_gathered};

    ghost Value = { List ℕ };

    ghost view = { λ b. b.bytes.items };

    ghost invariant = { λ b. vec_len b.bytes ≤ most_gathered };
}

impl SinkBuffer {
    /// Nothing is gathered. It takes no memory.
    pub fn new(alloc: Global) -> SinkBuffer
        ensures { result ≡ [] }
    {
        SinkBuffer {
            bytes: Vec::new(alloc),
        }
    }

    /// Takes a piece of a text. Where much is gathered with it, that is written first.
    ///
    /// `SinkFault` comes only where the sink's count of failed writes rose, and nothing is gathered then. After an
    /// error a front of what was gathered and the piece went out.
    pub fn put<K: Sink>(&mut self, piece: &[u8], sink: &mut K) -> Result<(), PutErr>
        ensures ok { OnOk result (Sends (K.written sink.old) (K.written sink.new) (self.old ++ piece.now) self.new) }
        ensures front { OnErr result (AppendsFront (K.written sink.old) (K.written sink.new) (self.old ++ piece.now)) }
        ensures most { length self.new ≤ most_gathered }
        ensures empty { IsErrOf result PutErr.SinkFault → self.new ≡ [] }
        ensures memory { IsErrOf result PutErr.Memory
            → Sends (K.written sink.old) (K.written sink.new) self.old self.new }
        ensures faults { K.write_faults sink.old ≤ K.write_faults sink.new }
        ensures failed { IsErrOf result PutErr.SinkFault → Rose (K.write_faults sink.old) (K.write_faults sink.new) }
    {
        self.make_room(piece.len(), sink)?;
        if piece.len() > MOST {
            write_whole(sink, piece)?;
        } else {
            self.bytes.extend_from_slice(piece)?;
        }
        Ok(())
    }

    /// Takes a line, and a newline behind it, as `put` takes a piece: where memory runs out, neither was taken.
    pub fn put_line<K: Sink>(&mut self, line: &[u8], sink: &mut K) -> Result<(), PutErr>
        ensures ok { OnOk result
            (Sends (K.written sink.old) (K.written sink.new) (self.old ++ (line.now ++ 10 ∷ [])) self.new) }
        ensures front { OnErr result
            (AppendsFront (K.written sink.old) (K.written sink.new) (self.old ++ (line.now ++ 10 ∷ []))) }
        ensures most { length self.new ≤ most_gathered }
        ensures empty { IsErrOf result PutErr.SinkFault → self.new ≡ [] }
        ensures memory { IsErrOf result PutErr.Memory
            → Sends (K.written sink.old) (K.written sink.new) self.old self.new }
        ensures faults { K.write_faults sink.old ≤ K.write_faults sink.new }
        ensures failed { IsErrOf result PutErr.SinkFault → Rose (K.write_faults sink.old) (K.write_faults sink.new) }
    {
        if line.len() >= MOST {
            self.finish(sink)?;
            write_two(sink, line, b"\n")?;
            return Ok(());
        }
        self.make_room(line.len() + 1, sink)?;
        self.gather_line(line)?;
        Ok(())
    }

    // Gathers a line and a newline, or nothing where memory runs out.
    fn gather_line(&mut self, line: &[u8]) -> Result<(), AllocError>
        requires { length self.old + (length line.now + 1) ≤ most_gathered }
        ensures ok { OnOk result (self.new ≡ self.old ++ (line.now ++ 10 ∷ [])) }
        ensures memory { OnErr result (self.new ≡ self.old) }
    {
        self.bytes.try_reserve(line.len() + 1)?;
        let Ok(()) = self.bytes.extend_from_slice(line) else {
            unreachable!();
        };
        self.bytes.push_reserved(b'\n');
        Ok(())
    }

    // Writes what is gathered if it would be too much with so many bytes more.
    fn make_room<K: Sink>(&mut self, more: usize, sink: &mut K) -> Result<(), Failed>
        ensures ok { OnOk result (Sends (K.written sink.old) (K.written sink.new) self.old self.new) }
        ensures room { more ≤ most_gathered → length self.new + more ≤ most_gathered }
        ensures long { most_gathered < more → self.new ≡ [] }
        ensures empty { OnErr result (self.new ≡ []) }
        ensures front { OnErr result (AppendsFront (K.written sink.old) (K.written sink.new) self.old) }
        ensures faults { K.write_faults sink.old ≤ K.write_faults sink.new }
        ensures failed { OnErr result (Rose (K.write_faults sink.old) (K.write_faults sink.new)) }
    {
        if more > MOST || self.bytes.len() > MOST - more {
            self.finish(sink)?;
        }
        Ok(())
    }

    /// Writes what is gathered, and nothing is gathered then, also where a write failed: what was left of it is lost,
    /// and no byte goes out twice.
    ///
    /// `Failed` comes only where the sink's count of failed writes rose; a front of what was gathered went out then.
    pub fn finish<K: Sink>(&mut self, sink: &mut K) -> Result<(), Failed>
        ensures ok { OnOk result (Appends (K.written sink.old) (K.written sink.new) self.old) }
        ensures empty { self.new ≡ [] }
        ensures front { AppendsFront (K.written sink.old) (K.written sink.new) self.old }
        ensures faults { K.write_faults sink.old ≤ K.write_faults sink.new }
        ensures failed { OnErr result (Rose (K.write_faults sink.old) (K.write_faults sink.new)) }
    {
        let sent = write_whole(sink, &self.bytes);
        self.bytes.clear();
        sent
    }
}
