// A link in memory, as cases have it.
ghost use Rattle.std.specs.Prelude.{None};

use edge_io::{Failed, MemLink, Sink, Source};
use std::alloc::{AllocError, Global};

// More bytes than a case writes.
const ROOM: usize = 100_000;

/// A link in memory that gives and takes at most so many bytes a call, and counts its calls.
#[derive(Drop)]
pub struct Peer {
    link: MemLink,
    most: usize,
    pub reads: u64,
    pub writes: u64,
    /// How many bytes were read.
    pub given: usize,
}

impl Peer {
    /// A link whose peer sends these bytes. The reads and the writes whose numbers are listed fail.
    pub fn new(
        alloc: Global,
        bytes: &[u8],
        most: usize,
        failing_reads: &[u64],
        failing_writes: &[u64],
    ) -> Result<Peer, AllocError> {
        Ok(Peer {
            link: MemLink::new(alloc, bytes, ROOM, failing_reads, failing_writes)?,
            most: most.max(1),
            reads: 0,
            writes: 0,
            given: 0,
        })
    }

    /// What was written.
    pub fn written(&self) -> &[u8] {
        self.link.written()
    }
}

impl Source for Peer {
    ghost left = { λ _. None };

    ghost read_faults = { λ p. ⟦<MemLink as Source>⟧.read_faults p.link };

    fn read(&mut self, buf: &mut [u8]) -> Result<usize, Failed> {
        self.reads = self.reads.saturating_add(1);
        let most = self.most.max(1).min(buf.len());
        let count = self.link.read(&mut buf[..most])?;
        self.given = self.given.saturating_add(count);
        Ok(count)
    }
}

impl Sink for Peer {
    ghost written = { λ _. None };

    ghost write_faults = { λ p. ⟦<MemLink as Sink>⟧.write_faults p.link };

    fn write(&mut self, bytes: &[u8]) -> Result<usize, Failed> {
        self.writes = self.writes.saturating_add(1);
        let most = self.most.max(1).min(bytes.len());
        self.link.write(&bytes[..most])
    }
}
