// Links in memory, and a door that gives the links of a list.
ghost use Rattle.std.specs.Prelude.{◌≡◌, ◌↔◌, ◌⊎◌, ℕ, ◌+◌, ◌<◌, ◌≤◌, ◌∷◌, [], ◌++◌, All, Some, IfSome, IfOk, OnErr};
ghost use Rattle.std.specs.Prelude.{IsErr, is_err, length, min, false, vec_len};
ghost use Rattle.std.proofs.Common.{refl};
ghost use Rattle.std.proofs.Math.Nat.{le-add_right};
ghost use Rattle.std.specs.Io.KnownBytes.{ReadConsumes, WriteAppends};
ghost use Rattle.edge_io.specs.Stream.{Rose};
ghost use Rattle.edge_io.specs.Memory.{after_call, IsNextListed};
ghost use Rattle.edge_io.specs.Doors.{ListedLinks, ListGives, ledger_of, IsFresh, Gives, TakesBack};

use crate::memory::Script;
use crate::{Door, Failed, Link, MemSink, MemSource, Next, Sink, Source};
use std::alloc::{AllocError, Global};
use std::collections::VecDeque;
use std::marker::Model;

/// A link in memory: a source of bytes and a sink, whose calls are numbered apart.
#[derive(Drop)]
pub struct MemLink {
    source: MemSource,
    sink: MemSink,
}

impl Model for MemLink {
    ghost use Rattle.edge_io.specs.Doors.{Both};

    ghost Value = { Both };

    ghost view = { λ l. record { input = l.source; output = l.sink } };
}

impl MemLink {
    /// A link whose peer sends these bytes, with room for so many bytes of what it gets. The reads and
    /// the writes whose numbers are listed fail; the first of each has the number 1.
    pub fn new(
        alloc: Global,
        bytes: &[u8],
        room: usize,
        failing_reads: &[u64],
        failing_writes: &[u64],
    ) -> Result<MemLink, AllocError>
        ensures input { IfOk result (λ l. l.input
            ≡ record { left = bytes.now; calls = record { failing = failing_reads.now; made = 0; faults = 0 } }) }
        ensures output { IfOk result (λ l. l.output ≡ record {
          written = [];
          room = room;
          calls = record { failing = failing_writes.now; made = 0; faults = 0 };
        }) }
    {
        Ok(MemLink {
            source: MemSource::new(alloc, bytes, failing_reads)?,
            sink: MemSink::new(alloc, room, failing_writes)?,
        })
    }

    /// What was written.
    pub fn written(&self) -> &[u8]
        ensures { result.now ≡ self.now.output.written }
    {
        self.sink.bytes()
    }
}

impl Source for MemLink {
    ghost left = { λ l. Some l.input.left };

    ghost read_faults = { λ l. l.input.calls.faults };

    ghost beside = { λ l. record { bytes = Some l.output.written; faults = l.output.calls.faults } };

    /// Gives as many bytes as fit. It fails exactly where the call's number is listed.
    fn read(&mut self, buf: &mut [u8]) -> Result<usize, Failed>
        requires { 0 < length buf.old }
        ensures bound { IfOk result (λ n. n ≤ length buf.new) }
        ensures bytes { ReadConsumes (Some self.old.input.left) (Some self.new.input.left) result buf.new }
        ensures faults { self.old.input.calls.faults ≤ self.new.input.calls.faults }
        ensures failed { OnErr result (Rose self.old.input.calls.faults self.new.input.calls.faults) }

        ensures which { IsErr result ↔ IsNextListed self.old.input.calls }
        ensures count { IfOk result (λ n. n ≡ min (length self.old.input.left) (length buf.old)) }
        ensures calls { self.new.input.calls ≡ after_call self.old.input.calls (is_err result) }
        ensures output { self.new.output ≡ self.old.output }
    {
        self.source.read(buf)
    }
}

impl Sink for MemLink {
    ghost written = { λ l. Some l.output.written };

    ghost write_faults = { λ l. l.output.calls.faults };

    ghost beside = { λ l. record { bytes = Some l.input.left; faults = l.input.calls.faults } };

    /// Takes all the bytes. It fails exactly where the call's number is listed, or the bytes don't
    /// fit whole into what is left of the room.
    fn write(&mut self, bytes: &[u8]) -> Result<usize, Failed>
        requires { 0 < length bytes.now }
        ensures least { IfOk result (λ n. 0 < n) }
        ensures bound { IfOk result (λ n. n ≤ length bytes.now) }
        ensures bytes { WriteAppends (Some self.old.output.written) (Some self.new.output.written) result bytes.now }
        ensures faults { self.old.output.calls.faults ≤ self.new.output.calls.faults }
        ensures failed { OnErr result (Rose self.old.output.calls.faults self.new.output.calls.faults) }

        ensures which { IsErr result ↔ ((self.old.output.room < length self.old.output.written + length bytes.now)
            ⊎ IsNextListed self.old.output.calls) }
        ensures whole { IfOk result (λ n. n ≡ length bytes.now) }
        ensures calls { self.new.output.calls ≡ after_call self.old.output.calls (is_err result) }
        ensures room { self.new.output.room ≡ self.old.output.room }
        ensures input { self.new.input ≡ self.old.input }
    {
        self.sink.write(bytes)
    }
}

impl Link for MemLink {
    ghost written_stays = { λ _. refl };

    ghost left_stays = { λ _. refl };
}

/// A door that gives the links of a list in their order, and then is closed.
#[derive(Drop)]
pub struct ListDoor<T: Link> {
    left: VecDeque<T>,
    // How many of the links that it gave have not come back.
    out: usize,
    // It has room for all links from the beginning, so that taking one back takes no memory.
    returned: Vec<T>,
    closed: bool,
    script: Script,
}

impl<T: Link> Model for ListDoor<T> {
    ghost use Rattle.std.specs.Prelude.{◌+◌, ◌≤◌, All, vec_len, vec_capacity};
    ghost use Rattle.std.specs.VecDeque.{deque_len};
    ghost use Rattle.edge_io.specs.Doors.{ListedLinks, IsFresh};

    ghost Value = { ListedLinks T };

    ghost view = { λ d.
        record { left = d.left.items; out = d.out; back = d.returned.items; closed = d.closed; calls = d.script } };

    ghost invariant = { λ d. All (IsFresh T.Sink.written T.Source.read_faults T.Sink.write_faults) d.left.items
        × (deque_len d.left + d.out + vec_len d.returned ≤ vec_capacity d.returned) };
}

impl<T: Link> ListDoor<T> {
    /// A door of these links, on which nothing is written and nothing has failed. The calls of `next`
    /// whose numbers are listed fail; the first has the number 1.
    pub fn new(alloc: Global, links: Vec<T>, failing: &[u64]) -> Result<ListDoor<T>, AllocError>
        requires { All (IsFresh T.Sink.written T.Source.read_faults T.Sink.write_faults) links.items }
        ensures { IfOk result (λ d. d ≡ record {
          left = links.items;
          out = 0;
          back = [];
          closed = false;
          calls = record { failing = failing.now; made = 0; faults = 0 };
        }) }
    {
        Ok(ListDoor {
            returned: Vec::with_capacity(alloc, links.len())?,
            left: VecDeque::from(links),
            out: 0,
            closed: false,
            script: Script::new(alloc, failing)?,
        })
    }

    /// The links that came back, in the order in which they came.
    pub fn returned(&self) -> &[T]
        ensures { result.now ≡ self.now.back }
    {
        &self.returned
    }
}

impl<T: Link> Door for ListDoor<T> {
    type L = T;

    ghost is_closed = { λ d. d.closed };

    ghost door_faults = { λ d. d.calls.faults };

    ghost ledger = { λ d. Some (ledger_of d) };

    ghost fair = { λ d. le-add_right (length d.back) d.out };

    /// The next link of the list. It fails exactly where the call's number is listed.
    fn next(&mut self) -> Next<T>
        ensures gives { Gives (λ (d : ListedLinks T). d.closed) (λ d. d.calls.faults)
            (λ d. Some (ledger_of d)) T.Sink.written T.Source.read_faults T.Sink.write_faults self.old result self.new }
        ensures faults { self.old.calls.faults ≤ self.new.calls.faults }

        ensures listed { ListGives self.old result self.new }
    {
        if self.closed {
            return Next::Closed;
        }
        if self.script.call(false).is_err() {
            return Next::Failed;
        }
        let Some(link) = self.left.pop_front() else {
            self.closed = true;
            return Next::Closed;
        };
        self.out += 1;
        Next::Link(link)
    }

    fn back(&mut self, link: T)
        requires { length self.old.back < length self.old.back + self.old.out }
        ensures back { TakesBack (λ (d : ListedLinks T). d.closed) (λ d. d.calls.faults)
            (λ d. Some (ledger_of d)) self.old link self.new }

        ensures after { (self.new.left ≡ self.old.left)
            × (self.new.calls ≡ self.old.calls)
            × (self.new.back ≡ self.old.back ++ link ∷ [])
            × (self.new.out + 1 ≡ self.old.out) }
    {
        self.returned.push_reserved(link);
        self.out -= 1;
    }
}
