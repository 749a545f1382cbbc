// Sources and sinks in memory, whose listed calls fail.
ghost use Rattle.std.specs.Prelude.{◌≡◌, ◌↔◌, ◌⊎◌, ℕ, ◌+◌, ◌-◌, ◌<◌, ◌≤◌, ◌++◌, List, [], Some, length, take, drop};
ghost use Rattle.std.specs.Prelude.{vec_len, vec_capacity, IfOk, OnErr, IsErr, IsTrue, is_err, Contains, min};
ghost use Rattle.std.specs.Io.KnownBytes.{ReadConsumes, WriteAppends};
ghost use Rattle.edge_io.specs.Stream.{Rose};
ghost use Rattle.edge_io.specs.Memory.{Calls, after_call, counted, IsNextListed};

use crate::{Failed, Sink, Source};
use std::alloc::{AllocError, Global};
use std::marker::Model;

// The numbered calls of an object in memory, of which those listed fail.
#[derive(Drop)]
pub(crate) struct Script {
    failing: Vec<u64>,
    made: u64,
    faults: u64,
}

impl Model for Script {
    ghost use Rattle.edge_io.specs.Memory.{Calls};

    ghost Value = { Calls };

    ghost view = { λ s. record { failing = s.failing.items; made = s.made; faults = s.faults } };
}

impl Script {
    pub(crate) fn new(alloc: Global, failing: &[u64]) -> Result<Script, AllocError>
        ensures { IfOk result (λ s. s ≡ record { failing = failing.now; made = 0; faults = 0 }) }
    {
        Ok(Script {
            failing: Vec::from_slice(alloc, failing)?,
            made: 0,
            faults: 0,
        })
    }

    // Counts a call, and a fault where it is listed or `unfit`.
    pub(crate) fn call(&mut self, unfit: bool) -> Result<(), Failed>
        ensures which { IsErr result ↔ (IsTrue unfit ⊎ IsNextListed self.old) }
        ensures after { self.new ≡ after_call self.old (is_err result) }
        ensures faults { self.old.faults ≤ self.new.faults }
    {
        self.made = self.made.saturating_add(1);
        if unfit || self.failing.contains(&self.made) {
            self.faults = self.faults.saturating_add(1);
            return Err(Failed);
        }
        Ok(())
    }
}

/// A source over bytes in memory.
#[derive(Drop)]
pub struct MemSource {
    bytes: Vec<u8>,
    at: usize,
    script: Script,
}

impl Model for MemSource {
    ghost use Rattle.std.specs.Prelude.{◌≤◌, drop, vec_len};
    ghost use Rattle.edge_io.specs.Memory.{Input};

    ghost Value = { Input };

    ghost view = { λ s. record { left = drop s.at s.bytes.items; calls = s.script } };

    ghost invariant = { λ s. s.at ≤ vec_len s.bytes };
}

impl MemSource {
    /// A source of these bytes. The reads whose numbers are listed fail; the first has the number 1.
    pub fn new(alloc: Global, bytes: &[u8], failing: &[u64]) -> Result<MemSource, AllocError>
        ensures { IfOk result (λ s.
            s ≡ record { left = bytes.now; calls = record { failing = failing.now; made = 0; faults = 0 } }) }
    {
        Ok(MemSource {
            bytes: Vec::from_slice(alloc, bytes)?,
            at: 0,
            script: Script::new(alloc, failing)?,
        })
    }
}

impl Source for MemSource {
    ghost left = { λ s. Some s.left };

    ghost read_faults = { λ s. s.calls.faults };

    /// Gives as many bytes as fit. It fails exactly where the call's number is listed.
    fn read(&mut self, buf: &mut [u8]) -> Result<usize, Failed>
        requires { 0 < length buf.old }
        ensures bound { IfOk result (λ n. n ≤ length buf.new) }
        ensures bytes { ReadConsumes (Some self.old.left) (Some self.new.left) result buf.new }
        ensures faults { self.old.calls.faults ≤ self.new.calls.faults }
        ensures failed { OnErr result (Rose self.old.calls.faults self.new.calls.faults) }

        ensures which { IsErr result ↔ IsNextListed self.old.calls }
        ensures count { IfOk result (λ n. n ≡ min (length self.old.left) (length buf.old)) }
        ensures calls { self.new.calls ≡ after_call self.old.calls (is_err result) }
    {
        self.script.call(false)?;
        let (_, rest) = self.bytes.split_at(self.at);
        let count = copy_front(rest, buf);
        self.at += count;
        Ok(count)
    }
}

// Copies as much as fits, and answers how much.
fn copy_front(from: &[u8], to: &mut [u8]) -> usize
    ensures count { result ≡ min (length from.now) (length to.old) }
    ensures front { take result to.new ≡ take result from.now }
    ensures len { length to.new ≡ length to.old }
{
    let count = from.len().min(to.len());
    to[..count].copy_from_slice(&from[..count]);
    count
}

/// A sink in memory.
#[derive(Drop)]
pub struct MemSink {
    bytes: Vec<u8>,
    room: usize,
    script: Script,
}

impl Model for MemSink {
    ghost use Rattle.std.specs.Prelude.{◌≤◌, vec_len, vec_capacity};
    ghost use Rattle.edge_io.specs.Memory.{Output};

    ghost Value = { Output };

    ghost view = { λ s. record { written = s.bytes.items; room = s.room; calls = s.script } };

    ghost invariant = { λ s. (vec_len s.bytes ≤ s.room) × (s.room ≤ vec_capacity s.bytes) };
}

impl MemSink {
    /// A sink with room for this many bytes. The writes whose numbers are listed fail; the first
    /// has the number 1.
    pub fn new(alloc: Global, room: usize, failing: &[u64]) -> Result<MemSink, AllocError>
        ensures { IfOk result (λ s.
            s ≡ record { written = []; room = room; calls = record { failing = failing.now; made = 0; faults = 0 } }) }
    {
        Ok(MemSink {
            bytes: Vec::with_capacity(alloc, room)?,
            room,
            script: Script::new(alloc, failing)?,
        })
    }

    /// What was written.
    pub fn bytes(&self) -> &[u8]
        ensures { result.now ≡ self.now.written }
    {
        &self.bytes
    }
}

impl Sink for MemSink {
    ghost written = { λ s. Some s.written };

    ghost write_faults = { λ s. s.calls.faults };

    /// Takes all the bytes. It fails exactly where the call's number is listed, or the bytes don't
    /// fit whole into what is left of the room.
    fn write(&mut self, bytes: &[u8]) -> Result<usize, Failed>
        requires { 0 < length bytes.now }
        ensures least { IfOk result (λ n. 0 < n) }
        ensures bound { IfOk result (λ n. n ≤ length bytes.now) }
        ensures bytes { WriteAppends (Some self.old.written) (Some self.new.written) result bytes.now }
        ensures faults { self.old.calls.faults ≤ self.new.calls.faults }
        ensures failed { OnErr result (Rose self.old.calls.faults self.new.calls.faults) }

        ensures which { IsErr result
            ↔ ((self.old.room < length self.old.written + length bytes.now) ⊎ IsNextListed self.old.calls) }
        ensures whole { IfOk result (λ n. n ≡ length bytes.now) }
        ensures calls { self.new.calls ≡ after_call self.old.calls (is_err result) }
        ensures room { self.new.room ≡ self.old.room }
    {
        let unfit = bytes.len() > self.room - self.bytes.len();
        self.script.call(unfit)?;
        let Ok(()) = self.bytes.extend_from_slice(bytes) else {
            unreachable!();
        };
        Ok(bytes.len())
    }
}
