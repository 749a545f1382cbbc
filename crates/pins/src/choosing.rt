// The choice, file by file.
ghost use Rattle.std.specs.Prelude.{◌≡◌, ◌<◌, ◌≤◌, ℕ, List, [], ◌++◌, ◌∷◌, ◌↔◌, All, IsTrue, OnOk, length, take, drop};
ghost use Rattle.pins.specs.Choosing.{IsChoice, IsChosen, IsBelow, IsPast, Cuts, StartsPast, EndsWithin};
ghost use Rattle.pins.specs.Choosing.{listed};
ghost use Rattle.pins.specs.declared.choosing.Listed.{Listed as ListedValue};

use std::alloc::{AllocError, Global};
use store_manifest::Entry;

/// A listed file, with its store.
#[derive(Clone, Copy, Debug, PartialEq, Eq)]
pub struct Listed {
    /// The number of its store.
    pub store: u8,
    /// Its entry.
    pub entry: Entry,
}

/// Those of the files told so far that are needed from the interval's start on.
#[derive(Drop)]
pub struct Choice {
    from: u64,
    to: Option<u64>,
    greatest: Option<u64>,
    rest: Vec<Listed>,
}

impl Choice {
    /// A choice for an interval, of which no file was told yet. Where `to` is `None` the interval has
    /// no end. It takes no memory.
    pub fn new(alloc: Global, from: u64, to: Option<u64>) -> Choice
        ensures chosen { IsChoice [] result }
        ensures from { result.from ≡ from }
        ensures to { result.to ≡ to }
    {
        Choice {
            from,
            to,
            greatest: None,
            rest: Vec::new(alloc),
        }
    }

    /// Tells the entries of a store, behind those that were told.
    pub fn add(&mut self, store: u8, entries: &[Entry]) -> Result<(), AllocError>
        ensures chosen { (told : List ListedValue) → IsChoice told self.old
            → OnOk result (IsChoice (told ++ listed store entries.now) self.new) }
        ensures from { self.new.from ≡ self.old.from }
        ensures to { self.new.to ≡ self.old.to }
    {
        for entry in entries {
            let file = Listed {
                store,
                entry: *entry,
            };
            self.add_file(file)?;
        }
        Ok(())
    }

    /// The files that are opened, in order: the last one that begins before the interval and behind all that were told
    /// before it, and those behind it, up to the last one that doesn't begin later than both ends of the interval. One
    /// that begins so late is opened only where a file behind it doesn't: its samples keep those of the other out that
    /// aren't later than its own.
    pub fn opened(&self) -> &[Listed]
        ensures { (told : List ListedValue) → IsChoice told self.now
            → IsChosen self.now.from self.now.to told result.now }
    {
        &self.rest[..self.needed()]
    }

    // How many of the rest are needed: all up to the last one that doesn't begin past the interval.
    fn needed(&self) -> usize
        ensures fits { result ≤ length self.now.rest.items }
        ensures past { All (StartsPast self.now.from self.now.to) (drop result self.now.rest.items) }
        ensures within { EndsWithin self.now.from self.now.to (take result self.now.rest.items) }
    {
        let mut count = self.rest.len();
        'files: while count > 0 {
            let last = self.rest[count - 1];
            if !self.is_past(last.entry.first) {
                return count;
            }
            count -= 1;
        }
        0
    }

    // Whether this moment is later than both ends of the interval.
    fn is_past(&self, at: u64) -> bool
        ensures { IsTrue result ↔ IsPast self.now.from self.now.to at }
    {
        match self.to {
            Some(to) => self.from < at && to < at,
            None => false,
        }
    }

    // Tells one file more.
    fn add_file(&mut self, file: Listed) -> Result<(), AllocError>
        ensures chosen { (told : List ListedValue) → IsChoice told self.old
            → OnOk result (IsChoice (told ++ file ∷ []) self.new) }
        ensures from { self.new.from ≡ self.old.from }
        ensures to { self.new.to ≡ self.old.to }
    {
        if self.cuts(file.entry.first) {
            return self.start_with(file);
        }
        self.go_on_with(file)
    }

    // Whether a file cuts that begins at this moment.
    fn cuts(&self, first: u64) -> bool
        ensures { IsTrue result ↔ ((first < self.now.from) × IsBelow self.now.greatest first) }
    {
        first < self.from && is_below(self.greatest, first)
    }

    // All before the file stay closed.
    fn start_with(&mut self, file: Listed) -> Result<(), AllocError>
        ensures chosen { (told : List ListedValue) → IsChoice told self.old → Cuts self.old.from told file
            → OnOk result (IsChoice (told ++ file ∷ []) self.new) }
        ensures from { self.new.from ≡ self.old.from }
        ensures to { self.new.to ≡ self.old.to }
    {
        self.rest.clear();
        self.go_on_with(file)
    }

    fn go_on_with(&mut self, file: Listed) -> Result<(), AllocError>
        ensures rest { OnOk result (self.new.rest.items ≡ self.old.rest.items ++ file ∷ []) }
        ensures greatest { OnOk result
            ((n : ℕ) → IsBelow self.new.greatest n ↔ (IsBelow self.old.greatest n × (file.entry.last < n))) }
        ensures from { self.new.from ≡ self.old.from }
        ensures to { self.new.to ≡ self.old.to }
    {
        let (greatest, last) = (self.greatest, file.entry.last);
        self.rest.push(file)?;
        self.greatest = later(greatest, last);
        Ok(())
    }
}

fn is_below(greatest: Option<u64>, at: u64) -> bool
    ensures { IsTrue result ↔ IsBelow greatest at }
{
    match greatest {
        Some(last) => last < at,
        None => true,
    }
}

fn later(greatest: Option<u64>, last: u64) -> Option<u64>
    ensures { (n : ℕ) → IsBelow result n ↔ (IsBelow greatest n × (last < n)) }
{
    match greatest {
        Some(before) => Some(before.max(last)),
        None => Some(last),
    }
}
