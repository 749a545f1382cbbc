// Lines of a file, read at any place through a block of bytes in memory.
ghost use Rattle.std.specs.Prelude.{◌≡◌, ◌≤◌, ◌<◌, ◌+◌, IsTrue, take, drop, length, vec_len};
ghost use Rattle.disk_model.specs.Files.{Rose};

use crate::line::{LineTaken, front_line, take_line};
use crate::steps::Steps;
use disk_model::ReadAt;
use std::sync::ledger::Ledger;

// The bytes of a read behind which no other went on.
const FIRST: u64 = 512;

// The most bytes of one read.
const MOST: u64 = 16_384;

// What a read of a line came to.
#[derive(Clone, Copy)]
pub enum BlockLine {
    // The line and its newline lie within the bytes that count.
    Line,
    // The bytes that count end within the line, or the file gave no more of them.
    Torn,
    ReadFault,
    Memory,
}

// What one read of the file came to.
#[derive(Clone, Copy)]
enum Filled {
    More,
    Nothing,
    Fault,
    Memory,
}

// Of the first `len` bytes of a file, those from `start` on that are in memory.
#[derive(Drop)]
pub struct Block {
    pub len: u64,
    pub start: u64,
    pub bytes: Vec<u8>,
    ghost within: { start + vec_len bytes ≤ len },
}

impl Block {
    ghost use Rattle.std.specs.Prelude.{◌≡◌, ◌≤◌, ◌<◌, ◌+◌, ◌-◌, IfSome, IsTrue, length, drop, vec_len};
    ghost use Rattle.line_escape.specs.Unescaping.{HasNoNewline};
    ghost use Rattle.disk_model.specs.Files.{Rose};
    ghost use Rattle.pb_file.specs.Block.{window_of, IsWindowOf, HoldsLine, GivesLine};

    // Reads the line at a place, without its newline, into `line`, whose bytes before are lost. It is the
    // one step that is counted.
    pub fn read_line<H: ReadAt, L: Ledger>(
        &mut self,
        file: &mut H,
        at: u64,
        line: &mut Vec<u8>,
        steps: &mut Steps<L>,
    ) -> BlockLine
        requires within { at ≤ self.old.len }
        requires file { IsTrue H.tells → self.old.len ≤ length (H.bytes file.old) }
        ensures line { IsTrue H.tells → IsWindowOf (window_of self.old) (H.bytes file.old)
            → GivesLine (H.bytes file.old) self.old.len at line.new.items result }
        ensures window { IsTrue H.tells → IsWindowOf (window_of self.old) (H.bytes file.old)
            → IsWindowOf (window_of self.new) (H.bytes file.old) }
        ensures whole { HasNoNewline line.new.items }
        ensures room { result ≡ BlockLine.Line → at + length line.new.items + 1 ≤ self.old.len }
        ensures len { self.new.len ≡ self.old.len }
        ensures same { IsTrue H.tells → H.bytes file.new ≡ H.bytes file.old }
        ensures leaves { H.leaves file.old file.new }
        ensures faults { H.faults file.old ≤ H.faults file.new }
        ensures cause { result ≡ BlockLine.ReadFault → Rose (H.faults file.old) (H.faults file.new) }
        ensures step { steps.new ≡ steps.old + 1 }
    {
        steps.tick();
        line.clear();
        let mut place = at;
        'pieces: while place < self.len {
            match self.have(file, place) {
                Filled::More => {}
                Filled::Nothing => return BlockLine::Torn,
                Filled::Fault => return BlockLine::ReadFault,
                Filled::Memory => return BlockLine::Memory,
            }
            match take_line(self.from(place), line) {
                LineTaken::Whole => return BlockLine::Line,
                LineTaken::Part => place = self.start + self.bytes.len() as u64,
                LineTaken::Memory => return BlockLine::Memory,
            }
        }
        BlockLine::Torn
    }

    // The line at a place, without its newline, where all of it and the newline are in memory.
    #[inline(always)]
    pub fn held_line(&self, at: u64) -> Option<&[u8]>
        ensures { IfSome result (λ line. HoldsLine (window_of self.now) at line.now) }
    {
        if at < self.start || at - self.start >= self.bytes.len() as u64 {
            return None;
        }
        front_line(self.from(at))
    }

    // Has the byte at a place in memory. It is read with those behind it, unless it is there.
    fn have<H: ReadAt>(&mut self, file: &mut H, place: u64) -> Filled
        requires within { place < self.old.len }
        requires file { IsTrue H.tells → self.old.len ≤ length (H.bytes file.old) }
        ensures some { IsTrue H.tells → result ≡ Filled.Nothing → ⊥ }
        ensures start { result ≡ Filled.More → self.new.start ≤ place }
        ensures end { result ≡ Filled.More → place < self.new.start + vec_len self.new.bytes }
        ensures window { IsTrue H.tells → IsWindowOf (window_of self.old) (H.bytes file.old)
            → IsWindowOf (window_of self.new) (H.bytes file.old) }
        ensures len { self.new.len ≡ self.old.len }
        ensures same { IsTrue H.tells → H.bytes file.new ≡ H.bytes file.old }
        ensures leaves { H.leaves file.old file.new }
        ensures faults { H.faults file.old ≤ H.faults file.new }
        ensures cause { result ≡ Filled.Fault → Rose (H.faults file.old) (H.faults file.new) }
    {
        if self.start <= place && place - self.start < self.bytes.len() as u64 {
            return Filled::More;
        }
        self.fill(file, place)
    }

    // Reads the bytes from a place on. After a failed read no byte is in memory.
    fn fill<H: ReadAt>(&mut self, file: &mut H, place: u64) -> Filled
        requires within { place < self.old.len }
        requires file { IsTrue H.tells → self.old.len ≤ length (H.bytes file.old) }
        ensures some { IsTrue H.tells → result ≡ Filled.Nothing → ⊥ }
        ensures start { result ≡ Filled.More → self.new.start ≡ place }
        ensures end { result ≡ Filled.More → 0 < vec_len self.new.bytes }
        ensures window { IsTrue H.tells → IsWindowOf (window_of self.old) (H.bytes file.old)
            → IsWindowOf (window_of self.new) (H.bytes file.old) }
        ensures len { self.new.len ≡ self.old.len }
        ensures same { IsTrue H.tells → H.bytes file.new ≡ H.bytes file.old }
        ensures leaves { H.leaves file.old file.new }
        ensures faults { H.faults file.old ≤ H.faults file.new }
        ensures cause { result ≡ Filled.Fault → Rose (H.faults file.old) (H.faults file.new) }
    {
        let want = (self.len - place).min(self.room(place)) as usize;
        let filled = read_from(file, place, want, &mut self.bytes);
        if !matches!(filled, Filled::Memory) {
            self.start = place;
        }
        filled
    }

    // How many bytes a read from a place on asks for: few, since one line may be all that is wanted there. A read that
    // goes on behind the bytes in memory asks for twice as many as these are.
    fn room(&self, place: u64) -> u64
        ensures some { 0 < result }
    {
        let held = self.bytes.len() as u64;
        if place == self.start + held {
            (held.min(MOST / 2) * 2).max(FIRST)
        } else {
            FIRST
        }
    }

    // The bytes in memory from a place on.
    fn from(&self, place: u64) -> &[u8]
        requires start { self.now.start ≤ place }
        requires end { place < self.now.start + vec_len self.now.bytes }
        ensures bytes { result.now ≡ drop (place - self.now.start) self.now.bytes.items }
        ensures count { length result.now + place ≡ self.now.start + vec_len self.now.bytes }
    {
        &self.bytes[(place - self.start) as usize..]
    }
}

// Reads bytes of a file from a place on, at most so many, in place of those that are there. Where
// memory runs out these stay.
fn read_from<H: ReadAt>(file: &mut H, place: u64, want: usize, bytes: &mut Vec<u8>) -> Filled
    requires some { 0 < want }
    requires file { IsTrue H.tells → place + want ≤ length (H.bytes file.old) }
    ensures some { IsTrue H.tells → result ≡ Filled.Nothing → ⊥ }
    ensures more { result ≡ Filled.More → 0 < vec_len bytes.new }
    ensures memory { result ≡ Filled.Memory → bytes.new.items ≡ bytes.old.items }
    ensures window { IsTrue H.tells → (result ≡ Filled.Memory → ⊥)
        → bytes.new.items ≡ take (vec_len bytes.new) (drop place (H.bytes file.old)) }
    ensures fits { (result ≡ Filled.Memory → ⊥) → vec_len bytes.new ≤ want }
    ensures same { IsTrue H.tells → H.bytes file.new ≡ H.bytes file.old }
    ensures leaves { H.leaves file.old file.new }
    ensures faults { H.faults file.old ≤ H.faults file.new }
    ensures cause { result ≡ Filled.Fault → Rose (H.faults file.old) (H.faults file.new) }
{
    if bytes.resize(want, 0).is_err() {
        return Filled::Memory;
    }
    match file.read_at(place, bytes) {
        Ok(0) => {
            bytes.clear();
            Filled::Nothing
        }
        Ok(count) => {
            bytes.truncate(count);
            Filled::More
        }
        Err(_) => {
            bytes.clear();
            Filled::Fault
        }
    }
}
