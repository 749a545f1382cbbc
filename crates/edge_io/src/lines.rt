// A reader of lines.
ghost use Rattle.std.specs.Prelude.{◌≡◌, ◌≢◌, ◌↔◌, ℕ, ◌+◌, ◌-◌, ◌<◌, ◌≤◌, ◌^◌, List, [], ◌∷◌, ◌++◌, ◌==◌, map, All};
ghost use Rattle.std.specs.Prelude.{Some, None, IfSome, IfNone, IfOk, OnOk, OnErr, IsTrue, MatchOption, length, take};
ghost use Rattle.std.specs.Prelude.{drop, slice_index, vec_len};
ghost use Rattle.std.specs.List.{slice_range};
ghost use Rattle.std.specs.Simd.Lanes.{mask_l};
ghost use Rattle.std.specs.Io.KnownBytes.{IsAtEnd, Keeps};
ghost use Rattle.edge_io.specs.Stream.{Rose};
ghost use Rattle.edge_io.specs.Lines.{LineReader, NoneBelow, IsFirstNewline, IsNear, IsLineEnd, IsStop, Stays, Reads};
ghost use Rattle.edge_io.specs.Lines.{ReadsOn, Fills, HoldsAnswer, AnswersHeld, Wants, ahead, max_input, most_read};

use crate::Source;
use memchr::memchr;
use std::alloc::{AllocError, Global};
use std::marker::Model;
use std::simd::prelude::*;

/// The most bytes that a line may have, its newline not counted.
pub const MAX_LINE: usize = 16_777_216;

/// The most bytes that are taken of a source.
pub const MAX_INPUT: u64 = 1 << 40;

// The most bytes of one read, and the room of the first buffer.
const MOST_READ: usize = 65_536;

const NEWLINE: u8 = 0x0a;

/// What a call of `Lines::next` came to.
#[derive(Clone, Copy, Debug, PartialEq, Eq)]
pub enum LineRead {
    /// A line was read.
    Line,
    /// The source ended behind a newline, or gave no byte.
    End,
    /// The source ended, with fewer than 2^40 bytes, within a line of at most `MAX_LINE` bytes.
    Torn,
    /// A line has more than `MAX_LINE` bytes within the first 2^40 bytes.
    TooLong,
    /// 2^40 bytes were taken, no whole line of them is left, and what is left isn't too long.
    InputTooLong,
    /// A read failed. The next call goes on where this one stopped.
    SourceFault,
    /// Memory ran out. The next call goes on where this one stopped.
    Memory,
}

// What one read of the source came to.
#[derive(Clone, Copy)]
enum Filled {
    More,
    End,
    Fault,
    Memory,
}

/// Reads a source line by line, through a buffer.
///
/// A read asks for at most 65,536 bytes, and comes only where no answer is in hand.
#[derive(Drop)]
pub struct Lines {
    // The last line stands from `line_at` up to `line_end`, what is not given yet from `start` on.
    buf: Vec<u8>,
    line_at: usize,
    line_end: usize,
    start: usize,
    // How far behind `start` the first newline stands.
    newline: Option<usize>,
    number: u64,
    passed: u64,
    stop: Option<LineRead>,
}

impl Model for Lines {
    ghost use Rattle.std.specs.Prelude.{◌+◌, ◌-◌, ◌≤◌, drop, vec_len, IfSome};
    ghost use Rattle.std.specs.List.{slice_range};
    ghost use Rattle.edge_io.specs.Lines.{LineReader, IsFirstNewline, IsNear, IsStop, max_input};

    ghost Value = { LineReader };

    ghost view = { λ r. record {
      held = drop r.start r.buf.items;
      passed = r.passed;
      line = slice_range r.buf.items r.line_at r.line_end;
      number = r.number;
      stop = r.stop;
    } };

    ghost invariant = { λ r. (r.line_at ≤ r.line_end) × (r.line_end ≤ r.start)
        × (r.start ≤ vec_len r.buf) × (r.number ≤ r.passed) × (r.passed + (vec_len r.buf - r.start) ≤ max_input)
        × IsFirstNewline (drop r.start r.buf.items) r.newline
        × IsNear (vec_len r.buf - r.start) r.newline × IfSome r.stop IsStop };
}

impl Lines {
    /// A reader that has read nothing.
    pub fn new(alloc: Global) -> Result<Lines, AllocError>
        ensures { IfOk result (λ r. r ≡ record { held = []; passed = 0; line = []; number = 0; stop = None }) }
    {
        Ok(Lines {
            buf: Vec::with_capacity(alloc, MOST_READ)?,
            line_at: 0,
            line_end: 0,
            start: 0,
            newline: None,
            number: 0,
            passed: 0,
            stop: None,
        })
    }

    /// The last line that was read, without its newline.
    #[inline(always)]
    pub fn line(&self) -> &[u8]
        ensures { result.now ≡ self.now.line }
    {
        &self.buf[self.line_at..self.line_end]
    }

    /// The number of that line, from 1; 0 before the first.
    pub fn number(&self) -> u64
        ensures value { result ≡ self.now.number }
        ensures bound { result ≤ max_input }
    {
        self.number
    }

    /// Whether the next call of `next` answers without a read.
    #[inline(always)]
    pub fn holds_line(&self) -> bool
        ensures { IsTrue result ↔ HoldsAnswer self.now }
    {
        self.stop.is_some()
            || self.newline.is_some()
            || self.buf.len() - self.start > MAX_LINE
            || self.taken() == MAX_INPUT
    }

    /// Reads the next line. Where it is torn or too long, or the input is, each later call says so.
    ///
    /// At a line, fewer than 65,536 bytes were taken of the source behind the line's newline.
    #[inline(always)]
    pub fn next<S: Source>(&mut self, source: &mut S) -> LineRead
        ensures read { IfNone self.old.stop
            (Reads self.old self.new (ahead self.old (S.left source.old)) (ahead self.new (S.left source.new)) result) }
        ensures stopped { IfSome self.old.stop (λ stop.
            (result ≡ stop) × (self.new ≡ self.old) × (source.new ≡ source.old)) }
        ensures ahead { result ≡ LineRead.Line → length self.new.held < most_read }
        ensures unread { HoldsAnswer self.old → source.new ≡ source.old }
        ensures faults { S.read_faults source.old ≤ S.read_faults source.new }
        ensures failed { result ≡ LineRead.SourceFault → Rose (S.read_faults source.old) (S.read_faults source.new) }
        ensures beside { S.beside source.new ≡ S.beside source.old }
    {
        if let Some(stop) = self.stop {
            return stop;
        }
        'reads: loop {
            if let Some(answer) = self.answer() {
                return answer;
            }
            match self.fill(source) {
                Filled::More => {}
                Filled::End => return self.end(),
                Filled::Fault => return LineRead::SourceFault,
                Filled::Memory => return LineRead::Memory,
            }
        }
    }

    /// The bytes that were taken of the source and not given yet.
    #[inline(always)]
    pub fn held(&self) -> &[u8]
        ensures { result.now ≡ self.now.held }
    {
        let (_, held) = self.buf.split_at(self.start);
        held
    }

    /// Gives `count` lines at once, which are the first `len` bytes that are held, newlines and all. The
    /// last of them, which has `last` bytes before its newline, is the line that was read last.
    pub fn pass_lines(&mut self, len: usize, count: u64, last: usize)
        requires within { len ≤ length self.old.held }
        requires last { last < len }
        requires newline { slice_index self.old.held (len - 1) ≡ 10 }
        requires count { count ≤ len }
        ensures line { self.new.line ≡ take last (drop (len - 1 - last) self.old.held) }
        ensures held { self.new.held ≡ drop len self.old.held }
        ensures number { self.new.number ≡ self.old.number + count }
        ensures passed { self.new.passed ≡ self.old.passed + len }
        ensures stop { self.new.stop ≡ self.old.stop }
        ensures bound { self.new.passed ≤ max_input }
    {
        self.start += len;
        self.line_end = self.start - 1;
        self.line_at = self.line_end - last;
        self.number += count;
        self.passed += len as u64;
        let (_, held) = self.buf.split_at(self.start);
        self.newline = newline_from(held, 0);
    }

    // The answer that is in hand.
    #[inline(always)]
    fn answer(&mut self) -> Option<LineRead>
        requires { self.old.stop ≡ None }
        ensures some { IfSome result (AnswersHeld self.old self.new) }
        ensures ahead { result ≡ Some LineRead.Line → length self.new.held < most_read }
        ensures none { IfNone result ((self.new ≡ self.old) × Wants self.old) }
    {
        if let Some(len) = self.first_newline() {
            if len > MAX_LINE {
                return Some(self.halt(LineRead::TooLong));
            }
            self.pass(len);
            return Some(LineRead::Line);
        }
        if self.held_len() > MAX_LINE {
            return Some(self.halt(LineRead::TooLong));
        }
        if self.taken() == MAX_INPUT {
            return Some(self.halt(LineRead::InputTooLong));
        }
        None
    }

    // The answer where the source has ended.
    fn end(&mut self) -> LineRead
        ensures end { length self.old.held ≡ 0 → (result ≡ LineRead.End) × (self.new ≡ self.old) }
        ensures torn { 0 < length self.old.held
            → (result ≡ LineRead.Torn) × (self.new ≡ record self.old { stop = Some LineRead.Torn }) }
    {
        if self.held_len() == 0 {
            return LineRead::End;
        }
        self.halt(LineRead::Torn)
    }

    #[inline(always)]
    fn first_newline(&self) -> Option<usize>
        ensures place { IsFirstNewline self.now.held result }
        ensures near { IsNear (length self.now.held) result }
        ensures bound { self.now.passed + length self.now.held ≤ max_input }
    {
        self.newline
    }

    #[inline(always)]
    fn held_len(&self) -> usize
        ensures value { result ≡ length self.now.held }
        ensures bound { self.now.passed + length self.now.held ≤ max_input }
    {
        self.buf.len() - self.start
    }

    // How many bytes were taken.
    #[inline(always)]
    fn taken(&self) -> u64
        ensures value { result ≡ self.now.passed + length self.now.held }
        ensures bound { result ≤ max_input }
    {
        self.passed + (self.buf.len() - self.start) as u64
    }

    // Stops for good.
    #[inline(always)]
    fn halt(&mut self, stop: LineRead) -> LineRead
        requires { IsStop stop }
        ensures result { result ≡ stop }
        ensures after { self.new ≡ record self.old { stop = Some stop } }
    {
        self.stop = Some(stop);
        stop
    }

    // Gives a line of this length, which a newline follows.
    #[inline(always)]
    fn pass(&mut self, len: usize)
        requires within { len < length self.old.held }
        requires newline { slice_index self.old.held len ≡ 10 }
        requires near { length self.old.held ≤ len + most_read }
        ensures line { self.new.line ≡ take len self.old.held }
        ensures held { self.new.held ≡ drop (len + 1) self.old.held }
        ensures number { self.new.number ≡ self.old.number + 1 }
        ensures passed { self.new.passed ≡ self.old.passed + len + 1 }
        ensures stop { self.new.stop ≡ self.old.stop }
        ensures bound { self.new.passed ≤ max_input }
    {
        self.line_at = self.start;
        self.line_end = self.start + len;
        self.start = self.line_end + 1;
        self.number += 1;
        self.passed += len as u64 + 1;
        let (_, held) = self.buf.split_at(self.start);
        self.newline = newline_from(held, 0);
    }

    // Reads more bytes behind what is there.
    fn fill<S: Source>(&mut self, source: &mut S) -> Filled
        requires none { NoneBelow self.old.held (length self.old.held) }
        requires within { self.old.passed + length self.old.held < max_input }
        ensures filled { Fills self.old.held self.new.held
            (ahead self.old (S.left source.old)) (ahead self.new (S.left source.new)) result }
        ensures stays { Stays self.old self.new }
        ensures stop { self.new.stop ≡ self.old.stop }
        ensures end { result ≡ Filled.End → IsAtEnd (S.left source.new) }
        ensures faults { S.read_faults source.old ≤ S.read_faults source.new }
        ensures failed { result ≡ Filled.Fault → Rose (S.read_faults source.old) (S.read_faults source.new) }
        ensures beside { S.beside source.new ≡ S.beside source.old }
    {
        let count = self.room();
        let searched = self.buf.len() - self.start;
        let filled = read_on(&mut self.buf, count, source);
        let (_, held) = self.buf.split_at(self.start);
        self.newline = newline_from(held, searched);
        filled
    }

    // Moves the last line and what follows it to the front, and answers how many bytes to read.
    fn room(&mut self) -> usize
        requires { self.old.passed + length self.old.held < max_input }
        ensures same { self.new ≡ self.old }
        ensures some { 0 < result }
        ensures small { result ≤ most_read }
        ensures bound { self.old.passed + length self.old.held + result ≤ max_input }
    {
        let shift = self.line_at;
        if shift > 0 {
            give_up_front(&mut self.buf, shift);
            self.line_at = 0;
            self.line_end -= shift;
            self.start -= shift;
        }
        let len = self.buf.len();
        let count = if len < MOST_READ / 2 {
            MOST_READ - len
        } else {
            MOST_READ
        };
        (count as u64).min(MAX_INPUT - self.taken()) as usize
    }
}

// Gives up so many bytes at the front.
fn give_up_front(buf: &mut Vec<u8>, count: usize)
    requires { count ≤ vec_len buf.old }
    ensures items { buf.new.items ≡ drop count buf.old.items }
    ensures len { vec_len buf.new + count ≡ vec_len buf.old }
{
    let len = buf.len();
    buf.copy_within(count..len, 0);
    buf.truncate(len - count);
}

// Reads at most so many bytes behind those that are there.
fn read_on<S: Source>(buf: &mut Vec<u8>, count: usize, source: &mut S) -> Filled
    requires some { 0 < count }
    requires bound { vec_len buf.old + count < 2 ^ 64 }
    ensures read { ReadsOn buf.old.items buf.new.items (S.left source.old) (S.left source.new) result }
    ensures bound { vec_len buf.new ≤ vec_len buf.old + count }
    ensures faults { S.read_faults source.old ≤ S.read_faults source.new }
    ensures failed { result ≡ Filled.Fault → Rose (S.read_faults source.old) (S.read_faults source.new) }
    ensures beside { S.beside source.new ≡ S.beside source.old }
{
    let len = buf.len();
    let Ok(()) = buf.resize(len + count, 0) else {
        return Filled::Memory;
    };
    match source.read(&mut buf[len..]) {
        Ok(0) => {
            buf.truncate(len);
            Filled::End
        }
        Ok(more) => {
            buf.truncate(len + more);
            Filled::More
        }
        Err(_) => {
            buf.truncate(len);
            Filled::Fault
        }
    }
}

// The place of the first newline, which is not among the first bytes that were searched.
#[inline(always)]
fn newline_from(bytes: &[u8], searched: usize) -> Option<usize>
    requires within { searched ≤ length bytes.now }
    requires none { NoneBelow bytes.now searched }
    ensures place { IsFirstNewline bytes.now result }
    ensures behind { IfSome result (λ k. searched ≤ k) }
{
    let (_, rest) = bytes.split_at(searched);
    if let Some(k) = near_newline(rest) {
        return Some(searched + k);
    }
    match memchr(NEWLINE, rest) {
        Some(k) => Some(searched + k),
        None => None,
    }
}

// The place of the first newline, where it is among the first 32 bytes, and there are so many. Most
// lines are short.
#[inline(always)]
fn near_newline(bytes: &[u8]) -> Option<usize>
    ensures { IfSome result (λ k. (k < length bytes.now) × (slice_index bytes.now k ≡ 10) × NoneBelow bytes.now k) }
{
    let (near, _) = bytes.split_first_chunk::<32>()?;
    let marks = newline_marks(u8x32::from_array(*near));
    if marks == 0 {
        return None;
    }
    Some(marks.trailing_zeros() as usize)
}

/// Where the first newline stands, and whether it is known that no byte before it is `mark`. `None`
/// where there is no newline.
#[inline(always)]
pub fn line_end(bytes: &[u8], mark: u8) -> Option<(usize, bool)>
    ensures end { IfSome result (λ x. IsLineEnd bytes.now mark x.0 x.1) }
    ensures none { IfNone result (NoneBelow bytes.now (length bytes.now)) }
{
    if let Some(end) = near_line_end(bytes, mark) {
        return Some(end);
    }
    match newline_from(bytes, 0) {
        Some(at) => Some((at, false)),
        None => None,
    }
}

// The same, where the newline is among the first 32 bytes, and there are so many.
#[inline(always)]
fn near_line_end(bytes: &[u8], mark: u8) -> Option<(usize, bool)>
    ensures { IfSome result (λ x. IsLineEnd bytes.now mark x.0 x.1) }
{
    let (near, _) = bytes.split_first_chunk::<32>()?;
    let lanes = u8x32::from_array(*near);
    let marks = newline_marks(lanes);
    if marks == 0 {
        return None;
    }
    let at = marks.trailing_zeros();
    Some((at as usize, is_free_below(lanes, mark, at)))
}

// Whether none of the first bytes is `mark`.
#[inline(always)]
fn is_free_below(bytes: u8x32, mark: u8, count: u32) -> bool
    requires { count ≤ 32 }
    ensures { IsTrue result → (j : ℕ) → j < count → slice_index bytes j ≢ mark }
{
    let marks = byte_marks(bytes, mark);
    if marks == 0 {
        return true;
    }
    let first = marks.trailing_zeros();
    if first < count {
        return false;
    }
    true
}

// Bit k tells whether such a byte stands at place k.
#[inline(always)]
fn byte_marks(bytes: u8x32, byte: u8) -> u64
    ensures { result ≡ mask_l (map (λ x. x == byte) bytes) }
{
    bytes.simd_eq(u8x32::splat(byte)).to_bitmask()
}

// Bit k tells whether a newline stands at place k.
#[inline(always)]
fn newline_marks(bytes: u8x32) -> u64
    ensures { result ≡ mask_l (map (λ x. x == 10) bytes) }
{
    bytes.simd_eq(u8x32::splat(NEWLINE)).to_bitmask()
}
