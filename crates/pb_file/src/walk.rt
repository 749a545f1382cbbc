// A walk through a PB file, one line a call.
ghost use Rattle.std.specs.Prelude.{◌≡◌, ◌≤◌, ◌<◌, ◌+◌, ◌↔◌, [], ℕ, List, Option, Some, None, Err, IfOk, IfSome};
ghost use Rattle.std.specs.Prelude.{IfNone, IsSome, IsTrue, length, take};
ghost use Rattle.std.specs.Option.{option_copied};
ghost use Rattle.line_escape.specs.Unescaping.{HasNoNewline};
ghost use Rattle.disk_model.specs.Files.{Rose};
ghost use Rattle.pb_messages.specs.declared.info.PayloadInfo.{PayloadInfo as InfoValue};
ghost use Rattle.pb_file.specs.Block.{IsWindowOf};
ghost use Rattle.pb_file.specs.Walk.{Front, HasWalked, HoldsSample, HoldsLong, Gives, Walks, Takes, fresh, behind};
ghost use Rattle.pb_file.specs.Skip.{HasHeader, HasSkipped, GoesOnFrom, BeginsBehind};
ghost use Rattle.pb_file.specs.declared.search.SearchErr.TheVariants.{ReadFault, Damaged};

use crate::block::{Block, BlockLine};
use crate::search::SearchErr;
use crate::steps::Steps;
use arch_time::YearStart;
use disk_model::ReadAt;
use pb_lines::{HeadErr, LineErr, header_of_line, moment_of_line};
use pb_messages::PayloadInfo;
use std::alloc::Global;
use std::marker::Model;
use std::sync::ledger::Ledger;

/// What a call of `FileWalk::next` came to.
#[derive(Clone, Copy, Debug, PartialEq, Eq)]
pub enum Walked {
    /// The header's line was read.
    Header,
    /// A sample's line was read, which stands at this moment, in nanoseconds since 1970.
    Sample { t: u64 },
    /// The file ended behind a line.
    End,
    /// A read of the file failed. The next call goes on where this one stopped.
    ReadFault,
    /// The first bad line begins at this place.
    Damaged { at: u64 },
    /// Memory ran out. The next call goes on where this one stopped.
    Memory,
}

// A file's header, and where its year starts.
#[derive(Drop)]
struct Header {
    info: PayloadInfo,
    year: YearStart,
    ghost same_year: { year.year ≡ info.year },
}

/// Reads the first bytes of one file line by line: `new`, then `next` up to `End` or `Damaged`.
#[derive(Drop)]
pub struct FileWalk {
    alloc: Global,
    block: Block,
    place: u64,
    header: Option<Header>,
    last: Option<u64>,
    stop: Option<Walked>,
    // The message of a line.
    work: Vec<u8>,
}

impl Model for FileWalk {
    ghost use Rattle.std.specs.Prelude.{◌≤◌};
    ghost use Rattle.std.specs.Option.{option_map};
    ghost use Rattle.pb_file.specs.Block.{window_of};
    ghost use Rattle.pb_file.specs.Walk.{Walk, IsFinal, behind};

    ghost Value = { Walk };

    ghost view = { λ w. record {
      len = w.block.len;
      place = w.place;
      info = option_map (λ h. h.info) w.header;
      earliest = behind w.last;
      stop = w.stop;
      window = window_of w.block;
    } };

    ghost invariant = { λ w. (w.place ≤ w.block.len) × IsFinal w.stop };
}

impl FileWalk {
    /// A walk over the first `len` bytes of a file. It takes no memory yet.
    pub fn new(alloc: Global, len: u64) -> FileWalk
        ensures start { result ≡ fresh len }
        ensures walked { (bytes : List ℕ) → HasWalked result bytes None }
    {
        FileWalk {
            alloc,
            block: Block {
                len,
                start: 0,
                bytes: Vec::new(alloc),
            },
            place: 0,
            header: None,
            last: None,
            stop: None,
            work: Vec::new(alloc),
        }
    }

    /// The header, once it was read.
    pub fn info(&self) -> Option<&PayloadInfo>
        ensures { option_copied result ≡ self.now.info }
    {
        match &self.header {
            Some(header) => Some(&header.info),
            None => None,
        }
    }

    /// The header, if it was read. The walk ends.
    pub fn into_info(self) -> Option<PayloadInfo>
        ensures { result ≡ self.info }
    {
        let FileWalk { header, .. } = self;
        match header {
            Some(header) => Some(header.info),
            None => None,
        }
    }

    // How many bytes count.
    pub(crate) fn len(&self) -> u64
        ensures { result ≡ self.now.len }
    {
        self.block.len
    }

    /// Where the next line begins.
    pub fn place(&self) -> u64
        ensures place { result ≡ self.now.place }
        ensures within { result ≤ self.now.len }
    {
        self.place
    }

    /// Reads the next line into `line`, without its newline, or tells the end of the file or its first bad line. After
    /// `End` and `Damaged` the same comes again. After `ReadFault` and `Memory` the walk goes on at the same line.
    ///
    /// Each call is given the same file. What `line` had may be lost. It reads one line at most.
    pub fn next<H: ReadAt, L: Ledger>(
        &mut self,
        file: &mut H,
        line: &mut Vec<u8>,
        steps: &mut Steps<L>,
    ) -> Walked
        requires file { IsTrue H.tells → self.old.len ≤ length (H.bytes file.old) }
        ensures walked { IsTrue H.tells → (front : Option Front) → HasWalked self.old (H.bytes file.old) front
            → Walks front (H.bytes file.old) line.new.items result self.new }
        ensures skipped { IsTrue H.tells → (at : ℕ) (front : Front) → HasSkipped self.old (H.bytes file.old) at front
            → GoesOnFrom at front (H.bytes file.old) line.new.items result self.new }
        ensures gives { IfNone self.old.stop (Gives self.old line.new.items result self.new) }
        ensures stopped { IfSome self.old.stop (λ stop.
            (result ≡ stop) × (self.new ≡ self.old) × (line.new ≡ line.old) × (file.new ≡ file.old)) }
        ensures within { self.new.place ≤ self.new.len }
        ensures same { IsTrue H.tells → H.bytes file.new ≡ H.bytes file.old }
        ensures leaves { H.leaves file.old file.new }
        ensures faults { H.faults file.old ≤ H.faults file.new }
        ensures cause { result ≡ Walked.ReadFault → Rose (H.faults file.old) (H.faults file.new) }
        ensures steps { (steps.old ≤ steps.new) × (steps.new ≤ steps.old + 1)
            × (result ≡ Walked.End → steps.new ≡ steps.old) }
    {
        if let Some(stop) = self.stop {
            return stop;
        }
        if self.is_at_end() {
            self.stop = Some(Walked::End);
            return Walked::End;
        }
        match self.block.read_line(file, self.place, line, steps) {
            BlockLine::Line => self.take(line),
            BlockLine::Torn => self.refuse(),
            BlockLine::ReadFault => Walked::ReadFault,
            BlockLine::Memory => Walked::Memory,
        }
    }

    /// The next sample's moment and its line, without its newline, where the line is in memory whole and good, and the
    /// moment is from `from` to `to`, both included. `pass` goes on behind it.
    ///
    /// `work` is scratch space: what it held is lost.
    #[inline(always)]
    pub fn held<'a>(&'a self, from: u64, to: u64, work: &mut Vec<u8>) -> Option<(u64, &'a [u8])>
        ensures held { IfSome result (λ found. HoldsSample self.now found.0 found.1.now) }
        ensures within { IfSome result (λ found. (from ≤ found.0) × (found.0 ≤ to)) }
    {
        if self.stop.is_some() {
            return None;
        }
        let Some(header) = &self.header else {
            return None;
        };
        let line = self.block.held_line(self.place)?;
        let Ok(t) = moment_of_line(header.info.ty, &header.year, line, work) else {
            return None;
        };
        if t < from || t > to || !is_behind(self.last, t) {
            return None;
        }
        Some((t, line))
    }

    /// Goes on behind the sample that `held` gives, whose line has `len` bytes: `next` would have given it.
    #[inline(always)]
    pub fn pass<L: Ledger>(&mut self, t: u64, len: usize, steps: &mut Steps<L>)
        requires held { HoldsLong self.old t len }
        ensures passed { self.new ≡ record self.old { place = self.old.place + len + 1; earliest = t + 1 } }
        ensures step { steps.new ≡ steps.old + 1 }
    {
        steps.tick();
        let end = self.place + len as u64;
        self.place = end + 1;
        self.last = Some(t);
    }

    /// Goes on at a later place, without reading what stands before it: `next` answers from then on as over the
    /// header's line and the bytes from there on. The first line there is compared with none before it. At a place that
    /// isn't later, or is past the bytes that count, nothing changes.
    pub fn skip_to(&mut self, at: u64)
        requires { IsSome self.old.info }
        ensures skips { self.old.place < at → at ≤ self.old.len
            → self.new ≡ record self.old { place = at; earliest = 0; stop = None } }
        ensures stays { (self.old.place < at → at ≤ self.old.len → ⊥) → self.new ≡ self.old }
        ensures skipped { self.old.place < at → at ≤ self.old.len → (bytes head : List ℕ) (info : InfoValue)
            → HasHeader self.old bytes head info
            → HasSkipped self.new bytes at (record { head = head; info = info; samples = [] }) }
    {
        if self.place < at && at <= self.block.len {
            self.seek(at);
        }
    }

    // Goes on at any place.
    pub(crate) fn seek(&mut self, at: u64)
        requires within { at ≤ self.old.len }
        ensures moved { self.new ≡ record self.old { place = at; earliest = 0; stop = None } }
        ensures skipped { (bytes head : List ℕ) (info : InfoValue) → HasHeader self.old bytes head info
            → HasSkipped self.new bytes at (record { head = head; info = info; samples = [] }) }
    {
        self.place = at;
        self.last = None;
        self.stop = None;
    }

    // Where the first line begins behind a place: behind the first newline from there on. It is the end where none is.
    pub(crate) fn line_behind<H: ReadAt, L: Ledger>(
        &mut self,
        file: &mut H,
        place: u64,
        line: &mut Vec<u8>,
        steps: &mut Steps<L>,
    ) -> Result<u64, SearchErr>
        requires within { place < self.old.len }
        requires file { IsTrue H.tells → self.old.len ≤ length (H.bytes file.old) }
        ensures behind { IfOk result (λ at. (place < at) × (at ≤ self.old.len)) }
        ensures line { IsTrue H.tells → IsWindowOf self.old.window (H.bytes file.old)
            → IfOk result (BeginsBehind (take self.old.len (H.bytes file.old)) place) }
        ensures window { IsTrue H.tells → IsWindowOf self.old.window (H.bytes file.old)
            → IsWindowOf self.new.window (H.bytes file.old) }
        ensures walk { self.new ≡ record self.old { window = self.new.window } }
        ensures never { (at : ℕ) → result ≡ Err (Damaged at) → ⊥ }
        ensures same { IsTrue H.tells → H.bytes file.new ≡ H.bytes file.old }
        ensures faults { H.faults file.old ≤ H.faults file.new }
        ensures cause { result ≡ Err ReadFault → Rose (H.faults file.old) (H.faults file.new) }
        ensures step { steps.new ≡ steps.old + 1 }
    {
        match self.block.read_line(file, place, line, steps) {
            BlockLine::Line => return Ok(place + line.len() as u64 + 1),
            BlockLine::Torn => return Ok(self.block.len),
            BlockLine::ReadFault => return Err(SearchErr::ReadFault),
            BlockLine::Memory => return Err(SearchErr::Memory),
        }
    }

    fn is_at_end(&self) -> bool
        ensures { IsTrue result ↔ (IsSome self.now.info × (self.now.place ≡ self.now.len)) }
    {
        self.header.is_some() && self.place == self.block.len
    }

    // What a line that was read comes to. Where memory runs out it is read again.
    fn take(&mut self, line: &[u8]) -> Walked
        requires going { self.old.stop ≡ None }
        requires whole { HasNoNewline line.now }
        requires room { self.old.place + length line.now + 1 ≤ self.old.len }
        ensures { Takes self.old line.now result self.new }
    {
        if self.header.is_some() {
            self.take_sample(line)
        } else {
            self.take_header(line)
        }
    }

    fn take_header(&mut self, line: &[u8]) -> Walked
        requires going { self.old.stop ≡ None }
        requires whole { HasNoNewline line.now }
        requires room { self.old.place + length line.now + 1 ≤ self.old.len }
        requires first { self.old.info ≡ None }
        ensures { Takes self.old line.now result self.new }
    {
        let info = match header_of_line(self.alloc, line, &mut self.work) {
            Ok(info) => info,
            Err(HeadErr::Memory) => return Walked::Memory,
            Err(HeadErr::Fault(_)) => return self.refuse(),
        };
        let Ok(year) = YearStart::new(info.year) else {
            unreachable!();
        };
        self.place += line.len() as u64 + 1;
        self.header = Some(Header { info, year });
        Walked::Header
    }

    fn take_sample(&mut self, line: &[u8]) -> Walked
        requires going { self.old.stop ≡ None }
        requires whole { HasNoNewline line.now }
        requires room { self.old.place + length line.now + 1 ≤ self.old.len }
        requires later { IsSome self.old.info }
        ensures { Takes self.old line.now result self.new }
    {
        let Some(header) = &self.header else {
            unreachable!();
        };
        let t = match moment_of_line(header.info.ty, &header.year, line, &mut self.work) {
            Ok(t) => t,
            Err(LineErr::Memory) => return Walked::Memory,
            Err(LineErr::Fault(_)) => return self.refuse(),
        };
        if is_behind(self.last, t) {
            self.place += line.len() as u64 + 1;
            self.last = Some(t);
            return Walked::Sample { t };
        }
        self.refuse()
    }

    // Stops for good at the line that comes next.
    fn refuse(&mut self) -> Walked
        ensures result { result ≡ Walked.Damaged self.old.place }
        ensures after { self.new ≡ record self.old { stop = Some (Walked.Damaged self.old.place) } }
    {
        let answer = Walked::Damaged { at: self.place };
        self.stop = Some(answer);
        answer
    }
}

fn is_behind(last: Option<u64>, t: u64) -> bool
    ensures { IsTrue result ↔ (behind last ≤ t) }
{
    match last {
        Some(last) => last < t,
        None => true,
    }
}
