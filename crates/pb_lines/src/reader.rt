// A raw PB stream read item by item: headers, samples and the ends of chunks.
ghost use Rattle.std.specs.Prelude.{◌≡◌, ◌≢◌, ◌↔◌, ◌≤◌, ℕ, List, Option, [], IfOk, IfSome, IfNone, IsTrue, IsSome};
ghost use Rattle.std.specs.Prelude.{length, take, map};
ghost use Rattle.std.specs.Option.{option_copied};
ghost use Rattle.edge_io.specs.Stream.{Rose};
ghost use Rattle.pb_lines.specs.Reader.{IsFresh, HoldsLine, ReadsItem, ReadsLine, Fetches, EndsStream, TakesLine};
ghost use Rattle.pb_lines.specs.Reader.{IsLineOf, Counts, CountsOn, to_come, lines_taken, bytes_taken, line_number};
ghost use Rattle.pb_lines.specs.Reader.{Passes};
ghost use Rattle.pb_lines.specs.Stream.{sample};
ghost use Rattle.pb_lines.specs.Run.{HoldsRun, TakesRun, samples_of};

use crate::fault::{ChunkFault, LineErr};
use crate::header::{HeadErr, header_of_line};
use crate::run::{Run, run_of};
use crate::sample::moment_of_line;
use arch_time::YearStart;
use edge_io::{LineRead, Lines, Source};
use pb_messages::PayloadInfo;
use std::alloc::{AllocError, Global};
use std::marker::Model;

/// What a call of `ChunkReader` came to.
#[derive(Clone, Copy, Debug, PartialEq, Eq)]
pub enum ChunkItem {
    /// A header was read, which begins a chunk.
    Header,
    /// A sample of the chunk was read, which stands at this moment, in nanoseconds since 1970.
    Sample { t: u64 },
    /// The chunk ended, at an empty line or at the end of the stream.
    ChunkEnd,
    /// The stream ended.
    End,
    /// The first bad line was met. Each later call says the same, and reads nothing.
    Refused(ChunkFault),
    /// A read of the source failed. The next call goes on where this one stopped.
    SourceFault,
    /// Memory ran out. The next call goes on where this one stopped.
    Memory,
}

// A chunk's header, and where its year starts.
#[derive(Drop)]
struct Chunk {
    info: PayloadInfo,
    year: YearStart,
    ghost same_year: { year.year ≡ info.year },
}

/// Reads a stream of chunks, item by item: `new`, then `next` up to `End` or `Refused`.
///
/// Behind `Header` its fields are `info`, and behind `Header` and `Sample` the line is `line`. One
/// buffer is kept for the messages of all lines.
#[derive(Drop)]
pub struct ChunkReader {
    alloc: Global,
    lines: Lines,
    // The last line of `lines` is still to be taken.
    pending: bool,
    // A header was read.
    begun: bool,
    chunk: Option<Chunk>,
    refused: Option<ChunkFault>,
    // The message of a line.
    work: Vec<u8>,
}

impl Model for ChunkReader {
    ghost use Rattle.std.specs.Prelude.{true};
    ghost use Rattle.std.specs.Option.{option_map};
    ghost use Rattle.pb_lines.specs.Reader.{Chunks, IsReady};

    ghost Value = { Chunks };

    ghost view = { λ r. record {
      lines = r.lines;
      pending = r.pending;
      section = record { begun = r.begun; chunk = option_map (λ c. c.info) r.chunk };
      refused = r.refused;
    } };

    ghost invariant = { λ r. IsReady r.lines r.pending r.refused };
}

impl ChunkReader {
    /// A reader of a stream from its start.
    pub fn new(alloc: Global) -> Result<ChunkReader, AllocError>
        ensures { IfOk result IsFresh }
    {
        Ok(ChunkReader {
            alloc,
            lines: Lines::new(alloc)?,
            pending: false,
            begun: false,
            chunk: None,
            refused: None,
            work: Vec::new(alloc),
        })
    }

    /// The header of the chunk in which the next line stands, none outside a chunk.
    pub fn info(&self) -> Option<&PayloadInfo>
        ensures { option_copied result ≡ self.now.section.chunk }
    {
        match &self.chunk {
            Some(chunk) => Some(&chunk.info),
            None => None,
        }
    }

    /// The line that was read last, as it stands, without its newline.
    #[inline(always)]
    pub fn line(&self) -> &[u8]
        ensures { result.now ≡ self.now.lines.line }
    {
        self.lines.line()
    }

    /// The number of that line, from 1; 0 before the first. Behind a refusal it is the bad line's
    /// number, or in a stream without any header the number after the last line.
    pub fn number(&self) -> u64
        ensures { result ≡ line_number self.now }
    {
        let number = self.lines.number();
        match self.refused {
            None | Some(ChunkFault::BadHeader(_) | ChunkFault::BadLine(_)) => number,
            Some(_) => number + 1,
        }
    }

    /// Whether the next call of `read_line` answers without a read.
    #[inline(always)]
    pub fn holds_line(&self) -> bool
        ensures { IsTrue result ↔ HoldsLine self.now }
    {
        self.refused.is_some() || self.pending || self.lines.holds_line()
    }

    /// Reads the next item, and skips empty lines outside a chunk before it.
    pub fn next<S: Source>(&mut self, source: &mut S) -> ChunkItem
        ensures item { IfNone self.old.refused (ReadsItem self.old self.new
            (to_come self.old (S.left source.old)) (to_come self.new (S.left source.new)) result) }
        ensures line { IsLineOf self.new result }
        ensures lines { IfNone self.old.refused (CountsOn self.old self.new result) }
        ensures refused { IfSome self.old.refused (λ f.
            (result ≡ ChunkItem.Refused f) × (self.new ≡ self.old) × (source.new ≡ source.old)) }
        ensures faults { S.read_faults source.old ≤ S.read_faults source.new }
        ensures failed { result ≡ ChunkItem.SourceFault → Rose (S.read_faults source.old) (S.read_faults source.new) }
        ensures beside { S.beside source.new ≡ S.beside source.old }
    {
        'lines: loop {
            if let Some(item) = self.read_line(source) {
                return item;
            }
        }
    }

    /// Reads one line at most: the item that it gives, or `None` where it is an empty line outside
    /// a chunk. So a caller can turn to other work between two lines.
    #[inline(always)]
    pub fn read_line<S: Source>(&mut self, source: &mut S) -> Option<ChunkItem>
        ensures item { IfNone self.old.refused (ReadsLine self.old self.new
            (to_come self.old (S.left source.old)) (to_come self.new (S.left source.new)) result) }
        ensures line { IfSome result (IsLineOf self.new) }
        ensures lines { IfNone self.old.refused (Counts (lines_taken self.old) (bytes_taken self.old) self.new result) }
        ensures refused { IfSome self.old.refused (λ f.
            (result ≡ Some (ChunkItem.Refused f)) × (self.new ≡ self.old) × (source.new ≡ source.old)) }
        ensures unread { HoldsLine self.old → source.new ≡ source.old }
        ensures faults { S.read_faults source.old ≤ S.read_faults source.new }
        ensures failed { result ≡ Some ChunkItem.SourceFault
            → Rose (S.read_faults source.old) (S.read_faults source.new) }
        ensures beside { S.beside source.new ≡ S.beside source.old }
    {
        if let Some(fault) = self.refused {
            return Some(ChunkItem::Refused(fault));
        }
        if let Some(item) = self.fetch(source) {
            return Some(item);
        }
        self.take_line()
    }

    /// Looks for samples of the chunk whose lines are held one behind another, as far as each is later than
    /// the one before it, the first later than `after`, and none later than `to`. They aren't read by it.
    ///
    /// `None` says nothing of what follows, which `read_line` reads.
    pub fn find_run(&mut self, after: u64, to: u64) -> Option<Run>
        requires { after ≤ to }
        ensures run { IfSome result (HoldsRun self.old after to) }
        ensures same { self.new ≡ self.old }
    {
        if self.pending {
            return None;
        }
        if self.refused.is_some() {
            return None;
        }
        let Some(chunk) = &self.chunk else {
            return None;
        };
        run_of(
            chunk.info.ty,
            &chunk.year,
            self.lines.held(),
            after,
            to,
            &mut self.work,
        )
    }

    /// The lines of a run that is held, each with its newline.
    pub fn run_text(&self, run: &Run) -> &[u8]
        requires { run.now.len ≤ length self.now.lines.held }
        ensures { result.now ≡ take run.now.len self.now.lines.held }
    {
        let (text, _) = self.lines.held().split_at(run.len);
        text
    }

    /// Reads a run that is held. `line` is its last line then.
    pub fn take_run(&mut self, run: Run)
        requires { (after to : ℕ) × HoldsRun self.old after to run }
        ensures takes { TakesRun self.old self.new run }
        ensures passes { (after to : ℕ) (h : HoldsRun self.old after to run) (left : Option (List ℕ))
            → Passes self.old self.new (to_come self.old left) (to_come self.new left) (map sample (samples_of h.is)) }
        ensures line { (after to : ℕ) (h : HoldsRun self.old after to run) → self.new.lines.line ≡ h.is.last.line }
    {
        self.lines.pass_lines(run.len, run.count, run.last);
    }

    // Reads a line that is to be taken, unless there is one.
    fn fetch<S: Source>(&mut self, source: &mut S) -> Option<ChunkItem>
        requires { self.old.refused ≡ None }
        ensures line { IfNone result
            (Fetches self.old self.new (to_come self.old (S.left source.old)) (to_come self.new (S.left source.new))) }
        ensures item { IfSome result (ReadsItem self.old self.new
            (to_come self.old (S.left source.old)) (to_come self.new (S.left source.new))) }
        ensures no_line { IfSome result (IsLineOf self.new) }
        ensures lines { IfSome result (λ item.
            Counts (lines_taken self.old) (bytes_taken self.old) self.new (Some item)) }
        ensures unread { HoldsLine self.old → source.new ≡ source.old }
        ensures faults { S.read_faults source.old ≤ S.read_faults source.new }
        ensures failed { result ≡ Some ChunkItem.SourceFault
            → Rose (S.read_faults source.old) (S.read_faults source.new) }
        ensures beside { S.beside source.new ≡ S.beside source.old }
    {
        if self.pending {
            return None;
        }
        let fault = match self.lines.next(source) {
            LineRead::Line => {
                self.pending = true;
                return None;
            }
            LineRead::End => return Some(self.end()),
            LineRead::SourceFault => return Some(ChunkItem::SourceFault),
            LineRead::Memory => return Some(ChunkItem::Memory),
            LineRead::Torn => ChunkFault::Torn,
            LineRead::TooLong => ChunkFault::LineTooLong,
            LineRead::InputTooLong => ChunkFault::InputTooLong,
        };
        self.refused = Some(fault);
        Some(ChunkItem::Refused(fault))
    }

    // What the end of the stream comes to.
    fn end(&mut self) -> ChunkItem
        requires { self.old.refused ≡ None }
        ensures ends { EndsStream self.old self.new result }
        ensures no_line { IsLineOf self.new result }
    {
        if self.chunk.is_some() {
            self.chunk = None;
            self.begun = true;
            return ChunkItem::ChunkEnd;
        }
        if self.begun {
            return ChunkItem::End;
        }
        self.refused = Some(ChunkFault::NoHeader);
        ChunkItem::Refused(ChunkFault::NoHeader)
    }

    // Takes the line that is to be taken. Where memory runs out it still is.
    #[inline(always)]
    fn take_line(&mut self) -> Option<ChunkItem>
        requires pending { IsTrue self.old.pending }
        requires going { self.old.refused ≡ None }
        ensures { TakesLine self.old self.new result }
    {
        if self.lines.line().is_empty() {
            self.take_empty_line()
        } else if self.chunk.is_some() {
            Some(self.take_sample())
        } else {
            Some(self.take_header())
        }
    }

    // An empty line ends a chunk, and is skipped outside one.
    #[inline(always)]
    fn take_empty_line(&mut self) -> Option<ChunkItem>
        requires pending { IsTrue self.old.pending }
        requires going { self.old.refused ≡ None }
        requires empty { self.old.lines.line ≡ [] }
        ensures { TakesLine self.old self.new result }
    {
        self.pending = false;
        if self.chunk.is_none() {
            return None;
        }
        self.chunk = None;
        self.begun = true;
        Some(ChunkItem::ChunkEnd)
    }

    // Outside a chunk a line is a header.
    #[inline(never)]
    fn take_header(&mut self) -> ChunkItem
        requires pending { IsTrue self.old.pending }
        requires going { self.old.refused ≡ None }
        requires some { self.old.lines.line ≢ [] }
        requires outside { self.old.section.chunk ≡ None }
        ensures { TakesLine self.old self.new (Some result) }
    {
        let info = match header_of_line(self.alloc, self.lines.line(), &mut self.work) {
            Ok(info) => info,
            Err(HeadErr::Memory) => return ChunkItem::Memory,
            Err(HeadErr::Fault(fault)) => {
                let fault = ChunkFault::BadHeader(fault);
                self.pending = false;
                self.refused = Some(fault);
                return ChunkItem::Refused(fault);
            }
        };
        let Ok(year) = YearStart::new(info.year) else {
            unreachable!();
        };
        self.pending = false;
        self.begun = true;
        self.chunk = Some(Chunk { info, year });
        ChunkItem::Header
    }

    // Within a chunk a line is a sample.
    #[inline(always)]
    fn take_sample(&mut self) -> ChunkItem
        requires pending { IsTrue self.old.pending }
        requires going { self.old.refused ≡ None }
        requires some { self.old.lines.line ≢ [] }
        requires inside { IsSome self.old.section.chunk }
        ensures { TakesLine self.old self.new (Some result) }
    {
        let Some(chunk) = &self.chunk else {
            unreachable!();
        };
        match moment_of_line(
            chunk.info.ty,
            &chunk.year,
            self.lines.line(),
            &mut self.work,
        ) {
            Ok(t) => {
                self.pending = false;
                ChunkItem::Sample { t }
            }
            Err(LineErr::Memory) => ChunkItem::Memory,
            Err(LineErr::Fault(fault)) => {
                let fault = ChunkFault::BadLine(fault);
                self.pending = false;
                self.refused = Some(fault);
                ChunkItem::Refused(fault)
            }
        }
    }
}
