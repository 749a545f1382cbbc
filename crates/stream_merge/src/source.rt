//! The samples of pieces and of a tail, one after another.
ghost use Rattle.std.specs.Prelude.{◌≡◌, ◌≤◌, ◌<◌, ◌+◌, ◌*◌, ◌^◌, ◌↔◌, ◌∷◌, [], ℕ, List, Some, None, IfSome, IsSome, IsTrue};
ghost use Rattle.std.specs.Prelude.{IfOk, IfErr, length, drop};
ghost use Rattle.disk_model.specs.Files.{Rose};
ghost use Rattle.series_model.specs.declared.sample.Sample.{Sample as SampleValue};
ghost use Rattle.pb_messages.specs.declared.info.PayloadInfo.{PayloadInfo as Info};
ghost use Rattle.stream_merge.specs.Pieces.{NamedBytes};
ghost use Rattle.stream_merge.specs.Reading.{AreSamplesOf};
ghost use Rattle.stream_merge.specs.Source.{IsReady, IsOpenAs, Coming, ReadsOpen, Pulls, OpensOn, Went, IsStop};
ghost use Rattle.stream_merge.specs.Source.{ClosesAs, IsOfTail, HoldsIn, passed, BeginsPiece, RefusesAs};
ghost use Rattle.stream_merge.specs.Source.{CameOfOpen, CameOfPull, StopsAs};
ghost use Rattle.stream_merge.specs.Beginning.{early_count, IsPlaced, TellsAs};
ghost use Rattle.stream_merge.specs.Reads.{HasRead, HasReadOpen, OpensAt, PullsNext, ReadsNext};
ghost use Rattle.pb_file.specs.Walk.{behind};

use crate::beginning::skip;
use crate::pieces::{Merged, Opened, Pieces};
use disk_model::{FileName, ReadAt};
use pb_file::{FileWalk, SearchErr, Steps, Walked};
use pb_wire::PayloadType;
use series_model::{Query, Sample};
use std::alloc::Global;
use std::sync::ledger::Ledger;

// A piece that is open, and whose header was read.
#[derive(Drop)]
pub(crate) struct OpenPiece<R: ReadAt> {
    reader: R,
    name: FileName,
    walk: FileWalk,
}

// The samples that are yet to be read: of the open piece, of the pieces behind it, and of the tail.
#[derive(Drop)]
pub(crate) struct SampleSource<R: ReadAt> {
    alloc: Global,
    ty: PayloadType,
    piece: Option<OpenPiece<R>>,
    tail: Vec<Sample>,
    at: usize,
}

impl<R: ReadAt> SampleSource<R> {
    // Nothing is read yet.
    pub(crate) fn new(alloc: Global, ty: PayloadType, tail: Vec<Sample>) -> SampleSource<R>
        ensures { result ≡ record { alloc = alloc; ty = ty; piece = None; tail = tail; at = 0 } }
    {
        SampleSource {
            alloc,
            ty,
            piece: None,
            tail,
            at: 0,
        }
    }

    // Reads the next sample's line. `End` says that there is none. Of a piece that is opened those samples are left out
    // that aren't later than `last`, and those before the last one that is earlier than the interval.
    pub(crate) fn pull<P: Pieces<Reader = R>, L: Ledger>(
        &mut self,
        pieces: &mut P,
        query: Query,
        last: Option<u64>,
        line: &mut Vec<u8>,
        steps: &mut Steps<L>,
    ) -> Merged<R>
        requires ready { IsReady R.tells R.bytes self.old.ty self.old.piece }
        requires tail { AreSamplesOf self.old.ty self.old.tail.items }
        requires may { P.may_open pieces.old }
        ensures came { CameOfPull R.tells R.bytes R.faults (P.count pieces.old) (P.count pieces.new)
            self.old self.new line.new.items result }
        ensures stops { StopsAs R.tells R.bytes R.faults self.old.ty self.old.piece (P.left pieces.old)
            (P.count pieces.new < P.count pieces.old) (Rose (P.faults pieces.old) (P.faults pieces.new))
            (P.is_spent pieces.new) result }
        ensures same { (self.new.ty ≡ self.old.ty) × (self.new.tail ≡ self.old.tail) }
        ensures lines { IsTrue R.tells → (ps : List NamedBytes) (xs : List SampleValue) → P.left pieces.old ps
            → (c : Coming R.bytes self.old ps xs) → IsPlaced (behind last) query.from c.here
            → Pulls R.bytes (P.left pieces.new) (behind last) query ps xs
            (steps.old + early_count query.from c.here) self.new line.new.items steps.new result }
        ensures reads { IsTrue R.tells → (ps : List NamedBytes) (read : List SampleValue)
            → HasRead R.bytes self.old (P.count pieces.old) ps read
            → PullsNext R.bytes P.opened pieces.old ps pieces.new
            (P.count pieces.new) read self.new line.new.items result }
        ensures opens { IsTrue R.tells → (ps : List NamedBytes) → P.left pieces.old ps
            → OpensOn R.bytes (P.left pieces.new) self.old.piece self.new.piece ps result }
        ensures went { Went R.tells R.bytes P.opened P.failed self.old.ty pieces.old
            self.old.piece result pieces.new self.new.piece }
        ensures faults { P.faults pieces.old ≤ P.faults pieces.new }
        ensures count { P.count pieces.new ≤ P.count pieces.old }
    {
        'pieces: loop {
            match self.read_open(line, steps) {
                Merged::End => {}
                merged => return merged,
            }
            match pieces.open_next() {
                Opened::Piece {
                    reader,
                    name,
                    len,
                    ..
                } => match open_at(
                    self.alloc, self.ty, reader, name, len, query, last, line, steps,
                ) {
                    Ok(piece) => self.piece = Some(piece),
                    Err(merged) => return merged,
                },
                Opened::NoMore => return self.read_tail(line),
                Opened::ReadFault => return Merged::ReadFault { failed: None },
                Opened::Spent => return Merged::Spent,
                Opened::Memory => return Merged::Memory,
            }
        }
    }

    // The next sample of the open piece and its line, where they are in memory and the moment is from `from` to `to`.
    #[inline(always)]
    pub(crate) fn held<'a>(
        &'a self,
        from: u64,
        to: u64,
        work: &mut Vec<u8>,
    ) -> Option<(u64, &'a [u8])>
        ensures held { IfSome result (λ found. HoldsIn self.now.piece found.0 found.1.now) }
        ensures within { IfSome result (λ found. (from ≤ found.0) × (found.0 ≤ to)) }
    {
        match &self.piece {
            Some(piece) => piece.walk.held(from, to, work),
            None => None,
        }
    }

    // Goes on behind that sample, whose line has `len` bytes.
    #[inline(always)]
    pub(crate) fn pass<L: Ledger>(&mut self, t: u64, len: usize, steps: &mut Steps<L>)
        requires { (line : List ℕ) × HoldsIn self.old.piece t line × (len ≡ length line) }
        ensures passed { self.new ≡ record self.old { piece = passed self.old.piece t len } }
        ensures step { steps.new ≡ steps.old + 1 }
    {
        match &mut self.piece {
            Some(piece) => piece.walk.pass(t, len, steps),
            None => {}
        }
    }

    // Reads the next line of the open piece. At its end none is open.
    fn read_open<L: Ledger>(&mut self, line: &mut Vec<u8>, steps: &mut Steps<L>) -> Merged<R>
        requires ready { IsReady R.tells R.bytes self.old.ty self.old.piece }
        ensures came { CameOfOpen R.tells R.bytes R.faults self.old.ty self.old.piece self.new.piece
            line.new.items result }
        ensures ends { self.old.piece ≡ None → result ≡ Merged.End }
        ensures same { self.new ≡ record self.old { piece = self.new.piece } }
        ensures lines { IsTrue R.tells → (xs : List SampleValue) → IsOpenAs R.bytes self.old.piece xs
            → ReadsOpen R.bytes self.new.piece xs line.new.items result }
        ensures reads { IsTrue R.tells → (read : List SampleValue) → HasReadOpen R.bytes self.old.ty self.old.piece read
            → ReadsNext R.bytes self.old.ty self.old.piece self.new.piece read line.new.items result }
        ensures counts { steps.old ≤ steps.new }
        ensures one_step { steps.new ≤ steps.old + 1 }
        ensures no_step { result ≡ Merged.End → steps.new ≡ steps.old }
    {
        let Some(piece) = &mut self.piece else {
            return Merged::End;
        };
        let walked = piece.walk.next(&mut piece.reader, line, steps);
        if let Walked::Sample { t } = walked {
            return Merged::Line { t };
        }
        let Some(piece) = self.piece.take() else {
            unreachable!();
        };
        close(piece, walked)
    }

    // Reads the next line of the tail.
    fn read_tail(&mut self, line: &mut Vec<u8>) -> Merged<R>
        ensures line { (t : ℕ) → result ≡ Merged.Line t
            → drop self.old.at self.old.tail.items
            ≡ record { t = t; line = line.new.items } ∷ drop self.new.at self.new.tail.items }
        ensures end { result ≡ Merged.End → (drop self.old.at self.old.tail.items ≡ []) × (self.new ≡ self.old) }
        ensures same { self.new ≡ record self.old { at = self.new.at } }
        ensures whole { IsOfTail result }
        ensures smaller { (t : ℕ) → result ≡ Merged.Line t
            → length (drop self.new.at self.new.tail.items) < length (drop self.old.at self.old.tail.items) }
    {
        let Some(sample) = self.tail.get(self.at) else {
            return Merged::End;
        };
        line.clear();
        if line.extend_from_slice(sample.line.bytes()).is_err() {
            return Merged::Memory;
        }
        let t = sample.t;
        self.at += 1;
        Merged::Line { t }
    }
}

// Opens a piece where its samples begin to count: at the last one that is earlier than the interval, or behind those
// that aren't later than the last one taken.
fn open_at<R: ReadAt, L: Ledger>(
    alloc: Global,
    ty: PayloadType,
    reader: R,
    name: FileName,
    len: u64,
    query: Query,
    last: Option<u64>,
    line: &mut Vec<u8>,
    steps: &mut Steps<L>,
) -> Result<OpenPiece<R>, Merged<R>>
    requires bytes { IsTrue R.tells → len ≤ length (R.bytes reader) }
    ensures opened { IfOk result (OpensAt R.bytes R.tells ty (behind last) query name len reader) }
    ensures refused { IfErr result (RefusesAs R.tells R.bytes R.faults ty name len reader) }
    ensures counts { steps.old ≤ steps.new }
    ensures steps { (d : ℕ) → len < 2 ^ d → steps.new ≤ steps.old + 4 * d + 5 }
{
    let mut piece = begin(alloc, ty, reader, name, len, line, steps)?;
    match skip(
        alloc,
        &mut piece.walk,
        &mut piece.reader,
        len,
        query,
        last,
        line,
        steps,
    ) {
        Ok(()) => Ok(piece),
        Err(err) => Err(refuse(piece, err)),
    }
}

// Opens a piece: its first line is to be a header of the type.
fn begin<R: ReadAt, L: Ledger>(
    alloc: Global,
    ty: PayloadType,
    reader: R,
    name: FileName,
    len: u64,
    line: &mut Vec<u8>,
    steps: &mut Steps<L>,
) -> Result<OpenPiece<R>, Merged<R>>
    requires bytes { IsTrue R.tells → len ≤ length (R.bytes reader) }
    ensures begun { IfOk result (BeginsPiece R.tells R.bytes ty name len reader) }
    ensures refused { IfErr result (RefusesAs R.tells R.bytes R.faults ty name len reader) }
    ensures counts { steps.old ≤ steps.new }
    ensures one_step { steps.new ≤ steps.old + 1 }
{
    let mut piece = OpenPiece {
        reader,
        name,
        walk: FileWalk::new(alloc, len),
    };
    match piece.walk.next(&mut piece.reader, line, steps) {
        Walked::Header => {
            if is_of_type(&piece.walk, ty) {
                Ok(piece)
            } else {
                Err(Merged::Damaged {
                    name: piece.name,
                    at: 0,
                })
            }
        }
        Walked::Sample { .. } => unreachable!(),
        Walked::End => unreachable!(),
        walked => Err(close(piece, walked)),
    }
}

// Whether the header that was read is of the type.
fn is_of_type(walk: &FileWalk, ty: PayloadType) -> bool
    requires { IsSome walk.now.info }
    ensures { (info : Info) → walk.now.info ≡ Some info → (IsTrue result ↔ (info.ty ≡ ty)) }
{
    let Some(info) = walk.info() else {
        unreachable!();
    };
    info.ty == ty
}

// What a walk's end, or its failure, is told as.
fn close<R: ReadAt>(piece: OpenPiece<R>, walked: Walked) -> Merged<R>
    requires { IsStop walked }
    ensures { ClosesAs piece walked result }
{
    match walked {
        Walked::End => Merged::End,
        Walked::ReadFault => Merged::ReadFault {
            failed: Some(piece.reader),
        },
        Walked::Damaged { at } => Merged::Damaged {
            name: piece.name,
            at,
        },
        Walked::Memory => Merged::Memory,
        Walked::Header => unreachable!(),
        Walked::Sample { .. } => unreachable!(),
    }
}

// What a failed search is told as.
fn refuse<R: ReadAt>(piece: OpenPiece<R>, err: SearchErr) -> Merged<R>
    ensures { TellsAs piece err result }
{
    match err {
        SearchErr::ReadFault => Merged::ReadFault {
            failed: Some(piece.reader),
        },
        SearchErr::Damaged { at } => Merged::Damaged {
            name: piece.name,
            at,
        },
        SearchErr::Memory => Merged::Memory,
    }
}
