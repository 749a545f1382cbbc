//! The merge of pieces and a tail.
ghost use Rattle.std.specs.Prelude.{◌≡◌, ◌≤◌, ◌<◌, ◌+◌, ◌↔◌, ◌∷◌, ◌++◌, [], ℕ, List, Some, None, IfSome};
ghost use Rattle.std.specs.Prelude.{IsSome, IsTrue, length};
ghost use Rattle.disk_model.specs.Files.{Rose};
ghost use Rattle.series_model.specs.declared.sample.Sample.{Sample as SampleValue};
ghost use Rattle.series_model.specs.Series.{IsRising};
ghost use Rattle.series_model.specs.Retrieval.{answer};
ghost use Rattle.stream_merge.specs.Pieces.{NamedBytes};
ghost use Rattle.stream_merge.specs.Reading.{AreSamplesOf, AreReadAs};
ghost use Rattle.pb_file.specs.Walk.{behind};
ghost use Rattle.stream_merge.specs.Over.{over_all};
ghost use Rattle.stream_merge.specs.Source.{OpensOn, IsGiven, StopsAs, Went, TakesFew};
ghost use Rattle.stream_merge.specs.Reads.{GivesNext, HasGiven};
ghost use Rattle.stream_merge.specs.Merging.{IsGoing, IsDue, IsEarly, Rest, HoldsNext, HoldsNextLong, GoesBehind};
ghost use Rattle.stream_merge.specs.Merging.{Answers, Gives, GivesLine, kept_of, line_from};

use crate::pieces::{Merged, Pieces};
use crate::source::SampleSource;
use disk_model::ReadAt;
use pb_file::Steps;
use pb_wire::PayloadType;
use series_model::{Query, Samples};
use std::alloc::Global;
use std::mem;
use std::sync::ledger::Ledger;

/// The answer over pieces and a tail, line by line: `new`, then `next` up to any answer but `Line`.
#[derive(Drop)]
pub struct Merge<R: ReadAt> {
    query: Query,
    source: SampleSource<R>,
    // The moment of the last sample that was taken: of the others those count that are later.
    last: Option<u64>,
    // A sample that was taken and not given yet: the last one earlier than the interval, until one that
    // isn't comes; then that one.
    kept: Option<u64>,
    kept_line: Vec<u8>,
}

impl<R: ReadAt> Merge<R> {
    /// A merge that has read nothing, over pieces of the type `ty` and a tail whose lines are events of it.
    pub fn new(alloc: Global, query: Query, ty: PayloadType, tail: Samples) -> Merge<R>
        requires events { AreSamplesOf ty tail }
        ensures going { IsGoing R.tells R.bytes result }
        ensures ty { result.source.ty ≡ ty }
        ensures whole { (ps : List NamedBytes) (lists : List (List SampleValue)) → AreReadAs ty ps lists → IsRising tail
            → Rest R.bytes result ps (answer (over_all lists tail) query) }
        ensures over { (result.query ≡ query) × (result.source.tail.items ≡ tail) }
        ensures nothing { (left : ℕ) → HasGiven R.bytes result left [] [] }
        ensures none_open { result.source.piece ≡ None }
        ensures first { line_from result ≡ 0 }
    {
        Merge {
            query,
            source: SampleSource::new(alloc, ty, tail.into_vec()),
            last: None,
            kept: None,
            kept_line: Vec::new(alloc),
        }
    }

    /// Gives the next line of the answer, in place of what `line` had, or tells that there is none. After any answer
    /// but `Line` it isn't called again.
    ///
    /// Each call is given the pieces that are left of the same ones. `steps` counts the lines that are read: of
    /// files of the type at most 4, and `4 * d + 8` for each piece that is opened, `d` being the number of
    /// binary digits of its length.
    pub fn next<P: Pieces<Reader = R>, L: Ledger>(
        &mut self,
        pieces: &mut P,
        line: &mut Vec<u8>,
        steps: &mut Steps<L>,
    ) -> Merged<R>
        requires going { IsGoing R.tells R.bytes self.old }
        requires may { P.may_open pieces.old }
        ensures line { (t : ℕ) → result ≡ Merged.Line t
            → GivesLine R.tells R.bytes (P.count pieces.old) (P.count pieces.new) self.old self.new
            (record { t = t; line = line.new.items }) }
        ensures stops { StopsAs R.tells R.bytes R.faults self.old.source.ty self.old.source.piece (P.left pieces.old)
            (P.count pieces.new < P.count pieces.old) (Rose (P.faults pieces.old) (P.faults pieces.new))
            (P.is_spent pieces.new) result }
        ensures same { (self.new.query ≡ self.old.query) × (self.new.source.tail ≡ self.old.source.tail)
            × (self.new.source.ty ≡ self.old.source.ty) }
        ensures lines { IsTrue R.tells → (ps : List NamedBytes) (xs : List SampleValue) → P.left pieces.old ps
            → Rest R.bytes self.old ps xs
            → Answers R.bytes (P.left pieces.new) self.new xs line.new.items result }
        ensures reads { IsTrue R.tells → (ps : List NamedBytes) (given : List SampleValue)
            → HasGiven R.bytes self.old (P.count pieces.old) ps given
            → GivesNext R.bytes P.opened pieces.old ps pieces.new (P.count pieces.new) self.old.source.ty self.old.query
            self.old.source.tail.items given self.new line.new.items result }
        ensures opens { IsTrue R.tells → (ps : List NamedBytes) → P.left pieces.old ps
            → OpensOn R.bytes (P.left pieces.new) self.old.source.piece self.new.source.piece ps result }
        ensures went { Went R.tells R.bytes P.opened P.failed self.old.source.ty pieces.old
            self.old.source.piece result pieces.new self.new.source.piece }
        ensures faults { P.faults pieces.old ≤ P.faults pieces.new }
        ensures count { P.count pieces.new ≤ P.count pieces.old }
        ensures steps { IsTrue R.tells → (ps : List NamedBytes) (xs : List SampleValue) → P.left pieces.old ps
            → Rest R.bytes self.old ps xs
            → TakesFew (P.left pieces.new) ps (steps.old + 4) steps.new }
    {
        if self.is_due() {
            return self.give_due(line);
        }
        'samples: loop {
            let t = match self.source.pull(pieces, self.query, self.last, line, steps) {
                Merged::Line { t } => t,
                Merged::End => return self.give_kept(line),
                merged => return merged,
            };
            if !is_later(self.last, t) {
                continue;
            }
            self.last = Some(t);
            if t >= self.query.from {
                return self.give(t, line);
            }
            self.keep(t, line);
        }
    }

    /// The next line of the answer and its moment, where both are in memory and nothing is held back.
    /// `pass` goes on behind it.
    ///
    /// `work` is scratch space: what it held is lost.
    #[inline(always)]
    pub fn held<'a>(&'a self, work: &mut Vec<u8>) -> Option<(u64, &'a [u8])>
        ensures { IfSome result (λ found. HoldsNext self.now found.0 found.1.now) }
    {
        if self.kept.is_some() {
            return None;
        }
        self.source.held(self.next_from()?, self.query.to, work)
    }

    /// Goes on behind the line that `held` gives, which has `len` bytes: `next` would have given it.
    #[inline(always)]
    pub fn pass<L: Ledger>(&mut self, t: u64, len: usize, steps: &mut Steps<L>)
        requires going { IsGoing R.tells R.bytes self.old }
        requires next { HoldsNextLong self.old t len }
        ensures behind { (line : List ℕ) → HoldsNext self.old t line → len ≡ length line
            → GoesBehind R.tells R.bytes self.old t line self.new }
        ensures reads { IsTrue R.tells → (line : List ℕ) → HoldsNext self.old t line → len ≡ length line
            → (left : ℕ) (ps : List NamedBytes) (given : List SampleValue) → HasGiven R.bytes self.old left ps given
            → HasGiven R.bytes self.new left ps (given ++ record { t = t; line = line } ∷ []) }
        ensures step { steps.new ≡ steps.old + 1 }
    {
        self.source.pass(t, len, steps);
        self.last = Some(t);
    }

    // The first moment of the interval that is later than the last sample that was taken.
    #[inline(always)]
    fn next_from(&self) -> Option<u64>
        ensures { IfSome result (λ n. (behind self.now.last ≤ n) × (self.now.query.from ≤ n)) }
    {
        match self.last {
            Some(last) if last >= self.query.from => last.checked_add(1),
            _ => Some(self.query.from),
        }
    }

    // Whether something is kept that isn't earlier than the interval.
    fn is_due(&self) -> bool
        ensures due { IsTrue result → IsDue self.now.kept self.now.query.from }
        ensures early { (IsTrue result → ⊥) → IsEarly self.now.kept self.now.query.from }
    {
        match self.kept {
            Some(t) => t >= self.query.from,
            None => false,
        }
    }

    // Gives what is kept, unless it is later than the interval.
    fn give_due(&mut self, line: &mut Vec<u8>) -> Merged<R>
        ensures line { (t : ℕ) → result ≡ Merged.Line t
            → (kept_of self.old.kept self.old.kept_line.items ≡ record { t = t; line = line.new.items } ∷ [])
            × (t ≤ self.old.query.to) }
        ensures end { (t : ℕ) → result ≡ Merged.End → self.old.kept ≡ Some t → self.old.query.to < t }
        ensures whole { IsGiven result }
        ensures none { self.new.kept ≡ None }
        ensures rest { (self.new.query ≡ self.old.query)
            × (self.new.source ≡ self.old.source)
            × (self.new.last ≡ self.old.last) }
    {
        match self.give_kept(line) {
            Merged::Line { t } => self.within(t),
            merged => merged,
        }
    }

    // Gives what is kept at the end, if anything is.
    fn give_kept(&mut self, line: &mut Vec<u8>) -> Merged<R>
        ensures line { (t : ℕ) → result ≡ Merged.Line t
            → kept_of self.old.kept self.old.kept_line.items ≡ record { t = t; line = line.new.items } ∷ [] }
        ensures end { result ≡ Merged.End → kept_of self.old.kept self.old.kept_line.items ≡ [] }
        ensures whole { IsGiven result }
        ensures none { self.new.kept ≡ None }
        ensures rest { (self.new.query ≡ self.old.query)
            × (self.new.source ≡ self.old.source)
            × (self.new.last ≡ self.old.last) }
    {
        let Some(t) = self.kept else {
            return Merged::End;
        };
        self.kept = None;
        mem::swap(line, &mut self.kept_line);
        Merged::Line { t }
    }

    // Gives the sample that is kept, in whose place this one is then, or this one where none is.
    fn give(&mut self, t: u64, line: &mut Vec<u8>) -> Merged<R>
        ensures gives { Gives self.old.query.to self.old.kept t self.new.kept result }
        ensures swapped { IsSome self.old.kept
            → (line.new.items ≡ self.old.kept_line.items) × (self.new.kept_line.items ≡ line.old.items) }
        ensures stays { self.old.kept ≡ None → line.new.items ≡ line.old.items }
        ensures rest { (self.new.query ≡ self.old.query)
            × (self.new.source ≡ self.old.source)
            × (self.new.last ≡ self.old.last) }
    {
        match self.kept {
            Some(before) => {
                self.keep(t, line);
                Merged::Line { t: before }
            }
            None => self.within(t),
        }
    }

    // Keeps a sample; the buffers of the two lines change places.
    fn keep(&mut self, t: u64, line: &mut Vec<u8>)
        ensures kept { kept_of self.new.kept self.new.kept_line.items ≡ record { t = t; line = line.old.items } ∷ [] }
        ensures some { self.new.kept ≡ Some t }
        ensures swapped { (line.new ≡ self.old.kept_line) × (self.new.kept_line ≡ line.old) }
        ensures rest { (self.new.query ≡ self.old.query)
            × (self.new.source ≡ self.old.source)
            × (self.new.last ≡ self.old.last) }
    {
        self.kept = Some(t);
        mem::swap(line, &mut self.kept_line);
    }

    // A sample that isn't earlier than the interval ends the answer where it is later.
    fn within(&self, t: u64) -> Merged<R>
        ensures line { t ≤ self.now.query.to → result ≡ Merged.Line t }
        ensures end { self.now.query.to < t → result ≡ Merged.End }
    {
        if t > self.query.to {
            return Merged::End;
        }
        Merged::Line { t }
    }
}

fn is_later(last: Option<u64>, t: u64) -> bool
    ensures { IsTrue result ↔ (behind last ≤ t) }
{
    match last {
        Some(last) => last < t,
        None => true,
    }
}
