// The answer over the samples of a chunk, as they come.
ghost use Rattle.std.specs.Prelude.{◌≡◌, ◌↔◌, ◌+◌, ◌-◌, ◌<◌, ◌≤◌, ◌++◌, ◌∷◌, [], List, OnOk, OnErr, IfOk, IfSome};
ghost use Rattle.std.specs.Prelude.{IfNone, IsTrue, Some, None, true, length, take, drop, if◌then◌else◌};
ghost use Rattle.std.specs.Io.{StartsWith};
ghost use Rattle.series_model.specs.declared.sample.Sample.{Sample};
ghost use Rattle.series_model.specs.declared.sample.Query.{Query};
ghost use Rattle.series_model.specs.Series.{taken};
ghost use Rattle.series_model.specs.Retrieval.{answer};
ghost use Rattle.stream_extract.specs.Extract.{lines_text, known};
ghost use Rattle.stream_extract.specs.Answer.{Covers, Adds, Takes, TakesAll, IsBound, IsFollowed, IsPlace, next_of};

use pb_lines::Run;
use series_model::Query;
use std::alloc::{AllocError, Global};
use std::marker::Model;

// Where a sample stands: it isn't later than the last one that was taken; or it is, and stands
// before the interval, in it or behind it.
#[derive(Clone, Copy)]
enum Place {
    Past,
    Earlier,
    Within,
    Later,
}

/// The answer over the samples of one chunk, as they come one by one.
///
/// One line is held back: the last sample earlier than the interval, until a sample not earlier
/// than the interval or the chunk's end comes.
#[derive(Drop)]
pub struct ChunkAnswer {
    query: Query,
    // The moment of the last sample that was later than all before it.
    last: Option<u64>,
    // Whether such a sample not earlier than the interval came.
    reached: bool,
    // The last such sample's line with its newline, until then.
    earlier: Vec<u8>,
}

impl Model for ChunkAnswer {
    ghost use Rattle.stream_extract.specs.Answer.{Answering};

    ghost Value = { Answering };

    ghost view = { λ a. record { query = a.query; last = a.last; reached = a.reached; earlier = a.earlier.items } };
}

impl ChunkAnswer {
    /// The answer before any chunk.
    pub fn new(alloc: Global, query: Query) -> ChunkAnswer
        ensures covers { Covers result [] }
        ensures query { result.query ≡ query }
    {
        ChunkAnswer {
            query,
            last: None,
            reached: false,
            earlier: Vec::new(alloc),
        }
    }

    /// Begins a chunk.
    pub fn begin(&mut self)
        ensures covers { Covers self.new [] }
        ensures query { self.new.query ≡ self.old.query }
    {
        self.last = None;
        self.reached = false;
        self.earlier.clear();
    }

    /// Takes the next sample, and adds to `out` what is known of the answer by it. Where memory runs
    /// out, `out` stays.
    pub fn take(&mut self, t: u64, line: &[u8], out: &mut Vec<u8>) -> Result<(), AllocError>
        ensures ok { OnOk result
            (Takes self.old self.new (record { t = t; line = line.now }) out.old.items out.new.items) }
        ensures err { OnErr result (out.new.items ≡ out.old.items) }
        ensures query { self.new.query ≡ self.old.query }
    {
        let before = out.len();
        let done = self.add(t, line, out);
        if done.is_err() {
            out.truncate(before);
        }
        done
    }

    // The same, but where memory runs out a part may stand behind the old bytes.
    fn add(&mut self, t: u64, line: &[u8], out: &mut Vec<u8>) -> Result<(), AllocError>
        ensures ok { OnOk result
            (Takes self.old self.new (record { t = t; line = line.now }) out.old.items out.new.items) }
        ensures grows { StartsWith out.new.items out.old.items }
        ensures query { self.new.query ≡ self.old.query }
    {
        match self.place(t) {
            Place::Past => {}
            Place::Earlier => self.hold(t, line)?,
            Place::Within => {
                self.reach(t, out)?;
                add_line(line, out)?;
            }
            Place::Later => self.reach(t, out)?,
        }
        Ok(())
    }

    /// Whether a sample at this moment isn't later than the last one that was taken, so that it counts for nothing.
    pub fn is_past(&self, t: u64) -> bool
        ensures { IsTrue result ↔ (t < next_of self.now.last) }
    {
        match self.last {
            Some(last) => t <= last,
            None => false,
        }
    }

    /// The moment of the last sample that was taken, and the latest one up to which all that are later than
    /// it stand on its side of the interval: before it, in it, or behind it. `None` before a chunk's first.
    pub fn run_bounds(&self) -> Option<(u64, u64)>
        ensures some { IfSome result (λ b. IsBound self.now b.0 b.1) }
        ensures none { IfNone result (self.now.last ≡ None) }
    {
        let last = self.last?;
        if last < self.query.from {
            return Some((last, self.query.from - 1));
        }
        if last <= self.query.to {
            return Some((last, self.query.to));
        }
        Some((last, u64::MAX))
    }

    /// Takes the samples of a run within `run_bounds`, whose lines are `text`. Answers the lines that are in
    /// the answer, which are all or none, and adds to `out` what stands before them. Where memory runs
    /// out, `out` stays.
    pub fn take_samples<'a>(
        &mut self,
        run: &Run,
        text: &'a [u8],
        out: &mut Vec<u8>,
    ) -> Result<&'a [u8], AllocError>
        requires { run.now.last < length text.now }
        ensures ok { IfOk result (λ lines. (ys : List Sample) → IsFollowed self.old ys run.now.t run.now.last text.now
            → TakesAll self.old self.new ys out.old.items (out.new.items ++ lines.now)) }
        ensures err { OnErr result (out.new.items ≡ out.old.items) }
        ensures query { self.new.query ≡ self.old.query }
    {
        let (none, _) = text.split_at(0);
        let query = self.query;
        if run.t < query.from {
            self.hold(run.t, last_line(text, run.last))?;
            return Ok(none);
        }
        self.reach(run.t, out)?;
        if run.t <= query.to {
            return Ok(text);
        }
        Ok(none)
    }

    // Where a sample at this moment stands.
    fn place(&self, t: u64) -> Place
        ensures { IsPlace self.now t result }
    {
        if let Some(last) = self.last {
            if t <= last {
                return Place::Past;
            }
        }
        if t < self.query.from {
            Place::Earlier
        } else if t <= self.query.to {
            Place::Within
        } else {
            Place::Later
        }
    }

    // Holds back the line of a sample earlier than the interval.
    fn hold(&mut self, t: u64, line: &[u8]) -> Result<(), AllocError>
        ensures ok { OnOk result (self.new ≡ record self.old { last = Some t; earlier = line.now ++ 10 ∷ [] }) }
        ensures query { self.new.query ≡ self.old.query }
    {
        self.earlier.clear();
        add_line(line, &mut self.earlier)?;
        self.last = Some(t);
        Ok(())
    }

    // Gives what was held back at the first sample not earlier than the interval.
    fn reach(&mut self, t: u64, out: &mut Vec<u8>) -> Result<(), AllocError>
        ensures ok { OnOk result (self.new ≡ record self.old { last = Some t; reached = true }) }
        ensures out { OnOk result
            (out.new.items ≡ out.old.items ++ (if self.old.reached then [] else self.old.earlier)) }
        ensures err { OnErr result (out.new.items ≡ out.old.items) }
        ensures query { self.new.query ≡ self.old.query }
    {
        self.give_held(out)?;
        self.reached = true;
        self.last = Some(t);
        Ok(())
    }

    // Adds the line that is held back, if there is one.
    fn give_held(&self, out: &mut Vec<u8>) -> Result<(), AllocError>
        ensures ok { OnOk result
            (out.new.items ≡ out.old.items ++ (if self.now.reached then [] else self.now.earlier)) }
        ensures err { OnErr result (out.new.items ≡ out.old.items) }
    {
        if self.reached {
            return Ok(());
        }
        out.extend_from_slice(&self.earlier)
    }

    /// Adds to `out` what is known of the answer by the chunk's end. Where memory runs out, `out`
    /// stays.
    pub fn finish(&mut self, out: &mut Vec<u8>) -> Result<(), AllocError>
        ensures ok { OnOk result ((xs : List Sample) → Covers self.old xs → Adds (lines_text (known self.old.query xs))
            (lines_text (answer (taken xs) self.old.query)) out.old.items out.new.items) }
        ensures err { OnErr result (out.new.items ≡ out.old.items) }
        ensures query { self.new.query ≡ self.old.query }
        ensures same { self.new ≡ self.old }
    {
        self.give_held(out)?;
        Ok(())
    }
}

// The last of some lines, each with its newline, which has so many bytes before that.
fn last_line(text: &[u8], len: usize) -> &[u8]
    requires { len < length text.now }
    ensures { result.now ≡ take len (drop (length text.now - 1 - len) text.now) }
{
    let (_, last) = text.split_at(text.len() - 1 - len);
    let (line, _) = last.split_at(len);
    line
}

/// Adds the line with its newline. Where memory runs out, a part may stand behind the old bytes.
pub fn add_line(line: &[u8], out: &mut Vec<u8>) -> Result<(), AllocError>
    ensures ok { OnOk result (out.new.items ≡ out.old.items ++ (line.now ++ 10 ∷ [])) }
    ensures grows { StartsWith out.new.items out.old.items }
{
    out.extend_from_slice(line)?;
    out.push(b'\n')?;
    Ok(())
}
