// An output that hands on what an operator makes of its samples.
ghost use Rattle.std.specs.Prelude.{◌≡◌, ◌≤◌, ◌<◌, IfSome};
ghost use Rattle.arch_time.specs.YearTime.{end};
ghost use Rattle.sample_bins.specs.Counts.{most_counted};
ghost use Rattle.sample_bins.specs.Bins.{width_of, most_width};
ghost use Rattle.sample_bins.specs.Binning.{kept_start, Stands};

use crate::beginning::{BegunText, begin_bins};
use crate::giving::{give_at_end, give_due};
use crate::kept::{Kept, keep};
use crate::op::Op;
use act_model::{Out, OutErr};
use pb_messages::About;
use series_model::Query;
use std::alloc::Global;

/// What an operator makes of an answer, handed on to another output.
///
/// `Memory` comes where memory ran out here or there, and `SinkFault` only where it came there.
#[derive(Drop)]
pub struct BinOut<O: Out> {
    alloc: Global,
    op: Op,
    inner: O,
    // What the text has begun with, as long as nothing failed.
    begun: Option<BegunText>,
    kept: Kept,
    ghost wide: { 0 < width_of op },
    ghost narrow: { width_of op ≤ most_width },
    ghost small: { kept.count ≤ most_counted },
    ghost early: { kept_start (width_of op) kept.bin < end },
    ghost stands: { ∥ IfSome begun (λ b. Stands O.gave op inner kept.held) ∥₁ },
}

impl<O: Out> BinOut<O> {
    /// Nothing has begun. It takes no memory.
    pub fn new(alloc: Global, op: Op, inner: O) -> BinOut<O>
        requires wide { 0 < width_of op }
        requires narrow { width_of op ≤ most_width }
        ensures op { result.op ≡ op }
        ensures inner { result.inner ≡ inner }
    {
        BinOut {
            alloc,
            op,
            inner,
            begun: None,
            kept: Kept::nothing(),
        }
    }

    /// Gives the output back, as it is.
    pub fn into_inner(self) -> O
        ensures { result ≡ self.inner }
    {
        let BinOut { inner, .. } = self;
        inner
    }

    // What the output under it may be given at the end, once the text has begun.
    fn may_go_on(&self)
        ensures { IfSome self.now.begun (λ b. Stands O.gave self.now.op self.now.inner self.now.kept.held) }
    {}
}

impl<O: Out> Out for BinOut<O> {
    ghost use Rattle.sample_bins.specs.Bins.{bins_of, binned_subject};
    ghost use Rattle.sample_bins.specs.Binning.{GivesBins};
    ghost use Rattle.sample_bins.specs.Events.{gives_breaks};

    ghost gave = { λ before subject xs now. (now.op ≡ before.op)
        × GivesBins O.gave before.op now.begun now.kept before.inner subject xs now.inner };

    ghost finished = { λ before subject xs now.
        O.finished before.inner (binned_subject before.op subject) (bins_of before.op subject.query xs) now.inner };

    ghost broke = { λ before subject xs now.
        O.broke before.inner (binned_subject before.op subject) (bins_of before.op subject.query xs) now.inner };

    ghost faults = { λ out. O.faults out.inner };

    fn begin(&mut self, name: &[u8], about: &About, query: Query) -> Result<(), OutErr> {
        self.begun = None;
        begin_bins(self.alloc, self.op, &mut self.inner, name, about, query)?;
        self.kept = Kept::nothing();
        self.begun = Some(BegunText {
            ty: about.ty,
            query,
        });
        Ok(())
    }

    fn sample(&mut self, t: u64, line: &[u8]) -> Result<(), OutErr> {
        let Some(begun) = self.begun else {
            unreachable!();
        };
        if t < begun.query.from || t > begun.query.to {
            return Ok(());
        }
        self.may_go_on();
        self.begun = None;
        give_due(self.alloc, self.op, &mut self.inner, &self.kept, t, line)?;
        let Ok(()) = keep(self.alloc, self.op, &mut self.kept, t, line) else {
            return Err(OutErr::Memory);
        };
        self.begun = Some(begun);
        Ok(())
    }

    fn finish(&mut self) -> Result<(), OutErr> {
        let Some(begun) = self.begun else {
            return self.inner.finish();
        };
        self.may_go_on();
        self.begun = None;
        give_at_end(
            self.alloc,
            self.op,
            begun.query.from,
            &mut self.inner,
            &self.kept,
        )?;
        self.inner.finish()
    }

    ghost front = { λ before now subject xs more events gave. gives_breaks O.gave O.broke O.front before.op now.begun
        now.kept before.inner subject xs more now.inner events gave.1 };
}
