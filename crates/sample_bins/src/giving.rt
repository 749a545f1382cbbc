// What an operator hands on to an output.
ghost use Rattle.std.specs.Prelude.{◌≡◌, ◌≤◌, ◌<◌, ◌∷◌, [], Some, OnOk, OnErr, IfSome, IsErrOf};
ghost use Rattle.std.specs.Option.{option_to_list};
ghost use Rattle.disk_model.specs.Files.{Rose};
ghost use Rattle.arch_time.specs.YearTime.{start, end};
ghost use Rattle.series_model.specs.declared.sample.Sample.{Sample as SampleValue};
ghost use Rattle.act_model.specs.Out.{MayGive};
ghost use Rattle.sample_bins.specs.Bins.{width_of};
ghost use Rattle.sample_bins.specs.Counts.{counted, most_counted};
ghost use Rattle.sample_bins.specs.Coming.{open_count, due, due_at_end};
ghost use Rattle.sample_bins.specs.Binning.{kept_start, Stands, StandsCounting, Gives, Breaks};

use crate::count::{count_line, nearest_moment};
use crate::kept::{Kept, bin_start, is_due};
use crate::op::Op;
use act_model::{Out, OutErr};
use series_model::Sample;
use std::alloc::Global;

/// Hands on what is due as the next sample comes.
pub(crate) fn give_due<O: Out>(
    alloc: Global,
    op: Op,
    inner: &mut O,
    kept: &Kept,
    t: u64,
    line: &[u8],
) -> Result<(), OutErr>
    requires wide { 0 < width_of op }
    requires small { kept.now.count ≤ most_counted }
    requires early { kept_start (width_of op) kept.now.bin < end }
    requires held { Stands O.gave op inner.old kept.now.held }
    requires event { Stands O.gave op inner.old (Some (record { t = t; line = line.now })) }
    ensures given { OnOk result
        (Gives O.gave inner.old (due op kept.now (record { t = t; line = line.now })) inner.new) }
    ensures broken { OnErr result
        (Breaks O.gave O.broke inner.old (due op kept.now (record { t = t; line = line.now })) inner.new) }
    ensures faults { O.faults inner.old ≤ O.faults inner.new }
    ensures cause { IsErrOf result OutErr.SinkFault → Rose (O.faults inner.old) (O.faults inner.new) }
{
    if !is_due(op, kept, t) {
        return Ok(());
    }
    match op {
        Op::FirstSample(_) => give_sample(inner, t, line),
        Op::LastSample(_) => give_held(inner, &kept.held),
        Op::Count(width) => give_open(alloc, inner, width, kept.bin, kept.count),
        Op::Nth(_) => give_sample(inner, t, line),
        Op::NCount => Ok(()),
    }
}

/// Hands on what is due at the end of an interval that begins at `from`.
pub(crate) fn give_at_end<O: Out>(
    alloc: Global,
    op: Op,
    from: u64,
    inner: &mut O,
    kept: &Kept,
) -> Result<(), OutErr>
    requires small { kept.now.count ≤ most_counted }
    requires early { kept_start (width_of op) kept.now.bin < end }
    requires held { Stands O.gave op inner.old kept.now.held }
    ensures given { OnOk result (Gives O.gave inner.old (due_at_end op from kept.now) inner.new) }
    ensures broken { OnErr result (Breaks O.gave O.broke inner.old (due_at_end op from kept.now) inner.new) }
    ensures faults { O.faults inner.old ≤ O.faults inner.new }
    ensures cause { IsErrOf result OutErr.SinkFault → Rose (O.faults inner.old) (O.faults inner.new) }
{
    match op {
        Op::FirstSample(_) => Ok(()),
        Op::LastSample(_) => give_held(inner, &kept.held),
        Op::Count(width) => give_open(alloc, inner, width, kept.bin, kept.count),
        Op::Nth(_) => Ok(()),
        Op::NCount => give_count(alloc, inner, nearest_moment(from), kept.count),
    }
}

// Hands on a sample.
fn give_sample<O: Out>(inner: &mut O, t: u64, line: &[u8]) -> Result<(), OutErr>
    requires event { MayGive O.gave inner.old (record { t = t; line = line.now }) }
    ensures given { OnOk result (Gives O.gave inner.old (record { t = t; line = line.now } ∷ []) inner.new) }
    ensures broken { OnErr result (Breaks O.gave O.broke inner.old (record { t = t; line = line.now } ∷ []) inner.new) }
    ensures faults { O.faults inner.old ≤ O.faults inner.new }
    ensures cause { IsErrOf result OutErr.SinkFault → Rose (O.faults inner.old) (O.faults inner.new) }
{
    inner.sample(t, line)
}

// Hands on the sample that is held, if one is.
fn give_held<O: Out>(inner: &mut O, held: &Option<Sample>) -> Result<(), OutErr>
    requires event { IfSome held.now (λ s. MayGive O.gave inner.old s) }
    ensures given { OnOk result (Gives O.gave inner.old (option_to_list held.now) inner.new) }
    ensures broken { OnErr result (Breaks O.gave O.broke inner.old (option_to_list held.now) inner.new) }
    ensures faults { O.faults inner.old ≤ O.faults inner.new }
    ensures cause { IsErrOf result OutErr.SinkFault → Rose (O.faults inner.old) (O.faults inner.new) }
{
    match held {
        Some(last) => give_sample(inner, last.t, last.line.bytes()),
        None => Ok(()),
    }
}

// Hands on the count of the bin that is open, if one is.
fn give_open<O: Out>(
    alloc: Global,
    inner: &mut O,
    width: u32,
    bin: Option<u64>,
    count: u32,
) -> Result<(), OutErr>
    requires small { count ≤ most_counted }
    requires early { kept_start width bin < end }
    requires begun { StandsCounting O.gave inner.old }
    ensures given { OnOk result (Gives O.gave inner.old (open_count width bin count) inner.new) }
    ensures broken { OnErr result (Breaks O.gave O.broke inner.old (open_count width bin count) inner.new) }
    ensures faults { O.faults inner.old ≤ O.faults inner.new }
    ensures cause { IsErrOf result OutErr.SinkFault → Rose (O.faults inner.old) (O.faults inner.new) }
{
    match bin {
        Some(bin) => give_count(alloc, inner, bin_start(width, bin), count),
        None => Ok(()),
    }
}

// Hands on a count at a moment.
fn give_count<O: Out>(alloc: Global, inner: &mut O, t: u64, count: u32) -> Result<(), OutErr>
    requires from { start ≤ t }
    requires before { t < end }
    requires small { count ≤ most_counted }
    requires begun { StandsCounting O.gave inner.old }
    ensures given { OnOk result (Gives O.gave inner.old (counted t count ∷ []) inner.new) }
    ensures broken { OnErr result (Breaks O.gave O.broke inner.old (counted t count ∷ []) inner.new) }
    ensures faults { O.faults inner.old ≤ O.faults inner.new }
    ensures cause { IsErrOf result OutErr.SinkFault → Rose (O.faults inner.old) (O.faults inner.new) }
{
    match count_line(alloc, t, count) {
        Ok(line) => give_sample(inner, t, &line),
        Err(_) => Err(OutErr::Memory),
    }
}
