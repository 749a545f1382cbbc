// What is kept of the samples that came before.
ghost use Rattle.std.specs.Prelude.{◌≡◌, ◌≤◌, ◌<◌, OnOk, IfOk};
ghost use Rattle.arch_time.specs.YearTime.{end};
ghost use Rattle.sample_bins.specs.Counts.{most_counted};
ghost use Rattle.sample_bins.specs.Bins.{bin_of, bin_start, width_of, most_width};
ghost use Rattle.sample_bins.specs.Coming.{is_new, is_due, one_more, next_position, count_kept, next};
ghost use Rattle.sample_bins.specs.Binning.{kept_start};

use crate::op::Op;
use arch_time::{NANOS_PER_SECOND, START};
use series_model::{Blob, Sample};
use std::alloc::{AllocError, Global};

// The greatest number that a sample of the type SCALAR_INT tells.
const MOST: u32 = 2_147_483_647;

/// What is kept of the samples that came before, by what the operator needs.
#[derive(Drop)]
pub(crate) struct Kept {
    /// The bin of the last sample.
    pub(crate) bin: Option<u64>,
    /// How many samples it has so far, or there are at all, or the position of the next one.
    pub(crate) count: u32,
    /// The last sample.
    pub(crate) held: Option<Sample>,
}

impl Kept {
    ghost use Rattle.sample_bins.specs.Coming.{nothing};

    /// Nothing came before.
    pub(crate) fn nothing() -> Kept
        ensures { result ≡ nothing }
    {
        Kept {
            bin: None,
            count: 0,
            held: None,
        }
    }
}

/// The bin of a moment, where bins have so many seconds.
pub(crate) fn bin_of(width: u32, t: u64) -> u64
    requires { 0 < width }
    ensures { result ≡ bin_of width t }
{
    t / NANOS_PER_SECOND / u64::from(width)
}

/// The moment at which a bin starts, but none before samples may stand.
pub(crate) fn bin_start(width: u32, bin: u64) -> u64
    requires { bin_start width bin < end }
    ensures { result ≡ bin_start width bin }
{
    (bin * u64::from(width) * NANOS_PER_SECOND).max(START)
}

fn is_new(last: Option<u64>, bin: u64) -> bool
    ensures { result ≡ is_new last bin }
{
    match last {
        Some(last) => last != bin,
        None => true,
    }
}

fn one_more(count: u32) -> u32
    ensures next { result ≡ one_more count }
    ensures small { result ≤ most_counted }
{
    if count < MOST { count + 1 } else { MOST }
}

fn next_position(n: u32, position: u32) -> u32
    requires small { position ≤ most_counted }
    requires narrow { n ≤ most_width }
    ensures next { result ≡ next_position n position }
    ensures small { result ≤ most_counted }
{
    if position + 1 >= n { 0 } else { position + 1 }
}

/// Whether something is given out as a sample at `t` comes.
pub(crate) fn is_due(op: Op, kept: &Kept, t: u64) -> bool
    requires { 0 < width_of op }
    ensures { result ≡ is_due op kept.now t }
{
    match op {
        Op::FirstSample(width) => is_new(kept.bin, bin_of(width, t)),
        Op::LastSample(width) => is_new(kept.bin, bin_of(width, t)),
        Op::Count(width) => is_new(kept.bin, bin_of(width, t)),
        Op::Nth(_) => kept.count == 0,
        Op::NCount => false,
    }
}

/// Keeps of the next sample what the operator needs.
pub(crate) fn keep(
    alloc: Global,
    op: Op,
    kept: &mut Kept,
    t: u64,
    line: &[u8],
) -> Result<(), AllocError>
    requires wide { 0 < width_of op }
    requires narrow { width_of op ≤ most_width }
    requires small { kept.old.count ≤ most_counted }
    requires early { kept_start (width_of op) kept.old.bin < end }
    requires time { t < end }
    ensures next { OnOk result (kept.new ≡ next op kept.old (record { t = t; line = line.now })) }
    ensures small { kept.new.count ≤ most_counted }
    ensures early { kept_start (width_of op) kept.new.bin < end }
{
    match op {
        Op::FirstSample(width) => {
            kept.bin = Some(bin_of(width, t));
            Ok(())
        }
        Op::LastSample(width) => {
            kept.held = None;
            kept.held = Some(copy(alloc, t, line)?);
            kept.bin = Some(bin_of(width, t));
            Ok(())
        }
        Op::Count(width) => {
            let bin = bin_of(width, t);
            kept.count = count_on(is_new(kept.bin, bin), kept.count);
            kept.bin = Some(bin);
            Ok(())
        }
        Op::Nth(n) => {
            kept.count = next_position(n, kept.count);
            Ok(())
        }
        Op::NCount => {
            kept.count = one_more(kept.count);
            Ok(())
        }
    }
}

// How many samples a bin has with one more, the first one where the bin is new.
fn count_on(new: bool, count: u32) -> u32
    ensures next { result ≡ count_kept new count }
    ensures small { result ≤ most_counted }
{
    if new { 1 } else { one_more(count) }
}

fn copy(alloc: Global, t: u64, line: &[u8]) -> Result<Sample, AllocError>
    ensures { IfOk result (λ s. s ≡ record { t = t; line = line.now }) }
{
    let line = Blob::copied(alloc, line)?;
    Ok(Sample { t, line })
}
