// The operators of bins.

/// What is made of the samples of an interval. The number of an operator is from 1 to 999,999,999.
#[derive(Clone, Copy, Debug, PartialEq, Eq)]
pub enum Op {
    /// The first sample of each bin of so many seconds.
    FirstSample(u32),
    /// The last sample of each bin of so many seconds.
    LastSample(u32),
    /// How many samples each bin of so many seconds has, if it has any.
    Count(u32),
    /// One sample of so many.
    Nth(u32),
    /// How many samples there are.
    NCount,
}
