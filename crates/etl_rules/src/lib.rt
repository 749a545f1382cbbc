//! The rules by which partitions move from a store to the next.
//!
//! There are three stores: 1 is short, 2 medium and 3 long. Each has partitions of one granularity, and a partition of
//! one store lies in one of the next. A partition is ripe where its end isn't later than now. A move out of store 1 or
//! 2 is due where at least `hold` partitions of a series are ripe, and takes the oldest `gather` of them, or all where
//! fewer are ripe; with `hold` 0 all ripe ones move.
//!
//! [`Config`] holds these settings. The shipped ones are HOUR, hold 5, gather 3; DAY, hold 2, gather 1;
//! YEAR. [`choose`] is the rule.
#![tactic(auto)]

mod choosing;
mod config;

pub use choosing::choose;
pub use config::Config;
