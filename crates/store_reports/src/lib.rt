//! What three stores tell of themselves: their rows, and whether their files are whole.
//!
//! `status` writes one line for each row: its name, type and state, how many samples the three stores hold of it, and
//! in how many files of each store. `check` reads every listed file up to its listed length, store by store, and writes
//! for each whether it is a partition's file, with the number of its samples, or where its first bad line begins.
#![tactic(auto)]

mod inspection;
mod report;
mod summary;

pub use inspection::{CheckErr, check};
pub use report::Damage;
pub use summary::{StatusErr, status};
