//! Names of process variables, and the keys under which their files lie.
//!
//! A name has 1 to 128 bytes, each an ASCII letter or digit or one of `_ - + : [ ] < > ; . / , # { } ^`.
//! Cut at `:`, `-` and `/` it has no segment of no bytes, `.` or `..`, so its key is a path that stays
//! below the folder in which it is looked up.
//! In contracts a [`PvName`] is the list of its bytes.
#![tactic(auto)]

mod key;
pub mod laws;
mod name;

pub use key::{key_path, same_key};
pub use name::{NameErr, PvName};
