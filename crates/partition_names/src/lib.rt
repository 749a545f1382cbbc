//! The partitions of time, their names and the paths of their files.
//!
//! A partition is a unit of the UTC calendar: five, fifteen or thirty minutes, an hour, a day, a
//! month or a year, in the years 1991 to 2499. Its name tells its first minute, down to the unit:
//! `2012`, `2012_01`, `2012_01_01`, `2012_01_01_09`, and `2012_01_01_09_30` for the three kinds of
//! minutes, as the PB files of the EPICS Archiver Appliance are named. In contracts a [`PartName`]
//! is the list of its bytes, and a partition the record of its name, start and end.
//!
//! A name alone doesn't tell the granularity: the three kinds of minutes share their form.
#![tactic(auto)]

mod granularity;
pub mod laws;
mod name;
mod part;
mod path;
mod unit;

pub use granularity::{Granularity, holds};
pub use name::PartName;
pub use part::{Part, parse, part_of};
pub use path::file_path;
