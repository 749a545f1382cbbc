//! The workload of a drill: what its four variables send, and what an archive holds of it in the end.
//!
//! A drill tries a whole archive over a disk, connections and clocks in memory. Its workload is a function of a number
//! of hours, 1 to 200, so that two runs write the same bytes. There are four variables of whole numbers, `DRILL:V0` to
//! `DRILL:V3`, and each sends a sample a minute from 2024-01-01T00:00:00Z on, one second behind the variable before it.
//! The values are the numbers of a linear congruence that begins with the number of hours, drawn minute by minute and
//! within a minute variable by variable.
//!
//! | What a drill does | What it takes from here |
//! |---|---|
//! | it registers the variables, on an empty archive of which no partition moves by itself | [`name_of`], [`about`] |
//! | it serves their feeds, which come by two doors | [`Drill::door`], [`Drill::clock`] |
//! | it opens the disk as shipped, moves all that is due and retrieves each variable | [`START`], [`Drill::now`] |
//! | it writes a line for each variable, and one of the stores' files | [`variable_line`], [`tiers_line`] |
//!
//! The lines are those of what was found. [`Drill::report`] has them as they are to be, which a
//! drill's text is compared with.
//!
//! Model: `specs/Workload.antt` has each variable's samples as a list, by a formula of their places; a feed's bytes are
//! the stream of just this chunk. `specs/Tiers.antt` says by the rule of moves how many files each store lists at the
//! end, and `specs/Report.antt` what is told.
#![tactic(auto)]

mod chunk;
mod draws;
mod drill;
mod feeds;
pub mod laws;
mod report;
mod tiers;

pub use drill::{Drill, MOST_HOURS, START, VARIABLES, about, name_of};
pub use feeds::DOORS;
pub use report::{Tally, tiers_line, variable_line};
pub use tiers::Tiers;
