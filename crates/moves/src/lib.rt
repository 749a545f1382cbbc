//! Moves of partitions from a store to the next: which one is to be made, by the entries of the two stores alone, and
//! the table of those that run.
//!
//! A move takes the oldest partitions of one series: as many as the rule of the store chooses of those that have ended,
//! or as many as the next store covers already, whichever is more, but at most 65,536. The next store covers a
//! partition whose last sample isn't later than its own last sample of the series; such partitions are left where a
//! stop fell between a publication and a retirement.
//!
//! `parts_to_move` is that number for one series. `move_to_make` goes over all series once, from the least, and
//! passes by those whose move is running. With an hour's partitions of series 0 and 1, five of each ended, hold 5 and
//! gather 3, it answers series 0 with three parts; while that move runs series 1 with three; and while both run the
//! number of series 0's move.
//!
//! A move that runs has a number, the least that was free when it began, and is of one series. `RunningMoves::begin`
//! takes a move in. A step of a move takes it out by its number (`take`), and puts it back where it goes on
//! (`put_back`), which needs no memory; a move that has ended isn't put back, and its number is free. `by_series` tells
//! which series have a move that runs. What a move is, is the caller's to say.
//!
//! The tests of an archive run both.
#![tactic(auto)]

mod parts;
mod series;
mod table;

pub use parts::{MoveRule, parts_to_move};
pub use series::{ToMove, move_to_make};
pub use table::{Running, RunningMoves};
