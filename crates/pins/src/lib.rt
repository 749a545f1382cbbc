//! Which files are pinned, by whom, and how much of each: a reader that has pinned files finds them as they were,
//! whatever moves and flushes do meanwhile. And which files it is to pin.
//!
//! [`Choice`] tells which of the listed files of a variable an answer about an interval needs, by their entries alone:
//! `Choice::new`, `add` for the entries of one store after another, in the order in which they are read, and `opened`.
//! The files before the last one stay closed that begins before the interval and behind all of theirs; so do the last
//! files, as many as begin later than both ends of the interval.
//!
//! `PinnedPieces::pin` for the pieces of a reader, `pieces` to find them again, and `drop_pin` when it has read them.
//! Its table of [`Pins`] (`pins`) names just the files of these pieces: a file that a pin names must stay where it is,
//! and those who remove files ask (`is_pinned`). Owners are told by numbers.
//!
//! Model: a finite map from the numbers of pins to their owners and pieces, and of `Pins` to their owners and files.
#![tactic(auto)]

mod choosing;
mod piece;
mod pieces;
mod pin;
mod table;

pub use choosing::{Choice, Listed};
pub use piece::PinnedFile;
pub use pieces::PinnedPieces;
pub use table::{PinErr, Pins};
