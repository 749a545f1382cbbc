//! Serving to its end: the flusher and the mover of a service, the session that moves all that is due at one moment,
//! and the laws of how a service ends.
//!
//! The flusher and the mover each do round after round over any actor, and tell how it ended. A round of the flusher
//! asks for the doors, ticks each row at one moment and flushes all once. A round of the mover asks for the doors,
//! moves what is ripe in the short term and then in the medium term, and sweeps. Both rest between rounds, and both go
//! on until no doors are left. What they do is what the law of the end asks of them.
//!
//! [`move_all_due`] makes the moves of one round at one moment, once: it stops at the first fault, and tells how
//! many partitions were retired.
//!
//! The laws are of lists of acts and of passes, and speak of no threads. `laws::serving_ends` says how a service ends:
//! where each worker has served its door to the end, the flusher and the mover have done their last rounds, and nobody
//! else acted, all that was accepted is durable. It says so of whatever history the workers' own acts, the flusher's
//! and the mover's are cut out of. What they do is described round by round (`specs/Rounds.antt`), and what follows
//! stands in `specs/End.antt`.
//!
//! `laws::the_end_of_a_service` is that law where all act in turns. A worker for each door, a flusher and a mover each
//! act by a pass of its own (`workers`), all drawn of one pass and ended in it again; the law says what that pass then
//! knows: where each did its work to its end, no doors are left and all that was accepted is durable.
#![tactic(auto)]

mod due;
mod ends;
mod flusher;
pub mod laws;
mod mover;
mod moves;

pub use due::{DueMoved, move_all_due};
pub use ends::{FlushEnd, MoverEnd};
pub use flusher::{FLUSHER_RESTS, flush_to_end};
pub use mover::{MOVER_RESTS, move_to_end};
pub use moves::MoveErr;
