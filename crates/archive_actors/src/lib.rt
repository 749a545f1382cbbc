//! Those who act on an archive: one alone, and many in turns.
//!
//! [`Applies`] is a value on which acts are made, each a step of the machine. [`Alone`] acts on such a value of its
//! own. [`Shared`] makes the value a room on which many threads act in turns, and [`Seated`] is one of the many. Both
//! are an [`act_model::Actor`], so a session over any actor serves the one as the other.
//!
//! Model: whoever acts stands for the states of the machine that the value stands for, and what is known is a run of
//! the machine. Who is seated knows the acts that its pass knows, those of others among them.
//!
//! Tests: `unit_cases` acts by [`Seated`] on a small value of its own; each command of the program acts by [`Alone`].
//! The archive to act on is that of `archive_core`.
#![tactic(auto)]

mod alone;
mod applies;
pub mod laws;
mod seated;
mod shared;

pub use alone::Alone;
pub use applies::Applies;
pub use seated::Seated;
pub use shared::Shared;
