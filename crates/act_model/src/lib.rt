//! What an archive is: one abstract machine over plain lists, and those who act on it.
//!
//! An archive has rows, one for each name of a variable, and seventeen acts may be asked of it. `specs/` says what it
//! has, what each act does and answers, what always holds, and what a crash at any moment leaves; `docs/MACHINE.md`
//! tells it in words. The model in a sentence: of each row a list of samples is accepted, a front of it is durable,
//! both only grow, and whatever happens the next opening has a list between the two.
//!
//! [`Actor`] is the trait by which all above acts on an archive, and each act is a function over it that answers just
//! what this act may be answered, as [`ask_offer`] does. [`Out`] is the trait by which answers are written. [`laws`]
//! and [`examples`] are functions that do nothing: their clauses say what is proved of the definitions.
//!
//! Caveats: an act that touches a disk may fail, and then its change may have been made or not; the next act that
//! touches the disk finds out which. Of samples in files the laws speak only where the disk tells its files and they
//! stand as they are listed.
#![tactic(auto)]

mod actor;
mod acts;
mod answers;
mod asks;
mod details;
pub mod examples;
pub mod laws;
mod narrow;
mod out;

pub use actor::{Actor, Spent, acts_are_steps, ask};
pub use acts::{Act, Answer};
pub use answers::{
    DetailsTold, DoorsLeft, Flushed, MoveBegun, MoveStepped, NamesTold, Offered, Paused,
    PieceOpened, Pinned, Registered, Renamed, Resumed, Swept, Ticked, Unpinned,
};
pub use asks::{
    ask_details, ask_door_done, ask_doors, ask_flush, ask_move_begin, ask_move_step, ask_names,
    ask_offer, ask_open_piece, ask_pause, ask_pin, ask_register, ask_rename, ask_resume, ask_sweep,
    ask_tick, ask_unpin,
};
pub use details::Details;
pub use out::{Out, OutErr};
