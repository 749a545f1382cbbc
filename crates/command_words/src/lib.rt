//! The words of the program: what its command line asks for, what a command came to, and the one line that tells it.
//!
//! `command_of` tells what words ask for, and `complain` writes why a command ended with a status other than 0.
//!
//! Model: words are lists of bytes, and a command is asked for by the words that say so (`IsCommand`). A complaint is a
//! text of the status (`complaint_of`).
//!
//! Tests: the built program's run them.
#![tactic(auto)]

mod command;
mod complaint;
mod service_words;
mod status;

pub use command::{Command, StoreCommand, command_of};
pub use complaint::{complain, write_pieces};
pub use service_words::{ServeWords, drill_words, serve_words};
pub use status::Status;
