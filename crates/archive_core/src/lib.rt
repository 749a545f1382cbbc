//! An archive as one value: three stores on a disk, the intake of accepted samples that no store lists yet,
//! and what sampled rows hold.
//!
//! [`Archive::of`] opens an archive on stores, in which all that is durable is accepted and nothing else. Each act says
//! which step of the machine of `act_model` it is: from each machine that the archive stood for (`Stands`) the act is a
//! step, with the answer that is given, to one that the archive stands for then. An act that touches the disk also says
//! what a crash at any moment of it leaves: what the machine says of a crash within that act (`LeavesByAct`). And it
//! says what becomes of files and of pins, whatever is in the files (`Leaves`). [`Archive::apply`] makes any act, and
//! [`run_acts`] a list of them.
//!
//! What of an archive is on its disk is a value of its own, a `StoreHalf`: what a call of it says holds beside whatever
//! memory there is. The archive's methods make what a call makes of their memory.
//!
//! `Stands` also says what the memory and the stores are while a change stands in doubt: the stores have what is
//! durable of the machine, or that with the doubted change, and it isn't known which. The change is a new row, a row's
//! state, a new name, a flush, the listing of what a move has copied, or the leaving of its parts. `Archive::settle`
//! finds out whether it was made, and each act that changes the stores does so first. A doubted flush keeps its batch
//! until then: the intake gives it up only where store 1 turns out to list it.
#![tactic(auto)]

mod actor;
mod answering;
mod applying;
mod archive;
mod describing;
mod flushing;
pub mod laws;
mod memory;
mod moving;
mod offers;
mod opening;
mod pinning;
mod registering;
mod renaming;
mod running;
mod settling;
mod stepping;
mod sweeping;
mod switching;
mod telling;
mod written;

pub use archive::Archive;
pub use running::run_acts;
