//! What the program has round a service: its doors, what it tells on standard error while it runs, and the file that
//! ends it.
//!
//! [`Doors::open`] binds the two ports and makes the doors, which close once the service is to end. Those who work in
//! it hand in to a [`Log`] what is to be told, behind locks that nobody waits for, and one thread tells it: [`watch`],
//! which also looks for the file, and then wakes the doors that wait.
//!
//! Model: none. What a service does is told by its posts; a log changes nothing of it.
#![tactic(auto)]

mod doors;
mod drops;
mod queue;
mod service_log;
mod stopping;
mod teller;
mod telling;

pub use doors::{Doors, ServiceDoor, Unbound};
pub use service_log::{Log, Logged};
pub use stopping::{Ports, Stop, watch};
pub use telling::{Telling, tell_plain};
