//! Sessions that bring a stream of chunks into an archive.
//!
//! [`ingest`] reads a source: each header's name is registered as a row where it may be, and each sample is offered
//! at the moment that a clock gives for it. [`feed`] does the same over a link whose variables are registered
//! already, and replies: a line for each chunk, `ok KEPT HELD DROPPED`, and at the end `durable KEPT`,
//! `refused LINE CODE` or `fault disk`.
//!
//! Both act through any [`Actor`](act_model::Actor), alone or beside others. Where the intake is full they flush, and
//! offer the same sample again with the same moment. They flush once at the end of the stream, and before a line is
//! refused, so what they kept is durable when they say so.
//!
//! Model: `specs/Asks.antt` says which acts a stream's items ask for, `specs/Session.antt` how a session goes and ends,
//! and `specs/Replies.antt` what is replied, each over the items of the stream and the answers of the acts.
#![tactic(auto)]

mod asking;
mod end;
pub mod laws;
mod over_link;
mod over_source;
mod replies;
mod tally;

pub use end::Fed;
pub use over_link::feed;
pub use over_source::ingest;
