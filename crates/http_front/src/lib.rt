//! Requests of HTTP/1.1 and HTTP/1.0, read from their bytes, and the heads and bodies of replies.
//!
//! `read_request` reads one head (RFC 9112, sections 2 to 5) and says which call it asks for: the
//! paths and parameters are those of the EPICS Archiver Appliance, whose clients send queries as
//! `application/x-www-form-urlencoded`. `write_head` writes the head of a reply, and
//! `ChunkedSink` its body where its length isn't known before.
//!
//! Model: a request is a function of the bytes that were read, `specs/Reading.antt`; a reply's head
//! is a text, `specs/Reply.antt`, and its body another, `specs/Chunks.antt`; a sink of a body is what is behind it,
//! `specs/Behind.antt`.
//!
//! Caveats: a connection serves one request. The bytes that came in one read with the end of a head
//! are taken and given up. Header fields are read and not looked at. A body that isn't
//! finished has no end.
//!
//! Tests: `http_cases`.
#![tactic(auto)]

mod call;
mod chunked;
mod coding;
mod ghost_text;
mod head;
pub mod laws;
mod path;
mod period;
mod query;
mod reading;
mod reply;
mod request;

pub use chunked::ChunkedSink;
pub use path::Path;
pub use reading::{MOST_BYTES, read_request};
pub use reply::{Head, write_head};
pub use request::{HttpErr, Param, Request, WebCall};
