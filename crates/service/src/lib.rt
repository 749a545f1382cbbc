//! The service of connections, over any actor on an archive, and of all doors of an archive at once.
//!
//! [`serve_link`] serves one connection: a feed of samples, or one request of HTTP. It makes just the acts of that
//! session, in order, and leaves to others the acts that are no link's. [`serve_door`] is the work of one worker: it
//! asks its door for links to the end, serves each and gives it back, and then counts its door off. [`serve_all`]
//! serves many doors at once on one archive: a worker for each, one who flushes and one who moves, each in a thread of
//! its own and by turns of a pass of its own.
//!
//! [`reply_to_request`] is the session of a request: it reads one request of a link, makes the acts that it asks for
//! and no others, and writes the reply: of a management call its body, of a request for data the samples, and else the
//! refusal. [`reply_with_data`] is the part of it that writes the answer of a variable, raw or as JSON, in chunks to
//! HTTP/1.1 and as it is to HTTP/1.0.
//!
//! A request for data pins its variable first. Until the pin is answered nothing is written, so a refusal can be told:
//! 404 where no row has the name, 500 where the disk failed, 503 where no act is left. Then the head goes out, and the
//! text behind it as it is read. Where anything fails behind the head, what went out is a front of the reply. The last
//! chunk is left out then, by which a client of HTTP/1.1 can tell; one of HTTP/1.0 can't.
//!
//! Model: `specs/Data.antt` says what the reply to a request for data is, and `specs/Requests.antt` what is promised of
//! a request as a whole; `specs/Serving.antt` what the service of a link came to, by what its session says, and what
//! its peer was written; `specs/Completeness.antt` what a link is given where nothing fails; `specs/Doors.antt` what a
//! worker leaves of its door, and `specs/Seats.antt` what an actor tells that acts by turns of a pass;
//! `specs/Service.antt` what all who worked leave, and what is told of them.
//!
//! Caveats: a link of HTTP serves one request. A feed registers no variables. A reply's text isn't kept, so memory
//! doesn't grow with the answer.
//!
//! Tests: the built program's run the two sessions, and `unit_cases` whole services, over a board of its own.
#![tactic(auto)]

mod body;
mod data;
mod door;
mod format;
mod gate;
mod link;
mod posts;
mod request;
mod served;
mod service;
mod text;

pub use data::reply_with_data;
pub use door::{DoorServed, serve_door};
pub use format::Format;
pub use gate::{Gate, NoGate, PostHook};
pub use link::serve_link;
pub use posts::Post;
pub use request::reply_to_request;
pub use served::{FeedTold, Kind, Served};
pub use service::{AllServed, serve_all};
