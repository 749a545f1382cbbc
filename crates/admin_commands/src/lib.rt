//! Management requests of HTTP, each served over any actor on an archive.
//!
//! [`admin`] serves one call of the paths under `/mgmt/bpl/`, which are those of the EPICS Archiver Appliance
//! and `flush`: it makes the acts that the call asks for, in order and no others, and writes one reply, whose
//! body is a function of the acts' answers. [`refuse`] writes the reply of a request that isn't served, as where
//! its bytes are no request.
//!
//! Model: `specs/Next.antt` says which act a call asks for next and what it is told, `specs/Replies.antt` what a
//! reply's bytes are, and `specs/Serving.antt` what is promised of both.
//!
//! Caveats: a body is gathered before its head is written, since the head has its length; that of 65,536 names of 128
//! bytes has 8.6 MB, and the names stand beside it. So where memory runs out nothing was written.
#![tactic(auto)]

mod bodies;
mod calls;
mod end;
mod refusal;
mod reply;
mod serving;

pub use end::AdminErr;
pub use refusal::Refusal;
pub use reply::refuse;
pub use serving::admin;
