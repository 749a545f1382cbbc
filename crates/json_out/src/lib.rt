//! The JSON text of an answer: an object of what is known of the variable and an array of its
//! samples in order (RFC 8259).
//!
//! `JsonOut::new` over any sink, then the calls of `act_model::Out`: `begin` once, `sample` for each sample, `finish`
//! at the end. Such a text, of one sample, is
//!
//! ```text
//! [{"meta":{"name":"A:B","EGU":"mm"},"data":[{"secs":1704067201,"nanos":0,"val":1,"severity":0,"status":0}]}]
//! ```
//!
//! and a newline. Strings are written by `serde_json` and numbers by `itoa`; the members of objects stand in the order
//! of the text above, so no tree of values is made.
//!
//! `put_string`, `put_number` and `put_array` append values of other JSON texts to bytes; what an array
//! may have is a `JsonElement`.
//!
//! Model: the sink, what is gathered for it, and of the text the samples' type and whether one was given.
//!
//! Caveats: floating-point numbers are written as their bits, since a decimal number would not tell them exactly.
//! Memory is taken for one sample's text, and for where the names of its object's members stand.
//!
//! Tests: the built program's run it.
#![tactic(auto)]

mod event;
pub mod laws;
mod object;
mod output;
mod value;

pub use output::JsonOut;
pub use value::{JsonElement, Number, put_array, put_number, put_string};
