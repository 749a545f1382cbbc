//! Escaping of lines in PB files, the file format of the EPICS Archiver Appliance.
//!
//! A PB file has one message a line, and a line ends with the byte 0A. A message may hold any byte,
//! so 1B, 0A and 0D are written as the pairs 1B 01, 1B 02 and 1B 03, and each other byte as it is:
//! `41 0A 1B` is written `41 1B 02 1B 01`.
//!
//! The model: `escaped` is a function on lists of bytes, and `Means` relates a line to the bytes
//! that it means.
//!
//! Caveats: lines stand here without their newline. A 0D that isn't escaped is read as itself,
//! though it is never written so.
#![tactic(auto)]

mod error;
mod escaping;
mod laws;
mod unescaping;

pub use error::EscapeErr;
pub use escaping::{escape, escaped_len};
pub use laws::{every_line, no_line_begins_another, one_meaning, one_refusal, reads_back};
pub use unescaping::{line_len, unescape, unescaped};
