//! The wire format of Protocol Buffers, as messages of proto2 are written in PB files.
//!
//! A message is a sequence of fields. Each is a tag, the varint of `number * 8 + wire type`, and a
//! value: wire type 0 is a varint, 1 is eight bytes, 2 is a length and so many bytes, 5 is four
//! bytes. `08 96 01` is field 1 with the varint 150.
//!
//! The model: `IsMessage` relates bytes to the list of their fields, apart from the order of
//! reading; a `Fields` is a cursor, and `contents_of` is what it will give: the fields up to the
//! first fault with their places, and that fault. `laws` tie the two together.
//!
//! Above the fields stands what the messages of PB files have in common: numbers of 32 bits, optional
//! numbers, and pairs. A pair is a FieldValue, the message of 1 name and 2 val, required strings:
//! `0A 01 41 12 01 42` is the name `A` with the value `B`. `pair_of` is the pair that bytes hold, and
//! `pair_fault` their first fault.
//!
//! Caveats: a varint may be spelled longer than it has to be, in ten bytes at most, and its bits
//! past the 64th are dropped. Groups are refused. Names and values are bytes and need not be UTF-8; of
//! a member that stands there twice the last holds, and unknown ones are passed over, as Protocol
//! Buffers has it. Which fields a message has is said where that message is. Tests are those of
//! `format_cases`.
#![tactic(auto)]

mod cursor;
mod error;
mod fault;
mod field_spelling;
pub mod laws;
mod members;
mod message;
mod numbers;
mod payload;
mod reading;
mod signed;
mod spelling;

pub use cursor::{Fields, Varints};
pub use error::WireErr;
pub use fault::FieldFault;
pub use field_spelling::{put_head, put_optional, put_pair};
pub use members::{number_of, read_pair, text_of};
pub use message::{Field, Wire};
pub use numbers::{int32_of, sign_extended, uint32_of};
pub use payload::PayloadType;
pub use signed::{unzigzag, zigzag};
pub use spelling::{put_field, put_varint, varint_len};
