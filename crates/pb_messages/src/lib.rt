//! The messages of PB files, as EPICSEvent.proto has them, read and written: samples, which are events, and headers.
//!
//! An event (`decode`, `stamp`, `encode`):
//!
//! | Number | Name | Kind |
//! |---|---|---|
//! | 1 | secondsintoyear | required uint32 |
//! | 2 | nano | required uint32 |
//! | 3 | val | by the payload type |
//! | 4 | severity | optional int32, 0 where it is missing |
//! | 5 | status | optional int32, 0 where it is missing |
//! | 6 | repeatcount | optional uint32 |
//! | 7 | fieldvalues | repeated FieldValue: 1 name and 2 val, required strings |
//! | 8 | fieldactualchange | optional bool |
//!
//! `val` is a required string, sint32, float, bytes, sfixed32 or double, and bytes for a waveform of
//! bytes; for the other waveforms it is repeated, and packed where it is a number.
//! `08 01 10 00 1D 0A 00 00 00` is a SCALAR_INT of 10, one second into the year.
//!
//! A header, a PayloadInfo (`decode_info`, `encode_info`):
//!
//! | Number | Name | Kind |
//! |---|---|---|
//! | 1 | type | required varint, a number of a payload type |
//! | 2 | pvname | required string |
//! | 3 | year | required int32, from 1991 to 2499 |
//! | 4 | elementCount | optional int32 |
//! | 15 | headers | repeated FieldValue: 1 name and 2 val, required strings |
//!
//! `08 05 12 03 41 3A 42 18 E8 0F` is of type SCALAR_INT, the variable `A:B` and the year 2024.
//!
//! The model: `event_of` is the event, and `info_of` the header, that a list of bytes holds, or its first fault.
//!
//! Caveats: strings are kept as bytes and need not be UTF-8, and floating-point numbers as their
//! bits. Of a number that isn't repeated the last occurrence holds, unknown fields are passed over,
//! and packed and single elements may stand mixed, as Protocol Buffers has it.
#![tactic(auto)]

mod about;
mod elements;
mod error;
mod event;
mod info;
mod info_error;
mod info_reading;
mod info_spelling;
pub mod laws;
mod layout;
mod numbers;
mod packed;
mod reading;
mod singular;
mod spelling;
mod value;

pub use about::{About, Method, State};
pub use error::EventErr;
pub use event::Event;
pub use info::PayloadInfo;
pub use info_error::{InfoErr, InfoFault};
pub use info_reading::decode_info;
pub use info_spelling::encode_info;
pub use numbers::{Bits32, Bits64, Ints, Numbers};
pub use pb_wire::{FieldFault as EventFault, PayloadType};
pub use reading::{decode, stamp};
pub use spelling::encode;
pub use value::Value;
