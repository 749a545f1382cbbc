//! Chunk streams of PB files (PB file format of the EPICS Archiver Appliance).
//!
//! A raw stream is lines. A chunk is a header's line and then lines of samples of its type and
//! year; an empty line ends it, and so does the end of the stream. Further empty lines before a
//! header are skipped. Each line ends with a newline, has at most 16,777,216 bytes before it, and
//! lies within the first 2^40 bytes of the stream. It is escaped, and a 0D that isn't stands for
//! itself.
//!
//! `08 05 12 03 41 3A 42 18 E8 0F 0A` is a header's line (integers of `A:B` in 2024), and
//! `08 01 10 00 1D 01 00 00 00 0A` behind it a sample's: the value 1, one second into 2024.
//!
//! Model: `IsWholeStream` relates bytes to the headers, samples and chunk ends that they hold, up
//! to their end or to the first bad line with its number and fault. `ChunkReader` gives these one
//! by one, whatever pieces the bytes come in.
//!
//! What a file of a partition is stands here too (`File.IsFile`, for one header and samples that rise in time), so that
//! what lists and writes such files needs nothing of the crate that reads them.
//!
//! Caveats: nothing is said of the order in time of a stream's samples. Of a source that doesn't tell its
//! bytes, as a real file, the contracts don't say which items are given.
#![tactic(auto)]

mod fault;
mod header;
pub mod laws;
mod reader;
mod run;
mod sample;

pub use fault::{ChunkFault, HeadFault, LineErr, LineFault};
pub use header::{HeadErr, header_line, header_of_line};
pub use reader::{ChunkItem, ChunkReader};
pub use run::Run;
pub use sample::{moment_of_line, sample_of};
