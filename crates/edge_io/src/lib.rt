//! The edge to the outside: what bytes are read from and written to.
//!
//! A `Source` gives bytes and a `Sink` takes them. Both keep a count of faults, and a call answers
//! `Failed` only where that count rose in it. Where a source or a sink tells its bytes, as those in
//! memory do, the contracts say which bytes were read and written. `Lines` reads a source line by
//! line, with the limits of a raw stream of PB lines (PB file format of the EPICS Archiver
//! Appliance). A `Link` is a source and a sink, and a `Door` gives links and takes them back: from a
//! list, or from a TCP listener. A `Clock` tells the time.
//!
//! A `SinkBuffer` gathers bytes for a sink: `put` for each piece of a text and `finish` at its end, or before anything
//! that may take long. A sink gets one write for about 65,536 bytes; a piece that is longer goes out as it stands,
//! without a copy.
//!
//! Model: a source is the bytes that are left, a sink the bytes that were written, a buffer those that are gathered and
//! not yet written, a reader of lines is what it holds, how much it gave, and where it stopped for good, a door whether
//! it is closed, how many links it gave and those that came back, a clock the moments to come.
//!
//! Caveats: no contract can say what a file, a pipe, a terminal or a peer gives or takes. So
//! `StdSource` and `StdSink` tell only what std's reader and writer tell, `TcpLink` and `TcpDoor`
//! nothing of content, and `SystemClock` nothing of the moments to come. Bytes that are gathered when a buffer is let
//! go are lost, and so are those that stood behind a failed write. Call `finish` on each path on which they are to go
//! out, and before a call that waits for input.
//!
//! Tests: `format_cases`; the program's run a `SinkBuffer`.
#![tactic(auto)]

mod buffer;
mod clock;
pub mod laws;
mod lines;
mod link;
mod memory;
mod memory_links;
mod standard;
mod stream;
mod tcp;

pub use buffer::{MOST, PutErr, SinkBuffer};
pub use clock::{Clock, ListClock, SystemClock};
pub use lines::{LineRead, Lines, MAX_INPUT, MAX_LINE, line_end};
pub use link::{Door, Link, Next};
pub use memory::{MemSink, MemSource};
pub use memory_links::{ListDoor, MemLink};
pub use standard::{StdSink, StdSource};
pub use stream::{Failed, Sink, Source, write_two, write_whole};
pub use tcp::{Limits, TcpDoor, TcpLink};
