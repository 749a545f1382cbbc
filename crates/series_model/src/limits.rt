//! What an archive takes and holds at most.

/// Bytes of samples that are held in memory, each line counted with its newline: 64 MiB.
pub const INTAKE_ROOM: u64 = 67_108_864;

/// Rows of a catalogue.
pub const MOST_ROWS: usize = 65_536;

/// Partitions of one move.
pub const MOST_PARTS: usize = 65_536;

/// Nanoseconds that a sample may be ahead of the clock: half an hour.
pub const AHEAD: u64 = 1_800_000_000_000;
