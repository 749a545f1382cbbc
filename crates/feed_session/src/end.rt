// How a session ended.
use act_model::Spent;
use pb_lines::ChunkFault;
use std::alloc::AllocError;

/// How a session ended.
#[derive(Clone, Copy, Debug, PartialEq, Eq)]
pub enum Fed {
    /// The stream was read to its end: so many of its samples were kept, held until a tick, and dropped. All
    /// that was kept is durable.
    Fed { kept: u64, held: u64, dropped: u64 },
    /// This line is the stream's first bad one. All that was kept before it is durable.
    Refused { line: u64, fault: ChunkFault },
    /// The source or the link failed, which it has counted.
    PeerFault,
    /// The disk failed, which it has counted.
    DiskFault,
    /// No act is left.
    Spent,
    /// Memory ran out.
    Memory,
}
