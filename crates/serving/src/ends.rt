// How the flusher and the mover end their work.

/// How the flush of the flusher's last round ended.
#[derive(Clone, Copy, Drop)]
pub enum FlushEnd {
    /// All that was accepted is durable.
    LeavesNone,
    /// The disk failed.
    FailsToWrite,
    /// Memory was wanting.
    LacksMemory,
}

/// How the mover's last round ended.
#[derive(Clone, Copy, Drop)]
pub enum MoverEnd {
    /// Neither store had anything to move, and no doors were left.
    Rests,
    /// The disk failed, or a file was damaged, after no doors were left.
    MeetsFault,
    /// Memory was wanting, after no doors were left.
    MeetsNoMemory,
}
