// What is kept in memory of a batch that is flushed, and of a change that stands in doubt.
use pb_messages::State;

/// A row of a batch that was flushed.
#[derive(Clone, Copy, Drop)]
pub struct RowEnd {
    /// The row's number.
    pub row: u32,
    /// The last moment of its samples in the batch, if it has any.
    pub last: Option<u64>,
}

/// The change that a failed write may have made: what is to be done in memory where it turns out to be made. Of a
/// retirement nothing is kept, since nothing is to be done there.
#[derive(Drop)]
pub enum Doubt {
    /// A row was added, whose memory is there already.
    Row,
    /// A row's state was set.
    State { row: u32, to: State },
    /// A row's variable got a new name: the row was retired, and one was added, whose memory is there already.
    Rename { old: u32 },
    /// A batch with these rows was flushed, which the intake still holds.
    Flush(Vec<RowEnd>),
    /// What a move had copied was listed. The move has ended.
    Published,
}
