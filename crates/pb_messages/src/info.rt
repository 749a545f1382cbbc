// The header of a PB file or of a chunk.
use pb_wire::PayloadType;
use series_model::{Blob, Pairs};

/// What a header says of the samples behind it.
#[derive(Debug, Drop)]
pub struct PayloadInfo {
    /// The type of all samples.
    pub ty: PayloadType,
    /// The variable's name, as bytes.
    pub name: Blob,
    /// From 1991 to 2499.
    pub year: i32,
    /// The number of elements of a waveform.
    pub count: Option<i32>,
    /// Names and values.
    pub headers: Pairs,
}
