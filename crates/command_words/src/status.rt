// What a command came to, and the number that it ends with.
ghost use Rattle.std.specs.Prelude.{◌≡◌};
ghost use Rattle.command_words.specs.Status.{number_of};

use disk_model::FileName;
use partition_names::Granularity;
use pb_lines::ChunkFault;

/// What a command came to.
#[derive(Drop)]
pub enum Status {
    /// All of it was done.
    Done,
    /// The words aren't those of a command.
    Usage,
    /// The input has a bad line, the first of this number, with this fault.
    Refused {
        line: u64,
        fault: ChunkFault,
    },
    /// No row has the name that was asked for.
    NoSuchVariable,
    /// A read of the source failed.
    SourceFault,
    /// A write to the sink failed.
    SinkFault,
    /// The disk failed, or a read of a file that it opened.
    DiskFault,
    /// This file is damaged at this place.
    Damaged {
        name: FileName,
        at: u64,
    },
    /// Memory ran out.
    OutOfMemory,
    /// The manifest keeps another granularity than the configured one.
    GranularityDiffers {
        kept: Granularity,
        asked: Granularity,
    },
    /// A door failed.
    DoorFault,
    /// No act is left to make.
    Spent,
}

impl Status {
    /// The number that the program ends with.
    pub fn number(&self) -> u8
        ensures { result ≡ number_of self.now }
    {
        match self {
            Status::Done => 0,
            Status::Usage => 2,
            Status::Refused { .. } => 3,
            Status::NoSuchVariable => 4,
            Status::SourceFault => 5,
            Status::SinkFault => 6,
            Status::DiskFault => 7,
            Status::Damaged { .. } => 8,
            Status::OutOfMemory => 9,
            Status::DoorFault => 11,
            Status::GranularityDiffers { .. } => 12,
            Status::Spent => 13,
        }
    }
}
