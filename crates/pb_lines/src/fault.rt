// Why a line of a stream is bad.
ghost use Rattle.std.specs.Prelude.{◌≡◌};
ghost use Rattle.pb_lines.specs.Fault.{wire_number, event_number, info_number, line_number, head_number, fault_number};

use pb_messages::{EventFault, InfoFault};
use pb_wire::WireErr;

/// Why a line is no sample of its chunk: the first of these that applies.
#[derive(Clone, Copy, Debug, PartialEq, Eq)]
pub enum LineFault {
    /// The first 1B that isn't followed by 01, 02 or 03 has so many bytes of the line before it.
    Escape { at: usize },
    /// The message is no event of the chunk's type.
    Event(EventFault),
    /// The year isn't one of 1991 to 2499, or hasn't that second, or a second hasn't that
    /// nanosecond.
    Time,
}

/// Why a sample's line wasn't read.
#[derive(Clone, Copy, Debug, PartialEq, Eq)]
pub enum LineErr {
    /// The line is no sample.
    Fault(LineFault),
    /// Memory ran out.
    Memory,
}

/// Why a line is no header: the first of these that applies.
#[derive(Clone, Copy, Debug, PartialEq, Eq)]
pub enum HeadFault {
    /// The first 1B that isn't followed by 01, 02 or 03 has so many bytes of the line before it.
    Escape { at: usize },
    /// The message is no header.
    Info(InfoFault),
}

/// What is wrong with the first bad line of a stream.
#[derive(Clone, Copy, Debug, PartialEq, Eq)]
pub enum ChunkFault {
    /// The stream ended before any header. Its line is the one after the last.
    NoHeader,
    /// The line stands outside a chunk, and is no header.
    BadHeader(HeadFault),
    /// The line stands in a chunk, and is no sample of it.
    BadLine(LineFault),
    /// The stream, of fewer than 2^40 bytes, ends within the line, whatever the line holds.
    Torn,
    /// The line has more than 16,777,216 bytes within the first 2^40 bytes of the stream.
    LineTooLong,
    /// The stream has 2^40 bytes or more, and the line behind the last newline of the first 2^40
    /// isn't too long.
    InputTooLong,
}

impl ChunkFault {
    /// The number of the fault's innermost cause, by which complaints and replies tell it.
    ///
    /// 1 to 4 are a bad varint, a bad tag, a group and a short value, 5 is a bad escape, 6 a bad time,
    /// 9 a missing field, 10 a wrong wire type, 11 an unknown type, 12 a year outside the range, 13 no
    /// header, 15 a line too long, 34 a stream too long and 35 a torn line.
    pub fn number(self) -> u8
        ensures { result ≡ fault_number self }
    {
        match self {
            ChunkFault::NoHeader => 13,
            ChunkFault::BadHeader(fault) => head_number(fault),
            ChunkFault::BadLine(fault) => line_number(fault),
            ChunkFault::Torn => 35,
            ChunkFault::LineTooLong => 15,
            ChunkFault::InputTooLong => 34,
        }
    }
}

fn head_number(fault: HeadFault) -> u8
    ensures { result ≡ head_number fault }
{
    match fault {
        HeadFault::Escape { .. } => 5,
        HeadFault::Info(fault) => info_number(fault),
    }
}

fn line_number(fault: LineFault) -> u8
    ensures { result ≡ line_number fault }
{
    match fault {
        LineFault::Escape { .. } => 5,
        LineFault::Event(fault) => event_number(fault),
        LineFault::Time => 6,
    }
}

fn info_number(fault: InfoFault) -> u8
    ensures { result ≡ info_number fault }
{
    match fault {
        InfoFault::Wire(err) => wire_number(err),
        InfoFault::Missing { .. } => 9,
        InfoFault::WrongWire { .. } => 10,
        InfoFault::UnknownType { .. } => 11,
        InfoFault::YearRange { .. } => 12,
    }
}

fn event_number(fault: EventFault) -> u8
    ensures { result ≡ event_number fault }
{
    match fault {
        EventFault::Wire(err) => wire_number(err),
        EventFault::Missing { .. } => 9,
        EventFault::WrongWire { .. } => 10,
    }
}

fn wire_number(err: WireErr) -> u8
    ensures { result ≡ wire_number err }
{
    match err {
        WireErr::BadVarint { .. } => 1,
        WireErr::BadTag { .. } => 2,
        WireErr::Group { .. } => 3,
        WireErr::Short { .. } => 4,
    }
}
