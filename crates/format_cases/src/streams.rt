// Cases of streams, and of the lines of samples.
use crate::case::Case;
use edge_io::MemSource;
use pb_lines::{ChunkFault, ChunkItem, ChunkReader};
use std::alloc::AllocError;

pub fn sample(case: &mut Case<'_>) -> Result<(), AllocError> {
    let (ty, year, line) = (case.payload_type(), case.signed(), case.bytes());
    if line.contains(&b'\n') {
        case.refuse();
        return Ok(());
    }
    let mut work = b"old".to_vec(case.alloc)?;
    let t = pb_lines::sample_of(ty, year, &line, &mut work);
    case.tell(format_args!("{t:?}"));
    Ok(())
}

// The items of a stream: each with the number of its line, whether the source was read for it or a line was held, and
// what is known behind it. The last comes again.
pub fn stream(case: &mut Case<'_>) -> Result<(), AllocError> {
    let (failing, bytes) = (case.numbers(), case.bytes());
    let mut source = MemSource::new(case.alloc, &bytes, &failing)?;
    let mut reader = ChunkReader::new(case.alloc)?;
    let mut has_ended = false;
    for _ in 0..u64::MAX {
        case.separate("; ");
        let item = next_item(case, &mut reader, &mut source);
        tell_item(case, item, &reader);
        if has_ended {
            break;
        }
        has_ended = matches!(item, Some(ChunkItem::End | ChunkItem::Refused(_)));
    }
    Ok(())
}

// A line that is held is taken by itself.
fn next_item(
    case: &mut Case<'_>,
    reader: &mut ChunkReader,
    source: &mut MemSource,
) -> Option<ChunkItem> {
    if reader.holds_line() {
        case.tell("held ");
        return reader.read_line(source);
    }
    case.tell("read ");
    Some(reader.next(source))
}

// The year is that of the chunk in which the next line stands. A header and a sample have their
// line, a fault its number.
fn tell_item(case: &mut Case<'_>, item: Option<ChunkItem>, reader: &ChunkReader) {
    let number = reader.number();
    let Some(item) = item else {
        return case.tell(format_args!("{number} skipped"));
    };
    let year = reader.info().map(|info| info.year);
    case.tell(format_args!("{number} {item:?} {year:?}"));
    match item {
        ChunkItem::Header | ChunkItem::Sample { .. } => {
            case.tell(" ");
            case.tell_hex(reader.line());
        }
        ChunkItem::Refused(fault) => case.tell(format_args!(" E{}", fault.number())),
        _ => {}
    }
}

// The numbers of the faults of lines and streams that are too long.
pub fn limits(case: &mut Case<'_>) {
    let (line, input) = (ChunkFault::LineTooLong, ChunkFault::InputTooLong);
    case.tell(format_args!("E{} E{}", line.number(), input.number()));
}
