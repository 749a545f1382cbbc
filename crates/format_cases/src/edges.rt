// Cases of lines, sources, sinks and clocks.
use crate::case::{Case, text_of};
use edge_io::{
    Clock, Failed, Lines, ListClock, MemSink, MemSource, Source, StdSink, StdSource, SystemClock,
    write_whole,
};
use std::alloc::AllocError;
use std::time;

// A source that gives at most so many bytes a read.
#[derive(Drop)]
struct Pieces {
    source: MemSource,
    most: usize,
}

impl Source for Pieces {
    ghost left = { λ s. ⟦<MemSource as Source>⟧.left s.source };

    ghost read_faults = { λ s. ⟦<MemSource as Source>⟧.read_faults s.source };

    fn read(&mut self, buf: &mut [u8]) -> Result<usize, Failed> {
        let most = self.most.max(1).min(buf.len());
        self.source.read(&mut buf[..most])
    }
}

// What each read gives: the answer, the number of lines, and the last line.
pub fn lines(case: &mut Case<'_>) -> Result<(), AllocError> {
    let (most, failing, bytes) = (case.number() as usize, case.numbers(), case.bytes());
    let source = MemSource::new(case.alloc, &bytes, &failing)?;
    let mut source = Pieces { source, most };
    let mut lines = Lines::new(case.alloc)?;
    for _ in 0..6 {
        case.separate("; ");
        let read = lines.next(&mut source);
        case.tell(format_args!("{read:?} {} ", lines.number()));
        case.tell_hex(lines.line());
    }
    Ok(())
}

pub fn long_line(case: &mut Case<'_>) -> Result<(), AllocError> {
    let mut bytes = vec![in case.alloc; b'x'; case.number() as usize]?;
    bytes.push(b'\n')?;
    let mut source = MemSource::new(case.alloc, &bytes, &[])?;
    let read = Lines::new(case.alloc)?.next(&mut source);
    case.tell(format_args!("{read:?}"));
    Ok(())
}

pub fn sink(case: &mut Case<'_>) -> Result<(), AllocError> {
    let (room, failing) = (case.number() as usize, case.numbers());
    let mut sink = MemSink::new(case.alloc, room, &failing)?;
    for piece in case.rest().split(' ') {
        let written = write_whole(&mut sink, piece.as_bytes());
        case.tell(format_args!("{written:?} "));
    }
    case.tell(text_of(sink.bytes()));
    Ok(())
}

// Bytes read with a buffer of 4 bytes, and written to a room of 3.
pub fn standard(case: &mut Case<'_>) {
    let bytes = case.bytes();
    let mut source = StdSource::new(bytes.as_slice());
    let mut buf = [0u8; 4];
    let (first, second) = (source.read(&mut buf), source.read(&mut buf));
    let mut out = [0u8; 3];
    let mut sink = StdSink::new(out.as_mut_slice());
    let (written, more) = (write_whole(&mut sink, &bytes), write_whole(&mut sink, b"d"));
    case.tell(format_args!("{first:?} {second:?} {buf:?} {written:?} {more:?}"));
}

fn tell_moments(case: &mut Case<'_>, clock: &mut ListClock) {
    case.separate(";");
    for _ in 0..4 {
        case.separate(" ");
        clock.rest(1);
        case.tell(clock.now());
    }
}

// The moments of a clock with the splits 3, 4 and 5: of a split and its own, of two more splits, and its own.
pub fn clock(case: &mut Case<'_>) -> Result<(), AllocError> {
    let mut splits = Vec::new(case.alloc);
    splits.push(Vec::from_slice(case.alloc, &[5u64])?)?;
    splits.push(Vec::from_slice(case.alloc, &[3u64, 4])?)?;
    let mut clock = ListClock::new(case.numbers(), splits);
    let mut second = clock.split();
    tell_moments(case, &mut second);
    tell_moments(case, &mut second.split());
    tell_moments(case, &mut clock.split());
    tell_moments(case, &mut clock.split());
    tell_moments(case, &mut clock);
    Ok(())
}

// Whether the system's clock and its split are later than a moment.
pub fn system_clock<C: time::Clock + Copy + Drop>(rt: C, case: &mut Case<'_>) {
    let past = case.number();
    let mut clock = SystemClock::new(rt);
    let mut second = clock.split();
    clock.rest(1_000);
    case.tell(format_args!("{} {}", clock.now() > past, second.now() > past));
}
