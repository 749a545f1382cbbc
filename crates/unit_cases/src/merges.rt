// Worked merges over pieces in memory: which lines come, how a merge ends, and which pieces stay closed.
ghost use Rattle.std.specs.Prelude.{◌≡◌, ◌<◌};
ghost use Rattle.stream_merge.specs.Merging.{IsGoing};

use disk_model::{FileName, ReadAt, ReadFailed};
use line_escape::escape;
use pb_file::Steps;
use pb_wire::{PayloadType, put_varint};
use series_model::{Query, Samples};
use std::alloc::{AllocError, Global};
use std::fmt::Write as _;
use std::marker::Brand;
use std::sync::ledger::{Blank, Ledger};
use stream_merge::{Merge, Merged, Opened, Pieces};

const SECOND: u64 = 1_000_000_000;

// 2024-01-01T00:00:00Z
const START: u64 = 1_704_067_200 * SECOND;

// A:B, integers of 2024.
const H: &[u8] = b"\x08\x05\x12\x03\x41\x3A\x42\x18\xE8\x0F\x0A";

// A:B, strings of 2024.
const STRINGS: &[u8] = b"\x08\x00\x12\x03\x41\x3A\x42\x18\xE8\x0F\x0A";

// The seconds 1, 5 and 9.
const S1: &[u8] = b"\x08\x01\x10\x00\x1D\x01\x00\x00\x00\x0A";

const S5: &[u8] = b"\x08\x05\x10\x00\x1D\x02\x00\x00\x00\x0A";

const S9: &[u8] = b"\x08\x09\x10\x00\x1D\x03\x00\x00\x00\x0A";

// The line of second 9 that is cut short.
const TORN: &[u8] = b"\x08\x09";

/// Bytes in memory, which don't tell themselves. Reads fail once so many bytes were read as are allowed.
#[derive(Drop)]
struct ListReader {
    bytes: Vec<u8>,
    allowed: usize,
    faults: u64,
}

impl ReadAt for ListReader {
    ghost use Rattle.std.specs.Prelude.{false, []};

    ghost tells = { false };

    ghost bytes = { λ f. [] };

    ghost faults = { λ f. f.faults };

    ghost leaves = { λ old new. Unit {0} };

    fn read_at(&mut self, at: u64, buf: &mut [u8]) -> Result<usize, ReadFailed> {
        let at = self.bytes.len().min(at as usize);
        let count = buf.len().min(self.bytes.len() - at);
        if count > self.allowed {
            self.faults = self.faults.saturating_add(1);
            return Err(ReadFailed);
        }
        self.allowed -= count;
        buf[..count].copy_from_slice(&self.bytes[at..at + count]);
        Ok(count)
    }

    ghost leaves_none = { λ file. tt };

    ghost leaves_then = { λ a b c first second. tt };
}

/// Pieces in memory, opened one by one. Of each so many bytes may be read; the piece whose name has the store
/// `failing` fails when it is read.
#[derive(Drop)]
struct ListPieces {
    alloc: Global,
    left: Vec<Vec<u8>>,
    opened: u8,
    failing: u8,
    allowed: usize,
}

impl Pieces for ListPieces {
    type Reader = ListReader;

    ghost use Rattle.std.specs.Prelude.{length};

    ghost count = { λ p. length p.left.items };

    ghost left = { λ p ps. Unit {0} };

    ghost faults = { λ p. 0 };

    ghost is_spent = { λ p. ⊥ };

    ghost may_open = { λ p. Unit {0} };

    ghost opened = { λ old ps new. Unit {0} };

    ghost failed = { λ old why new. Unit {0} };

    fn open_next(&mut self) -> Opened<ListReader> {
        if self.left.len() == 0 {
            return Opened::NoMore;
        }
        let bytes = self.left.remove(0);
        let len = bytes.len() as u64;
        self.opened = self.opened.saturating_add(1);
        Opened::Piece {
            reader: ListReader {
                bytes,
                allowed: if self.opened == self.failing {
                    0
                } else {
                    self.allowed
                },
                faults: 0,
            },
            name: FileName {
                store: self.opened,
                path: Vec::new(self.alloc),
            },
            head_len: H.len() as u64,
            len,
        }
    }

    ghost none_opened = { λ a. tt };

    ghost opened_on = { λ a b c xs ys one two. tt };

    ghost failed_on = { λ a b c xs why one two. tt };

    ghost goes_on = { λ a b xs may one. tt };
}

// The line that a letter stands for.
fn line_of(letter: u8) -> &'static [u8] {
    match letter {
        b'H' => H,
        b'S' => STRINGS,
        b'1' => S1,
        b'5' => S5,
        b'9' => S9,
        _ => TORN,
    }
}

// Each word stands for the lines of a piece.
fn pieces_of(alloc: Global, words: &str, failing: u8) -> Result<ListPieces, AllocError> {
    let mut left = Vec::new(alloc);
    for word in words.split_whitespace() {
        let mut bytes = Vec::new(alloc);
        for letter in word.bytes() {
            bytes.extend_from_slice(line_of(letter))?;
        }
        left.push(bytes)?;
    }
    Ok(ListPieces {
        alloc,
        left,
        opened: 0,
        failing,
        allowed: usize::MAX,
    })
}

// The seconds of the lines, and how the merge ended.
fn told<R: ReadAt, P: Pieces<Reader = R>>(
    alloc: Global,
    merge: Merge<R>,
    pieces: &mut P,
) -> Result<String, AllocError>
    requires going { IsGoing R.tells R.bytes merge }
    requires may { P.may_open pieces.old }
{
    told_by::<R, P, Brand>(alloc, merge, pieces, Blank::new(1))
}

fn told_by<R: ReadAt, P: Pieces<Reader = R>, L: Ledger>(
    alloc: Global,
    mut merge: Merge<R>,
    pieces: &mut P,
    blank: Blank,
) -> Result<String, AllocError>
    requires going { IsGoing R.tells R.bytes merge }
    requires may { P.may_open pieces.old }
    requires name { blank.name ≡ L.name }
    requires parts { blank.parts ≡ L.parts }
    requires some { 0 < blank.parts }
{
    let mut steps = Steps::<L>::new(blank);
    let mut text = String::new(alloc);
    let mut line = Vec::new(alloc);
    'lines: for _ in 0..100 {
        match merge.next(pieces, &mut line, &mut steps) {
            Merged::Line { t } => write!(text, "{} ", t.saturating_sub(START) / SECOND)?,
            end => {
                put_end(&mut text, &end)?;
                break;
            }
        }
    }
    Ok(text)
}

fn put_end<R: ReadAt>(text: &mut String, end: &Merged<R>) -> Result<(), AllocError> {
    match end {
        Merged::ReadFault { failed } => write!(text, "fault {}", failed.is_some()),
        Merged::Damaged { name, at } => write!(text, "piece {} damaged at {at}", name.store),
        Merged::Spent => text.push_str("spent"),
        Merged::Memory => text.push_str("memory"),
        Merged::End | Merged::Line { .. } => text.push_str("end"),
    }
}

// The same of a merge of integers.
fn merged(alloc: Global, query: Query, pieces: &mut ListPieces) -> Result<String, AllocError> {
    let tail = Samples::from(Vec::new(alloc));
    let merge = Merge::new(alloc, query, PayloadType::ScalarInt, tail);
    told(alloc, merge, pieces)
}

/// Whether lines are the answer over all pieces, and no more of these are opened than are needed.
pub fn are_answers(alloc: Global) -> Result<bool, AllocError> {
    let table = [
        ("H159", 2, 8, "1 5 end", 1),
        ("H159", 5, 9, "1 5 9 end", 1),
        // A move is half done: second 5 stands in both.
        ("H15 H59", 0, 99, "1 5 9 end", 2),
        // The sample before the interval stands in an earlier piece.
        ("H1 H9", 3, 99, "1 9 end", 2),
        ("H1 H5", 20, 30, "5 end", 2),
        // The second piece stands behind the interval's end, and the third isn't opened.
        ("H1 H5 H9", 0, 3, "1 end", 2),
        // The second piece goes on behind what the first has, wherever the interval begins.
        ("H159 H15", 0, 99, "1 5 9 end", 2),
        ("H15 H159", 6, 99, "5 9 end", 2),
        // The interval lies before all, and behind all.
        ("H59", 0, 2, "end", 1),
        ("H159", 20, 30, "9 end", 1),
        // No moment, but the sample before it.
        ("H15", 4, 2, "1 end", 1),
        ("", 0, 99, "end", 0),
        // Behind second 5 the line of second 9 is cut short: what stands before it is told first.
        ("H15T", 0, 99, "1 5 piece 1 damaged at 31", 1),
        ("H1 S", 0, 99, "1 piece 2 damaged at 0", 2),
    ];
    for (words, from, to, want, opened) in table {
        if !is_answer(alloc, words, seconds(from, to), want, opened)? {
            return Ok(false);
        }
    }
    Ok(true)
}

// The interval between two seconds of 2024.
fn seconds(from: u64, to: u64) -> Query {
    Query {
        from: START.saturating_add(SECOND.saturating_mul(from)),
        to: START.saturating_add(SECOND.saturating_mul(to)),
    }
}

// Whether these lines are the answer over these pieces, of which so many are opened.
fn is_answer(
    alloc: Global,
    words: &str,
    query: Query,
    want: &str,
    opened: u8,
) -> Result<bool, AllocError> {
    let mut pieces = pieces_of(alloc, words, 0)?;
    let text = merged(alloc, query, &mut pieces)?;
    Ok(text.as_str() == want && pieces.opened == opened)
}

/// Whether a read that fails gives its reader back.
pub fn gives_back(alloc: Global) -> Result<bool, AllocError> {
    let mut pieces = pieces_of(alloc, "H1 H5", 2)?;
    let query = Query {
        from: 0,
        to: u64::MAX,
    };
    Ok(merged(alloc, query, &mut pieces)?.as_str() == "1 fault true")
}

// Appends the line of a second of 2024.
fn push_line(bytes: &mut Vec<u8>, event: &mut Vec<u8>, second: u64) -> Result<(), AllocError> {
    event.clear();
    event.push(0x08)?;
    put_varint(event, second)?;
    event.extend_from_slice(b"\x10\x00\x1D\x01\x00\x00\x00")?;
    escape(event, bytes)?;
    bytes.push(0x0A)?;
    Ok(())
}

/// Whether an interval of a large file is found by search: at most a hundred thousand bytes are read.
pub fn are_searched(alloc: Global) -> Result<bool, AllocError> {
    let mut bytes = Vec::from_slice(alloc, H)?;
    let mut event = Vec::new(alloc);
    for second in 0..100_000 {
        push_line(&mut bytes, &mut event, second)?;
    }
    if bytes.len() <= 1_100_000 {
        return Ok(false);
    }
    let mut pieces = pieces_of(alloc, "", 0)?;
    pieces.left.push(bytes)?;
    pieces.allowed = 100_000;
    let query = seconds(50_000, 50_010);
    let want = "49999 50000 50001 50002 50003 50004 50005 50006 50007 50008 50009 50010 end";
    Ok(merged(alloc, query, &mut pieces)?.as_str() == want)
}
