// The copying of a part's lines to the destination's file of its partition, ahead of what is listed there.
ghost use Rattle.std.specs.Prelude.{◌≡◌, ◌≢◌, ◌⊎◌, ◌≤◌, ◌<◌, ◌+◌, ◌++◌, ◌∷◌, [], ℕ, ℤ, List, Ok, None, Some, length};
ghost use Rattle.std.specs.Prelude.{take, vec_len, vec_capacity, IfOk, IfSome, OnOk, OnErr, IsErrOf, IsTrue};
ghost use Rattle.arch_time.specs.YearTime.{IsSampleYear};
ghost use Rattle.line_escape.specs.Unescaping.{HasNoNewline};
ghost use Rattle.pb_wire.specs.declared.payload.PayloadType.{PayloadType as PayloadTypeValue};
ghost use Rattle.pb_lines.specs.Header.{IsHeaderLine};
ghost use Rattle.pb_messages.specs.declared.info.PayloadInfo.{PayloadInfo as PayloadInfoValue};
ghost use Rattle.etl_mover.specs.Lines.{TakesLines};
ghost use Rattle.etl_mover.specs.Copying.{starts, fresh, anew, after, last_of, SetsLast};

use crate::lines::take_lines;
use crate::moving::Move;
use arch_time::YearStart;
use line_escape::line_len;
use partition_names::Part;
use pb_lines::{HeadErr, header_of_line};
use pb_messages::PayloadInfo;
use std::alloc::{AllocError, Global};
use store_manifest::Entry;

// Where the lines of a part go: what the file's entry is before them, and the length behind which they go; `None`
// where the file is made anew.
#[derive(Clone, Copy)]
pub(crate) struct Start {
    pub(crate) entry: Entry,
    pub(crate) at: Option<u64>,
}

// Behind what is listed of a file, or is to be.
fn behind(entry: Entry) -> Start
    ensures { result ≡ record { entry = entry; at = Some entry.len } }
{
    Start {
        entry,
        at: Some(entry.len),
    }
}

impl Move {
    /// The last entry of the series that the destination lists or is to list; `None` where there is none.
    pub fn last(&self) -> Option<Entry>
        ensures { result ≡ last_of self.now.pending self.now.listed }
    {
        match self.pending.last() {
            Some(entry) => Some(*entry),
            None => self.listed,
        }
    }

    // Where the lines of a part go, whose partition lies in `to`. `None` where the destination ends behind that.
    pub(crate) fn start(&self, head_len: u32, to: &Part, revived: Option<Entry>) -> Option<Start>
        ensures { result ≡ starts (last_of self.now.pending self.now.listed) self.now.series to.now head_len revived }
    {
        let begin = to.start;
        let start = fresh(self.series, to, head_len, revived);
        match self.last() {
            Some(last) => after(last, begin, start),
            None => Some(start),
        }
    }
}

// In the file that is revived, or in one that is made anew.
fn fresh(series: u32, to: &Part, head_len: u32, revived: Option<Entry>) -> Start
    ensures { result ≡ fresh series to.now head_len revived }
{
    match revived {
        Some(entry) => behind(entry),
        None => anew(series, to, head_len),
    }
}

// In a file that is made anew, whose header's line takes so many bytes.
fn anew(series: u32, to: &Part, head_len: u32) -> Start
    ensures { result ≡ anew series to.now head_len }
{
    let part = *to;
    let begin = part.start;
    Start {
        entry: Entry {
            series,
            part,
            len: u64::from(head_len),
            head_len,
            first: begin,
            last: begin,
            count: 0,
        },
        at: None,
    }
}

// In the last file where its partition begins here, and nowhere where that begins later.
fn after(last: Entry, begin: u64, start: Start) -> Option<Start>
    ensures { result ≡ after last begin start }
{
    if last.part.start == begin {
        Some(behind(last))
    } else if begin < last.part.start {
        None
    } else {
        Some(start)
    }
}

/// The header that a file's first line is, with its newline; `None` where it is none. `work` is scratch space: what it
/// held is lost. The error is want of memory.
pub fn header_of(
    alloc: Global,
    head: &[u8],
    work: &mut Vec<u8>,
) -> Result<Option<PayloadInfo>, AllocError>
    ensures header { IfOk result (λ o. (line : List ℕ) (info : PayloadInfoValue) → head.now ≡ line ++ 10 ∷ []
        → HasNoNewline line → IsHeaderLine line info → o ≡ Some info) }
    ensures line { IfOk result (λ o. IfSome o (λ info. (line : List ℕ) × (head.now ≡ line ++ 10 ∷ [])
        × HasNoNewline line × IsHeaderLine line info)) }
    ensures year { IfOk result (λ o. IfSome o (λ info. IsSampleYear info.year)) }
{
    let end = line_len(head);
    let whole = end + 1 == head.len();
    if !whole {
        return Ok(None);
    }
    match header_of_line(alloc, &head[..end], work) {
        Ok(info) => Ok(Some(info)),
        Err(HeadErr::Memory) => Err(AllocError),
        Err(HeadErr::Fault(_)) => Ok(None),
    }
}

// Cuts bytes to the lines of samples at their front that are of the type and year that the header says, and
// gives the entry with them.
pub(crate) fn take_part(
    alloc: Global,
    head: &[u8],
    lines: &mut Vec<u8>,
    entry: &Entry,
) -> Result<Entry, AllocError>
    ensures keeps { IfOk result (λ new. (new.part ≡ entry.now.part) × (new.series ≡ entry.now.series)) }
    ensures takes { IfOk result (λ new. (line : List ℕ) (info : PayloadInfoValue) → head.now ≡ line ++ 10 ∷ []
        → HasNoNewline line → IsHeaderLine line info
        → TakesLines info.ty info.year lines.old.items entry.now (length lines.new.items) new) }
    ensures some { IfOk result (λ new. (lines.new.items ≡ [])
        ⊎ ((ty : PayloadTypeValue) × (year : ℤ)
        × TakesLines ty year lines.old.items entry.now (length lines.new.items) new)) }
    ensures front { OnOk result (lines.new.items ≡ take (length lines.new.items) lines.old.items) }
    ensures longer { IfOk result (λ new. new.len ≡ entry.now.len + length lines.new.items) }
{
    let mut work = Vec::new(alloc);
    let Some(info) = header_of(alloc, head, &mut work)? else {
        lines.clear();
        return Ok(*entry);
    };
    let Ok(year) = YearStart::new(info.year) else {
        unreachable!();
    };
    let taken = take_lines(info.ty, &year, lines, entry, &mut work)?;
    lines.truncate(taken.len);
    Ok(taken.entry)
}

// Sets the last pending entry, in the place of the one of its partition if that is the last.
pub(crate) fn set_last(pending: &mut Vec<Entry>, entry: Entry)
    requires { vec_len pending.old < vec_capacity pending.old }
    ensures { SetsLast entry pending.old.items pending.new.items }
{
    if let Some(last) = pending.last()
        && last.part.start == entry.part.start
    {
        let _ = pending.pop();
    }
    pending.push_reserved(entry);
}
