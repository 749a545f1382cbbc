// The lines of samples at the front of bytes, and what an entry becomes with them.
ghost use Rattle.std.specs.Prelude.{◌≡◌, ◌≤◌, ◌<◌, length, IfOk, IfSome};
ghost use Rattle.etl_mover.specs.Lines.{TakesLines, with_line};

use arch_time::YearStart;
use line_escape::line_len;
use pb_lines::{LineErr, moment_of_line};
use pb_messages::PayloadType;
use std::alloc::AllocError;
use store_manifest::Entry;

/// What was taken of bytes: how many, and what the entry becomes with the lines in them.
#[derive(Clone, Copy)]
pub(crate) struct TakenLines {
    pub(crate) len: usize,
    pub(crate) entry: Entry,
}

// The entry with a line of so many bytes more, whose sample stands at this moment.
fn with_line(entry: &Entry, len: usize, t: u64) -> Option<Entry>
    ensures { IfSome result (λ new. new ≡ with_line len t entry.now) }
{
    Some(Entry {
        len: entry.len.checked_add(len as u64)?,
        first: if entry.count == 0 { t } else { entry.first },
        last: t,
        count: entry.count.checked_add(1)?,
        ..*entry
    })
}

// Takes the lines at the front of the bytes that are samples of this type and year, up to the first that is none.
pub(crate) fn take_lines(
    ty: PayloadType,
    year: &YearStart,
    bytes: &[u8],
    entry: &Entry,
    work: &mut Vec<u8>,
) -> Result<TakenLines, AllocError>
    ensures within { IfOk result (λ taken. taken.len ≤ length bytes.now) }
    ensures takes { IfOk result (λ taken. TakesLines ty year.now.year bytes.now entry.now taken.len taken.entry) }
{
    let mut taken = TakenLines {
        len: 0,
        entry: *entry,
    };
    while taken.len < bytes.len() {
        let rest = &bytes[taken.len..];
        let end = line_len(rest);
        if end == rest.len() {
            return Ok(taken);
        }
        let t = match moment_of_line(ty, year, &rest[..end], work) {
            Ok(t) => t,
            Err(LineErr::Memory) => return Err(AllocError),
            Err(LineErr::Fault(_)) => return Ok(taken),
        };
        let Some(entry) = with_line(&taken.entry, end + 1, t) else {
            return Err(AllocError);
        };
        taken = TakenLines {
            len: taken.len + end + 1,
            entry,
        };
    }
    Ok(taken)
}
