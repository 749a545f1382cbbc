// How many samples of a listed file are later than a moment: its lines are read in pieces, one after another.
ghost use Rattle.std.specs.Prelude.{◌≡◌, ◌≤◌, ◌<◌, ◌+◌, ℕ, List, Some, length, take, IfOk};
ghost use Rattle.std.specs.Prelude.{IsErrOf, IsTrue};
ghost use Rattle.disk_model.specs.Files.{HasFile, Rose};
ghost use Rattle.pb_messages.specs.declared.info.PayloadInfo.{PayloadInfo as PayloadInfoValue};
ghost use Rattle.pb_lines.specs.File.{IsFile};
ghost use Rattle.series_model.specs.Series.{since};
ghost use Rattle.series_model.specs.declared.sample.Sample.{Sample};
ghost use Rattle.tier_store.specs.Counting.{CountsLines, HasLines, OnlyReadsDisk};

use arch_time::YearStart;
use disk_model::{Disk, DiskErr, FileName};
use etl_mover::{header_of, read};
use line_escape::line_len;
use pb_lines::{LineErr, moment_of_line};
use pb_messages::PayloadType;
use std::alloc::{AllocError, Global};
use store_manifest::Entry;

// As many bytes as are read at once, but for a line that is longer.
pub(crate) const PIECE: u64 = 65_536;

// Whole lines at the front of bytes: how many bytes they take, and how many of their samples are later than a moment.
#[derive(Clone, Copy)]
struct Counted {
    len: usize,
    count: u64,
}

// Counts the samples later than a moment in the lines at the front of the bytes, up to the first that is no
// sample of this type and year.
fn count_lines(
    ty: PayloadType,
    year: &YearStart,
    bytes: &[u8],
    last: u64,
    work: &mut Vec<u8>,
) -> Result<Counted, AllocError>
    ensures within { IfOk result (λ c. (c.len ≤ length bytes.now) × (c.count ≤ c.len)) }
    ensures counts { IfOk result (λ c. CountsLines ty year.now.year bytes.now (last + 1) c.len c.count) }
{
    let mut counted = Counted { len: 0, count: 0 };
    while counted.len < bytes.len() {
        let rest = &bytes[counted.len..];
        let end = line_len(rest);
        if end == rest.len() {
            return Ok(counted);
        }
        let t = match moment_of_line(ty, year, &rest[..end], work) {
            Ok(t) => t,
            Err(LineErr::Memory) => return Err(AllocError),
            Err(LineErr::Fault(_)) => return Ok(counted),
        };
        counted = Counted {
            len: counted.len + end + 1,
            count: counted.count + u64::from(last < t),
        };
    }
    Ok(counted)
}

// Counts the samples later than a moment in the lines between two places of a file. Where some of these are no lines of
// this type and year, the count says nothing.
fn count_between<D: Disk>(
    alloc: Global,
    disk: &mut D,
    name: &FileName,
    from: u64,
    end: u64,
    ty: PayloadType,
    year: &YearStart,
    last: u64,
) -> Result<u64, DiskErr>
    requires there { IsTrue D.tells → HasFile (D.files disk.old) name.now (λ b. end ≤ length b) }
    ensures count { IsTrue D.tells → (samples : List Sample)
        → HasLines (D.files disk.old) name.now from end ty year.now.year samples
        → IfOk result (λ n. n ≡ length (since (last + 1) samples)) }
    ensures reads { OnlyReadsDisk D.Disk disk.old disk.new }
    ensures faults { D.faults disk.old ≤ D.faults disk.new }
    ensures cause { IsErrOf result DiskErr.Fault → Rose (D.faults disk.old) (D.faults disk.new) }
{
    let mut work = Vec::new(alloc);
    let mut at = from;
    let mut want = PIECE;
    let mut count = 0;
    while at < end {
        let rest = end - at;
        let bytes = read(alloc, disk, name, at, want.min(rest) as usize)?;
        let counted = count_lines(ty, year, &bytes, last, &mut work)?;
        if counted.len == 0 {
            if want >= rest {
                return Ok(count);
            }
            want = want.saturating_mul(2);
        }
        at += counted.len as u64;
        count += counted.count;
    }
    Ok(count)
}

// Counts the samples of a listed file that are later than a moment. Where the listed bytes are no file of
// samples, the count says nothing.
pub(crate) fn count_later<D: Disk>(
    alloc: Global,
    disk: &mut D,
    name: &FileName,
    entry: &Entry,
    last: u64,
) -> Result<u64, DiskErr>
    requires there { IsTrue D.tells → HasFile (D.files disk.old) name.now (λ b. entry.now.len ≤ length b) }
    ensures count { IsTrue D.tells → (head : List ℕ) (info : PayloadInfoValue) (samples : List Sample)
        → HasFile (D.files disk.old) name.now (λ b. IsFile (take entry.now.len b) head info samples)
        → entry.now.head_len ≡ length head + 1
        → IfOk result (λ n. n ≡ length (since (last + 1) samples)) }
    ensures reads { OnlyReadsDisk D.Disk disk.old disk.new }
    ensures faults { D.faults disk.old ≤ D.faults disk.new }
    ensures cause { IsErrOf result DiskErr.Fault → Rose (D.faults disk.old) (D.faults disk.new) }
{
    let head = read(alloc, disk, name, 0, entry.head_len as usize)?;
    let mut work = Vec::new(alloc);
    let Some(info) = header_of(alloc, &head, &mut work)? else {
        return Ok(0);
    };
    let Ok(year) = YearStart::new(info.year) else {
        unreachable!();
    };
    let from = u64::from(entry.head_len);
    count_between(alloc, disk, name, from, entry.len, info.ty, &year, last)
}
