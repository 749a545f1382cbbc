// Where the lines of a listed file begin that are later than a moment: they are read in pieces, one after another.
ghost use Rattle.std.specs.Prelude.{◌≡◌, ◌≤◌, ◌+◌, ℕ, List, Contains, IfOk, IsErrOf, IsTrue, false, length, take};
ghost use Rattle.disk_model.specs.Files.{HasFile, Rose};
ghost use Rattle.pb_messages.specs.declared.info.PayloadInfo.{PayloadInfo as PayloadInfoValue};
ghost use Rattle.pb_lines.specs.File.{IsFile};
ghost use Rattle.series_model.specs.declared.sample.Sample.{Sample};
ghost use Rattle.durable_write.specs.Ends.{end_of_disk};
ghost use Rattle.durable_write.specs.Held.{Filed, file_of};
ghost use Rattle.tier_store.specs.Change.{Has, IsListedIn};
ghost use Rattle.tier_store.specs.Copying.{OnlyLooks};
ghost use Rattle.tier_store.specs.Counting.{HasLines, OnlyReadsDisk, behind};
ghost use Rattle.tier_store.specs.Finding.{IsFrom, IsNext, IsNoSooner, IsTold, IsUpTo, SaysFile, SkipsLines};
ghost use Rattle.tier_store.specs.Pinned.{seen_all};
ghost use Rattle.tier_store.specs.Seen.{seen};
ghost use Rattle.tier_store.specs.Stores.{Stores, list_at};

use crate::TierStore;
use crate::counting::PIECE;
use arch_time::YearStart;
use disk_model::{Disk, DiskErr, FileName};
use durable_write::file_name;
use etl_mover::{header_of, read};
use line_escape::line_len;
use pb_lines::{LineErr, moment_of_line};
use pb_messages::PayloadType;
use std::alloc::{AllocError, Global};
use store_manifest::Entry;

/// Where the lines of a file begin that are later than a moment.
#[derive(Clone, Copy, Debug, PartialEq, Eq)]
pub enum LaterLines {
    /// At this place, in bytes from the file's start; where there are none, at the file's listed length.
    At(u64),
    /// It isn't known: at this place, in bytes from the file's start, no line of a sample begins,
    /// or the file has no header.
    Damaged(u64),
}

// Whole lines at the front of bytes that are not later than a moment: how many bytes they take, and whether a
// later one stands behind them.
#[derive(Clone, Copy)]
struct Skipped {
    len: usize,
    found: bool,
}

// Whether a moment is later than another, if there is one.
pub(crate) fn is_later(last: Option<u64>, t: u64) -> bool
    ensures later { IsTrue result → behind last ≤ t }
    ensures earlier { result ≡ false → t + 1 ≤ behind last }
{
    match last {
        Some(last) => last < t,
        None => true,
    }
}

// Skips the lines at the front of the bytes that are samples of this type and year and not later than a moment.
fn skip_lines(
    ty: PayloadType,
    year: &YearStart,
    bytes: &[u8],
    last: Option<u64>,
    work: &mut Vec<u8>,
) -> Result<Skipped, AllocError>
    ensures within { IfOk result (λ s. s.len ≤ length bytes.now) }
    ensures skips { IfOk result (λ s. SkipsLines ty year.now.year bytes.now (behind last) s.len s.found) }
{
    let mut len = 0;
    while len < bytes.len() {
        let rest = &bytes[len..];
        let end = line_len(rest);
        if end == rest.len() {
            return Ok(Skipped { len, found: false });
        }
        let t = match moment_of_line(ty, year, &rest[..end], work) {
            Ok(t) => t,
            Err(LineErr::Memory) => return Err(AllocError),
            Err(LineErr::Fault(_)) => return Ok(Skipped { len, found: false }),
        };
        if is_later(last, t) {
            return Ok(Skipped { len, found: true });
        }
        len = len + end + 1;
    }
    Ok(Skipped { len, found: false })
}

// The place of the first line of a sample later than a moment, between two places of a file; the
// second where there is none.
fn next_between<D: Disk>(
    alloc: Global,
    disk: &mut D,
    name: &FileName,
    from: u64,
    end: u64,
    ty: PayloadType,
    year: &YearStart,
    last: Option<u64>,
) -> Result<LaterLines, DiskErr>
    requires within { from ≤ end }
    requires there { IsTrue D.tells → HasFile (D.files disk.old) name.now (λ b. end ≤ length b) }
    ensures next { IsTrue D.tells → (samples : List Sample)
        → HasLines (D.files disk.old) name.now from end ty year.now.year samples
        → IfOk result (IsNext samples (behind last) from) }
    ensures told { IsTrue D.tells → IfOk result (IsTold (D.files disk.old) name.now from end ty year.now.year) }
    ensures no_sooner { IfOk result (IsNoSooner from) }
    ensures within { IfOk result (IsUpTo end) }
    ensures behind { IfOk result (IsFrom from) }
    ensures reads { OnlyReadsDisk D.Disk disk.old disk.new }
    ensures faults { D.faults disk.old ≤ D.faults disk.new }
    ensures cause { IsErrOf result DiskErr.Fault → Rose (D.faults disk.old) (D.faults disk.new) }
{
    let mut work = Vec::new(alloc);
    let mut at = from;
    let mut want = PIECE;
    while at < end {
        let rest = end - at;
        let bytes = read(alloc, disk, name, at, want.min(rest) as usize)?;
        let skipped = skip_lines(ty, year, &bytes, last, &mut work)?;
        if skipped.found {
            return Ok(LaterLines::At(at + skipped.len as u64));
        }
        if skipped.len == 0 {
            if want >= rest {
                return Ok(LaterLines::Damaged(at));
            }
            want = want.saturating_mul(2);
        }
        at += skipped.len as u64;
    }
    Ok(LaterLines::At(end))
}

// The same of a listed file of this length, whose header's line takes so many bytes. Where it has no header,
// its first place is damaged.
fn find_next<D: Disk>(
    alloc: Global,
    disk: &mut D,
    name: &FileName,
    head_len: u32,
    len: u64,
    last: Option<u64>,
) -> Result<LaterLines, DiskErr>
    requires there { IsTrue D.tells → HasFile (D.files disk.old) name.now (λ b. len ≤ length b) }
    ensures next { IsTrue D.tells → (head : List ℕ) (info : PayloadInfoValue) (samples : List Sample)
        → HasFile (D.files disk.old) name.now (λ b. IsFile (take len b) head info samples) → head_len ≡ length head + 1
        → IfOk result (IsNext samples (behind last) head_len) }
    ensures told { IsTrue D.tells
        → IfOk result (λ later. HasFile (D.files disk.old) name.now (λ b. SaysFile head_len (take len b) later)) }
    ensures within { IfOk result (IsUpTo len) }
    ensures behind { IfOk result (IsFrom head_len) }
    ensures reads { OnlyReadsDisk D.Disk disk.old disk.new }
    ensures faults { D.faults disk.old ≤ D.faults disk.new }
    ensures cause { IsErrOf result DiskErr.Fault → Rose (D.faults disk.old) (D.faults disk.new) }
{
    let from = u64::from(head_len);
    if from > len {
        return Ok(LaterLines::Damaged(0));
    }
    let head = read(alloc, disk, name, 0, head_len as usize)?;
    let mut work = Vec::new(alloc);
    let Some(info) = header_of(alloc, &head, &mut work)? else {
        return Ok(LaterLines::Damaged(0));
    };
    let Ok(year) = YearStart::new(info.year) else {
        unreachable!();
    };
    next_between(alloc, disk, name, from, len, info.ty, &year, last)
}

impl<D: Disk> TierStore<D> {
    /// Finds the place in a file that a store lists, from 1 to 3, where the lines of samples begin that are later
    /// than the moment `after`, in nanoseconds since 1970-01-01T00:00:00Z; without a moment, those of all samples.
    /// It is where a move of the file goes on behind what the next store has. It needs that no change stands in
    /// doubt. `Damaged` comes only where what is held doesn't stand, or the disk doesn't tell its files. It tells 0
    /// where the file doesn't begin with its header's line; otherwise lines of samples stand up to the place that it
    /// tells, and none begins there.
    ///
    /// `Fault` comes only where the disk's count of faults rose in the call.
    pub fn find_later(
        &mut self,
        store: u8,
        entry: &Entry,
        after: Option<u64>,
    ) -> Result<LaterLines, DiskErr>
        requires listed { IsListedIn self.old.manifests.items store entry.now }
        requires has { (held : Stores) × Has D.tells (seen D.Disk self.old) held }

        ensures found { IsTrue D.tells → (held : Stores) → IsTrue held.stands → Has D.tells (seen D.Disk self.old) held
            → IfOk result (λ later. (i : ℕ) × (store ≡ i + 1) × (f : Filed) × Contains (list_at i held) f
            × (f.entry ≡ entry.now) × IsNext f.samples (behind after) entry.now.head_len later) }
        ensures told { IsTrue D.tells
            → IfOk result (λ later. HasFile (D.files self.old.disk) (file_of (store, self.old.catalogue.rows) entry.now)
            (λ b. SaysFile entry.now.head_len (take entry.now.len b) later)) }
        ensures within { IfOk result (IsUpTo entry.now.len) }
        ensures behind { IfOk result (IsFrom entry.now.head_len) }
        ensures looks { OnlyLooks D.tells (seen_all D.Disk self.old) (seen_all D.Disk self.new) (end_of_disk result) }
        ensures same { (self.new.pinned ≡ self.old.pinned) × (self.new.limbo ≡ self.old.limbo) }
    {
        let name = file_name(self.alloc, store, self.catalogue.rows(), entry)?;
        let later = find_next(
            self.alloc,
            &mut self.disk,
            &name,
            entry.head_len,
            entry.len,
            after,
        )?;
        Ok(later)
    }
}
