//! Search in a file: where its lines part at a moment, by halving the places of its bytes.
ghost use Rattle.std.specs.Prelude.{◌≡◌, ◌≤◌, ◌<◌, ◌+◌, ◌*◌, ◌^◌, ℕ, List, None, Some, IfOk, IfSome, OnOk, Err, IsSome};
ghost use Rattle.std.specs.Prelude.{IsTrue, length, take, drop};
ghost use Rattle.disk_model.specs.Files.{Rose};
ghost use Rattle.series_model.specs.declared.sample.Sample.{Sample as SampleValue};
ghost use Rattle.series_model.specs.Series.{before};
ghost use Rattle.pb_messages.specs.declared.info.PayloadInfo.{PayloadInfo as Info};
ghost use Rattle.pb_file.specs.declared.search.SearchErr.TheVariants.{ReadFault, Damaged};
ghost use Rattle.pb_lines.specs.File.{IsFile, IsBadAt, HasNoHeader, HasNoSample};
ghost use Rattle.pb_file.specs.Block.{IsWindowOf};
ghost use Rattle.pb_file.specs.Walk.{Front, HasWalked};
ghost use Rattle.pb_file.specs.Skip.{HasHeader};
ghost use Rattle.pb_file.specs.Search.{place_from, BeginsWithHeader, HasSampleAt, IsLastLine, IsLineStart, MayBegin};
ghost use Rattle.pb_file.specs.Parting.{IsPartedAt, AreBegins, AreLineStarts, BeginsFrom, IsLineAt, IsFoundIn};

use crate::steps::Steps;
use crate::walk::{FileWalk, Walked};
use disk_model::ReadAt;
use std::alloc::Global;
use std::sync::ledger::Ledger;

/// Why a search failed.
#[derive(Clone, Copy, Debug, PartialEq, Eq)]
pub enum SearchErr {
    /// A read of the file failed.
    ReadFault,
    /// The first line is no header's. It begins at this place, 0.
    Damaged { at: u64 },
    /// Memory ran out.
    Memory,
}

// Where the lines of a file part at a moment: the last line that isn't later, if there is one, and the
// first that is, or the end.
#[derive(Clone, Copy)]
pub struct Parted {
    last: Option<u64>,
    next: u64,
}

// A line that was read: where it begins, its moment, and where the next one begins.
#[derive(Clone, Copy)]
pub struct FoundLine {
    at: u64,
    t: u64,
    end: u64,
}

/// The place of the first line of a file that is later than `t`, or `len`. The header's line with its newline
/// has `head_len` bytes. Lines between are not read: at each halving of the range of places it reads the rest
/// of one line, and one line.
///
/// Of bytes that are no file it is a place from which they may be read on: `head_len`, `len`, or that of a sample's
/// line. At a line that is none the search ends, with the last sample that it knows isn't later, or with `head_len`: so
/// a reading from there meets that line.
///
/// What `work` had may be lost.
pub fn first_after<H: ReadAt, L: Ledger>(
    alloc: Global,
    file: &mut H,
    head_len: u64,
    len: u64,
    t: u64,
    work: &mut Vec<u8>,
    steps: &mut Steps<L>,
) -> Result<u64, SearchErr>
    requires file { IsTrue H.tells → len ≤ length (H.bytes file.old) }
    ensures place { IsTrue H.tells → (head : List ℕ) (info : Info) (samples : List SampleValue)
        → IsFile (take len (H.bytes file.old)) head info samples
        → head_len ≡ length head + 1
        → IfOk result (λ at. at ≡ place_from head samples (t + 1)) }
    ensures within { IfOk result (λ at. at ≤ len) }
    ensures start { IsTrue H.tells → IfOk result (λ at. IsLineStart (take len (H.bytes file.old)) head_len at) }
    ensures begins { IsTrue H.tells → (head : List ℕ) (info : Info)
        → BeginsWithHeader (take len (H.bytes file.old)) head info
        → IfOk result (λ at. MayBegin info (take len (H.bytes file.old)) head_len at) }
    ensures refused { IsTrue H.tells → (at : ℕ) → result ≡ Err (Damaged at)
        → (at ≡ 0) × HasNoHeader (take len (H.bytes file.old)) }
    ensures same { IsTrue H.tells → H.bytes file.new ≡ H.bytes file.old }
    ensures faults { H.faults file.old ≤ H.faults file.new }
    ensures cause { result ≡ Err ReadFault → Rose (H.faults file.old) (H.faults file.new) }
    ensures counts { steps.old ≤ steps.new }
    ensures steps { (d : ℕ) → len < 2 ^ d → steps.new ≤ steps.old + 2 * d + 2 }
{
    let parted = part(alloc, file, head_len, len, t, work, steps)?;
    Ok(parted.next)
}

/// The place of the last line of a file that is earlier than `t`, or `None` where no line is. Of bytes that are no file
/// it is that of a sample's line, or `None`. For the rest it is as `first_after`.
pub fn last_before<H: ReadAt, L: Ledger>(
    alloc: Global,
    file: &mut H,
    head_len: u64,
    len: u64,
    t: u64,
    work: &mut Vec<u8>,
    steps: &mut Steps<L>,
) -> Result<Option<u64>, SearchErr>
    requires file { IsTrue H.tells → len ≤ length (H.bytes file.old) }
    ensures place { IsTrue H.tells → (head : List ℕ) (info : Info) (samples : List SampleValue)
        → IsFile (take len (H.bytes file.old)) head info samples
        → head_len ≡ length head + 1
        → IfOk result (λ last. IsLastLine head (before t samples) last) }
    ensures within { IfOk result (λ last. IfSome last (λ at. at ≤ len)) }
    ensures start { IsTrue H.tells
        → IfOk result (λ last. IfSome last (λ at. IsLineStart (take len (H.bytes file.old)) head_len at)) }
    ensures begins { IsTrue H.tells → (head : List ℕ) (info : Info)
        → BeginsWithHeader (take len (H.bytes file.old)) head info
        → IfOk result (λ last. IfSome last (λ at. HasSampleAt info (take len (H.bytes file.old)) at)) }
    ensures refused { IsTrue H.tells → (at : ℕ) → result ≡ Err (Damaged at)
        → (at ≡ 0) × HasNoHeader (take len (H.bytes file.old)) }
    ensures same { IsTrue H.tells → H.bytes file.new ≡ H.bytes file.old }
    ensures faults { H.faults file.old ≤ H.faults file.new }
    ensures cause { result ≡ Err ReadFault → Rose (H.faults file.old) (H.faults file.new) }
    ensures counts { steps.old ≤ steps.new }
    ensures steps { (d : ℕ) → len < 2 ^ d → steps.new ≤ steps.old + 2 * d + 2 }
{
    if t == 0 {
        return Ok(None);
    }
    let parted = part(alloc, file, head_len, len, t - 1, work, steps)?;
    Ok(parted.last)
}

// Reads the header and halves the places.
fn part<H: ReadAt, L: Ledger>(
    alloc: Global,
    file: &mut H,
    head_len: u64,
    len: u64,
    until: u64,
    line: &mut Vec<u8>,
    steps: &mut Steps<L>,
) -> Result<Parted, SearchErr>
    requires file { IsTrue H.tells → len ≤ length (H.bytes file.old) }
    ensures parted { IsTrue H.tells → (head : List ℕ) (info : Info) (samples : List SampleValue)
        → IsFile (take len (H.bytes file.old)) head info samples
        → head_len ≡ length head + 1
        → IfOk result (IsPartedAt head samples (until + 1)) }
    ensures within { IfOk result (λ p. (p.next ≤ len) × IfSome p.last (λ at. at ≤ len)) }
    ensures start { IsTrue H.tells → IfOk result (λ p. AreLineStarts (take len (H.bytes file.old)) head_len p) }
    ensures begins { IsTrue H.tells → (head : List ℕ) (info : Info)
        → BeginsWithHeader (take len (H.bytes file.old)) head info
        → IfOk result (λ p. AreBegins info (take len (H.bytes file.old)) head_len p) }
    ensures refused { IsTrue H.tells → (at : ℕ) → result ≡ Err (Damaged at)
        → (at ≡ 0) × HasNoHeader (take len (H.bytes file.old)) }
    ensures same { IsTrue H.tells → H.bytes file.new ≡ H.bytes file.old }
    ensures faults { H.faults file.old ≤ H.faults file.new }
    ensures cause { result ≡ Err ReadFault → Rose (H.faults file.old) (H.faults file.new) }
    ensures counts { steps.old ≤ steps.new }
    ensures steps { (d : ℕ) → len < 2 ^ d → steps.new ≤ steps.old + 2 * d + 1 }
{
    let mut walk = FileWalk::new(alloc, len);
    read_header(&mut walk, file, line, steps)?;
    halve(&mut walk, file, head_len, until, line, steps)
}

// Reads the header's line.
fn read_header<H: ReadAt, L: Ledger>(
    walk: &mut FileWalk,
    file: &mut H,
    line: &mut Vec<u8>,
    steps: &mut Steps<L>,
) -> Result<(), SearchErr>
    requires file { IsTrue H.tells → walk.old.len ≤ length (H.bytes file.old) }
    requires fresh { (walk.old.stop ≡ None) × (walk.old.info ≡ None) }
    ensures begun { IsTrue H.tells → HasWalked walk.old (H.bytes file.old) None
        → OnOk result ((front : Front) × HasWalked walk.new (H.bytes file.old) (Some front)) }
    ensures some { OnOk result (IsSome walk.new.info) }
    ensures len { walk.new.len ≡ walk.old.len }
    ensures refused { IsTrue H.tells → HasWalked walk.old (H.bytes file.old) None → (at : ℕ)
        → result ≡ Err (Damaged at)
        → IsBadAt (take walk.old.len (H.bytes file.old)) at × (at ≡ walk.old.place) }
    ensures same { IsTrue H.tells → H.bytes file.new ≡ H.bytes file.old }
    ensures faults { H.faults file.old ≤ H.faults file.new }
    ensures cause { result ≡ Err ReadFault → Rose (H.faults file.old) (H.faults file.new) }
    ensures counts { steps.old ≤ steps.new }
    ensures step { steps.new ≤ steps.old + 1 }
{
    match walk.next(file, line, steps) {
        Walked::Header => Ok(()),
        Walked::Damaged { at } => Err(SearchErr::Damaged { at }),
        Walked::ReadFault => Err(SearchErr::ReadFault),
        Walked::Memory => Err(SearchErr::Memory),
        Walked::Sample { .. } => unreachable!(),
        Walked::End => unreachable!(),
    }
}

// Halves the range of places until no line begins in it. All lines that begin before it aren't later than `until`, and
// those from `next` on are. It stops at a line that is no sample's.
fn halve<H: ReadAt, L: Ledger>(
    walk: &mut FileWalk,
    file: &mut H,
    head_len: u64,
    until: u64,
    line: &mut Vec<u8>,
    steps: &mut Steps<L>,
) -> Result<Parted, SearchErr>
    requires file { IsTrue H.tells → walk.old.len ≤ length (H.bytes file.old) }
    requires some { IsSome walk.old.info }
    ensures parted { IsTrue H.tells → (head : List ℕ) (info : Info) (samples : List SampleValue)
        → HasHeader walk.old (H.bytes file.old) head info
        → IsFile (take walk.old.len (H.bytes file.old)) head info samples
        → head_len ≡ length head + 1
        → IfOk result (IsPartedAt head samples (until + 1)) }
    ensures within { IfOk result (λ p. (p.next ≤ walk.old.len) × IfSome p.last (λ at. at ≤ walk.old.len)) }
    ensures start { IsTrue H.tells → (head : List ℕ) (info : Info) → HasHeader walk.old (H.bytes file.old) head info
        → IfOk result (λ p. AreLineStarts (take walk.old.len (H.bytes file.old)) head_len p) }
    ensures begins { IsTrue H.tells → (head : List ℕ) (info : Info) → HasHeader walk.old (H.bytes file.old) head info
        → IfOk result (λ p. AreBegins info (take walk.old.len (H.bytes file.old)) head_len p) }
    ensures never { (at : ℕ) → result ≡ Err (Damaged at) → ⊥ }
    ensures same { IsTrue H.tells → H.bytes file.new ≡ H.bytes file.old }
    ensures faults { H.faults file.old ≤ H.faults file.new }
    ensures cause { result ≡ Err ReadFault → Rose (H.faults file.old) (H.faults file.new) }
    ensures counts { steps.old ≤ steps.new }
    ensures steps { (d : ℕ) → walk.old.len < 2 ^ d → steps.new ≤ steps.old + 2 * d }
{
    let len = walk.len();
    let first = head_len.min(len);
    let mut last = None;
    let mut next = len;
    let mut low = first;
    let mut high = len;
    'halves: while low < high {
        let middle = low + (high - low) / 2;
        let found = match find(walk, file, low, middle, next, line, steps) {
            Ok(found) => found,
            Err(SearchErr::Damaged { .. }) => return Ok(stopped(first, last)),
            Err(err) => return Err(err),
        };
        let Some(found) = found else {
            high = middle;
            continue;
        };
        if found.t <= until {
            last = Some(found.at);
            low = found.end;
            continue;
        }
        next = found.at;
        high = middle;
    }
    Ok(Parted { last, next })
}

// Where a search stops before its end: at the last line that it knows isn't later, or at the first one.
fn stopped(first: u64, last: Option<u64>) -> Parted
    ensures last { result.last ≡ last }
    ensures some { IfSome last (λ at. result.next ≡ at) }
    ensures none { last ≡ None → result.next ≡ first }
{
    Parted {
        last,
        next: last.unwrap_or(first),
    }
}

// Reads the first line that begins from the middle on, if that is before `next`. A line begins at `low`.
fn find<H: ReadAt, L: Ledger>(
    walk: &mut FileWalk,
    file: &mut H,
    low: u64,
    middle: u64,
    next: u64,
    line: &mut Vec<u8>,
    steps: &mut Steps<L>,
) -> Result<Option<FoundLine>, SearchErr>
    requires low { low ≤ middle }
    requires within { middle < walk.old.len }
    requires end { next ≤ walk.old.len }
    requires some { IsSome walk.old.info }
    requires file { IsTrue H.tells → walk.old.len ≤ length (H.bytes file.old) }
    ensures found { IsTrue H.tells → (head : List ℕ) (info : Info) → HasHeader walk.old (H.bytes file.old) head info
        → IfOk result (IsFoundIn info (take walk.old.len (H.bytes file.old)) low middle next) }
    ensures place { IfOk result (λ o. IfSome o (λ f. (middle ≤ f.at) × (f.at < f.end) × (f.end ≤ walk.old.len))) }
    ensures headed { IsTrue H.tells → (head : List ℕ) (info : Info) → HasHeader walk.old (H.bytes file.old) head info
        → OnOk result (HasHeader walk.new (H.bytes file.old) head info) }
    ensures refused { IsTrue H.tells → (head : List ℕ) (info : Info) → HasHeader walk.old (H.bytes file.old) head info
        → (at : ℕ) → result ≡ Err (Damaged at)
        → BeginsFrom (take walk.old.len (H.bytes file.old)) low middle at
        × HasNoSample info (λ t. Unit {0}) (drop at (take walk.old.len (H.bytes file.old))) }
    ensures kept { (walk.new.len ≡ walk.old.len) × (walk.new.info ≡ walk.old.info) }
    ensures same { IsTrue H.tells → H.bytes file.new ≡ H.bytes file.old }
    ensures faults { H.faults file.old ≤ H.faults file.new }
    ensures cause { result ≡ Err ReadFault → Rose (H.faults file.old) (H.faults file.new) }
    ensures counts { steps.old ≤ steps.new }
    ensures steps { steps.new ≤ steps.old + 2 }
{
    let at = start_from(walk, file, low, middle, line, steps)?;
    if at >= next {
        return Ok(None);
    }
    let found = read_at(walk, file, at, line, steps)?;
    Ok(Some(found))
}

// Where the first line begins from the middle on, or the end. A line begins at `low`.
fn start_from<H: ReadAt, L: Ledger>(
    walk: &mut FileWalk,
    file: &mut H,
    low: u64,
    middle: u64,
    line: &mut Vec<u8>,
    steps: &mut Steps<L>,
) -> Result<u64, SearchErr>
    requires low { low ≤ middle }
    requires within { middle < walk.old.len }
    requires file { IsTrue H.tells → walk.old.len ≤ length (H.bytes file.old) }
    ensures behind { IfOk result (λ at. (middle ≤ at) × (at ≤ walk.old.len)) }
    ensures first { IsTrue H.tells → IsWindowOf walk.old.window (H.bytes file.old)
        → IfOk result (BeginsFrom (take walk.old.len (H.bytes file.old)) low middle) }
    ensures window { IsTrue H.tells → IsWindowOf walk.old.window (H.bytes file.old)
        → IsWindowOf walk.new.window (H.bytes file.old) }
    ensures walk { walk.new ≡ record walk.old { window = walk.new.window } }
    ensures never { (at : ℕ) → result ≡ Err (Damaged at) → ⊥ }
    ensures same { IsTrue H.tells → H.bytes file.new ≡ H.bytes file.old }
    ensures faults { H.faults file.old ≤ H.faults file.new }
    ensures cause { result ≡ Err ReadFault → Rose (H.faults file.old) (H.faults file.new) }
    ensures counts { steps.old ≤ steps.new }
    ensures step { steps.new ≤ steps.old + 1 }
{
    if middle == low {
        return Ok(low);
    }
    walk.line_behind(file, middle - 1, line, steps)
}

// Reads the line that begins at a place.
fn read_at<H: ReadAt, L: Ledger>(
    walk: &mut FileWalk,
    file: &mut H,
    at: u64,
    line: &mut Vec<u8>,
    steps: &mut Steps<L>,
) -> Result<FoundLine, SearchErr>
    requires within { at < walk.old.len }
    requires some { IsSome walk.old.info }
    requires file { IsTrue H.tells → walk.old.len ≤ length (H.bytes file.old) }
    ensures place { IfOk result (λ f. (f.at ≡ at) × (at < f.end) × (f.end ≤ walk.old.len)) }
    ensures line { IsTrue H.tells → (head : List ℕ) (info : Info) → HasHeader walk.old (H.bytes file.old) head info
        → IfOk result (IsLineAt info (take walk.old.len (H.bytes file.old))) }
    ensures headed { IsTrue H.tells → (head : List ℕ) (info : Info) → HasHeader walk.old (H.bytes file.old) head info
        → OnOk result (HasHeader walk.new (H.bytes file.old) head info) }
    ensures refused { IsTrue H.tells → (head : List ℕ) (info : Info) → HasHeader walk.old (H.bytes file.old) head info
        → (bad : ℕ) → result ≡ Err (Damaged bad)
        → (bad ≡ at) × HasNoSample info (λ t. Unit {0}) (drop at (take walk.old.len (H.bytes file.old))) }
    ensures kept { (walk.new.len ≡ walk.old.len) × (walk.new.info ≡ walk.old.info) }
    ensures same { IsTrue H.tells → H.bytes file.new ≡ H.bytes file.old }
    ensures faults { H.faults file.old ≤ H.faults file.new }
    ensures cause { result ≡ Err ReadFault → Rose (H.faults file.old) (H.faults file.new) }
    ensures counts { steps.old ≤ steps.new }
    ensures step { steps.new ≤ steps.old + 1 }
{
    walk.seek(at);
    match walk.next(file, line, steps) {
        Walked::Sample { t } => Ok(FoundLine {
            at,
            t,
            end: walk.place(),
        }),
        Walked::Damaged { at } => Err(SearchErr::Damaged { at }),
        Walked::ReadFault => Err(SearchErr::ReadFault),
        Walked::Memory => Err(SearchErr::Memory),
        Walked::Header => unreachable!(),
        Walked::End => unreachable!(),
    }
}
