// Where in a piece the samples begin that count. It is found by search, so that those before aren't read.
ghost use Rattle.std.specs.Prelude.{◌≡◌, ◌≤◌, ◌<◌, ◌+◌, ◌*◌, ◌^◌, ℕ, List, None, Err, OnOk, IsSome, IsTrue, length};
ghost use Rattle.std.specs.Prelude.{take};
ghost use Rattle.disk_model.specs.Files.{Rose};
ghost use Rattle.series_model.specs.declared.sample.Sample.{Sample};
ghost use Rattle.pb_messages.specs.declared.info.PayloadInfo.{PayloadInfo};
ghost use Rattle.pb_lines.specs.File.{IsFile, HasNoHeader};
ghost use Rattle.pb_file.specs.declared.search.SearchErr.TheVariants.{ReadFault, Damaged};
ghost use Rattle.pb_file.specs.Walk.{behind};
ghost use Rattle.stream_merge.specs.Beginning.{IsAtLine, MovesOn, Splits, BeginsBefore, BeginsFrom, BeginsWell};

use disk_model::ReadAt;
use pb_file::{FileWalk, SearchErr, Steps, first_after, last_before};
use series_model::Query;
use std::alloc::Global;
use std::sync::ledger::Ledger;

// Behind the header's line, goes on where the samples begin that the query gets: at the last one that is earlier than
// the interval, and behind those that aren't later than `last`.
pub(crate) fn skip<R: ReadAt, L: Ledger>(
    alloc: Global,
    walk: &mut FileWalk,
    file: &mut R,
    len: u64,
    query: Query,
    last: Option<u64>,
    line: &mut Vec<u8>,
    steps: &mut Steps<L>,
) -> Result<(), SearchErr>
    requires len { walk.old.len ≡ len }
    requires some { IsSome walk.old.info }
    requires going { walk.old.stop ≡ None }
    requires file { IsTrue R.tells → len ≤ length (R.bytes file.old) }
    ensures moves { MovesOn walk.old walk.new }
    ensures at_line { IsTrue R.tells → IsAtLine walk.old.place walk.old (R.bytes file.old)
        → IsAtLine walk.old.place walk.new (R.bytes file.old) }
    ensures begins { IsTrue R.tells → (head : List ℕ) (info : PayloadInfo) (samples : List Sample)
        → IsFile (take len (R.bytes file.old)) head info samples
        → walk.old.place ≡ length head + 1
        → OnOk result (BeginsWell (behind last) query head samples walk.new.place) }
    ensures refused { IsTrue R.tells → (at : ℕ) → result ≡ Err (Damaged at)
        → (at ≡ 0) × HasNoHeader (take len (R.bytes file.old)) }
    ensures same { IsTrue R.tells → R.bytes file.new ≡ R.bytes file.old }
    ensures cause { result ≡ Err ReadFault → Rose (R.faults file.old) (R.faults file.new) }
    ensures counts { steps.old ≤ steps.new }
    ensures steps { (d : ℕ) → len < 2 ^ d → steps.new ≤ steps.old + 4 * d + 4 }
{
    let head_len = walk.place();
    skip_earlier(alloc, walk, file, head_len, len, query.from, line, steps)?;
    let Some(last) = last else {
        return Ok(());
    };
    skip_taken(alloc, walk, file, head_len, len, last, line, steps)
}

// Goes on at the last line that is earlier than `from`, if there is one.
fn skip_earlier<R: ReadAt, L: Ledger>(
    alloc: Global,
    walk: &mut FileWalk,
    file: &mut R,
    head_len: u64,
    len: u64,
    from: u64,
    line: &mut Vec<u8>,
    steps: &mut Steps<L>,
) -> Result<(), SearchErr>
    requires len { walk.old.len ≡ len }
    requires some { IsSome walk.old.info }
    requires going { walk.old.stop ≡ None }
    requires within { walk.old.place ≤ len }
    requires file { IsTrue R.tells → len ≤ length (R.bytes file.old) }
    ensures moves { MovesOn walk.old walk.new }
    ensures at_line { IsTrue R.tells → IsAtLine head_len walk.old (R.bytes file.old)
        → IsAtLine head_len walk.new (R.bytes file.old) }
    ensures begins { IsTrue R.tells → (head : List ℕ) (info : PayloadInfo) (samples : List Sample)
        → IsFile (take len (R.bytes file.old)) head info samples
        → head_len ≡ length head + 1 → walk.old.place ≡ head_len
        → OnOk result (BeginsBefore from head samples walk.new.place) }
    ensures refused { IsTrue R.tells → (at : ℕ) → result ≡ Err (Damaged at)
        → (at ≡ 0) × HasNoHeader (take len (R.bytes file.old)) }
    ensures same { IsTrue R.tells → R.bytes file.new ≡ R.bytes file.old }
    ensures faults { R.faults file.old ≤ R.faults file.new }
    ensures cause { result ≡ Err ReadFault → Rose (R.faults file.old) (R.faults file.new) }
    ensures counts { steps.old ≤ steps.new }
    ensures steps { (d : ℕ) → len < 2 ^ d → steps.new ≤ steps.old + 2 * d + 2 }
{
    match last_before(alloc, file, head_len, len, from, line, steps)? {
        Some(at) => walk.skip_to(at),
        None => {}
    }
    Ok(())
}

// Goes on at the first line that is later than `last`, unless it is there already.
fn skip_taken<R: ReadAt, L: Ledger>(
    alloc: Global,
    walk: &mut FileWalk,
    file: &mut R,
    head_len: u64,
    len: u64,
    last: u64,
    line: &mut Vec<u8>,
    steps: &mut Steps<L>,
) -> Result<(), SearchErr>
    requires len { walk.old.len ≡ len }
    requires some { IsSome walk.old.info }
    requires going { walk.old.stop ≡ None }
    requires within { walk.old.place ≤ len }
    requires file { IsTrue R.tells → len ≤ length (R.bytes file.old) }
    ensures moves { MovesOn walk.old walk.new }
    ensures at_line { IsTrue R.tells → IsAtLine head_len walk.old (R.bytes file.old)
        → IsAtLine head_len walk.new (R.bytes file.old) }
    ensures begins { IsTrue R.tells → (head : List ℕ) (info : PayloadInfo) (samples here : List Sample)
        → IsFile (take len (R.bytes file.old)) head info samples
        → head_len ≡ length head + 1
        → Splits head samples here walk.old.place
        → OnOk result (BeginsFrom (last + 1) head samples here walk.new.place) }
    ensures refused { IsTrue R.tells → (at : ℕ) → result ≡ Err (Damaged at)
        → (at ≡ 0) × HasNoHeader (take len (R.bytes file.old)) }
    ensures same { IsTrue R.tells → R.bytes file.new ≡ R.bytes file.old }
    ensures cause { result ≡ Err ReadFault → Rose (R.faults file.old) (R.faults file.new) }
    ensures counts { steps.old ≤ steps.new }
    ensures steps { (d : ℕ) → len < 2 ^ d → steps.new ≤ steps.old + 2 * d + 2 }
{
    let at = first_after(alloc, file, head_len, len, last, line, steps)?;
    walk.skip_to(at);
    Ok(())
}
