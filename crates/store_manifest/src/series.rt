// The entries of one series, in order, and a change among them. Its place is found by bisection, and
// what stands behind it moves.
ghost use Rattle.std.specs.Prelude.{◌≡◌, ◌≤◌, ◌<◌, ◌+◌, ℕ, true, false, nat_lt, length, IfOk, IfErr, is_ok};
ghost use Rattle.std.specs.List.Sorted.{IsPartitionPoint};
ghost use Rattle.store_manifest.specs.Entries.{place, place_of, is_listed, put, changed};
ghost use Rattle.store_manifest.specs.Listing.{OfSeries, IsAround, sets};

use crate::entry_list::EntryList;
use crate::{Change, Entry};

// The index of the entry whose partition begins at this moment, or else of the first that begins later.
pub(crate) fn find(entries: &[Entry], series: u32, start: u64) -> Result<usize, usize>
    requires { OfSeries series entries.now }
    ensures found { IfOk result (λ i. (i < length entries.now) × IsAround (series, start) entries.now i (i + 1)) }
    ensures absent { IfErr result (λ i. (i ≤ length entries.now) × IsAround (series, start) entries.now i i) }
    ensures listed { is_ok result ≡ is_listed entries.now (series, start) }
{
    let at = front(entries, start);
    if at >= entries.len() || entries[at].part.start != start {
        return Err(at);
    }
    Ok(at)
}

/// Whether the partition of one of a series' entries begins at this moment. The entries are
/// those of one series, in order.
pub fn begins_at(entries: &[Entry], start: u64) -> bool
    ensures { (series : ℕ) → OfSeries series entries.now → result ≡ is_listed entries.now (series, start) }
{
    let at = front(entries, start);
    if at >= entries.len() {
        return false;
    }
    entries[at].part.start == start
}

// How many begin before this moment.
fn front(entries: &[Entry], start: u64) -> usize
    ensures within { result ≤ length entries.now }
    ensures point { (series : ℕ) → OfSeries series entries.now
        → IsPartitionPoint (λ e. nat_lt e.part.start start ≡ true)
        (λ e. nat_lt e.part.start start ≡ false) entries.now result }
{
    entries.partition_point(|entry| entry.part.start < start)
}

// Makes a change in the list of its series. It takes no memory, where an entry that is set has room.
pub(crate) fn change_list(list: &mut EntryList, change: &Change)
    requires own { OfSeries (place_of change.now).0 list.old.items }
    requires room { 1 ≤ sets change.now → list.old.used + sets change.now ≤ list.old.capacity }
    ensures items { list.new.items ≡ changed list.old.items change.now }
    ensures used { list.new.used ≤ list.old.used + sets change.now }
    ensures capacity { list.new.capacity ≡ list.old.capacity }
{
    match change {
        Change::Set(entry) => set(list, entry),
        Change::Drop { series, start } => {
            if let Ok(at) = find(list.as_slice(), *series, *start) {
                list.remove(at);
            }
        }
    }
}

fn set(list: &mut EntryList, entry: &Entry)
    requires own { OfSeries entry.now.series list.old.items }
    requires room { list.old.used + 1 ≤ list.old.capacity }
    ensures items { list.new.items ≡ put place entry.now list.old.items }
    ensures used { list.new.used ≤ list.old.used + 1 }
    ensures capacity { list.new.capacity ≡ list.old.capacity }
{
    match find(list.as_slice(), entry.series, entry.part.start) {
        Ok(at) => list.replace(at, entry),
        Err(at) => list.insert(at, entry),
    }
}
