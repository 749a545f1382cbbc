// How many partitions of one series a move takes.
ghost use Rattle.std.specs.Prelude.{◌≡◌, ◌≤◌, IfOk, OnOk, map, length, slice_get};
ghost use Rattle.std.specs.Option.{option_copied};
ghost use Rattle.moves.specs.Parts.{parts_of, covered, end_of};

use etl_rules::choose;
use series_model::limits::MOST_PARTS;
use std::alloc::AllocError;
use store_manifest::Entry;

/// When partitions of a store move on to the next.
#[derive(Clone, Copy, Debug, PartialEq, Eq)]
pub struct MoveRule {
    /// How many partitions of a series are to have ended before a move is due. With 0 each that has ended moves.
    pub hold: u32,
    /// How many of the oldest ones a move takes.
    pub gather: u32,
    /// Now, in nanoseconds since 1970.
    pub at: u64,
}

/// How many of the oldest partitions of a series move on, by its entries in the store and in the next one, oldest
/// first. What `ends` had is lost.
pub fn parts_to_move(
    rule: &MoveRule,
    source: &[Entry],
    destination: &[Entry],
    ends: &mut Vec<u64>,
) -> Result<usize, AllocError>
    ensures parts { IfOk result (λ n. n ≡ parts_of rule.now source.now destination.now) }
{
    tell_ends(source, ends)?;
    let chosen = choose(ends, rule.hold, rule.gather, rule.at);
    Ok(chosen.max(covered(source, destination)).min(MOST_PARTS))
}

// The moments at which the partitions end.
fn tell_ends(entries: &[Entry], ends: &mut Vec<u64>) -> Result<(), AllocError>
    ensures { OnOk result (ends.new.items ≡ map end_of entries.now) }
{
    ends.clear();
    for entry in entries {
        ends.push(entry.part.end)?;
    }
    Ok(())
}

// How many of the partitions the other store covers.
fn covered(source: &[Entry], destination: &[Entry]) -> usize
    ensures { result ≡ covered source.now destination.now }
{
    let Some(last) = destination.last() else {
        return 0;
    };
    source
        .iter()
        .filter(|entry| entry.last <= last.last)
        .count()
}
