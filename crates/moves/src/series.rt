// Which series moves next.
ghost use Rattle.std.specs.Prelude.{◌≡◌, ◌<◌, ℕ, IfOk};
ghost use Rattle.std.specs.BTreeMap.{get};
ghost use Rattle.std.specs.Ordering.{nat_cmp};
ghost use Rattle.moves.specs.Series.{IsToMove, parts_in};
ghost use Rattle.moves.specs.Search.{IsSearchStep, answer};

use crate::parts::{MoveRule, parts_to_move};
use std::alloc::{AllocError, Global};
use std::collections::BTreeMap;
use store_manifest::Manifest;

/// Which move is to be made.
#[derive(Clone, Copy, Debug, PartialEq, Eq)]
pub enum ToMove {
    /// One of this series: the least that has a move to make and none running. It takes so many
    /// of its oldest partitions.
    Begin { series: u32, parts: usize },
    /// Each series that has a move to make has one running; that of the least such series has this number.
    Running { number: u32 },
    /// No series has a move to make.
    Nothing,
}

/// The move to be made next from one store to another, of the series below a number. `running` tells by its series the
/// number of each move that runs, of whatever stores. It goes over the series once.
pub fn move_to_make(
    alloc: Global,
    rule: &MoveRule,
    source: &Manifest,
    destination: &Manifest,
    series: u32,
    running: &BTreeMap<u32, u32>,
) -> Result<ToMove, AllocError>
    ensures { IfOk result
        (IsToMove (parts_in rule.now source.now.entries destination.now.entries) (get nat_cmp running.now) series) }
{
    let mut ends = Vec::new(alloc);
    let mut first = None;
    for s in 0..series {
        let parts = parts_to_move(rule, source.entries(s), destination.entries(s), &mut ends)?;
        match look(parts, running.get(&s).copied(), first) {
            SearchStep::Free => return Ok(ToMove::Begin { series: s, parts }),
            SearchStep::On(next) => first = next,
        }
    }
    Ok(answer(first))
}

// How the search goes on behind a series.
enum SearchStep {
    // The series has a move to make, and none running.
    Free,
    // It has none to make, or has one running. The number is that of the first running one, if there was one.
    On(Option<u32>),
}

// Looks at a series that so many partitions are to move of, whose move of this number runs, if one does.
fn look(parts: usize, number: Option<u32>, first: Option<u32>) -> SearchStep
    ensures { IsSearchStep parts number first result }
{
    if parts == 0 {
        return SearchStep::On(first);
    }
    match number {
        None => SearchStep::Free,
        Some(number) => SearchStep::On(Some(first.unwrap_or(number))),
    }
}

// What the search ends with that has met no series that is free.
fn answer(first: Option<u32>) -> ToMove
    ensures { result ≡ answer first }
{
    match first {
        Some(number) => ToMove::Running { number },
        None => ToMove::Nothing,
    }
}
