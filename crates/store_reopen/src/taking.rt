// Which row takes which file that no manifest lists.
ghost use Rattle.std.specs.Prelude.{◌≡◌, ◌≤◌, ◌<◌, ◌+◌, ◌*◌, ◌↔◌, ℕ, List, All, IfOk, IfSome, IsTrue, OnOk, Some};
ghost use Rattle.std.specs.Prelude.{length, slice_get};
ghost use Rattle.pv_catalog.specs.declared.row.Row.{Row as RowValue};
ghost use Rattle.store_manifest.specs.Manifest.{ManifestState};
ghost use Rattle.store_reopen.specs.Adoption.{IsSingle};
ghost use Rattle.store_reopen.specs.Finding.{IsOfPlace};
ghost use Rattle.store_reopen.specs.Listing.{AtEachTurn, turns_of};
ghost use Rattle.store_reopen.specs.Turns.{IsOfTurn, ListNone, TakesIn, TakesOf, all_taken};
ghost use Rattle.store_reopen.specs.declared.finding.TakenFile.{TakenFile as TakenValue};

use crate::finding::{TakenFile, Unlisted};
use found_files::Candidate;
use pb_messages::State;
use pb_wire::PayloadType;
use pv_catalog::{Catalogue, Row};
use std::alloc::{AllocError, Global};
use store_manifest::Manifest;

// Tells for each turn the files that it takes: turn k is that of row k / 3 and of the store at place 2 - k % 3.
pub(crate) fn by_turn(
    alloc: Global,
    catalogue: &Catalogue,
    manifests: &[Manifest],
    unlisted: Vec<Unlisted>,
) -> Result<Vec<Vec<TakenFile>>, AllocError>
    requires three { length manifests.now ≡ 3 }
    requires places { All (IsOfPlace manifests.now) unlisted.items }
    ensures count { IfOk result (λ v. length v.items ≡ 3 * length catalogue.now.rows) }
    ensures takes { IfOk result (λ v. AtEachTurn
        (λ turn taken. TakesOf manifests.now catalogue.now.rows turn unlisted.items taken) (turns_of v.items)) }
    ensures fewer { IfOk result (λ v. length (all_taken (turns_of v.items)) ≤ length unlisted.items) }
{
    let mut turns = empty_turns(alloc, 3 * catalogue.rows().len())?;
    for one in unlisted {
        take(catalogue, manifests, one, &mut turns)?;
    }
    Ok(turns)
}

// So many turns that take nothing.
fn empty_turns(alloc: Global, count: usize) -> Result<Vec<Vec<TakenFile>>, AllocError>
    ensures count { IfOk result (λ v. length v.items ≡ count) }
    ensures empty { IfOk result (λ v. AtEachTurn (λ turn taken. length taken ≡ 0) (turns_of v.items)) }
    ensures none { IfOk result (λ v. length (all_taken (turns_of v.items)) ≡ 0) }
{
    let mut turns = Vec::new(alloc);
    for _turn in 0..count {
        turns.push(Vec::new(alloc))?;
    }
    Ok(turns)
}

// Hands a file to the turn that takes it, if one does.
fn take(
    catalogue: &Catalogue,
    manifests: &[Manifest],
    one: Unlisted,
    turns: &mut Vec<Vec<TakenFile>>,
) -> Result<(), AllocError>
    requires count { length turns.old.items ≡ 3 * length catalogue.now.rows }
    requires three { length manifests.now ≡ 3 }
    requires place { IsOfPlace manifests.now one }
    ensures count { OnOk result (length turns.new.items ≡ length turns.old.items) }
    ensures one_more { OnOk result
        (length (all_taken (turns_of turns.new.items)) ≤ length (all_taken (turns_of turns.old.items)) + 1) }
    ensures takes { OnOk result
        ((turn : ℕ) (old new : List TakenValue) → slice_get (turns_of turns.old.items) turn ≡ Some old
        → slice_get (turns_of turns.new.items) turn ≡ Some new
        → TakesIn manifests.now catalogue.now.rows turn one old new) }
{
    let Unlisted {
        place,
        file,
        candidate,
    } = one;
    let Some(candidate) = candidate else {
        return Ok(());
    };
    let Some(turn) = turn_of(catalogue, manifests, place, &candidate) else {
        return Ok(());
    };
    turns[turn].push(TakenFile { file, candidate })?;
    Ok(())
}

// The turn that takes a candidate of the store at this place.
fn turn_of(
    catalogue: &Catalogue,
    manifests: &[Manifest],
    place: u8,
    candidate: &Candidate,
) -> Option<usize>
    requires place { place < length manifests.now }
    requires three { length manifests.now ≡ 3 }
    ensures takes { IfSome result (λ turn. (turn < 3 * length catalogue.now.rows)
        × IsOfTurn manifests.now catalogue.now.rows turn place candidate.now) }
    ensures only { (turn : ℕ) → IsOfTurn manifests.now catalogue.now.rows turn place candidate.now
        → result ≡ Some turn }
{
    let row = catalogue.find(candidate.name.bytes())?;
    let found = &catalogue.rows()[row as usize];
    if !is_type(candidate.front.info.ty, found.about.ty) {
        return None;
    }
    if !is_single(found) {
        return None;
    }
    if !list_none(manifests, place, row) {
        return None;
    }
    Some(3 * row as usize + usize::from(2 - place))
}

fn is_type(ty: PayloadType, other: PayloadType) -> bool
    ensures { IsTrue result ↔ (ty ≡ other) }
{
    ty == other
}

// Whether a row's variable was never renamed.
fn is_single(row: &Row) -> bool
    ensures { IsTrue result ↔ IsSingle row.now }
{
    row.base.is_none() && row.state != State::Retired
}

// Whether no manifest at this place and before it lists a file of a row.
fn list_none(manifests: &[Manifest], place: u8, row: u32) -> bool
    requires { place < length manifests.now }
    ensures { IsTrue result ↔ ListNone place row manifests.now }
{
    for at in 0..usize::from(place) + 1 {
        if !manifests[at].entries(row).is_empty() {
            return false;
        }
    }
    true
}
