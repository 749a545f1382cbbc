// The batches of a file, folded to a granularity and entries, one after another.
ghost use Rattle.std.specs.Prelude.{◌≡◌, ◌≢◌, ◌↔◌, ◌<◌, ◌++◌, ◌∷◌, [], List, ℕ, IfOk, IfSome, IfNone, IsTrue, Some};
ghost use Rattle.std.specs.Prelude.{false, length};
ghost use Rattle.partition_names.specs.declared.granularity.Granularity.{Granularity as GranularityValue};
ghost use Rattle.store_manifest.specs.declared.entry.Entry.{Entry};
ghost use Rattle.store_manifest.specs.Batches.{config, Makes, IsBatch, OnlySets};
ghost use Rattle.store_manifest.specs.Folded.{IsFolded};
ghost use Rattle.store_manifest.specs.Listing.{entries_of, AreLists};

use crate::Change;
use crate::lists::SeriesLists;
use crate::reading::read_change;
use gate_journal::BatchFold;
use partition_names::Granularity;
use std::alloc::{AllocError, Global};
use std::mem;

// What the batches so far were read as.
#[derive(Drop)]
pub(crate) enum Folded {
    Nothing,
    Good(Granularity, SeriesLists),
    Bad(u64),
}

#[derive(Drop)]
pub(crate) struct Folding {
    alloc: Global,
    pub(crate) folded: Folded,
}

impl Folding {
    pub(crate) fn new(alloc: Global) -> Folding
        ensures { IsFolded [] result.folded }
    {
        Folding {
            alloc,
            folded: Folded::Nothing,
        }
    }
}

impl BatchFold for Folding {
    ghost took = { λ f batches. IsFolded batches f.folded };

    fn take(&mut self, number: u64, batch: &[u8]) -> Result<(), AllocError> {
        let folded = mem::replace(&mut self.folded, Folded::Nothing);
        self.folded = followed(self.alloc, folded, number, batch)?;
        Ok(())
    }
}

// What batches come to with one more, which is of this number.
fn followed(alloc: Global, folded: Folded, number: u64, batch: &[u8]) -> Result<Folded, AllocError>
    requires { (batches : List (List ℕ)) × IsFolded batches folded × (number ≡ length batches) }
    ensures { (batches : List (List ℕ)) → IsFolded batches folded → number ≡ length batches
        → IfOk result (IsFolded (batches ++ batch.now ∷ [])) }
{
    match folded {
        Folded::Nothing => begun(alloc, number, batch),
        Folded::Good(g, mut lists) => {
            if make_batch(&mut lists, g, batch)? {
                return Ok(Folded::Good(g, lists));
            }
            Ok(Folded::Bad(number))
        }
        Folded::Bad(first) => Ok(Folded::Bad(first)),
    }
}

// What a first batch comes to.
fn begun(alloc: Global, number: u64, batch: &[u8]) -> Result<Folded, AllocError>
    ensures { (batches : List (List ℕ)) → batches ≡ [] → number ≡ length batches
        → IfOk result (IsFolded (batches ++ batch.now ∷ [])) }
{
    let Some((g, rest)) = config_of(batch) else {
        return Ok(Folded::Bad(number));
    };
    let mut lists = SeriesLists::new(alloc);
    if make_sets(&mut lists, g, rest)? {
        return Ok(Folded::Good(g, lists));
    }
    Ok(Folded::Bad(number))
}

// The granularity that stands at the front of a batch, and the bytes behind it.
fn config_of(batch: &[u8]) -> Option<(Granularity, &[u8])>
    ensures some { IfSome result (λ r. batch.now ≡ config r.0 ++ r.1.now) }
    ensures none { IfNone result ((g : GranularityValue) (rest : List ℕ) → batch.now ≡ config g ++ rest → ⊥) }
{
    match batch {
        [1, number, rest @ ..] => {
            let g = Granularity::of_number(*number)?;
            Some((g, rest))
        }
        _ => None,
    }
}

// Sets the entry at the front of a first batch's bytes, and gives the bytes behind it. None if no entry
// that is set stands there.
fn make_set<'a>(
    lists: &mut SeriesLists,
    g: Granularity,
    bytes: &'a [u8],
) -> Result<Option<&'a [u8]>, AllocError>
    requires good { AreLists lists.old.listed.entries }
    requires some { bytes.now ≢ [] }
    ensures good { AreLists lists.new.listed.entries }
    ensures made { IfOk result (λ r. IfSome r (λ rest. (last : List Entry)
        → OnlySets g (entries_of lists.new.listed.entries) rest.now last
        ↔ OnlySets g (entries_of lists.old.listed.entries) bytes.now last)) }
    ensures shorter { IfOk result (λ r. IfSome r (λ rest. length rest.now < length bytes.now)) }
    ensures none { IfOk result (λ r.
        IfNone r ((last : List Entry) → OnlySets g (entries_of lists.old.listed.entries) bytes.now last → ⊥)) }
{
    let Some((change, rest)) = read_change(g, bytes) else {
        return Ok(None);
    };
    let Change::Set(_) = change else {
        return Ok(None);
    };
    lists.change(&change)?;
    Ok(Some(rest))
}

// Sets the entries of a first batch. False if its bytes aren't entries that are set.
fn make_sets(lists: &mut SeriesLists, g: Granularity, bytes: &[u8]) -> Result<bool, AllocError>
    requires good { AreLists lists.old.listed.entries }
    ensures good { AreLists lists.new.listed.entries }
    ensures made { IfOk result (λ made. IsTrue made
        → OnlySets g (entries_of lists.old.listed.entries) bytes.now (entries_of lists.new.listed.entries)) }
    ensures bad { IfOk result (λ made.
        made ≡ false → (last : List Entry) → OnlySets g (entries_of lists.old.listed.entries) bytes.now last → ⊥) }
{
    let mut rest = bytes;
    while !rest.is_empty() {
        let Some(behind) = make_set(lists, g, rest)? else {
            return Ok(false);
        };
        rest = behind;
    }
    Ok(true)
}

// Makes the change at the front of a batch's bytes, and gives the bytes behind it. None if no change
// stands there that may follow.
fn make_change<'a>(
    lists: &mut SeriesLists,
    g: Granularity,
    bytes: &'a [u8],
) -> Result<Option<&'a [u8]>, AllocError>
    requires good { AreLists lists.old.listed.entries }
    requires some { bytes.now ≢ [] }
    ensures good { AreLists lists.new.listed.entries }
    ensures made { IfOk result (λ r. IfSome r (λ rest. (last : List Entry)
        → Makes g (entries_of lists.new.listed.entries) rest.now last
        ↔ Makes g (entries_of lists.old.listed.entries) bytes.now last)) }
    ensures shorter { IfOk result (λ r. IfSome r (λ rest. length rest.now < length bytes.now)) }
    ensures none { IfOk result (λ r.
        IfNone r ((last : List Entry) → Makes g (entries_of lists.old.listed.entries) bytes.now last → ⊥)) }
{
    let Some((change, rest)) = read_change(g, bytes) else {
        return Ok(None);
    };
    if !lists.allows(&change) {
        return Ok(None);
    }
    lists.change(&change)?;
    Ok(Some(rest))
}

// Makes the changes of a batch. False if it isn't a batch of changes that may follow.
fn make_batch(lists: &mut SeriesLists, g: Granularity, batch: &[u8]) -> Result<bool, AllocError>
    requires good { AreLists lists.old.listed.entries }
    ensures good { AreLists lists.new.listed.entries }
    ensures made { IfOk result (λ made. IsTrue made
        → IsBatch g (entries_of lists.old.listed.entries) batch.now (entries_of lists.new.listed.entries)) }
    ensures bad { IfOk result (λ made.
        made ≡ false → (last : List Entry) → IsBatch g (entries_of lists.old.listed.entries) batch.now last → ⊥) }
{
    if batch.is_empty() {
        return Ok(false);
    }
    let mut rest = batch;
    while !rest.is_empty() {
        let Some(behind) = make_change(lists, g, rest)? else {
            return Ok(false);
        };
        rest = behind;
    }
    Ok(true)
}
