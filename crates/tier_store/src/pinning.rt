// The pinning of a variable's files for a query.
ghost use Rattle.std.specs.Prelude.{◌≡◌, ◌<◌, ◌++◌, ◌∷◌, [], ℕ, List, All, Ok, length, map, filter, IfOk, OnOk, OnErr};
ghost use Rattle.std.specs.Prelude.{IfErr};
ghost use Rattle.std.specs.List.{flat_map};
ghost use Rattle.act_model.specs.declared.acts.Answer.TheVariants.{NoSuchVariable};
ghost use Rattle.disk_model.specs.declared.disk.DiskErr.TheVariants.{Memory};
ghost use Rattle.pins.specs.Choosing.{IsChoice};
ghost use Rattle.pins.specs.declared.choosing.Listed.{Listed as ListedValue};
ghost use Rattle.pv_catalog.specs.Rows.{HasName};
ghost use Rattle.durable_write.specs.Ends.{IsCut};
ghost use Rattle.tier_store.specs.Stores.{Stores};
ghost use Rattle.tier_store.specs.Seen.{seen};
ghost use Rattle.tier_store.specs.Change.{Has};
ghost use Rattle.tier_store.specs.Opening.{end_of_answer};
ghost use Rattle.tier_store.specs.Pinned.{seen_all, PinsStand};
ghost use Rattle.tier_store.specs.Pinning.{HasNoName, PinsOf, SaysPinned, files_to, listed_in, has_bytes, piece_of};
ghost use Rattle.tier_store.specs.Telling.{SaysOf};

use crate::TierStore;
use crate::opening_pieces::told;
use act_model::Answer;
use disk_model::{Disk, DiskErr};
use durable_write::file_name;
use pb_messages::About;
use pins::{Choice, Listed, PinnedFile};
use pv_catalog::Row;
use series_model::{Query, Sample, Samples};
use std::alloc::{AllocError, Global};
use store_manifest::Manifest;

// Up to which moment files are needed: to the end of the interval, or with no end where the tail begins no later than
// that. The tail stands over all files, so one behind the interval might keep such samples of it out. An archive's tail
// is later than all that is listed, and then there is no such file.
fn needed_to(query: Query, tail: &[Sample]) -> Option<u64>
    ensures { result ≡ files_to query tail.now }
{
    match tail.first() {
        Some(sample) if sample.t <= query.from || sample.t <= query.to => None,
        _ => Some(query.to),
    }
}

// Tells a choice what is listed of a row, behind what was told.
fn add_row(choice: &mut Choice, manifests: &[Manifest], row: u32) -> Result<(), AllocError>
    requires three { length manifests.now ≡ 3 }

    ensures chosen { (told : List ListedValue) → IsChoice told choice.old
        → OnOk result (IsChoice (told ++ listed_in row manifests.now) choice.new) }
    ensures from { choice.new.from ≡ choice.old.from }
    ensures to { choice.new.to ≡ choice.old.to }
{
    choice.add(3, manifests[2].entries(row))?;
    choice.add(2, manifests[1].entries(row))?;
    choice.add(1, manifests[0].entries(row))
}

// Of what is listed of these rows, one after another, the files that an answer needs over which the tail stands.
fn chosen(
    alloc: Global,
    manifests: &[Manifest],
    rows: &[u32],
    query: Query,
    tail: &[Sample],
) -> Result<Choice, AllocError>
    requires three { length manifests.now ≡ 3 }

    ensures told { IfOk result (IsChoice (flat_map (λ (k : ℕ). listed_in k manifests.now) rows.now)) }
    ensures from { IfOk result (λ choice. choice.from ≡ query.from) }
    ensures to { IfOk result (λ choice. choice.to ≡ files_to query tail.now) }
{
    let mut choice = Choice::new(alloc, query.from, needed_to(query, tail));
    for row in rows {
        add_row(&mut choice, manifests, *row)?;
    }
    Ok(choice)
}

// The same of another value.
pub(crate) fn copied(about: &About) -> Result<About, AllocError>
    ensures { IfOk result (λ copy. copy ≡ about.now) }
{
    about.clone()
}

// What is pinned of a file.
fn piece(alloc: Global, rows: &[Row], file: &Listed) -> Result<PinnedFile, AllocError>
    requires row { file.now.entry.series < length rows.now }
    ensures { IfOk result (λ piece. piece ≡ piece_of rows.now file.now) }
{
    Ok(PinnedFile {
        name: file_name(alloc, file.store, rows, &file.entry)?,
        head_len: u64::from(file.entry.head_len),
        len: file.entry.len,
    })
}

// Pins what is listed of a file, if there is anything.
fn add_piece(
    alloc: Global,
    rows: &[Row],
    file: &Listed,
    pieces: &mut Vec<PinnedFile>,
) -> Result<(), AllocError>
    requires row { file.now.entry.series < length rows.now }
    ensures none { file.now.entry.len ≡ 0 → OnOk result (pieces.new.items ≡ pieces.old.items) }
    ensures some { 0 < file.now.entry.len
        → OnOk result (pieces.new.items ≡ pieces.old.items ++ piece_of rows.now file.now ∷ []) }
{
    if file.entry.len == 0 {
        return Ok(());
    }
    pieces.push(piece(alloc, rows, file)?)?;
    Ok(())
}

// What is pinned of these files.
fn pieces_of(alloc: Global, rows: &[Row], files: &[Listed]) -> Result<Vec<PinnedFile>, AllocError>
    requires rows { All (λ (l : ListedValue). l.entry.series < length rows.now) files.now }
    ensures { IfOk result (λ pieces. pieces.items ≡ map (piece_of rows.now) (filter has_bytes files.now)) }
{
    let mut pieces = Vec::with_capacity(alloc, files.len())?;
    for file in files {
        add_piece(alloc, rows, file, &mut pieces)?;
    }
    Ok(pieces)
}

impl<D: Disk> TierStore<D> {
    // Pins the files of the variable that a row stands for. So many that one had no number of 32 bits
    // are more than can be kept.
    fn pin_row(
        &mut self,
        who: u64,
        row: u32,
        query: Query,
        tail: Samples,
    ) -> Result<Answer<D::Reader>, AllocError>
        requires row { row < length self.old.catalogue.rows }
        requires three { length self.old.manifests.items ≡ 3 }

        ensures pinned { (name : List ℕ) → HasName self.old.catalogue.rows row name
            → IfOk result (PinsOf self.old.catalogue.rows self.old.manifests.items who name
            query tail self.old.pinned self.new.pinned) }
        ensures unchanged { OnErr result (self.new.pinned ≡ self.old.pinned) }
        ensures same { (self.new.catalogue ≡ self.old.catalogue)
            × (self.new.manifests ≡ self.old.manifests)
            × (self.new.disk ≡ self.old.disk) }
        ensures limbo { self.new.limbo ≡ self.old.limbo }
    {
        let rows = self.catalogue.rows();
        let found = &rows[row as usize];
        let name = found.name.clone()?;
        let about = copied(&found.about)?;
        let line = self.catalogue.line(self.alloc, row)?;
        let choice = chosen(self.alloc, &self.manifests, &line, query, tail.items())?;
        let opened = choice.opened();
        if opened.len() > u32::MAX as usize {
            return Err(AllocError);
        }
        let pieces = pieces_of(self.alloc, rows, opened)?;
        let count = pieces.len() as u64;
        let pin = self.pinned.pin(who, pieces)?;
        Ok(Answer::Pinned {
            pin,
            name,
            about,
            pieces: count,
            tail,
        })
    }

    // Pins the files of the row that has the name, if one has it.
    fn pin_named(
        &mut self,
        who: u64,
        name: &[u8],
        query: Query,
        tail: Samples,
    ) -> Result<Answer<D::Reader>, DiskErr>
        requires three { length self.old.manifests.items ≡ 3 }

        ensures pinned { IfOk result (PinsOf self.old.catalogue.rows self.old.manifests.items who name.now
            query tail self.old.pinned self.new.pinned) }
        ensures unknown { HasNoName self.old.catalogue.rows name.now
            → (result ≡ Ok NoSuchVariable) × (self.new ≡ self.old) }
        ensures memory { IfErr result (λ e. (e ≡ Memory) × (self.new.pinned ≡ self.old.pinned)) }
        ensures same { (self.new.catalogue ≡ self.old.catalogue)
            × (self.new.manifests ≡ self.old.manifests)
            × (self.new.disk ≡ self.old.disk) }
        ensures limbo { self.new.limbo ≡ self.old.limbo }
    {
        let Some(row) = self.catalogue.find(name) else {
            return Ok(Answer::NoSuchVariable);
        };
        let answer = self.pin_row(who, row, query, tail)?;
        Ok(answer)
    }

    /// Pins the files of a variable that its samples of an interval need, as long as they are listed now, for an
    /// owner: under the least number that no pin has. These are files of the row that has the name and of its bases,
    /// those of the first base first. It tells how many they are; `tail` is told with them, and stands for the
    /// samples that no store lists yet. The files, read in the order in which they are pinned, and the tail over them
    /// answer the query as all samples do. Where the tail is empty or begins later than both ends of the interval,
    /// the last files stay closed, as many as begin so late. A file of which no byte is listed, as only damaged
    /// stores have one, isn't pinned.
    ///
    /// It needs that nothing stands in doubt, as after `review`, and calls no disk. `NoSuchVariable` comes exactly
    /// where no row has the name, and else only want of memory is answered in place of `Pinned`, as it is where the
    /// files are 2^32 or more; the pins are as they were after both.
    pub fn pin(&mut self, who: u64, name: &[u8], query: Query, tail: Samples) -> Answer<D::Reader>
        requires has { (held : Stores) × Has D.tells (seen D.Disk self.old) held }

        ensures says { (held : Stores) → Has D.tells (seen D.Disk self.old) held
            → SaysOf (SaysPinned who name.now query tail self.old.pinned self.new.pinned) (end_of_answer result) held }
        ensures unknown { HasNoName self.old.catalogue.rows name.now
            → (result ≡ NoSuchVariable) × (self.new ≡ self.old) }
        ensures unchanged { IsCut (end_of_answer result) → self.new.pinned ≡ self.old.pinned }
        ensures same { (self.new.catalogue ≡ self.old.catalogue)
            × (self.new.manifests ≡ self.old.manifests)
            × (self.new.disk ≡ self.old.disk) }
        ensures limbo { self.new.limbo ≡ self.old.limbo }
        ensures stand { PinsStand D.tells (seen_all D.Disk self.old) self.old.pinned
            → PinsStand D.tells (seen_all D.Disk self.new) self.new.pinned }
    {
        told(self.pin_named(who, name, query, tail))
    }
}
