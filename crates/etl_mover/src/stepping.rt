// One step of copying: some lines of a part go to the destination's file of its partition, ahead of what is listed.
ghost use Rattle.std.specs.Prelude.{◌≡◌, ◌≢◌, ◌⊎◌, ◌↔◌, ◌≤◌, ◌<◌, ◌+◌, ◌++◌, ℕ, List, Ok, None, Some, Option, length};
ghost use Rattle.std.specs.Prelude.{take, slice_get, IfOk, IfSome, OnOk, OnErr, IsErrOf, IsTrue};
ghost use Rattle.std.specs.Option.{option_copied};
ghost use Rattle.disk_model.specs.Files.{HasFile, Rose};
ghost use Rattle.gate_journal.specs.DiskShown.{shown_by, ReadsDisk};
ghost use Rattle.partition_names.specs.declared.granularity.Granularity.{Granularity};
ghost use Rattle.store_manifest.specs.declared.entry.Entry.{Entry as EntryValue};
ghost use Rattle.etl_mover.specs.declared.copying.Start.{Start as StartValue};
ghost use Rattle.etl_mover.specs.declared.moving.Copied.TheVariants.{Done};
ghost use Rattle.etl_mover.specs.declared.moving.Stage.TheVariants.{Copying};
ghost use Rattle.etl_mover.specs.Copying.{SetsLast};
ghost use Rattle.etl_mover.specs.Move.{IsMove};
ghost use Rattle.etl_mover.specs.Reading.{most_copied};
ghost use Rattle.etl_mover.specs.Step.{GoesTo, GoesNowhere, IsPlacedOrNot, CanRevive, CanCopy, IsLongUnopened, Takes};
ghost use Rattle.etl_mover.specs.Step.{Advances, Copies, CopiesPart, SetsPart, between, finished, source_file};
ghost use Rattle.etl_mover.specs.Step.{target_file, with_pending};
ghost use Rattle.etl_mover.specs.Writing.{LeavesFile};

use crate::copying::{Start, set_last, take_part};
use crate::moving::{Copied, Move, file_name};
use crate::reading::{read, read_lines};
use crate::writing::write_file;
use disk_model::{Disk, DiskErr, FileName};
use partition_names::part_of;
use std::alloc::Global;
use store_manifest::Entry;

// What a step takes of a part's file: the header's line, lines of samples, and the entry of the
// destination's file with these.
#[derive(Drop)]
struct Load {
    head: Vec<u8>,
    lines: Vec<u8>,
    entry: Entry,
}

// Reads what a step takes at a place of a part's file, of which so many bytes count.
fn read_part<D: Disk>(
    alloc: Global,
    disk: &mut D,
    name: &FileName,
    part: &Entry,
    entry: &Entry,
    from: u64,
    len: u64,
) -> Result<Load, DiskErr>
    requires some { from < len }
    requires head { part.now.head_len ≤ len }
    requires there { IsTrue D.tells → HasFile (D.files disk.old) name.now (λ b. len ≤ length b) }
    ensures takes { IsTrue D.tells → (b : List ℕ) → D.files disk.old name.now ≡ Some b
        → IfOk result (λ l. (l.head.items ≡ take part.now.head_len b)
        × Takes (take part.now.head_len b) (between from len b) most_copied l.lines.items entry.now l.entry) }
    ensures keeps { IfOk result (λ l. (l.entry.part ≡ entry.now.part) × (l.entry.series ≡ entry.now.series)
        × (l.entry.len ≡ entry.now.len + length l.lines.items)) }
    ensures reads { IsTrue D.tells → ReadsDisk (shown_by D.Disk disk.old) (shown_by D.Disk disk.new) }
    ensures faults { D.faults disk.old ≤ D.faults disk.new }
    ensures cause { IsErrOf result DiskErr.Fault → Rose (D.faults disk.old) (D.faults disk.new) }
{
    let head = read(alloc, disk, name, 0, part.head_len as usize)?;
    let mut lines = read_lines(alloc, disk, name, from, len - from)?;
    let entry = take_part(alloc, &head, &mut lines, entry)?;
    Ok(Load { head, lines, entry })
}

impl Move {
    // The part that is copied next.
    fn next_part(&self) -> Option<Entry>
        ensures { result ≡ slice_get self.now.parts self.now.at }
    {
        self.at().copied()
    }

    // Where the lines of the part that is copied next go. `None` where the destination ends behind that.
    fn next_start(&self, part: &Entry, revived: Option<Entry>) -> Option<Start>
        requires next { slice_get self.now.parts self.now.at ≡ Some part.now }
        requires running { (fine : Granularity) × IsMove fine self.now }
        ensures goes { IfSome result (GoesTo self.now revived part.now) }
        ensures nowhere { result ≡ None → (p : EntryValue) (start : StartValue) → GoesTo self.now revived p start → ⊥ }
        ensures ends { result ≡ None → GoesNowhere self.now revived part.now }
    {
        let Some(to) = part_of(self.granularity, part.part.start) else {
            unreachable!();
        };
        self.start(part.head_len, &to, revived)
    }

    // The same, and `None` too where no line of the part is left.
    fn left(&self, part: &Entry, revived: Option<Entry>, from: u64, len: u64) -> Option<Start>
        requires next { slice_get self.now.parts self.now.at ≡ Some part.now }
        requires running { (fine : Granularity) × IsMove fine self.now }
        requires within { from ≤ len }
        ensures goes { IfSome result (GoesTo self.now revived part.now) }
        ensures some { IfSome result (λ start. from < len) }
        ensures none { result ≡ None
            → (from ≡ len) ⊎ ((p : EntryValue) (start : StartValue) → GoesTo self.now revived p start → ⊥) }
        ensures ends { result ≡ None → (from ≡ len) ⊎ GoesNowhere self.now revived part.now }
    {
        if from == len {
            return None;
        }
        self.next_start(part, revived)
    }

    // The part that is copied next is copied up to its listed length.
    fn finish(&mut self, part: &Entry, len: u64) -> Copied
        requires next { slice_get self.old.parts self.old.at ≡ Some part.now }
        ensures finished { self.new ≡ finished self.old part.now len }
        ensures done { (result ≡ Done) ↔ (self.new.at ≡ length self.new.parts) }
    {
        self.parts[self.at] = Entry { len, ..*part };
        self.at += 1;
        if self.at == self.parts.len() {
            Copied::Done
        } else {
            Copied::More
        }
    }

    // Copies lines of a part from a place on, and answers how many bytes they are.
    fn copy_lines<D: Disk>(
        &mut self,
        disk: &mut D,
        part: &Entry,
        start: &Start,
        from: u64,
        len: u64,
    ) -> Result<u64, DiskErr>
        requires some { from < len }
        requires head { part.now.head_len ≤ len }
        requires there { IsTrue D.tells
            → HasFile (D.files disk.old) (source_file self.old part.now) (λ b. len ≤ length b) }
        requires room { IsTrue D.tells → (n : ℕ) → start.now.at ≡ Some n
            → IsLongUnopened n (target_file self.old start.now) (D.files disk.old) (D.opened disk.old) }
        ensures copies { IsTrue D.tells → (b : List ℕ) → D.files disk.old (source_file self.old part.now) ≡ Some b
            → IfOk result (λ n. (lines : List ℕ) × (length lines ≡ n)
            × Copies (target_file self.old start.now) start.now part.now from len most_copied b self.old.pending
            self.new.pending (D.files disk.old) (shown_by D.Disk disk.new) lines) }
        ensures leaves { IsTrue D.tells → LeavesFile (target_file self.old start.now) start.now.at
            (shown_by D.Disk disk.old) (shown_by D.Disk disk.new) }
        ensures sets { OnOk result (SetsPart self.old start.now self.new.pending) }
        ensures moves { self.new ≡ with_pending self.old self.new.pending }
        ensures unchanged { OnErr result (self.new ≡ self.old) }
        ensures faults { D.faults disk.old ≤ D.faults disk.new }
        ensures cause { IsErrOf result DiskErr.Fault → Rose (D.faults disk.old) (D.faults disk.new) }
    {
        let source = file_name(self.alloc, self.source, &self.name, part)?;
        let load = read_part(self.alloc, disk, &source, part, &start.entry, from, len)?;
        if load.lines.is_empty() {
            return Ok(0);
        }
        let target = file_name(self.alloc, self.destination, &self.name, &start.entry)?;
        self.pending.reserve(1)?;
        write_file(disk, &target, start.at, &load.head, &load.lines)?;
        set_last(&mut self.pending, load.entry);
        Ok(load.lines.len() as u64)
    }

    // Copies lines of a part, and finishes it where these are the last.
    fn copy_part<D: Disk>(
        &mut self,
        disk: &mut D,
        part: &Entry,
        start: &Start,
        from: u64,
        len: u64,
    ) -> Result<Copied, DiskErr>
        requires some { from < len }
        requires head { part.now.head_len ≤ len }
        requires next { slice_get self.old.parts self.old.at ≡ Some part.now }
        requires there { IsTrue D.tells
            → HasFile (D.files disk.old) (source_file self.old part.now) (λ b. len ≤ length b) }
        requires room { IsTrue D.tells → (n : ℕ) → start.now.at ≡ Some n
            → IsLongUnopened n (target_file self.old start.now) (D.files disk.old) (D.opened disk.old) }
        ensures copies { IsTrue D.tells → (b : List ℕ) → D.files disk.old (source_file self.old part.now) ≡ Some b
            → OnOk result (CopiesPart self.old self.new start.now part.now from len most_copied b (D.files disk.old)
            (shown_by D.Disk disk.new)) }
        ensures leaves { IsTrue D.tells → LeavesFile (target_file self.old start.now) start.now.at
            (shown_by D.Disk disk.old) (shown_by D.Disk disk.new) }
        ensures advances { (revived : Option EntryValue) → GoesTo self.old revived part.now start.now
            → OnOk result (Advances self.old self.new revived len) }
        ensures done { IfOk result (λ copied. (copied ≡ Done) ↔ (self.new.at ≡ length self.new.parts)) }
        ensures unchanged { OnErr result (self.new ≡ self.old) }
        ensures faults { D.faults disk.old ≤ D.faults disk.new }
        ensures cause { IsErrOf result DiskErr.Fault → Rose (D.faults disk.old) (D.faults disk.new) }
    {
        let copied = self.copy_lines(disk, part, start, from, len)?;
        if copied < len - from {
            return Ok(Copied::More);
        }
        Ok(self.finish(part, len))
    }

    // Copies lines of the part that is copied next, and finishes it where none is left then.
    fn copy_next<D: Disk>(
        &mut self,
        disk: &mut D,
        part: &Entry,
        from: u64,
        len: u64,
        revived: Option<Entry>,
    ) -> Result<Copied, DiskErr>
        requires next { slice_get self.old.parts self.old.at ≡ Some part.now }
        requires running { (fine : Granularity) × IsMove fine self.old }
        requires within { from ≤ len }
        requires head { part.now.head_len ≤ len }
        requires revived { IfSome revived (CanRevive self.old) }
        requires can { IsTrue D.tells → CanCopy self.old revived len (D.files disk.old) (D.opened disk.old) }
        ensures copies { IsTrue D.tells → (p : EntryValue) (start : StartValue) (b : List ℕ)
            → GoesTo self.old revived p start → D.files disk.old (source_file self.old p) ≡ Some b
            → OnOk result (CopiesPart self.old self.new start p from len most_copied b (D.files disk.old)
            (shown_by D.Disk disk.new)) }
        ensures leaves { IsTrue D.tells → (p : EntryValue) (start : StartValue) → GoesTo self.old revived p start
            → LeavesFile (target_file self.old start) start.at (shown_by D.Disk disk.old) (shown_by D.Disk disk.new) }
        ensures nowhere { IsTrue D.tells → ((p : EntryValue) (start : StartValue) → GoesTo self.old revived p start → ⊥)
            → ReadsDisk (shown_by D.Disk disk.old) (shown_by D.Disk disk.new) }
        ensures either { from < len → IsPlacedOrNot self.old revived part.now }
        ensures running { (fine : Granularity) → IsMove fine self.old → IsMove fine self.new }
        ensures advances { OnOk result (Advances self.old self.new revived len) }
        ensures done { IfOk result (λ copied. (copied ≡ Done) ↔ (self.new.at ≡ length self.new.parts)) }
        ensures unchanged { OnErr result (self.new ≡ self.old) }
        ensures faults { D.faults disk.old ≤ D.faults disk.new }
        ensures cause { IsErrOf result DiskErr.Fault → Rose (D.faults disk.old) (D.faults disk.new) }
    {
        match self.left(part, revived, from, len) {
            Some(start) => self.copy_part(disk, part, &start, from, len),
            None => Ok(self.finish(part, len)),
        }
    }

    /// Passes the next part, which has `len` bytes, none of them left to copy: by `len` the part is copied.
    pub fn pass(&mut self, len: u64)
        requires running { (fine : Granularity) × IsMove fine self.old }
        requires left { self.old.at ≢ length self.old.parts }
        ensures passed { (part : EntryValue) → slice_get self.old.parts self.old.at ≡ Some part
            → self.new ≡ finished self.old part len }
        ensures running { (fine : Granularity) → IsMove fine self.old → IsMove fine self.new }
    {
        if let Some(part) = self.next_part() {
            self.finish(&part, len);
        }
    }

    /// Goes back to a part that was passed: it and those behind it are left to copy again.
    pub fn go_back(&mut self, at: usize)
        requires { at ≤ self.old.at }
        ensures { self.new ≡ record self.old { at = at } }
    {
        self.at = at;
    }

    /// Copies lines of the next part to the destination's file of its partition, behind all that is listed there and is
    /// to be: from a place of the part's file on, of which the source lists `len` bytes. They are at most 1,048,576
    /// bytes, or one line. A file that the destination doesn't list begins with the source's header's line, or goes on
    /// from the old entry of it that is `revived`. Lines are copied as long as they are samples of the header's type
    /// and year; what they tell is the caller's to judge.
    ///
    /// A crash at any moment and reads leave each name as it was, but for what stands in that one file behind what is
    /// listed, and behind what was copied before. After an error the move is as it was. `Fault` comes only where the
    /// disk's count of faults rose in the call.
    pub fn copy<D: Disk>(
        &mut self,
        disk: &mut D,
        from: u64,
        len: u64,
        revived: Option<&Entry>,
    ) -> Result<Copied, DiskErr>
        requires running { (fine : Granularity) × IsMove fine self.old }
        requires stage { self.old.stage ≡ Copying }
        requires within { from ≤ len }
        requires head { (part : EntryValue) → slice_get self.old.parts self.old.at ≡ Some part → part.head_len ≤ len }
        requires revived { IfSome (option_copied revived) (CanRevive self.old) }
        requires can { IsTrue D.tells
            → CanCopy self.old (option_copied revived) len (D.files disk.old) (D.opened disk.old) }

        ensures copies { IsTrue D.tells → (part : EntryValue) (start : StartValue) (b : List ℕ)
            → GoesTo self.old (option_copied revived.entry) part start
            → D.files disk.old (source_file self.old part) ≡ Some b
            → OnOk result (CopiesPart self.old self.new start part from len most_copied b (D.files disk.old)
            (shown_by D.Disk disk.new)) }
        ensures leaves { IsTrue D.tells → (part : EntryValue) (start : StartValue)
            → GoesTo self.old (option_copied revived.entry) part start
            → LeavesFile (target_file self.old start) start.at (shown_by D.Disk disk.old) (shown_by D.Disk disk.new) }
        ensures nowhere { IsTrue D.tells → ((part : EntryValue) (start : StartValue)
            → GoesTo self.old (option_copied revived.entry) part start → ⊥)
            → ReadsDisk (shown_by D.Disk disk.old) (shown_by D.Disk disk.new) }
        ensures either { (part : EntryValue) → slice_get self.old.parts self.old.at ≡ Some part → from < len
            → IsPlacedOrNot self.old (option_copied revived.entry) part }
        ensures running { (fine : Granularity) → IsMove fine self.old → IsMove fine self.new }
        ensures advances { OnOk result (Advances self.old self.new (option_copied revived.entry) len) }
        ensures done { IfOk result (λ copied. (copied ≡ Done) ↔ (self.new.at ≡ length self.new.parts)) }
        ensures unchanged { OnErr result (self.new ≡ self.old) }
        ensures faults { D.faults disk.old ≤ D.faults disk.new }
        ensures cause { IsErrOf result DiskErr.Fault → Rose (D.faults disk.old) (D.faults disk.new) }
    {
        let Some(part) = self.next_part() else {
            return Ok(Copied::Done);
        };
        self.copy_next(disk, &part, from, len, revived.copied())
    }
}
