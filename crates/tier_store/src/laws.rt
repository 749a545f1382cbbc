//! What follows from holding, for all images and stores.
ghost use Rattle.std.specs.Prelude.{◌≡◌, ◌⊎◌, ◌<◌, ◌≤◌, ◌+◌, ◌++◌, ℕ, Bool, List, [], map, length, slice_get, take};
ghost use Rattle.std.specs.Prelude.{None, Some, true, false, All, Contains, IsTrue};
ghost use Rattle.disk_model.specs.Files.{Files, Name};
ghost use Rattle.disk_model.specs.Past.{MayLeave, Passes};
ghost use Rattle.etl_mover.specs.Copying.{last_of};
ghost use Rattle.etl_mover.specs.Move.{HasBegun, IsMove, Moving, StillLists};
ghost use Rattle.etl_mover.specs.Step.{GoesTo, Takes, between};
ghost use Rattle.partition_names.specs.declared.granularity.Granularity.{Granularity};
ghost use Rattle.pv_catalog.specs.Catalogue.{CatalogueState};
ghost use Rattle.pv_catalog.specs.declared.row.Row.{Row};
ghost use Rattle.series_model.specs.Series.{IsRising};
ghost use Rattle.series_model.specs.declared.batch.RowSamples.{RowSamples};
ghost use Rattle.store_manifest.specs.Manifest.{ManifestState};
ghost use Rattle.store_manifest.specs.declared.entry.Entry.{Entry};
ghost use Rattle.durable_write.specs.Ahead.{drop_of, without_all};
ghost use Rattle.durable_write.specs.Ends.{End};
ghost use Rattle.durable_write.specs.Flush.{put_all, with_batch};
ghost use Rattle.durable_write.specs.Held.{Filed, Held, entry_of, samples_of};
ghost use Rattle.durable_write.specs.Plan.{IsLastOf};
ghost use Rattle.durable_write.specs.Stored.{AreHeld};
ghost use Rattle.tier_store.specs.Stores.{Stores, list_at, samples_in, whole_in, with_list};
ghost use Rattle.tier_store.specs.Seen.{seen_by, AtEach, granularities};
ghost use Rattle.tier_store.specs.Stored.{HoldsAll};
ghost use Rattle.std.specs.FinMap.{FinMap, empty, remove};
ghost use Rattle.std.specs.Ordering.{nat_cmp};
ghost use Rattle.pins.specs.Pieces.{PinOf};
ghost use Rattle.pv_catalog.specs.Rows.{AreRows, KeepsRows};
ghost use Rattle.tier_store.specs.Copied.{IsPartFile, WritesNext, end_after};
ghost use Rattle.tier_store.specs.Copying.{CopiesBeside, KnowsHeads};
ghost use Rattle.tier_store.specs.Finding.{SplitsAt};
ghost use Rattle.tier_store.specs.Retiring.{oldest};
ghost use Rattle.tier_store.specs.Limbo.{LimboStands, LeavesKept};
ghost use Rattle.tier_store.specs.Moving.{GoesBeside, LeavesNames, RunsBeside, names_of};
ghost use Rattle.tier_store.specs.Pinned.{seen_all_by, NoneOf, PinsStand, KeepsShown};
ghost use Rattle.tier_store.specs.declared.limbo.Retired.{Retired};
ghost use Rattle.tier_store.specs.Change.{IsKnown, Has, HasEither, IsOpen, Changes, Flushes, Renames, CanList};
ghost use Rattle.tier_store.specs.Change.{flushing, SameFiles};
ghost use Rattle.tier_store.specs.Given.{ChangesGiven};
ghost use Rattle.tier_store.specs.Revival.{AreWhole, FlushesOver, flushing_over, revived, fresh};

use disk_model::Disk;

/// An image holds one thing at most of three stores that stand, whatever the granularities: the rows, and in each store
/// of each listed file the entry, the header's line and the samples.
pub fn one_image_holds_one_thing()
    ensures { (gs hs : List Granularity) (image : Files) (a b : Stores) → length gs ≡ 3 → length hs ≡ 3
        → IsTrue a.stands → IsTrue b.stands → HoldsAll gs image a → HoldsAll hs image b → a ≡ b }
{}

/// Whatever a crash leaves of the stores holds what they hold; where a change stands in doubt, what was
/// before it or what is after it.
pub fn a_crash_leaves_what_is_held<D: Disk>()
    ensures settled { (disk : D) (catalogue : CatalogueState) (ms : List ManifestState) (held : Stores)
        (image : Files) → IsTrue D.tells → Has D.tells (seen_by D.Disk catalogue ms disk) held
        → MayLeave (D.past disk) image → HoldsAll (granularities ms) image held }
    ensures in_doubt { (disk : D) (catalogue : CatalogueState) (ms : List ManifestState) (before after : Stores)
        (image : Files) → IsTrue D.tells → IsOpen D.tells (seen_by D.Disk catalogue ms disk) before after
        → MayLeave (D.past disk) image
        → HoldsAll (granularities ms) image before ⊎ HoldsAll (granularities ms) image after }
{}

/// At most one of the four journals is in doubt.
pub fn one_journal_is_in_doubt<D: Disk>()
    ensures catalogue { (disk : D) (catalogue : CatalogueState) (ms : List ManifestState) (before after : Stores)
        → IsOpen D.tells (seen_by D.Disk catalogue ms disk) before after → catalogue.journal.sound ≡ false
        → AtEach ms (λ i m. m.journal.sound ≡ true) }
    ensures manifest { (disk : D) (catalogue : CatalogueState) (ms : List ManifestState) (before after : Stores)
        (i k : ℕ) (m n : ManifestState) → IsOpen D.tells (seen_by D.Disk catalogue ms disk) before after
        → slice_get ms i ≡ Some m → slice_get ms k ≡ Some n → m.journal.sound ≡ false → n.journal.sound ≡ false
        → i ≡ k }
{}

/// Of each row the three stores hold after a flush what they held, with the batch over it.
pub fn a_flush_adds_the_batch()
    ensures { (catalogue : CatalogueState) (ms : List ManifestState) (batch : List RowSamples) (old new : Stores)
        → IsKnown catalogue ms old → IsTrue old.stands → All (λ (p : RowSamples). IsRising p.samples) batch
        → Flushes batch old new → (row : ℕ) → samples_in row new ≡ with_batch row (samples_in row old) batch }
{}

/// A variable keeps what is held of it under its new name, and each row that was there keeps its whole.
pub fn a_rename_keeps_the_whole()
    ensures new { (catalogue : CatalogueState) (ms : List ManifestState) (row : ℕ) (name : List ℕ) (old made : Stores)
        → IsKnown catalogue ms old → IsTrue old.stands → AreRows old.rows → AreRows made.rows
        → Renames row name old made → whole_in (length old.rows) made ≡ whole_in row old }
    ensures others { (row : ℕ) (name : List ℕ) (old made : Stores) → AreRows old.rows → Renames row name old made
        → (i : ℕ) → i < length old.rows → whole_in i made ≡ whole_in i old }
{}

/// A flush puts behind what store 1 lists of a row those samples of the batch that are later than all that
/// it lists and has in limbo of the row, and between the two those of the file in limbo into whose
/// partition the first of them comes.
pub fn a_flush_revives<D: Disk>()
    ensures { (disk : D) (catalogue later : CatalogueState) (ms ns : List ManifestState) (limbo : List Retired)
        (files : List Filed) (batch : List RowSamples) (old new : Stores) → IsKnown catalogue ms old
        → IsKnown later ns new → granularities ns ≡ granularities ms → IsTrue old.stands
        → AreWhole 0 D.tells (seen_by D.Disk catalogue ms disk) limbo old.stands files
        → (by : FlushesOver limbo files batch old new) → (row : ℕ)
        → samples_of row new.short ≡ samples_of row old.short ++ (revived by.back row (fresh row (samples_of row
        (put_all old.short by.back)) batch) ++ fresh row (samples_of row (put_all old.short by.back)) batch) }
{}

/// Where no file of store 1 is in limbo nothing need be known of limbo, and a flush is one of what is listed alone.
pub fn a_flush_without_limbo<D: Disk>()
    ensures whole { (disk : D) (catalogue : CatalogueState) (ms : List ManifestState) (limbo : List Retired)
        (stands : Bool) → NoneOf 1 limbo → AreWhole 0 D.tells (seen_by D.Disk catalogue ms disk) limbo stands [] }
    ensures changes { (disk after : D) (catalogue later : CatalogueState) (ms ns : List ManifestState)
        (limbo : List Retired) (batch : List RowSamples) (end : End ℕ ⊥) → NoneOf 1 limbo
        → ChangesGiven (λ held. AreWhole 0 D.tells (seen_by D.Disk catalogue ms disk) limbo held.stands []) D.tells
        (flushing_over limbo [] batch) (seen_by D.Disk catalogue ms disk) (seen_by D.Disk later ns after) end
        → Changes D.tells (flushing batch) (seen_by D.Disk catalogue ms disk) (seen_by D.Disk later ns after) end }
{}

/// Files in limbo of each store stay whole while a doubt is settled.
pub fn limbo_is_whole<D: Disk>()
    ensures { (disk after : D) (catalogue later : CatalogueState) (ms ns : List ManifestState)
        (limbo : List Retired) (i : ℕ) (stands : Bool) (files : List Filed) (before next : Stores) → i < 3
        → IsOpen D.tells (seen_by D.Disk catalogue ms disk) before next
        → ((x y : Stores) → IsOpen D.tells (seen_by D.Disk catalogue ms disk) x y → HasEither D.tells
        (seen_by D.Disk later ns after) x y) → KeepsRows catalogue.rows later.rows
        → granularities ns ≡ granularities ms → (IsTrue D.tells → SameFiles (D.files disk) (D.files after))
        → (IsTrue D.tells → (n : Name) → D.opened after n ≤ D.opened disk n)
        → (IsTrue D.tells → Passes SameFiles (D.past disk) (D.past after))
        → AreWhole i D.tells (seen_by D.Disk catalogue ms disk) limbo stands files
        → AreWhole i D.tells (seen_by D.Disk later ns after) limbo stands files }
{}

/// Files that a store lists may be dropped from its list: what is left is as safe as it was.
pub fn listed_files_may_be_dropped<D: Disk>()
    ensures { (disk : D) (catalogue : CatalogueState) (ms : List ManifestState) (held : Stores) (i : ℕ)
        (m : ManifestState) (parts : List Filed) → Has D.tells (seen_by D.Disk catalogue ms disk) held
        → slice_get ms i ≡ Some m
        → CanList i D.tells (seen_by D.Disk catalogue ms disk) (map drop_of parts) held (without_all
        (list_at i held) parts) }
{}

/// Pieces of pins stand as they were pinned: with no pin, after a call that keeps what is shown, after a sweep,
/// and after the end of a pin.
pub fn pins_stand<D: Disk>()
    ensures none { (disk : D) (catalogue : CatalogueState) (ms : List ManifestState) (limbo : List Retired)
        → PinsStand D.tells (seen_all_by D.Disk catalogue ms limbo disk) empty }
    ensures kept { (old new : D) (catalogue later : CatalogueState) (ms ns : List ManifestState)
        (limbo left : List Retired) (pins : FinMap nat_cmp PinOf)
        → KeepsShown D.tells (seen_all_by D.Disk catalogue ms limbo old) (seen_all_by D.Disk later ns left new)
        → PinsStand D.tells (seen_all_by D.Disk catalogue ms limbo old) pins
        → PinsStand D.tells (seen_all_by D.Disk later ns left new) pins }
    ensures swept { (old new : D) (catalogue later : CatalogueState) (ms ns : List ManifestState)
        (limbo left : List Retired) (pins : FinMap nat_cmp PinOf) (copied : List Name)
        → LeavesKept D.tells pins copied (seen_all_by D.Disk catalogue ms limbo old)
        (seen_all_by D.Disk later ns left new) → PinsStand D.tells (seen_all_by D.Disk catalogue ms limbo old) pins
        → PinsStand D.tells (seen_all_by D.Disk later ns left new) pins }
    ensures fewer { (disk : D) (catalogue : CatalogueState) (ms : List ManifestState) (limbo : List Retired)
        (pins : FinMap nat_cmp PinOf) (n : ℕ) → PinsStand D.tells (seen_all_by D.Disk catalogue ms limbo disk) pins
        → PinsStand D.tells (seen_all_by D.Disk catalogue ms limbo disk) (remove pins n) }
{}

/// Files in limbo keep their rows' and partitions' names while rows go on and partitions stay as long as they are.
pub fn limbo_stands<D: Disk>()
    ensures { (old new : D) (catalogue later : CatalogueState) (ms ns : List ManifestState) (limbo : List Retired)
        → KeepsRows catalogue.rows later.rows → granularities ns ≡ granularities ms
        → LimboStands (seen_by D.Disk catalogue ms old) limbo → LimboStands (seen_by D.Disk later ns new) limbo }
{}

/// A move that has begun runs beside what is held, and has written nothing. It runs beside the stores still after a
/// call that leaves the names of its files, the destination's list of its row, and the partitions that the source lists
/// of it, which may be followed by others; and once its files are listed, where all its parts are copied. A call that
/// leaves names leaves fewer of them too.
pub fn a_move_runs_beside<D: Disk>()
    ensures begun { (disk : D) (catalogue : CatalogueState) (ms : List ManifestState) (limbo : List Retired)
        (held : Stores) (i from : ℕ) (source dest : ManifestState) (row : Row) (n : ℕ) (move : Moving)
        → Has D.tells (seen_by D.Disk catalogue ms disk) held → i ≡ from + 1 → slice_get ms from ≡ Some source
        → slice_get ms i ≡ Some dest → slice_get held.rows move.series ≡ Some row
        → HasBegun source dest move.series row.name n move → IsMove source.granularity move → StillLists move source
        → RunsBeside i D.tells (seen_all_by D.Disk catalogue ms limbo disk) move [] held }
    ensures fewer { (old new : D) (catalogue later : CatalogueState) (ms ns : List ManifestState)
        (limbo left : List Retired) (names more : List Name) → ((n : Name) → Contains names n → Contains more n)
        → LeavesNames more D.tells (seen_all_by D.Disk catalogue ms limbo old) (seen_all_by D.Disk later ns left new)
        → LeavesNames names D.tells (seen_all_by D.Disk catalogue ms limbo old) (seen_all_by D.Disk later ns left new) }
    ensures stays { (old new : D) (catalogue later : CatalogueState) (ms ns : List ManifestState)
        (limbo left : List Retired) (i : ℕ) (move : Moving) (files : List Filed) (held made : Stores)
        → granularities ns ≡ granularities ms → GoesBeside i move.series held made
        → LeavesNames (names_of (i + 1, held.rows) files) D.tells (seen_all_by D.Disk catalogue ms limbo old)
        (seen_all_by D.Disk later ns left new)
        → RunsBeside i D.tells (seen_all_by D.Disk catalogue ms limbo old) move files held
        → RunsBeside i D.tells (seen_all_by D.Disk later ns left new) move files made }
    ensures listed { (old new : D) (catalogue later : CatalogueState) (ms ns : List ManifestState)
        (limbo left : List Retired) (i : ℕ) (move : Moving) (files : List Filed) (held : Stores)
        → granularities ns ≡ granularities ms → i < 3 → move.at ≡ length move.parts
        → LeavesNames (names_of (i + 1, held.rows) files) D.tells (seen_all_by D.Disk catalogue ms limbo old)
        (seen_all_by D.Disk later ns left new)
        → RunsBeside i D.tells (seen_all_by D.Disk catalogue ms limbo old) move files held
        → RunsBeside i D.tells (seen_all_by D.Disk later ns left new) move files (with_list i (put_all
        (list_at i held) files) held) }
{}

/// A step of copying takes the next samples of a part's file, where it goes on with the first one that is later than
/// all that is listed of the row and is to be. Behind the samples of the last file of the row, or in one that is made
/// anew where no file was in limbo, they make a file of the row, where the files that are ahead stand.
pub fn a_copy_writes_the_next_samples()
    ensures { (fine : Granularity) (move : Moving) (base : Held) (part : Entry) (start : _) (file : Filed)
        (bytes lines : List ℕ) (from most : ℕ) (entry : Entry) → GoesTo move None part start → IsMove fine move
        → AreHeld move.granularity base → IsTrue base.stands
        → IsLastOf (map entry_of base.files) move.series (last_of move.pending move.listed)
        → IsPartFile fine base.rows move part bytes file
        → (split : SplitsAt file.samples (end_after (last_of move.pending move.listed)) part.head_len from)
        → from < file.entry.len
        → Takes (take part.head_len bytes) (between from file.entry.len bytes) most lines start.entry entry
        → WritesNext move.granularity base start.at (take part.head_len bytes) lines entry split.back }
{}

/// A move that has begun copies beside what is held, if it has parts, and has written nothing. It copies beside the
/// stores still after a call that leaves it as it runs beside them, the headers of its parts' files, and the files of
/// the parts that are copied.
pub fn a_move_copies_beside<D: Disk>()
    ensures begun { (disk : D) (catalogue : CatalogueState) (ms : List ManifestState) (limbo : List Retired)
        (held : Stores) (from : ℕ) (source dest : ManifestState) (row : Row) (n : ℕ) (move : Moving)
        → (IsTrue held.stands → IsTrue D.tells) → Has D.tells (seen_by D.Disk catalogue ms disk) held
        → slice_get ms from ≡ Some source → slice_get ms (from + 1) ≡ Some dest
        → slice_get held.rows move.series ≡ Some row → HasBegun source dest move.series row.name n move
        → IsMove source.granularity move → StillLists move source → 1 ≤ length move.parts
        → CopiesBeside from D.tells (seen_all_by D.Disk catalogue ms limbo disk) move [] held }
    ensures stays { (old new : D) (catalogue later : CatalogueState) (ms ns : List ManifestState)
        (limbo left : List Retired) (from : ℕ) (move : Moving) (files : List Filed) (held made : Stores)
        → granularities ns ≡ granularities ms → GoesBeside (from + 1) move.series held made
        → LeavesNames (names_of (from + 1 + 1, held.rows) files) D.tells (seen_all_by D.Disk catalogue ms limbo old)
        (seen_all_by D.Disk later ns left new) → KnowsHeads from move made
        → oldest from move.series move.at made ≡ oldest from move.series move.at held
        → CopiesBeside from D.tells (seen_all_by D.Disk catalogue ms limbo old) move files held
        → CopiesBeside from D.tells (seen_all_by D.Disk later ns left new) move files made }
{}
