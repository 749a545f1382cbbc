//! What follows from standing for a machine, and what the stores' changes are to it.
ghost use Rattle.std.specs.Prelude.{◌≡◌, ◌≢◌, ◌≤◌, ◌<◌, ◌&&◌, ℕ, List, Option, Some, IsTrue, [], true, slice_get};
ghost use Rattle.std.specs.FinMap.{FinMap};
ghost use Rattle.std.specs.List.{AllByRecursion};
ghost use Rattle.std.specs.Ordering.{nat_cmp};
ghost use Rattle.intake.specs.Tails.{TailState};
ghost use Rattle.disk_model.specs.Files.{Files};
ghost use Rattle.disk_model.specs.Past.{MayLeave};
ghost use Rattle.etl_mover.specs.Move.{Moving};
ghost use Rattle.etl_rules.specs.Config.{ConfigState};
ghost use Rattle.pb_messages.specs.declared.about.About.{About};
ghost use Rattle.pb_messages.specs.declared.about.State.{State};
ghost use Rattle.moves.specs.declared.series.ToMove.{ToMove};
ghost use Rattle.pins.specs.Pieces.{PinOf};
ghost use Rattle.pv_catalog.specs.Catalogue.{CatalogueState};
ghost use Rattle.series_model.specs.declared.batch.RowSamples.{RowSamples};
ghost use Rattle.moves.specs.declared.table.Running.{Running};
ghost use Rattle.series_model.specs.declared.sample.Sample.{Sample};
ghost use Rattle.store_manifest.specs.Manifest.{ManifestState};
ghost use Rattle.durable_write.specs.Flush.{put_all};
ghost use Rattle.durable_write.specs.Held.{Filed, samples_of};
ghost use Rattle.tier_store.specs.Beginning.{IsChoice};
ghost use Rattle.tier_store.specs.Change.{Has, IsKnown, Registers, Renames as Renaming, Switches, Flushes};
ghost use Rattle.tier_store.specs.Moving.{GoesBeside, ListsAlso};
ghost use Rattle.tier_store.specs.Pinned.{beside};
ghost use Rattle.tier_store.specs.Retiring.{without_oldest};
ghost use Rattle.tier_store.specs.Revival.{AreWhole, FlushesOver};
ghost use Rattle.tier_store.specs.Seen.{seen_by, granularities};
ghost use Rattle.tier_store.specs.Stores.{Stores, list_at};
ghost use Rattle.tier_store.specs.declared.limbo.Retired.{Retired};
ghost use Rattle.act_model.specs.Changes.{made};
ghost use Rattle.act_model.specs.Flush.{batch_of};
ghost use Rattle.act_model.specs.Machine.{Machine, AddsRow, SetsState, Renames, Appends, Publishes, Unlists};
ghost use Rattle.act_model.specs.Alone.{Chain};
ghost use Rattle.act_model.specs.History.{Entry};
ghost use Rattle.act_model.specs.Reply.{reply_of};
ghost use Rattle.act_model.specs.declared.acts.Act.{Act};
ghost use Rattle.act_model.specs.declared.acts.Answer.{Answer};
ghost use Rattle.archive_actors.specs.Steps.{SharedStep, all_kept};
ghost use Rattle.archive_actors.specs.declared.shared.Shared.{Shared};
ghost use Rattle.turn_rooms.specs.declared.room.RoomEntry.{RoomEntry};
ghost use Rattle.turn_rooms.specs.Histories.{Legal, end_of};
ghost use Rattle.act_model.specs.MoveBegin.{parts_of};
ghost use Rattle.act_model.specs.Parts.{AreParts};
ghost use Rattle.act_model.specs.Limbo.{files_of, put};
ghost use Rattle.act_model.specs.Rows.{RowState, Store, Short, Long, accepted, durable, next_store, tier};
ghost use Rattle.act_model.specs.Rule.{Rule, index_of};
ghost use Rattle.act_model.specs.Sound.{IsSound};
ghost use Rattle.act_model.specs.Whole.{AllFollow};
ghost use Rattle.two_histories.specs.ArchiveStore.{StoreHalf as HalfOf, store_of};
ghost use Rattle.archive_core.specs.declared.memory.Doubt.{Doubt};
ghost use Rattle.intake_half.specs.declared.memory.RowMemory.{RowMemory};
ghost use Rattle.archive_core.specs.Ends.{LeavesBetween};
ghost use Rattle.archive_core.specs.declared.archive.Archive.{Archive};
ghost use Rattle.archive_core.specs.declared.archive.StoreHalf.{StoreHalf};
ghost use Rattle.archive_core.specs.Halves.{StandsFor};
ghost use Rattle.archive_core.specs.Leaving.{Leaves};
ghost use Rattle.archive_core.specs.Opening.{IsOpened};
ghost use Rattle.archive_core.specs.Parts.{InMemory, parts, parts_beside};
ghost use Rattle.archive_core.specs.Running.{RunsOn};
ghost use Rattle.archive_core.specs.LimboTies.{IsLimboOf};
ghost use Rattle.archive_core.specs.MoveChoice.{HaveDurable, AreNumbers, GoesOnBy, file_parts, move_end, move_rule};
ghost use Rattle.archive_core.specs.MoveChoice.{parts_to_move, row_files};
ghost use Rattle.archive_core.specs.Stands.{Stands, HoldsDurable};

use disk_model::Disk;

/// Whatever a crash between acts leaves of an archive's disk holds what is durable of a machine that it stood for, or
/// that with the change that stood in doubt. Where samples are told, it stands.
pub fn a_crash_leaves_what_is_durable<D: Disk>()
    ensures { (disk : D) (catalogue : CatalogueState) (ms : List ManifestState) (limbo : List Retired)
        (pinned : FinMap nat_cmp PinOf) (tails : List TailState) (kept : List RowMemory) (doubt : Option Doubt)
        (doors : ℕ) (config : ConfigState) (slots : List (Option (Running Moving))) (m : Machine) (image : Files)
        → IsTrue D.tells → Stands D.tells (record {
          at = seen_by D.Disk catalogue ms disk;
          limbo = limbo;
          pinned = pinned;
          tails = tails;
          kept = kept;
          doubt = doubt;
          doors = doors;
          config = config;
          slots = slots;
        }) m
        → MayLeave (D.past disk) image → LeavesBetween (granularities ms) m image }
{}

/// What one who acts alone knows, a chain of archives each an act further than the one before, is a run of the
/// machine from each state that the first stood for. Where its samples are told, each image that a crash at any
/// moment since then may have left stands, and has of each variable what was durable then, and no more than
/// what is accepted in the end.
pub fn acts_lose_no_more<D: Disk>()
    ensures { (old new : Archive D D.Reader) (entries : List Entry) (m : Machine) → Stands D.tells (parts D.Disk old) m
        → Chain (λ a n. Stands D.tells (parts D.Disk a) n)
        (λ a e b. Leaves D.tells (parts D.Disk a) e (parts D.Disk b)) old entries new
        → RunsOn D.tells (parts D.Disk old) m entries (parts D.Disk new) }
{}

/// So it is of all acts of a room in which many share an archive: what they did is a run of the machine from each state
/// that it stood for as the room was opened, and whatever a crash since then may leave lies between the two.
pub fn turns_lose_no_more<D: Disk>()
    ensures { (room : Shared (Archive D D.Reader) D.Reader)
        (acts : List (RoomEntry (Shared (Archive D D.Reader) D.Reader) Act (Answer D.Reader))) (m : Machine)
        → Stands D.tells (parts D.Disk room.archive) m
        → Legal (SharedStep (λ a n. Stands D.tells (parts D.Disk a) n) (λ a e b.
        Leaves D.tells (parts D.Disk a) e (parts D.Disk b)) D.Reader.tells D.Reader.bytes D.Reader.faults) room acts
        → RunsOn D.tells (parts D.Disk room.archive) m
        (all_kept (reply_of D.Reader.tells D.Reader.bytes D.Reader.faults) acts)
        (parts D.Disk (end_of room acts).archive) }
{}

/// Where each row's own list follows the whole of its base in what a crash left, it does in the machine that opens on
/// the stores that hold this: so the next run begins as the last one did.
pub fn what_opens_follows()
    ensures { (rule : Rule) (held : Stores) (left m : Machine) → left.told ≡ true → m.told ≡ true
        → HoldsDurable held left → HoldsDurable held m → IsOpened rule m
        → AllFollow durable left.rows → AllFollow accepted m.rows }
{}

/// What the stores make of a change is what the machine makes of it: where they held what is durable of a machine, they
/// hold what is durable of the machine with the change made. So it is of a new row, of a row's state, of a new name,
/// and of what a flush takes of the tails, where limbo has no file of store 1.
pub fn changes_are_the_machines()
    ensures register { (catalogue : CatalogueState) (ms : List ManifestState) (name : List ℕ) (about : About)
        (old new : Stores) (m : Machine)
        → IsKnown catalogue ms old → Registers name about old new → HoldsDurable old m
        → HoldsDurable new (made [] (AddsRow name about) m) }
    ensures switch { (row : ℕ) (from to : State) (old new : Stores) (m : Machine) → Switches row from to old new
        → HoldsDurable old m → HoldsDurable new (made [] (SetsState row to) m) }
    ensures rename { (catalogue : CatalogueState) (ms : List ManifestState) (row : ℕ) (name : List ℕ)
        (old new : Stores) (m : Machine)
        → IsKnown catalogue ms old → Renaming row name old new → HoldsDurable old m
        → HoldsDurable new (made [] (Renames row name) m) }
    ensures flush { (limit : ℕ) (old new : Stores) (m : Machine) → IsSound m
        → ((row : ℕ) → files_of row Short m.limbo ≡ [])
        → (m.told ≡ true → IsTrue old.stands)
        → Flushes (batch_of limit m) old new → HoldsDurable old m
        → HoldsDurable new (made [] (Appends (batch_of limit m)) m) }
{}

/// A flush beside files in limbo is the machine's too, also where it goes on in one of them: where the stores held what
/// is durable of a machine whose limbo is theirs, they hold what is durable of the machine with the batch appended.
pub fn a_flush_goes_on_in_limbo<D: Disk>()
    ensures { (disk : D) (catalogue later : CatalogueState) (ms ns : List ManifestState) (limbo : List Retired)
        (files : List Filed) (limit : ℕ) (old new : Stores) (m : Machine) → IsSound m → m.told ≡ (D.tells && old.stands)
        → Has D.tells (seen_by D.Disk catalogue ms disk) old → HoldsDurable old m
        → IsLimboOf D.tells (beside (seen_by D.Disk catalogue ms disk) limbo) m.told m.rows m.limbo
        → AreWhole 0 D.tells (seen_by D.Disk catalogue ms disk) limbo old.stands files
        → FlushesOver limbo files (batch_of limit m) old new → IsKnown later ns new
        → granularities ns ≡ granularities ms → HoldsDurable new (made [] (Appends (batch_of limit m)) m) }
{}

/// Each change of the stores goes beside a running move, of any row, to store 2 or 3: a new row, a row's state, a new
/// name, and a flush, also beside files in limbo. The store at the place to which the move copies, which is its number
/// less one, lists of the row what it listed; and the store before it the same partitions, or further ones behind them.
pub fn changes_go_beside_moves()
    ensures register { (name : List ℕ) (about : About) (old new : Stores) (i row : ℕ) → Registers name about old new
        → GoesBeside i row old new }
    ensures switch { (k : ℕ) (from to : State) (old new : Stores) (i row : ℕ) → Switches k from to old new
        → GoesBeside i row old new }
    ensures rename { (k : ℕ) (name : List ℕ) (old new : Stores) (i row : ℕ) → Renaming k name old new
        → GoesBeside i row old new }
    ensures flush { (catalogue later : CatalogueState) (ms ns : List ManifestState) (limbo : List Retired)
        (files : List Filed) (batch : List RowSamples) (old new : Stores) (i row : ℕ)
        → IsKnown catalogue ms old → IsKnown later ns new
        → granularities ns ≡ granularities ms
        → FlushesOver limbo files batch old new → 1 ≤ i → i < 3
        → GoesBeside i row old new }
{}

/// What the stores make of a move's changes is what the machine makes of them: of what a move has copied, once the next
/// store lists it, and of a row's oldest files, once their store lists them no more.
pub fn moves_change_the_machine()
    ensures publish { (row : ℕ) (store : Store) (copied : List Sample) (files : List Filed)
        (old new : Stores) (m : Machine)
        → AllByRecursion (λ (f : Filed). f.entry.series ≡ row) files
        → (m.told ≡ true → (r : RowState) → slice_get m.rows row ≡ Some r
        → samples_of row (put_all (list_at (index_of (next_store store)) old) files)
        ≡ put copied (files_of row (next_store store) m.limbo) (tier r (next_store store)))
        → ListsAlso (index_of (next_store store)) files old new → HoldsDurable old m
        → HoldsDurable new (made [] (Publishes row store copied) m) }
    ensures retire { (catalogue : CatalogueState) (ms : List ManifestState) (row n to : ℕ) (store : Store)
        (old : Stores) (m : Machine)
        → HaveDurable catalogue ms old m
        → (m.told ≡ true → to ≡ move_end old store row n)
        → HoldsDurable (without_oldest (index_of store) row n old) (made [] (Unlists row store to) m) }
{}

/// A move that is chosen by what the stores list is the one that the machine chooses by its samples: where these are
/// told, the partitions of a row's listed files are those of its samples, and out of store 1 or 2 as many of them are
/// to move; and the machine goes on as chosen.
pub fn moves_are_the_machines()
    ensures parts { (catalogue : CatalogueState) (ms : List ManifestState) (s : Stores) (m : Machine) (i : ℕ)
        (row : RowState) (store : Store)
        → HaveDurable catalogue ms s m → m.told ≡ true → slice_get m.rows i ≡ Some row
        → AreParts m.rule store (tier row store) (file_parts (row_files s store i)) }
    ensures number { (catalogue : CatalogueState) (ms : List ManifestState) (s : Stores) (m : Machine) (i : ℕ)
        (row : RowState) (store : Store) (now : ℕ)
        → HaveDurable catalogue ms s m → m.told ≡ true → slice_get m.rows i ≡ Some row → store ≢ Long
        → parts_to_move m s store now i ≡ parts_of m.rule store now row (file_parts (row_files s store i)) }
    ensures steps { (catalogue : CatalogueState) (ms : List ManifestState) (s : Stores) (m : Machine) (store : Store)
        (now : ℕ) (running : ℕ → Option ℕ) (choice : ToMove)
        → HaveDurable catalogue ms s m → AreNumbers m running → store ≢ Long
        → IsChoice (move_rule m.rule store now) (index_of store) running s choice
        → GoesOnBy m s store now choice }
{}

/// What is on the disk after a step, beside whatever memory, stands by itself for the half that the step leaves in a
/// history of the store: beside a memory of which the tails are the samples in doubt, and which holds nothing for a
/// tick.
pub fn what_is_left_stands_alone<D: Disk>()
    ensures { (half : StoreHalf D D.Reader) (w : InMemory) (n : ℕ) (old : HalfOf) (after : Machine)
        → Stands D.tells (parts_beside D.Disk half w) after
        → StandsFor D.tells D.Disk half (store_of n old after) }
{}
