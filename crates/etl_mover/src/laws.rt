//! Laws of moves: for all lists of samples, and for what a move has written ahead of what its destination lists.
ghost use Rattle.std.specs.Prelude.{◌≡◌, ℕ, List, [], ◌∷◌, Option, Some, IfSome, IsTrue};
ghost use Rattle.disk_model.specs.Past.{Passes};
ghost use Rattle.gate_journal.specs.Journal.{JournalState};
ghost use Rattle.gate_journal.specs.DiskShown.{shown_by};
ghost use Rattle.partition_names.specs.declared.granularity.Granularity.{Granularity};
ghost use Rattle.store_manifest.specs.declared.entry.Entry.{Entry};
ghost use Rattle.store_manifest.specs.Manifest.{ManifestState};
ghost use Rattle.durable_write.specs.Ahead.{HasCopied};
ghost use Rattle.durable_write.specs.Flush.{with_files};
ghost use Rattle.durable_write.specs.Held.{Filed, Held, Shelf, file_of};
ghost use Rattle.durable_write.specs.Plan.{IsLastOf};
ghost use Rattle.durable_write.specs.Stored.{Holds};
ghost use Rattle.durable_write.specs.Writing.{IsStoredAs};
ghost use Rattle.etl_mover.specs.Copying.{SetsLast};
ghost use Rattle.etl_mover.specs.Growing.{IsPlaced, BecomesFile};
ghost use Rattle.etl_mover.specs.Laws.{CopiesOn, RestIsRemaining, FlushedBeside, StillRises, PublishedFromShort};
ghost use Rattle.etl_mover.specs.Laws.{PublishedFromMedium, AllPublished, RetiredFromShort, RetiredFromMedium};
ghost use Rattle.etl_mover.specs.Move.{Moving, IsMove, IsAhead, StillLists, part_file};
ghost use Rattle.etl_mover.specs.Step.{Advances, HasTargets, IsLongUnopened, IsToRow};
ghost use Rattle.etl_mover.specs.Writing.{LeavesFile, WritesFile};

use disk_model::Disk;

/// What a running move keeps, whatever a flush appends to its parts meanwhile.
pub fn a_running_move()
    ensures copies { CopiesOn }
    ensures remaining { RestIsRemaining }
    ensures flushed { FlushedBeside }
    ensures rises { StillRises }
{}

/// A publication changes nothing that is held of a series, at whatever moment it comes. A retirement changes nothing
/// once the destination covers the parts, which it does when all of them is published.
pub fn a_move_is_invisible()
    ensures published { PublishedFromShort }
    ensures published_deep { PublishedFromMedium }
    ensures covered { AllPublished }
    ensures retired { RetiredFromShort }
    ensures retired_deep { RetiredFromMedium }
{}

/// Nothing is ahead of what a destination holds when a move begins. From then on each file that a copy goes on with
/// stands on the disk: those that are listed or to be listed, and the one in limbo that is revived where that does.
pub fn a_move_finds_its_files<D: Disk>()
    ensures begun { (disk : D) (catalogue : JournalState) (m : ManifestState) (shelf : Shelf) (held : Held)
        (move : Moving) → IsStoredAs catalogue m shelf (shown_by D.Disk disk) held → move.pending ≡ []
        → HasCopied catalogue m shelf (shown_by D.Disk disk) held held × IsAhead move held held }
    ensures targets { (disk : D) (fine : Granularity) (catalogue : JournalState) (m : ManifestState) (shelf : Shelf)
        (held ahead : Held) (move : Moving) (revived : Option Entry) → IsMove fine move
        → HasCopied catalogue m shelf (shown_by D.Disk disk) held ahead → IsAhead move held ahead
        → IsLastOf m.entries move.series move.listed → IsToRow move shelf
        → ((e : Entry) → revived ≡ Some e → IsLongUnopened e.len (part_file move.destination move.name e) (D.files disk)
        (D.opened disk)) → HasTargets move revived (D.files disk) (D.opened disk) }
{}

/// A call that leaves the file where a copy goes on leaves all that is listed and all that is ahead, at each
/// moment and whatever it answers. What it wrote whole is ahead then too, and the entries that are to be listed
/// are those of the files ahead.
pub fn a_copy_goes_ahead<D: Disk>()
    ensures stays { (old new : D) (catalogue : JournalState) (m : ManifestState) (shelf : Shelf) (held ahead : Held)
        (at : Option ℕ) (f : Filed) → HasCopied catalogue m shelf (shown_by D.Disk old) held ahead
        → IsPlaced m.granularity ahead at f → LeavesFile (file_of shelf f.entry) at (shown_by D.Disk old)
        (shown_by D.Disk new) → HasCopied catalogue m shelf (shown_by D.Disk new) held ahead
        × Passes (λ a b. Holds m.granularity b held) (D.past old) (D.past new) }
    ensures copied { (old new : D) (catalogue : JournalState) (m : ManifestState) (shelf : Shelf) (held ahead : Held)
        (at : Option ℕ) (bytes : List ℕ) (f : Filed) → IsTrue D.tells
        → HasCopied catalogue m shelf (shown_by D.Disk old) held ahead → BecomesFile m.granularity ahead at bytes f
        → LeavesFile (file_of shelf f.entry) at (shown_by D.Disk old) (shown_by D.Disk new)
        → WritesFile (file_of shelf f.entry) at bytes (D.files old) (shown_by D.Disk new)
        → HasCopied catalogue m shelf (shown_by D.Disk new) held (with_files ahead (f ∷ [])) }
    ensures pending { (fine : Granularity) (move new : Moving) (held ahead : Held) (f : Filed) → IsMove fine move
        → IsAhead move held ahead → f.entry.series ≡ move.series
        → SetsLast f.entry move.pending new.pending
        → IsAhead new held (with_files ahead (f ∷ [])) }
    ensures listed { (move new : Moving) (revived : Option Entry) (len : ℕ) (m : ManifestState)
        → Advances move new revived len → StillLists move m → StillLists new m }
{}
