// What follows from the form of a manifest's batches, for all files.
ghost use Rattle.std.specs.Prelude.{◌≡◌, ◌≤◌, ◌+◌, ◌*◌, ℕ, List, [], ◌∷◌, All, length};
ghost use Rattle.disk_model.specs.Files.{Name, Files};
ghost use Rattle.gate_journal.specs.Kept.{Says};
ghost use Rattle.partition_names.specs.declared.granularity.Granularity.{Granularity};
ghost use Rattle.store_manifest.specs.declared.entry.Entry.{Entry};
ghost use Rattle.store_manifest.specs.declared.entry.Change.{Change};
ghost use Rattle.store_manifest.specs.Batches.{batch_of, whole, Configured, Folds, IsBadBatch};
ghost use Rattle.store_manifest.specs.Entries.{all_changed, AllCanFollow, AreEntries};
ghost use Rattle.store_manifest.specs.Manifest.{Lists};
ghost use Rattle.store_manifest.specs.Numbers.{IsSized};

/// An image lists one list of entries at most for a name, under whatever granularity.
pub fn one_listing()
    ensures { (g h : Granularity) (name : Name) (image : Files) (xs ys : List Entry) → Lists g xs name image
        → Lists h ys name image → xs ≡ ys }
{}

/// An image whose batches say a granularity says that one alone.
pub fn one_granularity()
    ensures { (g h : Granularity) (name : Name) (image : Files) (xs ys : List Entry) → Says (Configured g) xs name image
        → Says (Configured h) ys name image → g ≡ h }
{}

/// Batches have one bad one at most, and none where they fold.
pub fn bad_batches()
    ensures one { (bs : List (List ℕ)) (m n : ℕ) → IsBadBatch bs m → IsBadBatch bs n → m ≡ n }
    ensures excluded { (g : Granularity) (bs : List (List ℕ)) (entries : List Entry) (n : ℕ) → Folds g bs entries
        → IsBadBatch bs n → ⊥ }
{}

/// What an image lists is in the order of series and time, each entry of one of the granularity's
/// partitions, with numbers that fit.
pub fn entries_are_in_order()
    ensures are { (g : Granularity) (name : Name) (image : Files) (entries : List Entry) → Lists g entries name image
        → AreEntries g entries }
    ensures sized { (g : Granularity) (name : Name) (image : Files) (entries : List Entry) → Lists g entries name image
        → All IsSized entries }
{}

/// Changes that may be made keep that order and those partitions.
pub fn changes_keep_entries()
    ensures { (g : Granularity) (entries : List Entry) (changes : List Change) → AreEntries g entries
        → AllCanFollow g entries changes
        → AreEntries g (all_changed entries changes) }
{}

/// What a checkpoint writes lists the entries again, in 49 bytes each and two more.
pub fn a_checkpoint_lists_the_entries()
    ensures lists { (g : Granularity) (entries : List Entry) → AreEntries g entries → All IsSized entries
        → Configured g (whole g entries ∷ []) entries }
    ensures length { (g : Granularity) (entries : List Entry) → length (whole g entries) ≡ 2 + 49 * length entries }
{}

/// A change takes at most 49 bytes of a batch.
pub fn changes_take_bytes()
    ensures { (changes : List Change) → length (batch_of changes) ≤ 49 * length changes }
{}
