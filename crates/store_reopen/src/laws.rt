//! What follows from the verdict on an image, for all images.
ghost use Rattle.std.specs.Prelude.{◌≡◌, [], ℕ, List, length, IsTrue, None, true};
ghost use Rattle.disk_model.specs.Files.{Name, Files};
ghost use Rattle.partition_names.specs.declared.granularity.Granularity.{Granularity};
ghost use Rattle.tier_store.specs.Stores.{Stores};
ghost use Rattle.tier_store.specs.Stored.{HoldsAll};
ghost use Rattle.tier_store.specs.Seen.{seen, granularities};
ghost use Rattle.tier_store.specs.Change.{Has, Doubts, IsOpen};
ghost use Rattle.tier_store.specs.declared.store.TierStore.{TierStore as StoreValue};
ghost use Rattle.store_reopen.specs.Reopen.{Opens, OpensEither, IsUnopened};
ghost use Rattle.store_reopen.specs.Verdict.{IsWhole, IsDamaged, Differs};

use disk_model::Disk;
use gate_journal::one_bad_place;

/// An image has one verdict at most: it is whole, or damaged in one place of one file, or a store is
/// of one other granularity.
pub fn one_verdict()
    ensures whole { (gs : List Granularity) (files : Files) (name : Name) (at : ℕ) → IsWhole gs files
        → IsDamaged gs files name at → ⊥ }
    ensures same { (gs : List Granularity) (files : Files) (kept asked : Granularity) → IsWhole gs files
        → Differs gs files kept asked → ⊥ }
    ensures undamaged { (gs : List Granularity) (files : Files) (name : Name) (at : ℕ) (kept asked : Granularity)
        → IsDamaged gs files name at → Differs gs files kept asked → ⊥ }
    ensures place { (gs : List Granularity) (files : Files) (one other : Name) (i j : ℕ) → IsDamaged gs files one i
        → IsDamaged gs files other j → (one ≡ other) × (i ≡ j) }
    ensures granularity { (gs : List Granularity) (files : Files) (kept asked other ask : Granularity)
        → Differs gs files kept asked → Differs gs files other ask
        → (kept ≡ other) × (asked ≡ ask) }
{
    one_bad_place();
}

/// An image that holds files which stand is whole.
pub fn an_image_that_stands_is_whole()
    ensures { (gs : List Granularity) (files : Files) (held : Stores) → length gs ≡ 3 → HoldsAll gs files held
        → IsTrue held.stands → IsWhole gs files }
{}

/// An image without files holds nothing, and so it can be opened.
pub fn an_empty_disk_holds_nothing()
    ensures { (gs : List Granularity) (files : Files) → ((n : Name) → files n ≡ None)
        → HoldsAll gs files (record { rows = []; short = []; medium = []; long = []; stands = true }) }
{}

/// The disk of three stores may be opened again: it holds what they have, or, where a change stands in doubt, what was
/// before it or what is after it.
pub fn three_stores_may_be_opened_again<D: Disk>()
    ensures settled { (store : StoreValue D D.Reader) (held : Stores) → IsTrue D.tells
        → Has D.tells (seen D.Disk store) held
        → Opens (granularities (seen D.Disk store).manifests) (seen D.Disk store).past held }
    ensures in_doubt { (store : StoreValue D D.Reader) (before after : Stores) → IsTrue D.tells
        → Doubts D.tells (seen D.Disk store) before after
        → OpensEither (granularities (seen D.Disk store).manifests) (seen D.Disk store).past before after }
    ensures unopened { (store : StoreValue D D.Reader) (before after : Stores) → IsTrue D.tells
        → IsOpen D.tells (seen D.Disk store) before after
        → IsUnopened (seen D.Disk store).files (seen D.Disk store).opened }
{}
