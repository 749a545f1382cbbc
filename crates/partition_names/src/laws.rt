//! Laws of partitions, stated by functions that do nothing.
ghost use Rattle.std.specs.Prelude.{◌≡◌, ℕ, List, ◌<◌, ◌≤◌, pos};
ghost use Rattle.arch_time.specs.YearTime.{moment};
ghost use Rattle.pv_name.specs.Key.{key_of};
ghost use Rattle.partition_names.specs.declared.granularity.Granularity.{Granularity};
ghost use Rattle.partition_names.specs.declared.granularity.Granularity.TheVariants.{Year};
ghost use Rattle.partition_names.specs.declared.unit.CivilMinute.{CivilMinute};
ghost use Rattle.partition_names.specs.declared.part.Part.{Part};
ghost use Rattle.partition_names.specs.Granularity.{Holds};
ghost use Rattle.partition_names.specs.Part.{IsPartFrom, IsPart, HoldsMoment};
ghost use Rattle.partition_names.specs.Path.{path_of};

use arch_time::{END, START};

/// Partitions lie in the years 1991 to 2499, and each has a moment.
pub fn parts_within()
    ensures { (g : Granularity) (p : Part) → IsPart g p → (START ≤ p.start) × (p.start < p.end) × (p.end ≤ END) }
{}

/// Of one granularity no two partitions hold one moment. That each moment of those years has a
/// partition is what `part_of` says.
pub fn one_part()
    ensures { (g : Granularity) (p q : Part) (t : ℕ) → IsPart g p → IsPart g q
        → HoldsMoment p t → HoldsMoment q t → p ≡ q }
{}

/// The partition that holds the end of another begins there.
pub fn parts_adjoin()
    ensures { (g : Granularity) (p q : Part) → IsPart g p → IsPart g q → HoldsMoment q p.end → q.start ≡ p.end }
{}

/// A partition lies in the partition of each coarser granularity with which it shares a moment,
/// and in none of a finer granularity.
pub fn parts_nest()
    ensures coarser { (coarse fine : Granularity) (p q : Part) (t : ℕ) → Holds coarse fine → IsPart fine p
        → IsPart coarse q → HoldsMoment p t → HoldsMoment q t → (q.start ≤ p.start) × (p.end ≤ q.end) }
    ensures finer { (coarse fine : Granularity) (p q : Part) → (Holds coarse fine → ⊥) → IsPart fine p → IsPart coarse q
        → (q.start ≤ p.start) × (p.end ≤ q.end) → ⊥ }
{}

/// Of one granularity no two partitions have one name.
pub fn one_name()
    ensures { (g : Granularity) (p q : Part) → IsPart g p → IsPart g q → p.name ≡ q.name → p ≡ q }
{}

/// A path tells the key of the variable's name and the partition's name.
pub fn one_path()
    ensures { (a b m n : List ℕ) → path_of a m ≡ path_of b n → (key_of a ≡ key_of b) × (m ≡ n) }
{}

/// A year's partition begins at the first moment of the year, as `arch_time` counts it.
pub fn years_begin()
    ensures { (from : CivilMinute) (p : Part) → IsPartFrom Year from p → p.start ≡ moment (pos from.year) 0 0 }
{}
