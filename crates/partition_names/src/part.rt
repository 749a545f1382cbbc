//! Partitions.
ghost use Rattle.std.specs.Prelude.{◌≡◌, ℕ, ◌<◌, ◌≤◌, ◌↔◌, Some, IsSome, IfSome, IfNone};
ghost use Rattle.partition_names.specs.declared.part.Part.{Part};
ghost use Rattle.partition_names.specs.Unit.{IsUnitStart};
ghost use Rattle.partition_names.specs.Part.{IsPartFrom, IsPart, HoldsMoment};

use crate::granularity::Granularity;
use crate::name::{PartName, name_length, name_parts, part_name};
use crate::unit::{CivilMinute, is_unit_start, minute_at, moment, seconds, unit_start};
use arch_time::{END, NANOS_PER_SECOND, START};

/// A partition: a unit of the UTC calendar, from its start up to, not including, its end.
#[derive(Clone, Copy, Debug, PartialEq, Eq)]
pub struct Part {
    /// Its name, which tells its start and its granularity's unit.
    pub name: PartName,
    /// Its first moment, in nanoseconds since 1970.
    pub start: u64,
    /// The first moment behind it.
    pub end: u64,
}

/// The partition that holds the moment, in the years 1991 to 2499.
pub fn part_of(g: Granularity, t: u64) -> Option<Part>
    ensures good { IsSome result ↔ ((START ≤ t) × (t < END)) }
    ensures value { IfSome result (λ part. IsPart g part × HoldsMoment part t) }
{
    if t < START || t >= END {
        return None;
    }
    Some(part_from(g, unit_start(g, minute_at(t))))
}

/// The partition of this granularity with this name.
pub fn parse(g: Granularity, text: &[u8]) -> Option<Part>
    ensures exact { (part : Part) → (result ≡ Some part) ↔ (IsPart g part × (part.name ≡ text.now)) }
{
    if text.len() != name_length(g) {
        return None;
    }
    let from = name_parts(text)?;
    if !is_unit_start(g, from) {
        return None;
    }
    Some(part_from(g, from))
}

fn part_from(g: Granularity, from: CivilMinute) -> Part
    requires { IsUnitStart g from }
    ensures { IsPartFrom g from result }
{
    let start = moment(from);
    Part {
        name: part_name(g, from),
        start,
        end: start + seconds(g, from) * NANOS_PER_SECOND,
    }
}
