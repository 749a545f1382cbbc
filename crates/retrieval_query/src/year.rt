// The years that samples stand in.
ghost use Rattle.retrieval_query.specs.Raw.{IsNearestYear};

use arch_time::{FIRST_YEAR, LAST_YEAR, START, split};

/// The year of a moment, or the nearest one that samples stand in.
pub(crate) fn nearest_year(t: u64) -> i32
    ensures { IsNearestYear result t }
{
    if t < START {
        return FIRST_YEAR;
    }
    match split(t) {
        Some(at) => at.year,
        None => LAST_YEAR,
    }
}
