// How many files the three stores list in the end.
ghost use Rattle.std.specs.Prelude.{◌≡◌, ◌≤◌};
ghost use Rattle.drill_feed.specs.Tiers.{AreTiers, IsLeft};

use crate::drill::{Drill, VARIABLES};

/// The numbers of files that the three stores list, of all variables together.
#[derive(Clone, Copy, Debug, PartialEq, Eq)]
pub struct Tiers {
    pub short: u32,
    pub medium: u32,
    pub long: u32,
}

impl Drill {
    /// The files in the end, under the shipped settings. Each hour of a variable is a file of the short store, until it
    /// moves into that of its day in the medium store, and this into that of the year in the long one.
    pub fn tiers(self) -> Tiers
        ensures { AreTiers self.hours result }
    {
        let hours_left = left_of(self.hours, 5, 3);
        let hours_moved = self.hours - hours_left;
        let days = (hours_moved + 23) / 24;
        let days_ended = days.min((self.hours + 1) / 24);
        let days_moved = days_ended - left_of(days_ended, 2, 1);
        let years = if days_moved == 0 { 0 } else { 1 };
        Tiers {
            short: VARIABLES * hours_left,
            medium: VARIABLES * (days - days_moved),
            long: VARIABLES * years,
        }
    }
}

// How many of so many ripe partitions are left once no move is due. A move is due where as many are ripe as the store
// holds, and takes as many as it gathers.
fn left_of(ripe: u32, hold: u32, gather: u32) -> u32
    requires hold { 1 ≤ hold }
    requires gather { 1 ≤ gather }
    ensures left { IsLeft hold gather ripe result }
    ensures bound { result ≤ ripe }
{
    let mut left = ripe;
    while left >= hold {
        left -= left.min(gather);
    }
    left
}
