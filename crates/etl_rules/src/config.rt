// The settings of the three stores.
ghost use Rattle.std.specs.Prelude.{◌≡◌, ◌≤◌, ◌-◌, ◌↔◌, [], ◌∷◌, IsSome, IfSome, Some, slice_get, slice_index};
ghost use Rattle.partition_names.specs.declared.granularity.Granularity.TheVariants.{Hour, Day, Year};
ghost use Rattle.etl_rules.specs.Config.{IsGood};

use partition_names::{Granularity, holds};
use std::marker::Model;

/// The granularities of stores 1 to 3, and for stores 1 and 2 how many ripe partitions make a move due,
/// and how many a move takes.
#[derive(Clone, Copy, Debug, PartialEq, Eq)]
pub struct Config {
    granularity: [Granularity; 3],
    hold: [u32; 2],
    gather: [u32; 2],
}

impl Model for Config {
    ghost use Rattle.etl_rules.specs.Config.{ConfigState, IsGood};

    ghost Value = { ConfigState };

    ghost view = { λ c. record { granularity = c.granularity; hold = c.hold; gather = c.gather } };

    ghost invariant = { λ c. IsGood (record { granularity = c.granularity; hold = c.hold; gather = c.gather }) };

    ghost inverse = { λ c. record { granularity = c.granularity; hold = c.hold; gather = c.gather } };
}

impl Config {
    /// The configuration with these settings, of the lower stores first. It is `None` exactly where a store's
    /// granularity isn't held by the next store's, or a move would take no partition.
    pub fn new(granularity: [Granularity; 3], hold: [u32; 2], gather: [u32; 2]) -> Option<Config>
        ensures good { IsSome result ↔ IsGood (record { granularity = granularity; hold = hold; gather = gather }) }
        ensures value { IfSome result (λ c. c ≡ record { granularity = granularity; hold = hold; gather = gather }) }
    {
        let [short, medium, long] = granularity;
        if !holds(medium, short) || !holds(long, medium) || gather[0] == 0 || gather[1] == 0 {
            return None;
        }
        Some(Config {
            granularity,
            hold,
            gather,
        })
    }

    /// The shipped configuration: HOUR, hold 5, gather 3; DAY, hold 2, gather 1; YEAR.
    pub fn shipped() -> Config
        ensures { result ≡ record { granularity = Hour ∷ Day ∷ Year ∷ []; hold = 5 ∷ 2 ∷ []; gather = 3 ∷ 1 ∷ [] } }
    {
        Config {
            granularity: [Granularity::Hour, Granularity::Day, Granularity::Year],
            hold: [5, 2],
            gather: [3, 1],
        }
    }

    /// The granularity of a store, 1 to 3. Each is held by the next store's.
    pub fn granularity(&self, store: u8) -> Granularity
        requires from { 1 ≤ store }
        requires to { store ≤ 3 }
        ensures value { slice_get self.now.granularity (store - 1) ≡ Some result }
        ensures good { IsGood self.now }
    {
        self.granularity[store as usize - 1]
    }

    /// How many partitions of a series in store 1 or 2 are to be ripe before a move is due. With 0 each ripe one moves.
    pub fn hold(&self, store: u8) -> u32
        requires from { 1 ≤ store }
        requires to { store ≤ 2 }
        ensures { result ≡ slice_index self.now.hold (store - 1) }
    {
        self.hold[store as usize - 1]
    }

    /// How many of a series' oldest ripe partitions a move out of store 1 or 2 takes.
    pub fn gather(&self, store: u8) -> u32
        requires from { 1 ≤ store }
        requires to { store ≤ 2 }
        ensures value { result ≡ slice_index self.now.gather (store - 1) }
        ensures some { 1 ≤ result }
    {
        self.gather[store as usize - 1]
    }
}
