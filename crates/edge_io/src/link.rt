// Connections, and doors that give them.
ghost use Rattle.std.specs.Prelude.{◌≡◌, ℕ, ◌<◌, ◌≤◌, Bool, Option, List, length, IfSome};
ghost use Rattle.edge_io.specs.Doors.{Ledger, Gives, TakesBack};
ghost use Rattle.edge_io.specs.Stream.{Direction};

use crate::{Sink, Source};

/// One connection: what the peer sends is read, and what it gets is written. Neither direction changes
/// the other.
pub trait Link: Source + Sink + Drop {
    // Beside what is read stands what was written, and beside what is written what is left to read.
    ghost written_stays: { (l : Self)
        → Self.Source.beside l ≡ record { bytes = Self.Sink.written l; faults = Self.Sink.write_faults l } };

    ghost left_stays: { (l : Self)
        → Self.Sink.beside l ≡ record { bytes = Self.Source.left l; faults = Self.Source.read_faults l } };
}

/// What a door answers.
#[derive(Drop)]
pub enum Next<L> {
    /// A link on which nothing is written yet, and nothing has failed.
    Link(L),
    /// No link comes any more.
    Closed,
    /// No link could be had, which the door has counted.
    Failed,
}

/// What gives links, one by one, and takes them back once they are served.
pub trait Door: Drop {
    type L: Link;

    // Whether it has answered `Closed`.
    ghost is_closed: { Self → Bool };

    // How often it failed.
    ghost door_faults: { Self → ℕ };

    // How many links it gave, and those that came back, where it tells them.
    ghost ledger: { Self → Option (Ledger Self.L) };

    // No more links came back than were given.
    ghost fair: { (d : Self) → IfSome (ledger d) (λ l. length l.back ≤ l.given) };

    /// The next link. It may wait for one.
    ///
    /// `Failed` comes only where the count of faults rose. After `Closed` the same comes again.
    fn next(&mut self) -> Next<Self::L>
        ensures gives { Gives is_closed door_faults ledger Self.L.Sink.written Self.L.Source.read_faults
            Self.L.Sink.write_faults self.old result self.new }
        ensures faults { door_faults self.old ≤ door_faults self.new };

    /// Takes back a link that this door gave. It takes no memory.
    fn back(&mut self, link: Self::L)
        requires { IfSome (ledger self.old) (λ l. length l.back < l.given) }
        ensures back { TakesBack is_closed door_faults ledger self.old link self.new };
}
