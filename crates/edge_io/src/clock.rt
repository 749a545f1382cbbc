// Clocks: the trait, a clock in memory, and that of the system.
ghost use Rattle.std.specs.Prelude.{◌≡◌, ℕ, ◌-◌, ◌^◌, map, drop, get_or, min, Option, None, Some, [], ◌∷◌};
ghost use Rattle.std.specs.Time.{system_time_nanos};
ghost use Rattle.edge_io.specs.Moments.{Moments, Gives, ListedMoments, listed, repeating, coming_of, IsSplit};

use std::alloc::Global;
use std::marker::Model;
use std::thread;
use std::time::{self, Duration, SystemTime, UNIX_EPOCH};

/// What tells the time, in nanoseconds since 1970-01-01T00:00:00Z. It has no fault.
pub trait Clock: Sized {
    // The moments that `now` will give, where the clock tells them.
    ghost coming: { Self → Option Moments };

    /// The moment that it is.
    fn now(&mut self) -> u64
        ensures gives { Gives (coming self.old) (coming self.new) (result ∷ []) };

    /// Waits for about so many nanoseconds, or not at all.
    fn rest(&mut self, nanos: u64)
        ensures gives { Gives (coming self.old) (coming self.new) [] };

    /// A second clock, for another thread.
    fn split(&mut self) -> Self
        ensures gives { Gives (coming self.old) (coming self.new) [] };
}

/// A clock in memory, which gives the moments of a list and then one moment again and again.
#[derive(Drop)]
pub struct ListClock {
    moments: Vec<u64>,
    at: usize,
    end: u64,
    splits: Vec<Vec<u64>>,
}

impl Model for ListClock {
    ghost use Rattle.std.specs.Prelude.{◌≤◌, drop, vec_len, map};
    ghost use Rattle.edge_io.specs.Moments.{ListedMoments};

    ghost Value = { ListedMoments };

    ghost view = { λ c.
        record { left = drop c.at c.moments.items; end = c.end; splits = map (λ v. v.items) c.splits.items } };

    ghost invariant = { λ c. c.at ≤ vec_len c.moments };
}

impl ListClock {
    /// A clock that gives these moments in order, and then the last one again and again, or 0 where
    /// there is none. Each split takes the last of the lists that are left in `splits`. It takes no
    /// memory.
    pub fn new(moments: Vec<u64>, splits: Vec<Vec<u64>>) -> ListClock
        ensures { result ≡ listed moments.items (map (λ v. v.items) splits.items) }
    {
        let end = moments.last().copied().unwrap_or(0);
        ListClock {
            moments,
            at: 0,
            end,
            splits,
        }
    }

    // A clock that gives this moment again and again.
    fn repeating(alloc: Global, end: u64) -> ListClock
        ensures { result ≡ repeating end }
    {
        ListClock {
            moments: Vec::new(alloc),
            at: 0,
            end,
            splits: Vec::new(alloc),
        }
    }
}

impl Clock for ListClock {
    ghost coming = { λ c. Some (coming_of c) };

    /// The next moment of the list, and at its end the moment that it repeats.
    fn now(&mut self) -> u64
        ensures moment { result ≡ get_or self.old.left 0 self.old.end }
        ensures after { self.new ≡ record self.old { left = drop 1 self.old.left } }
    {
        match self.moments.get(self.at).copied() {
            Some(moment) => {
                self.at += 1;
                moment
            }
            None => self.end,
        }
    }

    /// Doesn't wait, and gives no moment up.
    fn rest(&mut self, _nanos: u64)
        ensures unchanged { self.new ≡ self.old }
    {}

    /// A clock of the last of the lists that are left for splits. Where none is left, a clock that
    /// gives only the moment that this one repeats at its end. The new clock has no lists for further
    /// splits.
    fn split(&mut self) -> ListClock
        ensures split { IsSplit self.old self.new result }
    {
        let alloc = *self.splits.allocator();
        match self.splits.pop() {
            Some(moments) => ListClock::new(moments, Vec::new(alloc)),
            None => ListClock::repeating(alloc, self.end),
        }
    }
}

/// The clock of the system. It tells nothing of the moments to come.
///
/// It is made of what reads the system's clock, as `SystemClock::new(rt)` in a
/// `main(rt: HostRuntime)`, where `rt` may also be lent.
#[derive(Drop)]
pub struct SystemClock<C: time::Clock + Copy + Drop> {
    clock: C,
    last: u64,
}

impl<C: time::Clock + Copy + Drop> Model for SystemClock<C> {
    ghost use Rattle.std.specs.Prelude.{ℕ};

    // The moment that it gave last, 0 at first.
    ghost Value = { ℕ };

    ghost view = { λ c. c.last };
}

impl<C: time::Clock + Copy + Drop> SystemClock<C> {
    /// A clock that has given no moment.
    pub fn new(clock: C) -> SystemClock<C>
        ensures { result ≡ 0 }
    {
        SystemClock { clock, last: 0 }
    }
}

impl<C: time::Clock + Copy + Drop> Clock for SystemClock<C> {
    ghost coming = { λ _. None };

    /// The moment that the system's clock shows, at most the greatest `u64`. Where it can't be read,
    /// or shows a moment before 1970, the moment that this clock gave last, or 0 where it gave none.
    /// Like the system's, it may go back.
    fn now(&mut self) -> u64
        ensures last { result ≡ self.new }
    {
        if let Ok(moment) = SystemTime::now(&self.clock) {
            self.last = nanos_since_1970(moment);
        }
        self.last
    }

    /// Sleeps for about so many nanoseconds.
    fn rest(&mut self, nanos: u64)
        ensures unchanged { self.new ≡ self.old }
    {
        thread::sleep(&self.clock, Duration::from_nanos(nanos));
    }

    /// A clock of the same system, which gave the same moment last.
    fn split(&mut self) -> SystemClock<C>
        ensures same { result ≡ self.old }
        ensures unchanged { self.new ≡ self.old }
    {
        SystemClock {
            clock: self.clock,
            last: self.last,
        }
    }
}

// Nanoseconds since 1970, at most the greatest u64.
fn nanos_since_1970(moment: SystemTime) -> u64
    ensures { result ≡ min (system_time_nanos moment) (2 ^ 64 - 1) }
{
    let Ok(since) = moment.duration_since(UNIX_EPOCH) else {
        unreachable!();
    };
    u64::try_from(since.as_nanos()).unwrap_or(u64::MAX)
}
