// The doors by which the feeds come, and the clocks beside them.
ghost use Rattle.std.specs.Prelude.{◌≡◌, ℕ, ◌<◌, [], IfOk};
ghost use Rattle.edge_io.specs.Moments.{coming_of};
ghost use Rattle.drill_feed.specs.Feeds.{feed_door, feed_link};
ghost use Rattle.drill_feed.specs.Workload.{now_of};

use crate::drill::{Drill, VARIABLES};
use edge_io::{ListClock, ListDoor, MemLink};
use std::alloc::{AllocError, Global};

/// By how many doors the feeds come.
pub const DOORS: u32 = 2;

// How many bytes a feed may be replied: the line of one chunk, and a last line.
const REPLY_ROOM: usize = 128;

impl Drill {
    /// A door by which the feeds of two variables come, first the one of the lesser number: the first and the second by
    /// door 0, the third and the fourth by door 1. No call of it or of its links fails.
    pub fn door(self, alloc: Global, number: u32) -> Result<ListDoor<MemLink>, AllocError>
        requires { number < DOORS }
        ensures { IfOk result (λ door. door ≡ feed_door self.hours number) }
    {
        let mut links = Vec::new(alloc);
        links.push(self.link(alloc, 2 * number)?)?;
        links.push(self.link(alloc, 2 * number + 1)?)?;
        ListDoor::new(alloc, links, &[])
    }

    // The connection of a variable's feed.
    fn link(self, alloc: Global, variable: u32) -> Result<MemLink, AllocError>
        requires { variable < VARIABLES }
        ensures { IfOk result (λ link. link ≡ feed_link self.hours variable) }
    {
        let bytes = self.chunk(alloc, variable)?;
        MemLink::new(alloc, &bytes, REPLY_ROOM, &[], &[])
    }

    /// A clock that tells `now` each time, as do all clocks that are split off it.
    pub fn clock(self, alloc: Global) -> Result<ListClock, AllocError>
        ensures moments { IfOk result (λ clock. (k : ℕ) → coming_of clock k ≡ now_of self.hours) }
        ensures splits { IfOk result (λ clock. (clock.end ≡ now_of self.hours) × (clock.splits ≡ [])) }
    {
        let moments = Vec::from_slice(alloc, &[self.now()])?;
        Ok(ListClock::new(moments, Vec::new(alloc)))
    }
}
