// Whole services, over a board that only counts its doors off: links that wait for one another, and for the flusher
// and the mover.
ghost use Rattle.std.specs.Prelude.{◌<◌, ◌^◌, length, None};

use crate::board::Board;
use archive_actors::Shared;
use edge_io::{Clock, ListClock, ListDoor, MemLink};
use service::{AllServed, Gate, Kind, NoGate, Post, serve_all};
use serving::{FLUSHER_RESTS, MOVER_RESTS};
use std::alloc::Global;
use std::sync::Wait;
use std::sync::atomic::{AtomicU64, Ordering};
use std::thread;
use std::thread::Threads;
use turn_rooms::Rooms;

// How often a gate looks at most.
const TURNS: u64 = 100_000_000;

/// What each service tells: nothing failed, and nothing was wanting.
pub const ALL_WELL: AllServed = AllServed {
    door_faults: 0,
    disk_fault: false,
    spent: false,
    memory: false,
};

// Whether a flag was set before the gate had looked so often.
fn was_seen(flag: &AtomicU64) -> bool {
    for _ in 0..TURNS {
        if flag.load(Ordering::SeqCst) != 0 {
            return true;
        }
        thread::yield_now();
    }
    false
}

// Holds each of two links until the other has come.
#[derive(Drop)]
struct Meeting {
    first_came: AtomicU64,
    second_came: AtomicU64,
    meetings: AtomicU64,
}

impl Meeting {
    fn new() -> Meeting {
        Meeting {
            first_came: AtomicU64::new(0),
            second_came: AtomicU64::new(0),
            meetings: AtomicU64::new(0),
        }
    }
}

impl Gate for Meeting {
    ghost entered = { λ gate post. Unit {0} };

    ghost left = { λ gate post. Unit {0} };

    fn enter(&self, post: usize) {
        let (own, other) = if post == 0 {
            (&self.first_came, &self.second_came)
        } else {
            (&self.second_came, &self.first_came)
        };
        own.store(1, Ordering::SeqCst);
        if was_seen(other) {
            self.meetings.fetch_add(1, Ordering::SeqCst);
        }
    }

    fn leave(&self, _post: usize) {}
}

// Who has rested.
#[derive(Drop)]
struct Rests {
    flusher: AtomicU64,
    mover: AtomicU64,
}

impl Rests {
    fn new() -> Rests {
        Rests {
            flusher: AtomicU64::new(0),
            mover: AtomicU64::new(0),
        }
    }
}

// A clock that stands, and notes who rests by how long.
#[derive(Clone, Copy, Drop)]
struct NotingClock<'a> {
    rests: &'a Rests,
}

impl Clock for NotingClock<'_> {
    ghost coming = { λ clock. None };

    fn now(&mut self) -> u64 {
        0
    }

    fn rest(&mut self, nanos: u64) {
        if nanos == FLUSHER_RESTS {
            self.rests.flusher.store(1, Ordering::SeqCst);
        }
        if nanos == MOVER_RESTS {
            self.rests.mover.store(1, Ordering::SeqCst);
        }
        thread::yield_now();
    }

    fn split(&mut self) -> Self {
        *self
    }
}

// Holds a link until the flusher and the mover have rested.
#[derive(Drop)]
struct Resting<'a> {
    rests: &'a Rests,
    seen: AtomicU64,
}

impl Gate for Resting<'_> {
    ghost entered = { λ gate post. Unit {0} };

    ghost left = { λ gate post. Unit {0} };

    fn enter(&self, _post: usize) {
        if was_seen(&self.rests.flusher) && was_seen(&self.rests.mover) {
            self.seen.fetch_add(1, Ordering::SeqCst);
        }
    }

    fn leave(&self, _post: usize) {}
}

// A post by which one link comes, whose bytes are no request. The door fails when it is asked for these times.
fn post(alloc: Global, failing: &[u64]) -> Option<Post<ListDoor<MemLink>>> {
    let link = MemLink::new(alloc, b"HELLO\r\n\r\n", 4_096, &[], &[]).ok()?;
    let mut links = Vec::new(alloc);
    links.push(link).ok()?;
    let door = ListDoor::new(alloc, links, failing).ok()?;
    Some(Post {
        kind: Kind::Http,
        door,
    })
}

// Whether one link came back, with the reply that refuses it.
fn was_refused(post: &Post<ListDoor<MemLink>>) -> bool {
    let links = post.door.returned();
    links.len() == 1 && links[0].written().starts_with(b"HTTP/1.1 400 ")
}

// A service over a board with as many doors as there are posts.
fn serve<R: Threads + Wait + Sync, C: Clock + Drop + Send, G: Gate + Sync>(
    rt: &R,
    alloc: Global,
    posts: &mut [Post<ListDoor<MemLink>>],
    clock: &mut C,
    gate: &G,
) -> Option<AllServed>
    requires few { length posts.old < 2 ^ 32 }
{
    let Ok(board) = Board::new(alloc, posts.len() as u64) else {
        return None;
    };
    let Ok((rooms, mut pass)) = Rooms::new(alloc, Shared::new(board)) else {
        return None;
    };
    Some(serve_all(rt, alloc, &rooms, &mut pass, posts, clock, gate))
}

/// Two links that wait for one another, at two posts: what is told, how many saw the other, and
/// whether both were refused.
pub fn two_links<R: Threads + Wait + Sync>(
    rt: &R,
    alloc: Global,
) -> Option<(AllServed, u64, bool)> {
    let mut posts = [post(alloc, &[])?, post(alloc, &[])?];
    let mut clock = ListClock::new(Vec::new(alloc), Vec::new(alloc));
    let gate = Meeting::new();
    let told = serve(rt, alloc, &mut posts, &mut clock, &gate)?;
    let refused = was_refused(&posts[0]) && was_refused(&posts[1]);
    Some((told, gate.meetings.load(Ordering::SeqCst), refused))
}

/// A link that waits until the flusher and the mover have rested: what is told, whether it saw that,
/// and whether it was refused.
pub fn a_link_beside<R: Threads + Wait + Sync>(
    rt: &R,
    alloc: Global,
) -> Option<(AllServed, u64, bool)> {
    let mut posts = [post(alloc, &[])?];
    let rests = Rests::new();
    let mut clock = NotingClock { rests: &rests };
    let gate = Resting {
        rests: &rests,
        seen: AtomicU64::new(0),
    };
    let told = serve(rt, alloc, &mut posts, &mut clock, &gate)?;
    let refused = was_refused(&posts[0]);
    Some((told, gate.seen.load(Ordering::SeqCst), refused))
}

/// Three doors, of which one fails before its link and one behind it: what is told, and how
/// many links came back refused.
pub fn failing_doors<R: Threads + Wait + Sync>(rt: &R, alloc: Global) -> Option<(AllServed, u64)> {
    let mut posts = [post(alloc, &[1])?, post(alloc, &[])?, post(alloc, &[2])?];
    let mut clock = ListClock::new(Vec::new(alloc), Vec::new(alloc));
    let told = serve(rt, alloc, &mut posts, &mut clock, &NoGate)?;
    let refused = u64::from(was_refused(&posts[0]))
        + u64::from(was_refused(&posts[1]))
        + u64::from(was_refused(&posts[2]));
    Some((told, refused))
}
