//! How threads rest while a room is taken.
ghost use Rattle.std.specs.Prelude.{◌<◌};

use atomic_table::{Shared, TableRule};
use std::hint::spin_loop;
use std::sync::Wait;
use std::sync::atomic::{AtomicU64, Ordering};
use std::time::Duration;

// How many tries spin, each twice as long as the one before it: most turns take less than a microsecond.
const SPINS: u64 = 6;

// How many rests end by themselves before one asks for a wake: where turns are short, the room is free by then.
const NAPS: u64 = 2;

// The shortest rest in nanoseconds.
const SHORTEST_NANOS: u64 = 20_000;

// How often a rest doubles: up to 1.28 ms.
const DOUBLINGS: u64 = 6;

// How long one lets others pass who woke another: so many naps, or so many turns of theirs.
const PASSES: u64 = 4;

const TURNS: u64 = 256;

// No pass has this number.
const NOBODY: u64 = u64::MAX;

/// The threads that rest until a room is given back. No proof reads it: it only spares wakes where none rests, and lets
/// those who rested come before one who acts without a pause.
#[derive(Drop)]
pub struct Resting {
    // How many rest until they are woken.
    count: AtomicU64,
    // 1 where one of them wants to be woken, and none was since.
    asked: AtomicU64,
    // The pass that woke one and didn't begin another turn since.
    waker: AtomicU64,
}

impl Resting {
    /// None rests.
    pub fn new() -> Resting {
        Resting {
            count: AtomicU64::new(0),
            asked: AtomicU64::new(0),
            waker: AtomicU64::new(NOBODY),
        }
    }

    /// Wakes one thread that rests on this word, if one asked for it since the last wake, behind a turn of the pass of
    /// this number.
    pub fn wake_one<S, V, K, P: TableRule<S, V, K>>(
        &self,
        words: &Shared<S, V, K, P>,
        word: usize,
        who: u64,
    )
        requires { word < words.now.table_id.words }
    {
        if self.asked.load(Ordering::SeqCst) != 0 {
            self.asked.store(0, Ordering::SeqCst);
            self.waker.store(who, Ordering::SeqCst);
            words.wake_one(word);
        }
    }

    /// Lets others pass before a turn of the pass of this number, where it woke one behind its last: without it one who
    /// acts without a pause would take the room again before the one that it woke is there. Turns don't change the word
    /// `still`.
    pub fn let_pass<S, V, K, P: TableRule<S, V, K>>(
        &self,
        rt: &impl Wait,
        words: &Shared<S, V, K, P>,
        word: usize,
        still: usize,
        who: u64,
    )
        requires word { word < words.now.table_id.words }
        requires still { still < words.now.table_id.words }
    {
        if self.waker.load(Ordering::SeqCst) != who {
            return;
        }
        self.waker.store(NOBODY, Ordering::SeqCst);
        let begun = words.peek(word);
        for _ in 0..PASSES {
            nap(rt, words, still, SHORTEST_NANOS);
            if words.peek(word).wrapping_sub(begun) / 2 >= TURNS {
                return;
            }
        }
    }

    /// Gives the processor away after a try that found `found` in this word, the one after `rests` others: it spins a
    /// few times, naps, and then rests until the room is given back, or for a while that grows from try to try. Turns
    /// don't change the word `still`.
    pub fn rest<S, V, K, P: TableRule<S, V, K>>(
        &self,
        rt: &impl Wait,
        words: &Shared<S, V, K, P>,
        word: usize,
        still: usize,
        found: u64,
        rests: u64,
    )
        requires word { word < words.now.table_id.words }
        requires still { still < words.now.table_id.words }
    {
        if found % 2 == 0 || rests < SPINS {
            return spin(rests.min(SPINS));
        }
        let nanos = SHORTEST_NANOS << (rests - SPINS).min(DOUBLINGS);
        if rests < SPINS + NAPS {
            return nap(rt, words, still, nanos);
        }
        self.count.fetch_add(1, Ordering::SeqCst);
        self.asked.store(1, Ordering::SeqCst);
        park(rt, words, word, found, nanos);
        if self.count.fetch_sub(1, Ordering::SeqCst) > 1 {
            self.asked.store(1, Ordering::SeqCst);
        }
    }
}

// Spins 2 to the power of `doublings` times.
fn spin(doublings: u64)
    requires { doublings < 64 }
{
    for _ in 0..1u64 << doublings {
        spin_loop();
    }
}

// Rests so long, or until a wake on this word, unless it has changed.
fn park<S, V, K, P: TableRule<S, V, K>>(
    rt: &impl Wait,
    words: &Shared<S, V, K, P>,
    word: usize,
    found: u64,
    nanos: u64,
)
    requires { word < words.now.table_id.words }
{
    words.park_timeout(
        rt,
        word,
        (found & 0xffff_ffff) as u32,
        Duration::from_nanos(nanos),
    );
}

// Rests so long. On a word that turns don't change nobody is woken.
fn nap<S, V, K, P: TableRule<S, V, K>>(
    rt: &impl Wait,
    words: &Shared<S, V, K, P>,
    still: usize,
    nanos: u64,
)
    requires { still < words.now.table_id.words }
{
    park(rt, words, still, words.peek(still), nanos);
}
