// A room in which threads take turns.
ghost use Rattle.std.specs.Prelude.{◌≡◌, IfSome};
ghost use Rattle.std.specs.Thread.{IsSync};
ghost use Rattle.unit_cases.specs.Counting.{counts_acts};
ghost use Rattle.turn_rooms.specs.Passes.{IsPassOf, TakesBack, standing};

use std::alloc::Global;
use std::sync::atomic::{AtomicU64, Ordering};
use std::sync::{Arc, Wait};
use std::thread;
use std::thread::Threads;
use turn_rooms::{Pass, Room, Rooms, Tried, Turned};

// How many rounds a thread waits at the gate at most.
const ROUNDS: u64 = 10_000_000;

// How many acts each of four threads makes.
const ACTS: u64 = 1_000;

/// Counts acts, and for each of the first four passes its next act, and has a gate at which an act can be held.
#[derive(Drop)]
struct Counter {
    turns: u64,
    next: [u64; 4],
    orderly: bool,
    gate: Arc<AtomicU64, Global>,
}

#[derive(Drop)]
enum Ask {
    // The act with this number of its pass.
    Count(u64),
    // Opens the gate, and waits until someone closes it.
    Hold,
}

impl Counter {
    fn new(gate: Arc<AtomicU64, Global>) -> Counter {
        Counter {
            turns: 0,
            next: [0; 4],
            orderly: true,
            gate,
        }
    }

    fn count(&mut self, who: u64, act: u64) {
        if who < 4 && self.next[who as usize] == act {
            self.next[who as usize] = act.wrapping_add(1);
        } else {
            self.orderly = false;
        }
    }
}

impl Room for Counter {
    type Act = Ask;

    type Answer = u64;

    ghost asks = { λ act. Unit {0} };

    ghost fits = { λ room who n act. Unit {0} };

    ghost steps = { counts_acts };

    fn apply(&mut self, who: u64, n: u64, act: Ask) -> u64 {
        self.orderly = self.orderly && n == self.turns;
        self.turns = n.wrapping_add(1);
        match act {
            Ask::Count(act) => self.count(who, act),
            Ask::Hold => {
                self.gate.store(1, Ordering::SeqCst);
                wait_at(&self.gate, 2);
            }
        }
        n
    }
}

// Waits for a number at the gate, for a bounded number of rounds.
fn wait_at(gate: &AtomicU64, number: u64) {
    for _ in 0..ROUNDS {
        if gate.load(Ordering::SeqCst) == number {
            return;
        }
        thread::yield_now();
    }
}

fn hold(rt: &impl Wait, rooms: &Rooms<Counter>, mut pass: Pass<Counter>) -> Pass<Counter>
    requires { IsPassOf counts_acts rooms.now pass }
    ensures rooms { IsPassOf counts_acts rooms.now result }
    ensures same { standing result ≡ standing pass }
{
    rooms.turn(rt, &mut pass, Ask::Hold);
    pass
}

// What a try gives while another thread holds the room: the word that it found, and the act that came back.
fn knock(
    gate: &AtomicU64,
    rooms: &Rooms<Counter>,
    mut pass: Pass<Counter>,
) -> (Pass<Counter>, u64, u64)
    requires { IsPassOf counts_acts rooms.now pass }
    ensures rooms { IsPassOf counts_acts rooms.now result.0 }
    ensures same { standing result.0 ≡ standing pass }
{
    wait_at(gate, 1);
    let tried = rooms.try_turn(&mut pass, Ask::Count(7));
    gate.store(2, Ordering::SeqCst);
    match tried {
        Tried::Busy {
            word,
            act: Ask::Count(act),
        } => (pass, word, act),
        _ => (pass, 0, 0),
    }
}

fn hold_and_knock<R: Threads + Wait + Sync>(
    rt: &R,
    gate: &AtomicU64,
    rooms: &Rooms<Counter>,
    mut pass: Pass<Counter>,
) -> Option<(Pass<Counter>, u64, u64)>
    requires { IsPassOf counts_acts rooms.now pass }
    ensures { IfSome result (λ p. IsPassOf counts_acts rooms.now p.0 × TakesBack pass p.0) }
{
    let Ok(note) = rooms.part(rt, &mut pass) else {
        return None;
    };
    let (mut pass, (note, word, act)) = thread::join(
        rt,
        || -> Pass<Counter>
            requires { IsPassOf counts_acts rooms.now pass }
            ensures { IsPassOf counts_acts rooms.entry.now result × (standing result ≡ standing pass) }
        { hold(rt, rooms, pass) },
        || -> (Pass<Counter>, u64, u64)
            requires { IsPassOf counts_acts rooms.now note }
            ensures { IsPassOf counts_acts rooms.entry.now result.0 × (standing result.0 ≡ standing note) }
        { knock(gate, rooms, note) },
    );
    rooms.meet(&mut pass, note);
    Some((pass, word, act))
}

// Passes may go to other threads, and rooms may be shared by them, where the room may go there.
fn cross<R: Room + Send>(rooms: &Rooms<R>, pass: Pass<R>) -> Pass<R>
    ensures { result ≡ pass }
{
    share(rooms);
    send(pass)
}

fn share<T: Sync>(_shared: &T) {}

fn send<T: Send>(sent: T) -> T
    ensures { result ≡ sent }
{
    sent
}

// Makes all acts of one pass.
fn work(rt: &impl Wait, rooms: &Rooms<Counter>, mut pass: Pass<Counter>) -> Pass<Counter>
    requires { IsPassOf counts_acts rooms.now pass }
    ensures rooms { IsPassOf counts_acts rooms.now result }
    ensures same { standing result ≡ standing pass }
{
    for act in 0..ACTS {
        rooms.turn(rt, &mut pass, Ask::Count(act));
    }
    pass
}

fn two_work<R: Threads + Wait + Sync>(
    rt: &R,
    rooms: &Rooms<Counter>,
    mut pass: Pass<Counter>,
) -> Option<Pass<Counter>>
    requires { IsPassOf counts_acts rooms.now pass }
    ensures { IfSome result (λ p. IsPassOf counts_acts rooms.now p × TakesBack pass p) }
{
    let Ok(note) = rooms.part(rt, &mut pass) else {
        return None;
    };
    let (mut pass, note) = thread::join(
        rt,
        || -> Pass<Counter>
            requires { IsPassOf counts_acts rooms.now pass }
            ensures { IsPassOf counts_acts rooms.entry.now result × (standing result ≡ standing pass) }
        { work(rt, rooms, pass) },
        || -> Pass<Counter>
            requires { IsPassOf counts_acts rooms.now note }
            ensures { IsPassOf counts_acts rooms.entry.now result × (standing result ≡ standing note) }
        { work(rt, rooms, note) },
    );
    rooms.meet(&mut pass, note);
    Some(pass)
}

fn four_work<R: Threads + Wait + Sync>(
    rt: &R,
    rooms: &Rooms<Counter>,
    mut pass: Pass<Counter>,
) -> Option<Pass<Counter>>
    requires { IsPassOf counts_acts rooms.now pass }
    ensures { IfSome result (λ p. IsPassOf counts_acts rooms.now p × TakesBack pass p) }
{
    let Ok(note) = rooms.part(rt, &mut pass) else {
        return None;
    };
    let (pass, note) = thread::join(
        rt,
        || -> Option<Pass<Counter>>
            requires { IsSync R.row × IsPassOf counts_acts rooms.now pass }
            ensures { IfSome result (λ p. IsPassOf counts_acts rooms.entry.now p × TakesBack pass p) }
        { two_work(rt, rooms, pass) },
        || -> Option<Pass<Counter>>
            requires { IsSync R.row × IsPassOf counts_acts rooms.now note }
            ensures { IfSome result (λ p. IsPassOf counts_acts rooms.entry.now p × TakesBack note p) }
        { two_work(rt, rooms, note) },
    );
    match (pass, note) {
        (Some(mut pass), Some(note)) => {
            rooms.meet(&mut pass, note);
            Some(pass)
        }
        _ => None,
    }
}

/// What a try finds while another thread holds the room: the word, the act that came back, and how many acts were made.
pub fn held<R: Threads + Wait + Sync>(rt: &R, alloc: Global) -> Option<(u64, u64, u64)> {
    let gate = Arc::new(alloc, AtomicU64::new(0)).ok()?;
    let theirs = Arc::try_clone(&gate).ok()?;
    let Ok((rooms, pass)) = Rooms::new(alloc, Counter::new(gate)) else {
        return None;
    };
    let Some((pass, word, act)) = hold_and_knock(rt, &theirs, &rooms, pass) else {
        return None;
    };
    let counter = rooms.close(pass);
    Some((word, act, counter.turns))
}

/// Whether four threads made all their acts, each in its order.
pub fn worked<R: Threads + Wait + Sync>(rt: &R, alloc: Global) -> Option<bool> {
    let gate = Arc::new(alloc, AtomicU64::new(0)).ok()?;
    let Ok((rooms, pass)) = Rooms::new(alloc, Counter::new(gate)) else {
        return None;
    };
    let Some(pass) = four_work(rt, &rooms, pass) else {
        return None;
    };
    let counter = rooms.close(pass);
    Some(counter.orderly && counter.turns == 4 * ACTS && counter.next == [ACTS; 4])
}

/// Whether a room that is free is acted on, by a try and by a turn.
pub fn free(rt: &impl Wait, alloc: Global) -> Option<bool> {
    let gate = Arc::new(alloc, AtomicU64::new(0)).ok()?;
    let Ok((rooms, mut pass)) = Rooms::new(alloc, Counter::new(gate)) else {
        return None;
    };
    let first = rooms.try_turn(&mut pass, Ask::Count(0));
    let mut pass = cross(&rooms, pass);
    let second = rooms.turn(rt, &mut pass, Ask::Count(1));
    Some(matches!(first, Tried::Done(0)) && matches!(second, Turned::Done(1)))
}
