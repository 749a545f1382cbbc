// Links and doors over TCP. They are the trusted edge: no contract can say what a peer sends or gets.
ghost use Rattle.std.specs.Prelude.{◌≡◌, ◌<◌, ◌≤◌, None, IfSome, IfOk, length, false};
ghost use Rattle.std.proofs.Common.{refl};
ghost use Rattle.std.specs.Duration.{as_nanos};
ghost use Rattle.std.specs.Io.{ReadsAtMost, WritesAtMost};
ghost use Rattle.edge_io.specs.Doors.{Listening, Counts, Gives};

use crate::{Door, Failed, Link, Next, Sink, Source};
use std::io::{self, ErrorKind, Read, Write};
use std::marker::Model;
use std::net::{Shutdown, TcpListener, TcpStream};
use std::thread;
use std::time::{self, Duration, Instant};

// How often a call is made again that was interrupted, or an accept that failed for a passing cause.
const TRIES: u32 = 100;

// How many milliseconds an accept waits after a passing cause.
const PAUSE: u64 = 50;

// How many milliseconds a link that is given back waits for its peer to close, and how often it reads
// meanwhile.
const CLOSING: u64 = 2_000;

const CLOSING_READS: u32 = 64;

// Too many files are open, in the process or in the system (Linux).
const EMFILE: i32 = 24;

const ENFILE: i32 = 23;

// A write waits for at most one of so many parts of all that its pace allows, and is then made again: the
// system wakes it only once much of its buffer is free, but takes what fits at each call.
const PARTS: u64 = 24;

/// How long the peer of a link may take. `None` is no limit. A call behind its limit fails.
///
/// All that is read must be there by a deadline. What is written has a pace: writes may wait so long, and
/// each byte that is taken lets them wait a little longer again. So a peer that takes nothing is soon gone,
/// and a reply that is taken quickly enough is never cut, however long it is. The time between two writes
/// doesn't count.
#[derive(Clone, Copy, Debug, PartialEq, Eq)]
pub struct Limits {
    /// The deadline of all reads, in milliseconds from the moment when the door gives the link, at least 1.
    pub reads: Option<u64>,
    pub writes: Option<Pace>,
}

/// How slowly what is written may be taken.
#[derive(Clone, Copy, Debug, PartialEq, Eq)]
pub struct Pace {
    /// How many milliseconds longer writes may wait for each byte that was taken, up to `most`.
    pub byte: u64,
    /// How many milliseconds they may wait at first, and at most while nothing is taken, at least 1.
    pub most: u64,
}

impl Limits {
    /// Of a link with one request and its reply. The request must be there within 10 s. The reply may be
    /// taken at 1,000 bytes a second, in lumps that lie 75 s apart at most.
    pub const REQUEST: Limits = Limits {
        reads: Some(10_000),
        writes: Some(Pace {
            byte: 1,
            most: 75_000,
        }),
    };

    /// Of a link that may stay open for days, silent for as long as there is nothing to send. Its writes wait
    /// for 5 minutes while nothing is taken.
    pub const FEED: Limits = Limits {
        reads: None,
        writes: Some(Pace {
            byte: 300_000,
            most: 300_000,
        }),
    };
}

// How long writes may still wait.
#[derive(Clone, Copy)]
struct Patience {
    pace: Pace,
    left: Duration,
}

impl Patience {
    ghost use Rattle.edge_io.specs.Paces.{IsWhole, Waited, Took};

    fn new(pace: Pace) -> Patience
        ensures { IsWhole pace result }
    {
        Patience {
            pace,
            left: Duration::from_millis(pace.most),
        }
    }

    // How long the next write may wait at once. Where nothing is left no write is made.
    fn part(&self) -> io::Result<Duration>
        ensures least { IfOk result (λ part. 0 < as_nanos part) }
        ensures bound { IfOk result (λ part. as_nanos part ≤ as_nanos self.now.left) }
    {
        let part = Duration::from_millis(self.pace.most / PARTS + 1);
        let part = self.left.min(part);
        if part.is_zero() {
            return Err(io::Error::from(ErrorKind::TimedOut));
        }
        Ok(part)
    }

    // A write waited so long.
    fn waited(&mut self, time: Duration)
        ensures { Waited (as_nanos time) self.old self.new }
    {
        self.left = self.left.saturating_sub(time);
    }

    // So many bytes were taken.
    fn took(&mut self, count: usize)
        ensures { Took count self.old self.new }
    {
        let longer = (count as u64).saturating_mul(self.pace.byte);
        let left = self.left.saturating_add(Duration::from_millis(longer));
        self.left = left.min(Duration::from_millis(self.pace.most));
    }
}

// A stream whose calls keep limits.
#[derive(Drop)]
struct Timed<C: time::Clock + Copy + Drop> {
    stream: TcpStream,
    clock: C,
    // The moment by which all must have been read.
    deadline: Option<Instant>,
    patience: Option<Patience>,
}

impl<C: time::Clock + Copy + Drop> Timed<C> {
    fn new(stream: TcpStream, clock: C, limits: Limits) -> io::Result<Timed<C>> {
        stream.set_nodelay(true)?;
        let deadline = match limits.reads {
            Some(reads) => Instant::now(&clock)?.checked_add(Duration::from_millis(reads)),
            None => None,
        };
        Ok(Timed {
            stream,
            clock,
            deadline,
            patience: limits.writes.map(Patience::new),
        })
    }

    // How long is left until then. Behind it no call is made.
    fn left(&self, deadline: Instant) -> io::Result<Duration> {
        let left = deadline.duration_since(Instant::now(&self.clock)?);
        if left.is_zero() {
            return Err(io::Error::from(ErrorKind::TimedOut));
        }
        Ok(left)
    }

    fn read_once(&mut self, buf: &mut [u8]) -> io::Result<usize>
        ensures { ReadsAtMost result buf.new }
    {
        if let Some(deadline) = self.deadline {
            let left = self.left(deadline)?;
            self.stream.set_read_timeout(Some(left))?;
        }
        self.stream.read(buf)
    }

    fn write_once(&mut self, bytes: &[u8]) -> io::Result<usize>
        ensures { WritesAtMost result bytes.now }
    {
        match self.patience {
            Some(patience) => self.write_paced(patience, bytes),
            None => self.stream.write(bytes),
        }
    }

    // A write whose time and bytes are counted.
    fn write_paced(&mut self, mut patience: Patience, bytes: &[u8]) -> io::Result<usize>
        ensures { WritesAtMost result bytes.now }
    {
        self.stream.set_write_timeout(Some(patience.part()?))?;
        let begun = Instant::now(&self.clock)?;
        let outcome = self.stream.write(bytes);
        patience.waited(begun.elapsed(&self.clock)?);
        if let Ok(count) = &outcome {
            patience.took(*count);
        }
        self.patience = Some(patience);
        outcome
    }

    // A read that is made again where it was interrupted.
    fn read(&mut self, buf: &mut [u8]) -> Option<usize>
        ensures { IfSome result (λ n. n ≤ length buf.new) }
    {
        for _ in 0..TRIES {
            match self.read_once(buf) {
                Ok(count) => return Some(count),
                Err(error) if is_interrupted(&error) => {}
                Err(_) => return None,
            }
        }
        None
    }

    // A write of at least one byte, which is made again where it was interrupted or may still wait.
    fn write(&mut self, bytes: &[u8]) -> Option<usize>
        ensures least { IfSome result (λ n. 0 < n) }
        ensures bound { IfSome result (λ n. n ≤ length bytes.now) }
    {
        for _ in 0..TRIES {
            match self.write_once(bytes) {
                Ok(0) => return None,
                Ok(count) => return Some(count),
                Err(error) if is_interrupted(&error) || is_waiting(&error) => {}
                Err(_) => return None,
            }
        }
        None
    }

    // Ends what is sent, and waits a little for the peer to close: where bytes of it are unread when
    // the connection is dropped, the system resets it, and the peer may lose the end of a reply.
    fn close(mut self) {
        let Ok(now) = Instant::now(&self.clock) else {
            return;
        };
        if self.stream.shutdown(Shutdown::Write).is_err() {
            return;
        }
        self.deadline = now.checked_add(Duration::from_millis(CLOSING));
        let mut unread = [0u8; 4096];
        for _ in 0..CLOSING_READS {
            match self.read_once(&mut unread) {
                Ok(0) => return,
                Ok(_) => {}
                Err(_) => return,
            }
        }
    }
}

// Whether the call may go well when it is made again at once.
fn is_interrupted(error: &io::Error) -> bool {
    error.kind() == ErrorKind::Interrupted
}

// Whether the call waited for as long as it was told to, and nothing came of it.
fn is_waiting(error: &io::Error) -> bool {
    error.kind() == ErrorKind::WouldBlock
}

/// A connection. A call that takes longer than its limits allow is a fault, and so is a write of 0
/// bytes. It tells nothing of content.
#[derive(Drop)]
pub struct TcpLink<C: time::Clock + Copy + Drop> {
    timed: Timed<C>,
    read_faults: u64,
    write_faults: u64,
}

impl<C: time::Clock + Copy + Drop> Source for TcpLink<C> {
    ghost left = { λ _. None };

    ghost read_faults = { λ l. l.read_faults };

    ghost beside = { λ l. record { bytes = None; faults = l.write_faults } };

    fn read(&mut self, buf: &mut [u8]) -> Result<usize, Failed> {
        match self.timed.read(buf) {
            Some(count) => Ok(count),
            None => {
                self.read_faults = self.read_faults.saturating_add(1);
                Err(Failed)
            }
        }
    }
}

impl<C: time::Clock + Copy + Drop> Sink for TcpLink<C> {
    ghost written = { λ _. None };

    ghost write_faults = { λ l. l.write_faults };

    ghost beside = { λ l. record { bytes = None; faults = l.read_faults } };

    fn write(&mut self, bytes: &[u8]) -> Result<usize, Failed> {
        match self.timed.write(bytes) {
            Some(count) => Ok(count),
            None => {
                self.write_faults = self.write_faults.saturating_add(1);
                Err(Failed)
            }
        }
    }
}

impl<C: time::Clock + Copy + Drop> Link for TcpLink<C> {
    ghost written_stays = { λ _. refl };

    ghost left_stays = { λ _. refl };
}

/// What gives the connections of a listener. Several doors share a port where each has a
/// `TcpListener::try_clone` of one listener.
#[derive(Drop)]
pub struct TcpDoor<C: time::Clock + Copy + Drop> {
    listener: Option<TcpListener>,
    clock: C,
    limits: Limits,
    // How many links it will still give, where there is a bound.
    left: Option<u64>,
    closed: bool,
    faults: u64,
}

impl<C: time::Clock + Copy + Drop> Model for TcpDoor<C> {
    ghost use Rattle.std.specs.Prelude.{◌≡◌, Some, true};
    ghost use Rattle.edge_io.specs.Doors.{Listening};

    ghost Value = { Listening };

    ghost view = { λ d. record { left = d.left; closed = d.closed; faults = d.faults } };

    ghost invariant = { λ d. d.closed ≡ true → d.left ≡ Some 0 };
}

impl<C: time::Clock + Copy + Drop> TcpDoor<C> {
    /// A door that gives so many links at most, and any number where `links` is `None`. Where there is
    /// no listener, since its port couldn't be bound, each call of `next` but `Closed` fails.
    pub fn new(
        listener: Option<TcpListener>,
        clock: C,
        limits: Limits,
        links: Option<u64>,
    ) -> TcpDoor<C>
        ensures { result ≡ record { left = links; closed = false; faults = 0 } }
    {
        TcpDoor {
            listener,
            clock,
            limits,
            left: links,
            closed: false,
            faults: 0,
        }
    }

    // A connection with its limits set. Passing causes are waited for, a bounded number of times.
    fn accept(&self) -> Option<Timed<C>> {
        let listener = self.listener.as_ref()?;
        for _ in 0..TRIES {
            match listener.accept() {
                Ok((stream, _)) => {
                    if let Ok(timed) = Timed::new(stream, self.clock, self.limits) {
                        return Some(timed);
                    }
                }
                Err(error) if is_passing(&error) => thread::sleep(
                    &self.clock,
                    Duration::from_millis(PAUSE),
                ),
                Err(_) => return None,
            }
        }
        None
    }
}

// Whether the next connection may be had though this one couldn't: the peer was gone before it was
// accepted, the call was interrupted, or too many files are open for now.
fn is_passing(error: &io::Error) -> bool {
    match error.kind() {
        ErrorKind::ConnectionAborted | ErrorKind::Interrupted => true,
        _ => matches!(error.raw_os_error(), Some(EMFILE | ENFILE)),
    }
}

impl<C: time::Clock + Copy + Drop> Door for TcpDoor<C> {
    type L = TcpLink<C>;

    ghost is_closed = { λ d. d.closed };

    ghost door_faults = { λ d. d.faults };

    ghost ledger = { λ _. None };

    ghost fair = { λ _. tt };

    /// The next connection, for which it waits. `Closed` comes exactly where all links were given.
    fn next(&mut self) -> Next<TcpLink<C>>
        ensures gives { Gives (λ (d : Listening). d.closed) (λ d. d.faults) (λ _. None) (λ _. None)
            ⟦<TcpLink<C> as Source>⟧.read_faults ⟦<TcpLink<C> as Sink>⟧.write_faults self.old result self.new }
        ensures faults { self.old.faults ≤ self.new.faults }

        ensures links { Counts self.old result self.new }
    {
        if self.closed || self.left == Some(0) {
            self.closed = true;
            return Next::Closed;
        }
        let Some(timed) = self.accept() else {
            self.faults = self.faults.saturating_add(1);
            return Next::Failed;
        };
        if let Some(left) = self.left {
            self.left = Some(left - 1);
        }
        Next::Link(TcpLink {
            timed,
            read_faults: 0,
            write_faults: 0,
        })
    }

    /// Closes the connection, once what was written has gone out.
    fn back(&mut self, link: TcpLink<C>) {
        link.timed.close();
    }
}
