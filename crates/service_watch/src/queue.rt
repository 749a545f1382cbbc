// The connections that wait at a port.
use crate::stopping::{Ports, Stop};
use crate::telling::tell;
use service::Kind;
use std::fs;

// So many seconds lie between two lines at least.
const MINUTE: u64 = 60;

// It is told where no door was free at so many looks one after another. A feed may hold its door for days, and a burst
// of requests is soon over.
const LOOKS_FOR_FEEDS: u32 = 1;

const LOOKS_FOR_REQUESTS: u32 = 10;

// Where the system lists its connections and those ports at which it waits for some (Linux).
const TABLES: [&str; 2] = ["/proc/net/tcp", "/proc/net/tcp6"];

// The state of such a port in these lists.
const LISTENS: &str = "0A";

/// Tells of connections of a kind that wait while no door for them is free, at most once a minute.
#[derive(Drop)]
pub struct Queue {
    kind: Kind,
    // The seconds at which it looked last, and told last.
    looked: Option<u64>,
    told: Option<u64>,
    // At how many looks up to the last one no door was free.
    busy: u32,
}

impl Queue {
    /// One that has told nothing.
    pub fn new(kind: Kind) -> Queue {
        Queue {
            kind,
            looked: None,
            told: None,
            busy: 0,
        }
    }

    /// Looks once a second whether a door waits for a connection. Where none does, for requests ten times one after
    /// another, it tells how many connections wait at their port.
    pub fn tell(&mut self, rt: &HostRuntime, stop: &Stop, ports: &Ports, now: u64) {
        if self.looked == Some(now) || !stop.is_serving() {
            return;
        }
        self.looked = Some(now);
        if stop.waiting(self.kind) > 0 {
            self.busy = 0;
            return;
        }
        self.busy = self.busy.saturating_add(1);
        let (port, those, looks) = match self.kind {
            Kind::Feed => (ports.feed_port, "feeds", LOOKS_FOR_FEEDS),
            Kind::Http => (ports.http_port, "requests", LOOKS_FOR_REQUESTS),
        };
        if self.busy < looks || self.is_told(now) {
            return;
        }
        let waiting = waiting_at(rt, port);
        if waiting == 0 {
            return;
        }
        self.told = Some(now);
        let doors = ports.doors;
        tell(
            rt,
            format!(in rt.alloc();
                "port {port}: no door is free; doors {doors}, {those} that wait {waiting}"
            ),
        );
    }

    // Whether it told within the last minute.
    fn is_told(&self, now: u64) -> bool {
        match self.told {
            Some(told) => now.saturating_sub(told) < MINUTE,
            None => false,
        }
    }
}

// How many connections wait at this port, as far as the system tells.
fn waiting_at(rt: &HostRuntime, port: u16) -> u64 {
    let mut waiting = 0u64;
    for table in TABLES {
        if let Ok(text) = fs::read_to_string(rt, table) {
            for line in text.lines() {
                waiting = waiting.saturating_add(waiting_in(line, port).unwrap_or(0));
            }
        }
    }
    waiting
}

// How many connections wait at this port, where a line of a list tells it: behind its number stand the
// address with the port, that of the other end, the state, and two lengths, of which the second is that of
// the queue. Numbers are hexadecimal.
fn waiting_in(line: &str, port: u16) -> Option<u64> {
    let mut words = line.split_whitespace();
    let (_, at) = words.nth(1)?.split_once(':')?;
    let state = words.nth(1)?;
    let (_, waiting) = words.next()?.split_once(':')?;
    if state != LISTENS || u16::from_str_radix(at, 16).ok()? != port {
        return None;
    }
    u64::from_str_radix(waiting, 16).ok()
}
