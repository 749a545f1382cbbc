// How a service is told to end: by a file.
use crate::queue::Queue;
use crate::service_log::Log;
use crate::teller::Teller;
use crate::telling::tell;
use service::Kind;
use std::alloc::{AllocError, Global};
use std::fs::{self, Files};
use std::io::ErrorKind;
use std::net::{Net, TcpStream, ToSocketAddrs};
use std::sync::atomic::{AtomicBool, AtomicU32, Ordering};
use std::sync::{Arc, Wait};
use std::thread;
use std::time::{Clock, Duration};

// How many milliseconds lie between two looks for the file.
const PAUSE: u64 = 100;

// How many milliseconds a connection that wakes a door may take.
const WAKING: u64 = 250;

/// How far a service is: whether its archive is open, whether it is to end, and whether it is over. And how many of its
/// doors wait for a connection.
#[derive(Drop)]
pub struct Stop {
    serving: AtomicBool,
    asked: AtomicBool,
    over: AtomicBool,
    // The doors that wait, for feeds and for requests.
    feeds: AtomicU32,
    requests: AtomicU32,
}

impl Stop {
    /// For a service that is to go on.
    pub fn shared(alloc: Global) -> Result<Arc<Stop, Global>, AllocError> {
        let stop = Stop {
            serving: AtomicBool::new(false),
            asked: AtomicBool::new(false),
            over: AtomicBool::new(false),
            feeds: AtomicU32::new(0),
            requests: AtomicU32::new(0),
        };
        Ok(Arc::new(alloc, stop)?)
    }

    /// Tells that its archive is open, and so that nobody else works in the folders.
    pub fn tell_serving(&self) {
        self.serving.store(true, Ordering::SeqCst);
    }

    /// Whether its archive is open.
    pub fn is_serving(&self) -> bool {
        self.serving.load(Ordering::SeqCst)
    }

    /// Whether its doors are to close.
    pub fn is_asked(&self) -> bool {
        self.asked.load(Ordering::SeqCst)
    }

    /// Tells that all of it has ended.
    pub fn tell_over(&self) {
        self.over.store(true, Ordering::SeqCst);
    }

    /// One of the doors begins to wait for a connection.
    pub fn begin_wait(&self, kind: Kind) {
        self.doors_of(kind).fetch_add(1, Ordering::SeqCst);
    }

    /// One of the doors that waited has a connection, or gets none.
    pub fn end_wait(&self, kind: Kind) {
        self.doors_of(kind).fetch_sub(1, Ordering::SeqCst);
    }

    /// How many doors wait for a connection.
    pub fn waiting(&self, kind: Kind) -> u32 {
        self.doors_of(kind).load(Ordering::SeqCst)
    }

    fn doors_of(&self, kind: Kind) -> &AtomicU32 {
        match kind {
            Kind::Feed => &self.feeds,
            Kind::Http => &self.requests,
        }
    }
}

/// Where the doors of a service listen.
#[derive(Drop)]
pub struct Ports {
    pub address: String,
    pub feed_port: u16,
    pub http_port: u16,
    /// How many doors share a port.
    pub doors: u32,
}

/// Tells what a service hands in to be told and what waits at its ports, until it is over, and looks for the file.
/// Where that is there the service is to end, and those doors that wait for a connection find out. A file that was
/// there before asked for the end of an earlier service: it is removed once the archive is open, and one that can't be
/// removed ends this one too.
pub fn watch<R: Files + Net + Clock + Wait>(
    rt: &HostRuntime,
    handles: &R,
    stop: &Stop,
    file: &str,
    ports: &Ports,
    log: &Log,
) {
    let mut is_old = is_there(handles, file);
    let mut teller = Teller::new(rt);
    let mut feeds = Queue::new(Kind::Feed);
    let mut requests = Queue::new(Kind::Http);
    let mut woken = None;
    for _ in handles.forever() {
        let is_over = stop.over.load(Ordering::SeqCst);
        teller.tell(rt, log, is_over);
        if is_over {
            return;
        }
        if is_old && stop.is_serving() {
            is_old = false;
            let _ = fs::remove_file(handles, file);
        }
        if !is_old && !stop.is_asked() && is_there(handles, file) {
            tell(rt, format!(in rt.alloc(); "to end, since {file} is there"));
            stop.asked.store(true, Ordering::SeqCst);
        }
        let now = teller.seconds(rt);
        if !stop.is_asked() {
            feeds.tell(rt, stop, ports, now);
            requests.tell(rt, stop, ports, now);
        } else if woken != Some(now) {
            wake_waiting(handles, stop, ports);
            woken = Some(now);
        }
        thread::sleep(handles, Duration::from_millis(PAUSE));
    }
}

fn is_there(files: &impl Files, file: &str) -> bool {
    matches!(fs::exists(files, file), Ok(true))
}

// Wakes the doors that wait for a connection, those for feeds first. One that began to wait just now, or whose
// connection is taken by nobody, is woken a second later.
fn wake_waiting(net: &impl Net, stop: &Stop, ports: &Ports) {
    let address = ports.address.as_str();
    wake_doors(net, address, ports.feed_port, stop.waiting(Kind::Feed));
    wake_doors(net, address, ports.http_port, stop.waiting(Kind::Http));
}

// Makes as many connections to a port as doors wait there. One that isn't taken in time shows that so many wait at the
// port already that each door finds one of those.
fn wake_doors(net: &impl Net, address: &str, port: u16, doors: u32) {
    let limit = Duration::from_millis(WAKING);
    for _ in 0..doors {
        let Ok(places) = (address, port).to_socket_addrs(net) else {
            return;
        };
        for place in places {
            match TcpStream::connect_timeout(net, &place, limit) {
                Ok(_) => break,
                Err(err) if err.kind() == ErrorKind::TimedOut => return,
                Err(_) => {}
            }
        }
    }
}
