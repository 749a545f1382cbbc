// The doors of a service: connections of TCP, by two ports.
ghost use Rattle.std.specs.Prelude.{◌≡◌, ◌≤◌, ◌+◌, vec_len, None, IfOk};

use crate::service_log::{Log, Logged};
use crate::stopping::{Ports, Stop};
use crate::telling::Telling;
use command_words::ServeWords;
use edge_io::{Door, Limits, Next, TcpDoor, TcpLink};
use service::{Kind, Post};
use std::alloc::{AllocError, Global};
use std::io;
use std::net::{Net, TcpListener, TcpStream};
use std::sync::Arc;

/// A door that closes once the service is to end. It gives no connection that it gets then. The first of a service that
/// is asked tells that it serves, and each tells when it fails.
#[derive(Drop)]
pub struct ServiceDoor<'a> {
    door: TcpDoor<&'a HostRuntime>,
    kind: Kind,
    port: u16,
    stop: Arc<Stop, Global>,
    // Nothing where the ports couldn't be bound, so that no connections come.
    telling: Option<Arc<Telling<'a>, Global>>,
    closed: bool,
}

impl<'a> Logged for ServiceDoor<'a> {
    fn log(&self) -> Log {
        match &self.telling {
            Some(telling) => telling.log.again(),
            None => Log::none(),
        }
    }
}

impl<'a> Door for ServiceDoor<'a> {
    type L = TcpLink<&'a HostRuntime>;

    ghost is_closed = { λ d. d.closed };

    ghost door_faults = { λ d. d.door.faults };

    ghost ledger = { λ _. None };

    ghost fair = { λ _. tt };

    fn next(&mut self) -> Next<TcpLink<&'a HostRuntime>> {
        if let Some(telling) = &self.telling {
            telling.opened();
            self.stop.tell_serving();
        }
        if self.closed || self.stop.is_asked() {
            self.closed = true;
            return Next::Closed;
        }
        self.stop.begin_wait(self.kind);
        let next = self.door.next();
        self.stop.end_wait(self.kind);
        match next {
            Next::Link(link) if !self.stop.is_asked() => Next::Link(link),
            Next::Failed => {
                if let Some(telling) = &self.telling {
                    telling.failed(self.port);
                }
                Next::Failed
            }
            _ => {
                self.closed = true;
                Next::Closed
            }
        }
    }

    fn back(&mut self, link: TcpLink<&'a HostRuntime>) {
        self.door.back(link);
    }
}

/// The doors of a service.
#[derive(Drop)]
pub struct Doors<'a> {
    pub posts: Vec<Post<ServiceDoor<'a>>>,
    /// Where they listen, where both ports could be bound.
    pub ports: Option<Ports>,
    /// The first port that couldn't be bound, and why. Then each door fails when it is asked.
    pub unbound: Option<Unbound>,
    /// What the service has to tell, where both ports could be bound.
    pub telling: Option<Arc<Telling<'a>, Global>>,
}

/// A port that couldn't be bound.
#[derive(Drop)]
pub struct Unbound {
    pub port: u16,
    pub error: io::Error,
}

// The doors of one port: what comes by them, its listener, where it could be bound, and how long a connection may take.
#[derive(Drop)]
struct Side<'b> {
    kind: Kind,
    port: u16,
    listener: Option<&'b TcpListener>,
    limits: Limits,
}

impl<'a> Doors<'a> {
    /// No doors, for commands that serve nobody.
    pub fn none(alloc: Global) -> Doors<'a>
        ensures { vec_len result.posts ≡ 0 }
    {
        Doors {
            posts: Vec::new(alloc),
            ports: None,
            unbound: None,
            telling: None,
        }
    }

    /// Doors for feeds by the one port and for requests by the other, at this address, to an archive in these folders.
    /// Those of a port share its listener.
    pub fn open<N: Net<Listener = TcpListener, Stream = TcpStream>>(
        net: &N,
        rt: &'a HostRuntime,
        folders: [&str; 4],
        address: String,
        words: &ServeWords,
        stop: &Arc<Stop, Global>,
    ) -> Result<Doors<'a>, AllocError>
        requires { words.now.workers ≤ 64 }
        ensures { IfOk result (λ doors. vec_len doors.posts ≤ 128) }
    {
        let (feeds, requests, unbound) = match bind_both(net, &address, words) {
            Ok((feeds, requests)) => (Some(feeds), Some(requests), None),
            Err(unbound) => (None, None, Some(unbound)),
        };
        let ports = Ports {
            address,
            feed_port: words.feed_port,
            http_port: words.http_port,
            doors: words.workers,
        };
        let telling = match &unbound {
            Some(_) => None,
            None => Some(Telling::shared(rt, &ports, folders)?),
        };
        let feeds = Side {
            kind: Kind::Feed,
            port: words.feed_port,
            listener: feeds.as_ref(),
            limits: Limits::FEED,
        };
        let requests = Side {
            kind: Kind::Http,
            port: words.http_port,
            listener: requests.as_ref(),
            limits: Limits::REQUEST,
        };
        let mut doors = Doors::none(rt.alloc());
        doors.add(&feeds, rt, words, stop, telling.as_ref())?;
        doors.add(&requests, rt, words, stop, telling.as_ref())?;
        doors.ports = unbound.is_none().then_some(ports);
        doors.unbound = unbound;
        doors.telling = telling;
        Ok(doors)
    }

    // As many doors of a side as the words ask for. One that gets no part of the listener fails when it is asked.
    fn add(
        &mut self,
        side: &Side<'_>,
        rt: &'a HostRuntime,
        words: &ServeWords,
        stop: &Arc<Stop, Global>,
        telling: Option<&Arc<Telling<'a>, Global>>,
    ) -> Result<(), AllocError>
        ensures { vec_len self.new.posts ≤ vec_len self.old.posts + words.now.workers }
    {
        let links = match words.links {
            0 => None,
            links => Some(u64::from(links)),
        };
        for _ in 0..words.workers {
            let listener = match side.listener {
                Some(listener) => listener.try_clone().ok(),
                None => None,
            };
            let telling = match telling {
                Some(telling) => Some(Arc::try_clone(telling)?),
                None => None,
            };
            let kind = side.kind;
            let door = ServiceDoor {
                door: TcpDoor::new(listener, rt, side.limits, links),
                kind,
                port: side.port,
                stop: Arc::try_clone(stop)?,
                telling,
                closed: false,
            };
            self.posts.push(Post { kind, door })?;
        }
        Ok(())
    }
}

// The listeners of both ports, or the first that couldn't be bound.
fn bind_both<N: Net<Listener = TcpListener, Stream = TcpStream>>(
    net: &N,
    address: &str,
    words: &ServeWords,
) -> Result<(TcpListener, TcpListener), Unbound> {
    let feeds = bind(net, address, words.feed_port)?;
    let requests = bind(net, address, words.http_port)?;
    Ok((feeds, requests))
}

fn bind<N: Net<Listener = TcpListener, Stream = TcpStream>>(
    net: &N,
    address: &str,
    port: u16,
) -> Result<TcpListener, Unbound> {
    match TcpListener::bind(net, (address, port)) {
        Ok(listener) => Ok(listener),
        Err(error) => Err(Unbound { port, error }),
    }
}
