//! `archappl`, the program: its words, its commands and their statuses.
//!
//! `run` does all that the program does, over a source, a sink, a sink for complaints, a disk, a clock and the doors of
//! a service; `main` hands it the standard streams, the disk of the folders that the environment names, the system's
//! clock and doors of TCP, and ends with its status.
//!
//! The commands that change or read samples act alone on an archive (`archive_core`) that is opened on the
//! disk's three stores: each of its acts is a step of the machine of `act_model`, so what is promised of the
//! machine is promised of the program.
//!
//! Model: a command is a function from the words, the source's bytes, the image of the disk and the clock's moments to
//! a text, an image, a status and a complaint.
#![tactic(auto)]

mod adopting;
mod contents;
mod drill_report;
mod drilling;
mod ingesting;
mod moving;
mod observed;
mod opened;
mod reporting;
mod retrieving;
mod run;
mod service_run;
mod tallying;

ghost use Rattle.std.specs.Prelude.{◌≤◌, ◌<◌, ◌^◌, length, vec_len, IfOk};

use command_words::{Status, complain, serve_words};
use contents::ReportCounts;
use edge_io::{StdSink, StdSource, SystemClock};
use etl_rules::Config;
use folder_disk::{Access, FolderDisk, Trouble};
use service::Post;
use service_watch::{Doors, Log, Ports, ServiceDoor, Stop, Telling, Unbound, tell_plain, watch};
use std::alloc::{AllocError, Global};
use std::env::{self, VarError};
use std::fs::{File, OpenOptions};
use std::io::ErrorKind;
use std::net::{Net, TcpListener, TcpStream};
use std::process::ExitCode;
use std::sync::{Arc, Wait};
use std::thread::{Threads, join};

fn main(rt: HostRuntime) -> ExitCode {
    let _nowhere = (open_nowhere(&rt), open_nowhere(&rt), open_nowhere(&rt));
    let ended = match prepare(&rt, &rt, &rt) {
        Ok((prepared, watched)) => match watched {
            Some(watched) => {
                let Watched {
                    stop,
                    file,
                    ports,
                    log,
                } = watched;
                // Where no thread can be made nobody watches: the run comes first then.
                let ((), ended) = join(
                    &rt,
                    || watch(&rt, &rt, &stop, &file, &ports, &log),
                    || {
                        let ended = run_over(&rt, &rt, prepared);
                        stop.tell_over();
                        ended
                    },
                );
                ended
            }
            None => run_over(&rt, &rt, prepared),
        },
        Err(err) => Err(err),
    };
    exit_code(&rt, ended)
}

// A file that is opened has the number of a standard stream that is closed. So three that lead nowhere are opened
// before all others and held to the end: what is written to a closed stream reaches no file of the archive.
fn open_nowhere(rt: &HostRuntime) -> Option<File> {
    let opened = OpenOptions::new()
        .read(true)
        .write(true)
        .open(rt, "/dev/null");
    opened.ok()
}

fn exit_code(rt: &HostRuntime, ended: Result<u8, VarError>) -> ExitCode {
    match ended {
        Ok(number) => ExitCode::from(number),
        Err(err) => {
            let status = match err {
                VarError::OutOfMemory => Status::OutOfMemory,
                VarError::NotPresent | VarError::NotUnicode => Status::DiskFault,
            };
            complain(&status, &mut StdSink::new(rt.stderr()));
            ExitCode::from(status.number())
        }
    }
}

// What a run is made over. The disk makes its threads by `H`.
#[derive(Drop)]
struct Prepared<'a, H> {
    arguments: Vec<String>,
    disk: FolderDisk<&'a HostRuntime, &'a H>,
    posts: Vec<Post<ServiceDoor<'a>>>,
    unbound: Option<Unbound>,
    // Nothing where no service is begun.
    telling: Option<Arc<Telling<'a>, Global>>,
}

// A service that a file ends, where its doors listen, and what it hands in to be told.
#[derive(Drop)]
struct Watched {
    stop: Arc<Stop, Global>,
    file: String,
    ports: Ports,
    log: Log,
}

// What the words and the environment ask for: the folders, and the doors of a service. A folder whose name
// isn't UTF-8 can't be used.
fn prepare<'a, H>(
    rt: &'a HostRuntime,
    threads: &'a H,
    net: &impl Net<Listener = TcpListener, Stream = TcpStream>,
) -> Result<(Prepared<'a, H>, Option<Watched>), VarError>
    ensures { IfOk result (λ r. vec_len r.0.posts ≤ 128) }
{
    let arguments = arguments(rt)?;
    let words = texts(rt.alloc(), &arguments)?;
    let site = variable(rt, "ARCHAPPL_SITE_FOLDER", "site")?;
    let short = variable(rt, "ARCHAPPL_SHORT_TERM_FOLDER", "sts")?;
    let medium = variable(rt, "ARCHAPPL_MEDIUM_TERM_FOLDER", "mts")?;
    let long = variable(rt, "ARCHAPPL_LONG_TERM_FOLDER", "lts")?;
    let folders = [
        site.as_str(),
        short.as_str(),
        medium.as_str(),
        long.as_str(),
    ];
    let disk = FolderDisk::new(rt, threads, rt.alloc(), access(&words), folders)?;
    let stop = Stop::shared(rt.alloc())?;
    let Doors {
        posts,
        unbound,
        ports,
        telling,
    } = opened_doors(rt, net, &words, folders, &stop)?;
    let watched = match (ports, &telling) {
        (Some(ports), Some(telling)) => Some(Watched {
            stop,
            file: format!(in rt.alloc(); "{site}/stop")?,
            ports,
            log: telling.log.again(),
        }),
        _ => None,
    };
    drop(words);
    let prepared = Prepared {
        arguments,
        disk,
        posts,
        unbound,
        telling,
    };
    Ok((prepared, watched))
}

// Runs over the standard streams, and tells what befell the disk and the ports behind the complaint.
fn run_over<H: Threads + Wait + Sync>(
    rt: &HostRuntime,
    handles: &H,
    prepared: Prepared<'_, H>,
) -> Result<u8, VarError>
    requires few { vec_len prepared.posts < 2 ^ 32 }
{
    let Prepared {
        arguments,
        disk,
        mut posts,
        unbound,
        telling,
    } = prepared;
    let disk = match telling {
        Some(telling) => counted(rt, handles, disk, &telling),
        None => disk,
    };
    let words = texts(rt.alloc(), &arguments)?;
    let mut source = StdSource::new(rt.stdin());
    let mut sink = StdSink::new(rt.stdout());
    let mut complaints = StdSink::new(rt.stderr());
    let mut clock = SystemClock::new(rt);
    let mut ended = run::run(
        handles,
        rt.alloc(),
        &words,
        &Config::shipped(),
        &mut source,
        &mut sink,
        &mut complaints,
        disk,
        &mut clock,
        posts.as_mut_slice(),
    );
    if ended.status == Status::DiskFault.number() {
        let trouble = match &mut ended.failed {
            Some(file) => file.take_trouble(),
            None => ended.disk.take_trouble(),
        };
        tell_trouble(rt, trouble);
    }
    tell_unbound(rt, unbound);
    Ok(ended.status)
}

// The disk, of which each fault is told from now on, where a service is to begin. What its archive has is told with the
// service's first line: a report finds it. Where that fails the service does too, and tells why.
fn counted<'a, H: Threads + Wait + Sync>(
    rt: &HostRuntime,
    handles: &H,
    disk: FolderDisk<&'a HostRuntime, &'a H>,
    telling: &Telling<'a>,
) -> FolderDisk<&'a HostRuntime, &'a H> {
    let mut contents = ReportCounts::none();
    let mut posts: [Post<ServiceDoor<'a>>; 0] = [];
    let mut ended = run::run(
        handles,
        rt.alloc(),
        &["status"],
        &Config::shipped(),
        &mut StdSource::new(rt.stdin()),
        &mut contents,
        &mut ReportCounts::none(),
        disk,
        &mut SystemClock::new(rt),
        &mut posts,
    );
    if ended.status == Status::Done.number() {
        telling.count(contents.variables, contents.files);
    }
    drop(ended.disk.take_trouble());
    match telling.log.faults() {
        Some(faults) => ended.disk.telling(faults),
        None => ended.disk,
    }
}

// The doors that the words ask for: none, unless they are those of `serve`.
fn opened_doors<'a>(
    rt: &'a HostRuntime,
    net: &impl Net<Listener = TcpListener, Stream = TcpStream>,
    words: &[&str],
    folders: [&str; 4],
    stop: &Arc<Stop, Global>,
) -> Result<Doors<'a>, VarError>
    ensures { IfOk result (λ doors. vec_len doors.posts ≤ 128) }
{
    let Some(asked) = serve_words(words) else {
        return Ok(Doors::none(rt.alloc()));
    };
    let address = variable(rt, "ARCHAPPL_LISTEN_ADDRESS", "127.0.0.1")?;
    Ok(Doors::open(net, rt, folders, address, &asked, stop)?)
}

// The commands that change nothing leave others beside them, and need not be allowed to write. An adoption takes stores
// that have no mark yet, and goes on where one was stopped on its way.
fn access(words: &[&str]) -> Access {
    match words.first() {
        Some(word) if ["get", "status", "check"].contains(word) => Access::Read,
        Some(word) if *word == "adopt" => Access::Adopt,
        _ => Access::Write,
    }
}

// A line with the path and the system's error.
fn tell_trouble(rt: &HostRuntime, trouble: Option<Trouble>) {
    let Some(trouble) = trouble else {
        return;
    };
    if let Ok(line) = format!(in rt.alloc(); "archappl: {trouble}\n") {
        tell_plain(rt, &line);
    }
}

// A line with the port that couldn't be bound and the system's error.
fn tell_unbound(rt: &HostRuntime, unbound: Option<Unbound>) {
    let Some(Unbound { port, error }) = unbound else {
        return;
    };
    if let Ok(line) = format!(in rt.alloc(); "archappl: port {port}: {error}\n") {
        tell_plain(rt, &line);
    }
}

// The arguments. One that isn't UTF-8 makes a faulty command line, as no words do.
fn arguments(rt: &HostRuntime) -> Result<Vec<String>, AllocError> {
    let mut words = Vec::new(rt.alloc());
    match env::args(rt) {
        Ok(args) => {
            for word in args.skip(1) {
                words.push(word)?;
            }
        }
        Err(err) if err.kind() == ErrorKind::OutOfMemory => return Err(AllocError),
        Err(_) => {}
    }
    Ok(words)
}

fn texts<'a>(alloc: Global, words: &'a [String]) -> Result<Vec<&'a str>, AllocError> {
    let mut texts = Vec::new(alloc);
    for word in words {
        texts.push(word.as_str())?;
    }
    Ok(texts)
}

// What the environment says of this name, or else this. An empty text says nothing.
fn variable(rt: &HostRuntime, name: &str, default: &str) -> Result<String, VarError> {
    match env::var(rt, name) {
        Ok(text) if !text.is_empty() => Ok(text),
        Ok(_) | Err(VarError::NotPresent) => Ok(default.to_string(rt.alloc())?),
        Err(err) => Err(err),
    }
}
