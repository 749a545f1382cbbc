// What a service tells on standard error while it runs.
use crate::service_log::Log;
use crate::stopping::Ports;
use arch_time::{END, print_iso};
use edge_io::{Clock, StdSink, SystemClock, write_whole};
use std::alloc::{AllocError, Global};
use std::sync::Arc;
use std::sync::atomic::{AtomicBool, AtomicU64, Ordering};
use std::time::Instant;

// How many bytes a time to the second has, as `2012-09-27T08:00:00`.
const SECONDS: usize = 19;

/// What a service has to tell: where it serves, once it does, and each door that failed.
#[derive(Drop)]
pub struct Telling<'a> {
    rt: &'a HostRuntime,
    /// Where it listens and what it serves.
    place: String,
    begun: Option<Instant>,
    // How many variables and files the archive has, where they were counted.
    counted: AtomicBool,
    variables: AtomicU64,
    files: AtomicU64,
    told: AtomicBool,
    /// What those hand in who work in it.
    pub log: Log,
}

impl<'a> Telling<'a> {
    /// For a service by these ports over these folders, whose opening begins now.
    pub fn shared(
        rt: &'a HostRuntime,
        ports: &Ports,
        folders: [&str; 4],
    ) -> Result<Arc<Telling<'a>, Global>, AllocError> {
        let Ports {
            address,
            feed_port,
            http_port,
            ..
        } = ports;
        let [site, short, medium, long] = folders;
        let place = format!(in rt.alloc();
            "{address}: feeds at port {feed_port}, HTTP at port {http_port}; folders {site}, {short}, {medium}, {long}"
        )?;
        let telling = Telling {
            rt,
            place,
            begun: Instant::now(rt).ok(),
            counted: AtomicBool::new(false),
            variables: AtomicU64::new(0),
            files: AtomicU64::new(0),
            told: AtomicBool::new(false),
            log: Log::shared(rt.alloc())?,
        };
        Ok(Arc::new(rt.alloc(), telling)?)
    }

    /// Takes how many variables and files the archive has, before the service begins.
    pub fn count(&self, variables: u64, files: u64) {
        self.variables.store(variables, Ordering::SeqCst);
        self.files.store(files, Ordering::SeqCst);
        self.counted.store(true, Ordering::SeqCst);
    }

    /// Tells once, whoever asks first, that it serves. The archive is open then.
    pub fn opened(&self) {
        if self.told.fetch_or(true, Ordering::SeqCst) {
            return;
        }
        tell(self.rt, self.opened_line());
    }

    fn opened_line(&self) -> Result<String, AllocError> {
        let alloc = self.rt.alloc();
        let place = self.place.as_str();
        let mut line = format!(in alloc; "listening on {place}")?;
        if self.counted.load(Ordering::SeqCst) {
            let variables = self.variables.load(Ordering::SeqCst);
            let files = self.files.load(Ordering::SeqCst);
            line.push_str(&format!(in alloc; "; variables {variables}, files {files}")?)?;
        }
        if let Some(millis) = self.opening() {
            line.push_str(&format!(in alloc; "; opened in {millis} ms")?)?;
        }
        Ok(line)
    }

    // How many milliseconds the opening took.
    fn opening(&self) -> Option<u128> {
        Some(self.begun?.elapsed(self.rt).ok()?.as_millis())
    }

    /// Tells that a door at this port failed.
    pub fn failed(&self, port: u16) {
        tell(
            self.rt,
            format!(in self.rt.alloc(); "port {port}: no connections by one of its doors any more"),
        );
    }
}

/// Writes a line with its time to standard error. Nobody is left to hear where it can't be written, and it is left out
/// where memory is wanting for it.
pub fn tell(rt: &HostRuntime, text: Result<String, AllocError>) {
    let Ok(text) = text else {
        return;
    };
    let line = match time_text(rt) {
        Some(time) => format!(in rt.alloc(); "archappl: {time}Z {text}\n"),
        None => format!(in rt.alloc(); "archappl: {text}\n"),
    };
    if let Ok(line) = line {
        tell_plain(rt, &line);
    }
}

/// Writes a line as it is to standard error.
pub fn tell_plain(rt: &HostRuntime, line: &str) {
    let _ = write_whole(&mut StdSink::new(rt.stderr()), line.as_bytes());
}

// The time to the second, as `2012-09-27T08:00:00`. Nothing where the clock can't be read, or memory is wanting.
fn time_text(rt: &HostRuntime) -> Option<String> {
    let now = SystemClock::new(rt).now();
    if now == 0 || now >= END {
        return None;
    }
    let mut text = Vec::new(rt.alloc());
    print_iso(now, &mut text).ok()?;
    text.truncate(SECONDS);
    String::from_utf8(text).ok()
}
