// Who tells what a service handed in.
use crate::service_log::Log;
use crate::telling::tell;
use folder_disk::FaultMet;
use std::time::Instant;

// For so many seconds a fault isn't met that is over, and so many lie between two lines of one that stays.
const MINUTE: u64 = 60;

// So many faults are remembered at most. Further ones are told whenever they are met.
const MOST: usize = 256;

// A fault that was told, and may be met again.
#[derive(Drop)]
struct StandingFault {
    text: String,
    // The seconds at which it was told last, and met last.
    told: u64,
    met: u64,
    // How often it was met since it was told last, and in all.
    since: u64,
    times: u64,
}

impl StandingFault {
    fn is_over(&self, now: u64) -> bool {
        now.saturating_sub(self.met) >= MINUTE
    }

    // Whether this one was met.
    fn meet(&mut self, met: &FaultMet, now: u64) -> bool {
        if self.text.as_str() != met.text.as_str() {
            return false;
        }
        self.met = now;
        self.since = self.since.saturating_add(met.times);
        self.times = self.times.saturating_add(met.times);
        true
    }

    // Tells that it is over, where it was met more than once, or after a minute that it stays.
    fn tell(&mut self, rt: &HostRuntime, now: u64) {
        let text = self.text.as_str();
        if self.is_over(now) {
            let times = self.times;
            if times > 1 {
                tell(
                    rt,
                    format!(in rt.alloc(); "{text} (no more for a minute; {times} times in all)"),
                );
            }
        } else if self.since > 0 && now.saturating_sub(self.told) >= MINUTE {
            let since = self.since;
            tell(rt, format!(in rt.alloc(); "{text} ({since} times more)"));
            self.told = now;
            self.since = 0;
        }
    }
}

/// Tells what was handed in: a fault when it is met, again each minute while it is met again, and once it wasn't for a
/// minute; and at most once a minute how many samples were dropped.
#[derive(Drop)]
pub struct Teller {
    begun: Option<Instant>,
    standing: Vec<StandingFault>,
    // The seconds at which it told of dropped samples last.
    dropped: Option<u64>,
}

impl Teller {
    /// One that has told nothing.
    pub fn new(rt: &HostRuntime) -> Teller {
        Teller {
            begun: Instant::now(rt).ok(),
            standing: Vec::new(rt.alloc()),
            dropped: None,
        }
    }

    /// Tells what is to be told by now, or all, where the service is over.
    pub fn tell(&mut self, rt: &HostRuntime, log: &Log, is_over: bool) {
        let now = self.seconds(rt);
        if let Some(faults) = log.take_faults() {
            for met in faults {
                self.meet(rt, met, now);
            }
        }
        for fault in self.standing.iter_mut() {
            fault.tell(rt, now);
        }
        self.standing.retain(|fault| !fault.is_over(now));
        if is_over || self.may_tell_drops(now) {
            self.tell_drops(rt, log, now);
        }
    }

    fn may_tell_drops(&self, now: u64) -> bool {
        match self.dropped {
            Some(told) => now.saturating_sub(told) >= MINUTE,
            None => true,
        }
    }

    fn tell_drops(&mut self, rt: &HostRuntime, log: &Log, now: u64) {
        if let Some(drops) = log.take_drops() {
            tell(rt, drops.text(rt.alloc()));
            self.dropped = Some(now);
        }
    }

    /// How many seconds it has been at work. 0 where the clock can't be read.
    pub fn seconds(&self, rt: &HostRuntime) -> u64 {
        let Some(begun) = self.begun else {
            return 0;
        };
        match begun.elapsed(rt) {
            Ok(time) => time.as_secs(),
            Err(_) => 0,
        }
    }

    // A fault was met, which is told unless it was.
    fn meet(&mut self, rt: &HostRuntime, met: FaultMet, now: u64) {
        for fault in self.standing.iter_mut() {
            if fault.meet(&met, now) {
                return;
            }
        }
        let FaultMet { text, times } = met;
        tell(rt, format!(in rt.alloc(); "{text}"));
        if self.standing.len() < MOST {
            let _ = self.standing.push(StandingFault {
                text,
                told: now,
                met: now,
                since: times.saturating_sub(1),
                times,
            });
        }
    }
}
