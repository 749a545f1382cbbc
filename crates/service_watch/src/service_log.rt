// What a service hands in to be told.
use crate::drops::Drops;
use disk_model::FileName;
use folder_disk::{FaultMet, Faults};
use series_model::Reason;
use service::Gate;
use std::alloc::{AllocError, Global};
use std::sync::{Arc, Mutex, MutexGuard};
use std::thread::yield_now;
use std::{mem, str};

// How often a lock is tried that nobody keeps for long.
const TRIES: u32 = 1_000;

// What those hand in who work in a service.
#[derive(Drop)]
struct Notes {
    alloc: Global,
    faults: Arc<Faults, Global>,
    drops: Mutex<Drops>,
}

/// Where those who work in a service hand in what is to be told: nowhere, where nobody tells it.
#[derive(Drop)]
pub struct Log {
    notes: Option<Arc<Notes, Global>>,
}

impl Log {
    /// Where nobody tells anything.
    pub fn none() -> Log {
        Log { notes: None }
    }

    /// For a service.
    pub fn shared(alloc: Global) -> Result<Log, AllocError> {
        let faults = Faults::shared(alloc)?;
        let notes = Notes {
            alloc,
            faults,
            drops: Mutex::new(Drops::none(alloc)),
        };
        Ok(Log {
            notes: Some(Arc::new(alloc, notes)?),
        })
    }

    /// The same, for one more who works.
    pub fn again(&self) -> Log {
        Log {
            notes: match &self.notes {
                Some(notes) => Arc::try_clone(notes).ok(),
                None => None,
            },
        }
    }

    /// Where its disk hands in faults.
    pub fn faults(&self) -> Option<Arc<Faults, Global>> {
        match &self.notes {
            Some(notes) => Arc::try_clone(&notes.faults).ok(),
            None => None,
        }
    }

    /// Takes the faults that nobody took yet.
    pub fn take_faults(&self) -> Option<Vec<FaultMet>> {
        match &self.notes {
            Some(notes) => Some(notes.faults.take()),
            None => None,
        }
    }

    /// A file is damaged, in which the first bad line begins at this place.
    pub fn damage(&self, name: &FileName, at: u64) {
        if let Some(notes) = &self.notes {
            notes.damage(name, at);
        }
    }

    /// A sample of this name was dropped.
    pub fn dropped(&self, reason: Reason, name: &[u8]) {
        let Some(notes) = &self.notes else {
            return;
        };
        if let Some(mut drops) = notes.locked() {
            drops.count(reason, name);
        }
    }

    /// Takes what was dropped and nobody took yet.
    pub fn take_drops(&self) -> Option<Drops> {
        let Some(notes) = &self.notes else {
            return None;
        };
        let mut drops = notes.locked()?;
        if drops.total() == 0 {
            return None;
        }
        Some(mem::replace(&mut *drops, Drops::none(notes.alloc)))
    }
}

impl Notes {
    // Nothing where others have the lock whenever it is tried.
    fn locked(&self) -> Option<MutexGuard<'_, Drops>> {
        for _ in 0..TRIES {
            if let Some(drops) = self.drops.try_lock() {
                return Some(drops);
            }
            yield_now();
        }
        None
    }

    // A file is damaged, in which the first bad line begins at this place.
    fn damage(&self, name: &FileName, at: u64) {
        let store = name.store;
        let path = str::from_utf8(&name.path).unwrap_or("?");
        if let Ok(text) = format!(in self.alloc; "damaged: {store} {path} at {at}") {
            self.faults.meet(text);
        }
    }
}

impl Gate for Log {
    ghost entered = { λ gate post. Unit {0} };

    ghost left = { λ gate post. Unit {0} };

    fn enter(&self, _post: usize) {}

    fn leave(&self, _post: usize) {}

    fn damaged(&self, name: &FileName, at: u64) {
        self.damage(name, at);
    }
}

/// A door whose service may have a log.
pub trait Logged {
    /// Where those hand in what is to be told who serve its links.
    fn log(&self) -> Log;
}
