// Syncs of many names at once, in threads. A thread is given open files alone: what opens them stays with the caller.
use super::{Access, Folders, not_a_file};
use crate::paths::ancestors;
use disk_model::FileName;
use std::alloc::Global;
use std::collections::{BTreeSet, VecDeque};
use std::fs::{self, File, OpenOptions};
use std::io::{self, ErrorKind};
use std::rt::Files;
use std::thread::{Builder, JoinHandle, Promise, Threads};

// So many threads sync at a time.
const THREADS: usize = 32;

// So many files and folders a thread syncs at most.
const SHARE: usize = 8;

// So many files stay open at most that were changed and aren't synced yet.
const MOST_CHANGED: usize = THREADS * SHARE;

// The stack of a thread that syncs, which calls nothing deep: the C library keeps small stacks for the next threads.
const STACK: usize = 262_144;

// Fewer names are synced in turn, without threads.
const FEW: usize = 4;

#[derive(Clone, Copy, PartialEq, Eq)]
enum PathKind {
    File,
    Folder,
}

// A path that is to be synced.
#[derive(Drop)]
struct Target {
    path: String,
    kind: PathKind,
}

// What is to be synced at a path.
#[derive(Drop)]
struct Job {
    path: String,
    kind: PathKind,
    // It is open until it is synced.
    file: Option<File>,
    // Why its sync failed, where it did.
    failed: Option<io::Error>,
}

impl Job {
    fn run(&mut self) {
        if let Some(file) = self.file.take() {
            let written = match self.kind {
                PathKind::File => file.sync_data(),
                PathKind::Folder => file.sync_all(),
            };
            self.failed = written.err();
        }
    }
}

// Syncs one after another, up to the first that fails.
fn run_share(mut share: Vec<Job>) -> Vec<Job> {
    for job in share.iter_mut() {
        job.run();
        if job.failed.is_some() {
            break;
        }
    }
    share
}

// What a thread promises of the jobs that it gives back: nothing.
#[derive(Drop)]
struct Anything;

impl Promise<Vec<Job>> for Anything {
    ghost kept_by = { λ _ _. Unit {0} };
}

// A share of the jobs: in a thread, or done by the caller where no thread could be made.
#[derive(Drop)]
enum Share {
    Running(JoinHandle<Vec<Job>>),
    Done(Vec<Job>),
}

impl Share {
    fn start<H: Threads>(rt: &H, jobs: Vec<Job>) -> Share {
        let thread = Builder::new().stack_size(STACK);
        match thread.spawn_with(rt, Anything, move || run_share(jobs)) {
            Ok(running) => Share::Running(running.forget_promise()),
            Err(refused) => Share::Done((refused.value)()),
        }
    }

    fn ended<H: Threads>(self, rt: &H) -> Vec<Job> {
        match self {
            Share::Running(running) => running.join(rt),
            Share::Done(jobs) => jobs,
        }
    }
}

fn has_failed(shares: &[Vec<Job>]) -> bool {
    for share in shares {
        for job in share {
            if job.failed.is_some() {
                return true;
            }
        }
    }
    false
}

impl<R: Files<File = File> + Drop> Folders<R> {
    // Syncs each name, as `sync` does. Of all that failed the path of the first is noted, files before folders.
    pub fn sync_each<H: Threads>(&mut self, rt: &H, names: &[FileName]) -> io::Result<()> {
        if names.len() < FEW || self.access == Access::Read || self.failed {
            return self.sync_in_turn(names);
        }
        self.begin()?;
        self.prepare_stores(names)?;
        let targets = self.targets(names)?;
        self.sync_targets(rt, &targets)?;
        self.settled.clear();
        self.check_all_synced(names)
    }

    // Syncs the files that wait for it, where they are as many as may be open.
    pub(super) fn sync_many_changed<H: Threads>(&mut self, rt: &H) -> io::Result<()> {
        if self.changed.len() < MOST_CHANGED {
            return Ok(());
        }
        self.may_sync()?;
        let targets = self.changed_files()?;
        self.sync_targets(rt, &targets)?;
        for target in targets {
            self.settled.insert(target.path)?;
        }
        Ok(())
    }

    fn changed_files(&self) -> io::Result<Vec<Target>> {
        let mut targets = Vec::with_capacity(self.alloc, self.changed.len())?;
        for path in self.changed.keys() {
            let path = String::from_str(self.alloc, path.as_str())?;
            let kind = PathKind::File;
            targets.push(Target { path, kind })?;
        }
        Ok(targets)
    }

    fn sync_in_turn(&mut self, names: &[FileName]) -> io::Result<()> {
        for name in names {
            let synced = self.sync(name);
            if synced.is_err() {
                self.place = self.place_of(Some(name));
            }
            synced?;
        }
        Ok(())
    }

    // Syncs what has the folders of these names' stores, and has the files that these hold wait for their sync.
    fn prepare_stores(&mut self, names: &[FileName]) -> io::Result<()> {
        for store in 0..4u8 {
            if names.iter().any(|name| name.store == store) {
                let root = self.root_copy(store)?;
                self.sync_above(root.as_str())?;
                self.set_aside(store)?;
            }
        }
        Ok(())
    }

    // The folders of these names' stores are still those that were locked.
    fn check_all_synced(&mut self, names: &[FileName]) -> io::Result<()> {
        for store in 0..4u8 {
            if names.iter().any(|name| name.store == store) {
                self.check_synced(store)?;
            }
        }
        Ok(())
    }

    // The names' files, and then the folders that lead to them, each once, of those that aren't known to be synced.
    fn targets(&self, names: &[FileName]) -> io::Result<Vec<Target>> {
        let mut targets = Vec::new(self.alloc);
        let mut folders = BTreeSet::new(self.alloc);
        for name in names {
            let path = self.path(name)?;
            let root = self.root(name.store)?.len();
            for folder in ancestors(self.alloc, path.as_str(), root)? {
                if !self.synced.contains(folder) && !folders.contains(folder) {
                    folders.insert(String::from_str(self.alloc, folder)?)?;
                }
            }
            if !self.settled.contains(path.as_str()) {
                let kind = PathKind::File;
                targets.push(Target { path, kind })?;
            }
        }
        for path in folders {
            let kind = PathKind::Folder;
            targets.push(Target { path, kind })?;
        }
        Ok(targets)
    }

    // Syncs each target, in threads, which begin as soon as their share is open. Until all have answered a sync counts
    // as failed, so that no answer is lost.
    fn sync_targets<H: Threads>(&mut self, rt: &H, targets: &[Target]) -> io::Result<()> {
        let size = (targets.len() / THREADS).clamp(1, SHARE);
        let mut running = VecDeque::with_capacity(self.alloc, THREADS)?;
        let mut ended = Vec::with_capacity(self.alloc, targets.len())?;
        let mut opened = Ok(());
        self.failed = true;
        for share in targets.chunks(size) {
            match self.opened_share(share) {
                Ok(jobs) => running.push_back(Share::start(rt, jobs))?,
                Err(e) => {
                    opened = Err(e);
                    break;
                }
            }
            if running.len() >= THREADS
                && let Some(share) = running.pop_front()
            {
                ended.push(share.ended(rt))?;
            }
        }
        for share in running {
            ended.push(share.ended(rt))?;
        }
        self.failed = has_failed(&ended);
        self.answered(ended)?;
        opened
    }

    // What is there of these paths, open.
    fn opened_share(&mut self, targets: &[Target]) -> io::Result<Vec<Job>> {
        let mut share = Vec::new(self.alloc);
        for target in targets {
            if let Some(job) = self.opened(target)? {
                share.push(job)?;
            }
        }
        Ok(share)
    }

    // Nothing where nothing has the path. A link, a pipe or a folder in a file's place is refused.
    fn opened(&mut self, target: &Target) -> io::Result<Option<Job>> {
        let path = target.path.as_str();
        let opened = match target.kind {
            PathKind::File => self.opened_file(path),
            PathKind::Folder => fs::open(&self.files, path),
        };
        match opened {
            Ok(file) => Ok(Some(Job {
                path: String::from_str(self.alloc, path)?,
                kind: target.kind,
                file: Some(file),
                failed: None,
            })),
            Err(e) if e.kind() == ErrorKind::NotFound => Ok(None),
            Err(e) => self.noted(path, Err(e)),
        }
    }

    // A file that waits for its sync, or else one that is opened for it.
    fn opened_file(&mut self, path: &str) -> io::Result<File> {
        if let Some(file) = self.changed.remove(path) {
            return Ok(file);
        }
        if self.size_of(path)?.is_none() {
            return Err(ErrorKind::NotFound.into());
        }
        OpenOptions::new()
            .read(true)
            .write(true)
            .open(&self.files, path)
    }

    // The first error of all. The folders that were synced are remembered.
    fn answered(&mut self, shares: Vec<Vec<Job>>) -> io::Result<()> {
        for share in shares {
            for job in share {
                if let Some(e) = job.failed {
                    return self.noted(job.path.as_str(), Err(e));
                }
                if job.kind == PathKind::Folder {
                    self.synced.insert(job.path)?;
                }
            }
        }
        Ok(())
    }
}
