// What is done before the first call: locks are taken, and the folders' marks are looked at. And their marking, and the
// look whether a folder is still the one that was locked.
//
// An archive's site has an identity, which the marks of its three stores have too. Marking goes by these steps, each of
// which is on the disk before the next: the site's mark, then those of the stores, then the line in the site's that all
// are there. So without that line marking goes on where it was broken off, and with it a store's folder without its
// mark isn't the archive's.
use super::{ADOPTION, Access, Claim, Folders, LOCK, Lock, is_closed, read_from};
use crate::marks::{DONE, MARK, Mark, ROOM, identity_of, line_of, mark_of, word_of};
use std::fs::{self, File, Metadata, OpenOptions, TryLockError};
use std::io::{self, ErrorKind};
use std::os::unix::fs::{FileExt, MetadataExt};
use std::rt::Files;

// Where random bytes are read.
const RANDOM: &str = "/dev/urandom";

// The bytes of a manifest that has its configuration and never listed a file.
const BEGUN: u64 = 8;

// The bytes of a manifest's file of generations that tells none.
const NONE_TOLD: u64 = 1;

// Whether nothing has a path, or something else stands where a folder on it was.
fn is_absence(kind: ErrorKind) -> bool {
    matches!(kind, ErrorKind::NotFound | ErrorKind::NotADirectory)
}

// The numbers of a file's device and of its inode there.
fn inode_of(found: &Metadata) -> (u64, u64) {
    (found.dev(), found.ino())
}

impl<R: Files<File = File> + Drop> Folders<R> {
    // Before the first call: takes the locks, and looks whether the stores have folders of their
    // own that are the archive's.
    pub(super) fn begin(&mut self) -> io::Result<()> {
        if matches!(self.claim, Claim::Waits) {
            self.claim = self.take_claim()?;
        }
        Ok(())
    }

    // Before a change of a name's file: no file of a store is changed before the folders have their marks. By then
    // whoever changes it has found in the stores what the site lists. Whoever adopts stores changes none of their
    // files: it marks them before it changes one of the site's.
    pub(super) fn begin_change(&mut self, store: u8) -> io::Result<()> {
        self.begin()?;
        let needs_marks = match self.access {
            Access::Read => false,
            Access::Write => store != 0,
            Access::Adopt => true,
        };
        if needs_marks && !self.is_marked {
            self.put_marks()?;
            self.is_marked = true;
        }
        Ok(())
    }

    // The locks are taken in the order of the stores.
    fn take_claim(&mut self) -> io::Result<Claim> {
        let mut locks = Vec::new(self.alloc);
        let root = self.root_copy(0)?;
        if self.access.may_write() {
            self.make_root(root.as_str())?;
        } else {
            let found = fs::exists(&self.files, root.as_str());
            if !self.noted(root.as_str(), found)? {
                return Ok(Claim::Empty);
            }
        }
        locks.push(self.take_lock(0, LOCK, true)?)?;
        let site = self.mark(0)?;
        self.check_site(site.as_ref())?;
        self.check_adoption()?;
        let is_marked = matches!(&site, Some(mark) if mark.is_done);
        let may_make = self.access.may_write() && !is_marked;
        if may_make {
            self.make_stores()?;
        }
        self.stand_apart()?;
        for store in 1..4u8 {
            locks.push(self.take_lock(store, MARK, may_make)?)?;
            self.check_store(store, site.as_ref())?;
        }
        self.is_marked = is_marked;
        Ok(Claim::Taken(locks))
    }

    fn make_stores(&mut self) -> io::Result<()> {
        for store in 1..4u8 {
            let root = self.root_copy(store)?;
            self.make_root(root.as_str())?;
        }
        Ok(())
    }

    // Two stores in one folder would write over each other's files.
    fn stand_apart(&mut self) -> io::Result<()> {
        let mut seen: Vec<(u64, u64)> = Vec::new(self.alloc);
        for store in 0..4u8 {
            let root = self.root_copy(store)?;
            match fs::metadata(&self.files, root.as_str()) {
                Ok(found) => {
                    let folder = inode_of(&found);
                    if seen.contains(&folder) {
                        let twice = io::Error::new(ErrorKind::InvalidInput, "folder of two stores");
                        return self.noted(root.as_str(), Err(twice));
                    }
                    seen.push(folder)?;
                }
                Err(e) if e.kind() == ErrorKind::NotFound => {}
                Err(e) => return self.noted(root.as_str(), Err(e)),
            }
        }
        Ok(())
    }

    // Locks

    // The lock of a folder, alone or with others that read, if there is a file for it.
    fn take_lock(&mut self, store: u8, name: &str, may_make: bool) -> io::Result<Option<Lock>> {
        let root = self.root_copy(store)?;
        let path = format!(in self.alloc; "{root}/{name}")?;
        let locked = self.lock(path.as_str(), may_make);
        self.noted(path.as_str(), locked)
    }

    fn lock(&self, path: &str, may_make: bool) -> io::Result<Option<Lock>> {
        let Some(file) = self.open_lock(path, may_make)? else {
            return Ok(None);
        };
        let taken = if self.access.may_write() {
            file.try_lock()
        } else {
            file.try_lock_shared()
        };
        match taken {
            Ok(()) => {
                let path = String::from_str(self.alloc, path)?;
                let inode = inode_of(&file.metadata()?);
                Ok(Some(Lock {
                    path,
                    file,
                    inode,
                    was_seen: false,
                }))
            }
            Err(TryLockError::WouldBlock) => {
                let held = "lock held by another program";
                Err(io::Error::new(ErrorKind::WouldBlock, held))
            }
            Err(TryLockError::Error(e)) => Err(e),
        }
    }

    // The file that is locked, which is made where there is none and it may be. One that only reads goes
    // without where it may make none.
    fn open_lock(&self, path: &str, may_make: bool) -> io::Result<Option<File>> {
        let is_there = self.size_of(path)?.is_some();
        if !is_there && !may_make {
            return Ok(None);
        }
        let made = OpenOptions::new()
            .read(true)
            .write(true)
            .create(true)
            .open(&self.files, path);
        match made {
            Ok(file) => Ok(Some(file)),
            Err(e) if is_closed(e.kind()) && is_there => Ok(Some(fs::open(&self.files, path)?)),
            Err(e) if is_closed(e.kind()) && !self.access.may_write() => Ok(None),
            Err(e) => Err(e),
        }
    }

    // The lock of a store's folder, if it has one.
    fn lock_of(&mut self, store: u8) -> Option<&mut Lock> {
        match &mut self.claim {
            Claim::Taken(locks) => locks.get_mut(store as usize)?.as_mut(),
            _ => None,
        }
    }

    // Before a file of a store is opened or made by its path: as `check_folder`, but once between two syncs, since each
    // sync looks before anything is told durable.
    pub(super) fn check_folder_once(&mut self, store: u8) -> io::Result<()> {
        if self.lock_of(store).is_some_and(|lock| lock.was_seen) {
            return Ok(());
        }
        self.check_folder(store)?;
        self.set_seen(store, true);
        Ok(())
    }

    fn set_seen(&mut self, store: u8, was_seen: bool) {
        if let Some(lock) = self.lock_of(store) {
            lock.was_seen = was_seen;
        }
    }

    // Behind a sync of a store.
    pub(super) fn check_synced(&mut self, store: u8) -> io::Result<()> {
        self.set_seen(store, false);
        self.check_folder(store)
    }

    // Whether a store's folder is still the one that was locked. Where it went away, or another one is in its place, as
    // that beneath a mount, what is written there would be lost.
    pub(super) fn check_folder(&mut self, store: u8) -> io::Result<()> {
        match self.has_locked(store) {
            Ok(true) => Ok(()),
            Ok(false) => self.not_mounted(store),
            Err(e) => {
                let root = self.root_copy(store)?;
                self.noted(root.as_str(), Err(e))
            }
        }
    }

    // Whether a folder has in it the file that was locked, if one was.
    fn has_locked(&self, store: u8) -> io::Result<bool> {
        let Claim::Taken(locks) = &self.claim else {
            return Ok(true);
        };
        let Some(Some(lock)) = locks.get(store as usize) else {
            return Ok(true);
        };
        match fs::symlink_metadata(&self.files, lock.path.as_str()) {
            Ok(found) => Ok(inode_of(&found) == lock.inode),
            Err(e) if is_absence(e.kind()) => Ok(false),
            Err(e) => Err(e),
        }
    }

    // Marks

    fn mark_path(&self, store: u8) -> io::Result<String> {
        let root = self.root(store)?;
        Ok(format!(in self.alloc; "{root}/{MARK}")?)
    }

    // The mark of a folder, if it has a whole one.
    fn mark(&mut self, store: u8) -> io::Result<Option<Mark>> {
        let path = self.mark_path(store)?;
        let found = self.mark_at(path.as_str());
        self.noted(path.as_str(), found)
    }

    fn mark_at(&self, path: &str) -> io::Result<Option<Mark>> {
        if self.size_of(path)?.is_none() {
            return Ok(None);
        }
        let file = fs::open(&self.files, path)?;
        let mut bytes = [0; ROOM];
        let n = read_from(&file, 0, &mut bytes)?;
        Ok(mark_of(self.alloc, &bytes[..n])?)
    }

    // The folder of a store is no site's.
    fn check_site(&mut self, site: Option<&Mark>) -> io::Result<()> {
        match site {
            Some(mark) if mark.store != 0 => self.other_place(0, mark),
            _ => Ok(()),
        }
    }

    // No adoption is left unfinished. Whoever wrote then might make a file anew that stands and isn't listed yet.
    fn check_adoption(&mut self) -> io::Result<()> {
        if self.access != Access::Write {
            return Ok(());
        }
        let path = format!(in self.alloc; "{}/{ADOPTION}", self.root(0)?)?;
        let found = self.size_of(path.as_str());
        match self.noted(path.as_str(), found)? {
            Some(_) => self.refuse(path, "adoption not finished, run archappl adopt again"),
            None => Ok(()),
        }
    }

    // Whether a folder may be the store's of this archive.
    fn check_store(&mut self, store: u8, site: Option<&Mark>) -> io::Result<()> {
        match (self.mark(store)?, site) {
            (Some(found), Some(site)) if found.identity == site.identity => {
                if found.store == store {
                    Ok(())
                } else {
                    self.other_place(store, &found)
                }
            }
            (Some(found), _) => self.other_archive(store, &found, site),
            (None, Some(site)) if site.is_done => self.not_mounted(store),
            (None, _) => {
                if self.access == Access::Write
                    && !self.may_have_listed(store)?
                    && self.has_files(store)?
                {
                    return self.strange_files(store);
                }
                Ok(())
            }
        }
    }

    // Whether the site may have listed a file of the store: its manifest has more than its
    // configuration, or has begun anew.
    fn may_have_listed(&mut self, store: u8) -> io::Result<bool> {
        let manifest = format!(in self.alloc; "{}/manifest{store}", self.root(0)?)?;
        let generations = format!(in self.alloc; "{manifest}.at")?;
        Ok(
            self.is_longer(manifest.as_str(), BEGUN)?
                || self.is_longer(generations.as_str(), NONE_TOLD)?,
        )
    }

    // Whether a file is there and has more bytes than these.
    fn is_longer(&mut self, path: &str, bytes: u64) -> io::Result<bool> {
        let size = self.size_of(path);
        let size = self.noted(path, size)?;
        Ok(size.is_some_and(|size| bytes < size))
    }

    // Whether a store's folder has a file beside its mark, there or in a folder below. One that may not be
    // listed isn't looked into.
    fn has_files(&mut self, store: u8) -> io::Result<bool> {
        let mark = self.mark_path(store)?;
        let mut waiting = Vec::new(self.alloc);
        waiting.push(self.root_copy(store)?)?;
        for _ in 0..u64::MAX {
            let Some(folder) = waiting.pop() else {
                return Ok(false);
            };
            match self.has_file_in(folder.as_str(), mark.as_str(), &mut waiting) {
                Ok(true) => return Ok(true),
                Ok(false) => {}
                Err(e) if e.kind() == ErrorKind::PermissionDenied => {}
                Err(e) => return self.noted(folder.as_str(), Err(e)),
            }
        }
        Ok(true)
    }

    fn has_file_in(&self, folder: &str, mark: &str, waiting: &mut Vec<String>) -> io::Result<bool> {
        for entry in fs::read_dir(&(&self.files, self.alloc), folder)? {
            let entry = entry?;
            let path = format!(in self.alloc; "{folder}/{}", entry.file_name())?;
            if entry.file_type()?.is_dir() {
                waiting.push(path)?;
            } else if path.as_str() != mark {
                return Ok(true);
            }
        }
        Ok(false)
    }

    // Faults

    fn not_mounted(&mut self, store: u8) -> io::Result<()> {
        let root = self.root(store)?;
        let place = format!(in self.alloc; "{} folder {root} isn't the archive's", word_of(store))?;
        self.refuse(place, "not mounted?")
    }

    fn other_archive(&mut self, store: u8, found: &Mark, site: Option<&Mark>) -> io::Result<()> {
        let (root, site_root) = (self.root(store)?, self.root(0)?);
        let (word, identity) = (word_of(store), found.identity.as_str());
        let place = match site {
            Some(site) => format!(in self.alloc;
                "{word} folder {root} of archive {identity}, site folder {site_root} of archive {}",
                site.identity
            )?,
            None => format!(in self.alloc;
                "{word} folder {root} of archive {identity}, site folder {site_root} of none"
            )?,
        };
        self.refuse(place, "not one archive")
    }

    fn other_place(&mut self, store: u8, found: &Mark) -> io::Result<()> {
        let root = self.root(store)?;
        let place = format!(in self.alloc; "{} folder {root}", word_of(store))?;
        let why = format!(in self.alloc; "marked as a {} folder", word_of(found.store))?;
        self.refuse(place, why.as_str())
    }

    fn strange_files(&mut self, store: u8) -> io::Result<()> {
        let (root, site) = (self.root(store)?, self.root(0)?);
        let place = format!(in self.alloc;
            "{} folder {root} beside site folder {site}",
            word_of(store)
        )?;
        self.refuse(place, "has files that the site doesn't list")
    }

    // A fault, with what it is told of.
    fn refuse(&mut self, place: String, why: &str) -> io::Result<()> {
        self.place = Some(place);
        Err(io::Error::new(ErrorKind::InvalidInput, why))
    }

    // Marking

    fn put_marks(&mut self) -> io::Result<()> {
        let identity = match self.mark(0)? {
            Some(mark) => mark.identity,
            None => self.new_identity()?,
        };
        for store in 0..4u8 {
            self.check_folder(store)?;
            let line = line_of(self.alloc, identity.as_str(), store)?;
            let path = self.mark_path(store)?;
            let put = self.put_mark(path.as_str(), line.as_bytes());
            self.noted(path.as_str(), put)?;
            self.sync_root(store)?;
        }
        let line = line_of(self.alloc, identity.as_str(), 0)?;
        let path = self.mark_path(0)?;
        let put = self.tell_done(path.as_str(), line.len() as u64);
        self.noted(path.as_str(), put)
    }

    fn new_identity(&mut self) -> io::Result<String> {
        let random = self.random();
        let bytes = self.noted(RANDOM, random)?;
        Ok(identity_of(self.alloc, &bytes)?)
    }

    fn random(&self) -> io::Result<[u8; 16]> {
        let file = fs::open(&self.files, RANDOM)?;
        let mut bytes = [0; 16];
        if read_from(&file, 0, &mut bytes)? < bytes.len() {
            return Err(ErrorKind::UnexpectedEof.into());
        }
        Ok(bytes)
    }

    // Writes a mark, where it isn't there, and syncs it.
    fn put_mark(&mut self, path: &str, line: &[u8]) -> io::Result<()> {
        let file = self.open_mark(path)?;
        let mut bytes = [0; ROOM];
        let n = read_from(&file, 0, &mut bytes)?;
        if !bytes[..n].starts_with(line) {
            file.set_len(0)?;
            file.write_all_at(line, 0)?;
        }
        self.sync_mark(&file)
    }

    // Writes behind the site's mark that all stores have theirs.
    fn tell_done(&mut self, path: &str, at: u64) -> io::Result<()> {
        let file = self.open_mark(path)?;
        file.write_all_at(DONE.as_bytes(), at)?;
        self.sync_mark(&file)
    }

    fn open_mark(&self, path: &str) -> io::Result<File> {
        self.size_of(path)?;
        OpenOptions::new()
            .read(true)
            .write(true)
            .create(true)
            .open(&self.files, path)
    }

    fn sync_mark(&mut self, file: &File) -> io::Result<()> {
        self.may_sync()?;
        let written = file.sync_data();
        self.synced_well(written)
    }

    // Syncs a store's own folder, in which a name was made, and the one that has it.
    fn sync_root(&mut self, store: u8) -> io::Result<()> {
        let root = self.root_copy(store)?;
        self.sync_above(root.as_str())?;
        self.synced.remove(root.as_str());
        self.sync_folder(root.as_str())
    }
}
