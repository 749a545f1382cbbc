// The calls of the operating system on the files of four folders.
mod many;
mod opening;

ghost use Rattle.std.specs.Prelude.{◌≤◌, ◌<◌, ◌+◌, ◌^◌, IfOk, OnOk, length};

use crate::drafts::{Drafts, copy_from, written};
use crate::marks::MARK;
use crate::paths::{ancestors, parent, stays_inside, trimmed};
use disk_model::FileName;
use std::alloc::{AllocError, Global};
use std::collections::{BTreeMap, BTreeSet};
use std::fs::{self, File, OpenOptions};
use std::io::{self, ErrorKind};
use std::os::unix::fs::FileExt;
use std::rt::Files;
use std::str;
use std::thread::Threads;

/// What a disk of folders may do with them.
#[derive(Clone, Copy, Debug, PartialEq, Eq)]
pub enum Access {
    /// Read alone, beside others that read. No file and no folder is made but the site's lock, and none is changed.
    Read,
    /// Read and write, and nobody else meanwhile. It is refused while an adoption isn't finished, which the file
    /// `adopt` of the site's folder tells.
    Write,
    /// As `Write`, where the site may be new to stores that have files and no mark: they become its own.
    Adopt,
}

impl Access {
    fn may_write(self) -> bool {
        self != Access::Read
    }
}

// The file of the site's folder that is locked. No file of a store has its name.
const LOCK: &str = "lock";

// The file of the site's folder that is there while an adoption isn't finished.
const ADOPTION: &str = "adopt";

// Whether the folders may be used.
#[derive(Drop)]
enum Claim {
    // No call was made yet that could be.
    Waits,
    // The folders are locked that have a file to lock, in the order of the stores. Where one has none, this program may
    // make none.
    Taken(Vec<Option<Lock>>),
    // There is no site's folder, and none is made. No store has a file.
    Empty,
}

// The file of a folder that is locked. It stays open for that, so no other one gets its inode meanwhile.
#[derive(Drop)]
struct Lock {
    path: String,
    file: File,
    inode: (u64, u64),
    // It was seen in its place since a sync of its store.
    was_seen: bool,
}

// A file that is kept open.
#[derive(Drop)]
struct HeldFile {
    name: FileName,
    file: File,
    // It was changed since it was synced.
    is_changed: bool,
}

#[derive(Drop)]
pub struct Folders<R: Files<File = File> + Drop> {
    files: R,
    alloc: Global,
    access: Access,
    roots: Vec<String>,
    claim: Claim,
    // All folders have the archive's marks.
    is_marked: bool,
    // Of each store the file that was used last.
    held: Vec<Option<HeldFile>>,
    // Those that were used before, by their paths, which stay open until they are synced.
    changed: BTreeMap<String, File>,
    // The paths of those that were synced to make room for others, and not opened since.
    settled: BTreeSet<String>,
    // The files of journals that a disk which only reads was to write or to remove.
    drafts: Drafts,
    // The folders that were synced since a name was last made or removed in them.
    synced: BTreeSet<String>,
    // A sync failed. The system tells that once, and a later sync would answer as if all were written.
    failed: bool,
    // The path of the last call that failed, where it isn't that of the file that was asked for.
    place: Option<String>,
}

// Reads until `buf` is full or the file ends.
pub fn read_from(file: &File, at: u64, buf: &mut [u8]) -> io::Result<usize>
    ensures { IfOk result (λ n. n ≤ length buf.old) }
{
    let mut n = 0;
    for _ in 0..u64::MAX {
        if n >= buf.len() {
            break;
        }
        match file.read_at(&mut buf[n..], at.saturating_add(n as u64)) {
            Ok(0) => break,
            Ok(more) => n += more,
            Err(e) if e.kind() == ErrorKind::Interrupted => {}
            Err(e) => return Err(e),
        }
    }
    Ok(n)
}

fn not_a_file() -> io::Error {
    io::Error::new(ErrorKind::InvalidInput, "not a regular file")
}

fn only_reads() -> io::Error {
    io::Error::new(ErrorKind::ReadOnlyFilesystem, "opened to read alone")
}

// Whether a path in a store's folder is that of its mark or lock, which are no files of the store.
fn is_own(store: u8, path: &str) -> bool {
    path == MARK || store == 0 && path == LOCK
}

// Whether nothing may be written there.
fn is_closed(kind: ErrorKind) -> bool {
    matches!(
        kind,
        ErrorKind::PermissionDenied | ErrorKind::ReadOnlyFilesystem
    )
}

impl<R: Files<File = File> + Drop> Folders<R> {
    pub fn new(
        files: R,
        alloc: Global,
        access: Access,
        roots: [&str; 4],
    ) -> Result<Folders<R>, AllocError> {
        let mut paths = Vec::new(alloc);
        let mut held = Vec::new(alloc);
        for root in roots {
            paths.push(String::from_str(alloc, trimmed(root))?)?;
            held.push(None)?;
        }
        Ok(Folders {
            files,
            alloc,
            access,
            roots: paths,
            claim: Claim::Waits,
            is_marked: false,
            held,
            changed: BTreeMap::new(alloc),
            settled: BTreeSet::new(alloc),
            drafts: Drafts::new(alloc),
            synced: BTreeSet::new(alloc),
            failed: false,
            place: None,
        })
    }

    // The path of the last call that failed: the one that was noted, or else that of a name.
    pub fn place_of(&mut self, name: Option<&FileName>) -> Option<String> {
        match (self.place.take(), name) {
            (Some(place), _) => Some(place),
            (None, Some(name)) => self.path(name).ok(),
            (None, None) => None,
        }
    }

    // Notes the path of a call that failed.
    fn noted<T: Drop>(&mut self, path: &str, answer: io::Result<T>) -> io::Result<T> {
        if answer.is_err() {
            self.place = String::from_str(self.alloc, path).ok();
        }
        answer
    }

    fn root(&self, store: u8) -> io::Result<&str> {
        match self.roots.get(store as usize) {
            Some(root) => Ok(root.as_str()),
            None => Err(ErrorKind::InvalidInput.into()),
        }
    }

    fn root_copy(&self, store: u8) -> io::Result<String> {
        Ok(String::from_str(self.alloc, self.root(store)?)?)
    }

    // The path of a name, which stays within its store's folder.
    fn path(&self, name: &FileName) -> io::Result<String> {
        let root = self.root(name.store)?;
        match str::from_utf8(&name.path) {
            Ok(path) if stays_inside(path) && !is_own(name.store, path) => {
                Ok(format!(in self.alloc; "{root}/{path}")?)
            }
            _ => Err(ErrorKind::InvalidInput.into()),
        }
    }

    // The size of a path's file, if there is one. A link, a pipe or a folder in its place is refused.
    fn size_of(&self, path: &str) -> io::Result<Option<u64>> {
        if matches!(self.claim, Claim::Empty) {
            return Ok(None);
        }
        match fs::symlink_metadata(&self.files, path) {
            Ok(found) if found.is_file() => Ok(Some(found.len())),
            Ok(_) => Err(not_a_file()),
            Err(e) if e.kind() == ErrorKind::NotFound => Ok(None),
            Err(e) => Err(e),
        }
    }

    fn holds(&self, name: &FileName) -> bool {
        match self.held.get(name.store as usize) {
            Some(Some(held)) => held.name.is_same(name),
            _ => false,
        }
    }

    fn keep(&mut self, name: &FileName, file: File, is_changed: bool) -> io::Result<()> {
        let name = name.copy(self.alloc)?;
        self.set_aside(name.store)?;
        if let Some(held) = self.held.get_mut(name.store as usize) {
            *held = Some(HeldFile {
                name,
                file,
                is_changed,
            });
        }
        Ok(())
    }

    // Has the file that a store holds wait for its sync, where it was changed: it stays open for that.
    fn set_aside(&mut self, store: u8) -> io::Result<()> {
        let Some(held) = self.take_changed(store) else {
            return Ok(());
        };
        let path = self.path(&held.name)?;
        self.changed.insert(path, held.file)?;
        Ok(())
    }

    // The file that a store holds, where it was changed.
    fn take_changed(&mut self, store: u8) -> Option<HeldFile> {
        let place = self.held.get_mut(store as usize)?;
        place.take_if(|held| held.is_changed)
    }

    fn release(&mut self, store: u8) {
        if let Some(held) = self.held.get_mut(store as usize) {
            *held = None;
        }
    }

    // A name's file, which is opened where it isn't.
    fn file(&mut self, name: &FileName) -> io::Result<&File> {
        self.size_opened(name)?;
        self.held_file(name)
    }

    // A name's file, for a change of it.
    fn file_to_change(&mut self, name: &FileName) -> io::Result<&File> {
        self.size_opened(name)?;
        self.set_changed(name.store, true);
        self.held_file(name)
    }

    fn set_changed(&mut self, store: u8, is_changed: bool) {
        if let Some(Some(held)) = self.held.get_mut(store as usize) {
            held.is_changed = is_changed;
        }
    }

    fn held_file(&self, name: &FileName) -> io::Result<&File> {
        match self.held.get(name.store as usize) {
            Some(Some(held)) => Ok(&held.file),
            _ => Err(ErrorKind::NotFound.into()),
        }
    }

    // Holds a name's file, and tells its size where it was opened for that.
    fn size_opened(&mut self, name: &FileName) -> io::Result<Option<u64>> {
        if self.holds(name) {
            return Ok(None);
        }
        let path = self.path(name)?;
        if let Some(file) = self.changed.remove(path.as_str()) {
            self.keep(name, file, true)?;
            return Ok(None);
        }
        self.check_folder_once(name.store)?;
        let Some(size) = self.size_of(path.as_str())? else {
            return Err(ErrorKind::NotFound.into());
        };
        let file = OpenOptions::new()
            .read(true)
            .write(self.access.may_write())
            .open(&self.files, path.as_str())?;
        self.settled.remove(path.as_str());
        self.keep(name, file, false)?;
        Ok(Some(size))
    }

    // Whether the folders may be used.
    pub fn is_begun(&self) -> bool {
        !matches!(self.claim, Claim::Waits)
    }

    pub fn create(&mut self, name: &FileName) -> io::Result<()> {
        self.begin_change(name.store)?;
        if !self.access.may_write() {
            self.may_draft(name)?;
            self.drafts.put(name, &[])?;
            return Ok(());
        }
        self.check_folder_once(name.store)?;
        let path = self.path(name)?;
        self.make_way(name.store, parent(path.as_str()))?;
        let file = OpenOptions::new()
            .read(true)
            .write(true)
            .create_new(true)
            .open(&self.files, path.as_str())?;
        self.settled.remove(path.as_str());
        self.keep(name, file, true)
    }

    // Makes the folder of a new file, where it isn't known to be there, and what of those between it and its store's is
    // absent. No folder that got a name counts as synced.
    fn make_way(&mut self, store: u8, folder: &str) -> io::Result<()> {
        if self.synced.remove(folder) {
            return Ok(());
        }
        let root = self.root(store)?.len();
        let absent = self.absent(folder, root)?;
        for made in absent.iter().rev() {
            self.make_folder(made)?;
        }
        Ok(())
    }

    // Makes a store's own folder, and what of those that lead to it is absent. Each name is synced at once: where the
    // program is stopped between two of them, the next one begins above the last that is there.
    fn make_root(&mut self, root: &str) -> io::Result<()> {
        let absent = self.absent(root, 0)?;
        if let Some(first) = absent.last() {
            self.sync_above(parent(first))?;
        }
        for made in absent.iter().rev() {
            self.make_folder(made)?;
            self.sync_folder(parent(made))?;
        }
        Ok(())
    }

    // Of a folder and those that lead to it, below one whose path has `above` bytes, the absent ones, the last first.
    fn absent<'a>(&mut self, folder: &'a str, above: usize) -> io::Result<Vec<&'a str>> {
        let mut absent = Vec::new(self.alloc);
        let mut level = folder;
        for _ in 0..folder.len() {
            if level.len() <= above || self.has_folder(level)? {
                break;
            }
            absent.push(level)?;
            level = parent(level);
        }
        Ok(absent)
    }

    fn make_folder(&mut self, folder: &str) -> io::Result<()> {
        let made = fs::create_dir(&self.files, folder);
        self.noted(folder, made)?;
        self.synced.remove(parent(folder));
        Ok(())
    }

    fn has_folder(&mut self, path: &str) -> io::Result<bool> {
        match fs::metadata(&self.files, path) {
            Ok(found) if found.is_dir() => Ok(true),
            Ok(_) => self.noted(path, Err(ErrorKind::NotADirectory.into())),
            Err(e) if e.kind() == ErrorKind::NotFound => Ok(false),
            Err(e) => self.noted(path, Err(e)),
        }
    }

    pub fn write<H: Threads>(
        &mut self,
        rt: &H,
        name: &FileName,
        at: u64,
        bytes: &[u8],
    ) -> io::Result<()>
        ensures { OnOk result (at + length bytes.now < 2 ^ 64) }
    {
        if bytes.len() as u64 > u64::MAX - at {
            return Err(ErrorKind::InvalidInput.into());
        }
        self.begin_change(name.store)?;
        if !self.access.may_write() {
            self.may_draft(name)?;
            return self.draft(name, at, bytes);
        }
        self.sync_many_changed(rt)?;
        self.file_to_change(name)?.write_all_at(bytes, at)
    }

    // Where one only reads, loading may begin the journals of the site's folder and remove files of them that no longer
    // count, which is kept in memory. Nothing else is written.
    fn may_draft(&self, name: &FileName) -> io::Result<()> {
        if name.store == 0 {
            Ok(())
        } else {
            Err(only_reads())
        }
    }

    // Writes into a journal in memory, which is begun with what its file has.
    fn draft(&mut self, name: &FileName, at: u64, bytes: &[u8]) -> io::Result<()> {
        let content = self.content(name)?;
        match written(self.alloc, &content, at as usize, bytes)? {
            Some(content) => Ok(self.drafts.put(name, &content)?),
            None => Err(ErrorKind::InvalidInput.into()),
        }
    }

    // All that a file has.
    fn content(&mut self, name: &FileName) -> io::Result<Vec<u8>> {
        let Some(size) = self.size(name)? else {
            return Err(ErrorKind::NotFound.into());
        };
        let mut content = vec![in self.alloc; 0u8; size as usize]?;
        if self.read(name, 0, &mut content)? < content.len() {
            return Err(ErrorKind::UnexpectedEof.into());
        }
        Ok(content)
    }

    pub fn read(&mut self, name: &FileName, at: u64, buf: &mut [u8]) -> io::Result<usize>
        ensures { IfOk result (λ n. n ≤ length buf.old) }
    {
        self.begin()?;
        match self.drafts.get(name) {
            Some(Some(bytes)) => return Ok(copy_from(bytes, at, buf)),
            Some(None) => return Err(ErrorKind::NotFound.into()),
            None => {}
        }
        read_from(self.file(name)?, at, buf)
    }

    pub fn size(&mut self, name: &FileName) -> io::Result<Option<u64>> {
        self.begin()?;
        if let Some(draft) = self.drafts.get(name) {
            return Ok(draft.map(|bytes| bytes.len() as u64));
        }
        let path = self.path(name)?;
        self.size_of(path.as_str())
    }

    pub fn cut(&mut self, name: &FileName, len: u64) -> io::Result<()> {
        self.begin_change(name.store)?;
        if !self.access.may_write() {
            return Err(only_reads());
        }
        let size = match self.size_opened(name)? {
            Some(size) => size,
            None => self.held_file(name)?.metadata()?.len(),
        };
        if size < len {
            return Err(ErrorKind::InvalidInput.into());
        }
        if size == len {
            return Ok(());
        }
        self.file_to_change(name)?.set_len(len)
    }

    // Syncs the file, and the folders that lead to it. An absent name is synced by its folders. None is
    // synced after a sync failed.
    pub fn sync(&mut self, name: &FileName) -> io::Result<()> {
        self.begin()?;
        if matches!(self.claim, Claim::Empty) || self.drafts.get(name).is_some() {
            return Ok(());
        }
        self.may_sync()?;
        let written = match self.size_opened(name) {
            Ok(_) => {
                self.set_changed(name.store, false);
                self.held_file(name)?.sync_data()
            }
            Err(e) if e.kind() == ErrorKind::NotFound => Ok(()),
            Err(e) => return Err(e),
        };
        self.synced_well(written)?;
        self.sync_folders(name)?;
        self.check_synced(name.store)
    }

    fn may_sync(&self) -> io::Result<()> {
        if self.failed {
            Err(io::Error::new(ErrorKind::Other, "an earlier sync failed"))
        } else {
            Ok(())
        }
    }

    // Remembers a sync that failed. A file system that is only read may have none.
    fn synced_well(&mut self, written: io::Result<()>) -> io::Result<()> {
        match written {
            Err(e)
                if !self.access.may_write()
                    && matches!(
                        e.kind(),
                        ErrorKind::InvalidInput | ErrorKind::ReadOnlyFilesystem
                    ) => { Ok(()) }
            Err(e) => {
                self.failed = true;
                Err(e)
            }
            Ok(()) => Ok(()),
        }
    }

    fn sync_folders(&mut self, name: &FileName) -> io::Result<()> {
        let path = self.path(name)?;
        let root = self.root_copy(name.store)?;
        self.sync_above(root.as_str())?;
        for folder in ancestors(self.alloc, path.as_str(), root.len())? {
            self.sync_folder(folder)?;
        }
        Ok(())
    }

    // Syncs what has this folder. Where this account may not even list that, it made no folder in it.
    fn sync_above(&mut self, folder: &str) -> io::Result<()> {
        let above = parent(folder);
        match self.sync_folder(above) {
            Err(e) if e.kind() == ErrorKind::PermissionDenied => {
                self.place = None;
                self.synced.insert(String::from_str(self.alloc, above)?)?;
                Ok(())
            }
            answer => answer,
        }
    }

    // Syncs a folder, where it is there and wasn't synced.
    fn sync_folder(&mut self, path: &str) -> io::Result<()> {
        if self.synced.contains(path) {
            return Ok(());
        }
        let folder = match fs::open(&self.files, path) {
            Ok(folder) => folder,
            Err(e) if e.kind() == ErrorKind::NotFound => return Ok(()),
            Err(e) => return self.noted(path, Err(e)),
        };
        let written = folder.sync_all();
        let written = self.synced_well(written);
        self.noted(path, written)?;
        self.synced.insert(String::from_str(self.alloc, path)?)?;
        Ok(())
    }

    pub fn remove(&mut self, name: &FileName) -> io::Result<()> {
        self.begin_change(name.store)?;
        if !self.access.may_write() {
            self.may_draft(name)?;
            if self.size(name)?.is_none() {
                return Err(ErrorKind::NotFound.into());
            }
            self.drafts.remove(name)?;
            return Ok(());
        }
        self.check_folder(name.store)?;
        let path = self.path(name)?;
        self.size_of(path.as_str())?;
        if self.holds(name) {
            self.release(name.store);
        }
        self.changed.remove(path.as_str());
        self.settled.remove(path.as_str());
        self.synced.remove(parent(path.as_str()));
        fs::remove_file(&self.files, path.as_str())
    }

    // The names of a store, over its folders.
    pub fn names(&mut self, store: u8) -> io::Result<Vec<FileName>> {
        self.begin()?;
        self.check_folder(store)?;
        let root = self.root_copy(store)?;
        let names = self.listed(store);
        self.noted(root.as_str(), names)
    }

    fn listed(&self, store: u8) -> io::Result<Vec<FileName>> {
        let mut names = Vec::new(self.alloc);
        if matches!(self.claim, Claim::Empty) || !fs::exists(&self.files, self.root(store)?)? {
            return Ok(names);
        }
        let mut waiting = Vec::new(self.alloc);
        waiting.push(String::new(self.alloc))?;
        for _ in 0..u64::MAX {
            match waiting.pop() {
                Some(folder) => self.list(store, folder.as_str(), &mut waiting, &mut names)?,
                None => break,
            }
        }
        names.sort_by(|a, b| a.compare(b))?;
        Ok(names)
    }

    // The files of one folder, and the folders in it that wait for their turn. It passes by what is no regular file,
    // such as a link, by names that are no text, and by folders within a store that the program may not read: none of
    // them is a file of the disk.
    fn list(
        &self,
        store: u8,
        folder: &str,
        waiting: &mut Vec<String>,
        names: &mut Vec<FileName>,
    ) -> io::Result<()> {
        let root = self.root(store)?;
        let path = format!(in self.alloc; "{root}/{folder}")?;
        let entries = match fs::read_dir(&(&self.files, self.alloc), path.as_str()) {
            Ok(entries) => entries,
            Err(e) if !folder.is_empty() && e.kind() == ErrorKind::PermissionDenied => {
                return Ok(());
            }
            Err(e) => return Err(e),
        };
        for entry in entries {
            let entry = match entry {
                Ok(entry) => entry,
                Err(e) if e.kind() == ErrorKind::InvalidFilename => continue,
                Err(e) => return Err(e),
            };
            let name = format!(in self.alloc; "{folder}{}", entry.file_name())?;
            let kind = entry.file_type()?;
            if kind.is_dir() {
                waiting.push(format!(in self.alloc; "{name}/")?)?;
            } else if kind.is_file() && !is_own(store, name.as_str()) {
                let path = name.into_bytes();
                names.push(FileName { store, path })?;
            }
        }
        Ok(())
    }

    // A file to read of at least so many bytes, and its path.
    pub fn open(&mut self, name: &FileName, len: u64) -> io::Result<(File, String)> {
        self.begin()?;
        self.check_folder(name.store)?;
        let path = self.path(name)?;
        if self.size_of(path.as_str())?.is_none() {
            return Err(ErrorKind::NotFound.into());
        }
        let file = fs::open(&self.files, path.as_str())?;
        if file.metadata()?.len() < len {
            return Err(io::Error::new(ErrorKind::InvalidInput, "shorter than is listed"));
        }
        Ok((file, path))
    }
}
