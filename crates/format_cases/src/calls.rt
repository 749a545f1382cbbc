// Calls of a disk in memory, and what a crash may leave of it.
use crate::case::text_of;
use crate::journal;
use crate::words::cut;
use anyhow::{Context, Result};
use disk_model::{Disk, DiskErr, FileName, MemDisk, MemFile, ReadAt};
use std::alloc::Global;
use std::fmt::Write as _;

/// A disk, the files of it that were opened, and what is told of a line.
#[derive(Drop)]
pub struct Script {
    alloc: Global,
    disk: MemDisk,
    readers: Vec<MemFile>,
    text: String,
}

fn number(word: &str) -> Result<u64> {
    word.parse::<u64>().ok().context("no number")
}

fn named(alloc: Global, file: &str) -> Result<FileName> {
    let (store, path) = file.split_once('/').context("no file")?;
    Ok(FileName {
        store: store.parse::<u8>().ok().context("no store")?,
        path: path.as_bytes().to_vec(alloc)?,
    })
}

// Puts bytes in hexadecimal.
fn put_bytes(alloc: Global, text: &mut String, bytes: &[u8]) -> Result<(), DiskErr> {
    text.push_str(&hex::encode(alloc, bytes)?)?;
    Ok(())
}

// What a disk on which no call fails has in each file.
fn put_files(alloc: Global, disk: &mut MemDisk, text: &mut String) -> Result<(), DiskErr> {
    for store in 0..2u8 {
        for name in &disk.names(store)? {
            let (Some(size), _) = disk.extent(name) else {
                continue;
            };
            let mut bytes = vec![in alloc; 0u8; size as usize]?;
            disk.read(name, 0, &mut bytes)?;
            write!(text, "{store}/")?;
            text.push_str(text_of(&name.path))?;
            text.push('=')?;
            put_bytes(alloc, text, &bytes)?;
            text.push(' ')?;
        }
    }
    Ok(())
}

impl Script {
    /// An empty disk on which no call fails.
    pub fn new(alloc: Global) -> Result<Script> {
        Ok(Script {
            alloc,
            disk: MemDisk::new(alloc, &[], None)?,
            readers: Vec::new(alloc),
            text: String::new(alloc),
        })
    }

    /// What comes of a line.
    pub fn told(&mut self, line: &str) -> Result<String> {
        let (word, rest) = cut(line);
        self.text.clear();
        match word {
            "stops" => return journal::told(self.alloc, true, rest),
            "fails" => return journal::told(self.alloc, false, rest),
            "disk" => self.begin(rest)?,
            "images" => self.put_images().ok().context("no image")?,
            "readers" => self.put_readers().ok().context("no memory")?,
            "sync_each" => self.sync_each(rest)?,
            call => self.called(call, rest)?,
        }
        self.text.push('\n')?;
        Ok(self.text.as_str().to_string(self.alloc)?)
    }

    fn begin(&mut self, words: &str) -> Result<()> {
        let (stop, calls) = cut(words);
        let mut failing = Vec::new(self.alloc);
        for call in calls.split(' ') {
            if !call.is_empty() {
                failing.push(number(call)?)?;
            }
        }
        self.disk = MemDisk::new(self.alloc, &failing, number(stop).ok())?;
        self.readers.clear();
        self.text.push_str("empty")?;
        Ok(())
    }

    fn put_images(&mut self) -> Result<(), DiskErr> {
        for choice in 0..6u64 {
            let mut image = self.disk.crash(self.alloc, choice)?;
            put_files(self.alloc, &mut image, &mut self.text)?;
            self.text.push('|')?;
        }
        Ok(())
    }

    fn put_readers(&mut self) -> Result<(), DiskErr> {
        for reader in &mut self.readers {
            let mut buffer = [0; 8];
            if let Ok(count) = reader.read_at(0, &mut buffer) {
                put_bytes(self.alloc, &mut self.text, &buffer[..count])?;
            }
            self.text.push('|')?;
        }
        Ok(())
    }

    fn sync_each(&mut self, files: &str) -> Result<()> {
        let mut names = Vec::new(self.alloc);
        for file in files.split(' ') {
            names.push(named(self.alloc, file)?)?;
        }
        let is_done = self.disk.sync_each(&names).is_ok();
        self.put_done(is_done)
    }

    fn called(&mut self, call: &str, words: &str) -> Result<()> {
        let (file, words) = cut(words);
        let (at, bytes) = cut(words);
        let name = named(self.alloc, file)?;
        let at = if at.is_empty() { 0 } else { number(at)? };
        let is_done = self.call(call, &name, at, bytes.as_bytes()).is_ok();
        self.put_done(is_done)
    }

    fn put_done(&mut self, is_done: bool) -> Result<()> {
        self.text.push_str(if is_done { "done" } else { "fault" })?;
        Ok(())
    }

    // Makes a call where it may be made. A file that isn't there may be made, synced and asked for.
    fn call(&mut self, call: &str, name: &FileName, at: u64, bytes: &[u8]) -> Result<(), DiskErr> {
        let disk = &mut self.disk;
        let (size, opened) = disk.extent(name);
        match (call, size) {
            ("create", None) => disk.create(name)?,
            ("write", Some(size)) if opened <= at && at <= size => disk.write(name, at, bytes)?,
            ("cut", Some(size)) if opened <= at && at <= size => disk.cut(name, at)?,
            ("remove", Some(_)) => disk.remove(name)?,
            ("sync", _) => disk.sync(name)?,
            ("open", Some(size)) if at <= size => {
                let reader = disk.open_file(name, at)?;
                self.readers.push(reader)?;
            }
            ("read", Some(size)) if at <= size => {
                let mut buffer = [0; 4];
                let count = disk.read(name, at, &mut buffer)?;
                put_bytes(self.alloc, &mut self.text, &buffer[..count])?;
                self.text.push(' ')?;
            }
            ("size", _) => {
                let size = disk.size(name)?;
                write!(self.text, "{size:?} ")?;
            }
            ("names", _) => {
                for name in &disk.names(name.store)? {
                    self.text.push_str(text_of(&name.path))?;
                    self.text.push(' ')?;
                }
            }
            _ => self.text.push_str("not ")?,
        }
        Ok(())
    }
}
