// Files of the operating system in four folders, one for each store. Such a disk tells nothing of what they hold.
ghost use Rattle.std.specs.Prelude.{◌≡◌, ◌≤◌, IfOk, IsErr, Ok, Err, length};
ghost use Rattle.disk_model.specs.declared.disk.DiskErr.TheVariants.{Fault};
ghost use Rattle.disk_model.specs.Files.{Rose};

use crate::folders::{Access, Folders, read_from};
use crate::trouble::{Faults, Trouble, keep};
use disk_model::{Disk, DiskErr, FileName, ReadAt, ReadFailed};
use std::alloc::{AllocError, Global};
use std::fs::File;
use std::io;
use std::rt::Files;
use std::sync::Arc;
use std::thread::Threads;

/// A file that a `FolderDisk` opened. It keeps the file open, so that its bytes stay when the name is removed.
#[derive(Drop)]
pub struct FolderFile {
    file: File,
    path: Option<String>,
    len: u64,
    faults: u64,
    told: Option<Arc<Faults, Global>>,
    trouble: Option<Trouble>,
}

impl FolderFile {
    /// Why its first read that failed did, since this was asked last; nothing where each fault is told.
    pub fn take_trouble(&mut self) -> Option<Trouble> {
        self.trouble.take()
    }

    // All bytes from `at` that fit into `buf`; fewer than the file had when it was opened are a fault.
    fn read_whole(&self, at: u64, buf: &mut [u8]) -> io::Result<usize>
        ensures fits { IfOk result (λ n. n ≤ length buf.old) }
    {
        if self.len < at {
            return Err(io::ErrorKind::InvalidInput.into());
        }
        let want = (buf.len() as u64).min(self.len - at) as usize;
        let got = read_from(&self.file, at, &mut buf[..want])?;
        if got < want {
            return Err(io::ErrorKind::UnexpectedEof.into());
        }
        Ok(got)
    }
}

impl ReadAt for FolderFile {
    ghost use Rattle.std.specs.Prelude.{false, []};

    ghost tells = { false };

    ghost bytes = { λ f. [] };

    ghost faults = { λ f. f.faults };

    ghost leaves = { λ old new. Unit {0} };

    fn read_at(&mut self, at: u64, buf: &mut [u8]) -> Result<usize, ReadFailed> {
        match self.read_whole(at, buf) {
            Ok(n) => Ok(n),
            Err(error) => {
                self.faults = self.faults.saturating_add(1);
                let path = self.path.take();
                let trouble = Trouble { path, error };
                match &self.told {
                    Some(faults) => faults.add(&trouble),
                    None => keep(&mut self.trouble, trouble),
                }
                Err(ReadFailed)
            }
        }
    }

    ghost leaves_none = { λ file. tt };

    ghost leaves_then = { λ a b c first second. tt };
}

/// Files of the operating system in four folders: the site's for store 0, which has the catalogue and the manifests,
/// and the short, medium and long term's for the stores 1, 2 and 3. Those of a new archive are made by the first call,
/// and one within a store before the first file in it. It keeps the last used file of each store open, and files that
/// were changed until they are synced: where 256 of them wait, they are synced before the next write. After a sync that
/// failed it syncs nothing more. Many names at once it syncs in threads.
///
/// Its first call takes the locks of the folders, which it keeps: one program writes and no other reads or writes, or
/// some read. Where another has a lock, each call is a fault. So it is where two stores have one folder, where a
/// store's folder isn't the archive's by its mark, and where a link, a pipe or a folder stands in a file's place.
///
/// Where one of the four folders goes away beneath it, or another one comes in its place, a copy too, it makes none
/// anew: each sync, removing and listing of files there is a fault until the folder is back, and so is each opening and
/// making behind a sync.
///
/// The folders of an archive that has no marks yet get them before the first change of a file of a store. Whoever makes
/// it has found in the stores what the site lists.
///
/// A disk that only reads makes no folder, and where the site's is absent there are no files. What loading
/// writes into the journals of the site's folder, to begin them, and what it removes of them, it keeps in
/// memory. Any other change is a fault.
#[derive(Drop)]
pub struct FolderDisk<R: Files<File = File> + Drop, H: Drop> {
    folders: Folders<R>,
    // By which threads are made.
    threads: H,
    faults: u64,
    told: Option<Arc<Faults, Global>>,
    trouble: Option<Trouble>,
}

impl<R: Files<File = File> + Drop, H: Drop> FolderDisk<R, H> {
    /// Folders by their paths, in the order of the stores. Nothing is read or made yet.
    pub fn new(
        files: R,
        threads: H,
        alloc: Global,
        access: Access,
        folders: [&str; 4],
    ) -> Result<FolderDisk<R, H>, AllocError>
        ensures { IfOk result (λ disk. disk.faults ≡ 0) }
    {
        Ok(FolderDisk {
            folders: Folders::new(files, alloc, access, folders)?,
            threads,
            faults: 0,
            told: None,
            trouble: None,
        })
    }

    /// The same disk, which adds each fault to these as it counts it, also those of the files that it opens.
    pub fn telling(self, faults: Arc<Faults, Global>) -> FolderDisk<R, H>
        ensures { result.faults ≡ self.faults }
    {
        FolderDisk {
            told: Some(faults),
            ..self
        }
    }

    /// Why its first call that failed did, since this was asked last; nothing where each fault is told.
    pub fn take_trouble(&mut self) -> Option<Trouble>
        ensures { self.new.faults ≡ self.old.faults }
    {
        self.trouble.take()
    }

    // Counts what the system refused, and tells it, or remembers the first of it.
    fn counted<T: Drop>(
        &mut self,
        name: Option<&FileName>,
        answer: io::Result<T>,
    ) -> Result<T, DiskErr>
        ensures value { IfOk result (λ x. answer ≡ Ok x) }
        ensures fault { IsErr result → result ≡ Err Fault }
        ensures faults { self.old.faults ≤ self.new.faults }
        ensures cause { IsErr result → Rose self.old.faults self.new.faults }
    {
        match answer {
            Ok(value) => Ok(value),
            Err(error) => {
                self.faults = self.faults.saturating_add(1);
                let path = self.folders.place_of(name);
                let trouble = Trouble { path, error };
                match &self.told {
                    // One by which the folders can't be used is told by whoever tells why nothing was done.
                    Some(faults) if self.folders.is_begun() => faults.add(&trouble),
                    _ => keep(&mut self.trouble, trouble),
                }
                Err(DiskErr::Fault)
            }
        }
    }
}

impl<R: Files<File = File> + Drop, H: Threads + Drop> Disk for FolderDisk<R, H> {
    type Reader = FolderFile;

    ghost use Rattle.std.specs.Prelude.{false, None};
    ghost use Rattle.disk_model.specs.Past.{untold, told_not};

    ghost tells = { false };

    ghost files = { λ d n. None };

    ghost opened = { λ d n. 0 };

    ghost past = { λ d. untold };

    ghost faults = { λ d. d.faults };

    ghost seen = { λ d tells. absurd (told_not tells) };

    ghost readers = { λ tells. tells };

    ghost readers_tell = { λ tells. tells };

    fn create(&mut self, name: &FileName) -> Result<(), DiskErr> {
        let answer = self.folders.create(name);
        self.counted(Some(name), answer)
    }

    fn write(&mut self, name: &FileName, at: u64, bytes: &[u8]) -> Result<(), DiskErr> {
        let answer = self.folders.write(&self.threads, name, at, bytes);
        self.counted(Some(name), answer)
    }

    fn read(&mut self, name: &FileName, at: u64, buf: &mut [u8]) -> Result<usize, DiskErr> {
        let answer = self.folders.read(name, at, buf);
        self.counted(Some(name), answer)
    }

    fn size(&mut self, name: &FileName) -> Result<Option<u64>, DiskErr> {
        let answer = self.folders.size(name);
        self.counted(Some(name), answer)
    }

    fn cut(&mut self, name: &FileName, len: u64) -> Result<(), DiskErr> {
        let answer = self.folders.cut(name, len);
        self.counted(Some(name), answer)
    }

    fn sync(&mut self, name: &FileName) -> Result<(), DiskErr> {
        let answer = self.folders.sync(name);
        self.counted(Some(name), answer)
    }

    fn sync_each(&mut self, names: &[FileName]) -> Result<(), DiskErr> {
        let answer = self.folders.sync_each(&self.threads, names);
        self.counted(None, answer)
    }

    fn remove(&mut self, name: &FileName) -> Result<(), DiskErr> {
        let answer = self.folders.remove(name);
        self.counted(Some(name), answer)
    }

    fn names(&mut self, store: u8) -> Result<Vec<FileName>, DiskErr> {
        let answer = self.folders.names(store);
        self.counted(None, answer)
    }

    fn open_file(&mut self, name: &FileName, len: u64) -> Result<FolderFile, DiskErr> {
        let answer = self.folders.open(name, len);
        let (file, path) = self.counted(Some(name), answer)?;
        let told = match &self.told {
            Some(faults) => Arc::try_clone(faults).ok(),
            None => None,
        };
        Ok(FolderFile {
            file,
            path: Some(path),
            len,
            faults: 0,
            told,
            trouble: None,
        })
    }
}
