// What a disk promises: each call's effect on the files and on what a crash may leave.
ghost use Rattle.std.specs.Prelude.{◌≡◌, ◌≢◌, ◌⊎◌, ◌≤◌, ◌<◌, ◌+◌, ◌-◌, ◌^◌, List, ℕ, Bool, length, take, drop, min};
ghost use Rattle.std.specs.Prelude.{max, [], Option, None, Some, IfOk, OnOk, OnErr, IsErr, IsErrOf, IsTrue, All};
ghost use Rattle.disk_model.specs.declared.disk.DiskErr.TheVariants.{Memory};
ghost use Rattle.disk_model.specs.Files.{Name, Files, Rose, HasFile, Lists, At, Overwritten, Torn, Cut, Frayed};
ghost use Rattle.disk_model.specs.Files.{Becomes, KeptOr, size_of};
ghost use Rattle.disk_model.specs.Past.{Past, MayLeave, Passes, Only};

use crate::FileName;
use std::alloc::{AllocError, AllocFailed};

/// Why a call on a disk failed. `Fault` comes only where the disk's count of faults rose in the call.
#[derive(Clone, Copy, Debug, PartialEq, Eq)]
pub enum DiskErr {
    /// The disk failed, or the call can't be done. It is counted.
    Fault,
    /// Want of memory. `write`, `cut`, `sync`, `sync_each` and `remove` never answer it.
    Memory,
}

/// A read of an opened file failed. It comes only where the file's own count of faults rose in the call.
#[derive(Clone, Copy, Debug, PartialEq, Eq)]
pub struct ReadFailed;

/// A file that was opened: it has the bytes that it had then for good, whatever becomes of the name.
pub trait ReadAt: Drop {
    /// Whether it tells its bytes.
    ghost tells: { Bool };

    /// The bytes that it has.
    ghost bytes: { Self → List ℕ };

    /// How often it failed. The count stays at the last number of a `u64`.
    ghost faults: { Self → ℕ };

    /// What reads leave of it, from before them to behind them. It is of the kind of file.
    ghost leaves: { Self → Self → Type 0 };

    /// Reads from place `at`, which isn't past the end, all bytes that fit into `buf`, and answers how
    /// many. It takes no memory.
    fn read_at(&mut self, at: u64, buf: &mut [u8]) -> Result<usize, ReadFailed>
        requires { IsTrue tells → at ≤ length (bytes self.old) }
        ensures count { IsTrue tells → IfOk result (λ n. n ≡ min (length buf.old) (length (bytes self.old) - at)) }
        ensures front { IsTrue tells → IfOk result (λ n. take n buf.new ≡ take n (drop at (bytes self.old))) }
        ensures fits { IfOk result (λ n. n ≤ length buf.old) }
        ensures same { IsTrue tells → bytes self.new ≡ bytes self.old }
        ensures leaves { leaves self.old self.new }
        ensures faults { faults self.old ≤ faults self.new }
        ensures cause { IsErr result → Rose (faults self.old) (faults self.new) };

    /// No read leaves it so.
    ghost leaves_none: { (file : Self) → leaves file file };

    /// Reads leave it so, one after another.
    ghost leaves_then: { (a b c : Self) → leaves a b → leaves b c → leaves a c };
}

/// Files by name. A crash may come at any moment, and undo, tear or mix what was not synced.
pub trait Disk: Drop {
    type Reader: ReadAt;

    /// Whether it tells its files. One that doesn't tells none of the meanings below but the count of faults.
    ghost tells: { Bool };

    /// What each name has, as reads give it.
    ghost files: { Self → Files };

    /// The greatest length opened of each name since it was made.
    ghost opened: { Self → Name → ℕ };

    /// What a crash might have left, at each moment up to now.
    ghost past: { Self → Past };

    /// How often a call failed. The count stays at the last number of a `u64`.
    ghost faults: { Self → ℕ };

    /// Makes an empty file of a name that has none. After an error the name is absent or empty.
    fn create(&mut self, name: &FileName) -> Result<(), DiskErr>
        requires { IsTrue tells → files self.old name.now ≡ None }
        ensures made { IsTrue tells → OnOk result (At name.now (Becomes (Some [])) (files self.old) (files self.new)) }
        ensures unmade { IsTrue tells
            → OnErr result (At name.now (KeptOr (Some [])) (files self.old) (files self.new)) }
        ensures crash { IsTrue tells → Passes (At name.now (KeptOr (Some []))) (past self.old) (past self.new) }
        ensures opened { IsTrue tells → (n : Name) → n ≢ name.now → opened self.new n ≡ opened self.old n }
        ensures closed { IsTrue tells → OnOk result (opened self.new name.now ≡ 0) }
        ensures no_more { IsTrue tells → opened self.new name.now ≤ opened self.old name.now }
        ensures faults { faults self.old ≤ faults self.new }
        ensures cause { IsErrOf result DiskErr.Fault → Rose (faults self.old) (faults self.new) };

    /// Writes bytes at a place of a file that is neither past its end nor below its opened length. After `Fault` the
    /// range, and all past the old end, may hold any bytes, up to the size that the write would have given.
    fn write(&mut self, name: &FileName, at: u64, bytes: &[u8]) -> Result<(), DiskErr>
        requires { IsTrue tells
            → HasFile (files self.old) name.now (λ b. (opened self.old name.now ≤ at) × (at ≤ length b)) }
        ensures written { IsTrue tells
            → OnOk result (At name.now (Overwritten at bytes.now) (files self.old) (files self.new)) }
        ensures torn { IsTrue tells
            → OnErr result (At name.now (Torn at (length bytes.now)) (files self.old) (files self.new)) }
        ensures crash { IsTrue tells
            → Passes (At name.now (Torn at (length bytes.now))) (past self.old) (past self.new) }
        ensures opened { IsTrue tells → opened self.new ≡ opened self.old }
        ensures fits { OnOk result (at + length bytes.now < 2 ^ 64) }
        ensures faults { faults self.old ≤ faults self.new }
        ensures cause { IsErr result → Rose (faults self.old) (faults self.new) }
        ensures no_memory { IsErrOf result DiskErr.Memory → ⊥ };

    /// Reads from a place of a file that isn't past its end all bytes that fit into `buf`, and answers how many.
    fn read(&mut self, name: &FileName, at: u64, buf: &mut [u8]) -> Result<usize, DiskErr>
        requires { IsTrue tells → HasFile (files self.old) name.now (λ b. at ≤ length b) }
        ensures count { IsTrue tells → (b : List ℕ) → files self.old name.now ≡ Some b
            → IfOk result (λ n. n ≡ min (length buf.old) (length b - at)) }
        ensures front { IsTrue tells → (b : List ℕ) → files self.old name.now ≡ Some b
            → IfOk result (λ n. take n buf.new ≡ take n (drop at b)) }
        ensures fits { IfOk result (λ n. n ≤ length buf.old) }
        ensures same { IsTrue tells → files self.new ≡ files self.old }
        ensures crash { IsTrue tells → Passes (λ a b. b ≡ a) (past self.old) (past self.new) }
        ensures opened { IsTrue tells → opened self.new ≡ opened self.old }
        ensures faults { faults self.old ≤ faults self.new }
        ensures cause { IsErrOf result DiskErr.Fault → Rose (faults self.old) (faults self.new) };

    /// How many bytes the file has, or `None` exactly where no file has the name.
    fn size(&mut self, name: &FileName) -> Result<Option<u64>, DiskErr>
        ensures size { IsTrue tells → IfOk result (λ size. size ≡ size_of (files self.old name.now)) }
        ensures same { IsTrue tells → files self.new ≡ files self.old }
        ensures crash { IsTrue tells → Passes (λ a b. b ≡ a) (past self.old) (past self.new) }
        ensures opened { IsTrue tells → opened self.new ≡ opened self.old }
        ensures faults { faults self.old ≤ faults self.new }
        ensures cause { IsErrOf result DiskErr.Fault → Rose (faults self.old) (faults self.new) };

    /// Cuts a file to a length that is neither past its size nor below its opened length. After `Fault` the file is as
    /// before or cut.
    fn cut(&mut self, name: &FileName, len: u64) -> Result<(), DiskErr>
        requires { IsTrue tells
            → HasFile (files self.old) name.now (λ b. (opened self.old name.now ≤ len) × (len ≤ length b)) }
        ensures cut { IsTrue tells → OnOk result (At name.now (Cut len) (files self.old) (files self.new)) }
        ensures uncut { IsTrue tells → OnErr result
            ((files self.new ≡ files self.old) ⊎ At name.now (Cut len) (files self.old) (files self.new)) }
        ensures crash { IsTrue tells → Passes (At name.now (Frayed len)) (past self.old) (past self.new) }
        ensures opened { IsTrue tells → opened self.new ≡ opened self.old }
        ensures faults { faults self.old ≤ faults self.new }
        ensures cause { IsErr result → Rose (faults self.old) (faults self.new) }
        ensures no_memory { IsErrOf result DiskErr.Memory → ⊥ };

    /// Makes what a read gives of this name, its absence too, what every later crash leaves until the name changes
    /// again. After `Fault` nothing is known to be synced.
    fn sync(&mut self, name: &FileName) -> Result<(), DiskErr>
        ensures durable { IsTrue tells → OnOk result (Only (past self.new) name.now (files self.old name.now)) }
        ensures same { IsTrue tells → files self.new ≡ files self.old }
        ensures crash { IsTrue tells → Passes (λ a b. b ≡ a) (past self.old) (past self.new) }
        ensures opened { IsTrue tells → opened self.new ≡ opened self.old }
        ensures faults { faults self.old ≤ faults self.new }
        ensures cause { IsErr result → Rose (faults self.old) (faults self.new) }
        ensures no_memory { IsErrOf result DiskErr.Memory → ⊥ };

    /// Syncs each of these names, in no order that a crash could tell: as `sync` of each does. After `Fault` none of
    /// them is known to be synced. A disk may write a body of its own that syncs many of them at once.
    fn sync_each(&mut self, names: &[FileName]) -> Result<(), DiskErr>
        ensures durable { IsTrue tells
            → OnOk result (All (λ name. Only (past self.new) name (files self.old name)) names.now) }
        ensures same { IsTrue tells → files self.new ≡ files self.old }
        ensures crash { IsTrue tells → Passes (λ a b. b ≡ a) (past self.old) (past self.new) }
        ensures opened { IsTrue tells → opened self.new ≡ opened self.old }
        ensures faults { faults self.old ≤ faults self.new }
        ensures cause { IsErr result → Rose (faults self.old) (faults self.new) }
        ensures no_memory { IsErrOf result DiskErr.Memory → ⊥ }
    {
        for name in names {
            self.sync(name)?;
        }
        Ok(())
    }

    /// Removes a file, and sets the name's opened length to 0. Until the next sync a crash may undo it. After `Fault`
    /// the file is there or absent. A reader of the file keeps its bytes.
    fn remove(&mut self, name: &FileName) -> Result<(), DiskErr>
        requires { IsTrue tells → HasFile (files self.old) name.now (λ b. Unit {0}) }
        ensures removed { IsTrue tells → OnOk result (At name.now (Becomes None) (files self.old) (files self.new)) }
        ensures unremoved { IsTrue tells → OnErr result (At name.now (KeptOr None) (files self.old) (files self.new)) }
        ensures crash { IsTrue tells → Passes (At name.now (KeptOr None)) (past self.old) (past self.new) }
        ensures opened { IsTrue tells → (n : Name) → n ≢ name.now → opened self.new n ≡ opened self.old n }
        ensures closed { IsTrue tells → OnOk result (opened self.new name.now ≡ 0) }
        ensures no_more { IsTrue tells → opened self.new name.now ≤ opened self.old name.now }
        ensures faults { faults self.old ≤ faults self.new }
        ensures cause { IsErr result → Rose (faults self.old) (faults self.new) }
        ensures no_memory { IsErrOf result DiskErr.Memory → ⊥ };

    /// The names of a store that have files, each once, in byte order.
    fn names(&mut self, store: u8) -> Result<Vec<FileName>, DiskErr>
        ensures listed { IsTrue tells → IfOk result (λ names. Lists store (files self.old) names.items) }
        ensures same { IsTrue tells → files self.new ≡ files self.old }
        ensures crash { IsTrue tells → Passes (λ a b. b ≡ a) (past self.old) (past self.new) }
        ensures opened { IsTrue tells → opened self.new ≡ opened self.old }
        ensures faults { faults self.old ≤ faults self.new }
        ensures cause { IsErrOf result DiskErr.Fault → Rose (faults self.old) (faults self.new) };

    /// Opens a file of at least `len` bytes: the reader has its first `len` bytes for good. The name's opened length
    /// becomes at least `len`.
    fn open_file(&mut self, name: &FileName, len: u64) -> Result<Self::Reader, DiskErr>
        requires { IsTrue tells → HasFile (files self.old) name.now (λ b. len ≤ length b) }
        ensures reader { IsTrue tells → IfOk result (λ r. IsTrue Self.Reader.tells
            × HasFile (files self.old) name.now (λ b. Self.Reader.bytes r ≡ take len b)) }
        ensures fresh { IfOk result (λ r. Self.Reader.faults r ≡ 0) }
        ensures same { IsTrue tells → files self.new ≡ files self.old }
        ensures crash { IsTrue tells → Passes (λ a b. b ≡ a) (past self.old) (past self.new) }
        ensures opened { IsTrue tells → OnOk result (opened self.new name.now ≡ max (opened self.old name.now) len) }
        ensures unopened { IsTrue tells → OnErr result (opened self.new ≡ opened self.old) }
        ensures others { IsTrue tells → (n : Name) → n ≢ name.now → opened self.new n ≡ opened self.old n }
        ensures faults { faults self.old ≤ faults self.new }
        ensures cause { IsErrOf result DiskErr.Fault → Rose (faults self.old) (faults self.new) };

    /// What reads give is one of the images that a crash now may leave.
    ghost seen: { (disk : Self) → IsTrue tells → MayLeave (past disk) (files disk) };

    /// Its opened files tell their bytes only where it tells its files.
    ghost readers: { IsTrue Self.Reader.tells → IsTrue tells };

    /// Its opened files tell their bytes where it tells its files.
    ghost readers_tell: { IsTrue tells → IsTrue Self.Reader.tells };
}

impl From<AllocError> for DiskErr {
    ghost from_gives = { λ _ e. e ≡ Memory };

    fn from(_: AllocError) -> Self {
        DiskErr::Memory
    }
}

impl<T: Drop> From<AllocFailed<T>> for DiskErr {
    ghost from_gives = { λ _ e. e ≡ Memory };

    fn from(_: AllocFailed<T>) -> Self {
        DiskErr::Memory
    }
}
