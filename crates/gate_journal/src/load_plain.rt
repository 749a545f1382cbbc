// Loading: what the batches of a file are, and where its form breaks off.
ghost use Rattle.std.specs.Prelude.{◌≡◌, ◌≢◌, ◌≤◌, ◌<◌, ◌+◌, ◌^◌, ◌++◌, [], ◌∷◌, List, ℕ, length, drop, IfOk, OnOk};
ghost use Rattle.std.specs.Prelude.{IfSome, IsErrOf, IsTrue, true, Some, None, Ok, Err};
ghost use Rattle.std.specs.Int.{from_le_bytes, to_le_bytes, w32};
ghost use Rattle.disk_model.specs.Files.{Name, Files, Rose, HasFile, At};
ghost use Rattle.disk_model.specs.Past.{Passes, MayLeave, Only};
ghost use Rattle.disk_model.specs.declared.disk.DiskErr.TheVariants.{Fault, Memory};
ghost use Rattle.gate_journal.specs.Batches.{lists, framed_bytes, open_gates, Reads, IsShort, HasBatches, IsShut};
ghost use Rattle.gate_journal.specs.Batches.{IsCutOff, IsBadAt, IsBadJournal};
ghost use Rattle.gate_journal.specs.Plain.{IsSettled};
ghost use Rattle.gate_journal.specs.Load.{StaysOrShort};
ghost use Rattle.gate_journal.specs.Window.{IsPiece};
ghost use Rattle.gate_journal.specs.declared.load_plain.PlainErr.TheVariants.{Disk as OfDisk, BadJournal};
ghost use Rattle.gate_journal.specs.DiskShown.{ReadsDisk, shown_by};

use crate::BatchFold;
use crate::plain::{CLOSED, OPEN, PlainJournal};
use crate::window::Window;
use disk_model::{Disk, DiskErr, FileName, write_synced};
use std::alloc::{AllocError, AllocFailed, Global};

/// Why a journal couldn't be loaded.
#[derive(Clone, Copy, Debug, PartialEq, Eq)]
pub(crate) enum PlainErr {
    /// The disk failed, which it has counted, or memory is wanting.
    Disk(DiskErr),
    /// The file has at least two bytes, and the length, the batch or the next gate behind the open gate at place `at`
    /// doesn't lie wholly in it.
    BadJournal { at: u64 },
}

impl From<DiskErr> for PlainErr {
    ghost from_gives = { λ d e. e ≡ OfDisk d };

    fn from(e: DiskErr) -> Self {
        PlainErr::Disk(e)
    }
}

impl From<AllocError> for PlainErr {
    ghost from_gives = { λ _ e. e ≡ OfDisk Memory };

    fn from(_: AllocError) -> Self {
        PlainErr::Disk(DiskErr::Memory)
    }
}

impl<T: Drop> From<AllocFailed<T>> for PlainErr {
    ghost from_gives = { λ _ e. e ≡ OfDisk Memory };

    fn from(_: AllocFailed<T>) -> Self {
        PlainErr::Disk(DiskErr::Memory)
    }
}

impl PlainJournal {
    /// The journal of a file, whose batches the fold takes in, oldest first, each as soon as it is read. It syncs the
    /// file before it reads it. Where the file is absent or shorter than two bytes it writes one byte 0 and syncs, and
    /// there is no batch. It reads in pieces of 64 KiB and keeps no batch.
    ///
    /// `BadJournal` comes exactly by the file's form, and `Disk(Fault)` only where the disk's count
    /// of faults rose in the call.
    pub(crate) fn load_into<D: Disk, F: BatchFold>(
        alloc: Global,
        disk: &mut D,
        name: &FileName,
        fold: &mut F,
    ) -> Result<PlainJournal, PlainErr>
        requires unopened { IsTrue D.tells → D.opened disk.old name.now ≡ 0 }
        requires empty { F.took fold.old [] }

        ensures took { IfOk result (λ j. (bs : List (List ℕ)) × F.took fold.new bs
            × (IsTrue D.tells → HasBatches (D.files disk.old name.now) bs
            × IsSettled j (shown_by D.Disk disk.new) bs)) }
        ensures journal { IfOk result (λ j. (j.name ≡ name.now) × (j.sound ≡ true)) }
        ensures bad { IsTrue D.tells → (at : ℕ) → result ≡ Err (BadJournal at)
            → IsBadJournal (D.files disk.old name.now) at }
        ensures made { IsTrue D.tells → IsShort (D.files disk.old name.now)
            → OnOk result (D.files disk.new name.now ≡ Some (0 ∷ [])) }

        // Reads give the file as before, or a short one again, and a crash at any moment leaves it as it
        // might have left it before, or short again where it was short; of every other name it leaves what
        // it might have left before.
        ensures kept { IsTrue D.tells → At name.now StaysOrShort (D.files disk.old) (D.files disk.new) }
        ensures any_moment { IsTrue D.tells → Passes (At name.now StaysOrShort) (D.past disk.old) (D.past disk.new) }
        ensures opened { IsTrue D.tells → (n : Name) → n ≢ name.now → D.opened disk.new n ≡ D.opened disk.old n }
        ensures unopened { IsTrue D.tells → D.opened disk.new name.now ≡ 0 }

        ensures faults { D.faults disk.old ≤ D.faults disk.new }
        ensures cause { result ≡ Err (OfDisk Fault) → Rose (D.faults disk.old) (D.faults disk.new) }
    {
        let own = name.copy(alloc)?;
        let size = present(disk, name)?;
        if size < 2 {
            write_synced(disk, name, 0, &[CLOSED])?;
            return Ok(PlainJournal::closed_at(alloc, own, 0));
        }
        let place = walk(alloc, disk, name, size, fold)?;
        Ok(PlainJournal::closed_at(alloc, own, place))
    }
}

// Syncs the file, makes it where there is none, and tells its size.
fn present<D: Disk>(disk: &mut D, name: &FileName) -> Result<u64, DiskErr>
    ensures file { IsTrue D.tells → IfOk result (λ n. HasFile (D.files disk.new) name.now (λ b. length b ≡ n)) }
    ensures long { IsTrue D.tells → IfOk result (λ n. 2 ≤ n
        → (D.files disk.new ≡ D.files disk.old) × Only (D.past disk.new) name.now (D.files disk.old name.now)) }
    ensures short { IsTrue D.tells → IfOk result (λ n. n < 2 → IsShort (D.files disk.old name.now)) }
    ensures short_left { IsTrue D.tells
        → IfOk result (λ n. n < 2 → (image : Files) → MayLeave (D.past disk.new) image → IsShort (image name.now)) }
    ensures kept { IsTrue D.tells → At name.now StaysOrShort (D.files disk.old) (D.files disk.new) }
    ensures crash { IsTrue D.tells → Passes (At name.now StaysOrShort) (D.past disk.old) (D.past disk.new) }
    ensures opened { IsTrue D.tells → (n : Name) → n ≢ name.now → D.opened disk.new n ≡ D.opened disk.old n }
    ensures no_more { IsTrue D.tells → D.opened disk.new name.now ≤ D.opened disk.old name.now }
    ensures faults { D.faults disk.old ≤ D.faults disk.new }
    ensures cause { IsErrOf result DiskErr.Fault → Rose (D.faults disk.old) (D.faults disk.new) }
{
    disk.sync(name)?;
    match disk.size(name)? {
        Some(size) => Ok(size),
        None => {
            disk.create(name)?;
            Ok(0)
        }
    }
}

// Gives the batches of a file of this size to the fold, and answers the place of the gate that isn't open.
fn walk<D: Disk, F: BatchFold>(
    alloc: Global,
    disk: &mut D,
    name: &FileName,
    size: u64,
    fold: &mut F,
) -> Result<u64, PlainErr>
    requires file { IsTrue D.tells → HasFile (D.files disk.old) name.now (λ b. length b ≡ size) }
    requires long { 2 ≤ size }
    requires empty { F.took fold.old [] }
    ensures loaded { IfOk result (λ place. (bs : List (List ℕ)) × F.took fold.new bs
        × (IsTrue D.tells → (b : List ℕ) → D.files disk.old name.now ≡ Some b
        → Reads b bs × (place ≡ length (open_gates bs)))) }
    ensures bad { IsTrue D.tells → (b : List ℕ) → D.files disk.old name.now ≡ Some b → (at : ℕ)
        → result ≡ Err (BadJournal at) → IsBadAt b at }
    ensures fits { IfOk result (λ place. place < size) }
    ensures reads { IsTrue D.tells → ReadsDisk (shown_by D.Disk disk.old) (shown_by D.Disk disk.new) }
    ensures faults { D.faults disk.old ≤ D.faults disk.new }
    ensures cause { result ≡ Err (OfDisk Fault) → Rose (D.faults disk.old) (D.faults disk.new) }
{
    let mut window = Window::new(alloc, size)?;
    let mut place: u64 = 0;
    let mut number: u64 = 0;
    while let Some(batch) = next(alloc, disk, name, &mut window, place)? {
        fold.take(number, &batch)?;
        place += 5 + batch.len() as u64;
        number += 1;
    }
    Ok(place)
}

// The batch behind the gate at this place, if that is open.
fn next<D: Disk>(
    alloc: Global,
    disk: &mut D,
    name: &FileName,
    window: &mut Window,
    place: u64,
) -> Result<Option<Vec<u8>>, PlainErr>
    requires file { IsTrue D.tells
        → HasFile (D.files disk.old) name.now (λ b. (length b ≡ window.old.size) × IsPiece window.old b) }
    requires within { place < window.old.size }
    ensures shut { IsTrue D.tells → (b : List ℕ) → D.files disk.old name.now ≡ Some b → result ≡ Ok None
        → IsShut (drop place b) }
    ensures whole { IsTrue D.tells → (b : List ℕ) → D.files disk.old name.now ≡ Some b
        → IfOk result (λ r.
        IfSome r (λ v. drop place b ≡ 1 ∷ framed_bytes v.items ++ drop (place + 5 + length v.items) b)) }
    ensures fits { IfOk result (λ r.
        IfSome r (λ v. (length v.items < 2 ^ 32) × (place + 5 + length v.items < window.old.size))) }
    ensures bad { IsTrue D.tells → (b : List ℕ) → D.files disk.old name.now ≡ Some b → (at : ℕ)
        → result ≡ Err (BadJournal at)
        → (at ≡ place) × IsCutOff (drop place b) }
    ensures piece { IsTrue D.tells → (b : List ℕ) → D.files disk.old name.now ≡ Some b
        → OnOk result (IsPiece window.new b) }
    ensures size { window.new.size ≡ window.old.size }
    ensures reads { IsTrue D.tells → ReadsDisk (shown_by D.Disk disk.old) (shown_by D.Disk disk.new) }
    ensures faults { D.faults disk.old ≤ D.faults disk.new }
    ensures cause { result ≡ Err (OfDisk Fault) → Rose (D.faults disk.old) (D.faults disk.new) }
{
    let left = window.size - place;
    let mut head = [0u8; 5];
    window.read(disk, name, place, &mut head)?;
    if head[0] != OPEN {
        return Ok(None);
    }
    let len = length_of(&head[1..]);
    if left < 5 || left - 5 <= len as u64 {
        return Err(PlainErr::BadJournal { at: place });
    }
    let batch = window.bytes_at(alloc, disk, name, place + 5, len as usize)?;
    Ok(Some(batch))
}

fn length_of(bytes: &[u8]) -> u32
    requires { length bytes.now ≡ 4 }
    ensures value { result ≡ from_le_bytes w32 bytes.now }
    ensures bytes { to_le_bytes w32 result ≡ bytes.now }
{
    u32::from_le_bytes([bytes[0], bytes[1], bytes[2], bytes[3]])
}
