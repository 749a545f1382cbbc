// A batch counts where the gate before it is open, and a gate is opened only when all behind it is on the disk.
ghost use Rattle.std.specs.Prelude.{◌≡◌, ◌≤◌, ◌<◌, ◌+◌, ◌^◌, ◌++◌, [], ◌∷◌, List, ℕ, length, IfOk, OnOk, OnErr};
ghost use Rattle.std.specs.Prelude.{IsErr, IsErrOf, IsTrue, true, false, Some, ◌↔◌, slice_index};
ghost use Rattle.disk_model.specs.Files.{Rose, HasFile, At, Overwritten, Torn};
ghost use Rattle.disk_model.specs.Past.{Passes};
ghost use Rattle.gate_journal.specs.Batches.{framed_bytes, committed, greatest_batch};
ghost use Rattle.gate_journal.specs.Plain.{PlainState, BeforeOrAfter, NoShorter, IsSettled, IsInDoubt};
ghost use Rattle.gate_journal.specs.DiskShown.{ChangesOne, ReadsDisk, shown_by};

use disk_model::{Disk, DiskErr, FileName, write_synced};
use std::alloc::{AllocError, Global};
use std::marker::Model;

/// The greatest length of a batch.
pub const GREATEST_BATCH: usize = 1_073_741_824;

pub(crate) const OPEN: u8 = 1;

pub(crate) const CLOSED: u8 = 0;

/// A journal of batches in one file of a disk. Contracts see the name of its file, the place of its closed gate, how
/// far behind that the next gate of the last commit stands, and whether it may commit.
#[derive(Drop)]
pub struct PlainJournal {
    name: FileName,
    place: u64,
    pending: u64,
    sound: bool,
    frame: Vec<u8>,
}

impl Model for PlainJournal {
    ghost Value = { PlainState };

    ghost view = { λ j. record { name = j.name; place = j.place; pending = j.pending; sound = j.sound } };

    ghost invariant = { λ j. j.place + 1 < 2 ^ 64 };
}

impl PlainJournal {
    // A journal whose closed gate stands at this place.
    pub(crate) fn closed_at(alloc: Global, name: FileName, place: u64) -> PlainJournal
        requires { place + 1 < 2 ^ 64 }
        ensures { result ≡ record { name = name; place = place; pending = 0; sound = true } }
    {
        PlainJournal {
            name,
            place,
            pending: 0,
            sound: true,
            frame: Vec::new(alloc),
        }
    }

    /// The name of its file.
    pub(crate) fn name(&self) -> &FileName
        ensures { result.now ≡ self.now.name }
    {
        &self.name
    }

    /// Whether it may commit: no commit has failed since it was loaded or reviewed.
    pub(crate) fn is_sound(&self) -> bool
        ensures { result ≡ self.now.sound }
    {
        self.sound
    }

    /// How many bytes of its file stand up to and with the closed gate.
    pub(crate) fn len(&self) -> u64
        ensures { result ≡ self.now.place + 1 }
    {
        self.place + 1
    }

    /// Adds one batch, whole or not at all, also across a crash, by four calls of the disk: a write of the length,
    /// the batch and a closed gate, a sync, a write of the open gate, and a sync. After `Fault` the journal isn't
    /// sound: it is reviewed, or loaded again. `Memory` comes before anything is written. The journal keeps the
    /// memory that its longest batch took.
    pub(crate) fn commit<D: Disk>(&mut self, disk: &mut D, batch: &[u8]) -> Result<(), DiskErr>
        requires sound { IsTrue self.old.sound }
        requires not_empty { 1 ≤ length batch.now }
        requires not_long { length batch.now ≤ greatest_batch }
        requires settled { IsTrue D.tells → (bs : List (List ℕ)) × IsSettled self.old (shown_by D.Disk disk.old) bs }

        ensures added { IsTrue D.tells → (bs : List (List ℕ)) → IsSettled self.old (shown_by D.Disk disk.old) bs
            → OnOk result (IsSettled self.new (shown_by D.Disk disk.new) (bs ++ batch.now ∷ [])) }

        // A crash at any moment of the call leaves the batches from before it, without the new one or with it, and of
        // every other name what it might have left before. The file gets no shorter.
        ensures any_moment { IsTrue D.tells → (bs : List (List ℕ)) → IsSettled self.old (shown_by D.Disk disk.old) bs
            → Passes (At self.old.name (BeforeOrAfter bs batch.now)) (D.past disk.old) (D.past disk.new) }

        ensures one_file { IsTrue D.tells
            → ChangesOne self.old.name NoShorter (shown_by D.Disk disk.old) (shown_by D.Disk disk.new) }
        ensures in_doubt { IsTrue D.tells → (bs : List (List ℕ)) → IsSettled self.old (shown_by D.Disk disk.old) bs
            → IsErrOf result DiskErr.Fault → IsInDoubt self.new (shown_by D.Disk disk.new) bs batch.now }
        ensures bytes { IsTrue D.tells → (b : List ℕ) → D.files disk.old self.old.name ≡ Some b
            → OnOk result (D.files disk.new self.old.name ≡ Some (committed self.old.place batch.now b)) }

        ensures name { self.new.name ≡ self.old.name }
        ensures placed { OnOk result
            ((self.new.place ≡ self.old.place + (5 + length batch.now)) × (self.new.sound ≡ true)) }
        ensures fault { IsErrOf result DiskErr.Fault
            → (self.new.sound ≡ false) × Rose (D.faults disk.old) (D.faults disk.new) }
        ensures memory { IsErrOf result DiskErr.Memory → (self.new ≡ self.old) × (disk.new ≡ disk.old) }
        ensures faults { D.faults disk.old ≤ D.faults disk.new }
    {
        frame(&mut self.frame, batch)?;
        self.sound = false;
        self.pending = self.frame.len() as u64;
        write_synced(disk, &self.name, self.place + 1, &self.frame)?;
        write_synced(disk, &self.name, self.place, &[OPEN])?;
        self.place += self.pending;
        self.sound = true;
        Ok(())
    }

    /// After a commit that failed: whether its batch is one of the journal's. It is exactly where the gate before it
    /// reads 1 and the batch and its next gate lie in the file. The journal is sound afterwards; after an error it is
    /// as before, and can be reviewed again.
    pub(crate) fn review<D: Disk>(&mut self, disk: &mut D) -> Result<bool, DiskErr>
        requires unsound { self.old.sound ≡ false }
        requires in_doubt { IsTrue D.tells → (bs : List (List ℕ)) × (batch : List ℕ)
            × IsInDoubt self.old (shown_by D.Disk disk.old) bs batch }

        ensures made { IsTrue D.tells → (bs : List (List ℕ)) → (batch : List ℕ)
            → IsInDoubt self.old (shown_by D.Disk disk.old) bs batch
            → IfOk result (λ made. IsTrue made → IsSettled self.new (shown_by D.Disk disk.new) (bs ++ batch ∷ [])) }
        ensures unmade { IsTrue D.tells → (bs : List (List ℕ)) → (batch : List ℕ)
            → IsInDoubt self.old (shown_by D.Disk disk.old) bs batch
            → IfOk result (λ made. made ≡ false → IsSettled self.new (shown_by D.Disk disk.new) bs) }
        ensures exactly { IsTrue D.tells → (b : List ℕ) → D.files disk.old self.old.name ≡ Some b
            → IfOk result (λ made. IsTrue made
            ↔ ((slice_index b self.old.place ≡ 1) × (self.old.place + self.old.pending < length b))) }
        ensures doubtful { IsTrue D.tells → (bs : List (List ℕ)) → (batch : List ℕ)
            → IsInDoubt self.old (shown_by D.Disk disk.old) bs batch
            → OnErr result (IsInDoubt self.new (shown_by D.Disk disk.new) bs batch) }

        ensures reads { IsTrue D.tells → ReadsDisk (shown_by D.Disk disk.old) (shown_by D.Disk disk.new) }

        ensures name { self.new.name ≡ self.old.name }
        ensures sound { OnOk result (self.new.sound ≡ true) }
        ensures still { OnErr result (self.new ≡ self.old) }
        ensures faults { D.faults disk.old ≤ D.faults disk.new }
        ensures cause { IsErrOf result DiskErr.Fault → Rose (D.faults disk.old) (D.faults disk.new) }
    {
        disk.sync(&self.name)?;
        if !is_open(disk, &self.name, self.place, self.pending)? {
            self.sound = true;
            return Ok(false);
        }
        self.place += self.pending;
        self.sound = true;
        Ok(true)
    }
}

// The bytes that go behind a closed gate: a length, a batch and the next closed gate.
#[tactic(auto, unfolding(crate::specs::Batches::framed_bytes))]
fn frame(bytes: &mut Vec<u8>, batch: &[u8]) -> Result<(), AllocError>
    requires { length batch.now < 2 ^ 32 }
    ensures { OnOk result (bytes.new.items ≡ framed_bytes batch.now ++ 0 ∷ []) }
{
    bytes.clear();
    bytes.reserve(batch.len() + 5)?;
    bytes.extend_from_slice(&(batch.len() as u32).to_le_bytes())?;
    bytes.extend_from_slice(batch)?;
    bytes.push(CLOSED)?;
    Ok(())
}

// Whether the gate at this place is open, and as many bytes stand behind it in the file.
fn is_open<D: Disk>(disk: &mut D, name: &FileName, place: u64, behind: u64) -> Result<bool, DiskErr>
    requires { IsTrue D.tells → HasFile (D.files disk.old) name.now (λ b. place < length b) }
    ensures answer { IsTrue D.tells → (b : List ℕ) → D.files disk.old name.now ≡ Some b
        → IfOk result (λ found. IsTrue found ↔ ((slice_index b place ≡ 1) × (place + behind < length b))) }
    ensures fits { IfOk result (λ found. IsTrue found → place + behind + 1 < 2 ^ 64) }
    ensures reads { IsTrue D.tells → ReadsDisk (shown_by D.Disk disk.old) (shown_by D.Disk disk.new) }
    ensures faults { D.faults disk.old ≤ D.faults disk.new }
    ensures cause { IsErrOf result DiskErr.Fault → Rose (D.faults disk.old) (D.faults disk.new) }
{
    let Some(size) = disk.size(name)? else {
        return Ok(false);
    };
    if size <= place || size - place <= behind {
        return Ok(false);
    }
    let mut gate = [0u8; 1];
    disk.read(name, place, &mut gate)?;
    Ok(gate[0] == OPEN)
}
