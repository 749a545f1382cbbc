// The opening of pinned pieces, and the end of pins.
ghost use Rattle.std.specs.Prelude.{◌≡◌, length, slice_get, Some, None, Ok, Err};
ghost use Rattle.std.specs.FinMap.{get};
ghost use Rattle.act_model.specs.declared.acts.Answer.TheVariants.{NoPiece};
ghost use Rattle.pins.specs.declared.table.PinErr.{PinErr as PinErrValue};
ghost use Rattle.pins.specs.Pieces.{PinOf, asked};
ghost use Rattle.pins.specs.declared.piece.PinnedFile.{PinnedFile as Piece};
ghost use Rattle.tier_store.specs.Stores.{Stores};
ghost use Rattle.tier_store.specs.Seen.{seen, SameMemory};
ghost use Rattle.tier_store.specs.Change.{IsOpen, OnlyReads};
ghost use Rattle.tier_store.specs.Limbo.{LimboStands};
ghost use Rattle.tier_store.specs.Moving.{KeepsBeside};
ghost use Rattle.tier_store.specs.Pinned.{seen_all, PinsStand, KeepsShown};
ghost use Rattle.tier_store.specs.Opening.{IsOpened, answer_of, end_of_answer, refusal, given_up, pins_left};
ghost use Rattle.tier_store.specs.Revival.{KeepsWhole};

use crate::TierStore;
use act_model::Answer;
use disk_model::{Disk, DiskErr};
use pins::PinErr;

// How one is answered who asks for a pin that isn't there, or is another's.
fn refused<R: Drop>(e: PinErr) -> Answer<R>
    ensures { result ≡ refusal e }
{
    match e {
        PinErr::NoPin => Answer::NoPin,
        PinErr::NotYours { owner } => Answer::NotYours { owner },
    }
}

impl<D: Disk> TierStore<D> {
    // Opens piece `i` of an owner's pin, if it is there.
    fn read_piece(&mut self, who: u64, pin: u32, i: u32) -> Result<Answer<D::Reader>, DiskErr>
        requires begun { (before : Stores) × (after : Stores) × IsOpen D.tells (seen D.Disk self.old) before after }
        requires stand { PinsStand D.tells (seen_all D.Disk self.old) self.old.pinned }

        ensures refused { (e : PinErrValue) → asked who (get self.old.pinned pin) ≡ Err e
            → (result ≡ Ok (refusal e)) × (self.new ≡ self.old) }
        ensures no_piece { (p : PinOf) → asked who (get self.old.pinned pin) ≡ Ok p
            → slice_get p.pieces i ≡ None
            → (result ≡ Ok (NoPiece (length p.pieces))) × (self.new ≡ self.old) }
        ensures piece { (p : PinOf) (piece : Piece) → asked who (get self.old.pinned pin) ≡ Ok p
            → slice_get p.pieces i ≡ Some piece
            → IsOpened D.tells D.Reader.tells D.Reader.bytes D.Reader.faults
            (seen_all D.Disk self.old) piece (answer_of result) }
        ensures kept { (before after : Stores) → IsOpen D.tells (seen D.Disk self.old) before after
            → IsOpen D.tells (seen D.Disk self.new) before after }
        ensures same { SameMemory self.old self.new }
        ensures beside { KeepsBeside D.tells (seen_all D.Disk self.old) (seen_all D.Disk self.new) }
        ensures whole { LimboStands (seen D.Disk self.old) self.old.limbo.items
            → KeepsWhole D.tells (seen_all D.Disk self.old) (seen_all D.Disk self.new) }
        ensures reads { OnlyReads D.tells
            (seen D.Disk self.old) (seen D.Disk self.new) (end_of_answer (answer_of result)) }
    {
        let pieces = match self.pinned.pieces(who, pin) {
            Ok(pieces) => pieces,
            Err(e) => return Ok(refused(e)),
        };
        let Some(piece) = pieces.get(i as usize) else {
            return Ok(Answer::NoPiece {
                pieces: pieces.len() as u64,
            });
        };
        let name = piece.name.copy(self.alloc)?;
        let reader = self.disk.open_file(&name, piece.len)?;
        Ok(Answer::Piece {
            reader,
            name,
            head_len: piece.head_len,
            len: piece.len,
        })
    }
    /// Opens piece `i` of an owner's own pin: the reader has the bytes that were pinned, whatever has become of the
    /// file since. A change that stands in doubt stays in doubt. `NoPin`, `NotYours` and `NoPiece` come exactly where
    /// no pin has the number, where it is another's, and where the pin has no such piece, in this order, and then the
    /// disk isn't called. It needs that the pieces stand as they were pinned, which each call keeps so. No file is
    /// opened further than it may be listed, so running moves go on beside the stores.
    ///
    /// `DiskFault` comes only where the disk's count of faults rose in the call.
    pub fn open_piece(&mut self, who: u64, pin: u32, i: u32) -> Answer<D::Reader>
        requires begun { (before : Stores) × (after : Stores) × IsOpen D.tells (seen D.Disk self.old) before after }
        requires stand { PinsStand D.tells (seen_all D.Disk self.old) self.old.pinned }

        ensures refused { (e : PinErrValue) → asked who (get self.old.pinned pin) ≡ Err e
            → (result ≡ refusal e) × (self.new ≡ self.old) }
        ensures no_piece { (p : PinOf) → asked who (get self.old.pinned pin) ≡ Ok p
            → slice_get p.pieces i ≡ None
            → (result ≡ NoPiece (length p.pieces)) × (self.new ≡ self.old) }
        ensures piece { (p : PinOf) (piece : Piece) → asked who (get self.old.pinned pin) ≡ Ok p
            → slice_get p.pieces i ≡ Some piece
            → IsOpened D.tells D.Reader.tells D.Reader.bytes D.Reader.faults (seen_all D.Disk self.old) piece result }
        ensures kept { (before after : Stores) → IsOpen D.tells (seen D.Disk self.old) before after
            → IsOpen D.tells (seen D.Disk self.new) before after }
        ensures same { SameMemory self.old self.new }
        ensures shown { KeepsShown D.tells (seen_all D.Disk self.old) (seen_all D.Disk self.new) }
        ensures beside { KeepsBeside D.tells (seen_all D.Disk self.old) (seen_all D.Disk self.new) }
        ensures whole { LimboStands (seen D.Disk self.old) self.old.limbo.items
            → KeepsWhole D.tells (seen_all D.Disk self.old) (seen_all D.Disk self.new) }
        ensures reads { OnlyReads D.tells (seen D.Disk self.old) (seen D.Disk self.new) (end_of_answer result) }
    {
        told(self.read_piece(who, pin, i))
    }

    /// Gives up an owner's own pin. `NoPin` and `NotYours` come exactly where no pin has the number,
    /// and where it is another's.
    pub fn unpin(&mut self, who: u64, pin: u32) -> Answer<D::Reader>
        ensures answer { result ≡ given_up (asked who (get self.old.pinned pin)) }
        ensures pins { self.new.pinned ≡ pins_left self.old.pinned pin (asked who (get self.old.pinned pin)) }
        ensures same { (self.new.catalogue ≡ self.old.catalogue)
            × (self.new.manifests ≡ self.old.manifests)
            × (self.new.disk ≡ self.old.disk)
            × (self.new.limbo ≡ self.old.limbo) }
    {
        match self.pinned.drop_pin(who, pin) {
            Ok(()) => Answer::Unpinned,
            Err(e) => refused(e),
        }
    }
}

// What is answered after a call of the disk.
pub(crate) fn told<R: Drop>(done: Result<Answer<R>, DiskErr>) -> Answer<R>
    ensures { result ≡ answer_of done }
{
    match done {
        Ok(answer) => answer,
        Err(DiskErr::Fault) => Answer::DiskFault,
        Err(DiskErr::Memory) => Answer::Memory,
    }
}
