//! Where the samples of a merge come from, and what its calls come to.
ghost use Rattle.std.specs.Prelude.{◌≡◌, ◌≤◌, ◌↔◌, [], ◌++◌, ℕ, List, IsTrue};
ghost use Rattle.disk_model.specs.Files.{Rose};
ghost use Rattle.stream_merge.specs.Pieces.{NamedBytes, Opens, HasBytes, HasNoFault, Counts, Failure, Leads};

use disk_model::{FileName, ReadAt};

/// What the opening of the next piece came to.
#[derive(Drop)]
pub enum Opened<R: ReadAt> {
    /// The piece is the first `len` bytes of the file of this name. The first `head_len` of them are its
    /// header's line and newline.
    Piece {
        reader: R,
        name: FileName,
        head_len: u64,
        len: u64,
    },
    /// No piece is left.
    NoMore,
    /// The opening failed, which the pieces have counted.
    ReadFault,
    /// The acts by which pieces are opened are spent.
    Spent,
    /// Memory ran out.
    Memory,
}

/// What a call of `Merge::next` came to.
#[derive(Drop)]
pub enum Merged<R: ReadAt> {
    /// The next line of the answer, an event at this moment, in nanoseconds since 1970.
    Line { t: u64 },
    /// The answer is whole.
    End,
    /// A read of this file failed, which it has counted. Where there is none, the opening of a piece failed,
    /// which the pieces have counted.
    ReadFault { failed: Option<R> },
    /// The bytes of this piece are no file of the type: a bad line begins at this place. A header of another type is
    /// bad at 0. Lines that are passed over aren't looked at.
    Damaged { name: FileName, at: u64 },
    /// The acts by which pieces are opened are spent.
    Spent,
    /// Memory ran out.
    Memory,
}

/// The pieces of a series, opened one by one in their order.
pub trait Pieces {
    type Reader: ReadAt;

    /// How many pieces are left.
    ghost count: { Self → ℕ };

    /// These are the pieces left.
    ghost left: { Self → List NamedBytes → Type 0 };

    /// How often an opening failed. The count stays at the last number of a `u64`.
    ghost faults: { Self → ℕ };

    /// The acts by which pieces are opened are spent.
    ghost is_spent: { Self → Type 0 };

    /// The next piece may be opened.
    ghost may_open: { Self → Type 0 };

    /// These pieces were opened from the first to the second, in this order, and no opening failed.
    ghost opened: { Self → List NamedBytes → Self → Type 0 };

    /// Pieces were opened from the first to the second, and then an opening failed for this reason.
    ghost failed: { Self → Failure → Self → Type 0 };

    /// Opens the next piece. Its reader has no fault yet.
    fn open_next(&mut self) -> Opened<Self::Reader>
        requires may { may_open self.old }
        ensures opens { IsTrue Self.Reader.tells → (ps : List NamedBytes) → left self.old ps
            → Opens Self.Reader.bytes (left self.new) ps result }
        ensures bytes { IsTrue Self.Reader.tells → HasBytes Self.Reader.bytes result }
        ensures fresh { HasNoFault Self.Reader.faults result }
        ensures count { Counts (count self.old) (count self.new) result }
        ensures none { (result ≡ Opened.NoMore) ↔ (count self.old ≡ 0) }
        ensures faults { faults self.old ≤ faults self.new }
        ensures cause { result ≡ Opened.ReadFault → Rose (faults self.old) (faults self.new) }
        ensures spent { result ≡ Opened.Spent → is_spent self.new }
        ensures leads { Leads Self.Reader.bytes opened failed self.old result self.new };

    /// No piece was opened.
    ghost none_opened: { (a : Self) → opened a [] a };

    /// What was opened first and what was opened then.
    ghost opened_on: { (a b c : Self) (xs ys : List NamedBytes) → opened a xs b → opened b ys c
        → opened a (xs ++ ys) c };

    /// A failure behind what was opened.
    ghost failed_on: { (a b c : Self) (xs : List NamedBytes) (why : Failure) → opened a xs b → failed b why c
        → failed a why c };

    /// As long as no opening fails the next piece may be opened.
    ghost goes_on: { (a b : Self) (xs : List NamedBytes) → may_open a → opened a xs b → may_open b };
}
