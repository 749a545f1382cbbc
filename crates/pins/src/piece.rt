// The pieces of one pin.
ghost use Rattle.std.specs.Prelude.{◌≡◌, IfOk, map};
ghost use Rattle.pins.specs.Pieces.{file_of};

use disk_model::FileName;
use std::alloc::{AllocError, Global};
use std::marker::Model;

/// What is pinned of a file: its first bytes, as many as were listed.
#[derive(Drop)]
pub struct PinnedFile {
    /// The file's name.
    pub name: FileName,
    /// How many bytes its header's line takes, with the newline.
    pub head_len: u64,
    /// How many of its bytes are pinned.
    pub len: u64,
}

/// Whose a pin is, and its pieces.
#[derive(Drop)]
pub(crate) struct OwnPieces {
    pub(crate) owner: u64,
    pub(crate) pieces: Vec<PinnedFile>,
}

impl Model for OwnPieces {
    ghost use Rattle.pins.specs.Pieces.{PinOf};

    ghost Value = { PinOf };

    ghost view = { λ p. record { owner = p.owner; pieces = p.pieces.items } };
}

impl OwnPieces {
    pub(crate) fn owner(&self) -> u64
        ensures { result ≡ self.now.owner }
    {
        self.owner
    }

    pub(crate) fn pieces(&self) -> &[PinnedFile]
        ensures { result.now ≡ self.now.pieces }
    {
        self.pieces.as_slice()
    }
}

// The names of the pieces' files.
pub(crate) fn files_of(alloc: Global, pieces: &[PinnedFile]) -> Result<Vec<FileName>, AllocError>
    ensures { IfOk result (λ files. files.items ≡ map file_of pieces.now) }
{
    let mut files = Vec::with_capacity(alloc, pieces.len())?;
    for piece in pieces {
        files.push(piece.name.copy(alloc)?)?;
    }
    Ok(files)
}
