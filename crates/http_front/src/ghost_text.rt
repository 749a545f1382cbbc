// A text that exists only in proofs.
ghost use Rattle.std.specs.Prelude.{◌≡◌, ℕ, List, [], ◌++◌};
ghost use base.Fml.{ftrue};
ghost use Rattle.http_front.specs.Chunks.{chunked};

use std::marker::Model;

/// Bytes that only contracts read. It takes no memory, and its methods do nothing when they run.
#[derive(Drop)]
pub struct GhostText {
    pub ghost bytes: { List ℕ },
}

impl Model for GhostText {
    ghost also_owns = { λ _. ftrue };
}

/// A piece of a text.
#[derive(Clone, Copy, Drop)]
pub struct TextPiece<'a>(pub &'a [u8]);

impl GhostText {
    /// No bytes.
    pub fn new() -> GhostText
        ensures { result.bytes ≡ [] }
    {
        GhostText {}
    }

    /// The text with a piece behind it.
    #[inline(always)]
    pub fn then(&self, _piece: &TextPiece<'_>) -> GhostText
        ensures { result.bytes ≡ self.now.bytes ++ _piece.now.0.now }
    {
        GhostText {}
    }

    /// The chunks of the text with a piece behind it.
    #[inline(always)]
    pub fn chunked(&self, _piece: &TextPiece<'_>) -> GhostText
        ensures { result.bytes ≡ chunked (self.now.bytes ++ _piece.now.0.now) }
    {
        GhostText {}
    }
}
