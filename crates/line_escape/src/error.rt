// Why a line means no bytes.
ghost use Rattle.std.specs.Prelude.{◌≡◌};

use std::alloc::{AllocError, AllocFailed};

/// Why a line can't be unescaped.
#[derive(Clone, Copy, Debug, PartialEq, Eq)]
pub enum EscapeErr {
    /// The first 1B that isn't followed by 01, 02 or 03 has so many bytes before it.
    BadEscape { at: usize },
    /// Memory ran out.
    Memory,
}

impl From<AllocError> for EscapeErr {
    ghost use Rattle.line_escape.specs.declared.error.EscapeErr.TheVariants.{Memory};

    ghost from_gives = { λ _ e. e ≡ Memory };

    fn from(_: AllocError) -> EscapeErr {
        EscapeErr::Memory
    }
}

impl<T: Drop> From<AllocFailed<T>> for EscapeErr {
    ghost use Rattle.line_escape.specs.declared.error.EscapeErr.TheVariants.{Memory};

    ghost from_gives = { λ _ e. e ≡ Memory };

    fn from(_: AllocFailed<T>) -> EscapeErr {
        EscapeErr::Memory
    }
}
