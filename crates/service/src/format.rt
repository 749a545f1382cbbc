// The forms of an answer's text.
ghost use Rattle.std.specs.Prelude.{◌≡◌};
ghost use Rattle.service.specs.Data.{is_json};

use sample_bins::Op;

/// In which form an answer is written.
#[derive(Clone, Copy, Debug, PartialEq, Eq)]
pub enum Format {
    /// Lines of the PB file format, by years, of the answer or what an operator makes of it.
    Raw { op: Option<Op> },
    /// A JSON text of the same.
    Json { op: Option<Op> },
}

impl Format {
    pub(crate) fn is_json(self) -> bool
        ensures { result ≡ is_json self }
    {
        match self {
            Format::Raw { .. } => false,
            Format::Json { .. } => true,
        }
    }
}
