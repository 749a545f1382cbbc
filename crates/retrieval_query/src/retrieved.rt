// How a retrieval ended.
ghost use Rattle.std.specs.Prelude.{◌≡◌, ℕ};
ghost use Rattle.retrieval_query.specs.Giving.{retrieved_by, IsToldAs};

use crate::variable::PinVariableErr;
use act_model::OutErr;
use disk_model::{FileName, ReadAt};
use stream_merge::Merged;

/// How a retrieval ended.
#[derive(Drop)]
pub enum Retrieved<R: ReadAt> {
    /// The whole text was written, of so many samples.
    Finished { count: u64 },
    /// No row has the name.
    NoSuchVariable,
    /// A read of this file failed, which it has counted. Where there is none, the disk failed in an
    /// act, which it has counted.
    ReadFault { failed: Option<R> },
    /// The bytes of this file are no file of the variable's type; the first bad line begins at this place.
    Damaged { name: FileName, at: u64 },
    /// A write failed, which the output has counted.
    SinkFault,
    /// No act is left.
    Spent,
    /// Memory ran out.
    Memory,
}

impl<R: ReadAt> From<OutErr> for Retrieved<R> {
    ghost from_gives = { λ err end. end ≡ retrieved_by err };

    fn from(err: OutErr) -> Retrieved<R> {
        match err {
            OutErr::SinkFault => Retrieved::SinkFault,
            OutErr::Memory => Retrieved::Memory,
        }
    }
}

impl<R: ReadAt> From<PinVariableErr> for Retrieved<R> {
    ghost use Rattle.retrieval_query.specs.Pinning.{ended_by};

    ghost from_gives = { λ why end. end ≡ ended_by why };

    fn from(why: PinVariableErr) -> Retrieved<R> {
        match why {
            PinVariableErr::NoSuchVariable => Retrieved::NoSuchVariable,
            PinVariableErr::DiskFault => Retrieved::ReadFault { failed: None },
            PinVariableErr::Spent => Retrieved::Spent,
            PinVariableErr::Memory => Retrieved::Memory,
        }
    }
}

/// How a retrieval ends whose merge has ended before its answer was whole.
pub(crate) fn stopped_by<R: ReadAt>(merged: Merged<R>) -> Retrieved<R>
    requires line { (t : ℕ) → merged ≡ Merged.Line t → ⊥ }
    requires end { merged ≡ Merged.End → ⊥ }
    ensures { IsToldAs merged result }
{
    match merged {
        Merged::ReadFault { failed } => Retrieved::ReadFault { failed },
        Merged::Damaged { name, at } => Retrieved::Damaged { name, at },
        Merged::Spent => Retrieved::Spent,
        Merged::Memory => Retrieved::Memory,
        Merged::Line { .. } => unreachable!(),
        Merged::End => unreachable!(),
    }
}
