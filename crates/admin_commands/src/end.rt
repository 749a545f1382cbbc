// Why a call wasn't served.
ghost use Rattle.std.specs.Prelude.{◌≡◌};

use act_model::OutErr;
use std::alloc::AllocError;

/// Why a management call didn't end with its reply.
#[derive(Clone, Copy, Debug, PartialEq, Eq)]
pub enum AdminErr {
    /// A write failed, which the sink has counted. A front of the reply went out.
    SinkFault,
    /// No act is left. The reply that says so went out.
    Spent,
    /// Memory ran out. Nothing was written.
    Memory,
}

impl From<AllocError> for AdminErr {
    ghost use Rattle.admin_commands.specs.declared.end.AdminErr.TheVariants.{Memory};

    ghost from_gives = { λ _ e. e ≡ Memory };

    fn from(_: AllocError) -> AdminErr {
        AdminErr::Memory
    }
}

/// Why a call has no reply.
#[derive(Clone, Copy)]
pub(crate) enum NoReply {
    /// No act is left.
    Spent,
    /// Memory ran out.
    Memory,
}

impl From<AllocError> for NoReply {
    ghost use Rattle.admin_commands.specs.declared.end.NoReply.TheVariants.{Memory};

    ghost from_gives = { λ _ e. e ≡ Memory };

    fn from(_: AllocError) -> NoReply {
        NoReply::Memory
    }
}
