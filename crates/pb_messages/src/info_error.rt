// Why bytes are no header.
ghost use Rattle.std.specs.Prelude.{◌≡◌};
ghost use Rattle.pb_messages.specs.declared.info_error.InfoFault.TheVariants as faults;
ghost use Rattle.pb_messages.specs.Info.{info_fault};
ghost use Rattle.pb_messages.specs.declared.info_error.InfoErr.TheVariants as errors;

use pb_wire::{FieldFault, WireErr};
use std::alloc::{AllocError, AllocFailed};

/// Why bytes are no header.
///
/// The first `Wire` or `WrongWire` in the order of the bytes comes before all others, also one
/// inside a header's pair; then the least missing field, an unknown type and the year.
#[derive(Clone, Copy, Debug, PartialEq, Eq)]
pub enum InfoFault {
    /// The bytes are no fields. A place inside a pair counts from the start of the whole message.
    Wire(WireErr),
    /// A known field has another wire type. A member of a pair tells the pair's number, 15.
    WrongWire { field: u32 },
    /// A required field isn't there. A pair that lacks a member is told by its number, 15.
    Missing { field: u32 },
    /// No payload type has this number.
    UnknownType { number: u32 },
    /// The year is before 1991 or after 2499.
    YearRange { year: i32 },
}

/// Why a header can't be given.
#[derive(Clone, Copy, Debug, PartialEq, Eq)]
pub enum InfoErr {
    /// The bytes are no header.
    Fault(InfoFault),
    /// Memory ran out.
    Memory,
}

impl From<FieldFault> for InfoFault {
    ghost from_gives = { λ fault info. info ≡ info_fault fault };

    fn from(fault: FieldFault) -> InfoFault {
        match fault {
            FieldFault::Wire(e) => InfoFault::Wire(e),
            FieldFault::WrongWire { field } => InfoFault::WrongWire { field },
            FieldFault::Missing { field } => InfoFault::Missing { field },
        }
    }
}

impl From<FieldFault> for InfoErr {
    ghost from_gives = { λ fault err. err ≡ errors.Fault (info_fault fault) };

    fn from(fault: FieldFault) -> InfoErr {
        InfoErr::Fault(InfoFault::from(fault))
    }
}

impl From<WireErr> for InfoErr {
    ghost from_gives = { λ e err. err ≡ errors.Fault (faults.Wire e) };

    fn from(e: WireErr) -> InfoErr {
        InfoErr::Fault(InfoFault::Wire(e))
    }
}

impl From<InfoFault> for InfoErr {
    ghost from_gives = { λ fault err. err ≡ errors.Fault fault };

    fn from(fault: InfoFault) -> InfoErr {
        InfoErr::Fault(fault)
    }
}

impl From<AllocError> for InfoErr {
    ghost from_gives = { λ _ err. err ≡ errors.Memory };

    fn from(_e: AllocError) -> InfoErr {
        InfoErr::Memory
    }
}

impl<T: Drop> From<AllocFailed<T>> for InfoErr {
    ghost from_gives = { λ _ err. err ≡ errors.Memory };

    fn from(_e: AllocFailed<T>) -> InfoErr {
        InfoErr::Memory
    }
}
