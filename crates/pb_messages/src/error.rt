// Why bytes are no event.
ghost use Rattle.std.specs.Prelude.{◌≡◌};
ghost use Rattle.pb_wire.specs.declared.fault.FieldFault.TheVariants as faults;
ghost use Rattle.pb_messages.specs.declared.error.EventErr.TheVariants as errors;

use crate::EventFault;
use pb_wire::WireErr;
use std::alloc::{AllocError, AllocFailed};

/// Why an event can't be given.
#[derive(Clone, Copy, Debug, PartialEq, Eq)]
pub enum EventErr {
    /// The bytes are no event.
    Fault(EventFault),
    /// Memory ran out.
    Memory,
}

impl From<WireErr> for EventErr {
    ghost from_gives = { λ e err. err ≡ errors.Fault (faults.Wire e) };

    fn from(e: WireErr) -> EventErr {
        EventErr::Fault(EventFault::Wire(e))
    }
}

impl From<EventFault> for EventErr {
    ghost from_gives = { λ fault err. err ≡ errors.Fault fault };

    fn from(fault: EventFault) -> EventErr {
        EventErr::Fault(fault)
    }
}

impl From<AllocError> for EventErr {
    ghost from_gives = { λ _ err. err ≡ errors.Memory };

    fn from(_e: AllocError) -> EventErr {
        EventErr::Memory
    }
}

impl<T: Drop> From<AllocFailed<T>> for EventErr {
    ghost from_gives = { λ _ err. err ≡ errors.Memory };

    fn from(_e: AllocFailed<T>) -> EventErr {
        EventErr::Memory
    }
}
