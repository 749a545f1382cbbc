// Why bytes are no message of the fields that are known.
ghost use Rattle.std.specs.Prelude.{◌≡◌};
ghost use Rattle.pb_wire.specs.declared.fault.FieldFault.TheVariants as faults;

use crate::WireErr;

/// Why bytes are no message of the known fields.
///
/// The first `Wire` or `WrongWire` in the order of the bytes comes before all others, also one
/// inside a pair or among packed numbers; then the least missing field.
#[derive(Clone, Copy, Debug, PartialEq, Eq)]
pub enum FieldFault {
    /// The bytes are no fields, or packed bytes no elements. Every place counts from the start of the
    /// whole message.
    Wire(WireErr),
    /// A known field has another wire type. A member of a pair tells the pair's number.
    WrongWire { field: u32 },
    /// A required field isn't there. A pair that lacks a member is told by its number.
    Missing { field: u32 },
}

impl From<WireErr> for FieldFault {
    ghost from_gives = { λ e fault. fault ≡ faults.Wire e };

    fn from(e: WireErr) -> FieldFault {
        FieldFault::Wire(e)
    }
}
