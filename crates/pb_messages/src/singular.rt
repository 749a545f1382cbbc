// The members of an event that are one number each.
ghost use Rattle.std.specs.Prelude.{◌≡◌};
ghost use Rattle.pb_wire.specs.Message.{view};
ghost use Rattle.pb_messages.specs.Singular.{no_numbers, TakesNumber};

use crate::EventFault;
use pb_wire::{Field, number_of};

/// The last value of each number that isn't repeated, as its varint.
#[derive(Clone, Copy)]
pub(crate) struct Singular {
    pub(crate) secs: Option<u64>,
    pub(crate) nano: Option<u64>,
    pub(crate) severity: Option<u64>,
    pub(crate) status: Option<u64>,
    pub(crate) repeat: Option<u64>,
    pub(crate) actual_change: Option<u64>,
}

impl Singular {
    pub(crate) fn new() -> Singular
        ensures { result ≡ no_numbers }
    {
        Singular {
            secs: None,
            nano: None,
            severity: None,
            status: None,
            repeat: None,
            actual_change: None,
        }
    }

    /// Takes the next field, where it has such a number.
    pub(crate) fn take(&mut self, field: Field<'_>) -> Result<(), EventFault>
        ensures { TakesNumber self.old self.new (view field.entry) result }
    {
        match field.number {
            1 => self.secs = Some(number_of(field)?),
            2 => self.nano = Some(number_of(field)?),
            4 => self.severity = Some(number_of(field)?),
            5 => self.status = Some(number_of(field)?),
            6 => self.repeat = Some(number_of(field)?),
            8 => self.actual_change = Some(number_of(field)?),
            _ => {}
        }
        Ok(())
    }
}
