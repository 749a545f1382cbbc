// The members of messages of known fields: numbers, bytes and pairs.
ghost use Rattle.std.specs.Prelude.{◌≤◌, length};
ghost use Rattle.pb_wire.specs.Message.{view_value};
ghost use Rattle.pb_wire.specs.Fields.{varint_number, blob_bytes, Reads};
ghost use Rattle.pb_wire.specs.FieldValue.{ReadsPair};

use crate::{Field, FieldFault, Fields, Wire};

/// The varint of a field.
pub fn number_of(field: Field<'_>) -> Result<u64, FieldFault>
    ensures { Reads (λ n. n) (varint_number (view_value field.entry.value)) field.entry.number result }
{
    match field.value {
        Wire::Varint(number) => Ok(number),
        _ => Err(FieldFault::WrongWire {
            field: field.number,
        }),
    }
}

/// The bytes of a field, which another number stands for where it has none.
pub fn text_of<'a>(field: Field<'a>, number: u32) -> Result<&'a [u8], FieldFault>
    ensures { Reads (λ text. text.now) (blob_bytes (view_value field.entry.value)) number result }
{
    match field.value {
        Wire::Bytes(text) => Ok(text),
        _ => Err(FieldFault::WrongWire { field: number }),
    }
}

/// Name and value, in bytes that end at place `behind` of the message, where both are there. Faults
/// are told under the number of the field that holds the bytes.
#[tactic(auto, unfolding(crate::specs::FieldValue::pair_fault, crate::specs::FieldValue::pair_of))]
pub fn read_pair<'a>(
    bytes: &'a [u8],
    behind: usize,
    number: u32,
) -> Result<Option<(&'a [u8], &'a [u8])>, FieldFault>
    requires { length bytes.now ≤ behind }
    ensures { ReadsPair (λ p. (p.0.now, p.1.now)) number bytes.now behind result }
{
    let mut fields = Fields::ending_at(bytes, behind);
    let mut name = None;
    let mut val = None;
    while let Some(field) = fields.next()? {
        match field.number {
            1 => name = Some(text_of(field, number)?),
            2 => val = Some(text_of(field, number)?),
            _ => {}
        }
    }
    match (name, val) {
        (Some(name), Some(val)) => Ok(Some((name, val))),
        _ => Ok(None),
    }
}
