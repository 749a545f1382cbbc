// The value of an event: one variant for each payload type.
ghost use Rattle.std.specs.Prelude.{◌≡◌, [], ◌∷◌, ◌++◌, OnOk, IfOk};
ghost use Rattle.pb_wire.specs.Message.{view_value};
ghost use Rattle.pb_messages.specs.Element.{int_of, bits32_of, bits64_of, bytes_of};

use crate::{Bits32, Bits64, Ints};
use pb_wire::{PayloadType, Wire, unzigzag};
use series_model::{Blob, Blobs};
use std::alloc::{AllocError, Global};
use std::mem;

/// The value of a sample, by its payload type: seven kinds of one value and then the waveforms of
/// each. Floating-point numbers are kept as their bits, strings as their bytes.
#[derive(Debug, Drop)]
pub enum Value {
    Str(Blob),
    Short(i32),
    Float(u32),
    Enum(i32),
    Byte(Blob),
    Int(i32),
    Double(u64),
    Strs(Blobs),
    Shorts(Ints),
    Floats(Bits32),
    Enums(Ints),
    Bytes(Blob),
    IntList(Ints),
    Doubles(Bits64),
}

impl Value {
    ghost use Rattle.pb_messages.specs.Adding.{blank, with_elements};

    // The value before any element.
    pub(crate) fn blank(alloc: Global, ty: PayloadType) -> Value
        ensures { result ≡ blank ty }
    {
        let none = || Blob::from(Vec::new(alloc));
        match ty {
            PayloadType::ScalarString => Value::Str(none()),
            PayloadType::ScalarShort => Value::Short(0),
            PayloadType::ScalarFloat => Value::Float(0),
            PayloadType::ScalarEnum => Value::Enum(0),
            PayloadType::ScalarByte => Value::Byte(none()),
            PayloadType::ScalarInt => Value::Int(0),
            PayloadType::ScalarDouble => Value::Double(0),
            PayloadType::WaveformString => Value::Strs(Blobs::from(Vec::new(alloc))),
            PayloadType::WaveformShort => Value::Shorts(Ints::from(Vec::new(alloc))),
            PayloadType::WaveformFloat => Value::Floats(Bits32::from(Vec::new(alloc))),
            PayloadType::WaveformEnum => Value::Enums(Ints::from(Vec::new(alloc))),
            PayloadType::WaveformByte => Value::Bytes(none()),
            PayloadType::WaveformInt => Value::IntList(Ints::from(Vec::new(alloc))),
            PayloadType::WaveformDouble => Value::Doubles(Bits64::from(Vec::new(alloc))),
        }
    }

    // Takes one more element: the value is that element, or a list has it at its end.
    pub(crate) fn add(&mut self, alloc: Global, element: Wire<'_>) -> Result<(), AllocError>
        ensures { OnOk result (self.new ≡ with_elements self.old (view_value element.entry ∷ [])) }
    {
        match self {
            Value::Str(bytes) => *bytes = blob_of(alloc, element)?,
            Value::Short(number) => *number = int_of(element),
            Value::Float(bits) => *bits = bits32_of(element),
            Value::Enum(number) => *number = int_of(element),
            Value::Byte(bytes) => *bytes = blob_of(alloc, element)?,
            Value::Int(number) => *number = int_of(element),
            Value::Double(bits) => *bits = bits64_of(element),
            Value::Strs(list) => push_blob(list, alloc, blob_of(alloc, element)?)?,
            Value::Shorts(list) => list.push(int_of(element))?,
            Value::Floats(list) => list.push(bits32_of(element))?,
            Value::Enums(list) => list.push(int_of(element))?,
            Value::Bytes(bytes) => *bytes = blob_of(alloc, element)?,
            Value::IntList(list) => list.push(int_of(element))?,
            Value::Doubles(list) => list.push(bits64_of(element))?,
        }
        Ok(())
    }
}

fn push_blob(list: &mut Blobs, alloc: Global, blob: Blob) -> Result<(), AllocError>
    ensures { OnOk result (list.new ≡ list.old ++ blob ∷ []) }
{
    let mut items = mem::replace(list, Blobs::from(Vec::new(alloc))).into_vec();
    items.push(blob)?;
    *list = Blobs::from(items);
    Ok(())
}

// What an element means as bytes, as a signed number and as bits; a value of another wire type has
// no meaning.

fn blob_of(alloc: Global, element: Wire<'_>) -> Result<Blob, AllocError>
    ensures { IfOk result (λ b. b ≡ bytes_of (view_value element.entry)) }
{
    match element {
        Wire::Bytes(text) => Ok(Blob::from(Vec::from_slice(alloc, text)?)),
        _ => Ok(Blob::from(Vec::new(alloc))),
    }
}

fn int_of(element: Wire<'_>) -> i32
    ensures { result ≡ int_of (view_value element.entry) }
{
    match element {
        Wire::Varint(number) => unzigzag((number % (1 << 32)) as u32),
        Wire::Fixed32(bits) => bits.cast_signed(),
        _ => 0,
    }
}

fn bits32_of(element: Wire<'_>) -> u32
    ensures { result ≡ bits32_of (view_value element.entry) }
{
    match element {
        Wire::Fixed32(bits) => bits,
        _ => 0,
    }
}

fn bits64_of(element: Wire<'_>) -> u64
    ensures { result ≡ bits64_of (view_value element.entry) }
{
    match element {
        Wire::Fixed64(bits) => bits,
        _ => 0,
    }
}
