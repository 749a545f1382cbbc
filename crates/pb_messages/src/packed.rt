// Numbers that stand packed in one field (Protocol Buffers encoding), both ways, for each type of number.
ghost use Rattle.std.specs.Prelude.{◌≡◌, ◌≤◌, ◌++◌, List, ℕ, OnOk, IfOk, length};
ghost use Rattle.std.specs.List.{flat_map, AllByRecursion};
ghost use Rattle.std.specs.Io.{StartsWith};
ghost use Rattle.pb_wire.specs.FieldSpelling.{message_text};
ghost use Rattle.pb_messages.specs.Spelling.{packed_field, FitsPacked};

use pb_wire::{put_head, put_varint, varint_len, zigzag};
use std::alloc::AllocError;

/// How numbers stand packed: one after another, each as it stands by itself behind its tag.
pub(crate) trait Packing<T> {
    /// The bytes of a number.
    ghost text: { T → List ℕ };

    /// What holds of each number of the type.
    ghost in_type: { T → Type 0 };

    /// How many bytes a number has.
    fn len(number: T) -> usize
        ensures len { result ≡ length (text number) }
        ensures few { result ≤ 10 };

    /// Appends a number.
    fn put(out: &mut Vec<u8>, number: T) -> Result<(), AllocError>
        ensures ok { OnOk result (out.new.items ≡ out.old.items ++ text number) }
        ensures grows { StartsWith out.new.items out.old.items }
        ensures fits { in_type number };
}

/// Zigzag varints: `sint32`.
pub(crate) struct Sint32;

impl Packing<i32> for Sint32 {
    ghost use Rattle.std.specs.Prelude.{FitsSigned};
    ghost use Rattle.std.specs.Int.{w32};
    ghost use Rattle.pb_messages.specs.Spelling.{sint32_text};

    ghost text = { sint32_text };

    ghost in_type = { FitsSigned w32 };

    fn len(number: i32) -> usize {
        varint_len(u64::from(zigzag(number)))
    }

    fn put(out: &mut Vec<u8>, number: i32) -> Result<(), AllocError> {
        put_varint(out, u64::from(zigzag(number)))
    }
}

/// Four bytes, the least first: `sfixed32`.
pub(crate) struct Sfixed32;

impl Packing<i32> for Sfixed32 {
    ghost use Rattle.std.specs.Prelude.{FitsSigned};
    ghost use Rattle.std.specs.Int.{w32};
    ghost use Rattle.pb_messages.specs.Spelling.{sfixed32_text};

    ghost text = { sfixed32_text };

    ghost in_type = { FitsSigned w32 };

    fn len(_number: i32) -> usize {
        4
    }

    fn put(out: &mut Vec<u8>, number: i32) -> Result<(), AllocError> {
        out.extend_from_slice(&number.cast_unsigned().to_le_bytes())
    }
}

/// Four bytes, the least first: the bits of a `float`.
pub(crate) struct Float;

impl Packing<u32> for Float {
    ghost use Rattle.std.specs.Prelude.{◌<◌, ◌^◌};
    ghost use Rattle.std.specs.Int.{w32, to_le_bytes};

    ghost text = { to_le_bytes w32 };

    ghost in_type = { λ n. n < 2 ^ 32 };

    fn len(_number: u32) -> usize {
        4
    }

    fn put(out: &mut Vec<u8>, number: u32) -> Result<(), AllocError> {
        out.extend_from_slice(&number.to_le_bytes())
    }
}

/// Eight bytes, the least first: the bits of a `double`.
pub(crate) struct Double;

impl Packing<u64> for Double {
    ghost use Rattle.std.specs.Prelude.{◌<◌, ◌^◌};
    ghost use Rattle.std.specs.Int.{w64, to_le_bytes};

    ghost text = { to_le_bytes w64 };

    ghost in_type = { λ n. n < 2 ^ 64 };

    fn len(_number: u64) -> usize {
        8
    }

    fn put(out: &mut Vec<u8>, number: u64) -> Result<(), AllocError> {
        out.extend_from_slice(&number.to_le_bytes())
    }
}

/// Appends numbers packed in one field val, which is left out where there are none.
#[tactic(auto, using(crate::proofs::PackedLemmas::packed_written))]
pub(crate) fn put_packed<T: Copy, P: Packing<T>>(
    out: &mut Vec<u8>,
    numbers: &[T],
) -> Result<(), AllocError>
    ensures ok { OnOk result (out.new.items ≡ out.old.items ++ message_text (packed_field P.text numbers.now)) }
    ensures grows { StartsWith out.new.items out.old.items }
    ensures fits { OnOk result (FitsPacked P.in_type P.text numbers.now) }
{
    if numbers.is_empty() {
        return Ok(());
    }
    put_head(out, 3, packed_len::<T, P>(numbers)?)?;
    put_numbers::<T, P>(out, numbers)
}

// A length that isn't a number of the machine doesn't fit into memory either.
fn packed_len<T: Copy, P: Packing<T>>(numbers: &[T]) -> Result<usize, AllocError>
    ensures { IfOk result (λ len. len ≡ length (flat_map P.text numbers.now)) }
{
    let mut len = 0usize;
    for number in numbers {
        let more = P::len(*number);
        if more > usize::MAX - len {
            return Err(AllocError);
        }
        len += more;
    }
    Ok(len)
}

fn put_numbers<T: Copy, P: Packing<T>>(out: &mut Vec<u8>, numbers: &[T]) -> Result<(), AllocError>
    ensures ok { OnOk result (out.new.items ≡ out.old.items ++ flat_map P.text numbers.now) }
    ensures grows { StartsWith out.new.items out.old.items }
    ensures fits { OnOk result (AllByRecursion P.in_type numbers.now) }
{
    for number in numbers {
        P::put(out, *number)?;
    }
    Ok(())
}
