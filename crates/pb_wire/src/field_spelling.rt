// How the members of messages are written.
ghost use Rattle.std.specs.Prelude.{◌≡◌, ◌≤◌, ◌<◌, ◌+◌, ◌*◌, ◌^◌, ◌++◌, [], ◌∷◌, OnOk, IfSome, length};
ghost use Rattle.std.specs.Io.{StartsWith};
ghost use Rattle.pb_wire.specs.Message.{IsFieldNumber};
ghost use Rattle.pb_wire.specs.Spelling.{number_text};
ghost use Rattle.pb_wire.specs.FieldSpelling.{message_text, pair_field, pair_text, optional_field};

use crate::{Wire, put_field, put_varint, varint_len};
use std::alloc::AllocError;

// Where memory runs out, a part may stand behind the old bytes.

/// Appends a number, which is left out where there is none.
pub fn put_optional(out: &mut Vec<u8>, number: u32, value: Option<u64>) -> Result<(), AllocError>
    requires { IsFieldNumber number }
    ensures ok { OnOk result (out.new.items ≡ out.old.items ++ message_text (optional_field number value)) }
    ensures grows { StartsWith out.new.items out.old.items }
    ensures fits { OnOk result (IfSome value (λ v. v < 2 ^ 64)) }
{
    match value {
        Some(value) => put_field(out, number, Wire::Varint(value)),
        None => Ok(()),
    }
}

/// Appends a field with a pair of a name and a value.
// The length of the two members stands before them. Where it isn't a number of the machine, they
// don't fit into memory either.
#[tactic(auto, using(crate::proofs::PairTexts::pair_written, crate::proofs::PairTexts::pair_short))]
pub fn put_pair(out: &mut Vec<u8>, number: u32, name: &[u8], val: &[u8]) -> Result<(), AllocError>
    requires { IsFieldNumber number }
    ensures ok { OnOk result
        (out.new.items ≡ out.old.items ++ message_text (pair_field number (name.now, val.now) ∷ [])) }
    ensures grows { StartsWith out.new.items out.old.items }
    ensures fits { OnOk result (length (pair_text (name.now, val.now)) < 2 ^ 64) }
{
    let first = member_len(name);
    let second = member_len(val);
    if second > usize::MAX - first {
        return Err(AllocError);
    }
    put_head(out, number, first + second)?;
    put_members(out, name, val)
}

/// Appends the tag and the length of a field of bytes, without the bytes.
pub fn put_head(out: &mut Vec<u8>, number: u32, len: usize) -> Result<(), AllocError>
    ensures ok { OnOk result (out.new.items ≡ out.old.items ++ (number_text (number * 8 + 2) ++ number_text len)) }
    ensures grows { StartsWith out.new.items out.old.items }
{
    put_varint(out, u64::from(number) * 8 + 2)?;
    put_varint(out, len as u64)
}

fn put_members(out: &mut Vec<u8>, name: &[u8], val: &[u8]) -> Result<(), AllocError>
    ensures ok { OnOk result (out.new.items ≡ out.old.items ++ pair_text (name.now, val.now)) }
    ensures grows { StartsWith out.new.items out.old.items }
{
    put_field(out, 1, Wire::Bytes(name))?;
    put_field(out, 2, Wire::Bytes(val))
}

// How many bytes a member has, whose tag has one byte.
fn member_len(text: &[u8]) -> usize
    ensures { result ≡ 1 + (length (number_text (length text.now)) + length text.now) }
{
    1 + varint_len(text.len() as u64) + text.len()
}
