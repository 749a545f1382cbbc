// Varints and fields, spelled as short as can be (Protocol Buffers encoding).
ghost use Rattle.std.specs.Prelude.{◌≡◌, ◌≤◌, ◌++◌, OnOk, OnErr, length};
ghost use Rattle.std.specs.Io.{StartsWith};
ghost use Rattle.pb_wire.specs.Message.{view_value, kind_of, IsFieldNumber};
ghost use Rattle.pb_wire.specs.Spelling.{number_text, field_text, FitsValue};

use crate::Wire;
use std::alloc::AllocError;

/// Appends the shortest spelling of a varint. Where memory runs out, `out` stays.
pub fn put_varint(out: &mut Vec<u8>, v: u64) -> Result<(), AllocError>
    ensures ok { OnOk result (out.new.items ≡ out.old.items ++ number_text v) }
    ensures err { OnErr result (out.new.items ≡ out.old.items) }
{
    let mut text = [0u8; 10];
    let mut len = 0;
    let mut rest = v;
    while rest >= 128 && len < 9 {
        text[len] = (rest % 128) as u8 + 128;
        len += 1;
        rest /= 128;
    }
    text[len] = rest as u8;
    out.extend_from_slice(&text[..len + 1])
}

/// Appends the shortest spelling of a field, whose number is from 1 to 536,870,911. Where memory
/// runs out, `out` stays.
pub fn put_field(out: &mut Vec<u8>, number: u32, value: Wire<'_>) -> Result<(), AllocError>
    requires { IsFieldNumber number }
    ensures ok { OnOk result (out.new.items ≡ out.old.items ++ field_text number (view_value value.entry)) }
    ensures err { OnErr result (out.new.items ≡ out.old.items) }
    // So `laws::written_fields` says that it is read back.
    ensures fits { OnOk result (FitsValue (view_value value.entry)) }
{
    let before = out.len();
    let done = put_parts(out, number, value);
    if done.is_err() {
        out.truncate(before);
    }
    done
}

// The same, but where memory runs out a part may stand behind the old bytes.
fn put_parts(out: &mut Vec<u8>, number: u32, value: Wire<'_>) -> Result<(), AllocError>
    requires { IsFieldNumber number }
    ensures ok { OnOk result (out.new.items ≡ out.old.items ++ field_text number (view_value value.entry)) }
    ensures grows { StartsWith out.new.items out.old.items }
    ensures fits { OnOk result (FitsValue (view_value value.entry)) }
{
    put_varint(out, u64::from(number) * 8 + wire_type(value))?;
    match value {
        Wire::Varint(n) => put_varint(out, n),
        Wire::Fixed64(n) => out.extend_from_slice(&n.to_le_bytes()),
        Wire::Bytes(text) => {
            put_varint(out, text.len() as u64)?;
            out.extend_from_slice(text)
        }
        Wire::Fixed32(n) => out.extend_from_slice(&n.to_le_bytes()),
    }
}

fn wire_type(value: Wire<'_>) -> u64
    ensures { result ≡ kind_of (view_value value.entry) }
{
    match value {
        Wire::Varint(_) => 0,
        Wire::Fixed64(_) => 1,
        Wire::Bytes(_) => 2,
        Wire::Fixed32(_) => 5,
    }
}

/// How many bytes the shortest spelling of a varint has.
pub fn varint_len(v: u64) -> usize
    ensures len { result ≡ length (number_text v) }
    ensures few { result ≤ 10 }
{
    let mut len = 1;
    let mut rest = v;
    while rest >= 128 {
        rest /= 128;
        len += 1;
    }
    len
}
