// Tags, varints and values at the front of bytes (Protocol Buffers encoding).
ghost use Rattle.std.specs.Prelude.{◌≡◌, ◌<◌, ◌≤◌, ◌^◌, Ok, IfOk, IfSome, length};
ghost use Rattle.std.specs.Int.{w32, w64, from_le_bytes};
ghost use Rattle.pb_wire.specs.Message.{view, view_value, varint, fixed32, fixed64};
ghost use Rattle.pb_wire.specs.Reading.{Gives, varint_at, tag_at, front_at, fixed64_at, fixed32_at, blob_at, value_at};
ghost use Rattle.pb_wire.specs.Reading.{field_at};

use crate::{Field, Wire, WireErr};

// Each reader gives what stands at the front of the bytes, and the bytes behind it. `end` is the
// place behind the last byte, so a place is `end` less the number of bytes that are left there.
//
// Inlined into the loop that calls them, they hand their answers on in registers; each message of
// a stream goes through them.

#[inline(always)]
#[tactic(auto, unfolding(crate::specs::Reading::field_at))]
pub(crate) fn read_field(bytes: &[u8], end: usize) -> Result<(Field<'_>, &[u8]), WireErr>
    requires { length bytes.now ≤ end }
    ensures read { Gives (λ x. (view x.0, x.1.now)) result (field_at end bytes.now) }
    ensures shorter { IfOk result (λ x. length x.1.now ≤ length bytes.now) }
{
    let (tag, rest) = read_tag(bytes, end)?;
    let (value, rest) = read_value(rest, tag % 8, end)?;
    let number = (tag / 8) as u32;
    Ok((Field { number, value }, rest))
}

#[inline(always)]
#[tactic(auto, unfolding(crate::specs::Reading::tag_at))]
fn read_tag(bytes: &[u8], end: usize) -> Result<(u64, &[u8]), WireErr>
    requires { length bytes.now ≤ end }
    ensures read { Gives (λ x. (x.0, x.1.now)) result (tag_at end bytes.now) }
    ensures shorter { IfOk result (λ x. length x.1.now ≤ length bytes.now) }
    ensures small { IfOk result (λ x. x.0 < 2 ^ 32) }
{
    let (tag, rest) = read_varint(bytes, end)?;
    let at = end - bytes.len();
    if tag >= 1 << 32 || tag / 8 == 0 || tag % 8 >= 6 {
        return Err(WireErr::BadTag { at });
    }
    if tag % 8 == 3 || tag % 8 == 4 {
        return Err(WireErr::Group { at });
    }
    Ok((tag, rest))
}

#[inline(always)]
#[tactic(auto, unfolding(crate::specs::Reading::value_at))]
fn read_value(bytes: &[u8], wire_type: u64, end: usize) -> Result<(Wire<'_>, &[u8]), WireErr>
    requires { length bytes.now ≤ end }
    ensures read { Gives (λ x. (view_value x.0, x.1.now)) result (value_at end wire_type bytes.now) }
    ensures shorter { IfOk result (λ x. length x.1.now ≤ length bytes.now) }
{
    match wire_type {
        0 => {
            let (number, rest) = read_varint(bytes, end)?;
            Ok((Wire::Varint(number), rest))
        }
        1 => {
            let (number, rest) = read_fixed64(bytes, end)?;
            Ok((Wire::Fixed64(number), rest))
        }
        2 => {
            let (text, rest) = read_blob(bytes, end)?;
            Ok((Wire::Bytes(text), rest))
        }
        _ => {
            let (number, rest) = read_fixed32(bytes, end)?;
            Ok((Wire::Fixed32(number), rest))
        }
    }
}

// Most tags, lengths and numbers have one byte.
#[inline(always)]
pub(crate) fn read_varint(bytes: &[u8], end: usize) -> Result<(u64, &[u8]), WireErr>
    requires { length bytes.now ≤ end }
    ensures read { Gives (λ x. (x.0, x.1.now)) result (varint_at end bytes.now) }
    ensures shorter { IfOk result (λ x. length x.1.now ≤ length bytes.now) }
{
    match bytes.split_first() {
        Some((first, rest)) if *first < 128 => Ok((u64::from(*first), rest)),
        _ => read_long_varint(bytes, end),
    }
}

// The varint at the front, where it has at most five bytes and at least so many are left: without
// a loop, and with one test of the length.
#[inline(always)]
fn read_short_varint(bytes: &[u8], end: usize) -> Option<(u64, &[u8])>
    requires { length bytes.now ≤ end }
    ensures read { IfSome result (λ x. varint_at end bytes.now ≡ Ok (x.0, x.1.now)) }
    ensures shorter { IfSome result (λ x. length x.1.now ≤ length bytes.now) }
{
    if bytes.len() < 5 {
        return None;
    }
    let (b0, rest) = bytes.split_first()?;
    if *b0 < 128 {
        return Some((u64::from(*b0), rest));
    }
    let low = u64::from(*b0 - 128);
    let (b1, rest) = rest.split_first()?;
    if *b1 < 128 {
        return Some((low + u64::from(*b1) * 128, rest));
    }
    let low = low + u64::from(*b1 - 128) * 128;
    let (b2, rest) = rest.split_first()?;
    if *b2 < 128 {
        return Some((low + u64::from(*b2) * 16_384, rest));
    }
    let low = low + u64::from(*b2 - 128) * 16_384;
    let (b3, rest) = rest.split_first()?;
    if *b3 < 128 {
        return Some((low + u64::from(*b3) * 2_097_152, rest));
    }
    let low = low + u64::from(*b3 - 128) * 2_097_152;
    let (b4, rest) = rest.split_first()?;
    if *b4 < 128 {
        return Some((low + u64::from(*b4) * 268_435_456, rest));
    }
    None
}

// A field of this number, where its tag has one byte and `read_short_varint` reads its value.
#[inline(always)]
pub(crate) fn read_short_number(bytes: &[u8], number: u32, end: usize) -> Option<(u64, &[u8])>
    requires within { length bytes.now ≤ end }
    requires number { (1 ≤ number) × (number ≤ 15) }
    ensures read { IfSome result (λ x.
        field_at end bytes.now ≡ Ok (record { number = number; value = varint x.0 }, x.1.now)) }
    ensures shorter { IfSome result (λ x. length x.1.now ≤ length bytes.now) }
{
    let (tag, rest) = bytes.split_first()?;
    if u32::from(*tag) != number * 8 {
        return None;
    }
    let (value, rest) = read_short_varint(rest, end)?;
    Some((value, rest))
}

// A field of this number and eight bytes, where its tag has one byte.
#[inline(always)]
pub(crate) fn read_short_fixed64(bytes: &[u8], number: u32, end: usize) -> Option<(u64, &[u8])>
    requires within { length bytes.now ≤ end }
    requires number { (1 ≤ number) × (number ≤ 15) }
    ensures read { IfSome result (λ x.
        field_at end bytes.now ≡ Ok (record { number = number; value = fixed64 x.0 }, x.1.now)) }
    ensures shorter { IfSome result (λ x. length x.1.now ≤ length bytes.now) }
{
    let (tag, rest) = bytes.split_first()?;
    if u32::from(*tag) != number * 8 + 1 {
        return None;
    }
    match read_fixed64(rest, end) {
        Ok((value, rest)) => Some((value, rest)),
        Err(_) => None,
    }
}

// A field of this number and four bytes, where its tag has one byte.
#[inline(always)]
pub(crate) fn read_short_fixed32(bytes: &[u8], number: u32, end: usize) -> Option<(u32, &[u8])>
    requires within { length bytes.now ≤ end }
    requires number { (1 ≤ number) × (number ≤ 15) }
    ensures read { IfSome result (λ x.
        field_at end bytes.now ≡ Ok (record { number = number; value = fixed32 x.0 }, x.1.now)) }
    ensures shorter { IfSome result (λ x. length x.1.now ≤ length bytes.now) }
{
    let (tag, rest) = bytes.split_first()?;
    if u32::from(*tag) != number * 8 + 5 {
        return None;
    }
    match read_fixed32(rest, end) {
        Ok((value, rest)) => Some((value, rest)),
        Err(_) => None,
    }
}

#[inline(always)]
fn read_long_varint(bytes: &[u8], end: usize) -> Result<(u64, &[u8]), WireErr>
    requires { length bytes.now ≤ end }
    ensures read { Gives (λ x. (x.0, x.1.now)) result (varint_at end bytes.now) }
    ensures shorter { IfOk result (λ x. length x.1.now ≤ length bytes.now) }
{
    let at = end - bytes.len();
    let mut value = 0u64;
    let mut shift = 0u32;
    let mut rest = bytes;
    for _ in 0..10u32 {
        let Some((first, others)) = rest.split_first() else {
            return Err(WireErr::Short { at });
        };
        if *first < 128 {
            return Ok((
                value.wrapping_add(u64::from(*first).wrapping_shl(shift)),
                others,
            ));
        }
        value = value.wrapping_add(u64::from(*first - 128).wrapping_shl(shift));
        shift += 7;
        rest = others;
    }
    Err(WireErr::BadVarint { at })
}

#[inline(always)]
#[tactic(auto, unfolding(crate::specs::Reading::blob_at))]
fn read_blob(bytes: &[u8], end: usize) -> Result<(&[u8], &[u8]), WireErr>
    requires { length bytes.now ≤ end }
    ensures read { Gives (λ x. (x.0.now, x.1.now)) result (blob_at end bytes.now) }
    ensures shorter { IfOk result (λ x. length x.1.now ≤ length bytes.now) }
{
    let (count, rest) = read_varint(bytes, end)?;
    read_front(rest, count, end)
}

#[inline(always)]
#[tactic(auto, unfolding(crate::specs::Reading::fixed64_at))]
fn read_fixed64(bytes: &[u8], end: usize) -> Result<(u64, &[u8]), WireErr>
    requires { length bytes.now ≤ end }
    ensures read { Gives (λ x. (x.0, x.1.now)) result (fixed64_at end bytes.now) }
    ensures shorter { IfOk result (λ x. length x.1.now ≤ length bytes.now) }
{
    let (text, rest) = read_front(bytes, 8, end)?;
    Ok((le64(text), rest))
}

#[inline(always)]
#[tactic(auto, unfolding(crate::specs::Reading::fixed32_at))]
fn read_fixed32(bytes: &[u8], end: usize) -> Result<(u32, &[u8]), WireErr>
    requires { length bytes.now ≤ end }
    ensures read { Gives (λ x. (x.0, x.1.now)) result (fixed32_at end bytes.now) }
    ensures shorter { IfOk result (λ x. length x.1.now ≤ length bytes.now) }
{
    let (text, rest) = read_front(bytes, 4, end)?;
    Ok((le32(text), rest))
}

#[inline(always)]
#[tactic(auto, unfolding(crate::specs::Reading::front_at))]
fn read_front(bytes: &[u8], count: u64, end: usize) -> Result<(&[u8], &[u8]), WireErr>
    requires { length bytes.now ≤ end }
    ensures read { Gives (λ x. (x.0.now, x.1.now)) result (front_at end count bytes.now) }
    ensures count { IfOk result (λ x. length x.0.now ≡ count) }
    ensures shorter { IfOk result (λ x. length x.1.now ≤ length bytes.now) }
{
    if (bytes.len() as u64) < count {
        let at = end - bytes.len();
        return Err(WireErr::Short { at });
    }
    Ok(bytes.split_at(count as usize))
}

fn le64(text: &[u8]) -> u64
    requires { length text.now ≡ 8 }
    ensures { result ≡ from_le_bytes w64 text.now }
{
    u64::from_le_bytes([
        text[0], text[1], text[2], text[3], text[4], text[5], text[6], text[7],
    ])
}

fn le32(text: &[u8]) -> u32
    requires { length text.now ≡ 4 }
    ensures { result ≡ from_le_bytes w32 text.now }
{
    u32::from_le_bytes([text[0], text[1], text[2], text[3]])
}
