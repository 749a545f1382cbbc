// The JSON texts of values.
ghost use Rattle.std.specs.Prelude.{◌≡◌, ℕ, ◌<◌, ◌≤◌, ◌∷◌, [], ◌++◌, List, OnOk, OnErr, decimal};
ghost use Rattle.std.specs.Char.{digit_char};
ghost use Rattle.std.specs.Fmt.{signed_decimal};
ghost use Rattle.std.specs.List.{flat_map, list_all};
ghost use Rattle.json_out.specs.Values.{string_text, is_plain, hex_digits, bits_text, array_text, value_text};

use itoa::{Buffer, Integer};
use pb_messages::Value;
use serde_json::Value as Json;
use series_model::Blob;
use std::alloc::{AllocError, Global};

/// What an array may have as an element: a number, the bits of a floating-point number, or a string.
pub trait JsonElement {
    /// Its JSON text.
    ghost text: { Self → List ℕ };

    /// Appends the text. After want of memory a part of it may stand in `out`.
    fn put(&self, alloc: Global, out: &mut Vec<u8>) -> Result<(), AllocError>
        ensures { OnOk result (out.new.items ≡ out.old.items ++ text self.now) };
}

/// A whole number in decimal. A bare `u64` is the bits of a floating-point number.
#[derive(Clone, Copy, Debug, PartialEq, Eq)]
pub struct Number(pub u64);

impl JsonElement for Number {
    ghost text = { λ number. decimal number.0 };

    fn put(&self, _alloc: Global, out: &mut Vec<u8>) -> Result<(), AllocError> {
        put_number(self.0, out)
    }
}

/// A byte is a number in decimal.
impl JsonElement for u8 {
    ghost text = { decimal };

    fn put(&self, _alloc: Global, out: &mut Vec<u8>) -> Result<(), AllocError> {
        put_number(*self, out)
    }
}

/// A number in decimal.
impl JsonElement for i32 {
    ghost text = { signed_decimal };

    fn put(&self, _alloc: Global, out: &mut Vec<u8>) -> Result<(), AllocError> {
        put_number(*self, out)
    }
}

/// The bits of a floating-point number of single precision, in a string.
impl JsonElement for u32 {
    ghost text = { bits_text 8 };

    fn put(&self, _alloc: Global, out: &mut Vec<u8>) -> Result<(), AllocError> {
        put_bits(u64::from(*self), 8, out)
    }
}

/// The bits of a floating-point number of double precision, in a string.
impl JsonElement for u64 {
    ghost text = { bits_text 16 };

    fn put(&self, _alloc: Global, out: &mut Vec<u8>) -> Result<(), AllocError> {
        put_bits(*self, 16, out)
    }
}

/// A string of the bytes.
impl JsonElement for Blob {
    ghost text = { string_text };

    fn put(&self, alloc: Global, out: &mut Vec<u8>) -> Result<(), AllocError> {
        put_string(alloc, self.bytes(), out)
    }
}

/// Appends the text of a value.
pub(crate) fn put_value(alloc: Global, value: &Value, out: &mut Vec<u8>) -> Result<(), AllocError>
    ensures { OnOk result (out.new.items ≡ out.old.items ++ value_text value.now) }
{
    match value {
        Value::Str(bytes) => put_string(alloc, bytes.bytes(), out),
        Value::Short(number) => put_number(*number, out),
        Value::Float(bits) => put_bits(u64::from(*bits), 8, out),
        Value::Enum(number) => put_number(*number, out),
        Value::Byte(bytes) => put_array(alloc, bytes.bytes(), out),
        Value::Int(number) => put_number(*number, out),
        Value::Double(bits) => put_bits(*bits, 16, out),
        Value::Strs(strings) => put_array(alloc, strings.items(), out),
        Value::Shorts(numbers) => put_array(alloc, numbers.items(), out),
        Value::Floats(bits) => put_array(alloc, bits.items(), out),
        Value::Enums(numbers) => put_array(alloc, numbers.items(), out),
        Value::Bytes(bytes) => put_array(alloc, bytes.bytes(), out),
        Value::IntList(numbers) => put_array(alloc, numbers.items(), out),
        Value::Doubles(bits) => put_array(alloc, bits.items(), out),
    }
}

/// Appends a number in decimal. After want of memory `out` is as it was.
pub fn put_number<I: Integer>(number: I, out: &mut Vec<u8>) -> Result<(), AllocError>
    ensures text { OnOk result (out.new.items ≡ out.old.items ++ I.text number) }
    ensures memory { OnErr result (out.new.items ≡ out.old.items) }
{
    let mut digits = Buffer::new();
    out.extend_from_slice(digits.format(number).as_bytes())
}

/// Appends a JSON string of the bytes, with U+FFFD for what isn't UTF-8. After want of memory a part
/// of it may stand in `out`.
#[tactic(auto, using(crate::proofs::Strings::plain_string))]
pub fn put_string(alloc: Global, bytes: &[u8], out: &mut Vec<u8>) -> Result<(), AllocError>
    ensures { OnOk result (out.new.items ≡ out.old.items ++ string_text bytes.now) }
{
    if are_plain(bytes) {
        return put_quoted(bytes, out);
    }
    let text = String::from_utf8_lossy(alloc, bytes)?;
    let json = Json::String(text).to_string(alloc)?;
    out.extend_from_slice(json.as_bytes())
}

// Whether a JSON string surely has these bytes as they are.
fn are_plain(bytes: &[u8]) -> bool
    ensures { result ≡ list_all is_plain bytes.now }
{
    bytes.iter().all(|byte| *byte >= b' ' && *byte <= b'~' && *byte != b'"' && *byte != b'\\')
}

// Appends the bytes in quotation marks.
fn put_quoted(bytes: &[u8], out: &mut Vec<u8>) -> Result<(), AllocError>
    ensures { OnOk result (out.new.items ≡ out.old.items ++ 34 ∷ (bytes.now ++ 34 ∷ [])) }
{
    out.extend_from_slice(b"\"")?;
    out.extend_from_slice(bytes)?;
    out.extend_from_slice(b"\"")
}

// Appends the bits of a floating-point number as a string of so many digits.
fn put_bits(bits: u64, digits: u32, out: &mut Vec<u8>) -> Result<(), AllocError>
    requires { digits ≤ 16 }
    ensures { OnOk result (out.new.items ≡ out.old.items ++ bits_text digits bits) }
{
    out.extend_from_slice(b"\"0x")?;
    put_digits(bits, digits, out)?;
    out.extend_from_slice(b"\"")
}

fn put_digits(bits: u64, digits: u32, out: &mut Vec<u8>) -> Result<(), AllocError>
    requires { digits ≤ 16 }
    ensures { OnOk result (out.new.items ≡ out.old.items ++ hex_digits digits bits) }
{
    for place in (0..digits).rev() {
        out.push(hex_digit(((bits >> (4 * place)) % 16) as u8))?;
    }
    Ok(())
}

fn hex_digit(digit: u8) -> u8
    requires { digit < 16 }
    ensures { result ≡ digit_char digit }
{
    if digit < 10 {
        b'0' + digit
    } else {
        b'a' + (digit - 10)
    }
}

/// Appends an array of the elements in order. After want of memory a part of it may stand in `out`.
pub fn put_array<T: JsonElement>(
    alloc: Global,
    items: &[T],
    out: &mut Vec<u8>,
) -> Result<(), AllocError>
    ensures { OnOk result (out.new.items ≡ out.old.items ++ array_text T.text items.now) }
{
    let Some((first, rest)) = items.split_first() else {
        return out.extend_from_slice(b"[]");
    };
    out.extend_from_slice(b"[")?;
    first.put(alloc, out)?;
    put_others(alloc, rest, out)?;
    out.extend_from_slice(b"]")
}

// Appends the elements, each behind a comma.
fn put_others<T: JsonElement>(
    alloc: Global,
    items: &[T],
    out: &mut Vec<u8>,
) -> Result<(), AllocError>
    ensures { OnOk result (out.new.items ≡ out.old.items ++ flat_map (λ x. 44 ∷ T.text x) items.now) }
{
    for item in items {
        out.extend_from_slice(b",")?;
        item.put(alloc, out)?;
    }
    Ok(())
}
