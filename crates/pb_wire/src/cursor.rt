// A cursor over the fields of a message.
ghost use Rattle.std.specs.Prelude.{◌≡◌, ◌≤◌, ◌↔◌, [], IsTrue, IfOk, IfSome, IfNone, length};
ghost use Rattle.pb_wire.specs.Message.{view, view_value, blob_len, varint, fixed64, fixed32};
ghost use Rattle.pb_wire.specs.Reading.{varint_at, field_at};
ghost use Rattle.pb_wire.specs.Cursor.{Cursor, GivesNext, TakesItem, place_of};

use crate::reading::{
    read_field, read_short_fixed32, read_short_fixed64, read_short_number, read_varint,
};
use crate::{Field, WireErr};
use std::marker::Model;

/// The fields of a message, read one after another without memory and without a copy.
#[derive(Drop)]
pub struct Fields<'a> {
    rest: &'a [u8],
    end: usize,
}

impl<'a> Model for Fields<'a> {
    ghost Value = { Cursor };

    ghost view = { λ f. record { rest = f.rest.now; end = f.end } };

    ghost invariant = { λ f. length f.rest.now ≤ f.end };
}

impl<'a> Fields<'a> {
    /// The fields of a whole message.
    pub fn of(bytes: &'a [u8]) -> Fields<'a>
        ensures { result ≡ record { rest = bytes.now; end = length bytes.now } }
    {
        Fields {
            rest: bytes,
            end: bytes.len(),
        }
    }

    /// The fields of a message that lies in another one and ends at place `end` of it. The places of
    /// faults count from the start of the outer message.
    ///
    /// For the bytes of the field that was read last, `end` is the outer cursor's `place`.
    pub fn ending_at(bytes: &'a [u8], end: usize) -> Fields<'a>
        requires { length bytes.now ≤ end }
        ensures { result ≡ record { rest = bytes.now; end = end } }
    {
        Fields { rest: bytes, end }
    }

    /// How many bytes of the message stand before the cursor.
    pub fn place(&self) -> usize
        ensures { result ≡ place_of self.now }
    {
        self.end - self.rest.len()
    }

    /// The next field, or `None` at the end. A refusal comes again at each later call.
    #[inline(always)]
    pub fn next(&mut self) -> Result<Option<Field<'a>>, WireErr>
        ensures next { GivesNext field_at view self.old self.new result }
        // The bytes of a value lie before the cursor, as `ending_at` asks.
        ensures inside { IfOk result (λ f. IfSome f (λ f. blob_len (view_value f.value) ≤ place_of self.new)) }
    {
        if self.rest.is_empty() {
            return Ok(None);
        }
        let (field, rest) = read_field(self.rest, self.end)?;
        self.rest = rest;
        Ok(Some(field))
    }

    /// The varint of the next field, where that is of this number and spelled as most are: a tag of
    /// one byte, and a varint of at most five. `None` says nothing of the field, which `next` reads
    /// in any spelling; the cursor stays.
    #[inline(always)]
    pub fn next_number(&mut self, number: u32) -> Option<u64>
        requires { (1 ≤ number) × (number ≤ 15) }
        ensures taken { IfSome result (λ n.
            TakesItem field_at self.old self.new (record { number = number; value = varint n })) }
        ensures none { IfNone result (self.new ≡ self.old) }
    {
        let (n, rest) = read_short_number(self.rest, number, self.end)?;
        self.rest = rest;
        Some(n)
    }

    /// The same, of eight bytes.
    #[inline(always)]
    pub fn next_fixed64(&mut self, number: u32) -> Option<u64>
        requires { (1 ≤ number) × (number ≤ 15) }
        ensures taken { IfSome result (λ n.
            TakesItem field_at self.old self.new (record { number = number; value = fixed64 n })) }
        ensures none { IfNone result (self.new ≡ self.old) }
    {
        let (n, rest) = read_short_fixed64(self.rest, number, self.end)?;
        self.rest = rest;
        Some(n)
    }

    /// The same, of four bytes.
    #[inline(always)]
    pub fn next_fixed32(&mut self, number: u32) -> Option<u32>
        requires { (1 ≤ number) × (number ≤ 15) }
        ensures taken { IfSome result (λ n.
            TakesItem field_at self.old self.new (record { number = number; value = fixed32 n })) }
        ensures none { IfNone result (self.new ≡ self.old) }
    {
        let (n, rest) = read_short_fixed32(self.rest, number, self.end)?;
        self.rest = rest;
        Some(n)
    }

    /// Whether no byte is left.
    #[inline(always)]
    pub fn is_empty(&self) -> bool
        ensures { IsTrue result ↔ (self.now.rest ≡ []) }
    {
        self.rest.is_empty()
    }
}

/// Packed numbers, which stand in the bytes of one field as varints, read one after another.
#[derive(Drop)]
pub struct Varints<'a> {
    rest: &'a [u8],
    end: usize,
}

impl<'a> Model for Varints<'a> {
    ghost Value = { Cursor };

    ghost view = { λ f. record { rest = f.rest.now; end = f.end } };

    ghost invariant = { λ f. length f.rest.now ≤ f.end };
}

impl<'a> Varints<'a> {
    /// The numbers in bytes that end at place `end` of a message, as `Fields::ending_at` has it.
    pub fn ending_at(bytes: &'a [u8], end: usize) -> Varints<'a>
        requires { length bytes.now ≤ end }
        ensures { result ≡ record { rest = bytes.now; end = end } }
    {
        Varints { rest: bytes, end }
    }

    /// The next number, or `None` at the end. A refusal comes again at each later call.
    pub fn next(&mut self) -> Result<Option<u64>, WireErr>
        ensures { GivesNext varint_at (λ n. n) self.old self.new result }
    {
        if self.rest.is_empty() {
            return Ok(None);
        }
        let (number, rest) = read_varint(self.rest, self.end)?;
        self.rest = rest;
        Ok(Some(number))
    }
}
