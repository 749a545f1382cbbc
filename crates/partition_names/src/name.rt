//! The names of partitions.
ghost use Rattle.std.specs.Prelude.{◌≡◌, ℕ, ◌+◌, ◌<◌, ◌≤◌, length, take, IfSome, IfNone};
ghost use Rattle.partition_names.specs.declared.unit.CivilMinute.{CivilMinute};
ghost use Rattle.partition_names.specs.Unit.{IsMinute};
ghost use Rattle.partition_names.specs.Name.{name_of, name_length, EndsAtPart, IsPartAt, HasParts};

use crate::granularity::Granularity;
use crate::unit::CivilMinute;
use arch_time::{number, two_digits};
use std::marker::Model;

const MOST_BYTES: usize = 16;

/// The name of a partition, at most 16 bytes.
#[derive(Clone, Copy, Debug, PartialEq, Eq)]
pub struct PartName {
    bytes: [u8; 16],
    len: usize,
}

impl Model for PartName {
    ghost use Rattle.std.specs.Prelude.{ℕ, List, length};
    ghost use Rattle.partition_names.specs.NameBytes.{shown, padded, IsPadded};

    ghost Value = { List ℕ };

    ghost view = { λ name. shown name.bytes name.len };

    ghost invariant = { λ name. IsPadded name.bytes name.len };

    ghost inverse = { λ text. record { bytes = padded text; len = length text } };
}

impl PartName {
    /// The name's bytes.
    pub fn bytes(&self) -> &[u8]
        ensures value { result.now ≡ self.now }
        ensures short { length self.now ≤ MOST_BYTES }
    {
        &self.bytes[..self.len]
    }

    // The first bytes of a text.
    fn front(text: [u8; 16], len: usize) -> PartName
        requires { len ≤ MOST_BYTES }
        ensures { result ≡ take len text }
    {
        let mut bytes = [0; 16];
        bytes[..len].copy_from_slice(&text[..len]);
        PartName { bytes, len }
    }
}

/// The name of the unit that begins at a minute.
pub fn part_name(g: Granularity, from: CivilMinute) -> PartName
    requires exists { IsMinute from }
    requires year { from.year ≤ 9999 }
    ensures { result ≡ name_of g from }
{
    let (y1, y2) = two_digits(from.year / 100);
    let (y3, y4) = two_digits(from.year % 100);
    let (m1, m2) = two_digits(from.month as u16);
    let (d1, d2) = two_digits(from.day as u16);
    let (h1, h2) = two_digits(from.hour as u16);
    let (i1, i2) = two_digits(from.minute as u16);
    let text = [
        y1, y2, y3, y4, b'_', m1, m2, b'_', d1, d2, b'_', h1, h2, b'_', i1, i2,
    ];
    PartName::front(text, name_length(g))
}

/// How many bytes the names have.
pub fn name_length(g: Granularity) -> usize
    ensures value { result ≡ name_length g }
    ensures bound { result ≤ MOST_BYTES }
{
    match g {
        Granularity::FiveMinutes | Granularity::FifteenMinutes | Granularity::ThirtyMinutes => 16,
        Granularity::Hour => 13,
        Granularity::Day => 10,
        Granularity::Month => 7,
        Granularity::Year => 4,
    }
}

/// The minute that a name tells, as far as it goes, and the first one from there on.
pub fn name_parts(text: &[u8]) -> Option<CivilMinute>
    requires { EndsAtPart (length text.now) }
    ensures found { IfSome result (HasParts text.now) }
    ensures none { IfNone result ((at : CivilMinute) → HasParts text.now at → ⊥) }
{
    let year = number(&text[..4])? as u16;
    let month = name_part(text, 4, 1)?;
    let day = name_part(text, 7, 1)?;
    let hour = name_part(text, 10, 0)?;
    let minute = name_part(text, 13, 0)?;
    Some(CivilMinute {
        year,
        month,
        day,
        hour,
        minute,
    })
}

fn name_part(text: &[u8], at: usize, otherwise: u8) -> Option<u8>
    requires { at < length text.now → at + 3 ≤ length text.now }
    ensures found { IfSome result (IsPartAt text.now at otherwise) }
    ensures none { IfNone result ((n : ℕ) → IsPartAt text.now at otherwise n → ⊥) }
{
    if text.len() <= at {
        return Some(otherwise);
    }
    if text[at] != b'_' {
        return None;
    }
    Some(number(&text[at + 1..at + 3])? as u8)
}
