//! Moments as ISO 8601 texts.
ghost use Rattle.std.specs.Prelude.{◌≡◌, ℕ, List, ◌++◌, ◌*◌, ◌^◌, ◌<◌, ◌≤◌, length, drop, ◌↔◌, Some, Ok, IfSome};
ghost use Rattle.std.specs.Prelude.{IfNone, OnOk, OnErr};
ghost use Rattle.arch_time.specs.Iso.{IsDateText, IsMinuteText, IsClockText, IsFraction, IsZone, IsMomentAt, IsIso};
ghost use Rattle.arch_time.specs.Iso.{IsPrinted, AppendsIso};

use crate::calendar::{CivilDate, UNIX_DAY};
use crate::digits::{number, two_digits};
use crate::year_time::{END, NANOS_PER_DAY, NANOS_PER_SECOND, SECONDS_PER_DAY};
use std::alloc::AllocError;

// 1970-01-01T00:00:00, in seconds from the year 0.
const UNIX_SECOND: u64 = UNIX_DAY as u64 * SECONDS_PER_DAY;

/// The text is not a moment from 1970 to 2499 in the form `2012-09-27T08:00:00.000Z`.
#[derive(Clone, Copy, Debug, PartialEq, Eq)]
pub struct BadIso;

/// How many seconds civil time is ahead of UTC, or behind it.
#[derive(Clone, Copy)]
pub enum Offset {
    Ahead(u32),
    Behind(u32),
}

/// The moment that the text tells: `YYYY-MM-DDTHH:MM:SS`, then nothing or a point and one to nine
/// digits, then `Z` or `+HH:MM` or `-HH:MM`. The moment is the civil time less the offset.
pub fn parse_iso(text: &[u8]) -> Result<u64, BadIso>
    ensures exact { (t : ℕ) → (result ≡ Ok t) ↔ IsIso text.now t }
{
    parsed(text).ok_or(BadIso)
}

/// Appends the text of a moment in UTC, with nine decimals and `Z`. After an error `out` is as before.
pub fn print_iso(t: u64, out: &mut Vec<u8>) -> Result<(), AllocError>
    requires { t < END }
    ensures ok { OnOk result (AppendsIso out.old.items out.new.items t) }
    ensures err { OnErr result (out.new.items ≡ out.old.items) }
{
    out.extend_from_slice(&iso_text(t))
}

fn parsed(text: &[u8]) -> Option<u64>
    ensures found { IfSome result (IsIso text.now) }
    ensures none { IfNone result ((t : ℕ) → IsIso text.now t → ⊥) }
{
    let zone_at = zone_start(text)?;
    if text[10] != b'T' {
        return None;
    }
    let day = date(&text[..10])?;
    let second = clock(&text[11..19])?;
    let nano = fraction(&text[19..zone_at])?;
    let offset = zone(&text[zone_at..])?;
    let civil = day as u64 * SECONDS_PER_DAY + second as u64;
    moment_at(civil, offset, nano)
}

// Where the zone begins, if the text has room for one behind the seconds.
fn zone_start(text: &[u8]) -> Option<usize>
    ensures within { IfSome result (λ at. (19 ≤ at) × (at ≤ length text.now)) }
    ensures only { (at : ℕ) (offset : Offset) → 19 ≤ at → IsZone (drop at text.now) offset → result ≡ Some at }
{
    if text.len() < 20 {
        return None;
    }
    let length = if text[text.len() - 1] == b'Z' { 1 } else { 6 };
    if text.len() < 19 + length {
        return None;
    }
    Some(text.len() - length)
}

// The number of the day of `YYYY-MM-DD`.
fn date(text: &[u8]) -> Option<u32>
    requires { length text.now ≡ 10 }
    ensures found { IfSome result (IsDateText text.now) }
    ensures none { IfNone result ((day : ℕ) → IsDateText text.now day → ⊥) }
{
    if text[4] != b'-' || text[7] != b'-' {
        return None;
    }
    let year = number(&text[..4])?;
    let month = number(&text[5..7])?;
    let day = number(&text[8..10])?;
    Some(CivilDate::new(year as u16, month as u8, day as u8)?.number())
}

// The seconds of `HH:MM`.
fn hours_and_minutes(text: &[u8]) -> Option<u32>
    requires { length text.now ≡ 5 }
    ensures found { IfSome result (IsMinuteText text.now) }
    ensures bound { IfSome result (λ seconds. seconds < 86_400) }
    ensures none { IfNone result ((seconds : ℕ) → IsMinuteText text.now seconds → ⊥) }
{
    if text[2] != b':' {
        return None;
    }
    let hour = number(&text[..2])?;
    let minute = number(&text[3..5])?;
    if hour > 23 || minute > 59 {
        return None;
    }
    Some(hour * 3600 + minute * 60)
}

// The second of the day of `HH:MM:SS`.
fn clock(text: &[u8]) -> Option<u32>
    requires { length text.now ≡ 8 }
    ensures found { IfSome result (IsClockText text.now) }
    ensures bound { IfSome result (λ second. second < 86_400) }
    ensures none { IfNone result ((second : ℕ) → IsClockText text.now second → ⊥) }
{
    if text[5] != b':' {
        return None;
    }
    let before = hours_and_minutes(&text[..5])?;
    let second = number(&text[6..8])?;
    if second > 59 {
        return None;
    }
    Some(before + second)
}

// The nanoseconds of a point and digits, or of nothing.
fn fraction(text: &[u8]) -> Option<u32>
    ensures found { IfSome result (IsFraction text.now) }
    ensures bound { IfSome result (λ nano. nano < 1_000_000_000) }
    ensures none { IfNone result ((nano : ℕ) → IsFraction text.now nano → ⊥) }
{
    if text.is_empty() {
        return Some(0);
    }
    if text[0] != b'.' || text.len() < 2 || text.len() > 10 {
        return None;
    }
    let digits = &text[1..];
    let value = number(digits)?;
    Some(value * 10u32.pow(9 - digits.len() as u32))
}

// The offset of `Z`, `+HH:MM` or `-HH:MM`.
fn zone(text: &[u8]) -> Option<Offset>
    ensures found { IfSome result (IsZone text.now) }
    ensures none { IfNone result ((offset : Offset) → IsZone text.now offset → ⊥) }
{
    if text.len() == 1 && text[0] == b'Z' {
        return Some(Offset::Ahead(0));
    }
    if text.len() != 6 {
        return None;
    }
    let seconds = hours_and_minutes(&text[1..])?;
    match text[0] {
        b'+' => Some(Offset::Ahead(seconds)),
        b'-' => Some(Offset::Behind(seconds)),
        _ => None,
    }
}

// The moment of a civil time, which is counted in seconds from the year 0, at an offset.
fn moment_at(civil: u64, offset: Offset, nano: u32) -> Option<u64>
    requires civil_in { civil < 2 ^ 62 }
    requires nano_in { nano < 1_000_000_000 }
    ensures found { IfSome result (IsMomentAt civil offset nano) }
    ensures none { IfNone result ((t : ℕ) → IsMomentAt civil offset nano t → ⊥) }
{
    let since_1970 = match offset {
        Offset::Ahead(seconds) => civil.checked_sub(UNIX_SECOND + seconds as u64)?,
        Offset::Behind(seconds) => (civil + seconds as u64).checked_sub(UNIX_SECOND)?,
    };
    if since_1970 >= END / NANOS_PER_SECOND {
        return None;
    }
    Some(since_1970 * NANOS_PER_SECOND + nano as u64)
}

// The text of a moment in UTC, with nine decimals.
fn iso_text(t: u64) -> [u8; 30]
    requires { t < END }
    ensures { IsPrinted result t }
{
    let date = CivilDate::of_number((t / NANOS_PER_DAY) as u32 + UNIX_DAY);
    let (y1, y2) = two_digits(date.year / 100);
    let (y3, y4) = two_digits(date.year % 100);
    let (m1, m2) = two_digits(date.month as u16);
    let (d1, d2) = two_digits(date.day as u16);
    let second = (t % NANOS_PER_DAY / NANOS_PER_SECOND) as u32;
    let (h1, h2) = two_digits((second / 3600) as u16);
    let (i1, i2) = two_digits((second / 60 % 60) as u16);
    let (s1, s2) = two_digits((second % 60) as u16);
    let nano = (t % NANOS_PER_SECOND) as u32;
    let (n1, n2) = two_digits((nano / 10_000_000) as u16);
    let (n3, n4) = two_digits((nano / 100_000 % 100) as u16);
    let (n5, n6) = two_digits((nano / 1_000 % 100) as u16);
    let (n7, n8) = two_digits((nano / 10 % 100) as u16);
    let n9 = b'0' + (nano % 10) as u8;
    [
        y1, y2, y3, y4, b'-', m1, m2, b'-', d1, d2, b'T', h1, h2, b':', i1, i2, b':', s1, s2, b'.',
        n1, n2, n3, n4, n5, n6, n7, n8, n9, b'Z',
    ]
}
