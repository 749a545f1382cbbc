//! Periods of sampling, in seconds.
ghost use Rattle.std.specs.Prelude.{◌≡◌, ℕ, ◌<◌, ◌≤◌, length, take, drop, IfSome, IfNone};
ghost use Rattle.arch_time.specs.Iso.{IsFraction};
ghost use Rattle.http_front.specs.Period.{IsWhole, IsPeriod, IsCut};

use arch_time::{NANOS_PER_SECOND, number};

// 0.1 seconds, in nanoseconds.
const LEAST: u64 = 100_000_000;

// A day of 86,400 seconds, in nanoseconds.
const MOST: u64 = 86_400_000_000_000;

// No number of seconds that is in range has more digits.
const MOST_DIGITS: usize = 5;

/// The period in nanoseconds that the text tells in seconds: digits, and then nothing or a point
/// and one to nine digits.
pub fn period_of(text: &[u8]) -> Option<u64>
    ensures found { IfSome result (IsPeriod text.now) }
    ensures none { IfNone result ((period : ℕ) → IsPeriod text.now period → ⊥) }
{
    let cut = cut_at_point(text);
    let seconds = whole(cut.0)?;
    let nanos = fraction(cut.1)?;
    let period = seconds as u64 * NANOS_PER_SECOND + nanos as u64;
    if period < LEAST {
        return None;
    }
    if period > MOST {
        return None;
    }
    Some(period)
}

// What stands before the first point, and what begins there.
fn cut_at_point(text: &[u8]) -> (&[u8], &[u8])
    ensures { IsCut text.now result.0.now result.1.now }
{
    text.split_at(first_point(text))
}

// Where the first point stands, or where the text ends.
fn first_point(text: &[u8]) -> usize
    ensures within { result ≤ length text.now }
    ensures cut { IsCut text.now (take result text.now) (drop result text.now) }
{
    text.iter()
        .position(|byte| *byte == b'.')
        .unwrap_or(text.len())
}

// The number that the digits spell, where it has no leading zero and isn't too long.
#[tactic(auto, using(crate::proofs::Periods::long_whole))]
fn whole(text: &[u8]) -> Option<u32>
    ensures found { IfSome result (IsWhole text.now) }
    ensures bound { IfSome result (λ n. n < 100_000) }
    ensures none { IfNone result ((n : ℕ) → IsWhole text.now n → 100_000 ≤ n) }
{
    if text.is_empty() || (text[0] == b'0' && text.len() > 1) {
        return None;
    }
    if text.len() > MOST_DIGITS {
        return None;
    }
    number(text)
}

// The nanoseconds of a point and one to nine digits, or of nothing.
fn fraction(text: &[u8]) -> Option<u32>
    ensures found { IfSome result (IsFraction text.now) }
    ensures bound { IfSome result (λ nanos. nanos < 1_000_000_000) }
    ensures none { IfNone result ((nanos : ℕ) → IsFraction text.now nanos → ⊥) }
{
    let Some((point, digits)) = text.split_first() else {
        return Some(0);
    };
    if *point != b'.' || digits.is_empty() || digits.len() > 9 {
        return None;
    }
    let value = number(digits)?;
    Some(value * 10u32.pow(9 - digits.len() as u32))
}
