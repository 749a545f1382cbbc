// What a request asks for, as text.
ghost use Rattle.std.specs.Prelude.{◌≡◌, ◌≢◌, ◌<◌, ◌≤◌, ◌∷◌, ◌++◌, [], ℕ, List, Option, None, length, take, drop, All};
ghost use Rattle.std.specs.Prelude.{IsTrue, IfSome, IfNone, false};
ghost use Rattle.sample_bins.specs.declared.op.Op.{Op as OpValue};
ghost use Rattle.sample_bins.specs.Bins.{IsInRange, most_width};
ghost use Rattle.sample_bins.specs.Words.{IsWidth, IsSuffix, IsBinWidth, Spells, IsOperator, Asks, IsCut};

use crate::op::Op;
use arch_time::number;

// The width of bins where none is told.
const USUAL_WIDTH: u32 = 900;

// No number that is good has more digits.
const MOST_DIGITS: usize = 9;

/// The operator, if one is asked for, and the bytes of the name. `None` comes exactly where the text has a parenthesis
/// and isn't an operator with a name in parentheses. It takes no memory.
pub fn read_pv(text: &[u8]) -> Option<(Option<Op>, &[u8])>
    ensures found { IfSome result (λ asked. Asks text.now asked.0 asked.1.now) }
    ensures wide { IfSome result (λ asked. IfSome asked.0 IsInRange) }
    ensures none { IfNone result ((op : Option OpValue) (name : List ℕ) → Asks text.now op name → ⊥) }
{
    let (front, rest) = cut_at(text, b'(');
    if rest.is_empty() {
        if has_end(text) {
            return None;
        }
        return Some((None, text));
    }
    let name = name_in(rest)?;
    let op = read_operator(front)?;
    Some((Some(op), name))
}

fn has_end(text: &[u8]) -> bool
    ensures some { IsTrue result → All (λ b. b ≢ 41) text.now → ⊥ }
    ensures none { result ≡ false → All (λ b. b ≢ 41) text.now }
{
    text.contains(&b')')
}

// What stands between an opening parenthesis and a closing one that ends the text.
fn name_in(text: &[u8]) -> Option<&[u8]>
    ensures found { IfSome result (λ name. text.now ≡ 40 ∷ (name.now ++ 41 ∷ [])) }
    ensures none { IfNone result ((name : List ℕ) → text.now ≡ 40 ∷ (name ++ 41 ∷ []) → ⊥) }
{
    match text {
        [b'(', name @ .., b')'] => Some(name),
        _ => None,
    }
}

// What stands before the first such byte, and what begins there.
fn cut_at(text: &[u8], byte: u8) -> (&[u8], &[u8])
    ensures { IsCut byte text.now result.0.now result.1.now }
{
    text.split_at(first_place(text, byte))
}

// Where the first such byte stands, or where the text ends.
fn first_place(text: &[u8], byte: u8) -> usize
    ensures within { result ≤ length text.now }
    ensures cut { IsCut byte text.now (take result text.now) (drop result text.now) }
{
    text.iter()
        .position(|other| *other == byte)
        .unwrap_or(text.len())
}

fn read_operator(text: &[u8]) -> Option<Op>
    ensures found { IfSome result (IsOperator text.now) }
    ensures wide { IfSome result IsInRange }
    ensures none { IfNone result ((op : OpValue) → IsOperator text.now op → ⊥) }
{
    let (word, rest) = cut_at(text, b'_');
    spelled(word, rest)
}

// The operator of a word and what stands behind it.
fn spelled(word: &[u8], rest: &[u8]) -> Option<Op>
    ensures found { IfSome result (Spells word.now rest.now) }
    ensures wide { IfSome result IsInRange }
    ensures none { IfNone result ((op : OpValue) → Spells word.now rest.now op → ⊥) }
{
    if word == b"firstSample".as_slice() {
        return Some(Op::FirstSample(bin_width(rest)?));
    }
    if word == b"lastSample".as_slice() {
        return Some(Op::LastSample(bin_width(rest)?));
    }
    if word == b"count".as_slice() {
        return Some(Op::Count(bin_width(rest)?));
    }
    if word == b"nth".as_slice() {
        return Some(Op::Nth(suffix(rest)?));
    }
    if word == b"ncount".as_slice() && rest.is_empty() {
        return Some(Op::NCount);
    }
    None
}

fn bin_width(rest: &[u8]) -> Option<u32>
    ensures found { IfSome result (IsBinWidth rest.now) }
    ensures wide { IfSome result (λ n. (0 < n) × (n ≤ most_width)) }
    ensures none { IfNone result ((n : ℕ) → IsBinWidth rest.now n → ⊥) }
{
    if rest.is_empty() {
        return Some(USUAL_WIDTH);
    }
    suffix(rest)
}

// The number behind an underscore.
fn suffix(rest: &[u8]) -> Option<u32>
    ensures found { IfSome result (IsSuffix rest.now) }
    ensures wide { IfSome result (λ n. (0 < n) × (n ≤ most_width)) }
    ensures none { IfNone result ((n : ℕ) → IsSuffix rest.now n → ⊥) }
{
    let Some((b'_', digits)) = rest.split_first() else {
        return None;
    };
    width(digits)
}

fn width(digits: &[u8]) -> Option<u32>
    ensures found { IfSome result (IsWidth digits.now) }
    ensures wide { IfSome result (λ n. (0 < n) × (n ≤ most_width)) }
    ensures none { IfNone result ((n : ℕ) → IsWidth digits.now n → ⊥) }
{
    if digits.is_empty() || digits.len() > MOST_DIGITS {
        return None;
    }
    let width = number(digits)?;
    if width == 0 {
        return None;
    }
    Some(width)
}
