//! Numbers as decimal digits.
ghost use Rattle.std.specs.Prelude.{[], ◌∷◌, ◌^◌, ◌≤◌, ◌<◌, length, IfSome, IfNone};
ghost use Rattle.arch_time.specs.Digits.{IsDigits, IsNumber};

/// The number that the text spells, if it is digits alone.
pub fn number(text: &[u8]) -> Option<u32>
    requires { length text.now ≤ 9 }
    ensures found { IfSome result (IsNumber text.now) }
    ensures bound { IfSome result (λ n. n < 10 ^ length text.now) }
    ensures none { IfNone result (IsDigits text.now → ⊥) }
{
    let mut value = 0;
    for byte in text {
        let digit = byte.wrapping_sub(b'0');
        if digit > 9 {
            return None;
        }
        value = value * 10 + digit as u32;
    }
    Some(value)
}

/// The two digits of a number below 100.
pub fn two_digits(number: u16) -> (u8, u8)
    requires { number < 100 }
    ensures { IsNumber (result.0 ∷ result.1 ∷ []) number }
{
    (b'0' + (number / 10) as u8, b'0' + (number % 10) as u8)
}
