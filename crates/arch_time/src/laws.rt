//! Laws of the definitions, stated by functions that do nothing.
ghost use Rattle.std.specs.Prelude.{◌≡◌, ℕ, ℤ, List, ◌+◌, ◌≤◌, pos, ◌-ℤ◌};
ghost use Rattle.jiff_core.specs.Calendar.{days_from_civil};
ghost use Rattle.arch_time.specs.Calendar.{days_in_month, day_number, IsDate};
ghost use Rattle.arch_time.specs.Iso.{IsIso};
ghost use Rattle.arch_time.specs.YearTime.{moment, IsInYear, IsMomentYear};

use crate::calendar::UNIX_DAY;
use crate::year_time::{END, START};

/// The day after the last of a month is the first of the next one, and the day after the last of
/// a year the first of the next one. The first day of 1970 has the number `UNIX_DAY`.
pub fn days_follow()
    ensures in_month { (y m d : ℕ) → 1 ≤ d → day_number y m (d + 1) ≡ day_number y m d + 1 }
    ensures next_month { (y m : ℕ) → 1 ≤ m → day_number y (m + 1) 1 ≡ day_number y m (days_in_month y m) + 1 }
    ensures next_year { (y : ℕ) → day_number (y + 1) 1 1 ≡ day_number y 12 31 + 1 }
    ensures epoch { day_number 1970 1 1 ≡ UNIX_DAY }
{}

/// No two dates have one number.
pub fn one_date()
    ensures { (y m d y₂ m₂ d₂ : ℕ) → IsDate y m d → IsDate y₂ m₂ d₂
        → day_number y m d ≡ day_number y₂ m₂ d₂ → (y ≡ y₂) × (m ≡ m₂) × (d ≡ d₂) }
{}

/// The day numbers of `jiff_core`, which count from 1970-01-01, are those of the calendar.
pub fn jiff_days()
    ensures { (y m d : ℕ) → IsDate y m d
        → days_from_civil (pos y) m d ≡ pos (day_number y m d) -ℤ pos UNIX_DAY }
{}

/// No two years' nanoseconds are one moment. So `split` and `instant` are inverse to each other
/// wherever both speak.
pub fn one_year_time()
    ensures { (y y₂ : ℤ) (s n s₂ n₂ : ℕ) → IsMomentYear y → IsMomentYear y₂ → IsInYear y s n → IsInYear y₂ s₂ n₂
        → moment y s n ≡ moment y₂ s₂ n₂ → (y ≡ y₂) × (s ≡ s₂) × (n ≡ n₂) }
{}

/// Moments are counted from 1970; samples stand from 1991 up to, not including, 2500.
pub fn year_ends()
    ensures epoch { moment (pos 1970) 0 0 ≡ 0 }
    ensures first { moment (pos 1991) 0 0 ≡ START }
    ensures end { moment (pos 2500) 0 0 ≡ END }
{}

/// No text tells two moments.
pub fn one_moment()
    ensures { (text : List ℕ) (t t₂ : ℕ) → IsIso text t → IsIso text t₂ → t ≡ t₂ }
{}
