//! Dates of the Gregorian calendar and the numbers of their days.
ghost use Rattle.std.specs.Prelude.{◌≡◌, ◌+◌, ◌<◌, ◌≤◌, ◌↔◌, pos, IsSome, IfSome};
ghost use Rattle.std.specs.Int.{IsInRange};
ghost use Rattle.arch_time.specs.Calendar.{days_in_year, days_in_month, days_of_years, day_number, IsDate};

use jiff_core::civil::{self, Date};

/// The days from -9999-01-01, from which `jiff_core` counts, to 0000-01-01.
const YEAR_ZERO: u32 = 3_652_059;

/// The days from 0000-01-01 to 1970-01-01.
pub const UNIX_DAY: u32 = 719_528;

/// The days from 0000-01-01 to 9999-12-31.
pub const LAST_DAY: u32 = 3_652_424;

/// A day of the Gregorian calendar, of the years 0 to 9999.
#[derive(Clone, Copy, Debug)]
pub struct CivilDate {
    pub year: u16,
    pub month: u8,
    pub day: u8,
    pub ghost year_in: { year ≤ 9999 },
    pub ghost exists: { IsDate year month day },
}

impl CivilDate {
    /// The day with this year, month and day of the month, if the calendar has it.
    pub fn new(year: u16, month: u8, day: u8) -> Option<CivilDate>
        ensures exact { IsSome result ↔ ((year ≤ 9999) × IsDate year month day) }
        ensures value { IfSome result (λ date. (date.year ≡ year) × (date.month ≡ month) × (date.day ≡ day)) }
    {
        if year > 9999 || month < 1 || month > 12 || day < 1 {
            return None;
        }
        if day > civil::days_in_month(year as i16, month) {
            return None;
        }
        Some(CivilDate { year, month, day })
    }

    /// The day with this number.
    pub fn of_number(number: u32) -> CivilDate
        requires { number ≤ LAST_DAY }
        ensures { day_number result.year result.month result.day ≡ number }
    {
        let date = Date::from_days_since_min(number + YEAR_ZERO);
        CivilDate {
            year: date.year as u16,
            month: date.month,
            day: date.day,
        }
    }

    /// The number of the day, from 0 for 0000-01-01.
    pub fn number(self) -> u32
        ensures value { result ≡ day_number self.year self.month self.day }
        ensures bound { result ≤ LAST_DAY }
    {
        self.to_jiff().days_since_min() - YEAR_ZERO
    }

    /// How many days the month has.
    pub fn month_length(self) -> u32
        ensures { result ≡ days_in_month self.year self.month }
    {
        civil::days_in_month(self.year as i16, self.month) as u32
    }

    fn to_jiff(self) -> Date
        ensures { (result.year ≡ pos self.year) × (result.month ≡ self.month) × (result.day ≡ self.day) }
    {
        Date {
            year: self.year as i16,
            month: self.month,
            day: self.day,
        }
    }
}

/// The number of 1 January of a year.
pub fn year_start(year: u16) -> u32
    requires { year ≤ 9999 }
    ensures value { result ≡ days_of_years year }
    ensures bound { result ≤ LAST_DAY }
{
    let first = CivilDate {
        year,
        month: 1,
        day: 1,
    };
    first.number()
}

/// How many days a year has.
pub fn year_length(year: u16) -> u32
    requires { year ≤ 9999 }
    ensures value { result ≡ days_in_year year }
    ensures bound { result ≤ 366 }
{
    civil::days_in_year(year as i16) as u32
}
