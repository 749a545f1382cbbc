//! The moment of a year's second, and back.
ghost use Rattle.std.specs.Prelude.{◌≡◌, ◌*◌, ◌≤◌, ◌<◌, ◌↔◌, IsOk, IfOk, IsNone, IfSome, unsigned_abs};
ghost use Rattle.arch_time.specs.Calendar.{days_in_year};
ghost use Rattle.arch_time.specs.YearTime.{moment, IsInYear, IsSampleYear, IsMomentYear};

use crate::calendar::{CivilDate, UNIX_DAY, year_length, year_start};

/// The first year that samples stand in.
pub const FIRST_YEAR: i32 = 1991;

/// The last one.
pub const LAST_YEAR: i32 = 2499;

/// 1991-01-01T00:00:00Z, the first moment at which a sample may stand.
pub const START: u64 = 662_688_000 * NANOS_PER_SECOND;

/// 2500-01-01T00:00:00Z, the first moment that is too late.
pub const END: u64 = 16_725_225_600 * NANOS_PER_SECOND;

/// The nanoseconds of a second.
pub const NANOS_PER_SECOND: u64 = 1_000_000_000;

/// The seconds of a day; leap seconds have no moment.
pub const SECONDS_PER_DAY: u64 = 86_400;

pub(crate) const NANOS_PER_DAY: u64 = SECONDS_PER_DAY * NANOS_PER_SECOND;

/// The year is outside 1991 to 2499, or doesn't have the second, or the nanosecond is 10^9 or more.
#[derive(Clone, Copy, Debug, PartialEq, Eq)]
pub struct BadTime;

/// A nanosecond of a second of a year.
#[derive(Clone, Copy, Debug, PartialEq, Eq)]
pub struct YearTime {
    pub year: i32,
    pub secs: u32,
    pub nano: u32,
}

/// What a reader of many samples of one year keeps, so that each moment costs two comparisons,
/// a product and a sum.
#[derive(Clone, Copy, Debug)]
pub struct YearStart {
    pub year: i32,
    start: u64,
    length: u32,
    ghost start_is: { start ≡ moment year 0 0 },
    ghost length_is: { length ≡ days_in_year (unsigned_abs year) * 86_400 },
    ghost year_in: { IsSampleYear year },
}

impl YearStart {
    ghost use Rattle.arch_time.specs.declared.year_time.YearStart.{YearStart};

    /// The start of a year from 1991 to 2499.
    pub fn new(year: i32) -> Result<YearStart, BadTime>
        ensures good { IsOk result ↔ IsSampleYear year }
        ensures value { IfOk result (λ start. start.year ≡ year) }
    {
        if year < FIRST_YEAR || year > LAST_YEAR {
            return Err(BadTime);
        }
        let days = year_start(year as u16) - UNIX_DAY;
        Ok(YearStart {
            year,
            start: days as u64 * NANOS_PER_DAY,
            length: year_length(year as u16) * SECONDS_PER_DAY as u32,
        })
    }

    /// The moment of that second and nanosecond of the year.
    #[inline]
    pub fn at(self, secs: u32, nano: u32) -> Result<u64, BadTime>
        ensures good { IsOk result ↔ IsInYear self.year secs nano }
        ensures value { IfOk result (λ t. t ≡ moment self.year secs nano) }
    {
        if secs >= self.length || nano as u64 >= NANOS_PER_SECOND {
            return Err(BadTime);
        }
        Ok(self.start + secs as u64 * NANOS_PER_SECOND + nano as u64)
    }
}

/// The moment of that nanosecond of that second of the year.
pub fn instant(year: i32, secs: u32, nano: u32) -> Result<u64, BadTime>
    ensures good { IsOk result ↔ (IsSampleYear year × IsInYear year secs nano) }
    ensures value { IfOk result (λ t. t ≡ moment year secs nano) }
{
    YearStart::new(year)?.at(secs, nano)
}

/// The year, second and nanosecond of a moment before 2500.
pub fn split(t: u64) -> Option<YearTime>
    ensures none { IsNone result ↔ (END ≤ t) }
    ensures parts { IfSome result (λ at. IsMomentYear at.year × IsInYear at.year at.secs at.nano) }
    ensures value { IfSome result (λ at. moment at.year at.secs at.nano ≡ t) }
{
    if t >= END {
        return None;
    }
    let day = (t / NANOS_PER_DAY) as u32 + UNIX_DAY;
    let of_day = t % NANOS_PER_DAY;
    let year = CivilDate::of_number(day).year;
    let days = day - year_start(year);
    Some(YearTime {
        year: year as i32,
        secs: days * SECONDS_PER_DAY as u32 + (of_day / NANOS_PER_SECOND) as u32,
        nano: (of_day % NANOS_PER_SECOND) as u32,
    })
}
