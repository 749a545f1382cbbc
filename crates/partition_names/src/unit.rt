//! The units of the UTC calendar.
ghost use Rattle.std.specs.Prelude.{◌≡◌, ℕ, ◌+◌, ◌*◌, ◌≤◌, ◌<◌, ◌↔◌, IsTrue};
ghost use Rattle.std.specs.Int.{IsInRange};
ghost use Rattle.partition_names.specs.Unit.{IsMinute, IsUnitStart, unit_seconds, moment_of, IsUnitOf};

use crate::granularity::Granularity;
use arch_time::{CivilDate, END, NANOS_PER_SECOND, SECONDS_PER_DAY, START, UNIX_DAY, year_length};

/// A minute of the UTC calendar.
#[derive(Clone, Copy)]
pub struct CivilMinute {
    pub year: u16,
    pub month: u8,
    pub day: u8,
    pub hour: u8,
    pub minute: u8,
}

/// The minute that holds the moment.
pub fn minute_at(t: u64) -> CivilMinute
    requires from { START ≤ t }
    requires before { t < END }
    ensures exists { IsMinute result }
    ensures years { IsInRange 1991 2499 result.year }
    ensures begun { moment_of result ≤ t }
    ensures going { t < moment_of result + 60 * NANOS_PER_SECOND }
{
    let second = t / NANOS_PER_SECOND;
    let date = CivilDate::of_number((second / SECONDS_PER_DAY) as u32 + UNIX_DAY);
    CivilMinute {
        year: date.year,
        month: date.month,
        day: date.day,
        hour: (second / 3600 % 24) as u8,
        minute: (second / 60 % 60) as u8,
    }
}

/// The first minute of the unit that holds the minute.
pub fn unit_start(g: Granularity, at: CivilMinute) -> CivilMinute
    requires exists { IsMinute at }
    requires years { IsInRange 1991 2499 at.year }
    ensures { IsUnitOf g at result }
{
    let CivilMinute {
        year,
        month,
        day,
        hour,
        minute,
    } = at;
    let (month, day, hour, minute) = match g {
        Granularity::FiveMinutes => (month, day, hour, minute - minute % 5),
        Granularity::FifteenMinutes => (month, day, hour, minute - minute % 15),
        Granularity::ThirtyMinutes => (month, day, hour, minute - minute % 30),
        Granularity::Hour => (month, day, hour, 0),
        Granularity::Day => (month, day, 0, 0),
        Granularity::Month => (month, 1, 0, 0),
        Granularity::Year => (1, 1, 0, 0),
    };
    CivilMinute {
        year,
        month,
        day,
        hour,
        minute,
    }
}

/// The moment of a minute.
pub fn moment(at: CivilMinute) -> u64
    requires exists { IsMinute at }
    requires years { IsInRange 1991 2499 at.year }
    ensures value { result ≡ moment_of at }
    ensures bound { result < END }
{
    let date = CivilDate {
        year: at.year,
        month: at.month,
        day: at.day,
    };
    let days = (date.number() - UNIX_DAY) as u64;
    (days * SECONDS_PER_DAY + at.hour as u64 * 3600 + at.minute as u64 * 60) * NANOS_PER_SECOND
}

/// How many seconds the unit lasts that begins at a minute.
pub fn seconds(g: Granularity, from: CivilMinute) -> u64
    requires exists { IsMinute from }
    requires years { IsInRange 1991 2499 from.year }
    ensures value { result ≡ unit_seconds g from }
    ensures bound { result ≤ 366 * 86_400 }
{
    match g {
        Granularity::FiveMinutes => 5 * 60,
        Granularity::FifteenMinutes => 15 * 60,
        Granularity::ThirtyMinutes => 30 * 60,
        Granularity::Hour => 3600,
        Granularity::Day => SECONDS_PER_DAY,
        Granularity::Month => {
            let date = CivilDate {
                year: from.year,
                month: from.month,
                day: from.day,
            };
            date.month_length() as u64 * SECONDS_PER_DAY
        }
        Granularity::Year => year_length(from.year) as u64 * SECONDS_PER_DAY,
    }
}

/// Whether a unit begins at the minute, in the years 1991 to 2499.
pub fn is_unit_start(g: Granularity, at: CivilMinute) -> bool
    ensures { IsTrue result ↔ IsUnitStart g at }
{
    exists(at)
        && match g {
            Granularity::FiveMinutes => at.minute % 5 == 0,
            Granularity::FifteenMinutes => at.minute % 15 == 0,
            Granularity::ThirtyMinutes => at.minute % 30 == 0,
            Granularity::Hour => at.minute == 0,
            Granularity::Day => at.hour == 0 && at.minute == 0,
            Granularity::Month => at.day == 1 && at.hour == 0 && at.minute == 0,
            Granularity::Year => at.month == 1 && at.day == 1 && at.hour == 0 && at.minute == 0,
        }
}

fn exists(at: CivilMinute) -> bool
    ensures { IsTrue result ↔ (IsMinute at × IsInRange 1991 2499 at.year) }
{
    at.year >= 1991
        && at.year <= 2499
        && at.hour < 24
        && at.minute < 60
        && CivilDate::new(at.year, at.month, at.day).is_some()
}
