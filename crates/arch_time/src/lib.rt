//! Moments of time: nanoseconds since 1970-01-01T00:00:00Z, as the nanosecond of a year's second
//! and as ISO 8601 texts.
//!
//! A day of the Gregorian calendar has a number, which counts from 1 January of the year 0; a
//! moment is that number less the one of 1970-01-01, in nanoseconds, and the time of the day.
//! `specs/Calendar.antt` sums years and months one at a time, and the code takes the same numbers
//! from `jiff_core`; [`laws::jiff_days`] says that the two agree.
//!
//! Samples stand in the years 1991 to 2499, and the texts tell moments from 1970 to 2499. Leap
//! seconds have no moment. A text's civil time may lie in 1969 or 2500 where its offset brings the
//! moment into range, and an offset of `-00:00` is good.
#![tactic(auto)]

mod calendar;
mod digits;
mod iso;
pub mod laws;
mod year_time;

pub use calendar::{CivilDate, LAST_DAY, UNIX_DAY, year_length, year_start};
pub use digits::{number, two_digits};
pub use iso::{BadIso, parse_iso, print_iso};
pub use year_time::{
    BadTime, END, FIRST_YEAR, LAST_YEAR, NANOS_PER_SECOND, SECONDS_PER_DAY, START, YearStart,
    YearTime, instant, split,
};
