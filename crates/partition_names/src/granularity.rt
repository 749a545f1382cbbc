//! How long a partition is.
ghost use Rattle.std.specs.Prelude.{◌≡◌, ◌↔◌, IsTrue, Some};
ghost use Rattle.partition_names.specs.declared.granularity.Granularity.{Granularity};
ghost use Rattle.partition_names.specs.Granularity.{number_of, text_of, Holds};

/// How long a partition is: a number of minutes, or a unit of the calendar. Each divides the next.
#[derive(Clone, Copy, Debug, PartialEq, Eq)]
pub enum Granularity {
    FiveMinutes,
    FifteenMinutes,
    ThirtyMinutes,
    Hour,
    Day,
    Month,
    Year,
}

impl Granularity {
    /// Its number, from 0 for five minutes to 6 for a year.
    pub fn number(self) -> u8
        ensures { result ≡ number_of self }
    {
        match self {
            Granularity::FiveMinutes => 0,
            Granularity::FifteenMinutes => 1,
            Granularity::ThirtyMinutes => 2,
            Granularity::Hour => 3,
            Granularity::Day => 4,
            Granularity::Month => 5,
            Granularity::Year => 6,
        }
    }

    /// The granularity with this number.
    pub fn of_number(number: u8) -> Option<Granularity>
        ensures { (g : Granularity) → (result ≡ Some g) ↔ (number_of g ≡ number) }
    {
        match number {
            0 => Some(Granularity::FiveMinutes),
            1 => Some(Granularity::FifteenMinutes),
            2 => Some(Granularity::ThirtyMinutes),
            3 => Some(Granularity::Hour),
            4 => Some(Granularity::Day),
            5 => Some(Granularity::Month),
            6 => Some(Granularity::Year),
            _ => None,
        }
    }

    /// Its name: `5MIN`, `15MIN`, `30MIN`, `HOUR`, `DAY`, `MONTH` or `YEAR`.
    pub fn name(self) -> &'static [u8]
        ensures { result.now ≡ text_of self }
    {
        match self {
            Granularity::FiveMinutes => b"5MIN",
            Granularity::FifteenMinutes => b"15MIN",
            Granularity::ThirtyMinutes => b"30MIN",
            Granularity::Hour => b"HOUR",
            Granularity::Day => b"DAY",
            Granularity::Month => b"MONTH",
            Granularity::Year => b"YEAR",
        }
    }

    /// The granularity with this name.
    pub fn of_name(name: &[u8]) -> Option<Granularity>
        ensures { (g : Granularity) → (result ≡ Some g) ↔ (name.now ≡ text_of g) }
    {
        match name {
            b"5MIN" => Some(Granularity::FiveMinutes),
            b"15MIN" => Some(Granularity::FifteenMinutes),
            b"30MIN" => Some(Granularity::ThirtyMinutes),
            b"HOUR" => Some(Granularity::Hour),
            b"DAY" => Some(Granularity::Day),
            b"MONTH" => Some(Granularity::Month),
            b"YEAR" => Some(Granularity::Year),
            _ => None,
        }
    }
}

/// Whether each partition of the fine granularity lies in one of the coarse one: whether the fine
/// one is the coarse one or divides it.
pub fn holds(coarse: Granularity, fine: Granularity) -> bool
    ensures { IsTrue result ↔ Holds coarse fine }
{
    fine.number() <= coarse.number()
}
