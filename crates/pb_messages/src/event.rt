// An event: the value of a variable at a moment of a year, with its alarm and its fields.
use crate::Value;
use series_model::Pairs;

/// A sample of a variable.
#[derive(Debug, Drop)]
pub struct Event {
    /// Seconds into the year of the file.
    pub secs: u32,
    /// Nanoseconds of that second.
    pub nano: u32,
    /// The value, of the payload type of the file.
    pub val: Value,
    /// The alarm severity, 0 where there is none.
    pub severity: i32,
    /// The alarm status, 0 where there is none.
    pub status: i32,
    /// How often the sample was repeated.
    pub repeat: Option<u32>,
    /// Names and values of the variable's fields.
    pub fields: Pairs,
    /// Whether the fields changed, or were written again.
    pub actual_change: Option<bool>,
}
