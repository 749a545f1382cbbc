// What an archive knows of a variable: its type, how its samples are taken, and whether they are.
use pb_wire::PayloadType;
use series_model::Pairs;

/// How a variable's samples are taken.
#[derive(Clone, Copy, Debug, PartialEq, Eq)]
pub enum Method {
    /// Each offered sample is tried.
    Monitor,
    /// The last offered sample of each period is tried. The period is in nanoseconds.
    Scan { period: u64 },
}

/// Whether a variable's samples are taken.
#[derive(Clone, Copy, Debug, PartialEq, Eq)]
pub enum State {
    /// Samples are tried.
    Running,
    /// Samples are dropped until the variable is resumed.
    Paused,
    /// The variable has another name now.
    Retired,
}

/// What is known of a variable beside its name.
#[derive(Clone, Debug, Drop)]
pub struct About {
    /// The type that all its samples have.
    pub ty: PayloadType,
    /// How its samples are taken.
    pub method: Method,
    /// The number of elements of a waveform.
    pub count: Option<i32>,
    /// Names and values, as headers have them.
    pub headers: Pairs,
}
