// A drill of so many hours, its variables and its moments.
ghost use Rattle.std.specs.Prelude.{◌≡◌, ℕ, ◌<◌, ◌↔◌, [], pos, IfOk, IfSome, IsSome, None};
ghost use Rattle.std.specs.Int.{IsInRange};
ghost use Rattle.arch_time.specs.YearTime.{moment};
ghost use Rattle.pb_messages.specs.declared.about.Method.TheVariants.{Monitor};
ghost use Rattle.pb_wire.specs.declared.payload.PayloadType.TheVariants.{ScalarInt};
ghost use Rattle.drill_feed.specs.Workload.{minutes, name_text, now_of};

use arch_time::NANOS_PER_SECOND;
use pb_messages::{About, Method, PayloadType};
use series_model::Pairs;
use std::alloc::Global;

/// How many variables send samples. They are numbered from 0.
pub const VARIABLES: u32 = 4;

/// The most hours of a drill.
pub const MOST_HOURS: u32 = 200;

/// 2024-01-01T00:00:00Z, the moment of the first sample, in nanoseconds since 1970.
pub const START: u64 = 1_704_067_200 * NANOS_PER_SECOND;

// The nanoseconds of an hour.
const NANOS_PER_HOUR: u64 = 3_600 * NANOS_PER_SECOND;

/// A drill of so many hours.
#[derive(Clone, Copy, Debug)]
pub struct Drill {
    pub hours: u32,
    pub ghost hours_in: { IsInRange 1 200 hours },
}

impl Drill {
    /// The drill of so many hours, from 1 to 200.
    pub fn new(hours: u32) -> Option<Drill>
        ensures exact { IsSome result ↔ IsInRange 1 200 hours }
        ensures value { IfSome result (λ drill. drill.hours ≡ hours) }
    {
        if hours < 1 || hours > MOST_HOURS {
            return None;
        }
        Some(Drill { hours })
    }

    /// The moment that every clock tells: an hour behind the end of the last hour.
    pub fn now(self) -> u64
        ensures { result ≡ now_of self.hours }
    {
        START + u64::from(self.hours + 1) * NANOS_PER_HOUR
    }

    /// How many samples each variable sends: one a minute.
    pub fn minutes(self) -> u32
        ensures { result ≡ minutes self.hours }
    {
        60 * self.hours
    }
}

/// The name of a variable.
pub fn name_of(variable: u32) -> &'static str
    requires { variable < VARIABLES }
    ensures { result.now ≡ name_text variable }
{
    match variable {
        0 => "DRILL:V0",
        1 => "DRILL:V1",
        2 => "DRILL:V2",
        _ => "DRILL:V3",
    }
}

/// What is known of each variable beside its name: whole numbers of 32 bits, of which each is tried as it comes.
pub fn about(alloc: Global) -> About
    ensures { result ≡ record { ty = ScalarInt; method = Monitor; count = None; headers = [] } }
{
    About {
        ty: PayloadType::ScalarInt,
        method: Method::Monitor,
        count: None,
        headers: Pairs::from(Vec::new(alloc)),
    }
}
