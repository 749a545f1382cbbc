// A count of samples, told as a sample.
ghost use Rattle.std.specs.Prelude.{◌≡◌, ◌≤◌, ◌<◌, IfOk};
ghost use Rattle.arch_time.specs.YearTime.{start, end};
ghost use Rattle.sample_bins.specs.Counts.{count_event, counted, nearest_moment, most_counted};

use arch_time::{END, START, split};
use line_escape::escape;
use pb_messages::{Event, PayloadType, Value, encode};
use series_model::Pairs;
use std::alloc::{AllocError, Global};

/// The nearest moment at which a sample may stand.
pub(crate) fn nearest_moment(t: u64) -> u64
    ensures { result ≡ nearest_moment t }
{
    t.min(END - 1).max(START)
}

/// The line of a count at a moment.
pub(crate) fn count_line(alloc: Global, t: u64, count: u32) -> Result<Vec<u8>, AllocError>
    requires from { start ≤ t }
    requires before { t < end }
    requires small { count ≤ most_counted }
    ensures { IfOk result (λ line. line.items ≡ (counted t count).line) }
{
    let event = count_event(alloc, t, count);
    let mut message = Vec::new(alloc);
    encode(PayloadType::ScalarInt, &event, &mut message)?;
    let mut line = Vec::new(alloc);
    escape(&message, &mut line)?;
    Ok(line)
}

fn count_event(alloc: Global, t: u64, count: u32) -> Event
    requires from { start ≤ t }
    requires before { t < end }
    requires small { count ≤ most_counted }
    ensures { result ≡ count_event t count }
{
    let Some(at) = split(t) else {
        unreachable!();
    };
    Event {
        secs: at.secs,
        nano: at.nano,
        val: Value::Int(count as i32),
        severity: 0,
        status: 0,
        repeat: None,
        fields: Pairs::from(Vec::new(alloc)),
        actual_change: None,
    }
}
