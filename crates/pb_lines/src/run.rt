// Samples of a chunk whose lines stand one behind another in memory.
ghost use Rattle.std.specs.Prelude.{◌≡◌, ◌≢◌, ◌≤◌, ◌<◌, All, IfSome, IsTrue};
ghost use Rattle.line_escape.specs.Unescaping.{HasNoNewline};
ghost use Rattle.pb_lines.specs.Sample.{IsSampleLine};
ghost use Rattle.pb_lines.specs.Run.{IsRunLine, IsRun};

use crate::sample::{moment_of_line, moment_of_plain_line};
use arch_time::YearStart;
use edge_io::{MAX_LINE, line_end};
use pb_messages::PayloadType;

// A line in which it doesn't stand means its own bytes.
const ESCAPE: u8 = 0x1b;

/// Samples whose lines stand one behind another, each later than the one before it.
#[derive(Clone, Copy, Debug, PartialEq, Eq)]
pub struct Run {
    /// How many bytes their lines have, newlines and all.
    pub len: usize,
    /// How many they are, at least one.
    pub count: u64,
    /// The moment of the last of them, in nanoseconds since 1970.
    pub t: u64,
    /// How many bytes the last one's line has before its newline.
    pub last: usize,
}

// The samples at the front of the bytes, of which the first is later than `after` and none later than
// `to`, up to the first line that is none, or that memory runs out for.
pub(crate) fn run_of(
    ty: PayloadType,
    year: &YearStart,
    bytes: &[u8],
    after: u64,
    to: u64,
    work: &mut Vec<u8>,
) -> Option<Run>
    requires { after ≤ to }
    ensures { IfSome result (IsRun ty year.now.year after to bytes.now) }
{
    let mut rest = bytes;
    let mut run = Run {
        len: 0,
        count: 0,
        t: after,
        last: 0,
    };
    while let Some((end, plain)) = line_end(rest, ESCAPE) {
        let (line, behind) = rest.split_at(end);
        let Some(t) = moment_in_run(ty, year, line, plain, work) else {
            return some_run(run);
        };
        if t <= run.t || t > to {
            return some_run(run);
        }
        let (_, others) = behind.split_at(1);
        rest = others;
        run = Run {
            len: run.len + end + 1,
            count: run.count + 1,
            t,
            last: end,
        };
    }
    some_run(run)
}

// A run that has samples.
#[inline(always)]
fn some_run(run: Run) -> Option<Run>
    ensures { IfSome result (λ some. (some ≡ run) × (0 < run.count)) }
{
    if run.count == 0 { None } else { Some(run) }
}

// The moment of a sample's line, where it isn't longer than a line may be.
#[inline(always)]
fn moment_in_run(
    ty: PayloadType,
    year: &YearStart,
    line: &[u8],
    plain: bool,
    work: &mut Vec<u8>,
) -> Option<u64>
    requires whole { HasNoNewline line.now }
    requires plain { IsTrue plain → All (λ x. x ≢ 27) line.now }
    ensures { IfSome result (λ t. IsRunLine ty year.now.year (record { t = t; line = line.now })) }
{
    if line.is_empty() || line.len() > MAX_LINE {
        return None;
    }
    if plain {
        return moment_of_plain_line(ty, year, line);
    }
    escaped_moment(ty, year, line, work)
}

// The moment of a line in which 1B may stand.
#[inline(never)]
fn escaped_moment(ty: PayloadType, year: &YearStart, line: &[u8], work: &mut Vec<u8>) -> Option<u64>
    requires { HasNoNewline line.now }
    ensures { IfSome result (IsSampleLine ty year.now.year line.now) }
{
    match moment_of_line(ty, year, line, work) {
        Ok(t) => Some(t),
        Err(_) => None,
    }
}
