// The moment of a sample's escaped line.
ghost use Rattle.std.specs.Prelude.{◌≡◌, ◌≢◌, All, IfSome, IfOk, IfErr};
ghost use Rattle.line_escape.specs.Unescaping.{HasNoNewline};
ghost use Rattle.pb_lines.specs.Sample.{IsSampleLine, IsStamp, IsLineErr, IsStampErr};

use crate::fault::{LineErr, LineFault};
use arch_time::{BadTime, YearStart, instant};
use line_escape::{EscapeErr, unescaped};
use pb_messages::{PayloadType, stamp};

/// The moment of a sample's line, in nanoseconds since 1970: the time of the event of type `ty`
/// that the escaped line means, in its header's year. The event is validated whole.
///
/// `line` has no newline. `work` is scratch space: what it held is lost, its room is kept.
pub fn sample_of(
    ty: PayloadType,
    year: i32,
    line: &[u8],
    work: &mut Vec<u8>,
) -> Result<u64, LineErr>
    requires { HasNoNewline line.now }
    ensures ok { IfOk result (IsSampleLine ty year line.now) }
    ensures err { IfErr result (IsLineErr ty year line.now) }
{
    let (secs, nano) = match stamp_of_line(ty, line, work) {
        Ok(at) => at,
        Err(err) => return Err(err),
    };
    match instant(year, secs, nano) {
        Ok(t) => Ok(t),
        Err(BadTime) => Err(LineErr::Fault(LineFault::Time)),
    }
}

/// The same as `sample_of`, of a year whose start is known: the year is looked up once, and not for
/// each line.
#[inline(always)]
pub fn moment_of_line(
    ty: PayloadType,
    year: &YearStart,
    line: &[u8],
    work: &mut Vec<u8>,
) -> Result<u64, LineErr>
    requires { HasNoNewline line.now }
    ensures ok { IfOk result (IsSampleLine ty year.now.year line.now) }
    ensures err { IfErr result (IsLineErr ty year.now.year line.now) }
{
    let (secs, nano) = match stamp_of_line(ty, line, work) {
        Ok(at) => at,
        Err(err) => return Err(err),
    };
    match year.at(secs, nano) {
        Ok(t) => Ok(t),
        Err(BadTime) => Err(LineErr::Fault(LineFault::Time)),
    }
}

// The same, of a line in which no 1B stands. `None` where it is no sample's.
#[inline(always)]
pub(crate) fn moment_of_plain_line(ty: PayloadType, year: &YearStart, line: &[u8]) -> Option<u64>
    requires whole { HasNoNewline line.now }
    requires plain { All (λ x. x ≢ 27) line.now }
    ensures { IfSome result (IsSampleLine ty year.now.year line.now) }
{
    let (secs, nano) = stamp_of_plain_line(ty, line)?;
    match year.at(secs, nano) {
        Ok(t) => Some(t),
        Err(BadTime) => None,
    }
}

// The second and nanosecond of the event that a line without 1B means, which is its own bytes.
#[inline(always)]
fn stamp_of_plain_line(ty: PayloadType, line: &[u8]) -> Option<(u32, u32)>
    requires whole { HasNoNewline line.now }
    requires plain { All (λ x. x ≢ 27) line.now }
    ensures { IfSome result (λ at. IsStamp ty line.now at.0 at.1) }
{
    match stamp(ty, line) {
        Ok(at) => Some(at),
        Err(_) => None,
    }
}

// The second and nanosecond of the event that the line means.
#[inline(always)]
fn stamp_of_line(ty: PayloadType, line: &[u8], work: &mut Vec<u8>) -> Result<(u32, u32), LineErr>
    requires { HasNoNewline line.now }
    ensures ok { IfOk result (λ at. IsStamp ty line.now at.0 at.1) }
    ensures err { IfErr result (IsStampErr ty line.now) }
{
    let message = match unescaped(line, work) {
        Ok(message) => message,
        Err(EscapeErr::BadEscape { at }) => return Err(LineErr::Fault(LineFault::Escape { at })),
        Err(EscapeErr::Memory) => return Err(LineErr::Memory),
    };
    match stamp(ty, message) {
        Ok(at) => Ok(at),
        Err(fault) => Err(LineErr::Fault(LineFault::Event(fault))),
    }
}
