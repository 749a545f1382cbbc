// What a drill tells: a line for each variable, and one of the stores' files.
ghost use Rattle.std.specs.Prelude.{◌≡◌, ◌<◌, IfOk};
ghost use Rattle.drill_feed.specs.Report.{IsReport, IsTally, IsVariableLine, tiers_text};
ghost use Rattle.drill_feed.specs.Workload.{samples};

use crate::drill::{Drill, START, VARIABLES, name_of};
use crate::tiers::Tiers;
use arch_time::{END, NANOS_PER_SECOND, print_iso};
use itoa::Buffer;
use std::alloc::{AllocError, Global};

/// How many samples were found of a variable, and the moments of the first and the last, in nanoseconds since 1970.
#[derive(Clone, Copy, Debug, PartialEq, Eq)]
pub struct Tally {
    pub count: u64,
    pub first: u64,
    pub last: u64,
}

impl Drill {
    /// What is to be found of a variable: all its samples.
    pub fn tally(self, variable: u32) -> Tally
        requires { variable < VARIABLES }
        ensures tally { IsTally (samples self.hours variable) result }
        ensures first { result.first < END }
        ensures last { result.last < END }
    {
        let count = u64::from(self.minutes());
        let first = START + u64::from(variable) * NANOS_PER_SECOND;
        Tally {
            count,
            first,
            last: first + (count - 1) * 60 * NANOS_PER_SECOND,
        }
    }

    /// The text of a drill in which the archive holds all that was sent, and all moves that are due were made.
    pub fn report(self, alloc: Global) -> Result<Vec<u8>, AllocError>
        ensures { IfOk result (λ text. IsReport self.hours text.items) }
    {
        let mut text = Vec::new(alloc);
        for variable in 0..VARIABLES {
            let line = variable_line(alloc, name_of(variable), self.tally(variable))?;
            text.extend_from_slice(&line)?;
        }
        text.extend_from_slice(&tiers_line(alloc, self.tiers())?)?;
        Ok(text)
    }
}

/// The line of a variable, with its newline: `NAME COUNT FIRST LAST`.
pub fn variable_line(alloc: Global, name: &str, tally: Tally) -> Result<Vec<u8>, AllocError>
    requires first { tally.first < END }
    requires last { tally.last < END }
    ensures { IfOk result (λ line. IsVariableLine name.now tally line.items) }
{
    let mut digits = Buffer::new();
    let mut line = Vec::from_slice(alloc, name.as_bytes())?;
    line.extend_from_slice(b" ")?;
    line.extend_from_slice(digits.format(tally.count).as_bytes())?;
    line.extend_from_slice(b" ")?;
    print_iso(tally.first, &mut line)?;
    line.extend_from_slice(b" ")?;
    print_iso(tally.last, &mut line)?;
    line.extend_from_slice(b"\n")?;
    Ok(line)
}

/// The line of the stores' files, with its newline: `tiers SHORT MEDIUM LONG`.
pub fn tiers_line(alloc: Global, tiers: Tiers) -> Result<Vec<u8>, AllocError>
    ensures { IfOk result (λ line. line.items ≡ tiers_text tiers) }
{
    let mut digits = Buffer::new();
    let mut line = Vec::from_slice(alloc, b"tiers ")?;
    line.extend_from_slice(digits.format(tiers.short).as_bytes())?;
    line.extend_from_slice(b" ")?;
    line.extend_from_slice(digits.format(tiers.medium).as_bytes())?;
    line.extend_from_slice(b" ")?;
    line.extend_from_slice(digits.format(tiers.long).as_bytes())?;
    line.extend_from_slice(b"\n")?;
    Ok(line)
}
