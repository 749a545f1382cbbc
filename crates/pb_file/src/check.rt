// A partition's file read whole, and judged line by line.
ghost use Rattle.std.specs.Prelude.{◌≡◌, ◌≤◌, ◌<◌, ◌+◌, ◌-◌, ◌^◌, ◌↔◌, IsTrue, length, take};
ghost use Rattle.partition_names.specs.Part.{HoldsMoment};
ghost use Rattle.disk_model.specs.Files.{Rose};
ghost use Rattle.pb_file.specs.Verdict.{Says};

use crate::steps::Steps;
use crate::walk::{FileWalk, Walked};
use disk_model::ReadAt;
use partition_names::Part;
use std::alloc::Global;
use std::marker::Brand;
use std::sync::ledger::{Blank, Ledger};

/// What a check of a partition's file came to.
#[derive(Clone, Copy, Debug, PartialEq, Eq)]
pub enum Verdict {
    /// The file has so many samples, at least one, all in the partition, the first and the last at these moments.
    Good { count: u64, first: u64, last: u64 },
    /// The first line that fails begins at this place. Where the file has no sample and no bad
    /// line, it is the file's end.
    Damaged { at: u64 },
    /// A read of the file failed.
    ReadFault,
    /// Memory ran out.
    Memory,
}

// The samples so far: how many, and the first and the last moment, which count only where there are some.
#[derive(Clone, Copy)]
pub struct Tally {
    pub count: u64,
    pub first: u64,
    pub last: u64,
}

/// Checks the first `len` bytes of a partition's file, line by line.
pub fn check_file<H: ReadAt>(alloc: Global, file: &mut H, part: &Part, len: u64) -> Verdict
    requires file { IsTrue H.tells → len ≤ length (H.bytes file.old) }
    ensures verdict { IsTrue H.tells → Says part.now (take len (H.bytes file.old)) result }
    ensures same { IsTrue H.tells → H.bytes file.new ≡ H.bytes file.old }
    ensures faults { H.faults file.old ≤ H.faults file.new }
    ensures cause { result ≡ Verdict.ReadFault → Rose (H.faults file.old) (H.faults file.new) }
{
    check_lines::<H, Brand>(alloc, file, part, len, Blank::new(1))
}

// Checks a file line by line. The count of lines is dropped.
fn check_lines<H: ReadAt, L: Ledger>(
    alloc: Global,
    file: &mut H,
    part: &Part,
    len: u64,
    blank: Blank,
) -> Verdict
    requires name { blank.name ≡ L.name }
    requires parts { blank.parts ≡ L.parts }
    requires some { 0 < blank.parts }
    requires file { IsTrue H.tells → len ≤ length (H.bytes file.old) }
    ensures verdict { IsTrue H.tells → Says part.now (take len (H.bytes file.old)) result }
    ensures same { IsTrue H.tells → H.bytes file.new ≡ H.bytes file.old }
    ensures faults { H.faults file.old ≤ H.faults file.new }
    ensures cause { result ≡ Verdict.ReadFault → Rose (H.faults file.old) (H.faults file.new) }
{
    let mut steps = Steps::<L>::new(blank);
    let mut walk = FileWalk::new(alloc, len);
    let mut line = Vec::new(alloc);
    let mut tally = Tally {
        count: 0,
        first: 0,
        last: 0,
    };
    'lines: loop {
        let at = walk.place();
        match walk.next(file, &mut line, &mut steps) {
            Walked::Header => {}
            Walked::Sample { t } => {
                if is_inside(part, t) {
                    tally = with_moment(tally, t);
                } else {
                    return Verdict::Damaged { at };
                }
            }
            Walked::End => return at_end(tally, len),
            Walked::Damaged { at } => return Verdict::Damaged { at },
            Walked::ReadFault => return Verdict::ReadFault,
            Walked::Memory => return Verdict::Memory,
        }
    }
}

pub fn is_inside(part: &Part, t: u64) -> bool
    ensures { IsTrue result ↔ HoldsMoment part.now t }
{
    part.start <= t && t < part.end
}

pub fn with_moment(tally: Tally, t: u64) -> Tally
    requires { tally.count < 2 ^ 64 - 1 }
    ensures count { result.count ≡ tally.count + 1 }
    ensures begins { tally.count ≡ 0 → result.first ≡ t }
    ensures goes_on { 0 < tally.count → result.first ≡ tally.first }
    ensures ends { result.last ≡ t }
{
    Tally {
        count: tally.count + 1,
        first: if tally.count == 0 { t } else { tally.first },
        last: t,
    }
}

// What a file of these samples, which ends at this place, comes to.
fn at_end(tally: Tally, len: u64) -> Verdict
    ensures none { tally.count ≡ 0 → result ≡ Verdict.Damaged len }
    ensures some { 0 < tally.count → result ≡ Verdict.Good tally.count tally.first tally.last }
{
    if tally.count == 0 {
        return Verdict::Damaged { at: len };
    }
    Verdict::Good {
        count: tally.count,
        first: tally.first,
        last: tally.last,
    }
}
