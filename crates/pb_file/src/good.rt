// The front of a partition's file up to the first line that fails.
ghost use Rattle.std.specs.Prelude.{◌≡◌, ◌≤◌, ◌<◌, IsTrue, Err, IfOk, IfErr, length, take};
ghost use Rattle.disk_model.specs.Files.{Rose};
ghost use Rattle.pb_file.specs.GoodFront.{IsGoodFront, HasNoFront, IsShapedAs, IsMadeOf, LacksFront};

use crate::check::{Tally, is_inside, with_moment};
use crate::steps::Steps;
use crate::walk::{FileWalk, Walked};
use disk_model::ReadAt;
use partition_names::Part;
use pb_messages::PayloadInfo;
use std::alloc::Global;
use std::marker::Brand;
use std::sync::ledger::{Blank, Ledger};

/// What the good lines at the front of a partition's file have: the header's and those of at least one sample.
#[derive(Debug, Drop)]
pub struct Front {
    /// What the header says.
    pub info: PayloadInfo,
    /// How many bytes the header's line takes, with its newline.
    pub head_len: u32,
    /// How many bytes all these lines take, with their newlines.
    pub len: u64,
    /// How many samples there are, at least one.
    pub count: u64,
    /// The moment of the first sample, in nanoseconds since 1970.
    pub first: u64,
    /// The moment of the last sample, in nanoseconds since 1970.
    pub last: u64,
}

/// Why a file gives no front.
#[derive(Clone, Copy, Debug, PartialEq, Eq)]
pub enum FrontErr {
    /// A read of the file failed.
    ReadFault,
    /// The file doesn't begin with a header's line and a sample of the partition, or the header's line with its newline
    /// has 4,294,967,296 bytes or more.
    NoFront,
    /// Memory ran out.
    Memory,
}

/// Gives the longest front of the first `len` bytes of a partition's file that ends behind a line and is itself such a
/// file: a header's line and at least one sample, all in the partition, each later than the one before.
///
/// The file is read once, up to the first line that fails. Memory is taken for one line at a time.
pub fn good_front<H: ReadAt>(
    alloc: Global,
    file: &mut H,
    part: &Part,
    len: u64,
) -> Result<Front, FrontErr>
    requires file { IsTrue H.tells → len ≤ length (H.bytes file.old) }
    ensures front { IsTrue H.tells → IfOk result (IsGoodFront part.now (take len (H.bytes file.old))) }
    ensures none { IsTrue H.tells → result ≡ Err FrontErr.NoFront → HasNoFront part.now (take len (H.bytes file.old)) }
    ensures shape { IfOk result (IsShapedAs part.now len) }
    ensures same { IsTrue H.tells → H.bytes file.new ≡ H.bytes file.old }
    ensures leaves { H.leaves file.old file.new }
    ensures faults { H.faults file.old ≤ H.faults file.new }
    ensures cause { result ≡ Err FrontErr.ReadFault → Rose (H.faults file.old) (H.faults file.new) }
{
    read_front::<H, Brand>(alloc, file, part, len, Blank::new(1))
}

// Reads the good lines at the front, line by line. The count of lines is dropped.
fn read_front<H: ReadAt, L: Ledger>(
    alloc: Global,
    file: &mut H,
    part: &Part,
    len: u64,
    blank: Blank,
) -> Result<Front, FrontErr>
    requires name { blank.name ≡ L.name }
    requires parts { blank.parts ≡ L.parts }
    requires some { 0 < blank.parts }
    requires file { IsTrue H.tells → len ≤ length (H.bytes file.old) }
    ensures front { IsTrue H.tells → IfOk result (IsGoodFront part.now (take len (H.bytes file.old))) }
    ensures none { IsTrue H.tells → result ≡ Err FrontErr.NoFront → HasNoFront part.now (take len (H.bytes file.old)) }
    ensures shape { IfOk result (IsShapedAs part.now len) }
    ensures same { IsTrue H.tells → H.bytes file.new ≡ H.bytes file.old }
    ensures leaves { H.leaves file.old file.new }
    ensures faults { H.faults file.old ≤ H.faults file.new }
    ensures cause { result ≡ Err FrontErr.ReadFault → Rose (H.faults file.old) (H.faults file.new) }
{
    let mut steps = Steps::<L>::new(blank);
    let mut walk = FileWalk::new(alloc, len);
    let mut line = Vec::new(alloc);
    let mut head_len = 0;
    let mut tally = Tally {
        count: 0,
        first: 0,
        last: 0,
    };
    'lines: loop {
        let at = walk.place();
        match walk.next(file, &mut line, &mut steps) {
            Walked::Header => head_len = walk.place(),
            Walked::Sample { t } => {
                if is_inside(part, t) {
                    tally = with_moment(tally, t);
                } else {
                    return front_of(walk.into_info(), head_len, at, tally);
                }
            }
            Walked::End => return front_of(walk.into_info(), head_len, at, tally),
            Walked::Damaged { .. } => return front_of(walk.into_info(), head_len, at, tally),
            Walked::ReadFault => return Err(FrontErr::ReadFault),
            Walked::Memory => return Err(FrontErr::Memory),
        }
    }
}

// The front of these many bytes, where it has a header and a sample and its header's line isn't too long.
fn front_of(
    info: Option<PayloadInfo>,
    head_len: u64,
    len: u64,
    tally: Tally,
) -> Result<Front, FrontErr>
    ensures ok { IfOk result (IsMadeOf info head_len len tally) }
    ensures err { IfErr result (λ e. (e ≡ FrontErr.NoFront) × LacksFront info head_len tally) }
{
    let (Some(info), Ok(head_len)) = (info, u32::try_from(head_len)) else {
        return Err(FrontErr::NoFront);
    };
    if tally.count == 0 {
        return Err(FrontErr::NoFront);
    }
    Ok(Front {
        info,
        head_len,
        len,
        count: tally.count,
        first: tally.first,
        last: tally.last,
    })
}
