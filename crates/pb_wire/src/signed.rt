// The zigzag numbers of `sint32` (Protocol Buffers encoding).
ghost use Rattle.std.specs.Prelude.{◌≡◌};
ghost use Rattle.pb_wire.specs.Signed.{zigzag_of, unzigzag_of};

/// The number by which a `sint32` is written: 0, -1, 1 and -2 are 0, 1, 2 and 3.
pub fn zigzag(v: i32) -> u32
    ensures { result ≡ zigzag_of v }
{
    if v >= 0 {
        2 * v as u32
    } else {
        2 * (-(v + 1)) as u32 + 1
    }
}

/// The `sint32` that is written by this number.
pub fn unzigzag(v: u32) -> i32
    ensures { result ≡ unzigzag_of v }
{
    let half = (v / 2) as i32;
    if v % 2 == 0 { half } else { -half - 1 }
}
