// What is kept of a varint in a field of 32 bits, and how a negative number is written.
ghost use Rattle.std.specs.Prelude.{◌≡◌};
ghost use Rattle.pb_wire.specs.Numbers.{uint32_of, int32_of, sign_extended};

/// What a `uint32` keeps of a varint.
pub fn uint32_of(number: u64) -> u32
    ensures { result ≡ uint32_of number }
{
    (number % (1 << 32)) as u32
}

/// What an `int32` keeps of a varint.
pub fn int32_of(number: u64) -> i32
    ensures { result ≡ int32_of number }
{
    uint32_of(number).cast_signed()
}

/// The varint by which an `int32` is written: its sign fills 64 bits.
pub fn sign_extended(number: i32) -> u64
    ensures { result ≡ sign_extended number }
{
    i64::from(number).cast_unsigned()
}
