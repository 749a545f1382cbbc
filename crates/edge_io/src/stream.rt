// What bytes are read from and written to, and writes of whole texts.
ghost use Rattle.std.specs.Prelude.{◌≡◌, ℕ, ◌+◌, ◌<◌, ◌≤◌, List, Option, ◌++◌, length, IfOk, OnOk, OnErr, None};
ghost use Rattle.std.specs.Io.KnownBytes.{Appends, ReadConsumes, WriteAppends};
ghost use Rattle.edge_io.specs.Stream.{Rose, AppendsFront, Direction, no_direction};

/// A read or a write failed.
#[derive(Clone, Copy, Debug, PartialEq, Eq)]
pub struct Failed;

/// What bytes are read from.
pub trait Source {
    // The bytes left, where the source tells them.
    ghost left: { Self → Option (List ℕ) };

    // How many reads have failed.
    ghost read_faults: { Self → ℕ };

    // The other direction, where there is one: a read leaves it as it is.
    ghost beside: { Self → Direction } = { λ _. no_direction };

    /// Puts bytes at the front of `buf` and answers how many. 0 is the end.
    ///
    /// `Failed` comes only where the count of failed reads rose, and takes no byte.
    fn read(&mut self, buf: &mut [u8]) -> Result<usize, Failed>
        requires { 0 < length buf.old }
        ensures bound { IfOk result (λ n. n ≤ length buf.new) }
        ensures bytes { ReadConsumes (left self.old) (left self.new) result buf.new }
        ensures faults { read_faults self.old ≤ read_faults self.new }
        ensures failed { OnErr result (Rose (read_faults self.old) (read_faults self.new)) }
        ensures beside { beside self.new ≡ beside self.old };
}

/// What bytes are written to.
pub trait Sink {
    // The bytes written so far, where the sink tells them.
    ghost written: { Self → Option (List ℕ) };

    // How many writes have failed.
    ghost write_faults: { Self → ℕ };

    // The other direction, where there is one: a write leaves it as it is.
    ghost beside: { Self → Direction } = { λ _. no_direction };

    /// Takes the first bytes of `bytes` and answers how many, at least one.
    ///
    /// `Failed` comes only where the count of failed writes rose, and writes no byte.
    fn write(&mut self, bytes: &[u8]) -> Result<usize, Failed>
        requires { 0 < length bytes.now }
        ensures least { IfOk result (λ n. 0 < n) }
        ensures bound { IfOk result (λ n. n ≤ length bytes.now) }
        ensures bytes { WriteAppends (written self.old) (written self.new) result bytes.now }
        ensures faults { write_faults self.old ≤ write_faults self.new }
        ensures failed { OnErr result (Rose (write_faults self.old) (write_faults self.new)) }
        ensures beside { beside self.new ≡ beside self.old };
}

/// Writes all the bytes, in as many writes as it takes. Takes no memory.
///
/// After `Failed` a front of the bytes went out; `Failed` comes only where the sink's count of
/// failed writes rose.
pub fn write_whole<K: Sink>(sink: &mut K, bytes: &[u8]) -> Result<(), Failed>
    ensures front { AppendsFront (K.written sink.old) (K.written sink.new) bytes.now }
    ensures all { OnOk result (Appends (K.written sink.old) (K.written sink.new) bytes.now) }
    ensures faults { K.write_faults sink.old ≤ K.write_faults sink.new }
    ensures failed { OnErr result (Rose (K.write_faults sink.old) (K.write_faults sink.new)) }
    ensures beside { K.beside sink.new ≡ K.beside sink.old }
{
    let mut at = 0;
    while at < bytes.len() {
        at += sink.write(&bytes[at..])?;
    }
    Ok(())
}

/// Writes all the bytes of both texts, the second behind the first, in as many writes as it takes.
/// Takes no memory.
///
/// After `Failed` a front of the two went out; `Failed` comes only where the sink's count of failed
/// writes rose.
#[tactic(auto, using(crate::proofs::Writes::one_behind_another))]
pub fn write_two<K: Sink>(sink: &mut K, first: &[u8], second: &[u8]) -> Result<(), Failed>
    ensures front { AppendsFront (K.written sink.old) (K.written sink.new) (first.now ++ second.now) }
    ensures all { OnOk result (Appends (K.written sink.old) (K.written sink.new) (first.now ++ second.now)) }
    ensures faults { K.write_faults sink.old ≤ K.write_faults sink.new }
    ensures failed { OnErr result (Rose (K.write_faults sink.old) (K.write_faults sink.new)) }
    ensures beside { K.beside sink.new ≡ K.beside sink.old }
{
    write_whole(sink, first)?;
    write_whole(sink, second)
}
