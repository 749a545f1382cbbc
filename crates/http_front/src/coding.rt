// Chunks, and writes that go on where an earlier one stopped.
ghost use Rattle.std.specs.Prelude.{◌≡◌, ◌+◌, ◌-◌, min, ◌<◌, ◌≤◌, ◌++◌, [], length, take, drop, OnOk, OnErr, false};
ghost use Rattle.std.specs.Fmt.{digits};
ghost use Rattle.std.specs.Char.{digit_char};
ghost use Rattle.arrayvec.specs.ArrayVec.{array_vec_len};
ghost use Rattle.edge_io.specs.Stream.{Rose};
ghost use Rattle.http_front.specs.Chunks.{chunk_of, rest_chunk, last_chunk, chunk_len};
ghost use Rattle.http_front.specs.Sends.{Sends};

use arrayvec::ArrayVec;
use edge_io::{Failed, Sink};

/// The bytes of a chunk that is full.
pub const CHUNK: usize = 8_192;

/// The most bytes of a full chunk's coding and the last chunk: four digits, twice CR LF, and five bytes.
pub const CODED: usize = 8_205;

/// Writes the bytes from a place on, and moves the place as far as they went out.
pub fn send<K: Sink>(link: &mut K, bytes: &[u8], from: &mut usize) -> Result<(), Failed>
    requires { from.old ≤ length bytes.now }
    ensures within { from.new ≤ length bytes.now }
    ensures sent { Sends (K.written link.old) (K.written link.new) (drop from.old bytes.now) (drop from.new bytes.now) }
    ensures all { OnOk result (from.new ≡ length bytes.now) }
    ensures faults { K.write_faults link.old ≤ K.write_faults link.new }
    ensures failed { OnErr result (Rose (K.write_faults link.old) (K.write_faults link.new)) }
{
    while *from < bytes.len() {
        *from += link.write(&bytes[*from..])?;
    }
    Ok(())
}

/// Puts a chunk of these bytes into the room, which is empty.
pub fn put_chunk(room: &mut ArrayVec<u8, CODED>, bytes: &[u8])
    requires empty { room.old.items ≡ [] }
    requires bound { length bytes.now ≤ chunk_len }
    ensures chunk { room.new.items ≡ chunk_of bytes.now }
    ensures len { array_vec_len room.new ≤ chunk_len + 8 }
{
    let (digits, unused) = hexadecimal(bytes.len() as u16);
    put(room, &digits[unused..]);
    put(room, b"\r\n");
    put(room, bytes);
    put(room, b"\r\n");
}

/// Puts a chunk of these bytes, if there are some, and the last chunk into the room, which is empty.
pub fn put_end(room: &mut ArrayVec<u8, CODED>, bytes: &[u8])
    requires empty { room.old.items ≡ [] }
    requires bound { length bytes.now ≤ chunk_len }
    ensures { room.new.items ≡ rest_chunk bytes.now ++ last_chunk }
{
    put_rest(room, bytes);
    put(room, b"0\r\n\r\n");
}

// Puts a chunk of these bytes, if there are some, into the room, which is empty.
fn put_rest(room: &mut ArrayVec<u8, CODED>, bytes: &[u8])
    requires empty { room.old.items ≡ [] }
    requires bound { length bytes.now ≤ chunk_len }
    ensures chunk { room.new.items ≡ rest_chunk bytes.now }
    ensures len { array_vec_len room.new ≤ chunk_len + 8 }
{
    if !bytes.is_empty() {
        put_chunk(room, bytes);
    }
}

/// Puts bytes behind those in the room.
pub fn put(room: &mut ArrayVec<u8, CODED>, bytes: &[u8])
    requires { array_vec_len room.old + length bytes.now ≤ CODED }
    ensures items { room.new.items ≡ room.old.items ++ bytes.now }
    ensures len { array_vec_len room.new ≡ array_vec_len room.old + length bytes.now }
{
    let Ok(()) = room.try_extend_from_slice(bytes) else {
        unreachable!();
    };
}

// The four hexadecimal digits of a number, and how many zeros lead, of which 0 has three.
fn hexadecimal(number: u16) -> ([u8; 4], usize)
    ensures zeros { result.1 < 4 }
    ensures digits { drop result.1 result.0 ≡ digits 16 false number }
{
    let digits = [
        digit(number / 4096),
        digit(number / 256 % 16),
        digit(number / 16 % 16),
        digit(number % 16),
    ];
    if number < 16 {
        return (digits, 3);
    }
    if number < 256 {
        return (digits, 2);
    }
    if number < 4096 {
        return (digits, 1);
    }
    (digits, 0)
}

fn digit(number: u16) -> u8
    requires { number < 16 }
    ensures { result ≡ digit_char number }
{
    if number < 10 {
        b'0' + number as u8
    } else {
        b'a' + (number as u8 - 10)
    }
}

/// Takes as many of the bytes as there is room for, and answers how many.
pub fn gather(held: &mut ArrayVec<u8, CHUNK>, bytes: &[u8]) -> usize
    requires room { array_vec_len held.old < chunk_len }
    requires some { 0 < length bytes.now }
    ensures least { 0 < result }
    ensures within { result ≤ length bytes.now }
    ensures count { result ≡ min (length bytes.now) (chunk_len - array_vec_len held.old) }
    ensures items { held.new.items ≡ held.old.items ++ take result bytes.now }
{
    let count = bytes.len().min(CHUNK - held.len());
    let Ok(()) = held.try_extend_from_slice(&bytes[..count]) else {
        unreachable!();
    };
    count
}
