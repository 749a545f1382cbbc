// Bytes written as a line without a newline (PB file format).
ghost use Rattle.std.specs.Prelude.{◌≡◌, ◌≢◌, ◌≤◌, ◌++◌, All, OnOk, OnErr, count_by, length, take};
ghost use Rattle.line_escape.specs.Escaping.{escaped, code_of, needs_pair};

use crate::unescaping::{ESCAPE, NEWLINE, RETURN};
use memchr::memchr3;
use std::alloc::AllocError;

/// How many bytes the escaped form has.
pub fn escaped_len(bytes: &[u8]) -> usize
    ensures { result ≡ length (escaped bytes.now) }
{
    bytes.len() + pair_count(bytes)
}

// How many bytes are written as pairs.
fn pair_count(bytes: &[u8]) -> usize
    ensures { result ≡ count_by needs_pair bytes.now }
{
    bytes
        .iter()
        .filter(|byte| **byte == ESCAPE || **byte == NEWLINE || **byte == RETURN)
        .count()
}

/// Appends the escaped form of the bytes, which has no newline. Where memory runs out, `out` stays.
pub fn escape(bytes: &[u8], out: &mut Vec<u8>) -> Result<(), AllocError>
    ensures ok { OnOk result (out.new.items ≡ out.old.items ++ escaped bytes.now) }
    ensures err { OnErr result (out.new.items ≡ out.old.items) }
{
    let before = out.len();
    let done = escape_runs(bytes, out);
    if done.is_err() {
        out.truncate(before);
    }
    done
}

// The same, but where memory runs out a part may stand behind the old bytes.
fn escape_runs(bytes: &[u8], out: &mut Vec<u8>) -> Result<(), AllocError>
    ensures ok { OnOk result (out.new.items ≡ out.old.items ++ escaped bytes.now) }
    ensures grows { take (length out.old.items) out.new.items ≡ out.old.items }
{
    let mut rest = bytes;
    while !rest.is_empty() {
        let (kept, others) = rest.split_at(kept_len(rest));
        out.extend_from_slice(kept)?;
        rest = others;
        if let Some((first, others)) = rest.split_first() {
            push_code(*first, out)?;
            rest = others;
        }
    }
    Ok(())
}

// How many bytes at the front are written as they are.
fn kept_len(bytes: &[u8]) -> usize
    ensures bound { result ≤ length bytes.now }
    ensures kept { All (λ x. (x ≢ 27) × (x ≢ 10) × (x ≢ 13)) (take result bytes.now) }
{
    memchr3(ESCAPE, NEWLINE, RETURN, bytes).unwrap_or(bytes.len())
}

fn push_code(byte: u8, out: &mut Vec<u8>) -> Result<(), AllocError>
    ensures ok { OnOk result (out.new.items ≡ out.old.items ++ code_of byte) }
    ensures err { OnErr result (out.new.items ≡ out.old.items) }
{
    match byte {
        ESCAPE => out.extend_from_slice(&[ESCAPE, 1]),
        NEWLINE => out.extend_from_slice(&[ESCAPE, 2]),
        RETURN => out.extend_from_slice(&[ESCAPE, 3]),
        _ => out.extend_from_slice(&[byte]),
    }
}
