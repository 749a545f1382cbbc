// The bytes that an escaped line means (PB file format), or its first bad escape.
ghost use Rattle.std.specs.Prelude.{◌≡◌, ◌≢◌, ◌<◌, ◌≤◌, All, IfSome, IfNone, IfOk, IfErr, IsTrue, OnOk, OnErr, length};
ghost use Rattle.std.specs.Prelude.{take, slice_index};
ghost use Rattle.line_escape.specs.Unescaping.{AppendsMeaning, BeginsBadEscape, BeginsPair, HasNoNewline, IsRefusal};
ghost use Rattle.line_escape.specs.Unescaping.{Means};

use crate::EscapeErr;
use memchr::memchr;

pub(crate) const ESCAPE: u8 = 0x1b;

pub(crate) const NEWLINE: u8 = 0x0a;

pub(crate) const RETURN: u8 = 0x0d;

/// How many bytes stand before the first newline: all of them where there is none.
pub fn line_len(bytes: &[u8]) -> usize
    ensures bound { result ≤ length bytes.now }
    ensures line { HasNoNewline (take result bytes.now) }
    ensures stop { result < length bytes.now → slice_index bytes.now result ≡ 10 }
{
    memchr(NEWLINE, bytes).unwrap_or(bytes.len())
}

/// Appends the bytes that the line means. `line` has no newline.
///
/// `BadEscape` comes exactly where the line means nothing, at its first bad 1B. After a refusal
/// `out` is as before.
#[inline(never)]
pub fn unescape(line: &[u8], out: &mut Vec<u8>) -> Result<(), EscapeErr>
    requires { HasNoNewline line.now }
    ensures ok { OnOk result (AppendsMeaning line.now out.old.items out.new.items) }
    ensures refused { IfErr result (IsRefusal line.now) }
    ensures err { OnErr result (out.new.items ≡ out.old.items) }
{
    let before = out.len();
    let done = unescape_runs(line, out);
    if done.is_err() {
        out.truncate(before);
    }
    done
}

// The same, but after a refusal a part may stand behind the old bytes.
fn unescape_runs(line: &[u8], out: &mut Vec<u8>) -> Result<(), EscapeErr>
    requires { HasNoNewline line.now }
    ensures ok { OnOk result (AppendsMeaning line.now out.old.items out.new.items) }
    ensures refused { IfErr result (IsRefusal line.now) }
    ensures grows { take (length out.old.items) out.new.items ≡ out.old.items }
{
    let mut rest = line;
    while !rest.is_empty() {
        let (plain, others) = rest.split_at(plain_len(rest));
        out.extend_from_slice(plain)?;
        rest = others;
        if !rest.is_empty() {
            let Some(byte) = pair_meaning(rest) else {
                let at = line.len() - rest.len();
                return Err(EscapeErr::BadEscape { at });
            };
            out.push(byte)?;
            rest = &rest[2..];
        }
    }
    Ok(())
}

/// The bytes that the line means: its own where no 1B stands in it, and else those in `work`, whose
/// old bytes are lost. `line` has no newline.
///
/// `BadEscape` comes exactly where the line means nothing, at its first bad 1B.
#[inline(always)]
pub fn unescaped<'a>(line: &'a [u8], work: &'a mut Vec<u8>) -> Result<&'a [u8], EscapeErr>
    requires { HasNoNewline line.now }
    ensures ok { IfOk result (λ message. Means line.now message.now) }
    ensures refused { IfErr result (IsRefusal line.now) }
{
    if is_plain(line) {
        return Ok(line);
    }
    work.clear();
    unescape(line, work)?;
    Ok(work)
}

// Whether no 1B stands in the line, so that it means its own bytes.
#[tactic(auto, using(crate::proofs::EscapingLemmas::plain_means))]
#[inline(always)]
fn is_plain(line: &[u8]) -> bool
    requires { HasNoNewline line.now }
    ensures { IsTrue result → Means line.now line.now }
{
    !line.contains(&ESCAPE)
}

// How many bytes stand before the first 1B.
fn plain_len(bytes: &[u8]) -> usize
    ensures bound { result ≤ length bytes.now }
    ensures plain { All (λ x. x ≢ 27) (take result bytes.now) }
    ensures stop { result < length bytes.now → slice_index bytes.now result ≡ 27 }
{
    memchr(ESCAPE, bytes).unwrap_or(bytes.len())
}

// The byte that the pair at the front stands for.
fn pair_meaning(bytes: &[u8]) -> Option<u8>
    requires escape { slice_index bytes.now 0 ≡ 27 }
    requires some { 0 < length bytes.now }
    ensures pair { IfSome result (BeginsPair bytes.now) }
    ensures none { IfNone result (BeginsBadEscape bytes.now) }
{
    match bytes.get(1) {
        Some(1) => Some(ESCAPE),
        Some(2) => Some(NEWLINE),
        Some(3) => Some(RETURN),
        _ => None,
    }
}
