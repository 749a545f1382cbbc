//! Reading a request from a source.
ghost use Rattle.std.specs.Prelude.{◌≡◌, ◌≢◌, ◌⊎◌, ◌+◌, ◌<◌, ◌≤◌, length, take, true, false, IfOk, IfSome, IfNone};
ghost use Rattle.std.specs.Prelude.{OnErr, IsErrOf};
ghost use Rattle.edge_io.specs.Stream.{Rose};
ghost use Rattle.http_front.specs.Reading.{Judges, HasRead, TookHead, AnswersHead, Waits, ReadsBehind, GoesOn};
ghost use Rattle.http_front.specs.Reading.{NoHeadYet, most_bytes};
ghost use Rattle.http_front.specs.declared.reading.Due.TheVariants.{Nothing, Look, End, Limit};

use crate::call::answer_of;
use crate::head::{HeadSeen, look};
use crate::request::{HttpErr, Request};
use edge_io::{Failed, Source};
use httparse::spans::{EMPTY_HEADER_SPAN, HeaderSpan};
use std::alloc::Global;

/// The most bytes that are taken of a source.
pub const MOST_BYTES: usize = 16_384;

// The most header fields that a head of so many bytes has, and more.
pub(crate) const MOST_FIELDS: usize = 8_192;

// What makes a parse due, if anything does.
#[derive(Clone, Copy)]
enum Due {
    Nothing,
    Look,
    End,
    Limit,
}

/// Reads one request, and takes at most 16,384 bytes.
///
/// The bytes are parsed after the first read, after each that brought a newline, after the one that found the end, and
/// where no more are taken. So nothing is read once a whole head was; and what can't become a head is refused at once
/// where its first bytes tell, or with the next newline. `SourceFault` comes only where the source's count of failed
/// reads rose, and before a whole head was read. `Memory` comes before anything was read, or where a whole head was.
pub fn read_request<S: Source>(alloc: Global, source: &mut S) -> Result<Request, HttpErr>
    ensures read { HasRead (S.left source.old) (S.left source.new) result }
    ensures memory { IsErrOf result HttpErr.Memory
        → (source.new ≡ source.old) ⊎ TookHead (S.left source.old) (S.left source.new) }
    ensures faults { S.read_faults source.old ≤ S.read_faults source.new }
    ensures failed { IsErrOf result HttpErr.SourceFault → Rose (S.read_faults source.old) (S.read_faults source.new) }
    ensures beside { S.beside source.new ≡ S.beside source.old }
{
    let Ok(mut fields) = vec![in alloc; EMPTY_HEADER_SPAN; MOST_FIELDS] else {
        return Err(HttpErr::Memory);
    };
    let Ok(mut bytes) = vec![in alloc; 0; MOST_BYTES] else {
        return Err(HttpErr::Memory);
    };
    read_into(alloc, source, bytes.as_mut_slice(), fields.as_mut_slice())
}

// Reads one request by way of these bytes and places for fields.
fn read_into<S: Source>(
    alloc: Global,
    source: &mut S,
    bytes: &mut [u8],
    fields: &mut [HeaderSpan],
) -> Result<Request, HttpErr>
    requires bytes { length bytes.old ≡ most_bytes }
    requires room { MOST_FIELDS ≤ length fields.old }
    ensures read { HasRead (S.left source.old) (S.left source.new) result }
    ensures memory { IsErrOf result HttpErr.Memory → TookHead (S.left source.old) (S.left source.new) }
    ensures faults { S.read_faults source.old ≤ S.read_faults source.new }
    ensures failed { IsErrOf result HttpErr.SourceFault → Rose (S.read_faults source.old) (S.read_faults source.new) }
    ensures beside { S.beside source.new ≡ S.beside source.old }
{
    let mut len = 0;
    'reads: loop {
        let Ok(more) = read_behind(bytes, len, source) else {
            return Err(HttpErr::SourceFault);
        };
        let is_first = len == 0;
        let is_line = bytes[len..len + more].contains(&b'\n');
        len += more;
        let due = due_after(more, len, is_first, is_line);
        match judge(alloc, &bytes[..len], fields, due) {
            Some(answer) => return answer,
            None => {}
        }
    }
}

// What a read makes due that gave so many bytes, of so many in all, as the first or not, with a newline or not.
fn due_after(more: usize, len: usize, is_first: bool, is_line: bool) -> Due
    ensures nothing { result ≡ Nothing → (is_line ≡ false) × (0 < more) × (len ≢ most_bytes) }
    ensures look { result ≡ Look → (0 < more) × (len ≢ most_bytes) }
    ensures end { result ≡ End → more ≡ 0 }
    ensures limit { result ≡ Limit → (0 < more) × (len ≡ most_bytes) }
{
    if more == 0 {
        return Due::End;
    }
    if len == MOST_BYTES {
        return Due::Limit;
    }
    if is_first || is_line {
        return Due::Look;
    }
    Due::Nothing
}

// What the bytes that were taken are answered, if it is known.
fn judge(
    alloc: Global,
    taken: &[u8],
    fields: &mut [HeaderSpan],
    due: Due,
) -> Option<Result<Request, HttpErr>>
    requires room { MOST_FIELDS ≤ length fields.old }
    requires short { length taken.now ≤ most_bytes }
    requires limit { due ≡ Limit → length taken.now ≡ most_bytes }
    ensures some { IfSome result (Judges taken.now (due ≡ End)) }
    ensures unfailed { IfSome result (λ answer. IsErrOf answer HttpErr.SourceFault → ⊥) }
    ensures memory { IfSome result (λ answer. IsErrOf answer HttpErr.Memory → AnswersHead taken.now answer) }
    ensures none { IfNone result (GoesOn due taken.now) }
{
    if let Due::Nothing = due {
        return None;
    }
    match look(taken, fields) {
        HeadSeen::Head {
            method,
            target,
            minor,
        } => Some(answer_of(alloc, method.of(taken), target.of(taken), minor)),
        HeadSeen::Bad => Some(Err(HttpErr::BadHead)),
        HeadSeen::More => more_or_none(due),
    }
}

// What bytes without a head are answered, if no more come.
fn more_or_none(due: Due) -> Option<Result<Request, HttpErr>>
    ensures some { IfSome result (NoHeadYet due) }
    ensures none { IfNone result ((due ≡ Nothing) ⊎ (due ≡ Look)) }
{
    match due {
        Due::Nothing | Due::Look => None,
        Due::End => Some(Err(HttpErr::BadHead)),
        Due::Limit => Some(Err(HttpErr::HeadTooLong)),
    }
}

// Reads behind the first bytes, which want more, and answers how many more there are.
fn read_behind<S: Source>(bytes: &mut [u8], len: usize, source: &mut S) -> Result<usize, Failed>
    requires room { len < length bytes.old }
    requires waits { Waits (take len bytes.old) }
    ensures bound { IfOk result (λ more. len + more ≤ length bytes.old) }
    ensures read { ReadsBehind bytes.old bytes.new len (S.left source.old) (S.left source.new) result }
    ensures faults { S.read_faults source.old ≤ S.read_faults source.new }
    ensures failed { OnErr result (Rose (S.read_faults source.old) (S.read_faults source.new)) }
    ensures beside { S.beside source.new ≡ S.beside source.old }
{
    source.read(&mut bytes[len..])
}
