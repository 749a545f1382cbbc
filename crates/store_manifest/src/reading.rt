// Little-endian numbers and the changes of a batch, read from the front of bytes.
ghost use Rattle.std.specs.Prelude.{◌≡◌, ◌++◌, ◌∷◌, ◌+◌, ◌^◌, ◌<◌, ◌≤◌, ℕ, List, length, IfSome, IfNone};
ghost use Rattle.std.specs.Int.{to_le_bytes, w32, w64};
ghost use Rattle.partition_names.specs.declared.part.Part.{Part};
ghost use Rattle.partition_names.specs.Part.{IsPart};
ghost use Rattle.store_manifest.specs.declared.entry.Change.{Change};
ghost use Rattle.store_manifest.specs.Batches.{encoded};
ghost use Rattle.store_manifest.specs.Reading.{IsFront};

use crate::{Change, Entry};
use partition_names::{Granularity, Part, part_of};

// The four bytes at the front as a number, and the bytes behind them.
fn read_u32(bytes: &[u8]) -> (u32, &[u8])
    requires { 4 ≤ length bytes.now }
    ensures split { bytes.now ≡ to_le_bytes w32 result.0 ++ result.1.now }
    ensures rest { length bytes.now ≡ 4 + length result.1.now }
    ensures fits { result.0 < 2 ^ 32 }
{
    let number = u32::from_le_bytes([bytes[0], bytes[1], bytes[2], bytes[3]]);
    (number, &bytes[4..])
}

// The eight bytes at the front as a number, and the bytes behind them.
fn read_u64(bytes: &[u8]) -> (u64, &[u8])
    requires { 8 ≤ length bytes.now }
    ensures split { bytes.now ≡ to_le_bytes w64 result.0 ++ result.1.now }
    ensures rest { length bytes.now ≡ 8 + length result.1.now }
    ensures fits { result.0 < 2 ^ 64 }
{
    let number = u64::from_le_bytes([
        bytes[0], bytes[1], bytes[2], bytes[3], bytes[4], bytes[5], bytes[6], bytes[7],
    ]);
    (number, &bytes[8..])
}

// The partition that begins at this moment.
fn part_at(g: Granularity, start: u64) -> Option<Part>
    ensures part { IfSome result (λ part. IsPart g part × (part.start ≡ start)) }
    ensures none { IfNone result ((part : Part) → IsPart g part → part.start ≡ start → ⊥) }
{
    let part = part_of(g, start)?;
    if part.start != start {
        return None;
    }
    Some(part)
}

// The change at the front of these bytes, and the bytes behind it.
pub(crate) fn read_change(g: Granularity, bytes: &[u8]) -> Option<(Change, &[u8])>
    ensures found { IfSome result (λ r. IsFront g bytes.now r.0 r.1.now) }
    ensures none { IfNone result ((change : Change) (rest : List ℕ) → IsFront g bytes.now change rest → ⊥) }
{
    match bytes {
        [2, members @ ..] => read_set(g, members),
        [3, members @ ..] => read_drop(g, members),
        _ => None,
    }
}

// The entry whose members stand at the front, behind the kind of a change that sets it.
fn read_set(g: Granularity, bytes: &[u8]) -> Option<(Change, &[u8])>
    ensures found { IfSome result (λ r. IsFront g (2 ∷ bytes.now) r.0 r.1.now) }
    ensures none { IfNone result ((change : Change) (rest : List ℕ) → IsFront g (2 ∷ bytes.now) change rest → ⊥) }
{
    if bytes.len() < 48 {
        return None;
    }
    let (series, bytes) = read_u32(bytes);
    let (start, bytes) = read_u64(bytes);
    let (len, bytes) = read_u64(bytes);
    let (head_len, bytes) = read_u32(bytes);
    let (first, bytes) = read_u64(bytes);
    let (last, bytes) = read_u64(bytes);
    let (count, rest) = read_u64(bytes);
    let part = part_at(g, start)?;
    let entry = Entry {
        series,
        part,
        len,
        head_len,
        first,
        last,
        count,
    };
    Some((Change::Set(entry), rest))
}

// The series and the start that stand at the front, behind the kind of a change that drops an entry.
fn read_drop(g: Granularity, bytes: &[u8]) -> Option<(Change, &[u8])>
    ensures found { IfSome result (λ r. IsFront g (3 ∷ bytes.now) r.0 r.1.now) }
    ensures none { IfNone result ((change : Change) (rest : List ℕ) → IsFront g (3 ∷ bytes.now) change rest → ⊥) }
{
    if bytes.len() < 12 {
        return None;
    }
    let (series, bytes) = read_u32(bytes);
    let (start, rest) = read_u64(bytes);
    Some((Change::Drop { series, start }, rest))
}
