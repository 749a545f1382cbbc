// The bytes of changes.
ghost use Rattle.std.specs.Prelude.{◌≡◌, ◌++◌, ◌∷◌, OnOk, All, ◌<◌};
ghost use Rattle.std.specs.Int.{to_le_bytes, w32, w64};
ghost use Rattle.store_manifest.specs.declared.entry.Change.TheVariants.{Set, Drop};
ghost use Rattle.store_manifest.specs.Batches.{members_of, encoded, batch_of};
ghost use Rattle.store_manifest.specs.Numbers.{IsSized, HasSizes};

use crate::{Change, Entry};
use std::alloc::AllocError;

const SET: u8 = 2;

const DROP: u8 = 3;

// A batch of these changes, in place of what the vector had.
pub(crate) fn encode(out: &mut Vec<u8>, changes: &[Change]) -> Result<(), AllocError>
    ensures bytes { OnOk result (out.new.items ≡ batch_of changes.now) }
    ensures sizes { OnOk result (All HasSizes changes.now) }
{
    out.clear();
    for change in changes {
        put(out, change)?;
    }
    Ok(())
}

fn put(out: &mut Vec<u8>, change: &Change) -> Result<(), AllocError>
    ensures bytes { OnOk result (out.new.items ≡ out.old.items ++ encoded change.now) }
    ensures sizes { OnOk result (HasSizes change.now) }
{
    match change {
        Change::Set(entry) => put_set(out, entry),
        Change::Drop { series, start } => {
            out.push(DROP)?;
            put_place(out, *series, *start)
        }
    }
}

// An entry that is set.
pub(crate) fn put_set(out: &mut Vec<u8>, entry: &Entry) -> Result<(), AllocError>
    ensures bytes { OnOk result (out.new.items ≡ out.old.items ++ encoded (Change.Set entry.now)) }
    ensures sizes { OnOk result (IsSized entry.now) }
{
    out.push(SET)?;
    put_members(out, entry)
}

fn put_place(out: &mut Vec<u8>, series: u32, start: u64) -> Result<(), AllocError>
    ensures { OnOk result (out.new.items ≡ out.old.items ++ (to_le_bytes w32 series ++ to_le_bytes w64 start)) }
{
    out.extend_from_slice(&series.to_le_bytes())?;
    out.extend_from_slice(&start.to_le_bytes())?;
    Ok(())
}

fn put_samples(out: &mut Vec<u8>, first: u64, last: u64, count: u64) -> Result<(), AllocError>
    ensures { OnOk result
        (out.new.items ≡ out.old.items ++ (to_le_bytes w64 first ++ (to_le_bytes w64 last ++ to_le_bytes w64 count))) }
{
    out.extend_from_slice(&first.to_le_bytes())?;
    out.extend_from_slice(&last.to_le_bytes())?;
    out.extend_from_slice(&count.to_le_bytes())?;
    Ok(())
}

fn put_members(out: &mut Vec<u8>, entry: &Entry) -> Result<(), AllocError>
    ensures bytes { OnOk result (out.new.items ≡ out.old.items ++ members_of entry.now) }
    ensures sizes { OnOk result (IsSized entry.now) }
{
    put_place(out, entry.series, entry.part.start)?;
    out.extend_from_slice(&entry.len.to_le_bytes())?;
    out.extend_from_slice(&entry.head_len.to_le_bytes())?;
    put_samples(out, entry.first, entry.last, entry.count)?;
    Ok(())
}
