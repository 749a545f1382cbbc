// The first batch of a checkpoint: the granularity, and each entry set, in the order of series and start.
ghost use Rattle.std.specs.Prelude.{◌≡◌, ◌↔◌, ◌+◌, ◌-◌, ◌*◌, ◌^◌, min, length, OnOk, IsTrue};
ghost use Rattle.store_manifest.specs.Batches.{whole};
ghost use Rattle.store_manifest.specs.Manifest.{IsLong};

use crate::AllEntries;
use crate::writing::put_set;
use gate_journal::GREATEST_BATCH;
use partition_names::Granularity;
use std::alloc::AllocError;

const CONFIG: u8 = 1;

// How many bytes the granularity takes, and each entry that is set.
const CONFIG_LEN: u64 = 2;

const SET_LEN: u64 = 49;

// A journal that is shorter isn't long for any entries.
const LEAST_LIMIT: u64 = 1_048_576;

// How many bytes the batch has; the greatest number stands for more.
fn whole_len(entries: AllEntries<'_>) -> u64
    ensures { result ≡ min (2 + 49 * length entries.entry) (2 ^ 64 - 1) }
{
    let mut len = CONFIG_LEN;
    'entries: for _entry in entries {
        len = len.saturating_add(SET_LEN);
    }
    len
}

// Whether so many bytes of a journal are many for its entries.
pub(crate) fn is_long(len: u64, entries: AllEntries<'_>) -> bool
    ensures { IsTrue result ↔ IsLong len (2 + 49 * length entries.entry) }
{
    if len < LEAST_LIMIT {
        return false;
    }
    let whole = whole_len(entries);
    whole <= GREATEST_BATCH as u64 && whole * 4 <= len
}

// The batch, in place of what the vector had.
pub(crate) fn encode_whole(
    out: &mut Vec<u8>,
    g: Granularity,
    entries: AllEntries<'_>,
) -> Result<(), AllocError>
    ensures { OnOk result (out.new.items ≡ whole g entries.entry) }
{
    out.clear();
    out.push(CONFIG)?;
    out.push(g.number())?;
    'entries: for entry in entries {
        put_set(out, entry)?;
    }
    Ok(())
}
