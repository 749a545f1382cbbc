// The names of the files that running moves have written to, which a sweep spares.
ghost use Rattle.std.specs.Prelude.{◌≡◌, ◌++◌, ◌<◌, ℕ, map, All, IfOk, OnOk, Some, length};
ghost use Rattle.etl_mover.specs.Move.{Moving};
ghost use Rattle.moves.specs.Table.{at};
ghost use Rattle.moves.specs.declared.table.Running.{Running as RunningValue};
ghost use Rattle.archive_core.specs.Written.{AreWritten, IsListable, written_name};

use disk_model::FileName;
use durable_write::file_name;
use etl_mover::Move;
use moves::Running;
use pv_catalog::Row;
use std::alloc::{AllocError, Global};

// Adds the names of the files that a move is to list in the next store.
fn add_names(
    alloc: Global,
    rows: &[Row],
    running: &Running<Move>,
    names: &mut Vec<FileName>,
) -> Result<(), AllocError>
    requires listable { IsListable rows.now running.now }
    ensures { OnOk result
        (names.new.items ≡ names.old.items ++ map (written_name rows.now running.now) running.now.moving.pending) }
{
    let store = running.store + 1;
    for entry in running.moving.pending() {
        names.push(file_name(alloc, store, rows, entry)?)?;
    }
    Ok(())
}

// Those of all moves of a table.
pub(crate) fn written_names(
    alloc: Global,
    rows: &[Row],
    slots: &[Option<Running<Move>>],
) -> Result<Vec<FileName>, AllocError>
    requires listable { (n : ℕ) (running : RunningValue Moving) → at slots.now n ≡ Some running
        → IsListable rows.now running }
    ensures { IfOk result (λ names. AreWritten rows.now slots.now names.items) }
{
    let mut names = Vec::new(alloc);
    for slot in slots {
        if let Some(running) = slot {
            add_names(alloc, rows, running, &mut names)?;
        }
    }
    Ok(names)
}
