// The batches of a file, folded to rows, one after another.
ghost use Rattle.std.specs.Prelude.{◌≡◌, ◌≢◌, List, [], OnOk, IsErrOf};
ghost use Rattle.gate_journal.specs.FirstBad.{IsTakenIn};
ghost use Rattle.pv_catalog.specs.declared.row.Row.{Row};
ghost use Rattle.pv_catalog.specs.Rows.{IsBatch, IsCatalogue};

use crate::error::BatchErr;
use crate::reading::entry_of;
use crate::table::Table;
use gate_journal::BatchFold;
use std::alloc::{AllocError, Global};

/// The rows that the batches so far make, or the number of the first bad one.
#[derive(Drop)]
pub struct Folding {
    alloc: Global,
    pub table: Table,
    pub bad: Option<u64>,
}

impl Folding {
    pub fn new(alloc: Global) -> Folding
        ensures { IsTakenIn IsCatalogue [] result.table.rows result.bad }
    {
        Folding {
            alloc,
            table: Table::new(alloc),
            bad: None,
        }
    }
}

impl BatchFold for Folding {
    ghost took = { λ f batches. IsTakenIn IsCatalogue batches f.table.rows f.bad };

    fn take(&mut self, number: u64, batch: &[u8]) -> Result<(), AllocError> {
        if self.bad.is_some() {
            return Ok(());
        }
        match enter_batch(self.alloc, &mut self.table, batch) {
            Ok(()) => Ok(()),
            Err(BatchErr::Bad) => {
                self.bad = Some(number);
                Ok(())
            }
            Err(BatchErr::Memory) => Err(AllocError),
        }
    }
}

fn enter_batch(alloc: Global, table: &mut Table, batch: &[u8]) -> Result<(), BatchErr>
    ensures ok { OnOk result (IsBatch table.old.rows batch.now table.new.rows) }
    ensures bad { IsErrOf result BatchErr.Bad → (new : List Row) → IsBatch table.old.rows batch.now new → ⊥ }
{
    if batch.is_empty() {
        return Err(BatchErr::Bad);
    }
    let mut rest = batch;
    while rest.len() != 0 {
        let (entry, after) = entry_of(alloc, rest)?;
        table.enter(alloc, entry)?;
        rest = after;
    }
    Ok(())
}
