// The rows of a variable that was renamed, from its first name on.
ghost use Rattle.std.specs.Prelude.{◌≡◌, IfOk};
ghost use Rattle.pv_catalog.specs.Lines.{line};
ghost use Rattle.pv_catalog.specs.Rows.{AreRows};

use crate::{Catalogue, Row};
use std::alloc::{AllocError, Global};

impl Catalogue {
    /// The ids of a row's line: the first name's row, then each over the one before, this row last. Empty where no row
    /// has this id. `Err` only for want of memory.
    pub fn line(&self, alloc: Global, id: u32) -> Result<Vec<u32>, AllocError>
        ensures { IfOk result (λ ids. ids.items ≡ line self.now.rows id) }
    {
        line_of(alloc, self.rows(), id)
    }
}

// From the row down its bases, and then the other way round.
fn line_of(alloc: Global, rows: &[Row], id: u32) -> Result<Vec<u32>, AllocError>
    requires { AreRows rows.now }
    ensures { IfOk result (λ ids. ids.items ≡ line rows.now id) }
{
    let mut ids = Vec::new(alloc);
    let mut next = Some(id);
    while let Some(id) = next {
        let Some(row) = rows.get(id as usize) else {
            break;
        };
        ids.push(id)?;
        next = row.base;
    }
    ids.reverse();
    Ok(ids)
}
