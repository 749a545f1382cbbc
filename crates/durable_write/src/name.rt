// The name of a listed file.
ghost use Rattle.std.specs.Prelude.{◌≡◌, ◌<◌, IfOk, length};
ghost use Rattle.durable_write.specs.Held.{file_of};

use crate::writing::set_name;
use disk_model::FileName;
use pv_catalog::Row;
use std::alloc::{AllocError, Global};
use store_manifest::Entry;

/// The name of the file of an entry of one of the rows: in the store, at the path of its row's name and its partition.
pub fn file_name(
    alloc: Global,
    store: u8,
    rows: &[Row],
    entry: &Entry,
) -> Result<FileName, AllocError>
    requires { entry.now.series < length rows.now }
    ensures { IfOk result (λ name. name ≡ file_of (store, rows.now) entry.now) }
{
    let mut name = FileName {
        store,
        path: Vec::new(alloc),
    };
    set_name(&mut name, store, rows, entry)?;
    Ok(name)
}
