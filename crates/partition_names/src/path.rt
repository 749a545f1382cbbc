//! The paths of files.
ghost use Rattle.std.specs.Prelude.{◌≡◌, ℕ, List, ◌++◌, OnOk, OnErr};
ghost use Rattle.partition_names.specs.Path.{path_of};

use crate::name::PartName;
use pv_name::{PvName, key_path};
use std::alloc::AllocError;

/// Appends the path of a variable's file of one partition, below the folder of a store: the
/// variable's key, a colon, the partition's name and `.pb`. After an error `out` is as before.
pub fn file_path(name: &PvName, part: &PartName, out: &mut Vec<u8>) -> Result<(), AllocError>
    ensures ok { OnOk result (out.new.items ≡ out.old.items ++ path_of name.now part.now) }
    ensures err { OnErr result (out.new.items ≡ out.old.items) }
{
    let before = out.len();
    let written = write_path(name, part, out);
    if written.is_err() {
        out.truncate(before);
    }
    written
}

fn write_path(name: &PvName, part: &PartName, out: &mut Vec<u8>) -> Result<(), AllocError>
    ensures ok { OnOk result (out.new.items ≡ out.old.items ++ path_of name.now part.now) }
    ensures err { OnErr result ((more : List ℕ) × (out.new.items ≡ out.old.items ++ more)) }
{
    key_path(name, out)?;
    out.push(b':')?;
    out.extend_from_slice(part.bytes())?;
    out.extend_from_slice(b".pb")
}
