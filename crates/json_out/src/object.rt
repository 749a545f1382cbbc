// The JSON texts of pairs of a name and a value.
ghost use Rattle.std.specs.Prelude.{◌≡◌, ◌∷◌, ◌++◌, OnOk};
ghost use Rattle.json_out.specs.Objects.{member_text, object_text};

use crate::value::put_string;
use series_model::Blob;
use std::alloc::{AllocError, Global};
use std::collections::BTreeSet;

/// Appends an object of the pair of this name and value and then the others, of each name the first pair alone.
pub(crate) fn put_object<'a>(
    alloc: Global,
    name: &'a [u8],
    val: &[u8],
    others: &'a [(Blob, Blob)],
    out: &mut Vec<u8>,
) -> Result<(), AllocError>
    ensures { OnOk result (out.new.items ≡ out.old.items ++ object_text ((name.now, val.now) ∷ others.now)) }
{
    let mut told = BTreeSet::new(alloc);
    told.insert(name)?;
    out.extend_from_slice(b"{")?;
    put_member(alloc, name, val, out)?;
    for pair in others {
        if told.insert(pair.0.bytes())? {
            out.extend_from_slice(b",")?;
            put_member(alloc, pair.0.bytes(), pair.1.bytes(), out)?;
        }
    }
    out.extend_from_slice(b"}")
}

fn put_member(alloc: Global, name: &[u8], val: &[u8], out: &mut Vec<u8>) -> Result<(), AllocError>
    ensures { OnOk result (out.new.items ≡ out.old.items ++ member_text (name.now, val.now)) }
{
    put_string(alloc, name, out)?;
    out.extend_from_slice(b":")?;
    put_string(alloc, val, out)
}
