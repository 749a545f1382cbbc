// The key of a name: the path of its files, without the partition.
ghost use Rattle.std.specs.Prelude.{◌≡◌, ◌==◌, ◌++◌, ◌↔◌, IsTrue, OnOk, OnErr};
ghost use Rattle.std.specs.List.{list_all, zip};
ghost use Rattle.pv_name.specs.Key.{key_of, key_byte};

use crate::name::{PvName, is_separator};
use std::alloc::AllocError;

/// Appends the name's key, which is the path of its files: `:` and `-` turned into `/`. An `Err`
/// leaves `out` as before.
pub fn key_path(name: &PvName, out: &mut Vec<u8>) -> Result<(), AllocError>
    ensures ok { OnOk result (out.new.items ≡ out.old.items ++ key_of name.now) }
    ensures err { OnErr result (out.new.items ≡ out.old.items) }
{
    let bytes = name.bytes();
    out.reserve(bytes.len())?;
    for byte in bytes {
        out.push_reserved(key_byte(*byte));
    }
    Ok(())
}

/// Whether the two names have one key, so that their files would be the same.
pub fn same_key(a: &PvName, b: &PvName) -> bool
    ensures { IsTrue result ↔ (key_of a.now ≡ key_of b.now) }
{
    let (a, b) = (a.bytes(), b.bytes());
    a.len() == b.len() && all_same(a, b)
}

fn all_same(a: &[u8], b: &[u8]) -> bool
    ensures { result ≡ list_all (λ p. key_byte p.0 == key_byte p.1) (zip a.now b.now) }
{
    a.iter().zip(b).all(|(x, y)| key_byte(*x) == key_byte(*y))
}

fn key_byte(byte: u8) -> u8
    ensures { result ≡ key_byte byte }
{
    if is_separator(byte) { b'/' } else { byte }
}
