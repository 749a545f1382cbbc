// What a path tells of a file.
ghost use Rattle.std.specs.Prelude.{◌≡◌, ◌≤◌, ◌==◌, ◌↔◌, ℕ, List, IfOk, IfSome, IsTrue, Some, length};
ghost use Rattle.std.specs.List.{position};
ghost use Rattle.partition_names.specs.declared.part.Part.{Part as PartValue};
ghost use Rattle.partition_names.specs.Part.{IsPart};
ghost use Rattle.partition_names.specs.Path.{path_of};
ghost use Rattle.pv_name.specs.Key.{key_of};

use partition_names::{Granularity, Part, PartName, file_path, parse};
use pv_name::PvName;
use std::alloc::{AllocError, Global};

/// Where the key ends in a path, before its first colon, and the partition that it names behind that. It is `None` of a
/// path that isn't that of a variable's file of one of the granularity's partitions. It takes no memory.
pub fn part_in(granularity: Granularity, path: &[u8]) -> Option<(usize, Part)>
    ensures within { IfSome result (λ r. (r.0 ≤ length path.now) × IsPart granularity r.1) }
    ensures only { (name : List ℕ) (part : PartValue) → IsPart granularity part → path_of name part.name ≡ path.now
        → result ≡ Some (length (key_of name), part) }
{
    let end = first_colon(path)?;
    if path.len() < end + 4 {
        return None;
    }
    let part = parse(granularity, &path[end + 1..path.len() - 3])?;
    Some((end, part))
}

// Where the first colon stands.
fn first_colon(path: &[u8]) -> Option<usize>
    ensures { result ≡ position (λ b. b == 58) path.now }
{
    path.iter().position(|byte| *byte == b':')
}

/// Tells whether this is the path of the file of a variable and a partition. It builds that path, which wants memory.
pub fn has_path(
    alloc: Global,
    name: &PvName,
    part: &PartName,
    path: &[u8],
) -> Result<bool, AllocError>
    ensures { IfOk result (λ b. IsTrue b ↔ (path_of name.now part.now ≡ path.now)) }
{
    let mut own = Vec::new(alloc);
    file_path(name, part, &mut own)?;
    Ok(own.as_slice() == path)
}
