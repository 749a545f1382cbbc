// Whether a file is a variable's file of a partition.
ghost use Rattle.std.specs.Prelude.{◌≡◌, None, Err, IfErr, IfOk, IfSome, IsTrue};
ghost use Rattle.disk_model.specs.Files.{Rose};
ghost use Rattle.disk_model.specs.declared.disk.DiskErr.TheVariants.{Fault, Memory};
ghost use Rattle.found_files.specs.declared.finding.Candidate.{Candidate as Value};
ghost use Rattle.found_files.specs.Candidate.{IsCandidate, IsNamed, IsShapedOf};
ghost use Rattle.partition_names.specs.Path.{path_of};
ghost use Rattle.pv_name.specs.Name.{IsName};
ghost use Rattle.found_files.specs.Reading.{OnlyReads};

use crate::path::{has_path, part_in};
use crate::reading::front_of;
use disk_model::{Disk, DiskErr, FileName};
use partition_names::{Granularity, Part};
use pb_file::Front;
use pv_name::{NameErr, PvName};
use std::alloc::Global;

/// A variable's file of a partition, as far as it is good.
#[derive(Drop)]
pub struct Candidate {
    /// The variable.
    pub name: PvName,
    pub part: Part,
    pub front: Front,
    /// Whether the file has bytes past its front.
    pub cut: bool,
}

/// Tells the candidate that a file is in a store of this granularity, or `None` where it is none: where its path isn't
/// that of a name and of one of the granularity's partitions, where it has no front for that partition, or where the
/// name in its header is no name or has another path. The disk is only read, and no file is opened.
///
/// `Fault` comes only where the disk's count of faults rose in the call.
pub fn find_candidate<D: Disk>(
    alloc: Global,
    disk: &mut D,
    granularity: Granularity,
    file: &FileName,
) -> Result<Option<Candidate>, DiskErr>
    ensures found { IsTrue D.tells → IfOk result (λ r. IfSome r (IsCandidate granularity (D.files disk.old) file.now)) }
    ensures none { IsTrue D.tells
        → IfOk result (λ r. r ≡ None → (c : Value) → IsCandidate granularity (D.files disk.old) file.now c → ⊥) }
    ensures shape { IfOk result (λ r. IfSome r (IsShapedOf granularity file.now)) }
    ensures read { OnlyReads D.Disk disk.old disk.new }
    ensures cause { result ≡ Err Fault → Rose (D.faults disk.old) (D.faults disk.new) }
{
    let Some((_, part)) = part_in(granularity, file.path.as_slice()) else {
        return Ok(None);
    };
    let Some(len) = disk.size(file)? else {
        return Ok(None);
    };
    match front_of(alloc, disk, file, &part, len)? {
        Some(front) => named(alloc, file, part, front, len),
        None => Ok(None),
    }
}

// The candidate of this front of a file of `len` bytes, where the name in its header has the file's path.
fn named(
    alloc: Global,
    file: &FileName,
    part: Part,
    front: Front,
    len: u64,
) -> Result<Option<Candidate>, DiskErr>
    ensures found { IfOk result (λ r. IfSome r (IsNamed file.now part front len)) }
    ensures none { IfOk result (λ r.
        r ≡ None → IsName front.info.name → path_of front.info.name part.name ≡ file.now.1 → ⊥) }
    ensures memory { IfErr result (λ e. e ≡ Memory) }
{
    let name = match PvName::new(alloc, front.info.name.bytes()) {
        Ok(name) => name,
        Err(NameErr::BadName { .. }) => return Ok(None),
        Err(NameErr::Memory) => return Err(DiskErr::Memory),
    };
    if !has_path(alloc, &name, &part.name, file.path.as_slice())? {
        return Ok(None);
    }
    let cut = front.len < len;
    Ok(Some(Candidate {
        name,
        part,
        front,
        cut,
    }))
}
