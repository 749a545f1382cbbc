//! Lists of acts, by anyone.
ghost use Rattle.std.specs.List.{AllByRecursion};
ghost use Rattle.std.specs.Prelude.{◌≡◌, map, IfOk, IsErr};
ghost use Rattle.act_model.specs.Machine.{Machine};
ghost use Rattle.act_model.specs.Reply.{reply_of};
ghost use Rattle.act_model.specs.Step.{MayAsk};
ghost use Rattle.archive_core.specs.Parts.{parts};
ghost use Rattle.archive_core.specs.Running.{MakesAll};
ghost use Rattle.archive_core.specs.Stands.{Stands};

use crate::Archive;
use act_model::{Act, Answer};
use disk_model::Disk;
use std::alloc::AllocError;

/// Makes these acts one after another, each for the actor of its number, and gives their answers in the same
/// order. From whatever the archive stood for they run in the machine; and each image that a crash at any
/// moment since the first may leave has of each variable what was durable before the first, and no more than
/// what is accepted after the last.
///
/// Room for the answers is made first. Where memory is wanting for that, no act is made.
pub fn run_acts<D: Disk>(
    archive: &mut Archive<D>,
    acts: Vec<(u64, Act)>,
) -> Result<Vec<Answer<D::Reader>>, AllocError>
    requires stands { (m : Machine) × Stands D.tells (parts D.Disk archive.old) m }
    requires may_ask { AllByRecursion (λ asked. MayAsk asked.1) acts.items }
    ensures made { IfOk result (λ answers. MakesAll D.tells (parts D.Disk archive.old) acts.items
        (map (reply_of D.Reader.tells D.Reader.bytes D.Reader.faults) answers.items) (parts D.Disk archive.new)) }
    ensures unchanged { IsErr result → archive.new ≡ archive.old }
{
    let mut answers = Vec::with_capacity(archive.alloc, acts.len())?;
    'acts: for (who, act) in acts {
        answers.push_reserved(archive.apply(who, act));
    }
    Ok(answers)
}
