// The names of the files of a journal with checkpoints.
ghost use Rattle.std.specs.Prelude.{◌≡◌, ◌<◌, ◌^◌, ◌++◌, IfOk};
ghost use Rattle.gate_journal.specs.Generations.{at_name, generation_name};

use disk_model::FileName;
use std::alloc::{AllocError, Global};

// The file that tells the current generation.
#[tactic(auto, unfolding(crate::specs::Generations::at_name))]
pub(crate) fn at_name(alloc: Global, name: &FileName) -> Result<FileName, AllocError>
    ensures { IfOk result (λ n. n ≡ at_name name.now) }
{
    longer(alloc, name, b".at")
}

// The file of a generation.
pub(crate) fn generation_name(
    alloc: Global,
    name: &FileName,
    generation: u64,
) -> Result<FileName, AllocError>
    ensures named { IfOk result (λ n. n ≡ generation_name name.now generation) }
    ensures small { generation < 2 ^ 64 }
{
    if generation == 0 {
        return name.copy(alloc);
    }
    let text = format!(in alloc; ".{generation}")?;
    longer(alloc, name, text.as_bytes())
}

// A name with more bytes behind its path.
fn longer(alloc: Global, name: &FileName, more: &[u8]) -> Result<FileName, AllocError>
    ensures { IfOk result (λ n. n ≡ (name.now.0, name.now.1 ++ more.now)) }
{
    let mut path = name.path.to_vec(alloc)?;
    path.extend_from_slice(more)?;
    Ok(FileName {
        store: name.store,
        path,
    })
}
