// What the batches tell of the file that has the generations.
ghost use Rattle.std.specs.Prelude.{◌≡◌, ◌+◌, ◌<◌, ◌^◌, ◌++◌, ◌∷◌, [], List, ℕ, ◌↔◌, IsTrue, OnOk, length, false};
ghost use Rattle.std.specs.Int.{to_le_bytes, w64};
ghost use Rattle.gate_journal.specs.Generations.{Tells};

use crate::BatchFold;
use std::alloc::AllocError;

// How many generations stand one behind another from 1 on, and whether a batch stands behind
// them that isn't the next one.
#[derive(Drop)]
pub(crate) struct Told {
    pub(crate) generation: u64,
    pub(crate) out_of_turn: bool,
}

impl BatchFold for Told {
    ghost took = { λ t batches. Tells t.out_of_turn t.generation batches };

    fn take(&mut self, _number: u64, batch: &[u8]) -> Result<(), AllocError> {
        if self.out_of_turn {
            return Ok(());
        }
        if !is_next(self.generation, batch) {
            self.out_of_turn = true;
            return Ok(());
        }
        self.generation += 1;
        Ok(())
    }
}

impl Told {
    // Of no batch.
    pub(crate) fn new() -> Told
        ensures { Tells result.out_of_turn result.generation [] }
    {
        Told {
            generation: 0,
            out_of_turn: false,
        }
    }
}

// Whether a batch is the generation behind this one.
fn is_next(generation: u64, batch: &[u8]) -> bool
    ensures { IsTrue result ↔ ((generation + 1 < 2 ^ 64) × (batch.now ≡ to_le_bytes w64 (generation + 1))) }
{
    match generation.checked_add(1) {
        Some(next) => batch == next.to_le_bytes().as_slice(),
        None => false,
    }
}
