// The numbers of an adoption.
ghost use Rattle.std.specs.Prelude.{◌≡◌, ℕ, List};
ghost use Rattle.store_reopen.specs.Listing.{turns_of};
ghost use Rattle.store_reopen.specs.Turns.{Adds, AreNumbers, all_taken};

use crate::adopted::Adopted;
use crate::finding::TakenFile;

// The numbers of an adoption of so many new rows and so many files that weren't listed, of which the turns took these.
pub(crate) fn numbers(rows: usize, unlisted: usize, turns: &[Vec<TakenFile>]) -> Adopted
    ensures { AreNumbers rows unlisted (all_taken (turns_of turns.now)) result }
{
    let mut told = Adopted {
        files: 0,
        samples: 0,
        rows: rows as u64,
        skipped: 0,
        cut: 0,
    };
    for taken in turns {
        told = add(told, taken.as_slice());
    }
    told.skipped = (unlisted as u64).saturating_sub(told.files);
    told
}

// The numbers with those of files more.
fn add(told: Adopted, taken: &[TakenFile]) -> Adopted
    ensures { Adds told taken.now result }
{
    let mut told = told;
    for one in taken {
        told.files = told.files.saturating_add(1);
        told.samples = told.samples.saturating_add(one.candidate.front.count);
        if one.candidate.cut {
            told.cut = told.cut.saturating_add(1);
        }
    }
    told
}
