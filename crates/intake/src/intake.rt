// What is held of all rows.
ghost use Rattle.std.specs.Prelude.{◌≡◌, ◌≢◌, ◌+◌, ◌≤◌, ◌<◌, ◌^◌, ◌↔◌, ◌++◌, ◌∷◌, [], ℕ, length, vec_len, OnOk, OnErr};
ghost use Rattle.std.specs.Prelude.{IfOk, Err};
ghost use Rattle.series_model.specs.Limits.{intake_room};
ghost use Rattle.series_model.specs.Series.{since};
ghost use Rattle.intake.specs.Tails.{tail_at, held_bytes, batch_of, KeepsSpares, KeepsTails, SetsTail};
ghost use Rattle.intake.specs.declared.intake.OfferErr.TheVariants.{IntakeFull, Memory};

use crate::tail::Tail;
use series_model::limits::INTAKE_ROOM;
use series_model::{Batch, LentSamples, Sample};
use std::alloc::{AllocError, Global};
use std::marker::Model;

/// Why a sample isn't held, in the order in which the reasons are tried.
#[derive(Clone, Copy, Debug, PartialEq, Eq)]
pub enum OfferErr {
    /// Its line and a newline are more than what is left of the room; `held` is how many bytes are held.
    IntakeFull { held: u64 },
    /// Memory ran out.
    Memory,
}

impl From<AllocError> for OfferErr {
    ghost from_gives = { λ _ e. e ≡ Memory };

    fn from(_: AllocError) -> Self {
        OfferErr::Memory
    }
}

/// The tails of all rows.
#[derive(Debug, Drop)]
pub struct Intake {
    alloc: Global,
    tails: Vec<Tail>,
    held: u64,
}

impl Model for Intake {
    ghost use Rattle.std.specs.Prelude.{List};
    ghost use Rattle.intake.specs.Tails.{TailState, IsIntake};

    ghost Value = { List TailState };

    ghost view = { λ i. i.tails.items };

    ghost invariant = { λ i. IsIntake i.tails.items i.held };
}

impl Intake {
    /// Nothing is held. It takes no memory.
    pub fn new(alloc: Global) -> Intake
        ensures { result ≡ [] }
    {
        Intake {
            alloc,
            tails: Vec::new(alloc),
            held: 0,
        }
    }

    /// How many bytes are held, each line counted with its newline.
    pub fn held(&self) -> u64
        ensures value { result ≡ held_bytes self.now }
        ensures most { result ≤ intake_room }
    {
        self.held
    }

    /// The samples of a row that are held, in the order in which they were offered.
    pub fn tail(&self, row: u32) -> &[Sample]
        ensures { result.now ≡ (tail_at self.now row).samples }
    {
        match self.tails.get(row as usize) {
            Some(tail) => tail.samples(),
            None => &[],
        }
    }

    /// Takes memory for so many more samples of a row. What is held stays, also where memory runs out.
    pub fn reserve(&mut self, row: u32, lines: usize) -> Result<(), AllocError>
        ensures spare { OnOk result (lines ≤ (tail_at self.new row).spare) }
        ensures tails { KeepsTails self.old self.new }
        ensures spares { KeepsSpares self.old self.new }
    {
        add_rows(&mut self.tails, self.alloc, row)?;
        self.tails[row as usize].reserve(lines)
    }

    /// Holds a sample, at the end of its row's tail. It is later than the tail, as far as the caller sees to it.
    ///
    /// It takes no memory where the row has a spare.
    pub fn offer(&mut self, row: u32, sample: Sample) -> Result<(), OfferErr>
        ensures held { OnOk result (SetsTail row ((tail_at self.old row).samples ++ sample ∷ []) self.old self.new) }
        ensures spare { (tail_at self.old row).spare ≤ (tail_at self.new row).spare + 1 }
        ensures spares { (other : ℕ) → other ≢ row → (tail_at self.old other).spare ≤ (tail_at self.new other).spare }

        ensures full { (held : ℕ) → (result ≡ Err (IntakeFull held))
            ↔ ((held ≡ held_bytes self.old) × (intake_room < held_bytes self.old + (length sample.line + 1))) }
        ensures memory { result ≡ Err Memory → (tail_at self.old row).spare ≡ 0 }
        ensures tails { OnErr result (KeepsTails self.old self.new) }
        ensures kept { OnErr result (KeepsSpares self.old self.new) }
    {
        let bytes = sample.line.bytes().len() as u64 + 1;
        if bytes > INTAKE_ROOM - self.held {
            return Err(OfferErr::IntakeFull { held: self.held });
        }
        add_rows(&mut self.tails, self.alloc, row)?;
        self.tails[row as usize].push(sample)?;
        self.held += bytes;
        Ok(())
    }

    /// Gives up the samples of a row that are not later than `t`. It takes no memory, and each of the row's
    /// samples is looked at once.
    pub fn trim(&mut self, row: u32, t: u64)
        ensures tail { SetsTail row (since (t + 1) (tail_at self.old row).samples) self.old self.new }
        ensures spares { KeepsSpares self.old self.new }
    {
        let row = row as usize;
        if row < self.tails.len() {
            let given_up = self.tails[row].trim(t);
            self.held -= given_up;
        }
    }

    /// Whole tails, in the order of rows, until they have `limit` bytes; at least one, where any is
    /// held. No sample is copied.
    pub fn lend(&self, limit: u64) -> Result<Vec<LentSamples<'_>>, AllocError>
        ensures { IfOk result (λ lent. lent.items ≡ batch_of limit self.now) }
    {
        let limit = limit.max(1);
        let mut parts = Vec::new(self.alloc);
        let mut taken = 0;
        for (row, tail) in self.tails.iter().enumerate() {
            if limit <= taken {
                break;
            }
            let samples = tail.samples();
            if !samples.is_empty() {
                parts.push(LentSamples {
                    row: row as u32,
                    samples,
                })?;
                taken += tail.bytes();
            }
        }
        Ok(parts)
    }

    /// Copies of what [`lend`](Self::lend) lends.
    pub fn batch(&self, limit: u64) -> Result<Batch, AllocError>
        ensures { IfOk result (λ batch. batch ≡ batch_of limit self.now) }
    {
        let lent = self.lend(limit)?;
        Batch::copied(self.alloc, &lent)
    }
}

// Gives this row, and those before it, a tail.
fn add_rows(tails: &mut Vec<Tail>, alloc: Global, row: u32) -> Result<(), AllocError>
    requires { vec_len tails.old ≤ 2 ^ 32 }
    ensures there { OnOk result (row < vec_len tails.new) }
    ensures lacked { OnErr result (vec_len tails.old ≤ row) }
    ensures same { (other : ℕ) → tail_at tails.new.items other ≡ tail_at tails.old.items other }
    ensures held { held_bytes tails.new.items ≡ held_bytes tails.old.items }
    ensures few { vec_len tails.new ≤ 2 ^ 32 }
{
    for _row in tails.len()..row as usize + 1 {
        tails.push(Tail::new(alloc))?;
    }
    Ok(())
}
