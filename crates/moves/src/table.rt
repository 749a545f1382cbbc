// The moves by their numbers.
ghost use Rattle.std.specs.Prelude.{◌≡◌, ◌<◌, ◌≤◌, ◌==◌, length, ℕ, Some, None, IsSome, is_some, IfOk, OnOk, OnErr};
ghost use Rattle.std.specs.Prelude.{if◌then◌else◌};
ghost use Rattle.std.specs.BTreeMap.{get};
ghost use Rattle.std.specs.Ordering.{nat_cmp};
ghost use Rattle.moves.specs.Table.{at, told, IsOf};

use std::alloc::{AllocError, Global};
use std::collections::BTreeMap;

/// A move that runs, its series, and the store out of which it goes.
#[derive(Drop)]
pub struct Running<M: Drop> {
    /// The number of its series.
    pub series: u32,
    /// The number of the store.
    pub store: u8,
    /// The move.
    pub moving: M,
}

/// The moves that run, each at the place of its number.
#[derive(Drop)]
pub struct RunningMoves<M: Drop> {
    alloc: Global,
    slots: Vec<Option<Running<M>>>,
}

impl<M: Drop> RunningMoves<M> {
    /// None runs. It takes no memory.
    pub fn new(alloc: Global) -> RunningMoves<M>
        ensures { (k : ℕ) → at result.slots.items k ≡ None }
    {
        RunningMoves {
            alloc,
            slots: Vec::new(alloc),
        }
    }

    /// Takes in a move, and gives its number: the least that no move has.
    pub fn begin(&mut self, running: Running<M>) -> Result<u32, AllocError>
        ensures free { IfOk result (λ m. at self.old.slots.items m ≡ None) }
        ensures least { IfOk result (λ m. (k : ℕ) → k < m → IsSome (at self.old.slots.items k)) }
        ensures begun { IfOk result (λ m. (k : ℕ)
            → at self.new.slots.items k ≡ (if k == m then Some running else at self.old.slots.items k)) }
        ensures unchanged { OnErr result ((k : ℕ) → at self.new.slots.items k ≡ at self.old.slots.items k) }
    {
        let place = free_place(&self.slots);
        let number = u32::try_from(place).or(Err(AllocError))?;
        if place == self.slots.len() {
            self.slots.push(Some(running))?;
        } else {
            self.slots[place] = Some(running);
        }
        Ok(number)
    }

    /// Whether a move of this number runs.
    pub fn runs(&self, number: u32) -> bool
        ensures { result ≡ is_some (at self.now.slots.items number) }
    {
        match self.slots.get(number as usize) {
            Some(slot) => slot.is_some(),
            None => false,
        }
    }

    /// The move of this number, which runs no more.
    pub fn take(&mut self, number: u32) -> Option<Running<M>>
        ensures taken { result ≡ at self.old.slots.items number }
        ensures others { (k : ℕ)
            → at self.new.slots.items k ≡ (if k == number then None else at self.old.slots.items k) }
        ensures room { IsSome result → number < length self.new.slots.items }
    {
        let slot = self.slots.get_mut(number as usize)?;
        slot.take()
    }

    /// Puts a move that was taken back under its number. It needs no memory.
    pub fn put_back(&mut self, number: u32, running: Running<M>)
        requires { number < length self.old.slots.items }
        ensures { (k : ℕ)
            → at self.new.slots.items k ≡ (if k == number then Some running else at self.old.slots.items k) }
    {
        self.slots[number as usize] = Some(running);
    }

    /// The moves, each at the place of its number.
    pub fn slots(&self) -> &[Option<Running<M>>]
        ensures { result.now ≡ self.now.slots.items }
    {
        &self.slots
    }

    /// By its series the number of each move that runs; where moves of one series run, that of one of them.
    pub fn by_series(&self) -> Result<BTreeMap<u32, u32>, AllocError>
        ensures runs { IfOk result (λ by. (series number : ℕ) → get nat_cmp by series ≡ Some number
            → IsOf self.now.slots.items number series) }
        ensures all { IfOk result (λ by. (series number : ℕ) → IsOf self.now.slots.items number series
            → IsSome (get nat_cmp by series)) }
    {
        let mut by = BTreeMap::new(self.alloc);
        let mut number: u32 = 0;
        for slot in self.slots.as_slice() {
            tell(&mut by, slot, number)?;
            number = number.checked_add(1).ok_or(AllocError)?;
        }
        Ok(by)
    }
}

// The first place where no move is, or the one behind all.
fn free_place<M: Drop>(slots: &[Option<Running<M>>]) -> usize
    ensures free { at slots.now result ≡ None }
    ensures least { (k : ℕ) → k < result → IsSome (at slots.now k) }
    ensures within { result ≤ length slots.now }
{
    for (place, slot) in slots.iter().enumerate() {
        if slot.is_none() {
            return place;
        }
    }
    slots.len()
}

// Tells the number of a slot by the series of the move there, if there is one.
fn tell<M: Drop>(
    by: &mut BTreeMap<u32, u32>,
    slot: &Option<Running<M>>,
    number: u32,
) -> Result<(), AllocError>
    ensures { OnOk result
        ((series : ℕ) → get nat_cmp by.new series ≡ told slot.now number series (get nat_cmp by.old series)) }
{
    if let Some(running) = slot {
        by.insert(running.series, number)?;
    }
    Ok(())
}
