// The pins that stand, with their pieces.
ghost use Rattle.std.specs.Prelude.{◌≡◌, ◌<◌, ℕ, None, IsSome, OnOk, OnErr, IfOk, IfErr, Ok, Err};
ghost use Rattle.std.specs.Ordering.{nat_cmp};
ghost use Rattle.std.specs.FinMap as map;
ghost use Rattle.pins.specs.Pieces.{PinOf, Agree, asked};

use crate::piece::{OwnPieces, PinnedFile, files_of};
use crate::table::{PinErr, Pins};
use std::alloc::{AllocError, Global};
use std::collections::BTreeMap;
use std::marker::Model;

/// The pins that stand, by their numbers.
#[derive(Drop)]
pub struct PinnedPieces {
    alloc: Global,
    pins: Pins,
    pieces: BTreeMap<u32, OwnPieces>,
}

impl Model for PinnedPieces {
    ghost use Rattle.std.specs.Ordering.{nat_cmp};
    ghost use Rattle.std.specs.FinMap as map;
    ghost use Rattle.std.specs.Coded.{coded_ℕ};
    ghost use Rattle.pins.specs.Pieces.{PinOf, pin_code, Agree};

    ghost Value = { map.FinMap nat_cmp PinOf };

    ghost coded = { map.code coded_ℕ pin_code };

    ghost view = { λ p. map.from_entries p.pieces.entries };

    ghost invariant = { λ p. Agree p.pins (map.from_entries p.pieces.entries) };
}

impl PinnedPieces {
    /// No pin stands. It takes no memory.
    pub fn new(alloc: Global) -> PinnedPieces
        ensures { result ≡ map.empty }
    {
        PinnedPieces {
            alloc,
            pins: Pins::new(alloc),
            pieces: BTreeMap::new(alloc),
        }
    }

    /// The table of pins that names just the files of these pieces.
    pub fn pins(&self) -> &Pins
        ensures { Agree result.now self.now }
    {
        &self.pins
    }

    /// Pins these pieces for an owner, and gives the pin's number: the least that no pin has.
    pub fn pin(&mut self, owner: u64, pieces: Vec<PinnedFile>) -> Result<u32, AllocError>
        ensures free { IfOk result (λ pin. map.get self.old pin ≡ None) }
        ensures least { IfOk result (λ pin. (lower : ℕ) → lower < pin → IsSome (map.get self.old lower)) }
        ensures pinned { IfOk result (λ pin.
            self.new ≡ map.insert self.old pin (record { owner = owner; pieces = pieces.items })) }
        ensures unchanged { OnErr result (self.new ≡ self.old) }
    {
        let files = files_of(self.alloc, &pieces)?;
        let number = self.pins.pin(owner, &files)?;
        match self.pieces.insert(number, OwnPieces { owner, pieces }) {
            Ok(_) => Ok(number),
            Err(_) => {
                let _ = self.pins.drop_pin(owner, number);
                Err(AllocError)
            }
        }
    }

    /// The pieces of an owner's own pin. `NoPin` and `NotYours` come exactly where no pin has the number,
    /// and where it is another's.
    pub fn pieces(&self, owner: u64, pin: u32) -> Result<&[PinnedFile], PinErr>
        ensures found { IfOk result (λ pieces.
            asked owner (map.get self.now pin) ≡ Ok (record { owner = owner; pieces = pieces.now })) }
        ensures refused { IfErr result (λ e. asked owner (map.get self.now pin) ≡ Err e) }
    {
        let Some(found) = self.pieces.get(&pin) else {
            return Err(PinErr::NoPin);
        };
        if found.owner() != owner {
            return Err(PinErr::NotYours {
                owner: found.owner(),
            });
        }
        Ok(found.pieces())
    }

    /// Drops an owner's own pin. It is refused as `pieces` is.
    pub fn drop_pin(&mut self, owner: u64, pin: u32) -> Result<(), PinErr>
        ensures found { OnOk result ((p : PinOf) × (asked owner (map.get self.old pin) ≡ Ok p)) }
        ensures refused { IfErr result (λ e. asked owner (map.get self.old pin) ≡ Err e) }
        ensures after { OnOk result (self.new ≡ map.remove self.old pin) }
        ensures unchanged { OnErr result (self.new ≡ self.old) }
    {
        self.pins.drop_pin(owner, pin)?;
        self.pieces.remove(&pin);
        Ok(())
    }
}
