// The pins that stand.
ghost use Rattle.std.specs.Prelude.{◌≡◌, ◌<◌, ◌↔◌, ℕ, None, IsTrue, IsSome, OnOk, OnErr, IfOk};
ghost use Rattle.std.specs.Ordering.{nat_cmp};
ghost use Rattle.std.specs.FinMap as map;
ghost use Rattle.std.specs.BTreeMap.{IsOrdered, values};
ghost use Rattle.std.specs.List.{list_any};
ghost use Rattle.pins.specs.Pinned.{IsPinned, names_file, dropped};

use crate::pin::Pin;
use disk_model::FileName;
use std::alloc::{AllocError, Global};
use std::collections::BTreeMap;
use std::marker::Model;

/// Why a pin isn't dropped.
#[derive(Clone, Copy, Debug, PartialEq, Eq)]
pub enum PinErr {
    /// No pin has this number.
    NoPin,
    /// The pin is another's: `owner`'s.
    NotYours { owner: u64 },
}

/// The pins that stand, by their numbers.
#[derive(Drop)]
pub struct Pins {
    alloc: Global,
    pins: BTreeMap<u32, Pin>,
}

impl Model for Pins {
    ghost use Rattle.std.specs.Ordering.{nat_cmp};
    ghost use Rattle.std.specs.FinMap as map;
    ghost use Rattle.std.specs.Coded.{coded_ℕ};
    ghost use Rattle.pins.specs.Pinned.{PinnedNames, pin_code};

    ghost Value = { map.FinMap nat_cmp PinnedNames };

    ghost coded = { map.code coded_ℕ pin_code };

    ghost view = { λ p. map.from_entries p.pins.entries };
}

impl Pins {
    /// No pin stands. It takes no memory.
    pub fn new(alloc: Global) -> Pins
        ensures { result ≡ map.empty }
    {
        Pins {
            alloc,
            pins: BTreeMap::new(alloc),
        }
    }

    /// Pins these files for an owner, and gives the pin's number: the least that no pin has.
    pub fn pin(&mut self, owner: u64, files: &[FileName]) -> Result<u32, AllocError>
        ensures free { IfOk result (λ pin. map.get self.old pin ≡ None) }
        ensures least { IfOk result (λ pin. (lower : ℕ) → lower < pin → IsSome (map.get self.old lower)) }
        ensures pinned { IfOk result (λ pin.
            self.new ≡ map.insert self.old pin (record { owner = owner; files = files.now })) }
        ensures unchanged { OnErr result (self.new ≡ self.old) }
    {
        let number = free_number(&self.pins)?;
        let pin = Pin::new(self.alloc, owner, files)?;
        self.pins.insert(number, pin)?;
        Ok(number)
    }

    /// Drops an owner's own pin.
    pub fn drop_pin(&mut self, owner: u64, pin: u32) -> Result<(), PinErr>
        ensures answer { result ≡ dropped owner (map.get self.old pin) }
        ensures after { OnOk result (self.new ≡ map.remove self.old pin) }
        ensures unchanged { OnErr result (self.new ≡ self.old) }
    {
        let Some(found) = self.pins.get(&pin) else {
            return Err(PinErr::NoPin);
        };
        if found.owner() != owner {
            return Err(PinErr::NotYours {
                owner: found.owner(),
            });
        }
        self.pins.remove(&pin);
        Ok(())
    }

    /// Whether any pin names the file.
    pub fn is_pinned(&self, file: &FileName) -> bool
        ensures { IsTrue result ↔ IsPinned self.now file.now }
    {
        any_names(&self.pins, file)
    }
}

// The least number that no pin has. Where each number is some pin's, it is want of memory.
fn free_number(pins: &BTreeMap<u32, Pin>) -> Result<u32, AllocError>
    ensures free { IfOk result (λ pin. map.get (map.from_entries {R = nat_cmp} pins.now.entries) pin ≡ None) }
    ensures least { IfOk result (λ pin. (lower : ℕ) → lower < pin
        → IsSome (map.get (map.from_entries {R = nat_cmp} pins.now.entries) lower)) }
{
    let mut free: u32 = 0;
    for number in pins.keys() {
        if *number != free {
            return Ok(free);
        }
        free = free.checked_add(1).ok_or(AllocError)?;
    }
    Ok(free)
}

// Whether one of the pins names the file.
fn any_names(pins: &BTreeMap<u32, Pin>, file: &FileName) -> bool
    ensures value { result ≡ list_any (names_file file.now) (values pins.now) }
    ensures ordered { IsOrdered nat_cmp pins.now }
{
    pins.values().any(|pin| pin.names(file))
}
