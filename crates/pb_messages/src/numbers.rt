// Lists of numbers, which contracts see as lists.
ghost use Rattle.std.specs.Prelude.{◌≡◌, ◌++◌, [], ◌∷◌, OnOk};

use std::alloc::{AllocError, Global};
use std::marker::Model;

/// A list of numbers.
#[derive(Debug, Drop)]
pub struct Numbers<T> {
    items: Vec<T>,
}

/// Signed numbers of 32 bits.
pub type Ints = Numbers<i32>;

/// Numbers of 32 bits, or floating-point numbers as their bits.
pub type Bits32 = Numbers<u32>;

/// Numbers of 64 bits, or floating-point numbers as their bits.
pub type Bits64 = Numbers<u64>;

impl<T> Model for Numbers<T> {
    ghost use Rattle.std.specs.Prelude.{List};

    ghost Value = { List T };

    ghost view = { λ numbers. numbers.items.items };
}

impl<T> From<Vec<T>> for Numbers<T> {
    ghost from_gives = { λ items numbers. numbers ≡ items.items };

    fn from(items: Vec<T>) -> Numbers<T> {
        Numbers { items }
    }
}

impl<T> Numbers<T> {
    /// The numbers in order.
    pub fn items(&self) -> &[T]
        ensures { result.now ≡ self.now }
    {
        self.items.as_slice()
    }

    /// The numbers, given back.
    pub fn into_vec(self) -> Vec<T>
        ensures { result.items ≡ self }
    {
        self.items
    }
}

impl<T: Drop> Numbers<T> {
    pub(crate) fn push(&mut self, item: T) -> Result<(), AllocError>
        ensures { OnOk result (self.new ≡ self.old ++ item ∷ []) }
    {
        Ok(self.items.push(item)?)
    }
}
