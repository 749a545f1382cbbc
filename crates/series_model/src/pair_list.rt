// A list of pairs that are read one after another.
ghost use Rattle.std.specs.Prelude.{◌≡◌, [], ◌∷◌, Some, OnOk};
ghost use Rattle.std.specs.Option.{option_map};
ghost use Rattle.series_model.specs.PairLists.{joined};

use crate::{Blob, Pairs};
use std::alloc::{AllocError, Global};
use std::marker::Model;

/// The pairs so far, or that one of them lacks a member.
#[derive(Drop)]
pub struct PairList {
    pairs: Vec<(Blob, Blob)>,
    whole: bool,
}

impl Model for PairList {
    ghost use Rattle.std.specs.Prelude.{ℕ, List, Option, Some, None, if◌then◌else◌};

    ghost Value = { Option (List (List ℕ × List ℕ)) };

    ghost view = { λ list. if list.whole then Some list.pairs.items else None };
}

impl PairList {
    /// No pairs.
    pub fn new(alloc: Global) -> PairList
        ensures { result ≡ Some [] }
    {
        PairList {
            pairs: Vec::new(alloc),
            whole: true,
        }
    }

    /// Takes a copy of the next pair, as far as it has both members.
    pub fn push(&mut self, alloc: Global, pair: Option<(&[u8], &[u8])>) -> Result<(), AllocError>
        ensures { OnOk result (self.new ≡ joined self.old (option_map (λ p. (p.0.now, p.1.now) ∷ []) pair.entry)) }
    {
        match pair {
            Some((name, val)) => {
                let name = Blob::from(Vec::from_slice(alloc, name)?);
                let val = Blob::from(Vec::from_slice(alloc, val)?);
                self.pairs.push((name, val))?;
            }
            None => self.whole = false,
        }
        Ok(())
    }

    /// The pairs, where each had both members.
    pub fn into_pairs(self) -> Option<Pairs>
        ensures { result ≡ self }
    {
        if self.whole {
            Some(Pairs::from(self.pairs))
        } else {
            None
        }
    }
}
