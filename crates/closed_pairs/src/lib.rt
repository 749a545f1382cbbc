//! Pairs of histories, each entry of which knows a beginning of the other.
#![tactic(auto)]

ghost use Rattle.std.specs.Prelude.{ℕ, List, ◌↔◌};
ghost use Rattle.closed_pairs.specs.Pairs.{IsClosed, Joint, IsInterleaved};

/// A pair is closed just where there is an order in which each entry stands behind all that it knew, and then there is
/// one list of both histories' entries in that order.
pub fn closed_pairs_are_joint<E, F>()
    ensures joint { (knows : E → ℕ) (other_knows : F → ℕ) (h : List E) (k : List F)
        → IsClosed knows other_knows h k ↔ Joint knows other_knows h k }
    ensures interleaved { (knows : E → ℕ) (other_knows : F → ℕ) (h : List E) (k : List F)
        → IsClosed knows other_knows h k → IsInterleaved knows other_knows h k }
{}
