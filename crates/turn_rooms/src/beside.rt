//! What two halves are that stand beside each other, each acted on in turns of its own.
ghost use Rattle.std.specs.Prelude.{ℕ, ◌<◌, length};
ghost use mathlib.Core.List.{IsPrefix};
ghost use Rattle.turn_rooms.specs.Histories.{most_acts, end_of, Legal};
ghost use Rattle.turn_rooms.specs.Ties.{HalfHistory, Tied, knowing};

use crate::room::Room;

/// An act beside the length of the other half's history that its pass knew. No value of it is made.
pub struct ActBeside<A> {
    pub other: u64,
    pub act: A,
}

/// The second half beside a first one, `S`.
pub trait Beside<S: Room>: Room {
    /// What of the second half's history allows an act of the first.
    ghost store_allows: { HalfHistory Self Self.Act Self.Answer → S.Act → Type 0 };

    /// What of the first half's history allows an act of the second.
    ghost intake_allows: { HalfHistory S S.Act S.Answer → Self.Act → Type 0 };

    /// Which two halves may begin together.
    ghost together: { S → Self → Type 0 };

    /// What `apply` needs for an act of the first half that a prefix of the second's history allows.
    ghost store_fits: { (s : S) (i : Self) (h : HalfHistory S S.Act S.Answer)
        (g known : HalfHistory Self Self.Act Self.Answer) (who : ℕ) (act : S.Act)
        → together s i → Legal (knowing S.steps) s h → Legal (knowing Self.steps) i g
        → Tied store_allows intake_allows h g → IsPrefix known g → store_allows known act → S.asks act
        → length h < most_acts → S.fits (end_of s h) who (length h) act };

    /// The same for an act of the second half.
    ghost intake_fits: { (s : S) (i : Self) (h : HalfHistory S S.Act S.Answer)
        (g : HalfHistory Self Self.Act Self.Answer) (known : HalfHistory S S.Act S.Answer) (who : ℕ) (act : Self.Act)
        → together s i → Legal (knowing S.steps) s h → Legal (knowing Self.steps) i g
        → Tied store_allows intake_allows h g → IsPrefix known h → intake_allows known act → Self.asks act
        → length g < most_acts
        → Self.fits (end_of i g) who (length g) act };
}
