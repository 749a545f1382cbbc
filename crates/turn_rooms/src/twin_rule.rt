//! The rule of a twin's table, and what its steps tell. These types are for the proofs alone.
ghost use Rattle.turn_rooms.specs.TwinRules.{TwinRuled, store_looks, store_takes, store_gives, store_learns};
ghost use Rattle.turn_rooms.specs.TwinRules.{intake_looks, intake_takes, intake_gives};
ghost use Rattle.turn_rooms.specs.TwinRules.{twin_settles, twin_counts, twin_draws};
ghost use Rattle.turn_rooms.specs.TwinViews.{opened_twin, spent_twin, left_twin, right_twin, joined_twin};

use crate::beside::Beside;
use crate::room::Room;
use crate::twin_view::TwinView;
use crate::view::Saying;
use atomic_table::{Join, Play, Seat, Split, Table, TableRule};
use std::alloc::Global;
use std::marker::PhantomData;
use std::snapshot::Snapshot;

/// The content of a slot: one half, in its own place.
pub type TwinSlot<S, I> = (Option<S>, Option<I>);

pub type TwinViewOf<S, I> = TwinView<
    S,
    <S as Room>::Act,
    <S as Room>::Answer,
    I,
    <I as Room>::Act,
    <I as Room>::Answer,
>;

pub type TwinTable<S, I> = Table<
    TwinSlot<S, I>,
    TwinViewOf<S, I>,
    Snapshot<(S, I)>,
    TwinTurns<S, I>,
    Global,
>;

pub type TwinSeat<S, I> = Seat<TwinSlot<S, I>, TwinViewOf<S, I>>;

/// The rule of a table with two halves.
pub struct TwinTurns<S, I> {
    halves: PhantomData<(S, I)>,
}

impl<S: Room, I: Beside<S>> TableRule<
    (Option<S>, Option<I>),
    TwinView<S, S::Act, S::Answer, I, I::Act, I::Answer>,
    Snapshot<(S, I)>,
> for TwinTurns<S, I> {
    ghost holds = { λ key. TwinRuled S.steps I.steps I.store_allows I.intake_allows key.value.0 key.value.1 };

    ghost first = { λ key. opened_twin key.value.0 key.value.1 };
}

/// A load of the store's word in a turn.
pub struct StoreLook<S, I> {
    halves: PhantomData<(S, I)>,
}

impl<S: Room, I: Beside<S>> Play<
    (Option<S>, Option<I>),
    TwinView<S, S::Act, S::Answer, I, I::Act, I::Answer>,
> for StoreLook<S, I> {
    ghost then = { store_looks S.steps I.steps I.store_allows I.intake_allows };
}

/// A load of the intake's word in a turn.
pub struct IntakeLook<S, I> {
    halves: PhantomData<(S, I)>,
}

impl<S: Room, I: Beside<S>> Play<
    (Option<S>, Option<I>),
    TwinView<S, S::Act, S::Answer, I, I::Act, I::Answer>,
> for IntakeLook<S, I> {
    ghost then = { intake_looks S.steps I.steps I.store_allows I.intake_allows };
}

/// A load of the store's word outside a turn.
pub struct StoreLearn<S, I> {
    halves: PhantomData<(S, I)>,
}

impl<S: Room, I: Beside<S>> Play<
    (Option<S>, Option<I>),
    TwinView<S, S::Act, S::Answer, I, I::Act, I::Answer>,
> for StoreLearn<S, I> {
    ghost then = { store_learns S.steps I.steps I.store_allows I.intake_allows };
}

/// The load of the intake's word that ends a join.
pub struct TwinSettle<S, I> {
    halves: PhantomData<(S, I)>,
}

impl<S: Room, I: Beside<S>> Play<
    (Option<S>, Option<I>),
    TwinView<S, S::Act, S::Answer, I, I::Act, I::Answer>,
> for TwinSettle<S, I> {
    ghost then = { twin_settles S.steps I.steps I.store_allows I.intake_allows };
}

/// The exchange that takes the store.
pub struct StoreTake<S, I> {
    halves: PhantomData<(S, I)>,
}

impl<S: Room, I: Beside<S>> Play<
    (Option<S>, Option<I>),
    TwinView<S, S::Act, S::Answer, I, I::Act, I::Answer>,
> for StoreTake<S, I> {
    ghost then = { store_takes S.steps I.steps I.store_allows I.intake_allows };
}

/// The exchange that takes the intake.
pub struct IntakeTake<S, I> {
    halves: PhantomData<(S, I)>,
}

impl<S: Room, I: Beside<S>> Play<
    (Option<S>, Option<I>),
    TwinView<S, S::Act, S::Answer, I, I::Act, I::Answer>,
> for IntakeTake<S, I> {
    ghost then = { intake_takes S.steps I.steps I.store_allows I.intake_allows };
}

/// The store that gives the store's half back, after the act and the answer that `N` says.
pub struct StoreGive<S, I, N> {
    halves: PhantomData<(S, I, N)>,
}

impl<S: Room, I: Beside<S>, N: Saying<S::Act, S::Answer>> Play<
    (Option<S>, Option<I>),
    TwinView<S, S::Act, S::Answer, I, I::Act, I::Answer>,
> for StoreGive<S, I, N> {
    ghost then = { store_gives S.steps I.steps I.store_allows I.intake_allows N.said };
}

/// The store that gives the intake's half back.
pub struct IntakeGive<S, I, N> {
    halves: PhantomData<(S, I, N)>,
}

impl<S: Room, I: Beside<S>, N: Saying<I::Act, I::Answer>> Play<
    (Option<S>, Option<I>),
    TwinView<S, S::Act, S::Answer, I, I::Act, I::Answer>,
> for IntakeGive<S, I, N> {
    ghost then = { intake_gives S.steps I.steps I.store_allows I.intake_allows N.said };
}

/// A load of the numbers' word.
pub struct TwinCount<S, I> {
    halves: PhantomData<(S, I)>,
}

impl<S: Room, I: Beside<S>> Play<
    (Option<S>, Option<I>),
    TwinView<S, S::Act, S::Answer, I, I::Act, I::Answer>,
> for TwinCount<S, I> {
    ghost then = { twin_counts S.steps I.steps I.store_allows I.intake_allows };
}

/// The exchange that draws a number.
pub struct TwinDraw<S, I> {
    halves: PhantomData<(S, I)>,
}

impl<S: Room, I: Beside<S>> Play<
    (Option<S>, Option<I>),
    TwinView<S, S::Act, S::Answer, I, I::Act, I::Answer>,
> for TwinDraw<S, I> {
    ghost then = { twin_draws S.steps I.steps I.store_allows I.intake_allows };
}

/// A second seat, to which the number drawn last goes over.
pub struct TwinPart;

impl<S, A, B, T, C, D> Split<TwinView<S, A, B, T, C, D>> for TwinPart {
    ghost left = { left_twin };

    ghost right = { right_twin };
}

/// One seat takes over what another knows and stands for.
pub struct TwinMeet;

impl<S, A, B, T, C, D> Join<TwinView<S, A, B, T, C, D>> for TwinMeet {
    ghost both = { joined_twin };

    ghost spent = { spent_twin };
}
