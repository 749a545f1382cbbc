//! A turn on either half.
ghost use Rattle.std.specs.Prelude.{◌≡◌, ◌≢◌, ℕ, ◌+◌, ◌*◌, ◌<◌, length, Some, MatchResult};
ghost use Rattle.turn_rooms.specs.Histories.{most_acts};
ghost use Rattle.turn_rooms.specs.LaneTurns.{LaneTries, LaneTurns};
ghost use Rattle.turn_rooms.specs.TwinPasses.{IsTwinPassOf, StoreGoes, IntakeGoes, store_seen, intake_seen};
ghost use Rattle.turn_rooms.specs.TwinPasses.{store_known, intake_known};
ghost use Rattle.turn_rooms.specs.TwinTurning.{StoreLooked, StoreReady, StoreTaken, StoreMissed, StoreOut, StoreGiven};
ghost use Rattle.turn_rooms.specs.TwinTurning.{IntakeLooked, IntakeReady, IntakeTaken, IntakeMissed, IntakeOut};
ghost use Rattle.turn_rooms.specs.TwinTurning.{IntakeGiven};

use crate::beside::Beside;
use crate::room::Room;
use crate::rooms::{Tried, Turned};
use crate::turns::FULL_WORD;
use crate::twin_rule::{IntakeGive, IntakeLook, IntakeTake, StoreGive, StoreLook, StoreTake};
use crate::twins::{Twin, TwinPass};
use crate::view::Saying;
use std::marker::Brand;
use std::snapshot::Snapshot;
use std::sync::Wait;

impl<S: Room, I: Beside<S>> Twin<S, I> {
    // Loads word 0.
    fn store_look(&self, pass: &mut TwinPass<S, I>) -> u64
        requires { IsTwinPassOf S.steps I.steps I.together self.now pass.old }
        ensures { StoreLooked S.steps I.steps I.together self.now pass.old pass.new result }
    {
        self.table.shared.load::<StoreLook<S, I>>(&mut pass.seat, 0)
    }

    // Takes the store where word 0 still is the read word, and has it out of the slot. Or else
    // gives the word that it found.
    fn store_take(&self, pass: &mut TwinPass<S, I>, word: u64) -> Result<S, u64>
        requires read { StoreReady S.steps I.steps I.together self.now pass.old word }
        requires even { (m : ℕ) × (word ≡ 2 * m) × (m < most_acts) }
        ensures { MatchResult result (λ room.
            StoreTaken S.steps I.steps I.together self.now I.store_allows I.intake_allows pass.old pass.new word room)
            (λ found. StoreMissed S.steps I.steps I.together self.now pass.old pass.new word found) }
    {
        let words = &self.table.shared;
        let found = words.compare_exchange::<StoreTake<S, I>>(&mut pass.seat, 0, word, word + 1);
        if found != word {
            return Err(found);
        }
        let slot = words.exchange(&mut pass.seat, 0, (None, None));
        Ok(slot.0.unwrap())
    }

    // Puts the store into its slot, and gives it back after this act with this answer.
    fn store_give<N: Saying<S::Act, S::Answer>>(
        &self,
        pass: &mut TwinPass<S, I>,
        n: u64,
        room: S,
        asked: &Snapshot<S::Act>,
        told: &Snapshot<S::Answer>,
    )
        requires said { N.said ≡ Some (asked.now.value, told.now.value) }
        requires has { (before : S) × StoreOut S.steps I.steps I.together self.now pass.old before
            × S.steps before pass.old.number n asked.now.value told.now.value room }
        requires n { (n ≡ length (store_known pass.old)) × (n < most_acts) }
        requires allowed { I.store_allows (intake_known pass.old) asked.now.value }
        ensures { StoreGiven S.steps I.steps I.together self.now pass.old pass.new asked.now.value told.now.value }
    {
        let words = &self.table.shared;
        words.exchange(&mut pass.seat, 0, (Some(room), None));
        words.store::<StoreGive<S, I, N>>(&mut pass.seat, 0, 2 * n + 2);
    }

    // Acts on the store, and gives it back.
    fn store_act(&self, pass: &mut TwinPass<S, I>, n: u64, mut room: S, act: S::Act) -> S::Answer
        requires has { StoreOut S.steps I.steps I.together self.now pass.old room }
        requires n { (n ≡ length (store_known pass.old)) × (n < most_acts) }
        requires asks { S.asks act }
        requires fits { S.fits room pass.old.number n act }
        requires allowed { I.store_allows (intake_known pass.old) act }
        ensures { StoreGiven S.steps I.steps I.together self.now pass.old pass.new act result }
    {
        let asked = Snapshot::of(&act);
        let answer = room.apply(pass.number, n, act);
        let told = Snapshot::of(&answer);
        self.store_give::<Brand>(pass, n, room, &asked, &told);
        self.store_resting
            .wake_one(&self.table.shared, 0, pass.number);
        answer
    }

    /// Makes one try on the store: one load of its word, and where that read a free half, one compare-exchange. It
    /// never waits for another thread, and takes no memory of its own.
    pub fn try_store_turn(&self, pass: &mut TwinPass<S, I>, act: S::Act) -> Tried<S>
        requires rooms { IsTwinPassOf S.steps I.steps I.together self.now pass.old }
        requires asks { S.asks act }
        requires allowed { I.store_allows (intake_known pass.old) act }
        ensures goes { StoreGoes S.steps I.steps I.together self.now pass.old pass.new }
        ensures tries { (loaded : ℕ) × LaneTries pass.old.number (length (intake_known pass.old))
            (store_seen pass.old) (store_seen pass.new) act loaded result }
    {
        let word = self.store_look(pass);
        if word % 2 == 1 {
            return Tried::Busy { word, act };
        }
        if word == FULL_WORD {
            return Tried::Spent(act);
        }
        match self.store_take(pass, word) {
            Ok(room) => Tried::Done(self.store_act(pass, word / 2, room, act)),
            Err(found) => Tried::Busy { word: found, act },
        }
    }

    /// Tries again until the act took place, or no act is left on the store. It may wait, for as
    /// long as others act on it.
    pub fn store_turn(&self, rt: &impl Wait, pass: &mut TwinPass<S, I>, act: S::Act) -> Turned<S>
        requires rooms { IsTwinPassOf S.steps I.steps I.together self.now pass.old }
        requires asks { S.asks act }
        requires allowed { I.store_allows (intake_known pass.old) act }
        ensures goes { StoreGoes S.steps I.steps I.together self.now pass.old pass.new }
        ensures turns { (loaded : ℕ) × LaneTurns pass.old.number (length (intake_known pass.old))
            (store_seen pass.old) (store_seen pass.new) act loaded result }
    {
        let mut act = act;
        let mut rests = 0;
        self.store_resting
            .let_pass(rt, &self.table.shared, 0, 2, pass.number);
        for _ in rt.forever() {
            match self.try_store_turn(pass, act) {
                Tried::Done(answer) => return Turned::Done(answer),
                Tried::Spent(back) => return Turned::Spent(back),
                Tried::Busy { word, act: back } => {
                    act = back;
                    self.store_resting
                        .rest(rt, &self.table.shared, 0, 2, word, rests);
                    rests = rests.saturating_add(1);
                }
            }
        }
        unreachable!()
    }

    // Loads word 1.
    fn intake_look(&self, pass: &mut TwinPass<S, I>) -> u64
        requires { IsTwinPassOf S.steps I.steps I.together self.now pass.old }
        ensures { IntakeLooked S.steps I.steps I.together self.now pass.old pass.new result }
    {
        self.table
            .shared
            .load::<IntakeLook<S, I>>(&mut pass.seat, 1)
    }

    // Takes the intake where word 1 still is the read word, and has it out of the slot. Or else
    // gives the word that it found.
    fn intake_take(&self, pass: &mut TwinPass<S, I>, word: u64) -> Result<I, u64>
        requires read { IntakeReady S.steps I.steps I.together self.now pass.old word }
        requires even { (m : ℕ) × (word ≡ 2 * m) × (m < most_acts) }
        ensures { MatchResult result (λ room.
            IntakeTaken S.steps I.steps I.together self.now I.store_allows I.intake_allows pass.old pass.new word room)
            (λ found. IntakeMissed S.steps I.steps I.together self.now pass.old pass.new word found) }
    {
        let words = &self.table.shared;
        let found = words.compare_exchange::<IntakeTake<S, I>>(&mut pass.seat, 1, word, word + 1);
        if found != word {
            return Err(found);
        }
        let slot = words.exchange(&mut pass.seat, 1, (None, None));
        Ok(slot.1.unwrap())
    }

    // Puts the intake into its slot, and gives it back after this act with this answer.
    fn intake_give<N: Saying<I::Act, I::Answer>>(
        &self,
        pass: &mut TwinPass<S, I>,
        n: u64,
        room: I,
        asked: &Snapshot<I::Act>,
        told: &Snapshot<I::Answer>,
    )
        requires said { N.said ≡ Some (asked.now.value, told.now.value) }
        requires has { (before : I) × IntakeOut S.steps I.steps I.together self.now pass.old before
            × I.steps before pass.old.number n asked.now.value told.now.value room }
        requires n { (n ≡ length (intake_known pass.old)) × (n < most_acts) }
        requires allowed { I.intake_allows (store_known pass.old) asked.now.value }
        ensures { IntakeGiven S.steps I.steps I.together self.now pass.old pass.new asked.now.value told.now.value }
    {
        let words = &self.table.shared;
        words.exchange(&mut pass.seat, 1, (None, Some(room)));
        words.store::<IntakeGive<S, I, N>>(&mut pass.seat, 1, 2 * n + 2);
    }

    // Acts on the intake, and gives it back.
    fn intake_act(&self, pass: &mut TwinPass<S, I>, n: u64, mut room: I, act: I::Act) -> I::Answer
        requires has { IntakeOut S.steps I.steps I.together self.now pass.old room }
        requires n { (n ≡ length (intake_known pass.old)) × (n < most_acts) }
        requires asks { I.asks act }
        requires fits { I.fits room pass.old.number n act }
        requires allowed { I.intake_allows (store_known pass.old) act }
        ensures { IntakeGiven S.steps I.steps I.together self.now pass.old pass.new act result }
    {
        let asked = Snapshot::of(&act);
        let answer = room.apply(pass.number, n, act);
        let told = Snapshot::of(&answer);
        self.intake_give::<Brand>(pass, n, room, &asked, &told);
        self.intake_resting
            .wake_one(&self.table.shared, 1, pass.number);
        answer
    }

    /// Makes one try on the intake: one load of its word, and where that read a free half, one compare-exchange. It
    /// never waits for another thread, and takes no memory of its own.
    pub fn try_intake_turn(&self, pass: &mut TwinPass<S, I>, act: I::Act) -> Tried<I>
        requires rooms { IsTwinPassOf S.steps I.steps I.together self.now pass.old }
        requires asks { I.asks act }
        requires allowed { I.intake_allows (store_known pass.old) act }
        ensures goes { IntakeGoes S.steps I.steps I.together self.now pass.old pass.new }
        ensures tries { (loaded : ℕ) × LaneTries pass.old.number (length (store_known pass.old))
            (intake_seen pass.old) (intake_seen pass.new) act loaded result }
    {
        let word = self.intake_look(pass);
        if word % 2 == 1 {
            return Tried::Busy { word, act };
        }
        if word == FULL_WORD {
            return Tried::Spent(act);
        }
        match self.intake_take(pass, word) {
            Ok(room) => Tried::Done(self.intake_act(pass, word / 2, room, act)),
            Err(found) => Tried::Busy { word: found, act },
        }
    }

    /// Tries again until the act took place, or no act is left on the intake. It may wait, for as
    /// long as others act on it.
    pub fn intake_turn(&self, rt: &impl Wait, pass: &mut TwinPass<S, I>, act: I::Act) -> Turned<I>
        requires rooms { IsTwinPassOf S.steps I.steps I.together self.now pass.old }
        requires asks { I.asks act }
        requires allowed { I.intake_allows (store_known pass.old) act }
        ensures goes { IntakeGoes S.steps I.steps I.together self.now pass.old pass.new }
        ensures turns { (loaded : ℕ) × LaneTurns pass.old.number (length (store_known pass.old))
            (intake_seen pass.old) (intake_seen pass.new) act loaded result }
    {
        let mut act = act;
        let mut rests = 0;
        self.intake_resting
            .let_pass(rt, &self.table.shared, 1, 2, pass.number);
        for _ in rt.forever() {
            match self.try_intake_turn(pass, act) {
                Tried::Done(answer) => return Turned::Done(answer),
                Tried::Spent(back) => return Turned::Spent(back),
                Tried::Busy { word, act: back } => {
                    act = back;
                    self.intake_resting
                        .rest(rt, &self.table.shared, 1, 2, word, rests);
                    rests = rests.saturating_add(1);
                }
            }
        }
        unreachable!()
    }
}
