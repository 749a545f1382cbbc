//! How passes of a twin are made and joined.
ghost use Rattle.std.specs.Prelude.{◌≡◌, ◌≢◌, ◌+◌, ◌<◌, ◌≤◌, length, MatchOption, IfOk, OnErr};
ghost use Rattle.turn_rooms.specs.Histories.{most_numbers};
ghost use Rattle.turn_rooms.specs.TwinPasses.{IsTwinPassOf, IsLastTwin, TwinStays, TwinParts, TwinMeets, pass_standing};

use crate::beside::Beside;
use crate::room::Room;
use crate::rooms::Spent;
use crate::twin_rule::{StoreLearn, TwinCount, TwinDraw, TwinMeet, TwinPart, TwinSettle};
use crate::twins::{Twin, TwinPass};
use std::sync::Wait;
use std::thread;

impl<S: Room, I: Beside<S>> Twin<S, I> {
    // How many numbers are drawn.
    fn count(&self, pass: &mut TwinPass<S, I>) -> u64
        requires { IsTwinPassOf S.steps I.steps I.together self.now pass.old }
        ensures stays { TwinStays S.steps I.steps I.together self.now pass.old pass.new }
        ensures all { result ≡ most_numbers → (pass_standing pass.new).drained ≡ (pass_standing pass.old).drained + 1 }
        ensures some_left { result ≢ most_numbers
            → (pass_standing pass.new).drained ≡ (pass_standing pass.old).drained }
        ensures numbers { IsLastTwin pass.old → result ≤ length (pass_standing pass.old).stands }
    {
        self.table.shared.load::<TwinCount<S, I>>(&mut pass.seat, 2)
    }

    // Draws the number, where it is the next one, and cuts a pass off for it.
    fn draw(&self, pass: &mut TwinPass<S, I>, number: u64) -> Option<TwinPass<S, I>>
        requires rooms { IsTwinPassOf S.steps I.steps I.together self.now pass.old }
        requires few { number < most_numbers }
        ensures parts { MatchOption result (TwinStays S.steps I.steps I.together self.now pass.old pass.new)
            (λ note. TwinParts S.steps I.steps I.together self.now pass.old pass.new note) }
        ensures drained { (pass_standing pass.new).drained ≡ (pass_standing pass.old).drained }
    {
        let words = &self.table.shared;
        let found = words.compare_exchange::<TwinDraw<S, I>>(&mut pass.seat, 2, number, number + 1);
        if found != number {
            return None;
        }
        let seat = words.split_seat::<TwinPart>(&mut pass.seat);
        Some(TwinPass { number, seat })
    }

    /// Makes a pass with a new number, which knows what this one knows. It may wait, for as long as others draw
    /// numbers, and takes no memory.
    ///
    /// `Spent` comes only where its last load of the count of numbers read 2^64 - 1. `pass` then counts one such load
    /// more, and so knows that all numbers are drawn: beside which no other pass is left, it stands for each of them.
    pub fn part(&self, rt: &impl Wait, pass: &mut TwinPass<S, I>) -> Result<TwinPass<S, I>, Spent>
        requires { IsTwinPassOf S.steps I.steps I.together self.now pass.old }
        ensures parts { IfOk result (λ note. TwinParts S.steps I.steps I.together self.now pass.old pass.new note) }
        ensures stays { OnErr result (TwinStays S.steps I.steps I.together self.now pass.old pass.new) }
        ensures all_drawn { OnErr result ((pass_standing pass.new).drained ≡ (pass_standing pass.old).drained + 1) }
        ensures numbers { OnErr result (IsLastTwin pass.old → most_numbers ≤ length (pass_standing pass.old).stands) }
    {
        for _ in rt.forever() {
            let number = self.count(pass);
            if number == u64::MAX {
                return Err(Spent);
            }
            if let Some(note) = self.draw(pass, number) {
                return Ok(note);
            }
            thread::yield_now();
        }
        unreachable!()
    }

    /// Ends `note`. The pass then knows what both knew, and stands for what both stood for. It doesn't
    /// wait, and takes no memory.
    pub fn meet(&self, pass: &mut TwinPass<S, I>, note: TwinPass<S, I>)
        requires rooms { IsTwinPassOf S.steps I.steps I.together self.now pass.old }
        requires note { IsTwinPassOf S.steps I.steps I.together self.now note }
        ensures { TwinMeets S.steps I.steps I.together self.now pass.old pass.new note }
    {
        let TwinPass { number: _, seat } = note;
        self.table
            .shared
            .join_seat::<TwinMeet>(&mut pass.seat, seat);
        self.table
            .shared
            .load::<StoreLearn<S, I>>(&mut pass.seat, 0);
        self.table
            .shared
            .load::<TwinSettle<S, I>>(&mut pass.seat, 1);
    }
}
