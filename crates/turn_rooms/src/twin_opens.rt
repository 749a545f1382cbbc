//! How twins are opened and closed.
ghost use Rattle.std.specs.Prelude.{◌≡◌, IfOk, IfErr};
ghost use Rattle.turn_rooms.specs.Histories.{end_of};
ghost use Rattle.turn_rooms.specs.Ties.{Tied};
ghost use Rattle.turn_rooms.specs.TwinPasses.{IsTwinPassOf, IsLastTwin, TwinOpens, store_opened, intake_opened};
ghost use Rattle.turn_rooms.specs.TwinPasses.{store_known, intake_known};

use crate::beside::Beside;
use crate::resting::Resting;
use crate::room::Room;
use crate::twins::{Twin, TwinPass};
use atomic_table::{Refused, Table};
use std::alloc::Global;
use std::snapshot::Snapshot;

impl<S: Room, I: Beside<S>> Twin<S, I> {
    /// Opens the two halves, with empty histories, and makes the first pass, which has the number 0.
    /// `Err` only for want of memory.
    pub fn new(alloc: Global, store: S, intake: I) -> Result<(Twin<S, I>, TwinPass<S, I>), (S, I)>
        requires { I.together store intake }
        ensures ok { IfOk result (λ p. TwinOpens S.steps I.steps I.together p.0 store intake p.1) }
        ensures err { IfErr result (λ back. (back.0 ≡ store) × (back.1 ≡ intake)) }
    {
        let both = (store, intake);
        let about = Snapshot::of(&both);
        let (store, intake) = both;
        let Ok(mut slots) = Vec::with_capacity(alloc, 2) else {
            return Err((store, intake));
        };
        slots.push_reserved((Some(store), None));
        slots.push_reserved((None, Some(intake)));
        match Table::new(alloc, &[0, 0, 1], slots, &about) {
            Ok((table, seat)) => {
                let store_resting = Resting::new();
                let intake_resting = Resting::new();
                let twin = Twin {
                    table,
                    store_resting,
                    intake_resting,
                };
                Ok((twin, TwinPass { number: 0, seat }))
            }
            Err(Refused { mut slots }) => {
                let second = slots.pop();
                let first = slots.pop();
                match (first, second) {
                    (Some(first), Some(second)) => Err((first.0.unwrap(), second.1.unwrap())),
                    _ => unreachable!(),
                }
            }
        }
    }

    /// The halves as the two histories left them. No other pass may be left, so that the pass knows all acts of every
    /// pass. The pair of histories is closed. It takes no memory.
    pub fn close(self, pass: TwinPass<S, I>) -> (S, I)
        requires rooms { IsTwinPassOf S.steps I.steps I.together self pass }
        requires last { IsLastTwin pass }
        ensures store { result.0 ≡ end_of (store_opened self) (store_known pass) }
        ensures intake { result.1 ≡ end_of (intake_opened self) (intake_known pass) }
        ensures closed { Tied I.store_allows I.intake_allows (store_known pass) (intake_known pass) }
    {
        let TwinPass { number: _, seat } = pass;
        let Twin {
            table,
            store_resting: _,
            intake_resting: _,
        } = self;
        let mut closed = table.close_with(seat);
        let store = closed.take(0);
        let intake = closed.take(1);
        closed.free();
        (store.0.unwrap(), intake.1.unwrap())
    }
}
