// The pieces of a pin, opened one by one by acts of their own.
ghost use Rattle.std.proofs.Common.{◌≡◌, ◌∙◌, refl};
ghost use Rattle.retrieval_query.specs.Openings.{HasOpened, FailsToOpen, Holds, LeftOf};
ghost use Rattle.retrieval_query.specs.Held.{none_opened, opened_on, failed_on, goes_on};

use act_model::{Actor, PieceOpened, Spent, ask_open_piece};
use stream_merge::{Opened, Pieces};

/// The pieces of a pin, from the next one to be opened on.
#[derive(Drop)]
pub(crate) struct PinPieces<'a, A> {
    pub(crate) actor: &'a mut A,
    pub(crate) pin: u32,
    // The number of the next piece, and how many are left.
    pub(crate) next: u32,
    pub(crate) left: u32,
    pub(crate) faults: u64,
}

impl<'a, A: Actor> Pieces for PinPieces<'a, A> {
    type Reader = A::Reader;

    ghost count = { λ p. p.left };

    ghost left = { λ p ps. LeftOf A.number A.stands p.actor.now p.pin p.next p.left ps };

    ghost faults = { λ p. p.faults };

    ghost is_spent = { λ p. A.is_spent p.actor.now };

    ghost may_open = { λ p. Holds A.number A.stands p.actor.now p.pin p.next p.left };

    ghost opened = { λ old ps new. (new.actor.ghost_name ≡ old.actor.ghost_name)
        × HasOpened A.number A.between old.actor.now old.pin old.next old.left ps
        new.actor.now new.pin new.next new.left };

    ghost failed = { λ old why new. (new.actor.ghost_name ≡ old.actor.ghost_name)
        × FailsToOpen A.number A.between A.is_spent old.actor.now old.pin old.next why new.actor.now new.pin };

    fn open_next(&mut self) -> Opened<A::Reader> {
        if self.left == 0 {
            return Opened::NoMore;
        }
        match ask_open_piece(self.actor, self.pin, self.next) {
            Ok(
                PieceOpened::Piece {
                    reader,
                    name,
                    head_len,
                    len,
                },
            ) => {
                self.next += 1;
                self.left -= 1;
                Opened::Piece {
                    reader,
                    name,
                    head_len,
                    len,
                }
            }
            Ok(PieceOpened::DiskFault) => {
                self.faults = self.faults.saturating_add(1);
                Opened::ReadFault
            }
            Ok(PieceOpened::Memory) => Opened::Memory,
            Ok(PieceOpened::NoPin) => unreachable!(),
            Ok(PieceOpened::NotYours { .. }) => unreachable!(),
            Ok(PieceOpened::NoPiece { .. }) => unreachable!(),
            Err(Spent) => Opened::Spent,
        }
    }

    ghost none_opened = { λ a. (refl, none_opened A.number A.between A.nothing a.actor.now a.pin a.next a.left) };

    ghost opened_on = { λ a b c xs ys one two. (
      two.0 ∙ one.0,
      opened_on A.number A.between A.joined A.number_stays a.actor.now b.actor.now c.actor.now a.pin b.pin c.pin
          a.next b.next c.next a.left b.left c.left xs ys one.1 two.1,
    ) };

    ghost failed_on = { λ a b c xs why one two. (
      two.0 ∙ one.0,
      failed_on A.number A.between A.joined A.number_stays A.is_spent a.actor.now b.actor.now c.actor.now a.pin
          b.pin c.pin a.next b.next a.left b.left xs why one.1 two.1,
    ) };

    ghost goes_on = { λ a b xs may one. goes_on A.number A.between A.stands A.legal A.sound A.number_stays a.actor.now
        b.actor.now a.pin b.pin a.next b.next a.left b.left xs may one.1 };
}
