//! One who acts alone.
ghost use Rattle.std.specs.Prelude.{◌≡◌, ℕ, ◌++◌, List, [], ◌∷◌};
ghost use Rattle.std.proofs.Common.{refl, ◌∙◌};
ghost use Rattle.act_model.specs.Machine.{Machine};
ghost use Rattle.act_model.specs.Alone.{Alone as ActsAlone};
ghost use Rattle.act_model.proofs.ActsAlone.{alone_legal, alone_nothing, alone_joined};

use crate::applies::Applies;
use act_model::{Act, Actor, Answer, Spent};

/// An actor over an archive of its own. No act is ever refused for want of turns.
#[derive(Drop)]
pub struct Alone<'a, X: Applies> {
    archive: &'a mut X,
    who: u64,
}

impl<'a, X: Applies> Alone<'a, X> {
    /// Acts on this archive, which it lends, under this number. It takes no memory.
    pub fn new(archive: &'a mut X, who: u64) -> Alone<'a, X>
        ensures number { result.who ≡ who }
        ensures archive { result.archive.now ≡ archive.old }
        ensures same_reference { result.archive.ghost_name ≡ archive.entry.ghost_name }
    {
        Alone { archive, who }
    }
}

impl<'a, X: Applies> Actor for Alone<'a, X> {
    type Reader = X::Reader;

    ghost number = { λ a. a.who };

    ghost stands = { λ a m. X.stands a.archive.now m };

    // It acts on the archive that it was made with, so its lender has that archive back.
    ghost between = { λ a entries b. (b.archive.ghost_name ≡ a.archive.ghost_name) × (b.who ≡ a.who)
        × ActsAlone X.stands X.leaves a.who a.archive.now entries b.archive.now };

    ghost is_spent = { λ a. ⊥ };

    fn act(&mut self, act: Act) -> Result<Answer<X::Reader>, Spent> {
        Ok(self.archive.apply(self.who, act))
    }

    ghost legal = { λ a b entries m h s.
        alone_legal X.stands X.leaves a.who a.archive.now b.archive.now entries m h.2 s };

    ghost sound = { λ a m s. X.sound a.archive.now m s };

    ghost nothing = { λ a. (refl, refl, alone_nothing X.stands X.leaves a.who a.archive.now) };

    ghost joined = { λ a b c xs ys p q. (
      q.0 ∙ p.0,
      q.1 ∙ p.1,
      alone_joined X.stands X.leaves a.who b.who a.archive.now b.archive.now c.archive.now xs ys p.1 p.2 q.2,
    ) };

    ghost number_stays = { λ a b entries h. h.1 };
}
