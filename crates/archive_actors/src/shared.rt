//! An archive that many share.
ghost use Rattle.std.specs.Prelude.{◌≡◌};
ghost use Rattle.act_model.specs.Machine.{Machine};
ghost use Rattle.act_model.specs.Step.{MayAsk};
ghost use Rattle.archive_actors.specs.Steps.{SharedStep};

use crate::applies::Applies;
use act_model::{Act, Answer};
use turn_rooms::Room;

/// A value on which many act in turns: a room of `turn_rooms`, each act of which is a step of the machine.
#[derive(Drop)]
pub struct Shared<X: Applies> {
    archive: X,
}

impl<X: Applies> Shared<X> {
    /// This value, to be shared.
    pub fn new(archive: X) -> Shared<X>
        ensures { result.archive ≡ archive }
    {
        Shared { archive }
    }

    /// The value, given back.
    pub fn into_inner(self) -> X
        ensures { result ≡ self.archive }
    {
        self.archive
    }
}

impl<X: Applies> Room for Shared<X> {
    type Act = Act;

    type Answer = Answer<X::Reader>;

    ghost asks = { λ act. MayAsk act };

    ghost fits = { λ room who n act. (m : Machine) × X.stands room.archive m };

    ghost steps = { λ room who n act answer new.
        SharedStep X.stands X.leaves X.Reader.tells X.Reader.bytes X.Reader.faults room who n act answer new };

    fn apply(&mut self, who: u64, n: u64, act: Act) -> Answer<X::Reader> {
        let _ = n;
        self.archive.apply(who, act)
    }
}
