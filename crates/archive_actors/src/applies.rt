//! What acts are made on.
ghost use Rattle.std.specs.Prelude.{ℕ};
ghost use Rattle.act_model.specs.Reply.{reply_of};
ghost use Rattle.act_model.specs.History.{Entry};
ghost use Rattle.act_model.specs.Machine.{Machine};
ghost use Rattle.act_model.specs.Sound.{IsSound};
ghost use Rattle.act_model.specs.Step.{Step, MayAsk};

use act_model::{Act, Answer};
use disk_model::ReadAt;

/// A value on which acts are made, each a step of the machine.
pub trait Applies: Drop {
    /// What a piece of a pin is read by.
    type Reader: ReadAt;

    /// The states that it stands for.
    ghost stands: { Self → Machine → Type 0 };

    /// What an act and its answer leave, where they lead from one value to another: as of a disk, and
    /// of a crash within the act.
    ghost leaves: { Self → Entry → Self → Type 0 };

    /// It stands for sound states alone.
    ghost sound: { (a : Self) (m : Machine) → stands a m → IsSound m };

    /// Makes an act for the actor of this number, and answers it.
    fn apply(&mut self, who: u64, act: Act) -> Answer<Self::Reader>
        requires stands { (m : Machine) × stands self.old m }
        requires may_ask { MayAsk act }
        ensures step { (m : Machine) → stands self.old m
            → (n : Machine) × Step who act m (reply_of Self.Reader.tells Self.Reader.bytes Self.Reader.faults result) n
            × stands self.new n }
        ensures leaves { leaves self.old (record {
          who = who;
          act = act;
          answer = reply_of Self.Reader.tells Self.Reader.bytes Self.Reader.faults result;
        }) self.new };
}
