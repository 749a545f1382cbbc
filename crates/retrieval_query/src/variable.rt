// A variable's pin, from which its answer is read.
ghost use Rattle.std.specs.Prelude.{IfOk, IfErr};
ghost use Rattle.act_model.specs.declared.acts.Act.{Act};
ghost use Rattle.act_model.specs.declared.acts.Answer.TheVariants as told;
ghost use Rattle.act_model.specs.History.{MadeOne};
ghost use Rattle.act_model.specs.Machine.{Machine};
ghost use Rattle.retrieval_query.specs.Pinning.{FailsToPin, IsHeld};

use act_model::{Actor, Pinned, Spent, ask_pin};
use pb_messages::About;
use pv_name::PvName;
use series_model::{Blob, Query, Samples};
use std::alloc::Global;

/// A variable that is pinned: its name and what is known of it, how many pieces its pin has, and the tail behind them.
#[derive(Drop)]
pub struct PinnedVariable {
    pub(crate) pin: u32,
    pub(crate) name: PvName,
    pub(crate) about: About,
    pub(crate) pieces: u64,
    pub(crate) tail: Samples,
}

/// Why a variable wasn't pinned.
#[derive(Clone, Copy, Debug, PartialEq, Eq)]
pub enum PinVariableErr {
    /// No row has the name.
    NoSuchVariable,
    /// The disk failed in the act, which it has counted.
    DiskFault,
    /// No act is left.
    Spent,
    /// Memory ran out.
    Memory,
}

/// Pins a variable, by one act.
///
/// The pin is the caller's until [`read_pinned`](crate::read_pinned) or
/// [`give_up_pin`](crate::give_up_pin) gives it up.
pub fn pin_variable<A: Actor>(
    alloc: Global,
    actor: &mut A,
    name: &[u8],
    query: Query,
) -> Result<PinnedVariable, PinVariableErr>
    requires stands { (m : Machine) × A.stands actor.old m }
    ensures pins { IfOk result (λ v. MadeOne A.number A.between actor.old (Act.Pin name.now query)
        (told.Pinned v.pin v.name v.about v.pieces v.tail) actor.new) }
    ensures held { IfOk result (IsHeld A.number A.stands actor.new) }
    ensures fails { IfErr result (λ why.
        FailsToPin A.number A.between A.is_spent actor.old name.now query why actor.new) }
    ensures stands { (n : Machine) × A.stands actor.new n }
{
    let Ok(asked) = Vec::from_slice(alloc, name) else {
        return Err(PinVariableErr::Memory);
    };
    match ask_pin(actor, Blob::from(asked), query) {
        Ok(
            Pinned::Pinned {
                pin,
                name,
                about,
                pieces,
                tail,
            },
        ) => Ok(PinnedVariable {
            pin,
            name,
            about,
            pieces,
            tail,
        }),
        Ok(Pinned::NoSuchVariable) => Err(PinVariableErr::NoSuchVariable),
        Ok(Pinned::DiskFault) => Err(PinVariableErr::DiskFault),
        Ok(Pinned::Memory) => Err(PinVariableErr::Memory),
        Err(Spent) => Err(PinVariableErr::Spent),
    }
}
