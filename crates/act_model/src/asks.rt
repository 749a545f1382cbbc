//! Each act as a function of its own, which answers just what that act may be answered.
//!
//! Each does what [`ask`](crate::ask) does, and requires what its act requires. `asked` says that just this act was
//! made under the actor's number, with the answer that the result stands for, or none, where no act is left.
ghost use Rattle.std.specs.Prelude.{◌≡◌, ◌≤◌};
ghost use Rattle.act_model.specs.Event.{IsEvent};
ghost use Rattle.act_model.specs.Machine.{Machine};
ghost use Rattle.act_model.specs.Step.{MayAsk};
ghost use Rattle.act_model.specs.Answers.{is_answer_to};
ghost use Rattle.act_model.specs.Asks.{Asked, registered_reply, paused_reply, resumed_reply, renamed_reply};
ghost use Rattle.act_model.specs.Asks.{offered_reply, ticked_reply, flushed_reply, move_begun_reply};
ghost use Rattle.act_model.specs.Asks.{move_stepped_reply, swept_reply, pinned_reply, piece_opened_reply};
ghost use Rattle.act_model.specs.Asks.{unpinned_reply, names_told_reply, details_told_reply, doors_left_reply};

use crate::actor::{Actor, Spent, ask};
use crate::acts::Act;
use crate::answers::{
    DetailsTold, DoorsLeft, Flushed, MoveBegun, MoveStepped, NamesTold, Offered, Paused,
    PieceOpened, Pinned, Registered, Renamed, Resumed, Swept, Ticked, Unpinned,
};
use crate::narrow::OwnAnswer;
use pb_messages::{About, PayloadType};
use pv_name::PvName;
use series_model::{Blob, Query};

// One act, answered by its own answers.
fn ask_own<A: Actor, N: OwnAnswer<A::Reader>>(actor: &mut A, act: Act) -> Result<N, Spent>
    requires stands { (m : Machine) × A.stands actor.old m }
    requires may_ask { MayAsk act }
    requires own { N.is_own ≡ is_answer_to act }
    ensures asked { Asked A.number A.between A.is_spent N.reply actor.old act result actor.new }
    ensures stands { (n : Machine) × A.stands actor.new n }
{
    let answer = ask(actor, act)?;
    Ok(N::narrow(answer))
}

/// Asks for a row for a variable.
pub fn ask_register<A: Actor>(
    actor: &mut A,
    name: PvName,
    about: About,
) -> Result<Registered, Spent>
    requires stands { (m : Machine) × A.stands actor.old m }
    ensures asked { Asked A.number A.between A.is_spent registered_reply actor.old
        (Act.Register name about) result actor.new }
    ensures stands { (n : Machine) × A.stands actor.new n }
{
    ask_own(actor, Act::Register { name, about })
}

/// Asks that a variable's samples are dropped from now on.
pub fn ask_pause<A: Actor>(actor: &mut A, name: Blob) -> Result<Paused, Spent>
    requires stands { (m : Machine) × A.stands actor.old m }
    ensures asked { Asked A.number A.between A.is_spent paused_reply actor.old (Act.Pause name) result actor.new }
    ensures stands { (n : Machine) × A.stands actor.new n }
{
    ask_own(actor, Act::Pause { name })
}

/// Asks that a variable's samples are taken again.
pub fn ask_resume<A: Actor>(actor: &mut A, name: Blob) -> Result<Resumed, Spent>
    requires stands { (m : Machine) × A.stands actor.old m }
    ensures asked { Asked A.number A.between A.is_spent resumed_reply actor.old (Act.Resume name) result actor.new }
    ensures stands { (n : Machine) × A.stands actor.new n }
{
    ask_own(actor, Act::Resume { name })
}

/// Asks for a new name for a variable, which goes on in a new row.
pub fn ask_rename<A: Actor>(actor: &mut A, name: Blob, newname: PvName) -> Result<Renamed, Spent>
    requires stands { (m : Machine) × A.stands actor.old m }
    ensures asked { Asked A.number A.between A.is_spent renamed_reply actor.old
        (Act.Rename name newname) result actor.new }
    ensures stands { (n : Machine) × A.stands actor.new n }
{
    ask_own(actor, Act::Rename { name, newname })
}

/// Offers a sample: `line` is an event of `ty` at the moment `t`, escaped and without its newline. Moments
/// are nanoseconds since 1970-01-01T00:00:00Z.
pub fn ask_offer<A: Actor>(
    actor: &mut A,
    name: Blob,
    ty: PayloadType,
    t: u64,
    line: Blob,
    now: u64,
) -> Result<Offered, Spent>
    requires stands { (m : Machine) × A.stands actor.old m }
    requires event { IsEvent ty (record { t = t; line = line }) }
    ensures asked { Asked A.number A.between A.is_spent offered_reply actor.old
        (Act.Offer name ty t line now) result actor.new }
    ensures stands { (n : Machine) × A.stands actor.new n }
{
    ask_own(
        actor,
        Act::Offer {
            name,
            ty,
            t,
            line,
            now,
        },
    )
}

/// Asks that what a sampled row holds is tried, if its period is over.
pub fn ask_tick<A: Actor>(actor: &mut A, row: u32, now: u64) -> Result<Ticked, Spent>
    requires stands { (m : Machine) × A.stands actor.old m }
    ensures asked { Asked A.number A.between A.is_spent ticked_reply actor.old (Act.Tick row now) result actor.new }
    ensures stands { (n : Machine) × A.stands actor.new n }
{
    ask_own(actor, Act::Tick { row, now })
}

/// Asks that tails become durable: whole ones, in the order of rows, until they have `limit` bytes, at least 1.
pub fn ask_flush<A: Actor>(actor: &mut A, limit: u64) -> Result<Flushed, Spent>
    requires stands { (m : Machine) × A.stands actor.old m }
    requires some { 1 ≤ limit }
    ensures asked { Asked A.number A.between A.is_spent flushed_reply actor.old (Act.Flush limit) result actor.new }
    ensures stands { (n : Machine) × A.stands actor.new n }
{
    ask_own(actor, Act::Flush { limit })
}

/// Asks that a move of a row's oldest partitions in store 1 or 2 begins.
pub fn ask_move_begin<A: Actor>(actor: &mut A, store: u8, now: u64) -> Result<MoveBegun, Spent>
    requires stands { (m : Machine) × A.stands actor.old m }
    requires low { 1 ≤ store }
    requires high { store ≤ 2 }
    ensures asked { Asked A.number A.between A.is_spent move_begun_reply actor.old
        (Act.MoveBegin store now) result actor.new }
    ensures stands { (n : Machine) × A.stands actor.new n }
{
    ask_own(actor, Act::MoveBegin { store, now })
}

/// Asks that the move of this number goes on.
pub fn ask_move_step<A: Actor>(actor: &mut A, m: u32) -> Result<MoveStepped, Spent>
    requires stands { (m : Machine) × A.stands actor.old m }
    ensures asked { Asked A.number A.between A.is_spent move_stepped_reply actor.old (Act.MoveStep m) result actor.new }
    ensures stands { (n : Machine) × A.stands actor.new n }
{
    ask_own(actor, Act::MoveStep { m })
}

/// Asks that files go that nobody needs any more.
pub fn ask_sweep<A: Actor>(actor: &mut A) -> Result<Swept, Spent>
    requires stands { (m : Machine) × A.stands actor.old m }
    ensures asked { Asked A.number A.between A.is_spent swept_reply actor.old Act.Sweep result actor.new }
    ensures stands { (n : Machine) × A.stands actor.new n }
{
    ask_own(actor, Act::Sweep)
}

/// Asks for a hold on a variable's files, as they are now.
pub fn ask_pin<A: Actor>(actor: &mut A, name: Blob, query: Query) -> Result<Pinned, Spent>
    requires stands { (m : Machine) × A.stands actor.old m }
    ensures asked { Asked A.number A.between A.is_spent pinned_reply actor.old (Act.Pin name query) result actor.new }
    ensures stands { (n : Machine) × A.stands actor.new n }
{
    ask_own(actor, Act::Pin { name, query })
}

/// Asks for a reader of piece `i` of a pin.
pub fn ask_open_piece<A: Actor>(
    actor: &mut A,
    pin: u32,
    i: u32,
) -> Result<PieceOpened<A::Reader>, Spent>
    requires stands { (m : Machine) × A.stands actor.old m }
    ensures asked { Asked A.number A.between A.is_spent
        (piece_opened_reply A.Reader.tells A.Reader.bytes A.Reader.faults) actor.old
        (Act.OpenPiece pin i) result actor.new }
    ensures stands { (n : Machine) × A.stands actor.new n }
{
    ask_own(actor, Act::OpenPiece { pin, i })
}

/// Asks that a pin goes.
pub fn ask_unpin<A: Actor>(actor: &mut A, pin: u32) -> Result<Unpinned, Spent>
    requires stands { (m : Machine) × A.stands actor.old m }
    ensures asked { Asked A.number A.between A.is_spent unpinned_reply actor.old (Act.Unpin pin) result actor.new }
    ensures stands { (n : Machine) × A.stands actor.new n }
{
    ask_own(actor, Act::Unpin { pin })
}

/// Asks for the names of rows from a number on, `most` of them, at least 1.
pub fn ask_names<A: Actor>(actor: &mut A, from: u32, most: u32) -> Result<NamesTold, Spent>
    requires stands { (m : Machine) × A.stands actor.old m }
    requires some { 1 ≤ most }
    ensures asked { Asked A.number A.between A.is_spent names_told_reply actor.old
        (Act.Names from most) result actor.new }
    ensures stands { (n : Machine) × A.stands actor.new n }
{
    ask_own(actor, Act::Names { from, most })
}

/// Asks what is known of a variable.
pub fn ask_details<A: Actor>(actor: &mut A, name: Blob) -> Result<DetailsTold, Spent>
    requires stands { (m : Machine) × A.stands actor.old m }
    ensures asked { Asked A.number A.between A.is_spent details_told_reply actor.old
        (Act.Details name) result actor.new }
    ensures stands { (n : Machine) × A.stands actor.new n }
{
    ask_own(actor, Act::Details { name })
}

/// Asks how many doors are open.
pub fn ask_doors<A: Actor>(actor: &mut A) -> Result<DoorsLeft, Spent>
    requires stands { (m : Machine) × A.stands actor.old m }
    ensures asked { Asked A.number A.between A.is_spent doors_left_reply actor.old Act.Doors result actor.new }
    ensures stands { (n : Machine) × A.stands actor.new n }
{
    ask_own(actor, Act::Doors)
}

/// Tells that a door has ended.
pub fn ask_door_done<A: Actor>(actor: &mut A) -> Result<DoorsLeft, Spent>
    requires stands { (m : Machine) × A.stands actor.old m }
    ensures asked { Asked A.number A.between A.is_spent doors_left_reply actor.old Act.DoorDone result actor.new }
    ensures stands { (n : Machine) × A.stands actor.new n }
{
    ask_own(actor, Act::DoorDone)
}
