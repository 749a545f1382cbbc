// Two who share a board, each by turns of a pass of its own.
ghost use Rattle.act_model.specs.Machine.{Machine};
ghost use Rattle.act_model.specs.Step.{MayAsk};
ghost use Rattle.std.specs.Prelude.{◌≡◌, IfOk, IfSome};
ghost use Rattle.turn_rooms.specs.Passes.{standing};
ghost use Rattle.archive_actors.specs.Steps.{SharedStands, SharedStep};
ghost use Rattle.archive_actors.specs.Seats.{StandsFor};
ghost use Rattle.unit_cases.specs.Boards.{BoardLeaves, BoardStands};

use crate::board::Board;
use act_model::{Act, Actor, Answer, Spent};
use archive_actors::{Seated, Shared};
use disk_model::{MemFile, ReadAt};
use series_model::{Blob, Query};
use std::alloc::{AllocError, Global};
use std::sync::Wait;
use turn_rooms::{Pass, Rooms};

// One act of one who is seated.
fn act_seated(
    rt: &impl Wait,
    rooms: &Rooms<Shared<Board>>,
    pass: &mut Pass<Shared<Board>>,
    act: Act,
) -> Result<Answer<MemFile>, Spent>
    requires stands { (m : Machine) × StandsFor (SharedStep BoardStands BoardLeaves ⟦<MemFile as ReadAt>⟧.tells
        ⟦<MemFile as ReadAt>⟧.bytes ⟦<MemFile as ReadAt>⟧.faults) (SharedStands BoardStands) rooms.now pass.old m }
    requires may_ask { MayAsk act }
    ensures stands { (m : Machine) × StandsFor (SharedStep BoardStands BoardLeaves ⟦<MemFile as ReadAt>⟧.tells
        ⟦<MemFile as ReadAt>⟧.bytes ⟦<MemFile as ReadAt>⟧.faults) (SharedStands BoardStands) rooms.now pass.new m }
{
    match Seated::new(rt, rooms, pass).act(act) {
        Ok(answer) => Ok(answer),
        Err(spent) => Err(spent),
    }
}

// A board that is shared, and two passes.
fn shared_board(
    rt: &impl Wait,
    alloc: Global,
) -> Option<
    (
        Rooms<Shared<Board>>,
        Pass<Shared<Board>>,
        Pass<Shared<Board>>,
    ),
>
    ensures { IfSome result (λ all. ((m : Machine) × StandsFor (SharedStep BoardStands
        BoardLeaves ⟦<MemFile as ReadAt>⟧.tells ⟦<MemFile as ReadAt>⟧.bytes ⟦<MemFile as ReadAt>⟧.faults)
        (SharedStands BoardStands) all.0 all.1 m)
        × ((m : Machine) × StandsFor (SharedStep BoardStands BoardLeaves ⟦<MemFile as ReadAt>⟧.tells
        ⟦<MemFile as ReadAt>⟧.bytes ⟦<MemFile as ReadAt>⟧.faults) (SharedStands BoardStands) all.0 all.2 m)) }
{
    let Ok(board) = Board::new(alloc, 0) else {
        return None;
    };
    let Ok((rooms, mut first)) = Rooms::new(alloc, Shared::new(board)) else {
        return None;
    };
    let Ok(second) = rooms.part(rt, &mut first) else {
        return None;
    };
    Some((rooms, first, second))
}

/// What is told of a pin that the first makes: to the second, to the first, and to the second again.
pub fn told_of_a_pin(rt: &impl Wait, alloc: Global) -> Option<(bool, Option<u64>, bool, bool)> {
    let (rooms, mut first, mut second) = shared_board(rt, alloc)?;
    let name = Blob::from(Vec::from_slice(alloc, b"A:B").ok()?);
    let query = Query { from: 0, to: 9 };
    let made = act_seated(rt, &rooms, &mut first, Act::Pin { name, query });
    let refused = act_seated(rt, &rooms, &mut second, Act::Unpin { pin: 0 });
    let gone = act_seated(rt, &rooms, &mut first, Act::Unpin { pin: 0 });
    let none = act_seated(rt, &rooms, &mut second, Act::Unpin { pin: 0 });
    Some((
        matches!(&made, Ok(Answer::Pinned { pin: 0, .. })),
        owner_told(&refused),
        matches!(&gone, Ok(Answer::Unpinned)),
        matches!(&none, Ok(Answer::NoPin)),
    ))
}

// Whose the pin is, where it is another's.
fn owner_told(answer: &Result<Answer<MemFile>, Spent>) -> Option<u64> {
    match answer {
        Ok(Answer::NotYours { owner }) => Some(*owner),
        _ => None,
    }
}
