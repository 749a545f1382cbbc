// Two passes that make an act each, and meet: what the one that is left knows, and what it gives back.
ghost use Rattle.act_model.specs.Machine.{Machine};
ghost use Rattle.act_model.specs.Step.{MayAsk};
ghost use Rattle.std.specs.Prelude.{◌≡◌, IfSome};
ghost use Rattle.turn_rooms.specs.Passes.{Goes, IsLast, IsPassOf};
ghost use Rattle.archive_actors.specs.Steps.{SharedStands, SharedStep};
ghost use Rattle.archive_actors.specs.Seats.{StandsFor};
ghost use Rattle.unit_cases.specs.Boards.{BoardLeaves, BoardStands};
ghost use Rattle.unit_cases.specs.Worked.{AddsOne, IsFirst, KnowsTwo};

use crate::board::Board;
use act_model::{Act, Answer};
use archive_actors::Shared;
use disk_model::{MemFile, ReadAt};
use series_model::{Blob, Query};
use std::alloc::Global;
use std::sync::Wait;
use turn_rooms::{Pass, Rooms, Turned};

// One turn, where an act is left.
fn turn_once(
    rt: &impl Wait,
    rooms: &Rooms<Shared<Board>>,
    pass: &mut Pass<Shared<Board>>,
    act: Act,
) -> Option<Answer<MemFile>>
    requires stands { (m : Machine) × StandsFor (SharedStep BoardStands BoardLeaves ⟦<MemFile as ReadAt>⟧.tells
        ⟦<MemFile as ReadAt>⟧.bytes ⟦<MemFile as ReadAt>⟧.faults) (SharedStands BoardStands) rooms.now pass.old m }
    requires may_ask { MayAsk act }
    ensures stands { (m : Machine) × StandsFor (SharedStep BoardStands BoardLeaves ⟦<MemFile as ReadAt>⟧.tells
        ⟦<MemFile as ReadAt>⟧.bytes ⟦<MemFile as ReadAt>⟧.faults) (SharedStands BoardStands) rooms.now pass.new m }
    ensures goes { Goes (SharedStep BoardStands BoardLeaves ⟦<MemFile as ReadAt>⟧.tells ⟦<MemFile as ReadAt>⟧.bytes
        ⟦<MemFile as ReadAt>⟧.faults) rooms.now pass.old pass.new }
    ensures adds { IfSome result (λ answer. AddsOne pass.old pass.new act answer) }
{
    match rooms.turn(rt, pass, act) {
        Turned::Done(answer) => Some(answer),
        Turned::Spent(_) => None,
    }
}

// The first pass makes one act, and a pass that is made of it another. Then they meet.
fn two_acts(
    rt: &impl Wait,
    rooms: &Rooms<Shared<Board>>,
    mut pass: Pass<Shared<Board>>,
    one: Act,
    two: Act,
) -> Option<(Pass<Shared<Board>>, Answer<MemFile>, Answer<MemFile>)>
    requires first { IsFirst (SharedStep BoardStands BoardLeaves ⟦<MemFile as ReadAt>⟧.tells ⟦<MemFile as ReadAt>⟧.bytes
        ⟦<MemFile as ReadAt>⟧.faults) rooms.now pass }
    requires stands { (m : Machine) × StandsFor (SharedStep BoardStands BoardLeaves ⟦<MemFile as ReadAt>⟧.tells
        ⟦<MemFile as ReadAt>⟧.bytes ⟦<MemFile as ReadAt>⟧.faults) (SharedStands BoardStands) rooms.now pass m }
    requires may_ask { MayAsk one × MayAsk two }
    ensures stands { IfSome result (λ all. (m : Machine) × StandsFor (SharedStep BoardStands
        BoardLeaves ⟦<MemFile as ReadAt>⟧.tells ⟦<MemFile as ReadAt>⟧.bytes ⟦<MemFile as ReadAt>⟧.faults)
        (SharedStands BoardStands) rooms.now all.0 m) }
    ensures last { IfSome result (λ all. IsLast all.0) }
    ensures knows { IfSome result (λ all. KnowsTwo all.0 one all.1 two all.2) }
{
    let Some(first) = turn_once(rt, rooms, &mut pass, one) else {
        return None;
    };
    let Ok(mut note) = rooms.part(rt, &mut pass) else {
        return None;
    };
    let Some(second) = turn_once(rt, rooms, &mut note, two) else {
        return None;
    };
    rooms.meet(&mut pass, note);
    Some((pass, first, second))
}

/// Whether the first was told of its doors and the other of its pin; whose the pin is, by what the first is told, and
/// by the board that it gives back.
pub fn worked(rt: &impl Wait, alloc: Global) -> Option<(bool, bool, Option<u64>, Option<u64>)> {
    let Ok(board) = Board::new(alloc, 0) else {
        return None;
    };
    let Ok((rooms, first)) = Rooms::new(alloc, Shared::new(board)) else {
        return None;
    };
    let name = Blob::from(Vec::from_slice(alloc, b"A:B").ok()?);
    let query = Query { from: 0, to: 9 };
    let Some((mut pass, doors, made)) = two_acts(
        rt,
        &rooms,
        first,
        Act::Doors,
        Act::Pin { name, query },
    ) else {
        return None;
    };
    let refused = turn_once(rt, &rooms, &mut pass, Act::Unpin { pin: 0 });
    let board = rooms.close(pass).into_inner();
    Some((
        matches!(&doors, Answer::DoorsLeft { doors: 0 }),
        matches!(&made, Answer::Pinned { pin: 0, .. }),
        owner_told(&refused),
        board.owner(),
    ))
}

// Whose the pin is, where it is another's.
fn owner_told(answer: &Option<Answer<MemFile>>) -> Option<u64> {
    match answer {
        Some(Answer::NotYours { owner }) => Some(*owner),
        _ => None,
    }
}
