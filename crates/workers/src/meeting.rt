// Workers end in the pass that they were drawn of.
ghost use Rattle.std.specs.Prelude.{map};
ghost use Rattle.workers.specs.Left.{LeftWith, Met};

use crate::worker::Worker;
use turn_rooms::{Pass, Room, Rooms};

/// Ends the passes of workers in this one, beside which no other is left. It knows all acts of theirs then, and no acts
/// but these and those that it knew; where there are none, it stays as it is. It takes no memory, and doesn't wait.
pub fn meet_workers<R: Room, C: Drop, E: Drop>(
    rooms: &Rooms<R>,
    pass: &mut Pass<R>,
    mut workers: Vec<Worker<R, C, E>>,
)
    requires { LeftWith R.steps rooms.now pass.old (map (λ w. w.pass) workers.items) }
    ensures { Met R.steps rooms.now pass.old pass.new (map (λ w. w.pass) workers.items) }
{
    while let Some(worker) = workers.pop() {
        let Worker { pass: note, .. } = worker;
        rooms.meet(pass, note);
    }
}
