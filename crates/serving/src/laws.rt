// How a service ends, by lists of acts and by passes.
ghost use Rattle.std.specs.Prelude.{◌≡◌, ◌≢◌, ℕ, List, [], ◌∷◌, ◌++◌, length};
ghost use Rattle.act_model.specs.Machine.{Machine};
ghost use Rattle.act_model.specs.History.{Entry};
ghost use Rattle.serving.specs.declared.ends.FlushEnd.TheVariants.{LeavesNone};
ghost use Rattle.serving.specs.declared.ends.MoverEnd.{MoverEnd};
ghost use Rattle.serving.specs.declared.ends.MoverEnd.TheVariants.{MeetsNoMemory};
ghost use Rattle.serving.specs.End.{ServesToEnd, EndsWell, MayEndSo};
ghost use Rattle.std.specs.List.{AllZip};
ghost use Rattle.turn_rooms.specs.declared.rooms.Pass.{Pass};
ghost use Rattle.turn_rooms.specs.declared.rooms.Rooms.{Rooms};
ghost use Rattle.act_model.specs.declared.acts.Act.{Act};
ghost use Rattle.act_model.specs.declared.acts.Answer.{Answer};
ghost use Rattle.archive_actors.specs.declared.shared.Shared.{Shared};
ghost use Rattle.archive_actors.specs.Seats.{StandsFor};
ghost use Rattle.archive_actors.specs.Steps.{SharedStands};
ghost use Rattle.serving.specs.Rounds.{IsFlushing, IsMoving, IsShift};
ghost use Rattle.workers.specs.Left.{Drawn, Met};
ghost use Rattle.serving.specs.Acting.{Acts, EndsInTurns, room_reply, room_steps};

use archive_actors::Applies;

/// Where the flusher's last flush left nothing and the mover didn't lack memory: no doors are left and of each row all
/// that was accepted is durable. Each row that was there as the last door was done was ticked after that. In both
/// stores nothing was left to move, or the mover met a fault after that. `possible` says that serving can come to this.
pub fn serving_ends()
    ensures ends { (old new : Machine) (entries : List Entry) (workers : List ℕ)
        (flusher mover : ℕ) (moved : MoverEnd)
        → ServesToEnd old entries new workers flusher mover LeavesNone moved
        → moved ≢ MeetsNoMemory → EndsWell old entries new mover }
    ensures possible { MayEndSo }
{}

/// Workers, a flusher and a mover were drawn of a pass that stood for a state with as many doors as there are workers.
/// Each did its work to its end: the workers their shifts, the flusher up to a flush that left nothing, and the mover
/// not for want of memory. All ended in the pass again. Then what that pass has come to know is a run that ends well.
pub fn the_end_of_a_service<X: Applies>()
    ensures { (rooms : Rooms (Shared X X.Reader) Act (Answer X.Reader))
        (old drawn new flusher flusher' mover mover' : Pass (Shared X X.Reader) Act (Answer X.Reader))
        (workers workers' : List (Pass (Shared X X.Reader) Act (Answer X.Reader))) (moved : MoverEnd) (m : Machine)
        → StandsFor (room_steps X.Applies X.Reader.ReadAt) (SharedStands X.stands) rooms old m
        → m.doors ≡ length workers
        → Drawn (room_steps X.Applies X.Reader.ReadAt) rooms old drawn (workers ++ flusher ∷ mover ∷ [])
        → AllZip (λ n n'. Acts (room_steps X.Applies X.Reader.ReadAt) (room_reply X.Reader.ReadAt) rooms n IsShift n')
        workers workers'
        → Acts (room_steps X.Applies X.Reader.ReadAt) (room_reply X.Reader.ReadAt) rooms flusher
        (IsFlushing LeavesNone) flusher'
        → Acts (room_steps X.Applies X.Reader.ReadAt) (room_reply X.Reader.ReadAt) rooms mover (IsMoving moved) mover'
        → moved ≢ MeetsNoMemory
        → Met (room_steps X.Applies X.Reader.ReadAt) rooms drawn new (workers' ++ flusher' ∷ mover' ∷ [])
        → EndsInTurns (room_steps X.Applies X.Reader.ReadAt) (SharedStands X.stands)
        (room_reply X.Reader.ReadAt) rooms old new m mover.number }
{}
