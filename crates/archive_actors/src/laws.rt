//! What follows of turns, for all who are seated at one archive.
ghost use Rattle.turn_rooms.specs.declared.rooms.Pass.{Pass};
ghost use Rattle.turn_rooms.specs.declared.rooms.Rooms.{Rooms};
ghost use Rattle.turn_rooms.specs.Passes.{Meets, Parts};
ghost use Rattle.act_model.specs.declared.acts.Act.{Act};
ghost use Rattle.act_model.specs.declared.acts.Answer.{Answer};
ghost use Rattle.act_model.specs.Reply.{reply_of};
ghost use Rattle.archive_actors.specs.declared.shared.Shared.{Shared};
ghost use Rattle.archive_actors.specs.Steps.{SharedStands, SharedStep};
ghost use Rattle.archive_actors.specs.Seats.{ActsAfter};

use crate::applies::Applies;

/// What one finished before another began is there for the other: where a pass took another in, or was made from it,
/// each of its acts is a step in a state that goes onward from every state that the other stood for. So what a
/// retrieval is over, which is all that is accepted at its pin, begins with all that was accepted then.
pub fn acts_come_after_those_known<X: Applies>()
    ensures meets { (rooms : Rooms (Shared X X.Reader) Act (Answer X.Reader))
        (old new note : Pass (Shared X X.Reader) Act (Answer X.Reader))
        → Meets (SharedStep X.stands X.leaves X.Reader.tells X.Reader.bytes X.Reader.faults) rooms old new note
        → ActsAfter (SharedStep X.stands X.leaves X.Reader.tells X.Reader.bytes X.Reader.faults) (SharedStands X.stands)
        (reply_of X.Reader.tells X.Reader.bytes X.Reader.faults) rooms old new
        × ActsAfter (SharedStep X.stands X.leaves X.Reader.tells X.Reader.bytes X.Reader.faults) (SharedStands X.stands)
        (reply_of X.Reader.tells X.Reader.bytes X.Reader.faults) rooms note new }
    ensures parts { (rooms : Rooms (Shared X X.Reader) Act (Answer X.Reader))
        (old new note : Pass (Shared X X.Reader) Act (Answer X.Reader))
        → Parts (SharedStep X.stands X.leaves X.Reader.tells X.Reader.bytes X.Reader.faults) rooms old new note
        → ActsAfter (SharedStep X.stands X.leaves X.Reader.tells X.Reader.bytes X.Reader.faults) (SharedStands X.stands)
        (reply_of X.Reader.tells X.Reader.bytes X.Reader.faults) rooms old new
        × ActsAfter (SharedStep X.stands X.leaves X.Reader.tells X.Reader.bytes X.Reader.faults) (SharedStands X.stands)
        (reply_of X.Reader.tells X.Reader.bytes X.Reader.faults) rooms old note }
{}
