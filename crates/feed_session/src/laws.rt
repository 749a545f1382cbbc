//! What follows from the contracts of all sessions. Each law is a clause of a function that does nothing.
ghost use Rattle.feed_session.specs.Durable.{KeptIsDurable};

use act_model::Actor;

/// Where a session says that what it kept is durable, as it does by `Fed` and by `Refused`, each sample that it kept is
/// in the durable list of a row of its name, whatever others did beside it.
pub fn kept_is_durable<A: Actor>()
    ensures { KeptIsDurable A.number A.stands A.between }
{}
