//! What holds of an archive whatever is asked of it. Each law is a clause of a function that does nothing.
ghost use Rattle.act_model.specs.Laws.{StepKeepsSound, RunKeepsSound, AnswersAreOfActs, DurableIsAccepted};
ghost use Rattle.act_model.specs.Laws.{StepGoesOnward, RunGoesOnward, WholeIsOneList, WholeIsOverBase, WholeGrows};
ghost use Rattle.act_model.specs.Laws.{FollowsFromEnd, FlushLeavesNone, MoveKeepsLists, BegunIsNew, RetiredIsWhole};
ghost use Rattle.act_model.specs.Laws.{NoneIsDamaged, OthersOpenNone, DetailsAreOfRow, EndsAsACrashMayLeave};
ghost use Rattle.act_model.specs.Laws.{LeftBetweenActs, LeftWithinAct, LeftInRun, WholesLeftInRun, OpensBetweenActs};
ghost use Rattle.act_model.specs.Laws.{OpensWithinAct, OpensWithRows, OpensFollowing, LivesKeepSound, LivesLoseNothing};
ghost use Rattle.act_model.specs.Laws.{LivesFollow, LivesLeaveAccepted, PinAnswers, PinStandsUntilUnpinned};
ghost use Rattle.act_model.specs.Laws.{PinStandsBesideOthers, PieceOpensAsPinned, PieceIsRead, RunsJoin};
ghost use Rattle.act_model.specs.Laws.{EntriesAreSteps, OwnActsAreSteps, OwnActsJoin};

/// Whatever is asked and answered, by whomever, the state stays sound, and each act has an answer of its own.
pub fn soundness_stays()
    ensures step { StepKeepsSound }
    ensures run { RunKeepsSound }
    ensures answers { AnswersAreOfActs }
{}

/// What is durable of a variable is a front of what is accepted, and both only grow. Own lists go on to follow
/// the wholes of their bases.
pub fn lists_grow()
    ensures front { DurableIsAccepted }
    ensures step { StepGoesOnward }
    ensures run { RunGoesOnward }
{}

/// What a variable has under its name and under the names before it is one list, which rises and only grows. The own
/// list of a row follows what is before it exactly where it rises from the end of that.
pub fn wholes_grow()
    ensures list { WholeIsOneList }
    ensures over_base { WholeIsOverBase }
    ensures run { WholeGrows }
    ensures follows { FollowsFromEnd }
{}

/// One flush of at least 64 MiB leaves nothing in the intake.
pub fn one_flush_is_enough()
    ensures { FlushLeavesNone }
{}

/// However a move goes on, what is durable and what is accepted of each variable stays.
pub fn moves_keep_lists()
    ensures { MoveKeepsLists }
{}

/// What is told of a move is so: it begins under a new number, and ends with all its parts.
pub fn moves_are_as_told()
    ensures begun { BegunIsNew }
    ensures retired { RetiredIsWhole }
    ensures damaged { NoneIsDamaged }
{}

/// What is told of a variable is so of its row.
pub fn details_are_of_rows()
    ensures { DetailsAreOfRow }
{}

/// What a crash leaves of a variable extends what was durable and is extended by what is accepted: of a crash between
/// acts, within an act, and within any act of a run, there of the whole too. What an act leaves that comes to its end
/// is among what a crash within it may leave.
pub fn crashes_lose_no_more()
    ensures whole { EndsAsACrashMayLeave }
    ensures between { LeftBetweenActs }
    ensures within { LeftWithinAct }
    ensures run { LeftInRun }
    ensures wholes { WholesLeftInRun }
{}

/// What a crash leaves opens as a sound state, in which just what is durable is accepted, and own
/// lists follow as they did.
pub fn next_lives_are_sound()
    ensures between { OpensBetweenActs }
    ensures within { OpensWithinAct }
    ensures rows { OpensWithRows }
    ensures follows { OpensFollowing }
{}

/// Over any number of crashes and openings nothing that was durable is lost, nothing comes that was not accepted, and
/// own lists follow the wholes of their bases as they did: so they always do in an archive that began without rows.
pub fn lives_lose_nothing()
    ensures sound { LivesKeepSound }
    ensures durable { LivesLoseNothing }
    ensures follows { LivesFollow }
    ensures accepted { LivesLeaveAccepted }
{}

/// A pin's pieces and the tail that it tells answer the query as all that is accepted.
pub fn pins_answer()
    ensures { PinAnswers }
{}

/// A pin stands as it was made until its owner unpins it, each piece in its store or in limbo: so
/// through any acts of others.
pub fn pins_stand()
    ensures until_unpinned { PinStandsUntilUnpinned }
    ensures beside_others { PinStandsBesideOthers }
{}

/// A piece that is opened has the bytes that were pinned, whatever became of its file, and opens
/// for the pin's owner alone.
pub fn pieces_open_as_pinned()
    ensures others { OthersOpenNone }
    ensures opened { PieceOpensAsPinned }
    ensures history { PieceIsRead }
{}

/// A history of many is one list of steps, and what each of them did is a part of it in its order.
pub fn histories_are_steps()
    ensures join { RunsJoin }
    ensures steps { EntriesAreSteps }
    ensures own { OwnActsAreSteps }
    ensures own_join { OwnActsJoin }
{}
