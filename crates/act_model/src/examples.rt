//! Small histories, worked out. Each is a clause of a function that does nothing.
ghost use Rattle.act_model.specs.Examples.{LateAndEarlyOffers, APauseGivesUpWhatIsHeld, AFullIntakeIsFlushed};
ghost use Rattle.act_model.specs.Examples.{PinsAreTheirOwners, ARenamedVariableGoesOn, ANewNameWaitsForTheFlush};

/// Samples that aren't later than a row's last, or are too far ahead, are dropped with the reason.
pub fn late_and_early_offers()
    ensures { LateAndEarlyOffers }
{}

/// A pause gives up what a sampled row holds, and until it is resumed its samples are dropped.
pub fn a_pause_gives_up_what_is_held()
    ensures { APauseGivesUpWhatIsHeld }
{}

/// An intake of 64 MiB is full, and a flush makes room.
pub fn a_full_intake_is_flushed()
    ensures { AFullIntakeIsFlushed }
{}

/// A renamed variable goes on under its new name, with samples later than its past alone. Its old name takes none.
pub fn a_renamed_variable_goes_on()
    ensures { ARenamedVariableGoesOn }
{}

/// A variable whose samples aren't all durable gets no new name.
pub fn a_new_name_waits_for_the_flush()
    ensures { ANewNameWaitsForTheFlush }
{}

/// A pin is read and given up by its owner alone, and then it is gone.
pub fn pins_are_their_owners()
    ensures { PinsAreTheirOwners }
{}
