// Of the machine that an archive is.
ghost use Rattle.act_model.specs.Machine.{Machine};
ghost use Rattle.two_histories.specs.ArchiveHistories.{IsIntakeOf, intake_first};
ghost use Rattle.two_histories.specs.ArchiveLaws.{StoreStaysSound, NothingIsLost, BasesAreDurable};
ghost use Rattle.two_histories.specs.ArchiveLaws.{IntakeActsAlone, KeptIsAccepted, NamesStayApart};
ghost use Rattle.two_histories.specs.ArchiveLaws.{ReportedIsDurable, KeptIsDurable};

/// What is kept of an offer is accepted, what is flushed was accepted, what leaves a tail is durable, and what was kept
/// before a flush of all is durable from then on. Where a variable has a new name, all that was accepted under the old
/// one is durable. No two rows have one name, of those that the intake knows and those that it is told. An act on the
/// intake of a state is the machine's.
pub fn two_histories_of_an_archive()
    ensures store_stays_sound { StoreStaysSound }
    ensures kept_is_accepted { KeptIsAccepted }
    ensures nothing_is_lost { NothingIsLost }
    ensures bases_are_durable { BasesAreDurable }
    ensures names_stay_apart { NamesStayApart }
    ensures intake_begins { (m : Machine) → IsIntakeOf m (intake_first m) }
    ensures intake_acts_alone { IntakeActsAlone }
    ensures reported_is_durable { ReportedIsDurable }
    ensures kept_is_durable { KeptIsDurable }
{}
