//! What follows from the contracts, for all readers of lines and all clocks.
ghost use Rattle.edge_io.specs.Lines.{OneAnswer};
ghost use Rattle.edge_io.specs.Moments.{GivesOn, GivesNothing, GivesOneList};

/// Where the bytes are told, each answer of `Lines::next` but want of memory and a failed read comes
/// exactly in its case: no two cases hold of the same bytes.
pub fn one_answer()
    ensures { OneAnswer }
{}

/// What a clock gives in two steps it gives in one, and where nothing is done it gives nothing.
#[tactic(auto, using(crate::proofs::Clocks::gives_on))]
pub fn clocks_go_on()
    ensures steps { GivesOn }
    ensures nothing { GivesNothing }
{}

/// Where a clock tells the moments to come, so many calls give one list of moments only.
#[tactic(auto, using(crate::proofs::Clocks::gives_one_list))]
pub fn one_list_of_moments()
    ensures { GivesOneList }
{}
