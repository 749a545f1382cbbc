//! Laws of what a batch takes, over tails alone, and of sampled rows, over events alone.
ghost use Rattle.intake.specs.BatchLaws.{TakesAFront, TakesEnough, TakesNoMore};
ghost use Rattle.intake.specs.HistoryLaws.{KeepsHistory};

/// A batch is a front of all whole tails: the shortest that has `limit` bytes and at least one,
/// and all where there is none.
pub fn batches()
    ensures front { TakesAFront }
    ensures enough { TakesEnough }
    ensures no_more { TakesNoMore }
{}

/// What a row keeps through its events is what their history says.
pub fn history()
    ensures keeps { KeepsHistory }
{}
