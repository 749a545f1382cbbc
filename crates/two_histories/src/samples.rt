// Over lists of samples.
ghost use Rattle.two_histories.specs.Laws.{NothingIsLost, ReportedIsDurable, KeptIsDurable, PinShowsPrefix};
ghost use Rattle.two_histories.specs.Laws.{RowsAreKnown, MayBeginAgain};
ghost use Rattle.two_histories.specs.Examples.{FlushesTwice, LosesOne};

/// What is flushed was accepted, and what leaves a tail is durable. What a flush reports is durable from then on, and a
/// pin shows what was durable or accepted. The two examples show that such pairs are there, and that a sample may be
/// lost where a pair isn't closed.
pub fn two_histories()
    ensures nothing_is_lost { NothingIsLost }
    ensures reported_is_durable { ReportedIsDurable }
    ensures kept_is_durable { KeptIsDurable }
    ensures pin_shows_prefix { PinShowsPrefix }
    ensures rows_are_known { RowsAreKnown }
    ensures may_begin_again { MayBeginAgain }
    ensures flushes_twice { FlushesTwice }
    ensures loses_one { LosesOne }
{}
