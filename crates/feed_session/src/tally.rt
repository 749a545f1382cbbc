// How many samples were kept, held and dropped.
ghost use Rattle.std.specs.Prelude.{◌≡◌, ◌<◌, ◌≤◌, ◌^◌};
ghost use Rattle.feed_session.specs.Asking.{both, none, one_more, total};

use crate::end::Fed;

/// What came of an offer.
#[derive(Clone, Copy)]
pub(crate) enum OfferOutcome {
    Kept,
    Held,
    Dropped,
}

/// How many samples were kept, held and dropped.
#[derive(Clone, Copy)]
pub(crate) struct OfferCounts {
    pub kept: u64,
    pub held: u64,
    pub dropped: u64,
}

impl OfferCounts {
    /// None so far.
    pub(crate) fn new() -> OfferCounts
        ensures { result ≡ none }
    {
        OfferCounts {
            kept: 0,
            held: 0,
            dropped: 0,
        }
    }

    /// Counts one sample more.
    pub(crate) fn count(&mut self, outcome: OfferOutcome)
        requires { total self.old < 2 ^ 63 }
        ensures { self.new ≡ one_more outcome self.old }
    {
        match outcome {
            OfferOutcome::Kept => self.kept += 1,
            OfferOutcome::Held => self.held += 1,
            OfferOutcome::Dropped => self.dropped += 1,
        }
    }

    /// What was counted since there were so many.
    pub(crate) fn since(self, then: OfferCounts) -> OfferCounts
        requires kept { then.kept ≤ self.kept }
        requires held { then.held ≤ self.held }
        requires dropped { then.dropped ≤ self.dropped }
        ensures { both then result ≡ self }
    {
        OfferCounts {
            kept: self.kept - then.kept,
            held: self.held - then.held,
            dropped: self.dropped - then.dropped,
        }
    }

    /// The end of a session that counted so.
    pub(crate) fn fed(self) -> Fed
        ensures { result ≡ Fed.Fed self.kept self.held self.dropped }
    {
        Fed::Fed {
            kept: self.kept,
            held: self.held,
            dropped: self.dropped,
        }
    }
}
