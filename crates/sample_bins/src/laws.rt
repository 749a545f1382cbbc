//! What holds of bins, whatever they are handed on to. Each law is a clause of a function that does nothing.
ghost use Rattle.sample_bins.specs.Laws.{BinsAreWhole, NumbersHaveBins, NumbersRise, FirstsAreEarliest, LastsAreLatest};
ghost use Rattle.sample_bins.specs.Laws.{GivenRise, CountsAreWhole};

/// In a list whose moments rise strictly, each number that occurs has one bin, which is exactly
/// all samples of that number.
pub fn bins()
    ensures whole { BinsAreWhole }
    ensures each { NumbersHaveBins }
    ensures rise { NumbersRise }
{}

/// Of each number `firstSample` gives the earliest sample and nothing else, and `lastSample` the latest, in the order
/// of time; `count` tells how many samples have it.
pub fn operators()
    ensures firsts { FirstsAreEarliest }
    ensures lasts { LastsAreLatest }
    ensures rise { GivenRise }
    ensures counts { CountsAreWhole }
{}
