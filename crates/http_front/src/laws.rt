//! What follows from the contracts, for all bytes.
ghost use Rattle.http_front.specs.Laws.{OneAnswer};

/// Where the bytes are told, the answer of `read_request` depends on them alone, and not on the
/// pieces in which they came, but for a failed read and want of memory, and for which of the two
/// answers tells that there is no head.
pub fn one_answer()
    ensures { OneAnswer }
{}
