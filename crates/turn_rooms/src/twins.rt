//! The types of callers: two halves that threads share, and a pass for both.
ghost use Rattle.std.specs.Prelude.{◌≡◌};

use crate::beside::Beside;
use crate::resting::Resting;
use crate::room::Room;
use crate::twin_rule::{TwinSeat, TwinTable};

/// Two halves that threads share by reference.
///
/// Its table has three words and two slots. Word 0 and slot 0 are the store's, word 1 and slot 1 the intake's. Each of
/// these words is twice the number of its half's acts, and one more while the half is out of its slot. Word 2 counts
/// the numbers of passes that are drawn.
#[derive(Drop)]
pub struct Twin<S: Room, I: Beside<S>> {
    pub(crate) table: TwinTable<S, I>,
    pub(crate) store_resting: Resting,
    pub(crate) intake_resting: Resting,
    ghost shape: { (table.shared.table_id.words ≡ 3) × (table.shared.table_id.slots ≡ 2) },
}

/// What one thread acts with: a number that no other pass has, and a beginning of either half's
/// history, which proofs alone see.
#[derive(Drop)]
pub struct TwinPass<S: Room, I: Beside<S>> {
    pub(crate) number: u64,
    pub(crate) seat: TwinSeat<S, I>,
}
