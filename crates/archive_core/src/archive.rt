// The archive and what it is made of.
use crate::memory::Doubt;
use disk_model::Disk;
use etl_mover::Move;
use etl_rules::Config;
use intake::Intake;
use intake_half::RowMemory;
use moves::RunningMoves;
use std::alloc::Global;
use tier_store::TierStore;

/// What of an archive is on its disk or goes on there: three stores, the change of them that stands in doubt, and the
/// moves that run between them. It holds nothing of the rows' memory, and what its calls say holds beside any.
#[derive(Drop)]
pub struct StoreHalf<D: Disk> {
    pub(crate) alloc: Global,
    pub(crate) store: TierStore<D>,
    pub(crate) doubt: Option<Doubt>,
    pub(crate) config: Config,
    pub(crate) moves: RunningMoves<Move>,
}

/// Three stores on a disk with the moves that run between them, and the intake before them.
#[derive(Drop)]
pub struct Archive<D: Disk> {
    pub(crate) alloc: Global,
    pub(crate) half: StoreHalf<D>,
    pub(crate) intake: Intake,
    pub(crate) rows: Vec<RowMemory>,
    pub(crate) doors: u64,
}
