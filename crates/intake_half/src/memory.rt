// What is kept in memory of a row beside its tail.
ghost use Rattle.std.specs.Prelude.{◌≡◌};
ghost use Rattle.intake_half.specs.Memory.{sampling_by, cleared};

use intake::Scan;
use pb_messages::Method;

/// What is kept of a row beside its tail.
#[derive(Debug, Drop)]
pub struct RowMemory {
    /// The first moment that is later than all its accepted samples.
    pub next: u64,
    /// What it holds for its next tick, if it is sampled.
    pub scan: Option<Scan>,
}

/// What is kept of the sampling of a row that was just registered, or opened again.
pub fn sampling(method: &Method) -> Option<Scan>
    ensures { result ≡ sampling_by method.now }
{
    match method {
        Method::Monitor => None,
        Method::Scan { period } => Some(Scan::new(*period)),
    }
}

/// Gives up what a sampled row holds.
pub fn clear(memory: &mut RowMemory)
    ensures { memory.new ≡ cleared memory.old }
{
    if let Some(scan) = &mut memory.scan {
        scan.clear();
    }
}
