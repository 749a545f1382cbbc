// The intake answers while another thread holds the store.
ghost use Rattle.std.specs.Prelude.{◌≡◌, IfSome};
ghost use Rattle.turn_rooms.specs.TwinPasses.{TwinTakesBack, pass_standing};
ghost use Rattle.unit_cases.specs.Halves.{IsPass};

use crate::halves::{Ask, IntakeCount, Vault, store_all, wait_at};
use std::alloc::Global;
use std::sync::atomic::{AtomicU64, Ordering};
use std::sync::{Arc, Wait};
use std::thread;
use std::thread::Threads;
use turn_rooms::{Tried, Twin, TwinPass};

// Flushes, and holds the store meanwhile.
fn hold(
    rt: &impl Wait,
    twin: &Twin<Vault, IntakeCount>,
    mut pass: TwinPass<Vault, IntakeCount>,
) -> TwinPass<Vault, IntakeCount>
    requires { IsPass twin.now pass }
    ensures { IsPass twin.now result × (pass_standing result ≡ pass_standing pass) }
{
    store_all(rt, twin, &mut pass, true);
    pass
}

// Offers while the store is held.
fn offer(
    gate: &AtomicU64,
    twin: &Twin<Vault, IntakeCount>,
    mut pass: TwinPass<Vault, IntakeCount>,
) -> (TwinPass<Vault, IntakeCount>, bool)
    requires { IsPass twin.now pass }
    ensures { IsPass twin.now result.0 × (pass_standing result.0 ≡ pass_standing pass) }
{
    wait_at(gate, 1);
    let tried = twin.try_intake_turn(&mut pass, Ask::Offer);
    gate.store(2, Ordering::SeqCst);
    (pass, matches!(tried, Tried::Done(_)))
}

fn hold_and_offer<R: Threads + Wait + Sync>(
    rt: &R,
    gate: &AtomicU64,
    twin: &Twin<Vault, IntakeCount>,
    mut pass: TwinPass<Vault, IntakeCount>,
) -> Option<(TwinPass<Vault, IntakeCount>, bool)>
    requires { IsPass twin.now pass }
    ensures { IfSome result (λ p. IsPass twin.now p.0 × TwinTakesBack pass p.0) }
{
    let Ok(note) = twin.part(rt, &mut pass) else {
        return None;
    };
    let (mut pass, (note, done)) = thread::join(
        rt,
        || -> TwinPass<Vault, IntakeCount>
            requires { IsPass twin.now pass }
            ensures { IsPass twin.entry.now result × (pass_standing result ≡ pass_standing pass) }
        { hold(rt, twin, pass) },
        || -> (TwinPass<Vault, IntakeCount>, bool)
            requires { IsPass twin.now note }
            ensures { IsPass twin.entry.now result.0 × (pass_standing result.0 ≡ pass_standing note) }
        { offer(gate, twin, note) },
    );
    twin.meet(&mut pass, note);
    Some((pass, done))
}

/// Whether an offer was done while another thread held the store, how many are safe, and how many were offered.
pub fn held<R: Threads + Wait + Sync>(rt: &R, alloc: Global) -> Option<(bool, u64, u64)> {
    let gate = Arc::new(alloc, AtomicU64::new(0)).ok()?;
    let theirs = Arc::try_clone(&gate).ok()?;
    let vault = Vault { flushed: 0, gate };
    let tally = IntakeCount {
        accepted: 5,
        kept: 5,
    };
    let Ok((twin, pass)) = Twin::new(alloc, vault, tally) else {
        return None;
    };
    let Some((pass, done)) = hold_and_offer(rt, &theirs, &twin, pass) else {
        return None;
    };
    let (vault, tally) = twin.close(pass);
    Some((done, vault.flushed, tally.accepted))
}
