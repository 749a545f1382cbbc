// Two small halves over a twin: an intake that counts offers, and a store that keeps how many were flushed.
//
// A flush looks at the intake, tells the store what it saw, and has the intake let go of what the
// store has. Nobody holds both.
ghost use Rattle.std.specs.Prelude.{◌≡◌, ◌≤◌, ℕ};
ghost use Rattle.turn_rooms.specs.TwinPasses.{pass_standing};
ghost use Rattle.unit_cases.specs.Halves.{tally_steps, tally_fits, vault_steps, flush_allowed, take_allowed, begins};
ghost use Rattle.unit_cases.specs.Halves.{IsPass};
ghost use Rattle.unit_cases.specs.Taking.{take_fits};

use std::alloc::Global;
use std::sync::atomic::{AtomicU64, Ordering};
use std::sync::{Arc, Wait};
use std::thread;
use turn_rooms::{Beside, Room, Turned, Twin, TwinPass};

/// What a store is asked.
#[derive(Drop)]
pub struct Flush {
    pub upto: u64,
    /// Whether it holds the store until somebody writes 2 at the gate.
    pub holds: bool,
}

/// How many are safe.
#[derive(Drop)]
pub struct Vault {
    pub flushed: u64,
    pub gate: Arc<AtomicU64, Global>,
}

// Waits for a number at the gate, for a bounded number of rounds.
pub fn wait_at(gate: &AtomicU64, number: u64) {
    for _ in 0..10_000_000 {
        if gate.load(Ordering::SeqCst) == number {
            return;
        }
        thread::yield_now();
    }
}

/// What an intake is asked.
#[derive(Drop)]
pub enum Ask {
    Offer,
    Look,
    Take(u64),
}

/// How many were offered, and how many of them it still keeps.
#[derive(Drop)]
pub struct IntakeCount {
    pub accepted: u64,
    pub kept: u64,
}

impl Room for Vault {
    type Act = Flush;

    type Answer = u64;

    ghost asks = { λ act. Unit {0} };

    ghost fits = { λ room who n act. Unit {0} };

    ghost steps = { vault_steps };

    fn apply(&mut self, _who: u64, _n: u64, act: Flush) -> u64 {
        if self.flushed < act.upto {
            self.flushed = act.upto;
        }
        if act.holds {
            self.gate.store(1, Ordering::SeqCst);
            wait_at(&self.gate, 2);
        }
        self.flushed
    }
}

impl Room for IntakeCount {
    type Act = Ask;

    type Answer = u64;

    ghost asks = { λ act. Unit {0} };

    ghost fits = { λ room who n act. tally_fits room act };

    ghost steps = { tally_steps };

    fn apply(&mut self, _who: u64, _n: u64, act: Ask) -> u64 {
        match act {
            Ask::Offer => {
                if self.accepted < u64::MAX {
                    self.accepted += 1;
                }
                self.accepted
            }
            Ask::Look => self.accepted,
            Ask::Take(safe) => {
                self.kept = self.accepted - safe;
                self.kept
            }
        }
    }
}

impl Beside<Vault> for IntakeCount {
    ghost store_allows = { flush_allowed };

    ghost intake_allows = { take_allowed };

    ghost together = { begins };

    ghost store_fits = { λ s i h g known who act halves legal legal' tied pre may ask few. tt };

    ghost intake_fits = { take_fits };
}

/// Has the store keep what the intake has, and the intake let go of it.
pub fn store_all(
    rt: &impl Wait,
    twin: &Twin<Vault, IntakeCount>,
    pass: &mut TwinPass<Vault, IntakeCount>,
    holds: bool,
) -> bool
    requires { IsPass twin.now pass.old }
    ensures pass { IsPass twin.now pass.new }
    ensures same { pass_standing pass.new ≡ pass_standing pass.old }
{
    let Turned::Done(seen) = twin.intake_turn(rt, pass, Ask::Look) else {
        return false;
    };
    let Turned::Done(_) = twin.store_turn(rt, pass, Flush { upto: seen, holds }) else {
        return false;
    };
    matches!(twin.intake_turn(rt, pass, Ask::Take(seen)), Turned::Done(_))
}
