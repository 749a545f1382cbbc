// What a row that is sampled at a period holds.
ghost use Rattle.std.specs.Prelude.{◌≡◌, ◌≤◌, true};
ghost use Rattle.std.specs.Option.{option_copied};
ghost use Rattle.series_model.specs.declared.sampling.ScanEvent.TheVariants.{Offered, Ticked, Cleared};
ghost use Rattle.intake.specs.Row.{fresh, after};

use series_model::Sample;
use std::marker::Model;

/// The newest sample that was offered since the last tick, and when the next tick is due. Moments are nanoseconds since
/// 1970-01-01T00:00:00Z, and the period is in nanoseconds.
#[derive(Debug, Drop)]
pub struct Scan {
    period: u64,
    held: Option<Sample>,
    due: u64,
}

impl Model for Scan {
    ghost use Rattle.intake.specs.Row.{SampledRow};

    ghost Value = { SampledRow };

    ghost view = { λ s. record { period = s.period; cell = record { held = s.held; due = s.due } } };
}

impl Scan {
    /// What a row holds that was just registered, or opened again: nothing, and it is due at once.
    pub fn new(period: u64) -> Scan
        ensures { result ≡ fresh period }
    {
        Scan {
            period,
            held: None,
            due: 0,
        }
    }

    /// Holds the sample, in place of the one that was held.
    pub fn offer(&mut self, sample: Sample)
        ensures { self.new ≡ after self.old (Offered sample) }
    {
        self.held = Some(sample);
    }

    /// The first moment at which a tick is due.
    pub fn due(&self) -> u64
        ensures { result ≡ self.now.cell.due }
    {
        self.due
    }

    /// The sample that is held.
    pub fn held(&self) -> Option<&Sample>
        ensures { option_copied result ≡ self.now.cell.held }
    {
        self.held.as_ref()
    }

    /// Gives up the sample that is held, at a tick that is due. The next is due a period after `now`, or at the last
    /// moment of a `u64` where that is beyond it.
    pub fn tick(&mut self, now: u64) -> Option<Sample>
        requires { self.old.cell.due ≤ now }
        ensures value { result ≡ self.old.cell.held }
        ensures after { self.new ≡ after self.old (Ticked now true) }
    {
        self.due = now.saturating_add(self.period);
        self.held.take()
    }

    /// Gives up what is held, where the row is paused or resumed. A tick is due at once.
    pub fn clear(&mut self)
        ensures { self.new ≡ after self.old Cleared }
    {
        self.held = None;
        self.due = 0;
    }
}
