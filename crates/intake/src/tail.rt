// What is held of one row.
ghost use Rattle.std.specs.Prelude.{◌≡◌, ◌+◌, ◌≤◌, ◌<◌, ◌^◌, ◌++◌, ◌∷◌, [], length, OnOk, OnErr};
ghost use Rattle.series_model.specs.Series.{since};
ghost use Rattle.intake.specs.Tails.{no_tail, size_of};

use series_model::Sample;
use std::alloc::{AllocError, Global};
use std::marker::Model;

/// The samples of a row.
#[derive(Debug, Drop)]
pub(crate) struct Tail {
    samples: Vec<Sample>,
    // How many bytes they have, each line counted with its newline.
    bytes: u64,
}

impl Model for Tail {
    ghost use Rattle.std.specs.Prelude.{◌≡◌, ◌-◌, vec_len, vec_capacity};
    ghost use Rattle.intake.specs.Tails.{TailState, size_of};

    ghost Value = { TailState };

    ghost view = { λ t. record { samples = t.samples.items; spare = vec_capacity t.samples - vec_len t.samples } };

    ghost invariant = { λ t. t.bytes ≡ size_of t.samples.items };
}

impl Tail {
    pub(crate) fn new(alloc: Global) -> Tail
        ensures { result ≡ no_tail }
    {
        Tail {
            samples: Vec::new(alloc),
            bytes: 0,
        }
    }

    pub(crate) fn samples(&self) -> &[Sample]
        ensures { result.now ≡ self.now.samples }
    {
        self.samples.as_slice()
    }

    // How many bytes the samples have, each line counted with its newline.
    pub(crate) fn bytes(&self) -> u64
        ensures { result ≡ size_of self.now.samples }
    {
        self.bytes
    }

    pub(crate) fn reserve(&mut self, lines: usize) -> Result<(), AllocError>
        ensures ok { OnOk result (lines ≤ self.new.spare) }
        ensures samples { self.new.samples ≡ self.old.samples }
        ensures spare { self.old.spare ≤ self.new.spare }
    {
        self.samples.try_reserve(lines)
    }

    pub(crate) fn push(&mut self, sample: Sample) -> Result<(), AllocError>
        requires { size_of self.old.samples + (length sample.line + 1) < 2 ^ 64 }
        ensures ok { OnOk result (self.new.samples ≡ self.old.samples ++ sample ∷ []) }
        ensures err { OnErr result (self.new.samples ≡ self.old.samples) }
        ensures spent { self.old.spare ≤ self.new.spare + 1 }
        ensures kept { OnErr result (self.old.spare ≤ self.new.spare) }
        ensures none { OnErr result (self.old.spare ≡ 0) }
    {
        let bytes = line_bytes(&sample);
        self.samples.push(sample)?;
        self.bytes += bytes;
        Ok(())
    }

    // Gives up the samples that are not later, and tells how many bytes they had.
    pub(crate) fn trim(&mut self, t: u64) -> u64
        ensures samples { self.new.samples ≡ since (t + 1) self.old.samples }
        ensures bytes { result + size_of self.new.samples ≡ size_of self.old.samples }
        ensures spare { self.old.spare ≤ self.new.spare }
    {
        let before = self.bytes;
        self.samples.retain(|sample| t < sample.t);
        let left = all_bytes(&self.samples);
        self.bytes = left;
        before - left
    }
}

// How many bytes a sample's line has with its newline.
fn line_bytes(sample: &Sample) -> u64
    ensures { result ≡ length sample.now.line + 1 }
{
    sample.line.bytes().len() as u64 + 1
}

// How many bytes these samples have.
fn all_bytes(samples: &[Sample]) -> u64
    requires { size_of samples.now < 2 ^ 64 }
    ensures { result ≡ size_of samples.now }
{
    let mut bytes = 0;
    for sample in samples {
        bytes += line_bytes(sample);
    }
    bytes
}
