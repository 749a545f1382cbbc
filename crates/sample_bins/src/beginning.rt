// What is told of bins.
ghost use Rattle.std.specs.Prelude.{◌≡◌, ◌≤◌, [], List, OnOk, OnErr, IsErrOf};
ghost use Rattle.disk_model.specs.Files.{Rose};
ghost use Rattle.series_model.specs.declared.sample.Sample.{Sample};
ghost use Rattle.act_model.specs.Event.{AreEvents};
ghost use Rattle.sample_bins.specs.Bins.{about_counts, about_of, binned_subject, is_counting};

use crate::op::Op;
use act_model::{Out, OutErr};
use pb_messages::{About, Method, PayloadType};
use series_model::{Pairs, Query};
use std::alloc::Global;

/// What a text has begun with: the type of the samples, and the moments that are asked for.
#[derive(Clone, Copy)]
pub(crate) struct BegunText {
    pub(crate) ty: PayloadType,
    pub(crate) query: Query,
}

/// Begins with what is told of bins.
pub(crate) fn begin_bins<O: Out>(
    alloc: Global,
    op: Op,
    inner: &mut O,
    name: &[u8],
    about: &About,
    query: Query,
) -> Result<(), OutErr>
    ensures begun { OnOk result (O.gave inner.old
        (binned_subject op (record { name = name.now; about = about.now; query = query })) [] inner.new) }
    ensures broken { OnErr result ((all : List Sample) → AreEvents (about_of op about.now).ty all
        → O.broke inner.old
        (binned_subject op (record { name = name.now; about = about.now; query = query })) all inner.new) }
    ensures faults { O.faults inner.old ≤ O.faults inner.new }
    ensures cause { IsErrOf result OutErr.SinkFault → Rose (O.faults inner.old) (O.faults inner.new) }
{
    if counts(op) {
        inner.begin(name, &about_counts(alloc), query)
    } else {
        inner.begin(name, about, query)
    }
}

// Whether counts are told, and no samples of the variable.
fn counts(op: Op) -> bool
    ensures { result ≡ is_counting op }
{
    match op {
        Op::FirstSample(_) => false,
        Op::LastSample(_) => false,
        Op::Count(_) => true,
        Op::Nth(_) => false,
        Op::NCount => true,
    }
}

fn about_counts(alloc: Global) -> About
    ensures { result ≡ about_counts }
{
    About {
        ty: PayloadType::ScalarInt,
        method: Method::Monitor,
        count: None,
        headers: Pairs::from(Vec::new(alloc)),
    }
}
