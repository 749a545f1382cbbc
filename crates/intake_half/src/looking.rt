// What a look finds: the bytes of a batch, and one row.
ghost use Rattle.std.specs.Prelude.{◌≡◌, ◌<◌, ◌^◌, None, IfOk, option_map};
ghost use Rattle.act_model.specs.Rows.{size_of};
ghost use Rattle.two_histories.specs.ArchiveIntake.{bytes_in, look_at};
ghost use Rattle.intake_half.specs.Known.{seen};

use crate::known::KnownRow;
use crate::told::{Registered, RowLook};
use intake::Intake;
use series_model::{Batch, Blob, Sample, Samples};
use std::alloc::{AllocError, Global};

// How many bytes the samples have, each line counted with its newline.
fn bytes_of(samples: &[Sample]) -> u64
    requires { size_of samples.now < 2 ^ 64 }
    ensures { result ≡ size_of samples.now }
{
    let mut bytes = 0;
    for sample in samples {
        bytes += sample.line.bytes().len() as u64 + 1;
    }
    bytes
}

// How many bytes the samples of a batch have.
pub(crate) fn bytes_in(batch: &Batch) -> u64
    requires { bytes_in batch.now < 2 ^ 64 }
    ensures { result ≡ bytes_in batch.now }
{
    let mut bytes = 0;
    for part in batch.parts() {
        bytes += bytes_of(part.samples.items());
    }
    bytes
}

// What a look finds of a name that no row has.
pub(crate) fn look_at_none(alloc: Global, name: Blob) -> RowLook
    ensures { result ≡ look_at name None }
{
    RowLook {
        name,
        tail: Samples::from(Vec::new(alloc)),
        known: None,
    }
}

// What is known of the row with this number.
fn told_of(row: u32, known: &KnownRow) -> Result<Registered, AllocError>
    ensures { IfOk result (λ told. told ≡ record {
      row = row;
      name = known.now.name;
      about = known.now.about;
      state = known.now.state;
      base = known.now.base;
      changed = known.now.changed;
    }) }
{
    Ok(Registered {
        row,
        name: known.name.clone()?,
        about: known.about.clone()?,
        state: known.state,
        base: known.base,
        changed: known.changed,
    })
}

// What a look finds of the row in the slot of this number, whose name this is.
pub(crate) fn look_in(
    alloc: Global,
    intake: &Intake,
    slot: &Option<KnownRow>,
    row: u32,
    name: Blob,
) -> Result<RowLook, AllocError>
    ensures { IfOk result (λ look. look ≡ look_at name (option_map (seen intake.now row) slot.now)) }
{
    match slot {
        None => Ok(look_at_none(alloc, name)),
        Some(known) => {
            let tail = Samples::from(intake.tail(row).to_vec(alloc)?);
            Ok(RowLook {
                name,
                tail,
                known: Some(told_of(row, known)?),
            })
        }
    }
}
