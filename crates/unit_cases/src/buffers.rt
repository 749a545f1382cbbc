// The tails of rows: what is held, given up and taken out.
use intake::{Intake, OfferErr};
use series_model::limits::INTAKE_ROOM;
use series_model::{Blob, Sample};
use std::alloc::{AllocError, Global};

fn sample(alloc: Global, t: u64, bytes: usize) -> Result<Sample, AllocError> {
    let line = Blob::from(vec![in alloc; 7; bytes]?);
    Ok(Sample { t, line })
}

/// Whether four of the longest lines fill an intake, the right rows are taken of it then, and a line fits again behind
/// one that is given up.
pub fn are_filled(alloc: Global) -> Result<bool, AllocError> {
    let mut intake = Intake::new(alloc);
    for (row, t) in [(0, 1), (5, 1), (2, 1), (2, 2)] {
        if intake.offer(row, sample(alloc, t, 16_777_215)?).is_err() {
            return Ok(false);
        }
    }
    let full = Err(OfferErr::IntakeFull { held: INTAKE_ROOM });
    if intake.offer(2, sample(alloc, 3, 0)?) != full {
        return Ok(false);
    }
    let table: [(u64, &[(u32, usize)]); 4] = [
        (0, &[(0, 1)]),
        (16_777_216, &[(0, 1)]),
        (16_777_217, &[(0, 1), (2, 2)]),
        (INTAKE_ROOM, &[(0, 1), (2, 2), (5, 1)]),
    ];
    for (limit, taken) in table {
        let mut parts = Vec::new(alloc);
        for part in intake.batch(limit)?.parts() {
            parts.push((part.row, part.samples.items().len()))?;
        }
        if parts.as_slice() != taken {
            return Ok(false);
        }
    }
    intake.trim(2, 1);
    Ok(
        intake.tail(2).len() == 1
            && intake.held() == INTAKE_ROOM / 4 * 3
            && intake.offer(2, sample(alloc, 3, 16_777_215)?).is_ok(),
    )
}

/// Whether memory that was taken ahead lets a sample in, and other rows stay empty.
pub fn are_taken_ahead(alloc: Global) -> Result<bool, AllocError> {
    let mut intake = Intake::new(alloc);
    intake.reserve(3, 2)?;
    let is_in = intake.offer(3, sample(alloc, 1, 1)?).is_ok();
    let lens = (
        intake.tail(3).len(),
        intake.tail(2).len(),
        intake.tail(9).len(),
    );
    Ok(is_in && lens == (1, 0, 0))
}
