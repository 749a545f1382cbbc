// Cases of lists of samples, answers, admission and sampling.
use crate::case::{Case, text_of};
use series_model::{
    Batch, Blob, Blobs, Pairs, Query, RowSamples, Sample, Samples, ScanEvent, Standing,
};
use std::alloc::{AllocError, Global};

fn sample(alloc: Global, t: u64, line: &str) -> Result<Sample, AllocError> {
    let line = Blob::from(line.as_bytes().to_vec(alloc)?);
    Ok(Sample { t, line })
}

// Samples at some moments, all with one line.
fn samples(case: &mut Case<'_>) -> Result<Vec<Sample>, AllocError> {
    let (moments, line) = (case.numbers(), case.word());
    let mut samples = Vec::new(case.alloc);
    for t in moments {
        samples.push(sample(case.alloc, t, line)?)?;
    }
    Ok(samples)
}

fn tell_samples(case: &mut Case<'_>, list: &[Sample]) {
    for sample in list {
        case.separate(" ");
        case.tell(format_args!("{}/{}", sample.t, text_of(sample.line.bytes())));
    }
}

pub fn over(case: &mut Case<'_>) -> Result<(), AllocError> {
    let both = series_model::over(case.alloc, &samples(case)?, &samples(case)?)?;
    tell_samples(case, both.items());
    Ok(())
}

// Of the samples of two lists, one behind the other.
pub fn taken(case: &mut Case<'_>) -> Result<(), AllocError> {
    let mut all = samples(case)?;
    all.append(&mut samples(case)?)?;
    let list = series_model::taken(case.alloc, &all)?;
    tell_samples(case, list.items());
    Ok(())
}

pub fn answer(case: &mut Case<'_>) -> Result<(), AllocError> {
    let (from, to) = (case.number(), case.number());
    let list = series_model::answer(case.alloc, &samples(case)?, Query { from, to })?;
    tell_samples(case, list.items());
    Ok(())
}

// The state of a row, its type and the moment from which samples are taken; and type and moment
// of a sample, and the time.
pub fn admit(case: &mut Case<'_>) {
    let state = case.word();
    let standing = Standing {
        is_running: state == "running",
        ty: case.number32(),
        next: case.number(),
    };
    let row = if state == "unknown" {
        None
    } else {
        Some(standing)
    };
    let reason = series_model::admit(row, case.number32(), case.number(), case.number());
    case.tell(format_args!("{reason:?}"));
}

// The sample that is held behind some events at a period, and the next due moment.
pub fn scan(case: &mut Case<'_>) -> Result<(), AllocError> {
    let period = case.number();
    let mut events = Vec::new(case.alloc);
    for _ in 0..u64::MAX {
        let event = match case.word() {
            "" => break,
            "offer" => ScanEvent::Offered(sample(case.alloc, case.number(), "")?),
            "tick" => ScanEvent::Ticked {
                now: case.number(),
                counts: true,
            },
            "idle" => ScanEvent::Ticked {
                now: case.number(),
                counts: false,
            },
            _ => ScanEvent::Cleared,
        };
        events.push(event)?;
    }
    let sampled = series_model::scan(period, &events);
    let held = sampled.held.map(|sample| sample.t);
    case.tell(format_args!("{held:?} {}", sampled.due));
    Ok(())
}

// A batch of one row, as it stands and taken apart.
pub fn batch(case: &mut Case<'_>) -> Result<(), AllocError> {
    let row = case.number32();
    let samples = Samples::from(samples(case)?).clone()?;
    let batch = Batch::from(vec![in case.alloc; RowSamples { row, samples }]?);
    for part in batch.parts() {
        case.tell(part.row);
        tell_samples(case, part.samples.items());
    }
    for part in batch.into_vec() {
        case.separate("; ");
        case.tell(part.row);
        tell_samples(case, &part.samples.into_vec());
    }
    Ok(())
}

// A pair of texts, copied and taken apart.
pub fn pairs(case: &mut Case<'_>) -> Result<(), AllocError> {
    let pair = (Blob::from(case.bytes()), Blob::from(case.bytes()));
    let pairs = Pairs::from(vec![in case.alloc; pair]?).clone()?;
    for (name, val) in pairs.into_vec() {
        let blobs = Blobs::from(vec![in case.alloc; name, val]?).clone()?;
        for blob in blobs.into_vec() {
            case.separate(" ");
            case.tell_hex(blob.bytes());
        }
    }
    Ok(())
}
