// A row that is sampled at a period.
use intake::Scan;
use series_model::{Blob, Sample};
use std::alloc::{AllocError, Global};

fn sample(alloc: Global, t: u64) -> Result<Sample, AllocError> {
    let line = Blob::from(Vec::from_slice(alloc, b"\x08\x01")?);
    Ok(Sample { t, line })
}

/// Whether the newest offer of each period is tried, and a row that is cleared holds none.
pub fn are_newest(alloc: Global) -> Result<bool, AllocError> {
    let table: [(&[u64], u64, Option<u64>, u64); 5] = [
        (&[1, 2], 3, Some(2), 13),
        (&[4], 13, Some(4), 23),
        (&[], 23, None, 33),
        (&[24, 29, 25], 40, Some(25), 50),
        (&[60], u64::MAX - 9, Some(60), u64::MAX),
    ];
    let mut scan = Scan::new(10);
    for (offers, now, tried, due) in table {
        for t in offers {
            scan.offer(sample(alloc, *t)?);
        }
        if scan.due() > now || scan.tick(now).map(|held| held.t) != tried || scan.due() != due {
            return Ok(false);
        }
    }
    scan.offer(sample(alloc, 70)?);
    scan.clear();
    Ok(scan.held().is_none() && scan.due() == 0)
}
