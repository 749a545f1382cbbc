// Pairs over threads: each pair is called on once, with its partner, and nothing else changes.
use std::thread::Threads;
use workers::{run_all, run_with};

// Counts the call, and takes in the partner.
fn add(sum: &mut (u64, u64), other: &mut u64) {
    sum.0 = sum.0.wrapping_add(1);
    sum.1 = sum.1.wrapping_add(*other);
    *other = other.wrapping_mul(2);
}

/// Whether each of seven pairs was called on once, with its partner.
pub fn all<R: Threads + Sync>(rt: &R) -> bool {
    let mut sums = [(0u64, 0u64); 7];
    let mut others = [1u64, 2, 3, 4, 5, 6, 7];
    run_all(
        rt,
        &|sum: &mut (u64, u64), other: &mut u64| add(sum, other),
        &mut sums,
        &mut others,
    );
    sums == [(1, 1), (1, 2), (1, 3), (1, 4), (1, 5), (1, 6), (1, 7)]
        && others == [2, 4, 6, 8, 10, 12, 14]
}

/// Whether each of three pairs was, beside none.
pub fn beside_none<R: Threads + Sync>(rt: &R) -> bool {
    let mut no_sums: [(u64, u64); 0] = [];
    let mut no_others: [u64; 0] = [];
    let mut sums = [(0u64, 0u64); 3];
    let mut others = [1u64, 2, 3];
    run_with(
        rt,
        &|sum: &mut (u64, u64), other: &mut u64| add(sum, other),
        &mut no_sums,
        &mut no_others,
        &|sum: &mut (u64, u64), other: &mut u64| add(sum, other),
        &mut sums,
        &mut others,
    );
    sums == [(1, 1), (1, 2), (1, 3)] && others == [2, 4, 6]
}
