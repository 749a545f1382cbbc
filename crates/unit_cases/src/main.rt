//! Cases of single functions of libraries, over fakes of what they stand on or in threads: tails, periods, merges,
//! rooms and their two halves, pairs, and whole services. Each is worked out by hand, and whether it came out so is
//! written as a line.
#![tactic(auto)]

mod board;
mod buffers;
mod halves;
mod held;
mod merges;
mod pairs;
mod rooms;
mod scans;
mod services;
mod turns;
mod worked;

use anyhow::Result;
use service::AllServed;
use services::ALL_WELL;
use std::alloc::{AllocError, Global};
use std::sync::Wait;
use std::thread::Threads;

fn main(rt: HostRuntime) -> Result<()> {
    let alloc = rt.alloc();
    for (case, is_so) in gathered(alloc) {
        println!(rt; "{case}: {}", is_so?)?;
    }
    for (case, is_so) in turned(&rt, alloc) {
        println!(rt; "{case}: {is_so}")?;
    }
    for (case, is_so) in served(&rt, alloc) {
        println!(rt; "{case}: {is_so}")?;
    }
    Ok(())
}

// Tails, periods and merges.
fn gathered(alloc: Global) -> [(&'static str, Result<bool, AllocError>); 6] {
    [
        (
            "four of the longest lines fill the intake",
            buffers::are_filled(alloc),
        ),
        ("spares are taken ahead", buffers::are_taken_ahead(alloc)),
        ("the newest of a period is tried", scans::are_newest(alloc)),
        (
            "lines are the answer over all pieces",
            merges::are_answers(alloc),
        ),
        (
            "a read that fails gives its reader back",
            merges::gives_back(alloc),
        ),
        (
            "an interval of a large file is found by search",
            merges::are_searched(alloc),
        ),
    ]
}

// Rooms, halves and pairs.
fn turned<R: Threads + Wait + Sync>(rt: &R, alloc: Global) -> [(&'static str, bool); 8] {
    let busy = rooms::held(rt, alloc) == Some((1, 7, 1));
    let four = rooms::worked(rt, alloc) == Some(true);
    let free = rooms::free(rt, alloc) == Some(true);
    let pinned = turns::told_of_a_pin(rt, alloc) == Some((true, Some(0), true, true));
    let met = worked::worked(rt, alloc) == Some((true, true, Some(1), Some(1)));
    let beside = held::held(rt, alloc) == Some((true, 5, 6));
    [
        ("a try is busy while another thread holds the room", busy),
        ("four threads make all their acts, each in its order", four),
        ("a free room is acted on", free),
        ("a pin is given up by its owner alone", pinned),
        ("two passes act and meet", met),
        (
            "an offer is done while another thread holds the store",
            beside,
        ),
        (
            "each pair is called on once, with its partner",
            pairs::all(rt),
        ),
        (
            "pairs beside one another are each called on once",
            pairs::beside_none(rt),
        ),
    ]
}

// Whole services.
fn served<R: Threads + Wait + Sync>(rt: &R, alloc: Global) -> [(&'static str, bool); 3] {
    let failed = AllServed {
        door_faults: 2,
        ..ALL_WELL
    };
    let at_once = services::two_links(rt, alloc) == Some((ALL_WELL, 2, true));
    let beside = services::a_link_beside(rt, alloc) == Some((ALL_WELL, 1, true));
    let counted = services::failing_doors(rt, alloc) == Some((failed, 2));
    [
        ("links of two doors are served at once", at_once),
        ("the flusher and the mover work beside a link", beside),
        ("failed doors are counted", counted),
    ]
}
