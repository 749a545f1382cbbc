// Cases of drills. Where there is none of so many hours, that is told.
use crate::case::{Case, text_of};
use drill_feed::{DOORS, Drill, VARIABLES};
use edge_io::{Clock, Door, Next};
use std::alloc::AllocError;

// The bytes of the feed of a variable.
fn fed(case: &mut Case<'_>, drill: Drill) -> Result<Vec<u8>, AllocError> {
    let variable = case.number32();
    if variable < VARIABLES {
        drill.chunk(case.alloc, variable)
    } else {
        case.refuse();
        Ok(Vec::new(case.alloc))
    }
}

pub fn feed(case: &mut Case<'_>) -> Result<(), AllocError> {
    let Some(drill) = Drill::new(case.number32()) else {
        case.tell("no drill");
        return Ok(());
    };
    let bytes = fed(case, drill)?;
    case.tell_hex(&bytes);
    Ok(())
}

// How many bytes a variable's feed has, and a sum of them in which each has a weight of its own.
pub fn sum(case: &mut Case<'_>) -> Result<(), AllocError> {
    let Some(drill) = Drill::new(case.number32()) else {
        case.tell("no drill");
        return Ok(());
    };
    let bytes = fed(case, drill)?;
    let mut sum = 0u64;
    for byte in &bytes {
        sum = sum.wrapping_mul(31).wrapping_add(u64::from(*byte));
    }
    case.tell(format_args!("{} {sum}", bytes.len()));
    Ok(())
}

// The lines of what a drill tells in the end.
pub fn report(case: &mut Case<'_>) -> Result<(), AllocError> {
    let Some(drill) = Drill::new(case.number32()) else {
        case.tell("no drill");
        return Ok(());
    };
    let text = drill.report(case.alloc)?;
    for line in text_of(&text).lines() {
        case.separate("; ");
        case.tell(line);
    }
    Ok(())
}

// How many feeds each door gives until it is closed, and two moments of a clock and of one that is split off it.
pub fn doors(case: &mut Case<'_>) -> Result<(), AllocError> {
    let Some(drill) = Drill::new(case.number32()) else {
        case.tell("no drill");
        return Ok(());
    };
    for number in 0..DOORS {
        let mut door = drill.door(case.alloc, number)?;
        for _ in 0..9 {
            let Next::Link(_) = door.next() else {
                break;
            };
            case.tell("link ");
        }
        case.tell("closed ");
    }
    let mut clock = drill.clock(case.alloc)?;
    let mut second = clock.split();
    case.tell(format_args!("{} {} ", clock.now(), clock.now()));
    case.tell(format_args!("{} {}", second.now(), second.now()));
    Ok(())
}
