// Cases of moments, partitions, the settings of moves, and names.
use crate::case::{Case, text_of};
use arch_time::END;
use etl_rules::Config;
use partition_names::{Granularity, Part};
use pv_name::PvName;
use std::alloc::AllocError;

pub fn instant(case: &mut Case<'_>) {
    let t = arch_time::instant(case.signed(), case.number32(), case.number32());
    case.tell(format_args!("{t:?}"));
}

pub fn split(case: &mut Case<'_>) {
    let parts = arch_time::split(case.number());
    case.tell(format_args!("{parts:?}"));
}

pub fn iso(case: &mut Case<'_>) {
    let t = arch_time::parse_iso(case.rest().as_bytes());
    case.tell(format_args!("{t:?}"));
}

pub fn print_iso(case: &mut Case<'_>) -> Result<(), AllocError> {
    let t = case.number();
    if t >= END {
        case.refuse();
        return Ok(());
    }
    let mut out = b"from ".to_vec(case.alloc)?;
    arch_time::print_iso(t, &mut out)?;
    case.tell(text_of(&out));
    Ok(())
}

fn tell_part(case: &mut Case<'_>, part: Option<Part>) {
    match part {
        Some(part) => case.tell(format_args!(
            "{} {} {}",
            text_of(part.name.bytes()),
            part.start,
            part.end
        )),
        None => case.tell("None"),
    }
}

pub fn partition(case: &mut Case<'_>) {
    let part = partition_names::part_of(case.granularity(), case.number());
    tell_part(case, part);
}

pub fn parse_partition(case: &mut Case<'_>) {
    let part = partition_names::parse(case.granularity(), case.rest().as_bytes());
    tell_part(case, part);
}

pub fn granularity(case: &mut Case<'_>) {
    match Granularity::of_number((case.number32() % 256) as u8) {
        Some(found) => case.tell(format_args!("{} {}", found.number(), text_of(found.name()))),
        None => case.tell("None"),
    }
}

pub fn granularity_named(case: &mut Case<'_>) {
    let found = Granularity::of_name(case.rest().as_bytes());
    case.tell(format_args!("{found:?}"));
}

pub fn holds(case: &mut Case<'_>) {
    let holds = partition_names::holds(case.granularity(), case.granularity());
    case.tell(holds);
}

fn tell_config(case: &mut Case<'_>, config: &Config) {
    for store in 1..4u8 {
        case.tell(format_args!("{:?} ", config.granularity(store)));
    }
    case.tell(format_args!(
        "{} {} {} {}",
        config.hold(1),
        config.hold(2),
        config.gather(1),
        config.gather(2)
    ));
}

pub fn settings(case: &mut Case<'_>) {
    let stores = [case.granularity(), case.granularity(), case.granularity()];
    let hold = [case.number32(), case.number32()];
    let gather = [case.number32(), case.number32()];
    match Config::new(stores, hold, gather) {
        Some(config) => tell_config(case, &config),
        None => case.tell("None"),
    }
}

pub fn shipped(case: &mut Case<'_>) {
    tell_config(case, &Config::shipped());
}

pub fn choose(case: &mut Case<'_>) {
    let (hold, gather, now) = (case.number32(), case.number32(), case.number());
    let count = etl_rules::choose(&case.numbers(), hold, gather, now);
    case.tell(count);
}

pub fn name(case: &mut Case<'_>) -> Result<(), AllocError> {
    let bytes = case.bytes();
    match PvName::new(case.alloc, &bytes) {
        Ok(name) => {
            let mut key = b"=".to_vec(case.alloc)?;
            pv_name::key_path(&name, &mut key)?;
            case.tell(format_args!("{} {}", text_of(name.clone()?.bytes()), text_of(&key)))
        }
        Err(fault) => case.tell(format_args!("{fault:?}")),
    }
    Ok(())
}

pub fn same_key(case: &mut Case<'_>) {
    match (case.name(), case.name()) {
        (Some(first), Some(second)) => case.tell(pv_name::same_key(&first, &second)),
        _ => {}
    }
}

pub fn path(case: &mut Case<'_>) -> Result<(), AllocError> {
    let Some(name) = case.name() else {
        return Ok(());
    };
    let Some(part) = partition_names::part_of(case.granularity(), case.number()) else {
        case.refuse();
        return Ok(());
    };
    let mut out = b"sts/".to_vec(case.alloc)?;
    partition_names::file_path(&name, &part.name, &mut out)?;
    case.tell(text_of(&out));
    Ok(())
}
