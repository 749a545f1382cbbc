// Cases of the formats and of drills.
use crate::case::Case;
use crate::{drills, edges, lists, messages, streams, times};
use anyhow::{Context, Result};
use std::alloc::{AllocError, Global};
use std::time::Clock;

/// What comes of the case of a line.
pub fn told<C: Clock + Copy + Drop>(rt: C, alloc: Global, line: &str) -> Result<String> {
    let mut case = Case::new(alloc, line);
    answer(rt, &mut case)?;
    let mut told = case.into_told().context("no case")?;
    told.push('\n')?;
    Ok(told)
}

// Tells what comes of a case: of names, messages and streams; else of what has lists; else of single values.
fn answer<C: Clock + Copy + Drop>(rt: C, case: &mut Case<'_>) -> Result<(), AllocError> {
    let kind = case.word();
    match kind {
        "print_iso" => times::print_iso(case),
        "name" => times::name(case),
        "path" => times::path(case),
        "escape" => messages::escape(case),
        "unescape" => messages::unescape(case),
        "varint" => messages::varint(case),
        "field" => messages::field(case),
        "event" => messages::event(case),
        "header" => messages::header(case),
        "sample" => streams::sample(case),
        "stream" => streams::stream(case),
        _ => answer_of_lists(rt, kind, case),
    }
}

fn answer_of_lists<C: Clock + Copy + Drop>(
    rt: C,
    kind: &str,
    case: &mut Case<'_>,
) -> Result<(), AllocError> {
    match kind {
        "lines" => edges::lines(case),
        "long_line" => edges::long_line(case),
        "sink" => edges::sink(case),
        "clock" => edges::clock(case),
        "over" => lists::over(case),
        "taken" => lists::taken(case),
        "answer" => lists::answer(case),
        "scan" => lists::scan(case),
        "batch" => lists::batch(case),
        "pairs" => lists::pairs(case),
        "drill_feed" => drills::feed(case),
        "drill_sum" => drills::sum(case),
        "drill_report" => drills::report(case),
        "drill_doors" => drills::doors(case),
        _ => {
            answer_of_values(rt, kind, case);
            Ok(())
        }
    }
}

fn answer_of_values<C: Clock + Copy + Drop>(rt: C, kind: &str, case: &mut Case<'_>) {
    match kind {
        "instant" => times::instant(case),
        "split" => times::split(case),
        "iso" => times::iso(case),
        "partition" => times::partition(case),
        "parse_partition" => times::parse_partition(case),
        "granularity" => times::granularity(case),
        "granularity_named" => times::granularity_named(case),
        "holds" => times::holds(case),
        "settings" => times::settings(case),
        "shipped" => times::shipped(case),
        "choose" => times::choose(case),
        "same_key" => times::same_key(case),
        "fields" => messages::fields(case),
        "varints" => messages::varints(case),
        "zigzag" => messages::zigzag(case),
        "type_number" => messages::type_number(case),
        "type_name" => messages::type_name(case),
        "limits" => streams::limits(case),
        "standard" => edges::standard(case),
        "system_clock" => edges::system_clock(rt, case),
        "admit" => lists::admit(case),
        _ => case.refuse(),
    }
}
