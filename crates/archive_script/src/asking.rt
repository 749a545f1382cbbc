// What is asked of an archive, read from the words of a line. A word that is missing is empty, and
// one that is no number is 0.
ghost use Rattle.std.specs.Prelude.{◌≤◌, IfOk};
ghost use Rattle.act_model.specs.Event.{IsEvent};
ghost use Rattle.act_model.specs.Step.{MayAsk};

use act_model::Act;
use anyhow::{Context, Result, bail};
use etl_rules::Config;
use partition_names::Granularity;
use pb_lines::sample_of;
use pb_messages::{About, Method, PayloadType};
use pv_name::PvName;
use series_model::{Blob, Pairs, Query, Sample};
use std::alloc::Global;

/// The word of a place.
pub(crate) fn word<'a>(words: &[&'a str], place: usize) -> &'a str {
    words.get(place).copied().unwrap_or("")
}

pub(crate) fn number(word: &str) -> u64 {
    word.parse::<u64>().unwrap_or(0)
}

fn small(word: &str) -> u32 {
    word.parse::<u32>().unwrap_or(0)
}

/// Bytes in pairs of digits, in parts with `+` between them. A part `DIGITS*COUNT` is there so many times.
pub(crate) fn bytes(alloc: Global, word: &str) -> Result<Vec<u8>> {
    let mut bytes = Vec::new(alloc);
    for part in word.split('+') {
        let (digits, count) = part.split_once('*').unwrap_or((part, "1"));
        let repeated = hex::decode(alloc, digits).ok().context("no bytes")?;
        for _ in 0..small(count) {
            bytes.extend_from_slice(&repeated)?;
        }
    }
    Ok(bytes)
}

fn register(alloc: Global, words: &[&str]) -> Result<Act>
    ensures { IfOk result MayAsk }
{
    let name = PvName::new(alloc, word(words, 1).as_bytes());
    let ty = PayloadType::from_name(word(words, 2).as_bytes()).context("no type")?;
    let period = number(word(words, 4));
    let is_sampled = word(words, 3) == "scan";
    let method = if is_sampled {
        Method::Scan { period }
    } else {
        Method::Monitor
    };
    let headers = Pairs::from(Vec::new(alloc));
    let name = name.ok().context("no name")?;
    let about = About {
        ty,
        method,
        count: None,
        headers,
    };
    Ok(Act::Register { name, about })
}

// The name of a variable, as it stands.
fn name_of(alloc: Global, words: &[&str]) -> Result<Blob> {
    Ok(Blob::from(word(words, 1).as_bytes().to_vec(alloc)?))
}

fn rename(alloc: Global, words: &[&str]) -> Result<Act>
    ensures { IfOk result MayAsk }
{
    let newname = PvName::new(alloc, word(words, 2).as_bytes());
    let newname = newname.ok().context("no name")?;
    let name = name_of(alloc, words)?;
    Ok(Act::Rename { name, newname })
}

// The sample of a line.
fn sample(alloc: Global, ty: PayloadType, year: i32, line: Vec<u8>) -> Result<Sample>
    ensures { IfOk result (λ s. IsEvent ty s) }
{
    if line.contains(&b'\n') {
        bail!("no line");
    }
    let mut work = Vec::new(alloc);
    let Ok(t) = sample_of(ty, year, &line, &mut work) else {
        bail!("no sample");
    };
    let line = Blob::from(line);
    Ok(Sample { t, line })
}

fn offer(alloc: Global, words: &[&str]) -> Result<Act>
    ensures { IfOk result MayAsk }
{
    let name = name_of(alloc, words)?;
    let ty = PayloadType::from_name(word(words, 2).as_bytes()).context("no type")?;
    let year = word(words, 3).parse::<i32>().unwrap_or(0);
    let Sample { t, line } = sample(alloc, ty, year, bytes(alloc, word(words, 4))?)?;
    let now = number(word(words, 5));
    Ok(Act::Offer {
        name,
        ty,
        t,
        line,
        now,
    })
}

/// The interval from the moment at a place to the one behind it.
pub(crate) fn query(words: &[&str]) -> Query {
    let (from, to) = (number(word(words, 2)), number(word(words, 3)));
    Query { from, to }
}

/// The act that these words ask for; of a whole move it is the beginning.
pub(crate) fn act_of(alloc: Global, words: &[&str]) -> Result<Act>
    ensures { IfOk result MayAsk }
{
    match word(words, 0) {
        "register" => register(alloc, words),
        "offer" => offer(alloc, words),
        "rename" => rename(alloc, words),
        "pause" | "resume" | "pin" | "details" => act_on_name(alloc, words),
        _ => plain_act(words),
    }
}

// An act on a variable.
fn act_on_name(alloc: Global, words: &[&str]) -> Result<Act>
    ensures { IfOk result MayAsk }
{
    let name = name_of(alloc, words)?;
    Ok(match word(words, 0) {
        "pause" => Act::Pause { name },
        "resume" => Act::Resume { name },
        "details" => Act::Details { name },
        _ => Act::Pin {
            name,
            query: query(words),
        },
    })
}

// An act that has numbers alone.
fn plain_act(words: &[&str]) -> Result<Act>
    ensures { IfOk result MayAsk }
{
    let (first, second) = (word(words, 1), word(words, 2));
    let (row, i, now) = (small(first), small(second), number(second));
    Ok(match word(words, 0) {
        "tick" => Act::Tick { row, now },
        "flush" => Act::Flush {
            limit: number(first).max(1),
        },
        "begin" | "move" if first == "1" => Act::MoveBegin { store: 1, now },
        "begin" | "move" => Act::MoveBegin { store: 2, now },
        "step" => Act::MoveStep { m: row },
        "sweep" => Act::Sweep,
        "piece" => Act::OpenPiece { pin: row, i },
        "unpin" => Act::Unpin { pin: row },
        "names" => Act::Names {
            from: row,
            most: i.max(1),
        },
        "doors" => Act::Doors,
        "done" => Act::DoorDone,
        _ => bail!("no act"),
    })
}

/// Hours, days and years, of the first two of which so many are held, and so many moved at once.
pub(crate) fn settings(words: &[&str]) -> Result<Config> {
    let granularity = [Granularity::Hour, Granularity::Day, Granularity::Year];
    let hold = [small(word(words, 1)), small(word(words, 2))];
    let gather = [small(word(words, 3)), small(word(words, 4))];
    Config::new(granularity, hold, gather).context("no settings")
}
