//! Cases of the formats and of drills, of a disk in memory, and of HTTP, one a line of standard input. What comes of
//! each is written as a line. The scripts `format_cases`, `disk_cases` and `http_cases` of `interop/` make the cases
//! and the lines that are wanted, which are compared with this program's.
//!
//! The cases of each script stand behind a line `cases of formats`, `cases of a disk` or `cases of HTTP`, which is
//! written too. A case of a format is its kind and its arguments.
//!
//! | Case of a disk | What it does |
//! |---|---|
//! | `disk STOP CALL ..` | begins with an empty disk whose calls of these numbers fail, and all from STOP on (or `-`) |
//! | `images` | tells the images of the choices 0 to 5 |
//! | `readers` | tells what each opened file reads |
//! | `sync_each FILE ..` | a call of many files, each named as `STORE/PATH` |
//! | `CALL FILE ..` | any other call, of one file |
//! | `stops STEP ..` | commits to a journal, where all calls from one on fail: then the power ends |
//! | `fails STEP ..` | where one call alone fails: then it is found out whether its step was made |
//!
//! A step is `+TEXT`, which commits this text as a batch, or `=TEXT`, which puts it in place of all before. It is made
//! anew with each call of the disk gone wrong in turn. At the failure, and at the end, each of six images of the disk
//! has to hold the batches from before the step that failed, or from after it. How many calls were tried is told, and
//! at which of them an image held something else, or how many held each.
//!
//! | Case of HTTP | What it does |
//! |---|---|
//! | `bytes TEXT` | what is read, or written as a body, is this from now on |
//! | `more COUNT TEXT` | and behind it so often this |
//! | `request PIECE READS` | reads a request, in pieces of so many bytes, where these reads fail |
//! | `head STATUS JSON VERSION LENGTH` | writes the head of a reply |
//! | `body VERSION PIECE MOST WRITES` | writes a body in pieces to a link that takes so many bytes; these writes fail |
//! | `again VERSION PIECE MOST WRITES` | each call again until it ends well; then the end again, and `HTTP` behind it |
//!
//! In a TEXT `\r`, `\n` and `\xHH` stand for a byte. A number may be `-` for none. Of the lists READS and WRITES `-` is
//! empty, `odd` has every other number, and else numbers stand between commas.
#![tactic(auto)]

mod bodies;
mod calls;
mod case;
mod drills;
mod edges;
mod formats;
mod heads;
mod journal;
mod lists;
mod messages;
mod peer;
mod requests;
mod streams;
mod texts;
mod times;
mod words;

use anyhow::Result;
use calls::Script;

// What cases are of.
#[derive(Clone, Copy)]
enum Part {
    Formats,
    Disk,
    Http,
}

impl Part {
    // The part that a line begins.
    fn begun_by(line: &str) -> Option<Part> {
        match line {
            "cases of formats" => Some(Part::Formats),
            "cases of a disk" => Some(Part::Disk),
            "cases of HTTP" => Some(Part::Http),
            _ => None,
        }
    }
}

fn main(rt: HostRuntime) -> Result<()> {
    let alloc = rt.alloc();
    let mut part = Part::Formats;
    let mut script = Script::new(alloc)?;
    let mut input = Vec::new(alloc);
    for line in rt.lines(alloc) {
        let line = line?;
        let line = line.as_str();
        if let Some(begun) = Part::begun_by(line) {
            part = begun;
            println!(rt; "{line}")?;
            continue;
        }
        let told = match part {
            Part::Formats => formats::told(&rt, alloc, line)?,
            Part::Disk => script.told(line)?,
            Part::Http => requests::told(alloc, line, &mut input)?,
        };
        print!(rt; "{told}")?;
    }
    Ok(())
}
