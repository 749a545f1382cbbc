// A script from its first line to its last, and run anew with each call of its disk gone wrong in turn.
ghost use Rattle.std.specs.Prelude.{OnOk, true};
ghost use Rattle.disk_model.specs.Record.{files_of, opened_of};
ghost use Rattle.act_model.specs.Machine.{Machine};
ghost use Rattle.archive_core.specs.Parts.{parts};
ghost use Rattle.archive_core.specs.Stands.{Stands};
ghost use Rattle.store_reopen.specs.Reopen.{IsUnopened};

use crate::asking::{act_of, bytes, number, query, settings, word};
use crate::images::{ROOM, put_refusal, put_wrong, reports};
use crate::ledger::Ledger;
use crate::owner::{Owner, ask, get, into_disk, opened};
use crate::telling::{Text, put_answer, put_bytes, put_got};
use act_model::{Act, Answer};
use anyhow::{Context, Result, bail};
use archive_core::Archive;
use disk_model::{Disk, FileName, MemDisk, MemFile};
use edge_io::MemSink;
use etl_rules::Config;
use std::alloc::Global;

// Where nothing is told to fail in so many runs on end, each call is behind the script's last.
const QUIET_RUNS: u32 = 32;

// How a call of the disk goes wrong.
#[derive(Clone, Copy)]
enum Trouble {
    Fails,
    // All from that call on fail.
    Stops,
    // It fails, and what failed is asked for once more.
    AskedAgain,
}

impl Trouble {
    // The one with which a line has the script run for each call.
    fn of_line(line: &str) -> Option<Trouble> {
        match line {
            "each call fails" => Some(Trouble::Fails),
            "each call stops" => Some(Trouble::Stops),
            "each call asked again" => Some(Trouble::AskedAgain),
            _ => None,
        }
    }
}

// A run of a script, as far as it has come.
#[derive(Drop)]
struct Run {
    alloc: Global,
    config: Config,
    // Whether what failed is asked for once more.
    again: bool,
    // Whether anything failed.
    failed: bool,
    ledger: Ledger,
    text: Text,
}

// Asks for one act, or for a whole move step by step.
fn asked(
    alloc: Global,
    owner: &mut Owner<Archive<MemDisk>>,
    words: &[&str],
) -> Result<Answer<MemFile>>
    requires { (m : Machine) × Stands true (parts ⟦<MemDisk as Disk>⟧ owner.old.archive) m }
    ensures { OnOk result ((m : Machine) × Stands true (parts ⟦<MemDisk as Disk>⟧ owner.new.archive) m) }
{
    let is_whole = word(words, 0) == "move";
    let mut answer = ask(owner, act_of(alloc, words)?);
    let mut number = 0u32;
    for _ in 0..100u64 {
        match &answer {
            Answer::Begun { m, .. } if is_whole => number = *m,
            Answer::Copying | Answer::Copied | Answer::Published if is_whole => {}
            _ => break,
        }
        answer = ask(owner, Act::MoveStep { m: number });
    }
    Ok(answer)
}

// One act, which is asked for once more where it fails and that is to be.
fn acted(run: &mut Run, owner: &mut Owner<Archive<MemDisk>>, words: &[&str]) -> Result<()>
    requires { (m : Machine) × Stands true (parts ⟦<MemDisk as Disk>⟧ owner.old.archive) m }
    ensures { OnOk result ((m : Machine) × Stands true (parts ⟦<MemDisk as Disk>⟧ owner.new.archive) m) }
{
    let alloc = run.alloc;
    if word(words, 0) == "get" {
        let mut sink = MemSink::new(alloc, ROOM, &[])?;
        let end = get(
            alloc,
            owner,
            word(words, 1).as_bytes(),
            query(words),
            &mut sink,
        );
        return put_got(&mut run.text, &end, sink.bytes());
    }
    let answer = asked(alloc, owner, words)?;
    run.ledger.note(words, &answer)?;
    if !matches!(&answer, Answer::DiskFault) {
        return put_answer(alloc, &mut run.text, answer);
    }
    run.failed = true;
    if !run.again {
        return put_answer(alloc, &mut run.text, answer);
    }
    let answer = asked(alloc, owner, words)?;
    run.ledger.note(words, &answer)
}

// Makes the act of a line, and tells whether one stands there.
fn turned(run: &mut Run, owner: &mut Owner<Archive<MemDisk>>, line: &str) -> Result<bool>
    requires { (m : Machine) × Stands true (parts ⟦<MemDisk as Disk>⟧ owner.old.archive) m }
    ensures { OnOk result ((m : Machine) × Stands true (parts ⟦<MemDisk as Disk>⟧ owner.new.archive) m) }
{
    let words: Vec<&str> = line.split(' ').collect(run.alloc)?;
    let Ok(who) = word(&words, 0).parse::<u64>() else {
        return Ok(false);
    };
    owner.who = who;
    acted(run, owner, words.get(1..).unwrap_or(&[]))?;
    run.text.put('\n');
    Ok(true)
}

// Makes the acts that stand from a place on.
fn turns(
    run: &mut Run,
    owner: Owner<Archive<MemDisk>>,
    lines: &[&str],
    place: usize,
) -> Result<MemDisk>
    requires { (m : Machine) × Stands true (parts ⟦<MemDisk as Disk>⟧ owner.archive) m }
{
    let mut owner = owner;
    for line in lines.iter().skip(place) {
        if !turned(run, &mut owner, line)? {
            break;
        }
    }
    Ok(into_disk(owner))
}

// Opens a disk and makes the acts that stand from a place on. It gives the disk that is left where the power ends, and
// tells whether it was opened.
fn lived(run: &mut Run, disk: MemDisk, lines: &[&str], place: usize) -> Result<(MemDisk, bool)>
    requires { IsUnopened (files_of disk.calls) (opened_of disk.calls) }
{
    match opened(run.alloc, disk, &run.config) {
        Ok(owner) => {
            run.text.put("opened\n");
            Ok((turns(run, owner, lines, place)?, true))
        }
        Err(e) => {
            run.failed = true;
            put_refusal(&mut run.text, &e);
            run.text.put('\n');
            Ok((e.into_disk(), false))
        }
    }
}

// The same with an empty disk of which these calls fail. Where it isn't opened and that is to
// be, it is opened once more.
fn lived_first(
    run: &mut Run,
    failing: &[u64],
    stop: Option<u64>,
    lines: &[&str],
    place: usize,
) -> Result<MemDisk> {
    let empty = MemDisk::new(run.alloc, failing, stop)?;
    let (disk, is_opened) = lived(run, empty, lines, place)?;
    if is_opened || !run.again {
        return Ok(disk);
    }
    let image = disk.crash(run.alloc, 0)?;
    let (disk, _) = lived(run, image, lines, place)?;
    Ok(disk)
}

// Puts what a file has, of a longer one its length.
fn put_content(alloc: Global, text: &mut Text, disk: &MemDisk, name: &FileName) -> Result<()> {
    let mut image = disk.crash(alloc, 0)?;
    let (Some(size), _) = image.extent(name) else {
        text.put("no content\n");
        return Ok(());
    };
    text.put(format_args!("content {size} "));
    if size < 1000 {
        let mut bytes = vec![in alloc; 0u8; size as usize]?;
        image.read(name, 0, &mut bytes).ok().context("no read")?;
        put_bytes(text, &bytes);
    }
    text.put('\n');
    Ok(())
}

// Makes a file that isn't there yet.
fn put_file(disk: &mut MemDisk, name: &FileName, bytes: &[u8]) -> Result<()> {
    let (None, _) = disk.extent(name) else {
        bail!("a file is there twice");
    };
    disk.create(name).ok().context("not made")?;
    disk.write(name, 0, bytes).ok().context("not written")
}

fn file_name(alloc: Global, words: &[&str]) -> Result<FileName> {
    let store = word(words, 1).parse::<u8>().unwrap_or(0);
    let path = word(words, 2).as_bytes().to_vec(alloc)?;
    Ok(FileName { store, path })
}

// Takes a line about a disk.
fn took(
    run: &mut Run,
    disk: MemDisk,
    words: &[&str],
    lines: &[&str],
    next: usize,
) -> Result<MemDisk> {
    let alloc = run.alloc;
    let mut disk = disk;
    match word(words, 0) {
        "settings" => run.config = settings(words)?,
        "file" => {
            let bytes = bytes(alloc, word(words, 3))?;
            put_file(&mut disk, &file_name(alloc, words)?, &bytes)?;
        }
        "content" => put_content(alloc, &mut run.text, &disk, &file_name(alloc, words)?)?,
        "power" => {
            let image = disk.crash(alloc, number(word(words, 1)))?;
            (disk, _) = lived(run, image, lines, next)?;
        }
        "images" => {
            let reports = reports(alloc, &disk, &run.config)?;
            run.text.put(format_args!("images: {reports}\n"));
        }
        _ => {}
    }
    Ok(disk)
}

// Runs a script on a disk that is empty at first and of which these calls fail, and gives the disk.
fn ran(run: &mut Run, script: &str, failing: &[u64], stop: Option<u64>) -> Result<MemDisk> {
    let alloc = run.alloc;
    let (mut failing, mut stop) = (failing.to_vec(alloc)?, stop);
    let lines: Vec<&str> = script.lines().collect(alloc)?;
    let mut disk = MemDisk::new(alloc, &[], None)?;
    for (place, line) in lines.iter().enumerate() {
        let words: Vec<&str> = line.split(' ').collect(alloc)?;
        let next = place.saturating_add(1);
        match word(&words, 0) {
            "failing" => {
                for call in words.iter().skip(1) {
                    failing.push(number(call))?;
                }
            }
            "stop" => stop = Some(number(word(&words, 1))),
            "open" => disk = lived_first(run, &failing, stop, &lines, next)?,
            _ => disk = took(run, disk, &words, &lines, next)?,
        }
    }
    Ok(disk)
}

fn new_run(alloc: Global, again: bool) -> Run {
    Run {
        alloc,
        config: Config::shipped(),
        again,
        failed: false,
        ledger: Ledger::new(alloc),
        text: Text::new(alloc),
    }
}

// Runs a script anew with a call of its disk gone wrong, and puts what images hold then that they may not. It tells
// whether any holds more than was told, and whether anything failed.
fn put_call(
    alloc: Global,
    script: &str,
    trouble: Trouble,
    call: u64,
    whole: &str,
    why: &mut Text,
) -> Result<(bool, bool)> {
    let mut run = new_run(alloc, matches!(trouble, Trouble::AskedAgain));
    let disk = match trouble {
        Trouble::Stops => ran(&mut run, script, &[], Some(call))?,
        Trouble::Fails | Trouble::AskedAgain => ran(&mut run, script, &[call], None)?,
    };
    let is_ahead = put_wrong(alloc, &disk, &run.config, &run.ledger, why)?;
    if run.again && reports(alloc, &disk, &run.config)?.as_str() != whole {
        why.put(" ends otherwise");
    }
    Ok((is_ahead, run.failed))
}

// The same with each of its calls in turn.
fn put_each_call(
    alloc: Global,
    script: &str,
    trouble: Trouble,
    whole: &str,
    text: &mut Text,
) -> Result<()> {
    let (mut quiet, mut is_right, mut is_ahead) = (0u32, true, false);
    for call in 1..u64::MAX {
        let mut why = Text::new(alloc);
        let (ahead, failed) = put_call(alloc, script, trouble, call, whole, &mut why)?;
        is_ahead |= ahead;
        if !why.is_empty() {
            is_right = false;
            text.put(format_args!(" call {call}:{}", why.into_string()?));
        }
        quiet = if failed { 0 } else { quiet.saturating_add(1) };
        if quiet == QUIET_RUNS {
            break;
        }
    }
    text.put(if is_right { " right" } else { "" });
    text.put(if is_ahead {
        ", some images hold more\n"
    } else {
        "\n"
    });
    Ok(())
}

/// What is told of a script, which begins with its name, line by line.
pub(crate) fn told(alloc: Global, script: &str) -> Result<String> {
    let mut run = new_run(alloc, false);
    let disk = ran(&mut run, script, &[], None)?;
    let whole = reports(alloc, &disk, &run.config)?;
    let Run { mut text, .. } = run;
    for line in script.lines() {
        if let Some(trouble) = Trouble::of_line(line) {
            text.put("each call");
            put_each_call(alloc, script, trouble, whole.as_str(), &mut text)?;
        }
    }
    text.into_string()
}
