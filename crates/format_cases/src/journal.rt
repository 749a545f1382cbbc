// Commits to a journal and checkpoints of it over a disk in memory.
ghost use Rattle.std.specs.Prelude.{◌≡◌, ◌≤◌, true, ℕ, length, IfOk, IfSome, OnOk, IsErrOf};
ghost use Rattle.disk_model.specs.Files.{Name};
ghost use Rattle.disk_model.specs.Record.{opened_of};
ghost use Rattle.format_cases.specs.Steps.{Rests, GoesOn, Waits};

use anyhow::{Context, Result, bail};
use disk_model::{DiskErr, FileName, MemDisk};
use gate_journal::{Batches, GREATEST_BATCH, Journal};
use std::alloc::Global;
use std::fmt::Write as _;
use std::str;

const IMAGES: u64 = 6;

// What a failure may leave: the batches from before its step, and from after it; and whether a step has failed.
#[derive(Drop)]
struct Held {
    before: String,
    after: String,
    has_failed: bool,
}

// How many images held the batches from before a step and from after it, and what else one held.
#[derive(Drop)]
struct Found {
    before: u64,
    after: u64,
    wrong: String,
}

/// What is told of these steps, with each call of the disk gone wrong in turn: all calls from it on, or it alone.
pub fn told(alloc: Global, stops: bool, steps: &str) -> Result<String> {
    let steps: Vec<&str> = steps.split(' ').collect(alloc)?;
    let mut found = Found {
        before: 0,
        after: 0,
        wrong: String::new(alloc),
    };
    let mut calls = 0u64;
    for call in 1..u64::MAX {
        let disk = if stops {
            MemDisk::new(alloc, &[], Some(call))?
        } else {
            MemDisk::new(alloc, &[call], None)?
        };
        if !ran(alloc, disk, &steps, &mut found)? {
            break;
        }
        calls = call;
    }
    let (before, after, wrong) = (found.before, found.after, found.wrong);
    let text = format!(in alloc;
        "{calls} calls, {before} images before and {after} after{wrong}\n"
    )?;
    Ok(text)
}

fn name_of(alloc: Global) -> Result<FileName> {
    let (store, path) = (0, b"J".to_vec(alloc)?);
    Ok(FileName { store, path })
}

// Loads the journal and makes each step. It tells whether a call failed.
fn ran(alloc: Global, disk: MemDisk, steps: &[&str], found: &mut Found) -> Result<bool>
    requires { (n : Name) → opened_of disk.calls n ≡ 0 }
{
    let mut disk = disk;
    let name = name_of(alloc)?;
    let held = Held {
        before: String::new(alloc),
        after: String::new(alloc),
        has_failed: false,
    };
    match Journal::load(alloc, &mut disk, &name) {
        Ok((journal, _)) => stepped(alloc, journal, disk, steps, held, found),
        Err(_) => {
            look(alloc, &disk, &held, found)?;
            Ok(true)
        }
    }
}

// Makes each step.
fn stepped(
    alloc: Global,
    journal: Journal,
    disk: MemDisk,
    steps: &[&str],
    held: Held,
    found: &mut Found,
) -> Result<bool>
    requires { Rests journal disk }
{
    let (mut journal, mut disk, mut held) = (journal, disk, held);
    for step in steps {
        held.after = batches_after(alloc, held.before.as_str(), step)?;
        if !settled(alloc, &mut journal, &mut disk, step, &mut held, found)? {
            return Ok(true);
        }
    }
    ended(alloc, &disk, held, found)
}

// Looks at the images at the end, where a step has failed. It tells whether one has.
fn ended(alloc: Global, disk: &MemDisk, held: Held, found: &mut Found) -> Result<bool> {
    let mut held = held;
    if held.has_failed {
        held.after = held.before.as_str().to_string(alloc)?;
        look(alloc, disk, &held, found)?;
    }
    Ok(held.has_failed)
}

// Makes a step. Where it fails the images are looked at, and it is found out whether it was made;
// false where that can't be.
fn settled(
    alloc: Global,
    journal: &mut Journal,
    disk: &mut MemDisk,
    step: &str,
    held: &mut Held,
    found: &mut Found,
) -> Result<bool>
    requires { Rests journal.old disk.old }
    ensures { IfOk result (λ going. going ≡ true → Rests journal.new disk.new) }
{
    if made(journal, disk, step)? {
        kept(alloc, held)?;
        return Ok(true);
    }
    held.has_failed = true;
    look(alloc, disk, held, found)?;
    match reviewed(journal, disk)? {
        Some(is_made) => {
            if is_made {
                kept(alloc, held)?;
            }
            Ok(true)
        }
        None => Ok(false),
    }
}

// The step was made.
fn kept(alloc: Global, held: &mut Held) -> Result<()> {
    held.before = held.after.as_str().to_string(alloc)?;
    Ok(())
}

// The batches behind a step.
fn batches_after(alloc: Global, before: &str, step: &str) -> Result<String> {
    match step.strip_prefix('+') {
        Some(batch) => Ok(format!(in alloc; "{before} {batch}")?),
        None => Ok(format!(in alloc; " {}", step.get(1..).unwrap_or(""))?),
    }
}

// Makes a step, and tells whether it was. Else the disk failed.
fn made(journal: &mut Journal, disk: &mut MemDisk, step: &str) -> Result<bool>
    requires { Rests journal.old disk.old }
    ensures { IfOk result (GoesOn journal.new disk.new) }
{
    let batch = step.get(1..).unwrap_or("").as_bytes();
    if batch.is_empty() || batch.len() > GREATEST_BATCH {
        bail!("no batch");
    }
    let done = if step.starts_with('+') {
        committed(journal, disk, batch)
    } else {
        begun(journal, disk, batch)
    };
    match done {
        Ok(()) => Ok(true),
        Err(DiskErr::Fault) => Ok(false),
        Err(DiskErr::Memory) => bail!("memory"),
    }
}

fn committed(journal: &mut Journal, disk: &mut MemDisk, batch: &[u8]) -> Result<(), DiskErr>
    requires rests { Rests journal.old disk.old }
    requires not_empty { 1 ≤ length batch.now }
    requires not_long { length batch.now ≤ GREATEST_BATCH }
    ensures ok { OnOk result (Rests journal.new disk.new) }
    ensures fault { IsErrOf result DiskErr.Fault → Waits journal.new disk.new }
{
    journal.commit(disk, batch)
}

fn begun(journal: &mut Journal, disk: &mut MemDisk, batch: &[u8]) -> Result<(), DiskErr>
    requires rests { Rests journal.old disk.old }
    requires not_empty { 1 ≤ length batch.now }
    requires not_long { length batch.now ≤ GREATEST_BATCH }
    ensures ok { OnOk result (Rests journal.new disk.new) }
    ensures fault { IsErrOf result DiskErr.Fault → Waits journal.new disk.new }
{
    journal.checkpoint(disk, batch)
}

// Whether the step that failed was made. None where the disk fails again.
fn reviewed(journal: &mut Journal, disk: &mut MemDisk) -> Result<Option<bool>>
    requires { Waits journal.old disk.old }
    ensures { IfOk result (λ answer. IfSome answer (λ _. Rests journal.new disk.new)) }
{
    match found_out(journal, disk) {
        Ok(is_made) => Ok(Some(is_made)),
        Err(DiskErr::Fault) => Ok(None),
        Err(DiskErr::Memory) => bail!("memory"),
    }
}

fn found_out(journal: &mut Journal, disk: &mut MemDisk) -> Result<bool, DiskErr>
    requires { Waits journal.old disk.old }
    ensures { OnOk result (Rests journal.new disk.new) }
{
    journal.review(disk)
}

// The batches of an image, each with a space before it.
fn batches_in(alloc: Global, image: MemDisk) -> Result<String>
    requires { (n : Name) → opened_of image.calls n ≡ 0 }
{
    let mut image = image;
    let name = name_of(alloc)?;
    match Journal::load(alloc, &mut image, &name) {
        Ok((_, batches)) => text_of(alloc, &batches),
        Err(e) => Ok(format!(in alloc; "{e:?}")?),
    }
}

fn text_of(alloc: Global, batches: &Batches) -> Result<String> {
    let mut text = String::new(alloc);
    for index in 0..batches.len() {
        let batch = str::from_utf8(batches.batch(index)).unwrap_or("?");
        write!(text, " {batch}")?;
    }
    Ok(text)
}

// Looks at the images of a disk.
fn look(alloc: Global, disk: &MemDisk, held: &Held, found: &mut Found) -> Result<()> {
    for choice in 0..IMAGES {
        let batches = batches_in(alloc, disk.crash(alloc, choice)?)?;
        if batches == held.before {
            found.before = found.before.saturating_add(1);
        } else if batches == held.after {
            found.after = found.after.saturating_add(1);
        } else {
            write!(found.wrong, ", image {choice} {batches}")?;
        }
    }
    Ok(())
}
