// What images of a disk hold, and what is reported of them.
ghost use Rattle.std.specs.Prelude.{OnOk, true};
ghost use Rattle.disk_model.specs.Record.{files_of, opened_of};
ghost use Rattle.act_model.specs.Machine.{Machine};
ghost use Rattle.archive_core.specs.Parts.{parts};
ghost use Rattle.archive_core.specs.Stands.{Stands};
ghost use Rattle.tier_store.specs.Change.{Has};
ghost use Rattle.tier_store.specs.Seen.{seen};
ghost use Rattle.tier_store.specs.Stores.{Stores};
ghost use Rattle.store_reopen.specs.Reopen.{IsUnopened};

use crate::ledger::{Ledger, RowLeft};
use crate::owner::{Owner, ask, get, opened};
use crate::telling::{Text, put_bytes, put_damage, text_of};
use act_model::{Act, Answer};
use anyhow::{Context, Result, bail};
use archive_core::Archive;
use disk_model::{Disk, MemDisk};
use edge_io::MemSink;
use etl_rules::Config;
use pb_messages::State;
use series_model::{Blob, Blobs, Query};
use std::alloc::Global;
use store_reopen::{ReopenErr, reopen};
use store_reports::{Damage, check, status};
use tier_store::TierStore;

const IMAGES: u64 = 6;

/// As many bytes as a text may have that is written.
pub(crate) const ROOM: usize = 65_536;

/// Puts why a disk isn't opened.
pub(crate) fn put_refusal(text: &mut Text, e: &ReopenErr<MemDisk>) {
    match e {
        ReopenErr::DiskFault(_) => text.put("disk fault"),
        ReopenErr::Memory(_) => text.put("memory"),
        ReopenErr::Damaged { name, at, .. } => put_damage(text, name, *at),
        ReopenErr::GranularityDiffers { kept, .. } => {
            text.put(format_args!("granularity {kept:?}"));
        }
    }
}

// The lines of samples in a raw text, in which a header stands in front of each year and an empty line between two.
fn samples_of(alloc: Global, raw: &[u8]) -> Result<Vec<String>> {
    let mut text = Text::new(alloc);
    put_bytes(&mut text, raw);
    let text = text.into_string()?;
    let mut lines = Vec::new(alloc);
    let mut is_head = true;
    for line in text.as_str().split(',') {
        if !is_head && !line.is_empty() {
            lines.push(String::from_str(alloc, line)?)?;
        }
        is_head = line.is_empty();
    }
    Ok(lines)
}

fn names_of(owner: &mut Owner<Archive<MemDisk>>) -> Result<Blobs>
    requires { (m : Machine) × Stands true (parts ⟦<MemDisk as Disk>⟧ owner.old.archive) m }
    ensures { (m : Machine) × Stands true (parts ⟦<MemDisk as Disk>⟧ owner.new.archive) m }
{
    let (from, most) = (0, u32::MAX);
    match ask(owner, Act::Names { from, most }) {
        Answer::NamesAre { names, .. } => Ok(names),
        _other => bail!("no names"),
    }
}

fn state_of(owner: &mut Owner<Archive<MemDisk>>, name: Blob) -> Result<State>
    requires { (m : Machine) × Stands true (parts ⟦<MemDisk as Disk>⟧ owner.old.archive) m }
    ensures { (m : Machine) × Stands true (parts ⟦<MemDisk as Disk>⟧ owner.new.archive) m }
{
    match ask(owner, Act::Details { name }) {
        Answer::Described(details) => Ok(details.state),
        _other => bail!("no details"),
    }
}

fn row_left(alloc: Global, owner: &mut Owner<Archive<MemDisk>>, name: &[u8]) -> Result<RowLeft>
    requires { (m : Machine) × Stands true (parts ⟦<MemDisk as Disk>⟧ owner.old.archive) m }
    ensures { OnOk result ((m : Machine) × Stands true (parts ⟦<MemDisk as Disk>⟧ owner.new.archive) m) }
{
    let state = state_of(owner, Blob::from(name.to_vec(alloc)?))?;
    let mut sink = MemSink::new(alloc, ROOM, &[])?;
    let (from, to) = (0, u64::MAX);
    let _end = get(alloc, owner, name, Query { from, to }, &mut sink);
    let lines = samples_of(alloc, sink.bytes())?;
    let name = String::from_str(alloc, text_of(name))?;
    Ok(RowLeft { name, state, lines })
}

// The rows of an archive that was just opened.
fn rows_left(alloc: Global, owner: Owner<Archive<MemDisk>>) -> Result<Vec<RowLeft>>
    requires { (m : Machine) × Stands true (parts ⟦<MemDisk as Disk>⟧ owner.archive) m }
{
    let mut owner = owner;
    let mut rows = Vec::new(alloc);
    for name in names_of(&mut owner)?.items() {
        rows.push(row_left(alloc, &mut owner, name.bytes())?)?;
    }
    Ok(rows)
}

/// Puts what is wrong with any of six images of a disk, and tells whether one holds more than was told.
pub(crate) fn put_wrong(
    alloc: Global,
    disk: &MemDisk,
    config: &Config,
    ledger: &Ledger,
    text: &mut Text,
) -> Result<bool> {
    let mut is_ahead = false;
    for choice in 0..IMAGES {
        match opened(alloc, disk.crash(alloc, choice)?, config) {
            Ok(owner) => {
                let left = rows_left(alloc, owner)?;
                is_ahead |= ledger.put_wrong(&left, text);
            }
            Err(e) => {
                text.put(' ');
                put_refusal(text, &e);
            }
        }
    }
    Ok(is_ahead)
}

// What the stores of an image report, written to a sink, and the first damaged file.
fn inspected(
    alloc: Global,
    stores: &mut TierStore<MemDisk>,
    sink: &mut MemSink,
) -> Option<Option<Damage>>
    requires { (held : Stores) × Has true (seen ⟦<MemDisk as Disk>⟧ stores.old) held }
{
    match status(alloc, stores, sink) {
        Ok(()) => check(alloc, stores, sink).ok(),
        Err(_) => None,
    }
}

// What is reported as one line: each of its lines with a semicolon behind it, and the first damaged file.
fn report_text(alloc: Global, report: &[u8], damage: Option<Damage>) -> Result<String> {
    let mut text = Text::new(alloc);
    for line in text_of(report).lines() {
        text.put(format_args!("{line}; "));
    }
    match damage {
        Some(damage) => put_damage(&mut text, &damage.name, damage.at),
        None => text.put("all good"),
    }
    text.into_string()
}

// What is reported of an image: a line for each row and each listed file, or why it isn't opened.
fn report(alloc: Global, image: MemDisk, config: &Config) -> Result<String>
    requires { IsUnopened (files_of image.calls) (opened_of image.calls) }
{
    let mut sink = MemSink::new(alloc, ROOM, &[])?;
    match reopen(alloc, image, config) {
        Ok(mut stores) => {
            let damage = inspected(alloc, &mut stores, &mut sink).context("no report")?;
            report_text(alloc, sink.bytes(), damage)
        }
        Err(e) => {
            let mut text = Text::new(alloc);
            put_refusal(&mut text, &e);
            text.into_string()
        }
    }
}

/// What is reported of six images of a disk: that of the first, and each that isn't as the one before it.
pub(crate) fn reports(alloc: Global, disk: &MemDisk, config: &Config) -> Result<String> {
    let mut text = Text::new(alloc);
    let mut last = report(alloc, disk.crash(alloc, 0)?, config)?;
    text.put(last.as_str());
    for choice in 1..IMAGES {
        let next = report(alloc, disk.crash(alloc, choice)?, config)?;
        if next != last {
            text.put(format_args!(" | image {choice}: {next}"));
            last = next;
        }
    }
    text.into_string()
}
