// A move, and its beginning.
ghost use Rattle.std.specs.Prelude.{◌≡◌, ◌≤◌, IfOk, length, map, slice_get};
ghost use Rattle.std.specs.Option.{option_copied};
ghost use Rattle.series_model.specs.Limits.{most_parts};
ghost use Rattle.partition_names.specs.Granularity.{Holds};
ghost use Rattle.store_manifest.specs.Entries.{AreEntries};
ghost use Rattle.durable_write.specs.Plan.{IsLastOf};
ghost use Rattle.etl_mover.specs.Move.{HasBegun, IsMove, StillLists, of_series, part_file};

use disk_model::FileName;
use partition_names::{Granularity, file_path};
use pv_name::PvName;
use std::alloc::{AllocError, Global};
use std::marker::Model;
use store_manifest::{Entry, Manifest};

/// How far a move has come.
#[derive(Clone, Copy, Debug, PartialEq, Eq)]
pub enum Stage {
    /// Its parts are being copied, or all are copied and not listed yet.
    Copying,
    /// The destination lists what was copied.
    Published,
}

/// How a step of copying left the move.
#[derive(Clone, Copy, Debug, PartialEq, Eq)]
pub enum Copied {
    /// Parts are left to be copied.
    More,
    /// All parts are copied.
    Done,
}

/// A running move of the oldest partitions of one series from a store to the next.
#[derive(Drop)]
pub struct Move {
    pub(crate) alloc: Global,
    pub(crate) source: u8,
    pub(crate) destination: u8,
    pub(crate) granularity: Granularity,
    pub(crate) series: u32,
    pub(crate) name: PvName,
    // The last entry that the destination lists of the series.
    pub(crate) listed: Option<Entry>,
    // As the source listed them when the move began; of those that are copied with the length up to which they are.
    pub(crate) parts: Vec<Entry>,
    pub(crate) at: usize,
    pub(crate) pending: Vec<Entry>,
    pub(crate) stage: Stage,
    pub(crate) files: Vec<FileName>,
}

impl Model for Move {
    ghost use Rattle.etl_mover.specs.Move.{Moving};

    ghost Value = { Moving };

    ghost view = { λ m. record {
      source = m.source;
      destination = m.destination;
      granularity = m.granularity;
      series = m.series;
      name = m.name;
      listed = m.listed;
      parts = m.parts.items;
      at = m.at;
      pending = m.pending.items;
      stage = m.stage;
      files = m.files.items;
    } };
}

impl Move {
    /// A move of the `parts` oldest partitions that `source` lists of a series of this name. It makes no call of a
    /// disk. Room for the parts and for the names of their files is made here. It is one that goes on where the
    /// source's partitions lie in the destination's.
    pub fn begin(
        alloc: Global,
        source: &Manifest,
        dest: &Manifest,
        series: u32,
        name: &PvName,
        parts: usize,
    ) -> Result<Move, AllocError>
        requires some { 1 ≤ parts }
        requires most { parts ≤ most_parts }
        requires listed { parts ≤ length (of_series series source.now.entries) }
        ensures begun { IfOk result (HasBegun source.now dest.now series name.now parts) }
        ensures running { Holds dest.now.granularity source.now.granularity
            → AreEntries source.now.granularity source.now.entries
            → AreEntries dest.now.granularity dest.now.entries
            → IfOk result (IsMove source.now.granularity) }
        ensures lists { IfOk result (λ move. StillLists move source.now) }
    {
        let parts = Vec::from_slice(alloc, &source.entries(series)[..parts])?;
        let from = source.store();
        let to = dest.store();
        let files = names_of(alloc, from, name, &parts)?;
        Ok(Move {
            alloc,
            source: from,
            destination: to,
            granularity: dest.granularity(),
            series,
            name: name.clone()?,
            listed: last_listed(dest, series),
            parts,
            at: 0,
            pending: Vec::new(alloc),
            stage: Stage::Copying,
            files,
        })
    }

    /// The source's entry, as it was when the move began, of the part that is copied next; `None` once all are copied.
    pub fn at(&self) -> Option<&Entry>
        ensures { option_copied result ≡ slice_get self.now.parts self.now.at }
    {
        self.parts.get(self.at)
    }

    /// The series that it moves.
    pub fn series(&self) -> u32
        ensures { result ≡ self.now.series }
    {
        self.series
    }

    /// How far it has come.
    pub fn stage(&self) -> Stage
        ensures { result ≡ self.now.stage }
    {
        self.stage
    }

    /// The entries of its parts, oldest first: of those that are copied with the length up to which they are, of the
    /// others as the source listed them when the move began.
    pub fn parts(&self) -> &[Entry]
        ensures { result.now ≡ self.now.parts }
    {
        &self.parts
    }

    /// The entries that the destination is to list: what the move has written, in order.
    pub fn pending(&self) -> &[Entry]
        ensures { result.now ≡ self.now.pending }
    {
        &self.pending
    }

    /// How many parts are copied.
    pub fn copied_parts(&self) -> usize
        ensures { result ≡ self.now.at }
    {
        self.at
    }

    /// The files of the parts in the source, in their order.
    pub fn kept(&self) -> &[FileName]
        ensures { result.now ≡ self.now.files }
    {
        &self.files
    }
}

// The last entry that a manifest lists of a series.
fn last_listed(manifest: &Manifest, series: u32) -> Option<Entry>
    ensures { IsLastOf manifest.now.entries series result }
{
    let entry = manifest.entries(series).last()?;
    Some(*entry)
}

// The names of the parts' files in their store, in order.
fn names_of(
    alloc: Global,
    store: u8,
    name: &PvName,
    parts: &[Entry],
) -> Result<Vec<FileName>, AllocError>
    ensures { IfOk result (λ v. v.items ≡ map (part_file store name.now) parts.now) }
{
    let mut names = Vec::with_capacity(alloc, parts.len())?;
    for part in parts {
        names.push(file_name(alloc, store, name, part)?)?;
    }
    Ok(names)
}

pub(crate) fn file_name(
    alloc: Global,
    store: u8,
    name: &PvName,
    part: &Entry,
) -> Result<FileName, AllocError>
    ensures { IfOk result (λ n. n ≡ part_file store name.now part.now) }
{
    let mut path = Vec::new(alloc);
    file_path(name, &part.part.name, &mut path)?;
    Ok(FileName { store, path })
}
