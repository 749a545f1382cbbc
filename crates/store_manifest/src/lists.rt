// The entries of a manifest in memory: a list for each series.
ghost use Rattle.std.specs.Prelude.{◌≡◌, ◌==◌, ◌≤◌, ◌+◌, [], ℕ, Option, Some, OnOk, IsSome, IfSome, IsTrue, filter};
ghost use Rattle.store_manifest.specs.Entries.{place_of, changed, all_changed};
ghost use Rattle.store_manifest.specs.Reading.{IsAllowed};

use crate::entry_list::EntryList;
use crate::series::{change_list, find};
use crate::{AllEntries, Change, Entry};
use std::alloc::{AllocError, Global};
use std::collections::BTreeMap;

#[derive(Drop)]
pub(crate) struct SeriesLists {
    alloc: Global,
    listed: BTreeMap<u32, EntryList>,
}

impl SeriesLists {
    ghost use Rattle.store_manifest.specs.Listing.{list_of, entries_of, sets, AreLists, HasRoom, KeepsLists};

    pub(crate) fn new(alloc: Global) -> SeriesLists
        ensures good { AreLists result.listed.entries }
        ensures entries { entries_of result.listed.entries ≡ [] }
    {
        SeriesLists {
            alloc,
            listed: BTreeMap::new(alloc),
        }
    }

    // The entries of a series, oldest first.
    pub(crate) fn entries(&self, series: u32) -> &[Entry]
        requires { AreLists self.now.listed.entries }
        ensures { result.now ≡ filter (λ e. e.series == series) (entries_of self.now.listed.entries) }
    {
        match self.listed.get(&series) {
            Some(list) => list.as_slice(),
            None => &[],
        }
    }

    // The entries of all series.
    pub(crate) fn all(&self) -> AllEntries<'_>
        ensures { result ≡ entries_of self.now.listed.entries }
    {
        AllEntries::of(self.listed.iter())
    }

    // Whether a change doesn't drop what isn't listed.
    pub(crate) fn allows(&self, change: &Change) -> bool
        requires { AreLists self.now.listed.entries }
        ensures { (IsTrue result → IsAllowed (entries_of self.now.listed.entries) change.now)
            × (IsAllowed (entries_of self.now.listed.entries) change.now → IsTrue result) }
    {
        match change {
            Change::Set(_) => true,
            Change::Drop { series, start } => {
                find(self.entries(*series), *series, *start).is_ok()
            }
        }
    }

    // Gives a series a list if it has none yet.
    fn open(&mut self, series: u32) -> Result<(), AllocError>
        requires { AreLists self.old.listed.entries }
        ensures good { AreLists self.new.listed.entries }
        ensures entries { entries_of self.new.listed.entries ≡ entries_of self.old.listed.entries }
        ensures there { OnOk result (IsSome (list_of series self.new.listed.entries)) }
        ensures others { (s : ℕ) → (s ≡ series → ⊥)
            → list_of s self.new.listed.entries ≡ list_of s self.old.listed.entries }
    {
        if self.listed.contains_key(&series) {
            return Ok(());
        }
        self.listed.insert(series, EntryList::new(self.alloc))?;
        Ok(())
    }

    // Gives a series a list with room for so many entries more.
    fn make_room(&mut self, series: u32, room: usize) -> Result<(), AllocError>
        requires { AreLists self.old.listed.entries }
        ensures good { AreLists self.new.listed.entries }
        ensures entries { entries_of self.new.listed.entries ≡ entries_of self.old.listed.entries }
        ensures there { OnOk result (IsSome (list_of series self.new.listed.entries)) }
        ensures room { OnOk result
            (IfSome (list_of series self.new.listed.entries) (λ list. list.used + room ≤ list.capacity)) }
        ensures others { (s : ℕ) → (s ≡ series → ⊥)
            → list_of s self.new.listed.entries ≡ list_of s self.old.listed.entries }
    {
        self.open(series)?;
        match self.listed.get_mut(&series) {
            Some(list) => list.reserve(room),
            None => Ok(()),
        }
    }

    // Gives the series of all these changes lists with room for them.
    pub(crate) fn make_rooms(&mut self, changes: &[Change]) -> Result<(), AllocError>
        requires { AreLists self.old.listed.entries }
        ensures good { AreLists self.new.listed.entries }
        ensures entries { entries_of self.new.listed.entries ≡ entries_of self.old.listed.entries }
        ensures room { OnOk result (HasRoom self.new.listed.entries changes.now) }
    {
        let mut sets = BTreeMap::new(self.alloc);
        for change in changes {
            let series = change.series();
            let before = sets.get(&series).copied().unwrap_or(0);
            let room = before + change.sets();
            self.make_room(series, room)?;
            sets.insert(series, room)?;
        }
        Ok(())
    }

    // Makes all these changes, for which there is room.
    pub(crate) fn make_all(&mut self, changes: &[Change])
        requires good { AreLists self.old.listed.entries }
        requires room { HasRoom self.old.listed.entries changes.now }
        ensures good { AreLists self.new.listed.entries }
        ensures entries { entries_of self.new.listed.entries
            ≡ all_changed (entries_of self.old.listed.entries) changes.now }
    {
        for change in changes {
            self.make(change);
        }
    }

    // Makes a change, and takes the memory that it needs.
    pub(crate) fn change(&mut self, change: &Change) -> Result<(), AllocError>
        requires { AreLists self.old.listed.entries }
        ensures good { AreLists self.new.listed.entries }
        ensures entries { OnOk result
            (entries_of self.new.listed.entries ≡ changed (entries_of self.old.listed.entries) change.now) }
    {
        self.make_room(change.series(), change.sets())?;
        self.make(change);
        Ok(())
    }

    // Makes a change, for which there is room.
    fn make(&mut self, change: &Change)
        requires good { AreLists self.old.listed.entries }
        requires there { IsSome (list_of (place_of change.now).0 self.old.listed.entries) }
        requires room { 1 ≤ sets change.now → IfSome (list_of (place_of change.now).0 self.old.listed.entries)
            (λ list. list.used + sets change.now ≤ list.capacity) }
        ensures good { AreLists self.new.listed.entries }
        ensures entries { entries_of self.new.listed.entries ≡ changed (entries_of self.old.listed.entries) change.now }
        ensures lists { KeepsLists change.now self.old.listed.entries self.new.listed.entries }
    {
        let series = change.series();
        match self.listed.get_mut(&series) {
            Some(list) => change_list(list, change),
            None => {}
        }
    }
}
