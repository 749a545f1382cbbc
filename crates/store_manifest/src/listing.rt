// The entries of a manifest in memory, and the changes of a commit. They are kept while it goes on, and made when it is
// done, which takes no memory.
ghost use Rattle.std.specs.Prelude.{◌≡◌, ◌==◌, ◌≤◌, ◌+◌, ℕ, [], List, OnOk, filter, take, drop};
ghost use Rattle.store_manifest.specs.Entries.{place_of, all_changed};

use crate::lists::SeriesLists;
use crate::{AllEntries, Change, Entry};
use std::alloc::{AllocError, Global};
use std::collections::BTreeMap;

#[derive(Drop)]
pub(crate) struct Listing {
    lists: SeriesLists,
    pending: Vec<Change>,
}

impl Listing {
    ghost use Rattle.store_manifest.specs.Listing.{entries_of, next_of, AreLists, HasRoom, IsListing};

    pub(crate) fn of(alloc: Global, lists: SeriesLists) -> Listing
        requires { AreLists lists.listed.entries }
        ensures good { IsListing result }
        ensures entries { entries_of result.lists.listed.entries ≡ entries_of lists.listed.entries }
    {
        Listing {
            lists,
            pending: Vec::new(alloc),
        }
    }

    // The entries of a series, oldest first.
    pub(crate) fn entries(&self, series: u32) -> &[Entry]
        requires { IsListing self.now }
        ensures { result.now ≡ filter (λ e. e.series == series) (entries_of self.now.lists.listed.entries) }
    {
        self.lists.entries(series)
    }

    // The entries of all series.
    pub(crate) fn all(&self) -> AllEntries<'_>
        ensures { result ≡ entries_of self.now.lists.listed.entries }
    {
        self.lists.all()
    }

    // Keeps these changes, and none else, and takes all the memory that they need.
    pub(crate) fn prepare(&mut self, changes: &[Change]) -> Result<(), AllocError>
        requires { IsListing self.old }
        ensures good { IsListing self.new }
        ensures entries { entries_of self.new.lists.listed.entries ≡ entries_of self.old.lists.listed.entries }
        ensures next { OnOk result
            (next_of self.new ≡ all_changed (entries_of self.old.lists.listed.entries) changes.now) }
    {
        self.pending.clear();
        self.lists.make_rooms(changes)?;
        self.pending.extend_from_slice(changes)?;
        Ok(())
    }

    // Makes the changes that are kept. It takes no memory.
    pub(crate) fn take(&mut self)
        requires { IsListing self.old }
        ensures good { IsListing self.new }
        ensures entries { entries_of self.new.lists.listed.entries ≡ next_of self.old }
        ensures next { next_of self.new ≡ next_of self.old }
    {
        self.lists.make_all(&self.pending);
        self.pending.clear();
    }
}
