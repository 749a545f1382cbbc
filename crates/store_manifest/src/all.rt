// All entries, one after another.
ghost use Rattle.std.specs.Prelude.{◌≡◌, [], ◌++◌};
ghost use Rattle.std.specs.Iterator.{YieldsFirstRef, item_count};
ghost use Rattle.std.specs.List.{flat_map};
ghost use Rattle.store_manifest.specs.Listing.{own};

use crate::Entry;
use crate::entry_list::EntryList;
use std::collections::btree_map::Iter;
use std::marker::Model;

/// The entries of all series, in the order of series and time. Contracts see the list of those that are left.
#[derive(Drop)]
pub struct AllEntries<'a> {
    lists: Iter<'a, u32, EntryList>,
    list: &'a [Entry],
}

impl<'a> Model for AllEntries<'a> {
    ghost use Rattle.std.specs.Prelude.{List, ◌++◌};
    ghost use Rattle.std.specs.List.{flat_map};
    ghost use Rattle.store_manifest.specs.declared.entry.Entry.{Entry as EntryValue};
    ghost use Rattle.store_manifest.specs.Listing.{own};

    ghost Value = { List EntryValue };

    ghost view = { λ a. a.list.now ++ flat_map own a.lists };
}

impl<'a> AllEntries<'a> {
    // Those in these lists.
    pub(crate) fn of(lists: Iter<'a, u32, EntryList>) -> AllEntries<'a>
        ensures { result ≡ flat_map own lists.entry }
    {
        AllEntries { lists, list: &[] }
    }
}

impl<'a> Iterator for AllEntries<'a> {
    type Item = &'a Entry;

    ghost next_gives = { YieldsFirstRef (λ left. left) };

    ghost remaining = { item_count (λ left. left) };

    fn next(&mut self) -> Option<&'a Entry> {
        if self.list.is_empty() {
            self.list = next_list(&mut self.lists);
        }
        let (first, others) = self.list.split_first()?;
        self.list = others;
        Some(first)
    }
}

// The next list that isn't empty, or an empty one at the end.
fn next_list<'a>(lists: &mut Iter<'a, u32, EntryList>) -> &'a [Entry]
    ensures left { flat_map own lists.old ≡ result.now ++ flat_map own lists.new }
    ensures end { result.now ≡ [] → flat_map own lists.new ≡ [] }
{
    while let Some((_, list)) = lists.next() {
        let entries = list.as_slice();
        if !entries.is_empty() {
            return entries;
        }
    }
    &[]
}
