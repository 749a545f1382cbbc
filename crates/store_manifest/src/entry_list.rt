// The entries of one series in memory, oldest first. Moves take the oldest away, so what goes at the front costs no
// move of the rest: it stays in memory until room is made for entries that are more than half gone.
ghost use Rattle.std.specs.Prelude.{◌≡◌, ◌≤◌, ◌<◌, ◌+◌, ◌++◌, ◌∷◌, [], ℕ, suc, length, take, drop, OnOk};

use crate::Entry;
use std::alloc::{AllocError, Global};
use std::marker::Model;

#[derive(Drop)]
pub(crate) struct EntryList {
    entries: Vec<Entry>,
    gone: usize,
}

impl Model for EntryList {
    ghost use Rattle.std.specs.Prelude.{◌≤◌, drop, vec_len, vec_capacity};
    ghost use Rattle.store_manifest.specs.EntryList.{ListState};

    ghost Value = { ListState };

    ghost view = { λ l.
        record { items = drop l.gone l.entries.items; used = vec_len l.entries; capacity = vec_capacity l.entries } };

    ghost invariant = { λ l. l.gone ≤ vec_len l.entries };
}

impl EntryList {
    pub(crate) fn new(alloc: Global) -> EntryList
        ensures { result.items ≡ [] }
    {
        EntryList {
            entries: Vec::new(alloc),
            gone: 0,
        }
    }

    pub(crate) fn as_slice(&self) -> &[Entry]
        ensures { result.now ≡ self.now.items }
    {
        &self.entries[self.gone..]
    }

    // Takes memory for so many entries more.
    pub(crate) fn reserve(&mut self, more: usize) -> Result<(), AllocError>
        ensures items { self.new.items ≡ self.old.items }
        ensures room { OnOk result (self.new.used + more ≤ self.new.capacity) }
    {
        if self.gone > self.entries.len() / 2 {
            self.clear_front();
        }
        self.entries.reserve(more)
    }

    // Gives the memory of what is gone to others.
    fn clear_front(&mut self)
        ensures { self.new.items ≡ self.old.items }
    {
        let left = self.entries.len() - self.gone;
        self.entries.rotate_left(self.gone);
        self.entries.truncate(left);
        self.gone = 0;
    }

    // Puts an entry in the place of another one.
    pub(crate) fn replace(&mut self, at: usize, entry: &Entry)
        requires { at < length self.old.items }
        ensures items { self.new.items ≡ take at self.old.items ++ entry.now ∷ drop (at + 1) self.old.items }
        ensures room { (self.new.used ≡ self.old.used) × (self.new.capacity ≡ self.old.capacity) }
    {
        self.entries[self.gone + at] = *entry;
    }

    // Puts an entry among the others, for which there is room.
    pub(crate) fn insert(&mut self, at: usize, entry: &Entry)
        requires within { at ≤ length self.old.items }
        requires room { self.old.used + 1 ≤ self.old.capacity }
        ensures items { self.new.items ≡ take at self.old.items ++ entry.now ∷ drop at self.old.items }
        ensures room { (self.new.used ≡ self.old.used + 1) × (self.new.capacity ≡ self.old.capacity) }
    {
        let _ = self.entries.insert(self.gone + at, *entry);
    }

    // Takes an entry away.
    pub(crate) fn remove(&mut self, at: usize)
        requires { at < length self.old.items }
        ensures items { self.new.items ≡ take at self.old.items ++ drop (at + 1) self.old.items }
        ensures room { (self.new.used ≤ self.old.used) × (self.new.capacity ≡ self.old.capacity) }
    {
        if at == 0 {
            self.gone += 1;
        } else {
            self.entries.remove(self.gone + at);
        }
    }
}
