// What the store tells of a row, and what a look finds.
use pb_messages::{About, State};
use pv_name::PvName;
use series_model::{Batch, Blob, Samples};
use std::marker::Model;

/// A row as it is registered.
#[derive(Drop)]
pub struct Registered {
    /// The row's number.
    pub row: u32,
    pub name: PvName,
    pub about: About,
    pub state: State,
    /// The row that the variable had under the name before, if it was renamed.
    pub base: Option<u32>,
    /// The number of its last change: how long the store's history is with that, 0 where it has not changed.
    pub changed: u64,
}

impl Model for Registered {
    ghost use Rattle.two_histories.specs.ArchiveStore as store;

    ghost Value = { store.RegisteredRow };

    ghost view = { λ r. record {
      row = r.row;
      name = r.name;
      about = r.about;
      state = r.state;
      base = r.base;
      changed = r.changed;
    } };
}

/// One row as a look finds it, or that no row has the name.
#[derive(Drop)]
pub struct RowLook {
    pub name: Blob,
    /// The accepted samples that it has not let go.
    pub tail: Samples,
    /// What is known of the row, if one has the name.
    pub known: Option<Registered>,
}

impl Model for RowLook {
    ghost use Rattle.two_histories.specs.ArchiveIntake as halves;

    ghost Value = { halves.RowLook };

    ghost view = { λ look. record { name = look.name; tail = look.tail; known = look.known } };
}

/// A batch as a look finds it.
#[derive(Drop)]
pub struct BatchLook {
    /// How many doors are open.
    pub doors: u64,
    /// Whole tails, in the order of rows.
    pub batch: Batch,
    /// How many bytes are held that the batch leaves out.
    pub left: u64,
    /// The greatest length of the store's history that a flush told.
    pub upto: u64,
}
