// A take, piece by piece: memory for the rows that are told, then what is durable is let go, and rows are taken over.
ghost use Rattle.std.specs.Prelude.{◌≡◌, ◌≢◌, ◌≤◌, ◌<◌, ◌^◌, ℕ, List, length, Some, None, OnOk, OnErr, slice_get};
ghost use Rattle.series_model.specs.Series.{since};
ghost use Rattle.intake.specs.Tails.{tail_at, SetsTail};
ghost use Rattle.two_histories.specs.ArchiveStore.{RegisteredRow as RegisteredValue};
ghost use Rattle.intake_half.specs.Known.{number_of, slot_at};
ghost use Rattle.intake_half.specs.Taking.{all_told, end_in, next_in, told_in};

use crate::known::{KnownRow, take_in};
use crate::names::Names;
use crate::told::Registered;
use intake::Intake;
use std::alloc::{AllocError, Global};

// Takes the memory for one row, and tells its number under its name.
fn make_place(
    alloc: Global,
    slots: &mut Vec<Option<KnownRow>>,
    names: &mut Names,
    told: &Registered,
) -> Result<(), AllocError>
    requires few { length slots.old.items ≤ 2 ^ 32 }
    ensures there { OnOk result (told.now.row < length slots.new.items) }
    ensures more { length slots.old.items ≤ length slots.new.items }
    ensures few { length slots.new.items ≤ 2 ^ 32 }
    ensures same { (i : ℕ) → slot_at slots.new.items i ≡ slot_at slots.old.items i }
    ensures named { OnOk result (number_of names.new told.now.name ≡ Some told.now.row) }
    ensures others { (name : List ℕ) → name ≢ told.now.name → number_of names.new name ≡ number_of names.old name }
    ensures unnamed { OnErr result ((name : List ℕ) → number_of names.new name ≡ number_of names.old name) }
{
    add_slots(slots, told.row)?;
    names.put(alloc, told.name.bytes(), told.row)
}

// Gives this row, and those before it, a slot.
fn add_slots(slots: &mut Vec<Option<KnownRow>>, row: u32) -> Result<(), AllocError>
    requires few { length slots.old.items ≤ 2 ^ 32 }
    ensures there { OnOk result (row < length slots.new.items) }
    ensures more { length slots.old.items ≤ length slots.new.items }
    ensures few { length slots.new.items ≤ 2 ^ 32 }
    ensures same { (i : ℕ) → slot_at slots.new.items i ≡ slot_at slots.old.items i }
{
    for _slot in slots.len()..row as usize + 1 {
        slots.push(None)?;
    }
    Ok(())
}

// Takes the memory for the rows that are told, and tells their numbers under their names, each of which is of one row.
pub(crate) fn make_room(
    alloc: Global,
    slots: &mut Vec<Option<KnownRow>>,
    names: &mut Names,
    rows: &[Registered],
) -> Result<(), AllocError>
    requires few { length slots.old.items ≤ 2 ^ 32 }
    requires agree { (i j : ℕ) (one other : RegisteredValue) → slice_get rows.now i ≡ Some one
        → slice_get rows.now j ≡ Some other → one.name ≡ other.name → one.row ≡ other.row }
    ensures there { OnOk result ((i : ℕ) (told : RegisteredValue) → slice_get rows.now i ≡ Some told
        → (told.row < length slots.new.items) × (number_of names.new told.name ≡ Some told.row)) }
    ensures few { length slots.new.items ≤ 2 ^ 32 }
    ensures same { (i : ℕ) → slot_at slots.new.items i ≡ slot_at slots.old.items i }
    ensures names { (name : List ℕ) (number : ℕ) → number_of names.old name ≡ Some number
        → ((i : ℕ) (told : RegisteredValue) → slice_get rows.now i ≡ Some told → name ≡ told.name → number ≡ told.row)
        → number_of names.new name ≡ Some number }
{
    for told in rows {
        make_place(alloc, slots, names, told)?;
    }
    Ok(())
}

// Lets go the samples of so many rows that are earlier than the row's end.
pub(crate) fn trim_tails(intake: &mut Intake, ends: &[u64], count: usize)
    requires { count ≤ 2 ^ 32 }
    ensures trimmed { (row : ℕ) → row < count
        → (tail_at intake.new row).samples ≡ since (end_in ends.now row) (tail_at intake.old row).samples }
    ensures others { (row : ℕ) → count ≤ row → (tail_at intake.new row).samples ≡ (tail_at intake.old row).samples }
{
    for row in 0..count.min(ends.len()) {
        trim_tail(intake, row as u32, ends[row]);
    }
}

// Lets go the samples of a row that are earlier than its end.
fn trim_tail(intake: &mut Intake, row: u32, end: u64)
    ensures { SetsTail row (since end (tail_at intake.old row).samples) intake.old intake.new }
{
    if end > 0 {
        intake.trim(row, end - 1);
    }
}

// From which moment on a row with this base takes samples.
fn next_of_base(slots: &[Option<KnownRow>], base: Option<u32>) -> u64
    ensures { result ≡ next_in slots.now base }
{
    match base {
        Some(row) => next_of_row(slots, row),
        None => 0,
    }
}

fn next_of_row(slots: &[Option<KnownRow>], row: u32) -> u64
    ensures { result ≡ next_in slots.now (Some row) }
{
    match slots.get(row as usize) {
        Some(Some(known)) => known.memory.next,
        _ => 0,
    }
}

// Takes over one row that is told.
fn take_row(slots: &mut Vec<Option<KnownRow>>, told: Registered)
    requires { told.row < length slots.old.items }
    ensures { slots.new.items ≡ told_in told slots.old.items }
{
    let next = next_of_base(slots, told.base);
    let row = told.row as usize;
    take_in(&mut slots[row], told, next);
}

// Takes over the rows that are told.
pub(crate) fn take_rows(slots: &mut Vec<Option<KnownRow>>, rows: Vec<Registered>)
    requires { (i : ℕ) (told : RegisteredValue) → slice_get rows.items i ≡ Some told
        → told.row < length slots.old.items }
    ensures { slots.new.items ≡ all_told rows.items slots.old.items }
{
    for told in rows {
        take_row(slots, told);
    }
}
