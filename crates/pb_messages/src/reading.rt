// An event read from the fields of its message, member by member.
ghost use Rattle.std.specs.Prelude.{◌≡◌, ◌≤◌, Ok, IfOk, IfSome};
ghost use Rattle.pb_wire.specs.Message.{view, view_value, blob_len};
ghost use Rattle.pb_messages.specs.Event.{event_of, event_with, stamp_of, stamp_with, Gives, IsOfType};
ghost use Rattle.pb_messages.specs.Layout.{layout_of};
ghost use Rattle.pb_messages.specs.Reading.{no_members, seen, TakesField};

use crate::elements::{add_val, check_val};
use crate::layout::{Element, Layout};
use crate::singular::Singular;
use crate::{Event, EventErr, EventFault, Value};
use pb_wire::{Field, Fields, PayloadType, int32_of, number_of, read_pair, text_of, uint32_of};
use series_model::PairList;
use std::alloc::Global;

// The members so far: the numbers, the value with its elements, and the field values.
#[derive(Drop)]
struct Members {
    numbers: Singular,
    val: bool,
    value: Value,
    fields: PairList,
}

impl Members {
    // The members of no fields. A value that may have no elements is there.
    fn new(alloc: Global, ty: PayloadType, val: bool) -> Members
        ensures { result ≡ no_members ty val }
    {
        Members {
            numbers: Singular::new(),
            val,
            value: Value::blank(alloc, ty),
            fields: PairList::new(alloc),
        }
    }

    // Takes the next field, whose last byte stands before `behind`.
    fn take(
        &mut self,
        alloc: Global,
        layout: Layout,
        field: Field<'_>,
        behind: usize,
    ) -> Result<(), EventErr>
        requires { blob_len (view_value field.value) ≤ behind }
        ensures { TakesField layout self.old self.new (record { item = view field.entry; behind = behind }) result }
    {
        match field.number {
            3 => {
                add_val(&mut self.value, alloc, layout, field.value, behind)?;
                self.val = true;
            }
            7 => {
                let pair = read_pair(text_of(field, 7)?, behind, 7)?;
                self.fields.push(alloc, pair)?;
            }
            _ => self.numbers.take(field)?,
        }
        Ok(())
    }

    // The required members come first, in the order of their numbers.
    #[tactic(auto, unfolding(crate::specs::Event::event_with))]
    fn into_event(self) -> Result<Event, EventFault>
        ensures { result ≡ event_with (seen self) }
    {
        let numbers = self.numbers;
        let secs = numbers.secs.ok_or(EventFault::Missing { field: 1 })?;
        let nano = numbers.nano.ok_or(EventFault::Missing { field: 2 })?;
        if !self.val {
            return Err(EventFault::Missing { field: 3 });
        }
        let fields = self.fields.into_pairs();
        let fields = fields.ok_or(EventFault::Missing { field: 7 })?;
        Ok(Event {
            secs: uint32_of(secs),
            nano: uint32_of(nano),
            val: self.value,
            severity: numbers.severity.map_or(0, |number| int32_of(number)),
            status: numbers.status.map_or(0, |number| int32_of(number)),
            repeat: numbers.repeat.map(|number| uint32_of(number)),
            fields,
            actual_change: numbers.actual_change.map(|number| number != 0),
        })
    }
}

/// The event that the bytes hold, or its first fault.
#[tactic(auto, using(crate::proofs::EventLemmas::event_ends, crate::proofs::FieldsLemmas::field_steps))]
pub fn decode(alloc: Global, ty: PayloadType, bytes: &[u8]) -> Result<Event, EventErr>
    ensures event { Gives result (event_of ty bytes.now) }
    ensures kind { IfOk result (λ event. IsOfType ty event.val) }
{
    let layout = Layout::of(ty);
    let mut members = Members::new(alloc, ty, layout.repeated);
    let mut fields = Fields::of(bytes);
    while let Some(field) = fields.next()? {
        members.take(alloc, layout, field, fields.place())?;
    }
    Ok(members.into_event()?)
}

/// The seconds and nanoseconds of the event that the bytes hold, or its first fault. The whole
/// message is looked at, without memory.
#[inline(always)]
pub fn stamp(ty: PayloadType, bytes: &[u8]) -> Result<(u32, u32), EventFault>
    ensures { result ≡ stamp_of ty bytes.now }
{
    match usual_stamp(ty, Layout::of(ty), bytes) {
        Some(at) => Ok(at),
        None => any_stamp(ty, bytes),
    }
}

// The same, of any spelling.
#[inline(never)]
#[tactic(auto, using(crate::proofs::EventLemmas::stamp_ends), unfolding(crate::specs::Event::stamp_of, crate::specs::Event::event_of))]
fn any_stamp(ty: PayloadType, bytes: &[u8]) -> Result<(u32, u32), EventFault>
    ensures { result ≡ stamp_of ty bytes.now }
{
    let layout = Layout::of(ty);
    let mut secs = None;
    let mut nano = None;
    let mut val = layout.repeated;
    let mut whole = true;
    let mut fields = Fields::of(bytes);
    while let Some(field) = fields.next()? {
        match field.number {
            1 => secs = Some(number_of(field)?),
            2 => nano = Some(number_of(field)?),
            3 => {
                check_val(layout, field.value, fields.place())?;
                val = true;
            }
            7 => {
                let pair = read_pair(text_of(field, 7)?, fields.place(), 7)?;
                whole = whole && pair.is_some();
            }
            4 | 5 | 6 | 8 => {
                number_of(field)?;
            }
            _ => {}
        }
    }
    stamp_with(secs, nano, val, whole)
}

// The same of an event as most scalars are: the second, the nanosecond and a number, in this order
// and each spelled shortly, and nothing else.
#[inline(always)]
fn usual_stamp(ty: PayloadType, layout: Layout, bytes: &[u8]) -> Option<(u32, u32)>
    requires { layout ≡ layout_of ty }
    ensures { IfSome result (λ at. stamp_of ty bytes.now ≡ Ok at) }
{
    let mut fields = Fields::of(bytes);
    let secs = fields.next_number(1)?;
    let nano = fields.next_number(2)?;
    match layout.element {
        Element::Fixed64 => {
            fields.next_fixed64(3)?;
        }
        Element::Fixed32 => {
            fields.next_fixed32(3)?;
        }
        Element::Sint32 => {
            fields.next_number(3)?;
        }
        Element::Bytes => return None,
    }
    if !fields.is_empty() {
        return None;
    }
    Some((uint32_of(secs), uint32_of(nano)))
}

// The required members in the order of their numbers.
fn stamp_with(
    secs: Option<u64>,
    nano: Option<u64>,
    val: bool,
    whole: bool,
) -> Result<(u32, u32), EventFault>
    ensures { result ≡ stamp_with secs nano val whole }
{
    let secs = secs.ok_or(EventFault::Missing { field: 1 })?;
    let nano = nano.ok_or(EventFault::Missing { field: 2 })?;
    if !val {
        return Err(EventFault::Missing { field: 3 });
    }
    if !whole {
        return Err(EventFault::Missing { field: 7 });
    }
    Ok((uint32_of(secs), uint32_of(nano)))
}
