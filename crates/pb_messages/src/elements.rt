// The elements of an event's value as they stand in its fields, packed or one by one.
ghost use Rattle.std.specs.Prelude.{◌≡◌, ◌≤◌, ◌<◌, OnOk, length};
ghost use Rattle.pb_wire.specs.Message.{view_value, blob_len};
ghost use Rattle.pb_wire.specs.Fields.{Tells};
ghost use Rattle.pb_messages.specs.Layout.{is_single, packed_varints, unless_multiple, packed_of, packed_fixed32};
ghost use Rattle.pb_messages.specs.Layout.{packed_fixed64, elements_in};
ghost use Rattle.pb_messages.specs.Adding.{Adds, with_elements};

use crate::layout::{Element, Layout};
use crate::{EventErr, EventFault, Value};
use pb_wire::{Varints, Wire, WireErr};
use std::alloc::{AllocError, Global};

/// Whether a value of `val`, whose last byte stands before `behind`, has a fault. No element is kept.
pub(crate) fn check_val(layout: Layout, value: Wire<'_>, behind: usize) -> Result<(), EventFault>
    requires { blob_len (view_value value) ≤ behind }
    ensures { Tells result (elements_in layout (view_value value.entry) behind).fault }
{
    if is_single(layout.element, value) {
        return Ok(());
    }
    match value {
        Wire::Bytes(text) if layout.repeated => check_packed(layout.element, text, behind),
        _ => Err(EventFault::WrongWire { field: 3 }),
    }
}

/// Takes the elements of a value of `val`, as `check_val` has it.
pub(crate) fn add_val(
    val: &mut Value,
    alloc: Global,
    layout: Layout,
    value: Wire<'_>,
    behind: usize,
) -> Result<(), EventErr>
    requires { blob_len (view_value value) ≤ behind }
    ensures { Adds val.old val.new (elements_in layout (view_value value.entry) behind) result }
{
    if is_single(layout.element, value) {
        val.add(alloc, value)?;
        return Ok(());
    }
    match value {
        Wire::Bytes(text) if layout.repeated => add_packed(
            val,
            alloc,
            layout.element,
            text,
            behind,
        ),
        _ => Err(EventErr::Fault(EventFault::WrongWire { field: 3 })),
    }
}

// Whether the value is of the wire type that the element has by itself.
fn is_single(element: Element, value: Wire<'_>) -> bool
    ensures { result ≡ is_single element (view_value value.entry) }
{
    match value {
        Wire::Varint(_) => element == Element::Sint32,
        Wire::Fixed64(_) => element == Element::Fixed64,
        Wire::Bytes(_) => element == Element::Bytes,
        Wire::Fixed32(_) => element == Element::Fixed32,
    }
}

fn check_packed(element: Element, text: &[u8], behind: usize) -> Result<(), EventFault>
    requires { length text.now ≤ behind }
    ensures { Tells result (packed_of element text.now behind).fault }
{
    match element {
        Element::Bytes => Err(EventFault::WrongWire { field: 3 }),
        Element::Sint32 => check_varints(text, behind),
        Element::Fixed32 => check_multiple(text, 4, behind),
        Element::Fixed64 => check_multiple(text, 8, behind),
    }
}

#[tactic(auto, unfolding(crate::specs::Layout::packed_varints))]
fn check_varints(text: &[u8], behind: usize) -> Result<(), EventFault>
    requires { length text.now ≤ behind }
    ensures { Tells result (packed_varints text.now behind).fault }
{
    let mut numbers = Varints::ending_at(text, behind);
    while numbers.next()?.is_some() {}
    Ok(())
}

// Whether the bytes, which end at place `behind`, are elements of `size` bytes each.
fn check_multiple(text: &[u8], size: usize, behind: usize) -> Result<(), EventFault>
    requires within { length text.now ≤ behind }
    requires some { 0 < size }
    ensures { Tells result (unless_multiple size text.now behind) }
{
    if text.len() % size == 0 {
        return Ok(());
    }
    let at = behind - text.len();
    Err(EventFault::Wire(WireErr::Short { at }))
}

fn add_packed(
    val: &mut Value,
    alloc: Global,
    element: Element,
    text: &[u8],
    behind: usize,
) -> Result<(), EventErr>
    requires { length text.now ≤ behind }
    ensures { Adds val.old val.new (packed_of element text.now behind) result }
{
    match element {
        Element::Bytes => Err(EventErr::Fault(EventFault::WrongWire { field: 3 })),
        Element::Sint32 => add_varints(val, alloc, text, behind),
        Element::Fixed32 => {
            check_multiple(text, 4, behind)?;
            Ok(add_fixed32(val, alloc, text)?)
        }
        Element::Fixed64 => {
            check_multiple(text, 8, behind)?;
            Ok(add_fixed64(val, alloc, text)?)
        }
    }
}

#[tactic(auto, using(crate::proofs::ElementLemmas::element_steps), unfolding(crate::specs::Layout::packed_varints))]
fn add_varints(val: &mut Value, alloc: Global, text: &[u8], behind: usize) -> Result<(), EventErr>
    requires { length text.now ≤ behind }
    ensures { Adds val.old val.new (packed_varints text.now behind) result }
{
    let mut numbers = Varints::ending_at(text, behind);
    while let Some(number) = numbers.next()? {
        val.add(alloc, Wire::Varint(number))?;
    }
    Ok(())
}

#[tactic(auto, using(crate::proofs::ElementLemmas::more_elements, crate::proofs::ElementLemmas::no_elements))]
fn add_fixed32(val: &mut Value, alloc: Global, text: &[u8]) -> Result<(), AllocError>
    ensures { OnOk result (val.new ≡ with_elements val.old (packed_fixed32 text.now)) }
{
    let (words, _) = text.as_chunks::<4>();
    for word in words {
        val.add(alloc, Wire::Fixed32(u32::from_le_bytes(*word)))?;
    }
    Ok(())
}

#[tactic(auto, using(crate::proofs::ElementLemmas::more_elements, crate::proofs::ElementLemmas::no_elements))]
fn add_fixed64(val: &mut Value, alloc: Global, text: &[u8]) -> Result<(), AllocError>
    ensures { OnOk result (val.new ≡ with_elements val.old (packed_fixed64 text.now)) }
{
    let (words, _) = text.as_chunks::<8>();
    for word in words {
        val.add(alloc, Wire::Fixed64(u64::from_le_bytes(*word)))?;
    }
    Ok(())
}
