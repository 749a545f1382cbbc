// The one spelling of an event: its fields in the order of their numbers, defaults left out.
ghost use Rattle.std.specs.Prelude.{◌≡◌, ◌<◌, ◌^◌, ◌++◌, Ok, OnOk, OnErr, IfSome, FitsSigned, length, map};
ghost use Rattle.std.specs.List.{AllByRecursion};
ghost use Rattle.std.specs.Int.{w32};
ghost use Rattle.std.specs.Io.{StartsWith};
ghost use Rattle.pb_wire.specs.Message.{IsFieldNumber};
ghost use Rattle.pb_wire.specs.FieldSpelling.{message_text, text_field, pair_field, optional_field, ShortPairs};
ghost use Rattle.pb_messages.specs.Spelling.{unless_zero, val_fields, stamp_fields, state_fields, last_fields};
ghost use Rattle.pb_messages.specs.Spelling.{event_text, FitsVal, FitsState, FitsEvent};
ghost use Rattle.pb_messages.specs.Event.{IsOfType, event_of};

use crate::packed::{Double, Float, Sfixed32, Sint32, put_packed};
use crate::{Event, PayloadType, Value};
use pb_wire::{Wire, put_field, put_optional, put_pair, sign_extended, zigzag};
use series_model::Blob;
use std::alloc::AllocError;

/// Appends the one spelling of an event, whose value is of the type `ty`: it is read as that event.
/// Where memory runs out, `out` stays.
pub fn encode(ty: PayloadType, event: &Event, out: &mut Vec<u8>) -> Result<(), AllocError>
    requires { IsOfType ty event.now.val }
    ensures ok { OnOk result (out.new.items ≡ out.old.items ++ event_text event.now) }
    ensures err { OnErr result (out.new.items ≡ out.old.items) }
    ensures back { OnOk result (event_of ty (event_text event.now) ≡ Ok event.now) }
{
    let before = out.len();
    let done = put_event(event, out);
    if done.is_err() {
        out.truncate(before);
    }
    done
}

// The same, but where memory runs out a part may stand behind the old bytes; so in those below.
#[tactic(auto, using(pb_wire::proofs::PairTexts::texts_apart), unfolding(crate::specs::Spelling::event_text))]
fn put_event(event: &Event, out: &mut Vec<u8>) -> Result<(), AllocError>
    ensures ok { OnOk result (out.new.items ≡ out.old.items ++ event_text event.now) }
    ensures grows { StartsWith out.new.items out.old.items }
    ensures fits { OnOk result (FitsEvent event.now) }
{
    put_front(event, out)?;
    put_back(event, out)
}

#[tactic(auto, using(pb_wire::proofs::PairTexts::texts_apart))]
fn put_front(event: &Event, out: &mut Vec<u8>) -> Result<(), AllocError>
    ensures ok { OnOk result
        (out.new.items ≡ out.old.items ++ message_text (stamp_fields event.now ++ val_fields event.now.val)) }
    ensures grows { StartsWith out.new.items out.old.items }
    ensures fits { OnOk result ((event.now.secs < 2 ^ 32) × (event.now.nano < 2 ^ 32) × FitsVal event.now.val) }
{
    put_stamp(event, out)?;
    put_val(&event.val, out)
}

#[tactic(auto, using(pb_wire::proofs::PairTexts::texts_apart))]
fn put_back(event: &Event, out: &mut Vec<u8>) -> Result<(), AllocError>
    ensures ok { OnOk result
        (out.new.items ≡ out.old.items ++ message_text (state_fields event.now ++ last_fields event.now)) }
    ensures grows { StartsWith out.new.items out.old.items }
    ensures fits { OnOk result (FitsState event.now × ShortPairs event.now.fields) }
{
    put_state(event, out)?;
    put_last(event, out)
}

fn put_stamp(event: &Event, out: &mut Vec<u8>) -> Result<(), AllocError>
    ensures ok { OnOk result (out.new.items ≡ out.old.items ++ message_text (stamp_fields event.now)) }
    ensures grows { StartsWith out.new.items out.old.items }
    ensures fits { OnOk result ((event.now.secs < 2 ^ 32) × (event.now.nano < 2 ^ 32)) }
{
    put_field(out, 1, Wire::Varint(u64::from(event.secs)))?;
    put_field(out, 2, Wire::Varint(u64::from(event.nano)))
}

#[tactic(auto, using(pb_wire::proofs::PairTexts::texts_apart))]
fn put_state(event: &Event, out: &mut Vec<u8>) -> Result<(), AllocError>
    ensures ok { OnOk result (out.new.items ≡ out.old.items ++ message_text (state_fields event.now)) }
    ensures grows { StartsWith out.new.items out.old.items }
    ensures fits { OnOk result (FitsState event.now) }
{
    put_severity(event, out)?;
    put_status(event, out)
}

fn put_severity(event: &Event, out: &mut Vec<u8>) -> Result<(), AllocError>
    ensures ok { OnOk result
        (out.new.items ≡ out.old.items ++ message_text (optional_field 4 (unless_zero event.now.severity))) }
    ensures grows { StartsWith out.new.items out.old.items }
    ensures fits { OnOk result (FitsSigned w32 event.now.severity) }
{
    put_optional(out, 4, unless_zero(event.severity))
}

#[tactic(auto, using(pb_wire::proofs::PairTexts::texts_apart))]
fn put_status(event: &Event, out: &mut Vec<u8>) -> Result<(), AllocError>
    ensures ok { OnOk result (out.new.items ≡ out.old.items
        ++ message_text (optional_field 5 (unless_zero event.now.status) ++ optional_field 6 event.now.repeat)) }
    ensures grows { StartsWith out.new.items out.old.items }
    ensures fits { OnOk result (FitsSigned w32 event.now.status × IfSome event.now.repeat (λ n. n < 2 ^ 32)) }
{
    put_optional(out, 5, unless_zero(event.status))?;
    put_repeat(event.repeat, out)
}

fn put_repeat(repeat: Option<u32>, out: &mut Vec<u8>) -> Result<(), AllocError>
    ensures ok { OnOk result (out.new.items ≡ out.old.items ++ message_text (optional_field 6 repeat)) }
    ensures grows { StartsWith out.new.items out.old.items }
    ensures fits { OnOk result (IfSome repeat (λ n. n < 2 ^ 32)) }
{
    match repeat {
        Some(count) => put_optional(out, 6, Some(u64::from(count))),
        None => Ok(()),
    }
}

#[tactic(auto, using(pb_wire::proofs::PairTexts::texts_apart))]
fn put_last(event: &Event, out: &mut Vec<u8>) -> Result<(), AllocError>
    ensures ok { OnOk result (out.new.items ≡ out.old.items ++ message_text (last_fields event.now)) }
    ensures grows { StartsWith out.new.items out.old.items }
    ensures fits { OnOk result (ShortPairs event.now.fields) }
{
    put_pairs(out, 7, event.fields.items())?;
    put_optional(out, 8, event.actual_change.map(u64::from))
}

// A number that is left out where it is 0.
fn unless_zero(number: i32) -> Option<u64>
    ensures { result ≡ unless_zero number }
{
    if number == 0 {
        None
    } else {
        Some(sign_extended(number))
    }
}

fn put_val(val: &Value, out: &mut Vec<u8>) -> Result<(), AllocError>
    ensures ok { OnOk result (out.new.items ≡ out.old.items ++ message_text (val_fields val.now)) }
    ensures grows { StartsWith out.new.items out.old.items }
    ensures fits { OnOk result (FitsVal val.now) }
{
    match val {
        Value::Str(bytes) => put_field(out, 3, Wire::Bytes(bytes.bytes())),
        Value::Short(number) => put_field(out, 3, Wire::Varint(u64::from(zigzag(*number)))),
        Value::Float(bits) => put_field(out, 3, Wire::Fixed32(*bits)),
        Value::Enum(number) => put_field(out, 3, Wire::Varint(u64::from(zigzag(*number)))),
        Value::Byte(bytes) => put_field(out, 3, Wire::Bytes(bytes.bytes())),
        Value::Int(number) => put_field(out, 3, Wire::Fixed32(number.cast_unsigned())),
        Value::Double(bits) => put_field(out, 3, Wire::Fixed64(*bits)),
        Value::Strs(list) => put_strings(out, list.items()),
        Value::Shorts(list) => put_packed::<i32, Sint32>(out, list.items()),
        Value::Floats(list) => put_packed::<u32, Float>(out, list.items()),
        Value::Enums(list) => put_packed::<i32, Sint32>(out, list.items()),
        Value::Bytes(bytes) => put_field(out, 3, Wire::Bytes(bytes.bytes())),
        Value::IntList(list) => put_packed::<i32, Sfixed32>(out, list.items()),
        Value::Doubles(list) => put_packed::<u64, Double>(out, list.items()),
    }
}

fn put_strings(out: &mut Vec<u8>, strings: &[Blob]) -> Result<(), AllocError>
    ensures ok { OnOk result (out.new.items ≡ out.old.items ++ message_text (map (text_field 3) strings.now)) }
    ensures grows { StartsWith out.new.items out.old.items }
    ensures fits { OnOk result (AllByRecursion (λ b. length b < 2 ^ 64) strings.now) }
{
    for text in strings {
        put_field(out, 3, Wire::Bytes(text.bytes()))?;
    }
    Ok(())
}

// Appends pairs, a field each.
pub(crate) fn put_pairs(
    out: &mut Vec<u8>,
    number: u32,
    pairs: &[(Blob, Blob)],
) -> Result<(), AllocError>
    requires { IsFieldNumber number }
    ensures ok { OnOk result (out.new.items ≡ out.old.items ++ message_text (map (pair_field number) pairs.now)) }
    ensures grows { StartsWith out.new.items out.old.items }
    ensures fits { OnOk result (ShortPairs pairs.now) }
{
    for (name, val) in pairs {
        put_pair(out, number, name.bytes(), val.bytes())?;
    }
    Ok(())
}
