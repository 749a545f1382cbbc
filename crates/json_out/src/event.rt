// The JSON texts of events, and of what stands before them.
ghost use Rattle.std.specs.Prelude.{◌≡◌, ◌/◌, ◌%◌, ◌++◌, [], OnOk, IfOk, IfErr, Ok, codes, decimal, if◌then◌else◌};
ghost use Rattle.series_model.specs.declared.sample.Sample.{Sample};
ghost use Rattle.act_model.specs.Event.{IsEvent};
ghost use Rattle.json_out.specs.Line.{event_in};
ghost use Rattle.json_out.specs.Json.{event_text, fields_text, head_text};

use crate::object::put_object;
use crate::value::{JsonElement, put_number, put_value};
use act_model::OutErr;
use arch_time::NANOS_PER_SECOND;
use line_escape::{EscapeErr, unescaped};
use pb_messages::{Event, EventErr, PayloadType, decode};
use series_model::Blob;
use std::alloc::{AllocError, Global};

/// Appends what stands before the samples: the variable's name and its headers.
pub(crate) fn put_head(
    alloc: Global,
    name: &[u8],
    headers: &[(Blob, Blob)],
    out: &mut Vec<u8>,
) -> Result<(), AllocError>
    ensures { OnOk result (out.new.items ≡ out.old.items ++ head_text name.now headers.now) }
{
    out.extend_from_slice(b"[{\"meta\":")?;
    put_object(alloc, b"name", name, headers, out)?;
    out.extend_from_slice(b",\"data\":[")
}

/// The event of a line, which is one of the type at the moment. Where the line has escapes, its
/// message is put into `work`.
pub(crate) fn read_event(
    alloc: Global,
    ty: PayloadType,
    t: u64,
    line: &[u8],
    work: &mut Vec<u8>,
) -> Result<Event, OutErr>
    requires { IsEvent ty (record { t = t; line = line.now }) }
    ensures ok { IfOk result (λ event. event_in ty line.now ≡ Ok event) }
    ensures memory { IfErr result (λ e. e ≡ OutErr.Memory) }
{
    let message = match unescaped(line, work) {
        Ok(message) => message,
        Err(EscapeErr::Memory) => return Err(OutErr::Memory),
        Err(EscapeErr::BadEscape { .. }) => unreachable!(),
    };
    match decode(alloc, ty, message) {
        Ok(event) => Ok(event),
        Err(EventErr::Memory) => Err(OutErr::Memory),
        Err(EventErr::Fault(_)) => unreachable!(),
    }
}

/// Appends an event at a moment, behind a comma where it is a later one.
pub(crate) fn put_next(
    alloc: Global,
    later: bool,
    t: u64,
    event: &Event,
    out: &mut Vec<u8>,
) -> Result<(), AllocError>
    ensures { OnOk result
        (out.new.items ≡ out.old.items ++ ((if later then codes "," else []) ++ event_text t event.now)) }
{
    if later {
        out.extend_from_slice(b",")?;
    }
    put_event(alloc, t, event, out)
}

fn put_event(alloc: Global, t: u64, event: &Event, out: &mut Vec<u8>) -> Result<(), AllocError>
    ensures { OnOk result (out.new.items ≡ out.old.items ++ event_text t event.now) }
{
    put_moment(t, out)?;
    out.extend_from_slice(b",\"val\":")?;
    put_value(alloc, &event.val, out)?;
    put_labelled(alloc, b",\"severity\":", &event.severity, out)?;
    put_labelled(alloc, b",\"status\":", &event.status, out)?;
    put_fields(alloc, event.fields.items(), out)?;
    out.extend_from_slice(b"}")
}

fn put_moment(t: u64, out: &mut Vec<u8>) -> Result<(), AllocError>
    ensures { OnOk result (out.new.items ≡ out.old.items
        ++ (codes "{\"secs\":" ++ decimal (t / 1000000000) ++ codes ",\"nanos\":" ++ decimal (t % 1000000000))) }
{
    out.extend_from_slice(b"{\"secs\":")?;
    put_number(t / NANOS_PER_SECOND, out)?;
    out.extend_from_slice(b",\"nanos\":")?;
    put_number(t % NANOS_PER_SECOND, out)
}

// Appends an element behind what tells its name.
fn put_labelled<T: JsonElement>(
    alloc: Global,
    label: &[u8],
    element: &T,
    out: &mut Vec<u8>,
) -> Result<(), AllocError>
    ensures { OnOk result (out.new.items ≡ out.old.items ++ (label.now ++ T.text element.now)) }
{
    out.extend_from_slice(label)?;
    element.put(alloc, out)
}

fn put_fields(alloc: Global, fields: &[(Blob, Blob)], out: &mut Vec<u8>) -> Result<(), AllocError>
    ensures { OnOk result (out.new.items ≡ out.old.items ++ fields_text fields.now) }
{
    let Some(((name, val), others)) = fields.split_first() else {
        return Ok(());
    };
    out.extend_from_slice(b",\"fields\":")?;
    put_object(alloc, name.bytes(), val.bytes(), others, out)
}
