// The bodies of replies at success, without the newline that ends each.
ghost use Rattle.std.specs.Prelude.{◌≡◌, ◌++◌, IfOk, OnOk};
ghost use Rattle.admin_commands.specs.Bodies.{count_members, details_text, done_text, files_member, flushed_text};
ghost use Rattle.admin_commands.specs.Bodies.{method_members, method_text, names_text, number_member, period_of};
ghost use Rattle.admin_commands.specs.Bodies.{row_text, state_members, state_text, status_text, text_member};

use act_model::Details;
use json_out::{put_array, put_number, put_string};
use pb_messages::{Method, State};
use series_model::Blob;
use std::alloc::{AllocError, Global};

/// What is told of a variable without a row.
pub(crate) const NO_ROW: &str = "Not being archived";

/// That all is done.
pub(crate) fn done_text(alloc: Global) -> Result<Blob, AllocError>
    ensures { IfOk result (λ text. text ≡ done_text) }
{
    let text = Vec::from_slice(alloc, b"{\"status\":\"ok\"}")?;
    Ok(Blob::from(text))
}

/// That a variable has this row.
pub(crate) fn row_text(alloc: Global, row: u32) -> Result<Blob, AllocError>
    ensures { IfOk result (λ text. text ≡ row_text row) }
{
    let mut text = Vec::from_slice(alloc, b"{\"status\":\"ok\",\"row\":")?;
    put_number(row, &mut text)?;
    text.extend_from_slice(b"}")?;
    Ok(Blob::from(text))
}

/// That so many samples became durable.
pub(crate) fn flushed_text(alloc: Global, samples: u64) -> Result<Blob, AllocError>
    ensures { IfOk result (λ text. text ≡ flushed_text samples) }
{
    let mut text = Vec::from_slice(alloc, b"{\"status\":\"ok\",\"flushed\":")?;
    put_number(samples, &mut text)?;
    text.extend_from_slice(b"}")?;
    Ok(Blob::from(text))
}

/// All names.
pub(crate) fn names_text(alloc: Global, names: &[Blob]) -> Result<Blob, AllocError>
    ensures { IfOk result (λ text. text ≡ names_text names.now) }
{
    let mut text = Vec::new(alloc);
    put_array(alloc, names, &mut text)?;
    Ok(Blob::from(text))
}

/// Whether a variable's samples are taken.
pub(crate) fn state_text(state: State) -> &'static str
    ensures { result.now ≡ state_text state }
{
    match state {
        State::Running => "Being archived",
        State::Paused => "Paused",
        State::Retired => "Retired",
    }
}

/// A variable and its state.
pub(crate) fn status_text(alloc: Global, name: &[u8], state: &str) -> Result<Blob, AllocError>
    ensures { IfOk result (λ text. text ≡ status_text name.now state.now) }
{
    let mut text = Vec::from_slice(alloc, b"[{\"pvName\":")?;
    put_string(alloc, name, &mut text)?;
    text.extend_from_slice(b",\"status\":\"")?;
    text.extend_from_slice(state.as_bytes())?;
    text.extend_from_slice(b"\"}]")?;
    Ok(Blob::from(text))
}

/// What is known of a variable.
pub(crate) fn details_text(alloc: Global, details: &Details) -> Result<Blob, AllocError>
    ensures { IfOk result (λ text. text ≡ details_text details.now) }
{
    let mut text = Vec::from_slice(alloc, b"{\"pvName\":")?;
    put_string(alloc, details.name.bytes(), &mut text)?;
    put_state(details, &mut text)?;
    put_method(details.about.method, &mut text)?;
    put_counts(details, &mut text)?;
    text.extend_from_slice(b"}")?;
    Ok(Blob::from(text))
}

// Appends the type of a variable's samples, and whether they are taken.
#[tactic(auto, unfolding(crate::specs::Bodies::state_members))]
fn put_state(details: &Details, out: &mut Vec<u8>) -> Result<(), AllocError>
    ensures { OnOk result (out.new.items ≡ out.old.items ++ state_members details.now) }
{
    put_text("type", details.about.ty.name(), out)?;
    put_text("status", state_text(details.state), out)
}

// Appends how samples are taken.
#[tactic(auto, unfolding(crate::specs::Bodies::method_members))]
fn put_method(method: Method, out: &mut Vec<u8>) -> Result<(), AllocError>
    ensures { OnOk result (out.new.items ≡ out.old.items ++ method_members method) }
{
    put_text("samplingMethod", method_text(method), out)?;
    put_count("samplingPeriodNanos", period_of(method), out)
}

// Appends how many samples are accepted and durable, and the numbers of files.
#[tactic(auto, unfolding(crate::specs::Bodies::count_members))]
fn put_counts(details: &Details, out: &mut Vec<u8>) -> Result<(), AllocError>
    ensures { OnOk result (out.new.items ≡ out.old.items ++ count_members details.now) }
{
    put_count("accepted", details.accepted, out)?;
    put_count("durable", details.durable, out)?;
    put_files(&details.files, out)
}

// Appends a member with a text.
#[tactic(auto, unfolding(crate::specs::Bodies::text_member))]
fn put_text(name: &str, text: &str, out: &mut Vec<u8>) -> Result<(), AllocError>
    ensures { OnOk result (out.new.items ≡ out.old.items ++ text_member name.now text.now) }
{
    out.extend_from_slice(b",\"")?;
    out.extend_from_slice(name.as_bytes())?;
    out.extend_from_slice(b"\":\"")?;
    out.extend_from_slice(text.as_bytes())?;
    out.extend_from_slice(b"\"")
}

// Appends a member with a number.
#[tactic(auto, unfolding(crate::specs::Bodies::number_member))]
fn put_count(name: &str, number: u64, out: &mut Vec<u8>) -> Result<(), AllocError>
    ensures { OnOk result (out.new.items ≡ out.old.items ++ number_member name.now number) }
{
    out.extend_from_slice(b",\"")?;
    out.extend_from_slice(name.as_bytes())?;
    out.extend_from_slice(b"\":")?;
    put_number(number, out)
}

// Appends how many files each store has.
#[tactic(auto, unfolding(crate::specs::Bodies::files_member))]
fn put_files(files: &[u64; 3], out: &mut Vec<u8>) -> Result<(), AllocError>
    ensures { OnOk result (out.new.items ≡ out.old.items ++ files_member files.now) }
{
    out.extend_from_slice(b",\"files\":[")?;
    put_number(files[0], out)?;
    out.extend_from_slice(b",")?;
    put_number(files[1], out)?;
    out.extend_from_slice(b",")?;
    put_number(files[2], out)?;
    out.extend_from_slice(b"]")
}

fn method_text(method: Method) -> &'static str
    ensures { result.now ≡ method_text method }
{
    match method {
        Method::Monitor => "MONITOR",
        Method::Scan { .. } => "SCAN",
    }
}

// The sampling period in nanoseconds; 0 where each sample is tried.
fn period_of(method: Method) -> u64
    ensures { result ≡ period_of method }
{
    match method {
        Method::Monitor => 0,
        Method::Scan { period } => period,
    }
}
