// The acts of each call, and what it is replied over their answers.
ghost use Rattle.std.specs.Prelude.{◌≡◌, ◌∷◌, [], true, IfOk};
ghost use Rattle.series_model.specs.Limits.{intake_room};
ghost use Rattle.act_model.specs.Machine.{Machine};
ghost use Rattle.act_model.specs.declared.acts.Act.{Act};
ghost use Rattle.act_model.specs.Asks.{Asked, details_told_reply, flushed_reply, names_told_reply, paused_reply};
ghost use Rattle.act_model.specs.Asks.{registered_reply, renamed_reply, resumed_reply};
ghost use Rattle.admin_commands.specs.Bodies.{names_text};
ghost use Rattle.admin_commands.specs.Next.{details_told, flushes, is_management, registered, renamed, set};
ghost use Rattle.admin_commands.specs.Next.{status_told, tells};
ghost use Rattle.admin_commands.specs.Pages.{EndsBelow, Gathers, LeavesNone};
ghost use Rattle.admin_commands.specs.Serving.{Comes, Tells};

use crate::bodies::{
    NO_ROW, details_text, done_text, flushed_text, names_text, row_text, state_text, status_text,
};
use crate::end::NoReply;
use crate::refusal::Refusal;
use crate::reply::WebReply;
use act_model::{
    Actor, DetailsTold, Flushed, NamesTold, Paused, Registered, Renamed, Resumed, Spent,
    ask_details, ask_flush, ask_names, ask_pause, ask_register, ask_rename, ask_resume,
};
use http_front::WebCall;
use pb_messages::About;
use pv_name::PvName;
use series_model::limits::INTAKE_ROOM;
use series_model::{Blob, Blobs};
use std::alloc::{AllocError, Global};

// How many names are asked for at once.
const PAGE: u32 = 1_024;

/// Makes the acts of a call, and answers its reply.
pub(crate) fn serve<A: Actor>(
    alloc: Global,
    actor: &mut A,
    call: &WebCall,
) -> Result<WebReply, NoReply>
    requires stands { (m : Machine) × A.stands actor.old m }
    requires management { is_management call.now ≡ true }
    ensures comes { Comes A.number A.between A.is_spent call.now actor.old result actor.new }
    ensures stands { (n : Machine) × A.stands actor.new n }
{
    match call {
        WebCall::AllPvs => tell_names(alloc, actor),
        WebCall::PvStatus { pv } => tell_status(alloc, actor, pv),
        WebCall::PvDetails { pv } => tell_details(alloc, actor, pv),
        WebCall::ArchivePv { pv, about } => archive(alloc, actor, pv, about),
        WebCall::PausePv { pv } => pause(alloc, actor, pv),
        WebCall::ResumePv { pv } => resume(alloc, actor, pv),
        WebCall::RenamePv { pv, newname } => rename(alloc, actor, pv, newname),
        WebCall::FlushAll => flush(alloc, actor),
        WebCall::Raw { .. } => unreachable!(),
        WebCall::Json { .. } => unreachable!(),
    }
}

fn name_of(alloc: Global, pv: &PvName) -> Result<Blob, AllocError>
    ensures { IfOk result (λ name. name ≡ pv.now) }
{
    let bytes = Vec::from_slice(alloc, pv.bytes())?;
    Ok(Blob::from(bytes))
}

fn copies_of(pv: &PvName, about: &About) -> Result<(PvName, About), AllocError>
    ensures { IfOk result (λ both. (both.0 ≡ pv.now) × (both.1 ≡ about.now)) }
{
    Ok((pv.clone()?, about.clone()?))
}

// A row for a variable.
fn archive<A: Actor>(
    alloc: Global,
    actor: &mut A,
    pv: &PvName,
    about: &About,
) -> Result<WebReply, NoReply>
    requires stands { (m : Machine) × A.stands actor.old m }
    ensures comes { Comes A.number A.between A.is_spent
        (WebCall.ArchivePv pv.now about.now) actor.old result actor.new }
    ensures stands { (n : Machine) × A.stands actor.new n }
{
    let Ok((name, about)) = copies_of(pv, about) else {
        return Err(NoReply::Memory);
    };
    match ask_register(actor, name, about) {
        Ok(told) => reply_to_register(alloc, told),
        Err(Spent) => Err(NoReply::Spent),
    }
}

pub(crate) fn reply_to_register(alloc: Global, told: Registered) -> Result<WebReply, NoReply>
    ensures { Tells (registered (registered_reply told)) result }
{
    match told {
        Registered::Registered { row } => Ok(WebReply::Success(row_text(alloc, row)?)),
        Registered::NameTaken { row } => Ok(WebReply::Refused(Refusal::NameTaken { row })),
        Registered::KeyTaken { row } => Ok(WebReply::Refused(Refusal::KeyTaken { row })),
        Registered::CatalogueFull => Ok(WebReply::Refused(Refusal::CatalogueFull)),
        Registered::DiskFault => Ok(WebReply::Refused(Refusal::DiskFault)),
        Registered::Memory => Err(NoReply::Memory),
    }
}

// That a variable's samples are dropped from now on.
fn pause<A: Actor>(alloc: Global, actor: &mut A, pv: &PvName) -> Result<WebReply, NoReply>
    requires stands { (m : Machine) × A.stands actor.old m }
    ensures comes { Comes A.number A.between A.is_spent (WebCall.PausePv pv.now) actor.old result actor.new }
    ensures stands { (n : Machine) × A.stands actor.new n }
{
    let Ok(name) = name_of(alloc, pv) else {
        return Err(NoReply::Memory);
    };
    match ask_pause(actor, name) {
        Ok(paused) => reply_to_pause(alloc, paused),
        Err(Spent) => Err(NoReply::Spent),
    }
}

pub(crate) fn reply_to_pause(alloc: Global, paused: Paused) -> Result<WebReply, NoReply>
    ensures { Tells (set (paused_reply paused)) result }
{
    match paused {
        Paused::Done => Ok(WebReply::Success(done_text(alloc)?)),
        Paused::NoSuchVariable => Ok(WebReply::Refused(Refusal::NoSuchVariable)),
        Paused::NotRunning => Ok(WebReply::Refused(Refusal::NotRunning)),
        Paused::DiskFault => Ok(WebReply::Refused(Refusal::DiskFault)),
        Paused::Memory => Err(NoReply::Memory),
    }
}

// That a variable's samples are taken again.
fn resume<A: Actor>(alloc: Global, actor: &mut A, pv: &PvName) -> Result<WebReply, NoReply>
    requires stands { (m : Machine) × A.stands actor.old m }
    ensures comes { Comes A.number A.between A.is_spent (WebCall.ResumePv pv.now) actor.old result actor.new }
    ensures stands { (n : Machine) × A.stands actor.new n }
{
    let Ok(name) = name_of(alloc, pv) else {
        return Err(NoReply::Memory);
    };
    match ask_resume(actor, name) {
        Ok(resumed) => reply_to_resume(alloc, resumed),
        Err(Spent) => Err(NoReply::Spent),
    }
}

pub(crate) fn reply_to_resume(alloc: Global, resumed: Resumed) -> Result<WebReply, NoReply>
    ensures { Tells (set (resumed_reply resumed)) result }
{
    match resumed {
        Resumed::Done => Ok(WebReply::Success(done_text(alloc)?)),
        Resumed::NoSuchVariable => Ok(WebReply::Refused(Refusal::NoSuchVariable)),
        Resumed::NotPaused => Ok(WebReply::Refused(Refusal::NotPaused)),
        Resumed::DiskFault => Ok(WebReply::Refused(Refusal::DiskFault)),
        Resumed::Memory => Err(NoReply::Memory),
    }
}

// That a variable gets another name.
fn rename<A: Actor>(
    alloc: Global,
    actor: &mut A,
    pv: &PvName,
    newname: &PvName,
) -> Result<WebReply, NoReply>
    requires stands { (m : Machine) × A.stands actor.old m }
    ensures comes { Comes A.number A.between A.is_spent
        (WebCall.RenamePv pv.now newname.now) actor.old result actor.new }
    ensures stands { (n : Machine) × A.stands actor.new n }
{
    let Ok((name, newname)) = names_of(alloc, pv, newname) else {
        return Err(NoReply::Memory);
    };
    match ask_rename(actor, name, newname) {
        Ok(told) => reply_to_rename(alloc, told),
        Err(Spent) => Err(NoReply::Spent),
    }
}

fn names_of(alloc: Global, pv: &PvName, newname: &PvName) -> Result<(Blob, PvName), AllocError>
    ensures { IfOk result (λ both. (both.0 ≡ pv.now) × (both.1 ≡ newname.now)) }
{
    Ok((name_of(alloc, pv)?, newname.clone()?))
}

pub(crate) fn reply_to_rename(alloc: Global, told: Renamed) -> Result<WebReply, NoReply>
    ensures { Tells (renamed (renamed_reply told)) result }
{
    match told {
        Renamed::Renamed { .. } => Ok(WebReply::Success(done_text(alloc)?)),
        Renamed::NoSuchVariable => Ok(WebReply::Refused(Refusal::NoSuchVariable)),
        Renamed::RenameNotPaused { .. } => Ok(WebReply::Refused(Refusal::RenameNotPaused)),
        Renamed::NameTaken { row } => Ok(WebReply::Refused(Refusal::NameTaken { row })),
        Renamed::KeyTaken { row } => Ok(WebReply::Refused(Refusal::KeyTaken { row })),
        Renamed::CatalogueFull => Ok(WebReply::Refused(Refusal::CatalogueFull)),
        Renamed::NotDurable { last, durable } => {
            Ok(WebReply::Refused(Refusal::NotDurable { last, durable }))
        }
        Renamed::DiskFault => Ok(WebReply::Refused(Refusal::DiskFault)),
        Renamed::Memory => Err(NoReply::Memory),
    }
}

// Whether a variable is archived.
fn tell_status<A: Actor>(alloc: Global, actor: &mut A, pv: &PvName) -> Result<WebReply, NoReply>
    requires stands { (m : Machine) × A.stands actor.old m }
    ensures comes { Comes A.number A.between A.is_spent (WebCall.PvStatus pv.now) actor.old result actor.new }
    ensures stands { (n : Machine) × A.stands actor.new n }
{
    let Ok(name) = name_of(alloc, pv) else {
        return Err(NoReply::Memory);
    };
    match ask_details(actor, name) {
        Ok(told) => reply_with_status(alloc, pv, told),
        Err(Spent) => Err(NoReply::Spent),
    }
}

pub(crate) fn reply_with_status(
    alloc: Global,
    pv: &PvName,
    told: DetailsTold,
) -> Result<WebReply, NoReply>
    ensures { Tells (status_told pv.now (details_told_reply told)) result }
{
    match told {
        DetailsTold::Described(details) => {
            let text = status_text(alloc, pv.bytes(), state_text(details.state))?;
            Ok(WebReply::Success(text))
        }
        DetailsTold::NoSuchVariable => {
            let text = status_text(alloc, pv.bytes(), NO_ROW)?;
            Ok(WebReply::Success(text))
        }
        DetailsTold::DiskFault => Ok(WebReply::Refused(Refusal::DiskFault)),
        DetailsTold::Memory => Err(NoReply::Memory),
    }
}

// What is known of a variable.
fn tell_details<A: Actor>(alloc: Global, actor: &mut A, pv: &PvName) -> Result<WebReply, NoReply>
    requires stands { (m : Machine) × A.stands actor.old m }
    ensures comes { Comes A.number A.between A.is_spent (WebCall.PvDetails pv.now) actor.old result actor.new }
    ensures stands { (n : Machine) × A.stands actor.new n }
{
    let Ok(name) = name_of(alloc, pv) else {
        return Err(NoReply::Memory);
    };
    match ask_details(actor, name) {
        Ok(told) => reply_with_details(alloc, told),
        Err(Spent) => Err(NoReply::Spent),
    }
}

pub(crate) fn reply_with_details(alloc: Global, told: DetailsTold) -> Result<WebReply, NoReply>
    ensures { Tells (details_told (details_told_reply told)) result }
{
    match told {
        DetailsTold::Described(details) => Ok(WebReply::Success(details_text(alloc, &details)?)),
        DetailsTold::NoSuchVariable => Ok(WebReply::Refused(Refusal::NoSuchVariable)),
        DetailsTold::DiskFault => Ok(WebReply::Refused(Refusal::DiskFault)),
        DetailsTold::Memory => Err(NoReply::Memory),
    }
}

// Flushes all. One flush leaves nothing, so no second one is asked for.
fn flush<A: Actor>(alloc: Global, actor: &mut A) -> Result<WebReply, NoReply>
    requires stands { (m : Machine) × A.stands actor.old m }
    ensures comes { Comes A.number A.between A.is_spent WebCall.FlushAll actor.old result actor.new }
    ensures stands { (n : Machine) × A.stands actor.new n }
{
    match flush_all(actor) {
        Ok(flushed) => reply_to_flush(alloc, flushed),
        Err(Spent) => Err(NoReply::Spent),
    }
}

fn flush_all<A: Actor>(actor: &mut A) -> Result<Flushed, Spent>
    requires stands { (m : Machine) × A.stands actor.old m }
    ensures asked { Asked A.number A.between A.is_spent flushed_reply actor.old (Act.Flush intake_room)
        result actor.new }
    ensures none_left { IfOk result LeavesNone }
    ensures stands { (n : Machine) × A.stands actor.new n }
{
    ask_flush(actor, INTAKE_ROOM)
}

pub(crate) fn reply_to_flush(alloc: Global, flushed: Flushed) -> Result<WebReply, NoReply>
    requires { LeavesNone flushed }
    ensures { Tells (flushes 0 (flushed_reply flushed ∷ [])) result }
{
    match flushed {
        Flushed::Flushed { samples, .. } => Ok(WebReply::Success(flushed_text(alloc, samples)?)),
        Flushed::DiskFault => Ok(WebReply::Refused(Refusal::DiskFault)),
        Flushed::Memory => Err(NoReply::Memory),
    }
}

// The names of all rows.
fn tell_names<A: Actor>(alloc: Global, actor: &mut A) -> Result<WebReply, NoReply>
    requires stands { (m : Machine) × A.stands actor.old m }
    ensures comes { Comes A.number A.between A.is_spent WebCall.AllPvs actor.old result actor.new }
    ensures stands { (n : Machine) × A.stands actor.new n }
{
    match gather_names(alloc, actor) {
        Ok(names) => reply_with_names(alloc, names.items()),
        Err(stopped) => Err(stopped),
    }
}

pub(crate) fn reply_with_names(alloc: Global, names: &[Blob]) -> Result<WebReply, NoReply>
    ensures { Tells (tells (WebReply.Success (names_text names.now))) result }
{
    Ok(WebReply::Success(names_text(alloc, names)?))
}

fn gather_names<A: Actor>(alloc: Global, actor: &mut A) -> Result<Blobs, NoReply>
    requires stands { (m : Machine) × A.stands actor.old m }
    ensures gathers { Gathers A.number A.between A.is_spent actor.old result actor.new }
    ensures stands { (n : Machine) × A.stands actor.new n }
{
    let mut names = Vec::new(alloc);
    let mut from = 0;
    'pages: loop {
        match ask_page(actor, from) {
            Ok(NamesTold::NamesAre { names: page, more }) => {
                let Ok(()) = names.append(&mut page.into_vec()) else {
                    return Err(NoReply::Memory);
                };
                if !more {
                    return Ok(Blobs::from(names));
                }
                from += PAGE;
            }
            Ok(NamesTold::Memory) => return Err(NoReply::Memory),
            Err(Spent) => return Err(NoReply::Spent),
        }
    }
}

fn ask_page<A: Actor>(actor: &mut A, from: u32) -> Result<NamesTold, Spent>
    requires stands { (m : Machine) × A.stands actor.old m }
    ensures asked { Asked A.number A.between A.is_spent names_told_reply actor.old
        (Act.Names from PAGE) result actor.new }
    ensures below { IfOk result (EndsBelow from) }
    ensures stands { (n : Machine) × A.stands actor.new n }
{
    ask_names(actor, from, PAGE)
}
