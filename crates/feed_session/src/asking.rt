// What a stream's items ask of an archive, one by one.
ghost use Rattle.std.specs.Prelude.{◌≡◌, ◌⊎◌, ◌+◌, ◌^◌, ◌<◌, ◌∷◌, [], IfOk, IsErrOf, MatchOption, OnOk};
ghost use Rattle.act_model.specs.declared.acts.Act.{Act};
ghost use Rattle.act_model.specs.Event.{IsEvent};
ghost use Rattle.act_model.specs.Machine.{Machine};
ghost use Rattle.pb_messages.specs.declared.info.PayloadInfo.{PayloadInfo as InfoValue};
ghost use Rattle.pb_lines.specs.Reader.{IsLineOf};
ghost use Rattle.pv_name.specs.Name.{IsName};
ghost use Rattle.feed_session.specs.Asks.{about_of, flush_all, offer_of};
ghost use Rattle.feed_session.specs.Asking.{Asking, Closes, OffersOnce, Registers, both, end_by, none, one_more};
ghost use Rattle.feed_session.specs.Asking.{tally_of, total};
ghost use Rattle.feed_session.specs.Session.{IsFlushed};

use crate::end::Fed;
use crate::tally::{OfferCounts, OfferOutcome};
use act_model::{Actor, Flushed, Offered, Registered, Spent, ask_flush, ask_offer, ask_register};
use pb_lines::{ChunkItem, ChunkReader};
use pb_messages::{About, Method, PayloadInfo};
use pb_wire::PayloadType;
use pv_name::{NameErr, PvName};
use series_model::Blob;
use series_model::limits::INTAKE_ROOM;
use std::alloc::{AllocError, Global};
use std::sync::Wait;

/// Why a session can't go on with the archive.
#[derive(Clone, Copy)]
pub(crate) enum SessionStop {
    DiskFault,
    Spent,
    Memory,
}

impl From<SessionStop> for Fed {
    ghost from_gives = { λ stopped end. end ≡ end_by stopped };

    fn from(stopped: SessionStop) -> Fed {
        match stopped {
            SessionStop::DiskFault => Fed::DiskFault,
            SessionStop::Spent => Fed::Spent,
            SessionStop::Memory => Fed::Memory,
        }
    }
}

/// Asks for a row for the variable of the header that was read last, if its name is one. Whether there is a row
/// already, or none can be, changes nothing.
pub(crate) fn register<A: Actor>(
    alloc: Global,
    actor: &mut A,
    reader: &ChunkReader,
) -> Result<(), SessionStop>
    requires stands { (m : Machine) × A.stands actor.old m }
    requires header { IsLineOf reader.now ChunkItem.Header }
    ensures asked { (info : InfoValue) → reader.now.section.chunk ≡ Some info
        → Registers A.number A.between actor.old info result actor.new }
    ensures stands { (n : Machine) × A.stands actor.new n }
    ensures spent { IsErrOf result SessionStop.Spent → A.is_spent actor.new }
{
    let Some(info) = reader.info() else {
        unreachable!();
    };
    match name_of(alloc, info) {
        Ok(Some(name)) => ask_row(actor, name, info),
        Ok(None) => Ok(()),
        Err(_) => Err(SessionStop::Memory),
    }
}

// The name of a header's variable, if it is one.
fn name_of(alloc: Global, info: &PayloadInfo) -> Result<Option<PvName>, AllocError>
    ensures { IfOk result (λ name.
        MatchOption name (IsName info.now.name → ⊥) (λ name. (name ≡ info.now.name) × IsName info.now.name)) }
{
    match PvName::new(alloc, info.name.bytes()) {
        Ok(name) => Ok(Some(name)),
        Err(NameErr::BadName { .. }) => Ok(None),
        Err(NameErr::Memory) => Err(AllocError),
    }
}

// What a header tells of its variable, each of whose samples is tried.
fn about_of(info: &PayloadInfo) -> Result<About, AllocError>
    ensures { IfOk result (λ about. about ≡ about_of info.now) }
{
    Ok(About {
        ty: info.ty,
        method: Method::Monitor,
        count: info.count,
        headers: info.headers.clone()?,
    })
}

// Asks for a row of this name.
fn ask_row<A: Actor>(actor: &mut A, name: PvName, info: &PayloadInfo) -> Result<(), SessionStop>
    requires stands { (m : Machine) × A.stands actor.old m }
    ensures asked { Asking A.number A.between actor.old (Act.Register name (about_of info.now) ∷ [])
        (λ _ done. tally_of done ≡ none) result actor.new }
    ensures stands { (n : Machine) × A.stands actor.new n }
    ensures spent { IsErrOf result SessionStop.Spent → A.is_spent actor.new }
{
    match about_of(info) {
        Ok(about) => ask_row_about(actor, name, about),
        Err(_) => Err(SessionStop::Memory),
    }
}

/// Offers the sample that was read last, and counts what came of it.
pub(crate) fn take_sample<A: Actor>(
    rt: &impl Wait,
    alloc: Global,
    actor: &mut A,
    reader: &ChunkReader,
    t: u64,
    now: u64,
    tally: &mut OfferCounts,
) -> Result<(), SessionStop>
    requires stands { (m : Machine) × A.stands actor.old m }
    requires sample { IsLineOf reader.now (ChunkItem.Sample t) }
    requires few { total tally.old < 2 ^ 63 }
    ensures asked { (info : InfoValue) → reader.now.section.chunk ≡ Some info
        → Asking A.number A.between actor.old (offer_of info (record { t = t; line = reader.now.lines.line }) now ∷ [])
        (λ _ done. tally.new ≡ both tally.old (tally_of done)) result actor.new }
    ensures one { OnOk result (total tally.new ≡ total tally.old + 1) }
    ensures stands { (n : Machine) × A.stands actor.new n }
    ensures spent { IsErrOf result SessionStop.Spent → A.is_spent actor.new }
{
    let Some(info) = reader.info() else {
        unreachable!();
    };
    match offer(rt, alloc, actor, info, t, reader.line(), now) {
        Ok(outcome) => {
            tally.count(outcome);
            Ok(())
        }
        Err(stopped) => Err(stopped),
    }
}

// Offers a sample of a header's chunk. Where the intake is full it is offered again behind a flush, with the same
// moment `now`. It may wait, for as long as others fill the intake in between.
fn offer<A: Actor>(
    rt: &impl Wait,
    alloc: Global,
    actor: &mut A,
    info: &PayloadInfo,
    t: u64,
    line: &[u8],
    now: u64,
) -> Result<OfferOutcome, SessionStop>
    requires stands { (m : Machine) × A.stands actor.old m }
    requires event { IsEvent info.now.ty (record { t = t; line = line.now }) }
    ensures asked { Asking A.number A.between actor.old (offer_of info.now (record { t = t; line = line.now }) now ∷ [])
        (λ outcome done. tally_of done ≡ one_more outcome none) result actor.new }
    ensures stands { (n : Machine) × A.stands actor.new n }
    ensures spent { IsErrOf result SessionStop.Spent → A.is_spent actor.new }
{
    'tries: for _ in rt.forever() {
        match offer_once(alloc, actor, info, t, line, now) {
            Ok(Some(outcome)) => return Ok(outcome),
            Ok(None) => {}
            Err(stopped) => return Err(stopped),
        }
        match flush(actor) {
            Ok(()) => {}
            Err(stopped) => return Err(stopped),
        }
    }
    unreachable!()
}

// Offers a sample once. `None` is a full intake.
fn offer_once<A: Actor>(
    alloc: Global,
    actor: &mut A,
    info: &PayloadInfo,
    t: u64,
    line: &[u8],
    now: u64,
) -> Result<Option<OfferOutcome>, SessionStop>
    requires stands { (m : Machine) × A.stands actor.old m }
    requires event { IsEvent info.now.ty (record { t = t; line = line.now }) }
    ensures asked { OffersOnce A.number A.between actor.old
        (offer_of info.now (record { t = t; line = line.now }) now) result actor.new }
    ensures stands { (n : Machine) × A.stands actor.new n }
    ensures spent { IsErrOf result SessionStop.Spent → A.is_spent actor.new }
{
    let Ok(name) = info.name.clone() else {
        return Err(SessionStop::Memory);
    };
    let Ok(line) = Blob::copied(alloc, line) else {
        return Err(SessionStop::Memory);
    };
    ask_once(actor, name, info.ty, t, line, now)
}

// Makes an offer once.
fn ask_once<A: Actor>(
    actor: &mut A,
    name: Blob,
    ty: PayloadType,
    t: u64,
    line: Blob,
    now: u64,
) -> Result<Option<OfferOutcome>, SessionStop>
    requires stands { (m : Machine) × A.stands actor.old m }
    requires event { IsEvent ty (record { t = t; line = line }) }
    ensures asked { OffersOnce A.number A.between actor.old (Act.Offer name ty t line now) result actor.new }
    ensures stands { (n : Machine) × A.stands actor.new n }
    ensures spent { IsErrOf result SessionStop.Spent → A.is_spent actor.new }
{
    match ask_offer(actor, name, ty, t, line, now) {
        Ok(Offered::Kept) => Ok(Some(OfferOutcome::Kept)),
        Ok(Offered::Held) => Ok(Some(OfferOutcome::Held)),
        Ok(Offered::Dropped(_)) => Ok(Some(OfferOutcome::Dropped)),
        Ok(Offered::IntakeFull { .. }) => Ok(None),
        Ok(Offered::Memory) => Err(SessionStop::Memory),
        Err(Spent) => Err(SessionStop::Spent),
    }
}

// Asks for a row of this name, of which this is known.
fn ask_row_about<A: Actor>(actor: &mut A, name: PvName, about: About) -> Result<(), SessionStop>
    requires stands { (m : Machine) × A.stands actor.old m }
    ensures asked { Asking A.number A.between actor.old (Act.Register name about ∷ [])
        (λ _ done. tally_of done ≡ none) result actor.new }
    ensures stands { (n : Machine) × A.stands actor.new n }
    ensures spent { IsErrOf result SessionStop.Spent → A.is_spent actor.new }
{
    match ask_register(actor, name, about) {
        Ok(Registered::Registered { .. }) => Ok(()),
        Ok(Registered::NameTaken { .. }) => Ok(()),
        Ok(Registered::KeyTaken { .. }) => Ok(()),
        Ok(Registered::CatalogueFull) => Ok(()),
        Ok(Registered::DiskFault) => Err(SessionStop::DiskFault),
        Ok(Registered::Memory) => Err(SessionStop::Memory),
        Err(Spent) => Err(SessionStop::Spent),
    }
}

/// How a session ended at the end of what could be read: all that is held is flushed.
pub(crate) fn closed<A: Actor>(actor: &mut A, end: Fed) -> Fed
    requires stands { (m : Machine) × A.stands actor.old m }
    ensures closes { Closes A.number A.between actor.old end result actor.new }
    ensures peer { result ≡ Fed.PeerFault → end ≡ Fed.PeerFault }
    ensures stands { (n : Machine) × A.stands actor.new n }
    ensures spent { result ≡ Fed.Spent → (end ≡ Fed.Spent) ⊎ A.is_spent actor.new }
{
    match flush(actor) {
        Ok(()) => end,
        Err(stopped) => Fed::from(stopped),
    }
}

/// Flushes all that is held.
pub(crate) fn flush<A: Actor>(actor: &mut A) -> Result<(), SessionStop>
    requires stands { (m : Machine) × A.stands actor.old m }
    ensures asked { Asking A.number A.between actor.old (flush_all ∷ []) (λ _ done. IsFlushed done) result actor.new }
    ensures stands { (n : Machine) × A.stands actor.new n }
    ensures spent { IsErrOf result SessionStop.Spent → A.is_spent actor.new }
{
    match ask_flush(actor, INTAKE_ROOM) {
        Ok(Flushed::Flushed { .. }) => Ok(()),
        Ok(Flushed::DiskFault) => Err(SessionStop::DiskFault),
        Ok(Flushed::Memory) => Err(SessionStop::Memory),
        Err(Spent) => Err(SessionStop::Spent),
    }
}
