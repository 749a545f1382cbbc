// What the acts share that answer by what a call of the stores came to.
ghost use Rattle.std.specs.Prelude.{◌≡◌, IfOk};
ghost use Rattle.tier_store.specs.Opening.{answer_of};
ghost use Rattle.act_model.specs.Asks.{offered_reply, ticked_reply};
ghost use Rattle.act_model.specs.Reply.{reply_of};

use act_model::{Answer, Offered, Ticked};
use disk_model::{DiskErr, ReadAt};
use series_model::{Sample, Samples};
use std::alloc::{AllocError, Global};

// The same samples again.
pub(crate) fn copied(alloc: Global, samples: &[Sample]) -> Result<Samples, AllocError>
    ensures { IfOk result (λ copy. copy ≡ samples.now) }
{
    Ok(Samples::from(samples.to_vec(alloc)?))
}

// What is answered after a call of the disk.
pub(crate) fn answered<R: ReadAt>(done: Result<Answer<R>, DiskErr>) -> Answer<R>
    ensures { result ≡ answer_of done }
{
    match done {
        Ok(answer) => answer,
        Err(DiskErr::Fault) => Answer::DiskFault,
        Err(DiskErr::Memory) => Answer::Memory,
    }
}

// What a sample came to that was offered.
pub(crate) fn offered<R: ReadAt>(answer: Offered) -> Answer<R>
    ensures { reply_of R.tells R.bytes R.faults result ≡ offered_reply answer }
{
    match answer {
        Offered::Dropped(reason) => Answer::Dropped(reason),
        Offered::IntakeFull { held } => Answer::IntakeFull { held },
        Offered::Kept => Answer::Kept,
        Offered::Held => Answer::Held,
        Offered::Memory => Answer::Memory,
    }
}

// What a tick came to.
pub(crate) fn ticked<R: ReadAt>(answer: Ticked) -> Answer<R>
    ensures { reply_of R.tells R.bytes R.faults result ≡ ticked_reply answer }
{
    match answer {
        Ticked::NoRow => Answer::NoRow,
        Ticked::TickNone => Answer::TickNone,
        Ticked::NotDue { due } => Answer::NotDue { due },
        Ticked::Dropped(reason) => Answer::Dropped(reason),
        Ticked::IntakeFull { held } => Answer::IntakeFull { held },
        Ticked::TickKept { t } => Answer::TickKept { t },
        Ticked::Memory => Answer::Memory,
    }
}
