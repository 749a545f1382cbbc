// The parts of acts that the intake makes, and what is answered.
use crate::told::{BatchLook, Registered, RowLook};
use act_model::{Offered, Ticked};
use pb_messages::PayloadType;
use series_model::Blob;

/// What may be asked of the intake. Moments are nanoseconds since 1970-01-01T00:00:00Z.
#[derive(Drop)]
pub enum IntakePart {
    /// That a sample is taken: `line` is an event of `ty` at the moment `t`, escaped and without its newline.
    Offer {
        name: Blob,
        ty: PayloadType,
        t: u64,
        line: Blob,
        now: u64,
    },
    /// That what a sampled row holds is tried, if its period is over.
    Tick {
        row: u32,
        now: u64,
    },
    /// How many doors are open.
    Doors,
    /// That a door has ended.
    DoorDone,
    /// A look at the doors.
    LookForDoors,
    /// A look at a batch of whole tails, until they have `limit` bytes, at least 1.
    LookForBatch {
        limit: u64,
    },
    /// A look at the row of this name.
    LookAt {
        name: Blob,
    },
    /// That what is durable is let go, which is by the rows' numbers what is earlier than the row's end, and that
    /// these rows are taken over.
    Take {
        ends: Vec<u64>,
        rows: Vec<Registered>,
    },
    /// The take of a flush with which the store's history has the length `len`.
    TakeFlush {
        len: u64,
        ends: Vec<u64>,
        rows: Vec<Registered>,
    },
}

/// What is answered.
#[derive(Drop)]
pub enum IntakeAnswer {
    /// What came of an offer.
    Offered(Offered),
    /// What came of a tick.
    Ticked(Ticked),
    /// So many doors are open.
    DoorsLeft { doors: u64 },
    /// A look at the doors found so many open.
    SawDoors { doors: u64 },
    /// What a look at a batch found.
    SawBatch(BatchLook),
    /// What a look at a row found, and how many doors are open.
    SawRow { doors: u64, look: RowLook },
    /// The take is made.
    Took,
    /// Memory was wanting for a look or a take, and all is as it was.
    Memory,
}
