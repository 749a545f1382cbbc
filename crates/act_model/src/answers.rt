//! What each act is answered, as a type of its own. What each answer means says [`Answer`](crate::Answer); want
//! of memory changes nothing.
use crate::details::Details;
use disk_model::FileName;
use pb_messages::{About, State};
use pv_name::PvName;
use series_model::{Blobs, Reason, Samples};

/// What the registration of a variable came to.
#[derive(Drop)]
pub enum Registered {
    NameTaken { row: u32 },
    KeyTaken { row: u32 },
    CatalogueFull,
    DiskFault,
    Registered { row: u32 },
    Memory,
}

/// What a pause came to.
#[derive(Drop)]
pub enum Paused {
    NoSuchVariable,
    NotRunning,
    DiskFault,
    Done,
    Memory,
}

/// What a resumption came to.
#[derive(Drop)]
pub enum Resumed {
    NoSuchVariable,
    NotPaused,
    DiskFault,
    Done,
    Memory,
}

/// What a new name for a variable came to.
#[derive(Drop)]
pub enum Renamed {
    NoSuchVariable,
    RenameNotPaused {
        state: State,
        change: u64,
        seen: u64,
    },
    NameTaken {
        row: u32,
    },
    KeyTaken {
        row: u32,
    },
    CatalogueFull,
    NotDurable {
        last: u64,
        durable: Option<u64>,
    },
    DiskFault,
    Renamed {
        row: u32,
    },
    Memory,
}

/// What the offer of a sample came to.
#[derive(Drop)]
pub enum Offered {
    Dropped(Reason),
    IntakeFull { held: u64 },
    Kept,
    Held,
    Memory,
}

/// What a tick came to.
#[derive(Drop)]
pub enum Ticked {
    NoRow,
    TickNone,
    NotDue { due: u64 },
    Dropped(Reason),
    IntakeFull { held: u64 },
    TickKept { t: u64 },
    Memory,
}

/// What a flush came to.
#[derive(Drop)]
pub enum Flushed {
    DiskFault,
    Flushed { samples: u64, left: u64, doors: u64 },
    Memory,
}

/// What the begin of a move came to.
#[derive(Drop)]
pub enum MoveBegun {
    DiskFault,
    Begun { m: u32, row: u32, parts: u64 },
    Busy { m: u32 },
    Nothing { doors: u64 },
    Memory,
}

/// What a step of a move came to.
#[derive(Drop)]
pub enum MoveStepped {
    NoMove,
    DiskFault,
    Damaged { name: FileName, at: u64 },
    Copying,
    Copied,
    Published,
    Retired { parts: u64 },
    Again { len: u64, copied: u64 },
    Memory,
}

/// What a sweep came to.
#[derive(Drop)]
pub enum Swept {
    DiskFault,
    Swept { files: u64 },
    Memory,
}

/// What a pin came to.
#[derive(Drop)]
pub enum Pinned {
    NoSuchVariable,
    DiskFault,
    Pinned {
        pin: u32,
        name: PvName,
        about: About,
        pieces: u64,
        tail: Samples,
    },
    Memory,
}

/// What the opening of a piece came to. `R` reads it.
#[derive(Drop)]
pub enum PieceOpened<R: Drop> {
    NoPin,
    NotYours {
        owner: u64,
    },
    NoPiece {
        pieces: u64,
    },
    DiskFault,
    Piece {
        reader: R,
        name: FileName,
        head_len: u64,
        len: u64,
    },
    Memory,
}

/// What the end of a pin came to.
#[derive(Drop)]
pub enum Unpinned {
    NoPin,
    NotYours { owner: u64 },
    Unpinned,
}

/// What a question for names came to.
#[derive(Drop)]
pub enum NamesTold {
    NamesAre { names: Blobs, more: bool },
    Memory,
}

/// What a question for what is known of a variable came to.
#[derive(Drop)]
pub enum DetailsTold {
    NoSuchVariable,
    DiskFault,
    Described(Details),
    Memory,
}

/// So many doors are open.
#[derive(Drop)]
pub struct DoorsLeft {
    pub doors: u64,
}
