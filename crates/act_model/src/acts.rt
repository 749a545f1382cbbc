//! What may be asked of an archive, and what is answered.
use crate::details::Details;
use disk_model::FileName;
use pb_messages::{About, PayloadType, State};
use pv_name::PvName;
use series_model::{Blob, Blobs, Query, Reason, Samples};

/// What may be asked of an archive. Moments are nanoseconds since 1970-01-01T00:00:00Z.
#[derive(Drop)]
pub enum Act {
    /// A row for a variable.
    Register {
        name: PvName,
        about: About,
    },
    /// That a variable's samples are dropped from now on.
    Pause {
        name: Blob,
    },
    /// That a variable's samples are taken again.
    Resume {
        name: Blob,
    },
    /// A new name for a variable, which goes on in a new row.
    Rename {
        name: Blob,
        newname: PvName,
    },
    /// That a sample is taken: `line` is an event of `ty` at the moment `t`, escaped and without its newline.
    Offer {
        name: Blob,
        ty: PayloadType,
        t: u64,
        line: Blob,
        now: u64,
    },
    /// That what a sampled row holds is tried, if its period is over.
    Tick {
        row: u32,
        now: u64,
    },
    /// That tails become durable: whole ones, in the order of rows, until they have `limit` bytes, at least 1.
    Flush {
        limit: u64,
    },
    /// That a move of a row's oldest partitions in store 1 or 2 begins.
    MoveBegin {
        store: u8,
        now: u64,
    },
    /// That the move of this number goes on.
    MoveStep {
        m: u32,
    },
    /// That files go that nobody needs any more.
    Sweep,
    /// A hold on a variable's files, as they are now.
    Pin {
        name: Blob,
        query: Query,
    },
    /// A reader of piece `i` of a pin.
    OpenPiece {
        pin: u32,
        i: u32,
    },
    /// That a pin goes.
    Unpin {
        pin: u32,
    },
    /// The names of rows from a number on, `most` of them, at least 1.
    Names {
        from: u32,
        most: u32,
    },
    /// What is known of a variable.
    Details {
        name: Blob,
    },
    /// How many doors are open.
    Doors,
    /// That a door has ended.
    DoorDone,
}

/// What is answered. `R` reads a piece. Which answers an act may have says `specs/Answers.antt`.
#[derive(Drop)]
pub enum Answer<R: Drop> {
    /// A row has the name.
    NameTaken {
        row: u32,
    },
    /// A row has the name's key.
    KeyTaken {
        row: u32,
    },
    /// There are 65,536 rows.
    CatalogueFull,
    /// The row is there.
    Registered {
        row: u32,
    },
    /// No row has the name.
    NoSuchVariable,
    /// The row isn't running.
    NotRunning,
    /// The row isn't paused.
    NotPaused,
    /// The row's state is set.
    Done,
    /// The row is in this state, and isn't paused. `change` is the number of its last change, and `seen` the one that
    /// the intake knew of when the act began: they differ only where this act settled a doubt that changed the row.
    RenameNotPaused {
        state: State,
        change: u64,
        seen: u64,
    },
    /// The last accepted sample of the variable, at this moment, isn't durable yet; its last
    /// durable one is at the other.
    NotDurable {
        last: u64,
        durable: Option<u64>,
    },
    /// The variable goes on in this row, which is paused.
    Renamed {
        row: u32,
    },
    /// The sample was not taken, for the first reason that applies.
    Dropped(Reason),
    /// The sample was not taken: the intake holds so many bytes.
    IntakeFull {
        held: u64,
    },
    /// The sample is accepted.
    Kept,
    /// The sampled row holds the sample.
    Held,
    /// There is no such row.
    NoRow,
    /// There is nothing to try.
    TickNone,
    /// The period is over at this moment.
    NotDue {
        due: u64,
    },
    /// The sample that was held, of this moment, is accepted.
    TickKept {
        t: u64,
    },
    /// So many samples are durable now, the intake holds so many bytes, and so many doors are open.
    Flushed {
        samples: u64,
        left: u64,
        doors: u64,
    },
    /// Move `m` of so many partitions of a row is running.
    Begun {
        m: u32,
        row: u32,
        parts: u64,
    },
    /// Each row that has a move to make has one running; `m` is that of the least.
    Busy {
        m: u32,
    },
    /// No row has a move to make, and so many doors are open.
    Nothing {
        doors: u64,
    },
    /// No such move is running.
    NoMove,
    /// The file isn't of its form at this place. The move has ended.
    Damaged {
        name: FileName,
        at: u64,
    },
    /// Lines are left to copy.
    Copying,
    /// All is copied.
    Copied,
    /// The copies are listed.
    Published,
    /// So many partitions have left their store. The move has ended.
    Retired {
        parts: u64,
    },
    /// A partition has grown to `len` bytes, of which `copied` were listed in the next store. The move has ended.
    Again {
        len: u64,
        copied: u64,
    },
    /// So many files have gone.
    Swept {
        files: u64,
    },
    /// So many pieces are pinned, of this variable; behind them stands the tail.
    Pinned {
        pin: u32,
        name: PvName,
        about: About,
        pieces: u64,
        tail: Samples,
    },
    /// There is no such pin.
    NoPin,
    /// The pin is of this number.
    NotYours {
        owner: u64,
    },
    /// The pin has so many pieces.
    NoPiece {
        pieces: u64,
    },
    /// A reader of the piece, the name of its file, the length of its header's line with the newline, and
    /// its own length, in bytes.
    Piece {
        reader: R,
        name: FileName,
        head_len: u64,
        len: u64,
    },
    /// The pin is gone.
    Unpinned,
    /// The names, and whether a row stands behind them.
    NamesAre {
        names: Blobs,
        more: bool,
    },
    /// What is known.
    Described(Details),
    /// So many doors are open.
    DoorsLeft {
        doors: u64,
    },
    /// The disk failed, which it has counted. The act's change was made or not; the next act that touches the disk's
    /// journals finds out. Where only the removal of a file failed, a MoveStep or a Sweep has done all else.
    DiskFault,
    /// Memory ran out. Nothing was changed.
    Memory,
}
