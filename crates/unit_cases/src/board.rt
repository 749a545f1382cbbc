// A board on which one pin can be made: an archive of one variable without samples, over a disk that
// tells nothing of its files.
ghost use Rattle.std.specs.Prelude.{◌≡◌, ℕ, true, [], None, Some, IfOk};
ghost use Rattle.act_model.specs.Machine.{Machine};
ghost use Rattle.act_model.specs.Reply.{reply_of};
ghost use Rattle.act_model.specs.declared.acts.Act.{Act};
ghost use Rattle.unit_cases.specs.Boards.{BoardStands, BoardLeaves, StepsTo};

use act_model::{Act, Answer};
use archive_actors::Applies;
use disk_model::{MemFile, ReadAt};
use pb_messages::{About, Method};
use pb_wire::PayloadType;
use pv_name::PvName;
use series_model::{Blob, Pairs, Query, Samples};
use std::alloc::{AllocError, Global};

/// The variable, whose the pin is, and how many doors are open. Of all acts it makes the pin and gives it
/// up, counts its doors off, and makes those of the flusher and the mover, who find nothing to do. For the
/// others memory is wanting.
#[derive(Drop)]
pub struct Board {
    alloc: Global,
    name: PvName,
    about: About,
    owner: Option<u64>,
    doors: u64,
}

impl Board {
    /// A board without a pin, for the variable `A:B`, with so many open doors.
    pub fn new(alloc: Global, doors: u64) -> Result<Board, AllocError>
        ensures stands { IfOk result (λ board. (m : Machine) × BoardStands board m) }
        ensures doors { IfOk result (λ board. board.doors ≡ doors) }
    {
        let Ok(name) = PvName::new(alloc, b"A:B") else {
            return Err(AllocError);
        };
        Ok(Board {
            alloc,
            name,
            about: About {
                ty: PayloadType::ScalarInt,
                method: Method::Monitor,
                count: None,
                headers: Pairs::from(Vec::new(alloc)),
            },
            owner: None,
            doors,
        })
    }

    /// Whose the pin is.
    pub fn owner(&self) -> Option<u64>
        ensures { result ≡ self.now.owner }
    {
        self.owner
    }

    // Whether a pin of this variable can be made.
    fn is_free(&self, name: &Blob) -> bool
        ensures { result ≡ true → (name.now ≡ self.now.name) × (self.now.owner ≡ None) }
    {
        name.bytes() == self.name.bytes() && self.owner.is_none()
    }

    fn known(&self) -> Result<(PvName, About), AllocError>
        ensures { IfOk result (λ both. (both.0 ≡ self.now.name) × (both.1 ≡ self.now.about)) }
    {
        Ok((self.name.clone()?, self.about.clone()?))
    }

    fn no_samples(&self) -> Samples
        ensures { result ≡ [] }
    {
        Samples::from(Vec::new(self.alloc))
    }

    fn pin(&mut self, who: u64, name: &Blob, query: Query) -> Answer<MemFile>
        ensures { StepsTo who (Act.Pin name.now query) self.old (reply_of
            ⟦<MemFile as ReadAt>⟧.tells ⟦<MemFile as ReadAt>⟧.bytes ⟦<MemFile as ReadAt>⟧.faults result) self.new }
    {
        if !self.is_free(name) {
            return Answer::Memory;
        }
        let Ok((name, about)) = self.known() else {
            return Answer::Memory;
        };
        let tail = self.no_samples();
        self.owner = Some(who);
        Answer::Pinned {
            pin: 0,
            name,
            about,
            pieces: 0,
            tail,
        }
    }

    fn unpin(&mut self, who: u64, pin: u32) -> Answer<MemFile>
        ensures { StepsTo who (Act.Unpin pin) self.old (reply_of
            ⟦<MemFile as ReadAt>⟧.tells ⟦<MemFile as ReadAt>⟧.bytes ⟦<MemFile as ReadAt>⟧.faults result) self.new }
    {
        match self.owner {
            None => Answer::NoPin,
            Some(owner) => self.unpin_of(owner, who, pin),
        }
    }

    // Where the pin is this one's.
    fn unpin_of(&mut self, owner: u64, who: u64, pin: u32) -> Answer<MemFile>
        requires { self.old.owner ≡ Some owner }
        ensures { StepsTo who (Act.Unpin pin) self.old (reply_of
            ⟦<MemFile as ReadAt>⟧.tells ⟦<MemFile as ReadAt>⟧.bytes ⟦<MemFile as ReadAt>⟧.faults result) self.new }
    {
        if pin != 0 {
            return Answer::NoPin;
        }
        if owner != who {
            return Answer::NotYours { owner };
        }
        self.owner = None;
        Answer::Unpinned
    }
}

impl Board {
    // Counts a door off.
    fn door_done(&mut self) -> Answer<MemFile>
        ensures { (who : ℕ) → StepsTo who Act.DoorDone self.old (reply_of
            ⟦<MemFile as ReadAt>⟧.tells ⟦<MemFile as ReadAt>⟧.bytes ⟦<MemFile as ReadAt>⟧.faults result) self.new }
    {
        self.doors = self.doors.saturating_sub(1);
        Answer::DoorsLeft { doors: self.doors }
    }

    // Ticks a row, of which it has one that isn't sampled at a period.
    fn tick(&self, row: u32) -> Answer<MemFile>
        ensures { (who now : ℕ) → StepsTo who (Act.Tick row now) self.now (reply_of
            ⟦<MemFile as ReadAt>⟧.tells ⟦<MemFile as ReadAt>⟧.bytes ⟦<MemFile as ReadAt>⟧.faults result) self.now }
    {
        if row != 0 {
            return Answer::NoRow;
        }
        match self.about.method {
            Method::Monitor => Answer::TickNone,
            Method::Scan { .. } => Answer::Memory,
        }
    }
}

impl Applies for Board {
    type Reader = MemFile;

    ghost stands = { BoardStands };

    ghost leaves = { BoardLeaves };

    ghost sound = { λ board m stands. stands.sound };

    fn apply(&mut self, who: u64, act: Act) -> Answer<MemFile> {
        match act {
            Act::Pin { name, query } => self.pin(who, &name, query),
            Act::Unpin { pin } => self.unpin(who, pin),
            Act::Doors => Answer::DoorsLeft { doors: self.doors },
            Act::DoorDone => self.door_done(),
            Act::Tick { row, .. } => self.tick(row),
            Act::Flush { .. } => Answer::Flushed {
                samples: 0,
                left: 0,
                doors: self.doors,
            },
            Act::MoveBegin { .. } => Answer::Nothing { doors: self.doors },
            Act::Sweep => Answer::Swept { files: 0 },
            Act::Register { .. } => Answer::Memory,
            Act::Pause { .. } => Answer::Memory,
            Act::Resume { .. } => Answer::Memory,
            Act::Rename { .. } => Answer::Memory,
            Act::Offer { .. } => Answer::Memory,
            Act::MoveStep { .. } => Answer::Memory,
            Act::OpenPiece { .. } => Answer::Memory,
            Act::Names { .. } => Answer::Memory,
            Act::Details { .. } => Answer::Memory,
        }
    }
}
