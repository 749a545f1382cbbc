// What an archive tells without its disk: names of rows, and doors.
ghost use Rattle.std.specs.Prelude.{◌≡◌, ◌≤◌, ℕ, IfOk, take, drop, map};
ghost use Rattle.pv_catalog.specs.declared.row.Row.{Row};
ghost use Rattle.act_model.specs.Reply.{reply_of};
ghost use Rattle.act_model.specs.declared.acts.Act.TheVariants.{DoorDone as DoorDoneAct, Doors as DoorsAct};
ghost use Rattle.act_model.specs.declared.acts.Act.TheVariants.{Names as NamesAct};
ghost use Rattle.archive_core.specs.Acting.{Acted};
ghost use Rattle.archive_core.specs.Parts.{InMemory, parts, parts_beside};

use crate::Archive;
use crate::archive::StoreHalf;
use act_model::Answer;
use disk_model::Disk;
use pv_catalog::Row;
use series_model::{Blob, Blobs};
use std::alloc::{AllocError, Global};

// The names of so many rows from a place on.
fn names_of(alloc: Global, rows: &[Row], from: usize, most: usize) -> Result<Blobs, AllocError>
    ensures { IfOk result (λ names. names ≡ take most (drop from (map (λ (row : Row). row.name) rows.now))) }
{
    let rest = &rows[from.min(rows.len())..];
    let asked = &rest[..most.min(rest.len())];
    let mut names = Vec::new(alloc);
    for row in asked {
        names.push(Blob::from(row.name.bytes().to_vec(alloc)?))?;
    }
    Ok(Blobs::from(names))
}

impl<D: Disk> StoreHalf<D> {
    // See `Archive::names`.
    fn names(&self, from: u32, most: u32) -> Answer<D::Reader>
        ensures { (w : InMemory) (who : ℕ)
            → Acted D.tells who (NamesAct from most) (parts_beside D.Disk self.now w)
            (reply_of D.Reader.tells D.Reader.bytes D.Reader.faults result) (parts_beside D.Disk self.now w) }
    {
        let rows = self.store.catalogue().rows();
        match names_of(self.alloc, rows, from as usize, most as usize) {
            Ok(names) => Answer::NamesAre {
                names,
                more: u64::from(from) + u64::from(most) < rows.len() as u64,
            },
            Err(_) => Answer::Memory,
        }
    }
}

impl<D: Disk> Archive<D> {
    /// The names of rows from a number on, at most `most`, and whether a row stands behind them. It
    /// makes no call of the disk.
    pub fn names(&self, from: u32, most: u32) -> Answer<D::Reader>
        ensures { (who : ℕ) → Acted D.tells who (NamesAct from most) (parts D.Disk self.now)
            (reply_of D.Reader.tells D.Reader.bytes D.Reader.faults result) (parts D.Disk self.now) }
    {
        self.half.names(from, most)
    }

    /// How many doors are open. It makes no call of the disk.
    pub fn doors(&self) -> Answer<D::Reader>
        ensures { (who : ℕ) → Acted D.tells who DoorsAct (parts D.Disk self.now)
            (reply_of D.Reader.tells D.Reader.bytes D.Reader.faults result) (parts D.Disk self.now) }
    {
        Answer::DoorsLeft { doors: self.doors }
    }

    /// Counts a door off that has ended, and tells how many are open. It makes no call of the disk.
    pub fn door_done(&mut self) -> Answer<D::Reader>
        ensures acted { (who : ℕ) → Acted D.tells who DoorDoneAct (parts D.Disk self.old)
            (reply_of D.Reader.tells D.Reader.bytes D.Reader.faults result) (parts D.Disk self.new) }
        ensures store { self.new.half.store ≡ self.old.half.store }
        ensures moves { self.new.half.moves ≡ self.old.half.moves }
    {
        self.doors = self.doors.saturating_sub(1);
        Answer::DoorsLeft { doors: self.doors }
    }
}
