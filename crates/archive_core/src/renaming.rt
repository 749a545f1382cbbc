// Renaming: a variable gets a new name, and goes on in a new row over its old one.
ghost use Rattle.std.specs.Prelude.{◌≡◌, ◌<◌, [], ℕ, length, IfOk, IfErr, OnOk, Some};
ghost use Rattle.intake.specs.Tails.{tail_at};
ghost use Rattle.pb_messages.specs.declared.about.State.TheVariants.{Paused};
ghost use Rattle.pv_catalog.specs.Catalogue.{HasState};
ghost use Rattle.act_model.specs.Machine.{Machine, Renames};
ghost use Rattle.act_model.specs.Reply.{reply_of};
ghost use Rattle.act_model.specs.declared.acts.Act.TheVariants.{Rename as RenameAct};
ghost use Rattle.archive_core.specs.Acting.{Acted, Changed};
ghost use Rattle.archive_core.specs.Memory.{RenamesRow};
ghost use Rattle.archive_core.specs.Parts.{InMemory, parts, parts_beside};
ghost use Rattle.archive_core.specs.Renaming.{CanRename, HasTail, IsUnnamed, IsUnpaused, rename_reply, taken_as};
ghost use Rattle.archive_core.specs.Stands.{Stands, Rests};
ghost use Rattle.archive_core.specs.Switching.{IsFound};
ghost use Rattle.archive_core.specs.declared.renaming.Unnamed.TheVariants.{Disk as UnnamedDisk};

use crate::Archive;
use crate::archive::StoreHalf;
use crate::memory::Doubt;
use crate::registering::{add_memory, refuse_taken};
use act_model::Answer;
use disk_model::{Disk, DiskErr, ReadAt};
use intake_half::clear;
use pb_messages::State;
use pv_catalog::{Catalogue, RegisterErr, RenameErr};
use pv_name::PvName;

/// Why a variable gets no new name.
#[derive(Drop)]
pub enum Unnamed {
    NoSuchVariable,
    /// Its row has this state. The number of the row's last change is told too.
    NotPaused { state: State, change: u64 },
    /// A row has the new name.
    NameTaken { row: u32 },
    /// A row has the new name's key.
    KeyTaken { row: u32 },
    CatalogueFull,
    /// The last accepted sample, at this moment, isn't durable; the last durable one is at the other.
    NotDurable { last: u64, durable: Option<u64> },
    Disk(DiskErr),
}

impl From<DiskErr> for Unnamed {
    ghost from_gives = { λ d e. e ≡ UnnamedDisk d };

    fn from(e: DiskErr) -> Unnamed {
        Unnamed::Disk(e)
    }
}

impl From<RegisterErr> for Unnamed {
    ghost from_gives = { λ d e. e ≡ taken_as d };

    fn from(e: RegisterErr) -> Unnamed {
        match e {
            RegisterErr::NameTaken { row } => Unnamed::NameTaken { row },
            RegisterErr::KeyTaken { row } => Unnamed::KeyTaken { row },
            RegisterErr::Full => Unnamed::CatalogueFull,
            RegisterErr::Disk(e) => Unnamed::Disk(e),
        }
    }
}

// The row of this name, where it is paused. The change number is told where it isn't.
fn paused_row(catalogue: &Catalogue, name: &[u8], change: u64) -> Result<u32, Unnamed>
    ensures found { IfOk result (λ row. IsFound catalogue.now.rows name.now (Some row)
        × HasState catalogue.now.rows row Paused) }
    ensures refused { IfErr result (IsUnpaused catalogue.now.rows name.now change) }
{
    let Some(row) = catalogue.find(name) else {
        return Err(Unnamed::NoSuchVariable);
    };
    let state = catalogue.rows()[row as usize].state;
    if state == State::Paused {
        return Ok(row);
    }
    Err(Unnamed::NotPaused { state, change })
}

// What is answered where a variable got a new name, or none.
fn renamed<R: ReadAt>(done: Result<u32, Unnamed>) -> Answer<R>
    ensures { reply_of R.tells R.bytes R.faults result ≡ rename_reply done }
{
    match done {
        Ok(row) => Answer::Renamed { row },
        Err(Unnamed::NoSuchVariable) => Answer::NoSuchVariable,
        Err(Unnamed::NotPaused { state, change }) => Answer::RenameNotPaused {
            state,
            change,
            seen: 0,
        },
        Err(Unnamed::NameTaken { row }) => Answer::NameTaken { row },
        Err(Unnamed::KeyTaken { row }) => Answer::KeyTaken { row },
        Err(Unnamed::CatalogueFull) => Answer::CatalogueFull,
        Err(Unnamed::NotDurable { last, durable }) => Answer::NotDurable { last, durable },
        Err(Unnamed::Disk(DiskErr::Fault)) => Answer::DiskFault,
        Err(Unnamed::Disk(DiskErr::Memory)) => Answer::Memory,
    }
}

impl<D: Disk> StoreHalf<D> {
    // Gives the variable of a row the new name, where it may get it and nothing stands in doubt. The memory of its new
    // row is there then, whatever comes of it, and what is kept of its old row is to be cleared where it has the name.
    fn rename_row(&mut self, row: u32, newname: &PvName) -> Result<u32, DiskErr>
        requires rests { (w : InMemory) × (m : Machine) × CanRename (parts_beside D.Disk self.old w) newname.now row
            × Rests D.tells (parts_beside D.Disk self.old w) m }
        ensures changed { (w after : InMemory) → CanRename (parts_beside D.Disk self.old w) newname.now row
            → RenamesRow self.old.store.catalogue.rows row w after result → Changed D.tells (Renames row newname.now)
            (parts_beside D.Disk self.old w) (parts_beside D.Disk self.new after) result }
        ensures number { IfOk result (λ id. id ≡ length self.old.store.catalogue.rows) }
    {
        match self.store.rename(row, newname) {
            Ok(id) => Ok(id),
            Err(RenameErr::Disk(DiskErr::Fault)) => {
                self.doubt = Some(Doubt::Rename { old: row });
                Err(DiskErr::Fault)
            }
            Err(RenameErr::Disk(DiskErr::Memory)) => Err(DiskErr::Memory),
            Err(RenameErr::NotPaused) => unreachable!(),
            Err(RenameErr::NameTaken { .. }) => unreachable!(),
            Err(RenameErr::KeyTaken { .. }) => unreachable!(),
            Err(RenameErr::Full) => unreachable!(),
        }
    }
}

impl<D: Disk> Archive<D> {
    // Refuses a row that has a tail: its last accepted sample isn't durable.
    fn refuse_tail(&self, row: u32) -> Result<(), Unnamed>
        requires stands { (m : Machine) × Stands D.tells (parts D.Disk self.now) m }
        requires row { row < length self.now.half.store.catalogue.rows }
        ensures none { OnOk result ((tail_at self.now.intake row).samples ≡ []) }
        ensures refused { IfErr result (HasTail (parts D.Disk self.now) row) }
    {
        if self.intake.tail(row).is_empty() {
            return Ok(());
        }
        Err(Unnamed::NotDurable {
            last: self.rows[row as usize].next.saturating_sub(1),
            durable: self.half.store.last_of(row),
        })
    }

    // The row of this name, where its variable may get the new one. The change number is told
    // where the row isn't paused.
    fn row_to_rename(&self, name: &[u8], newname: &PvName, change: u64) -> Result<u32, Unnamed>
        requires stands { (m : Machine) × Stands D.tells (parts D.Disk self.now) m }
        ensures found { IfOk result (λ row. IsFound self.now.half.store.catalogue.rows name.now (Some row)
            × CanRename (parts D.Disk self.now) newname.now row) }
        ensures refused { IfErr result (IsUnnamed (parts D.Disk self.now) name.now newname.now change) }
    {
        let catalogue = self.half.store.catalogue();
        let row = paused_row(catalogue, name, change)?;
        refuse_taken(catalogue, newname)?;
        self.refuse_tail(row)?;
        Ok(row)
    }

    // Gives the variable of a row the new name, where it may get it and nothing stands in doubt. The memory for what is
    // kept of its new row is taken before.
    fn rename_row(&mut self, row: u32, newname: &PvName) -> Result<u32, DiskErr>
        requires rests { (m : Machine) × Rests D.tells (parts D.Disk self.old) m }
        requires can { CanRename (parts D.Disk self.old) newname.now row }
        ensures changed { Changed D.tells (Renames row newname.now)
            (parts D.Disk self.old) (parts D.Disk self.new) result }
        ensures number { IfOk result (λ id. id ≡ length self.old.half.store.catalogue.rows) }
    {
        let rows = self.half.store.catalogue().rows();
        let next = self.rows[row as usize].next;
        add_memory(&mut self.rows, rows.len(), &rows[row as usize].about, next)?;
        let id = self.half.rename_row(row, newname)?;
        clear(&mut self.rows[row as usize]);
        Ok(id)
    }

    fn rename_name(&mut self, name: &[u8], newname: &PvName) -> Result<u32, Unnamed>
        requires stands { (m : Machine) × Stands D.tells (parts D.Disk self.old) m }
        ensures { (who : ℕ) → Acted D.tells who (RenameAct name.now newname.now) (parts D.Disk self.old)
            (rename_reply result) (parts D.Disk self.new) }
    {
        self.row_to_rename(name, newname, 0)?;
        self.settle()?;
        let row = self.row_to_rename(name, newname, 1)?;
        Ok(self.rename_row(row, newname)?)
    }

    /// Gives a variable a new name: it goes on in a new row, which is paused and whose number is answered; its old row
    /// is retired, and keeps its samples for good. The variable must be paused, with all its samples durable, and the
    /// new name free as for `register`; where it isn't paused, its change number is told as 1 if this call itself
    /// settled a change of it that stood in doubt, and as 0 if not. A change that stands in doubt is settled first.
    /// `DiskFault` comes only where the disk's count of faults rose in the call.
    pub fn rename(&mut self, name: &[u8], newname: &PvName) -> Answer<D::Reader>
        requires stands { (m : Machine) × Stands D.tells (parts D.Disk self.old) m }
        ensures { (who : ℕ) → Acted D.tells who (RenameAct name.now newname.now) (parts D.Disk self.old)
            (reply_of D.Reader.tells D.Reader.bytes D.Reader.faults result) (parts D.Disk self.new) }
    {
        renamed(self.rename_name(name, newname))
    }
}
