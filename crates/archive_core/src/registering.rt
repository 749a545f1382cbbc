// Registering: a variable gets a row.
ghost use Rattle.std.specs.Prelude.{◌≡◌, ◌++◌, ◌∷◌, [], ℕ, length, take, IfOk, IfErr, OnOk, OnErr};
ghost use Rattle.pv_catalog.specs.Catalogue.{Refuses};
ghost use Rattle.pv_catalog.specs.declared.error.RegisterErr.{RegisterErr};
ghost use Rattle.act_model.specs.Machine.{Machine, AddsRow};
ghost use Rattle.act_model.specs.Reply.{reply_of};
ghost use Rattle.act_model.specs.declared.acts.Act.TheVariants.{Register as RegisterAct};
ghost use Rattle.archive_core.specs.Acting.{Acted, Changed};
ghost use Rattle.archive_core.specs.Ends.{register_reply};
ghost use Rattle.archive_core.specs.Memory.{with_row};
ghost use Rattle.intake_half.specs.Memory.{renamed_memory};
ghost use Rattle.archive_core.specs.Parts.{InMemory, parts, parts_beside};
ghost use Rattle.archive_core.specs.Stands.{Stands, Rests};

use crate::Archive;
use crate::archive::StoreHalf;
use crate::memory::Doubt;
use act_model::Answer;
use disk_model::{Disk, DiskErr, ReadAt};
use intake_half::{RowMemory, sampling};
use pb_messages::About;
use pv_catalog::{Catalogue, RegisterErr};
use pv_name::PvName;
use std::alloc::AllocFailed;

// Refuses a name that gets no row, as the rows say.
pub(crate) fn refuse_taken(catalogue: &Catalogue, name: &PvName) -> Result<(), RegisterErr>
    ensures free { OnOk result ((e : RegisterErr) → Refuses catalogue.now.rows name.now e → ⊥) }
    ensures refuses { IfErr result (Refuses catalogue.now.rows name.now) }
{
    match catalogue.refusal(name) {
        Some(e) => Err(e),
        None => Ok(()),
    }
}

// Takes the memory for what is kept of one row more than so many, which takes samples from this moment on.
pub(crate) fn add_memory(
    kept: &mut Vec<RowMemory>,
    count: usize,
    about: &About,
    next: u64,
) -> Result<(), AllocFailed<RowMemory>>
    ensures ok { OnOk result (kept.new.items ≡ take count kept.old.items ++ renamed_memory about.now next ∷ []) }
    ensures err { OnErr result (kept.new.items ≡ take count kept.old.items) }
{
    kept.truncate(count);
    kept.push(RowMemory {
        next,
        scan: sampling(&about.method),
    })
}

// What is answered where a name was registered, or wasn't.
fn registered<R: ReadAt>(done: Result<u32, RegisterErr>) -> Answer<R>
    ensures { reply_of R.tells R.bytes R.faults result ≡ register_reply done }
{
    match done {
        Ok(row) => Answer::Registered { row },
        Err(RegisterErr::NameTaken { row }) => Answer::NameTaken { row },
        Err(RegisterErr::KeyTaken { row }) => Answer::KeyTaken { row },
        Err(RegisterErr::Full) => Answer::CatalogueFull,
        Err(RegisterErr::Disk(DiskErr::Fault)) => Answer::DiskFault,
        Err(RegisterErr::Disk(DiskErr::Memory)) => Answer::Memory,
    }
}

impl<D: Disk> StoreHalf<D> {
    // Adds a row, where it may be added and nothing stands in doubt. Its memory is there then, whatever comes of it.
    fn add_row(&mut self, name: &PvName, about: &About) -> Result<u32, DiskErr>
        requires rests { (w : InMemory) × (m : Machine) × Rests D.tells (parts_beside D.Disk self.old w) m }
        requires free { (e : RegisterErr) → Refuses self.old.store.catalogue.rows name.now e → ⊥ }
        ensures changed { (w : InMemory) → Changed D.tells (AddsRow name.now about.now) (parts_beside D.Disk self.old w)
            (parts_beside D.Disk self.new (with_row self.old.store.catalogue.rows about.now 0 w)) result }
        ensures number { IfOk result (λ row. row ≡ length self.old.store.catalogue.rows) }
    {
        match self.store.register(name, about) {
            Ok(row) => Ok(row),
            Err(RegisterErr::Disk(DiskErr::Fault)) => {
                self.doubt = Some(Doubt::Row);
                Err(DiskErr::Fault)
            }
            Err(RegisterErr::Disk(DiskErr::Memory)) => Err(DiskErr::Memory),
            Err(RegisterErr::NameTaken { .. }) => unreachable!(),
            Err(RegisterErr::KeyTaken { .. }) => unreachable!(),
            Err(RegisterErr::Full) => unreachable!(),
        }
    }
}

impl<D: Disk> Archive<D> {
    // Adds a row, where it may be added and nothing stands in doubt. The memory for what is kept of it is taken before.
    fn add_row(&mut self, name: &PvName, about: &About) -> Result<u32, DiskErr>
        requires rests { (m : Machine) × Rests D.tells (parts D.Disk self.old) m }
        requires free { (e : RegisterErr) → Refuses self.old.half.store.catalogue.rows name.now e → ⊥ }
        ensures changed { Changed D.tells (AddsRow name.now about.now)
            (parts D.Disk self.old) (parts D.Disk self.new) result }
        ensures number { IfOk result (λ row. row ≡ length self.old.half.store.catalogue.rows) }
    {
        let count = self.half.store.catalogue().rows().len();
        add_memory(&mut self.rows, count, about, 0)?;
        self.half.add_row(name, about)
    }

    fn register_name(&mut self, name: &PvName, about: &About) -> Result<u32, RegisterErr>
        requires stands { (m : Machine) × Stands D.tells (parts D.Disk self.old) m }
        ensures { (who : ℕ) → Acted D.tells who (RegisterAct name.now about.now) (parts D.Disk self.old)
            (register_reply result) (parts D.Disk self.new) }
    {
        refuse_taken(self.half.store.catalogue(), name)?;
        self.settle()?;
        refuse_taken(self.half.store.catalogue(), name)?;
        Ok(self.add_row(name, about)?)
    }

    /// Registers a variable, whose row is running and has no samples, and answers the row's number. A change that
    /// stands in doubt is settled first. `DiskFault` comes only where the disk's count of faults rose in the call.
    pub fn register(&mut self, name: &PvName, about: &About) -> Answer<D::Reader>
        requires stands { (m : Machine) × Stands D.tells (parts D.Disk self.old) m }
        ensures { (who : ℕ) → Acted D.tells who (RegisterAct name.now about.now) (parts D.Disk self.old)
            (reply_of D.Reader.tells D.Reader.bytes D.Reader.faults result) (parts D.Disk self.new) }
    {
        registered(self.register_name(name, about))
    }
}
