// The settling of a change that stands in doubt.
ghost use Rattle.std.specs.Prelude.{◌≡◌, ◌↔◌, IfOk, IsTrue, OnOk, OnErr, length};
ghost use Rattle.pv_catalog.specs.Catalogue.{HasState};
ghost use Rattle.durable_write.specs.Ends.{end_of_disk};
ghost use Rattle.tier_store.specs.Seen.{seen, IsSettled};
ghost use Rattle.act_model.specs.Machine.{Machine};
ghost use Rattle.archive_core.specs.Acting.{Settling, TakesIn};
ghost use Rattle.archive_core.specs.Ends.{SettlesTo, StandsStill};
ghost use Rattle.archive_core.specs.Memory.{set_by, IsCleared};
ghost use Rattle.archive_core.specs.Parts.{InMemory, parts, parts_beside};
ghost use Rattle.archive_core.specs.Stands.{Stands};

use crate::Archive;
use crate::archive::StoreHalf;
use crate::flushing::trim_flushed;
use crate::memory::Doubt;
use disk_model::{Disk, DiskErr};
use intake_half::{RowMemory, clear};
use pb_messages::State;
use pv_catalog::Row;

// Whether the row of this number has the state.
pub(crate) fn has_state(rows: &[Row], row: u32, to: State) -> bool
    ensures { IsTrue result ↔ HasState rows.now row to }
{
    match rows.get(row as usize) {
        Some(found) => found.state == to,
        None => false,
    }
}

// The row whose state the doubted change sets, with that state.
fn state_set(doubt: &Option<Doubt>) -> Option<(u32, State)>
    ensures { result ≡ set_by doubt.now }
{
    match doubt {
        Some(Doubt::State { row, to }) => Some((*row, *to)),
        Some(Doubt::Rename { old }) => Some((*old, State::Retired)),
        _ => None,
    }
}

// Takes in a doubted change of a row's state, where the row has that state.
fn clear_set(rows: &[Row], kept: &mut Vec<RowMemory>, doubt: &Option<Doubt>)
    ensures { IsCleared rows.now doubt.now kept.old.items kept.new.items }
{
    let Some((row, to)) = state_set(doubt) else {
        return;
    };
    let at = row as usize;
    if at < kept.len() && has_state(rows, row, to) {
        clear(&mut kept[at]);
    }
}

impl<D: Disk> StoreHalf<D> {
    // Finds out whether the change that stands in doubt was made, and gives back what was kept of it: memory takes it
    // in where it was. It changes no file but those of a journal, and makes no call of the disk where nothing stands
    // in doubt. After an error the doubt stands as before.
    fn settle(&mut self) -> Result<Option<Doubt>, DiskErr>
        requires stands { (w : InMemory) × (m : Machine) × Stands D.tells (parts_beside D.Disk self.old w) m }
        ensures settled { IfOk result (λ doubt. (w after : InMemory)
            → TakesIn (seen D.Disk self.new.store) doubt w after
            → SettlesTo D.tells (parts_beside D.Disk self.old w) (parts_beside D.Disk self.new after)) }
        ensures given { IfOk result (λ doubt. doubt ≡ self.old.doubt) }
        ensures three { OnOk result (length self.new.store.manifests.items ≡ 3) }
        ensures still { OnErr result ((w : InMemory)
            → StandsStill D.tells (parts_beside D.Disk self.old w) (parts_beside D.Disk self.new w)) }
        ensures quiet { IsSettled (seen D.Disk self.old.store) → self.new.store ≡ self.old.store }
        ensures moves { self.new.moves ≡ self.old.moves }
        ensures settling { (w after : InMemory) → Settling D.tells
            (parts_beside D.Disk self.old w) (parts_beside D.Disk self.new after) (end_of_disk result) }
    {
        self.store.review()?;
        Ok(self.doubt.take())
    }
}

impl<D: Disk> Archive<D> {
    /// Finds out whether a change that stands in doubt was made, and takes it in where it was. It changes no file but
    /// those of a journal, and makes no call of the disk where nothing stands in doubt.
    ///
    /// After an error the doubt stands as before. `Fault` comes only where the disk's count of faults rose in the call.
    pub fn settle(&mut self) -> Result<(), DiskErr>
        requires stands { (m : Machine) × Stands D.tells (parts D.Disk self.old) m }
        ensures settled { OnOk result (SettlesTo D.tells (parts D.Disk self.old) (parts D.Disk self.new)) }
        ensures still { OnErr result (StandsStill D.tells (parts D.Disk self.old) (parts D.Disk self.new)) }
        ensures quiet { IsSettled (seen D.Disk self.old.half.store) → self.new.half.store ≡ self.old.half.store }
        ensures moves { self.new.half.moves ≡ self.old.half.moves }
        ensures settling { Settling D.tells (parts D.Disk self.old) (parts D.Disk self.new) (end_of_disk result) }
    {
        let doubt = self.half.settle()?;
        clear_set(self.half.store.catalogue().rows(), &mut self.rows, &doubt);
        trim_flushed(&self.half.store, &mut self.intake, &doubt);
        Ok(())
    }
}
