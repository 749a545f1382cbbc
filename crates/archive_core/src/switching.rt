// Pausing and resuming: a row's state is set, and what a sampled row holds is given up.
ghost use Rattle.std.specs.Prelude.{◌≡◌, ◌<◌, ℕ, length, IfOk, IfErr, Some, OnOk};
ghost use Rattle.pb_messages.specs.declared.about.State.{State};
ghost use Rattle.pv_catalog.specs.Catalogue.{HasState};
ghost use Rattle.durable_write.specs.Ends.{end_of_switch};
ghost use Rattle.tier_store.specs.Change.{Has, Changes};
ghost use Rattle.tier_store.specs.Frame.{Frame};
ghost use Rattle.tier_store.specs.Pinned.{seen_all};
ghost use Rattle.tier_store.specs.Seen.{seen};
ghost use Rattle.tier_store.specs.Stores.{Stores};
ghost use Rattle.tier_store.specs.Strays.{LeavesTidy};
ghost use Rattle.act_model.specs.Machine.{Machine, SetsState};
ghost use Rattle.act_model.specs.Reply.{reply_of};
ghost use Rattle.act_model.specs.declared.acts.Act.TheVariants.{Pause as PauseAct, Resume as ResumeAct};
ghost use Rattle.archive_core.specs.Acting.{Acted, Changed};
ghost use Rattle.archive_core.specs.Memory.{ClearsRow};
ghost use Rattle.archive_core.specs.Parts.{InMemory, parts, parts_beside};
ghost use Rattle.archive_core.specs.Stands.{Stands, Rests};
ghost use Rattle.archive_core.specs.Switching.{IsFound, IsUnset, act_of, from_of, to_of, switching, switch_reply};
ghost use Rattle.archive_core.specs.declared.switching.Unset.TheVariants.{Disk as UnsetDisk};

use crate::Archive;
use crate::archive::StoreHalf;
use crate::memory::Doubt;
use crate::settling::has_state;
use act_model::Answer;
use disk_model::{Disk, DiskErr, ReadAt};
use intake_half::clear;
use pb_messages::State;
use pv_catalog::{Catalogue, StateErr};
use tier_store::TierStore;

/// How a row's state is set.
#[derive(Clone, Copy)]
pub enum Switch {
    Pause,
    Resume,
}

impl Switch {
    // The state that the row has before.
    fn from(self) -> State
        ensures { result ≡ from_of self }
    {
        match self {
            Switch::Pause => State::Running,
            Switch::Resume => State::Paused,
        }
    }

    // The state that the row has then.
    fn to(self) -> State
        ensures { result ≡ to_of self }
    {
        match self {
            Switch::Pause => State::Paused,
            Switch::Resume => State::Running,
        }
    }
}

/// Why a row's state isn't set.
#[derive(Drop)]
pub enum Unset {
    NoSuchVariable,
    /// The row doesn't have the state from which it would be set.
    WrongState,
    Disk(DiskErr),
}

impl From<DiskErr> for Unset {
    ghost from_gives = { λ d e. e ≡ UnsetDisk d };

    fn from(e: DiskErr) -> Unset {
        Unset::Disk(e)
    }
}

// The row of this name, where its state may be set so.
fn row_to_switch(catalogue: &Catalogue, name: &[u8], switch: Switch) -> Result<u32, Unset>
    ensures found { IfOk result (λ row. IsFound catalogue.now.rows name.now (Some row)
        × HasState catalogue.now.rows row (from_of switch)) }
    ensures refused { IfErr result (IsUnset catalogue.now.rows name.now switch) }
{
    let Some(row) = catalogue.find(name) else {
        return Err(Unset::NoSuchVariable);
    };
    if has_state(catalogue.rows(), row, switch.from()) {
        Ok(row)
    } else {
        Err(Unset::WrongState)
    }
}

fn switch_in<D: Disk>(store: &mut TierStore<D>, row: u32, switch: Switch) -> Result<(), StateErr>
    requires row { row < length store.old.catalogue.rows }
    requires has { (held : Stores) × Has D.tells (seen D.Disk store.old) held }
    ensures changes { Changes D.tells (switching switch row)
        (seen D.Disk store.old) (seen D.Disk store.new) (end_of_switch result) }
    ensures frame { Frame D.tells (seen_all D.Disk store.old) (seen_all D.Disk store.new) }
    ensures tidy { OnOk result (LeavesTidy D.tells (seen_all D.Disk store.old) (seen_all D.Disk store.new)) }
    ensures limbo { store.new.limbo ≡ store.old.limbo }
    ensures pins { store.new.pinned ≡ store.old.pinned }
{
    match switch {
        Switch::Pause => store.pause(row),
        Switch::Resume => store.resume(row),
    }
}

// What is answered where a state was set, or wasn't.
fn set<R: ReadAt>(switch: Switch, done: Result<(), Unset>) -> Answer<R>
    ensures { reply_of R.tells R.bytes R.faults result ≡ switch_reply switch done }
{
    match done {
        Ok(()) => Answer::Done,
        Err(Unset::NoSuchVariable) => Answer::NoSuchVariable,
        Err(Unset::WrongState) => match switch {
            Switch::Pause => Answer::NotRunning,
            Switch::Resume => Answer::NotPaused,
        },
        Err(Unset::Disk(DiskErr::Fault)) => Answer::DiskFault,
        Err(Unset::Disk(DiskErr::Memory)) => Answer::Memory,
    }
}

impl<D: Disk> StoreHalf<D> {
    // Sets the state of a row, where it may be set and nothing stands in doubt. What is kept of the row is to be
    // cleared where it was set.
    fn switch(&mut self, row: u32, switch: Switch) -> Result<(), DiskErr>
        requires rests { (w : InMemory) × (m : Machine) × Rests D.tells (parts_beside D.Disk self.old w) m }
        requires state { HasState self.old.store.catalogue.rows row (from_of switch) }
        ensures { (w after : InMemory) → ClearsRow row w after result → Changed D.tells (SetsState row (to_of switch))
            (parts_beside D.Disk self.old w) (parts_beside D.Disk self.new after) result }
    {
        match switch_in(&mut self.store, row, switch) {
            Ok(()) => Ok(()),
            Err(StateErr::Disk(DiskErr::Fault)) => {
                let to = switch.to();
                self.doubt = Some(Doubt::State { row, to });
                Err(DiskErr::Fault)
            }
            Err(StateErr::Disk(DiskErr::Memory)) => Err(DiskErr::Memory),
            Err(StateErr::NotRunning) => unreachable!(),
            Err(StateErr::NotPaused) => unreachable!(),
        }
    }
}

impl<D: Disk> Archive<D> {
    // Sets the state of a row, where it may be set and nothing stands in doubt.
    fn switch(&mut self, row: u32, switch: Switch) -> Result<(), DiskErr>
        requires rests { (m : Machine) × Rests D.tells (parts D.Disk self.old) m }
        requires state { HasState self.old.half.store.catalogue.rows row (from_of switch) }
        ensures { Changed D.tells (SetsState row (to_of switch))
            (parts D.Disk self.old) (parts D.Disk self.new) result }
    {
        self.half.switch(row, switch)?;
        clear(&mut self.rows[row as usize]);
        Ok(())
    }

    fn set_state(&mut self, name: &[u8], switch: Switch) -> Result<(), Unset>
        requires stands { (m : Machine) × Stands D.tells (parts D.Disk self.old) m }
        ensures { (who : ℕ) → Acted D.tells who (act_of switch name.now) (parts D.Disk self.old)
            (switch_reply switch result) (parts D.Disk self.new) }
    {
        row_to_switch(self.half.store.catalogue(), name, switch)?;
        self.settle()?;
        let row = row_to_switch(self.half.store.catalogue(), name, switch)?;
        self.switch(row, switch)?;
        Ok(())
    }

    /// Drops a running variable's samples from now on, until it is resumed, and gives up what a sampled row
    /// holds. A change that stands in doubt is settled first. `DiskFault` comes only where the disk's count
    /// of faults rose in the call.
    pub fn pause(&mut self, name: &[u8]) -> Answer<D::Reader>
        requires stands { (m : Machine) × Stands D.tells (parts D.Disk self.old) m }
        ensures { (who : ℕ) → Acted D.tells who (PauseAct name.now) (parts D.Disk self.old)
            (reply_of D.Reader.tells D.Reader.bytes D.Reader.faults result) (parts D.Disk self.new) }
    {
        set(Switch::Pause, self.set_state(name, Switch::Pause))
    }

    /// Takes a paused variable's samples again; a sampled row's next tick is due at once. A change that stands in doubt
    /// is settled first. `DiskFault` comes only where the disk's count of faults rose in the call.
    pub fn resume(&mut self, name: &[u8]) -> Answer<D::Reader>
        requires stands { (m : Machine) × Stands D.tells (parts D.Disk self.old) m }
        ensures { (who : ℕ) → Acted D.tells who (ResumeAct name.now) (parts D.Disk self.old)
            (reply_of D.Reader.tells D.Reader.bytes D.Reader.faults result) (parts D.Disk self.new) }
    {
        set(Switch::Resume, self.set_state(name, Switch::Resume))
    }
}
