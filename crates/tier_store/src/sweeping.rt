// The sweep: retired files that nothing needs any more are removed, and leave limbo.
ghost use Rattle.std.specs.Prelude.{◌≡◌, Ok, IfOk, OnOk, OnErr, IsErr, IsTrue};
ghost use Rattle.disk_model.specs.Files.{Rose};
ghost use Rattle.durable_write.specs.Ends.{Done, end_of_disk};
ghost use Rattle.tier_store.specs.Stores.{Stores};
ghost use Rattle.tier_store.specs.Seen.{seen, SameMemory};
ghost use Rattle.tier_store.specs.Change.{Has, Changes};
ghost use Rattle.tier_store.specs.Copying.{OnlyLooks};
ghost use Rattle.tier_store.specs.Moving.{LeavesLater, LeavesNames};
ghost use Rattle.tier_store.specs.Pinned.{seen_all, KeepsShown};
ghost use Rattle.tier_store.specs.Limbo.{LimboStands, IsSwept, AreGone, AreRemovable, IsLeftOver, LeavesKept, staying};
ghost use Rattle.tier_store.specs.Revival.{KeepsWhole};
ghost use Rattle.tier_store.specs.Strays.{SweepsFiles};

use crate::TierStore;
use crate::limbo::leave_listed;
use crate::removing::{StoreSwept, clear_limbo, find_removable};
use disk_model::{Disk, DiskErr, FileName};

impl<D: Disk> TierStore<D> {
    // Sweeps where no change stands in doubt and just these of the names that are to go have a file.
    fn sweep_names(&mut self, copied: &[FileName], removable: &[FileName]) -> StoreSwept
        requires has { (held : Stores) × Has D.tells (seen D.Disk self.old) held }
        requires stands { LimboStands (seen D.Disk self.old) self.old.limbo.items }
        requires removable { IsTrue D.tells
            → AreRemovable (IsLeftOver self.old.manifests.items self.old.pinned copied.now)
            self.old.limbo.items (D.files self.old.disk) removable.now }

        ensures changes { Changes D.tells staying (seen D.Disk self.old) (seen D.Disk self.new) (Done result) }
        ensures swept { IsSwept (seen D.Disk self.new) self.old.pinned
            copied.now self.old.limbo.items self.new.limbo.items result.files }
        ensures gone { IsTrue D.tells
            → OnOk result.removed (AreGone (seen D.Disk self.new) self.old.pinned copied.now self.old.limbo.items) }
        ensures cause { IsErr result.removed → Rose (D.faults self.old.disk) (D.faults self.new.disk) }
        ensures leaves { LeavesKept D.tells self.old.pinned copied.now
            (seen_all D.Disk self.old) (seen_all D.Disk self.new) }
        ensures whole { KeepsWhole D.tells (seen_all D.Disk self.old) (seen_all D.Disk self.new) }
        ensures copied { LeavesNames copied.now D.tells (seen_all D.Disk self.old) (seen_all D.Disk self.new) }
        ensures stands { LimboStands (seen D.Disk self.new) self.new.limbo.items }
        ensures same { (self.new.catalogue ≡ self.old.catalogue)
            × (self.new.manifests ≡ self.old.manifests)
            × (self.new.pinned ≡ self.old.pinned) }
    {
        leave_listed(&self.manifests, &mut self.limbo);
        clear_limbo(
            &mut self.disk,
            &mut self.limbo,
            removable,
            &self.pinned,
            copied,
        )
    }

    // Asks which files of limbo are to be removed and are there, where no change stands in doubt.
    fn find_swept(&mut self, copied: &[FileName]) -> Result<Vec<FileName>, DiskErr>
        requires has { (held : Stores) × Has D.tells (seen D.Disk self.old) held }
        requires stands { LimboStands (seen D.Disk self.old) self.old.limbo.items }

        ensures found { IsTrue D.tells
            → IfOk result (λ names. AreRemovable (IsLeftOver self.new.manifests.items self.new.pinned copied.now)
            self.new.limbo.items (D.files self.new.disk) names.items) }
        ensures looks { OnlyLooks D.tells (seen_all D.Disk self.old) (seen_all D.Disk self.new) (end_of_disk result) }
        ensures same { SameMemory self.old self.new }
    {
        let limbo = self.limbo.as_slice();
        find_removable(
            self.alloc,
            &mut self.disk,
            &self.manifests,
            limbo,
            &self.pinned,
            copied,
        )
    }

    /// Removes the files of limbo that nothing needs any more, and answers how many these are. `copied` names the files
    /// into which running moves have copied. It needs that nothing stands in doubt, as after `review`. Two kinds of
    /// files leave limbo: those that their store lists again, which aren't counted, and those that no pin names and
    /// into which no running move has copied, which are removed from the disk. What is listed, pinned or copied into
    /// stays as it is, at every moment of the call.
    ///
    /// A removal that fails is no failure of the sweep: such a file leaves limbo too, and it is told, as `Fault` alone.
    /// Which files are there is asked before any leaves limbo: `Fault`, which comes only where the disk's count of
    /// faults rose in the call, and `Memory` come from that alone, and limbo is as it was then.
    pub fn sweep(&mut self, copied: &[FileName]) -> Result<StoreSwept, DiskErr>
        requires has { (held : Stores) × Has D.tells (seen D.Disk self.old) held }
        requires stands { LimboStands (seen D.Disk self.old) self.old.limbo.items }

        ensures changes { Changes D.tells staying (seen D.Disk self.old) (seen D.Disk self.new) (end_of_disk result) }
        ensures sweeps { IfOk result (λ swept. SweepsFiles D.tells self.old.pinned copied.now
            (seen_all D.Disk self.old) (seen_all D.Disk self.new) swept) }
        ensures failed { OnErr result ((self.new.limbo ≡ self.old.limbo)
            × KeepsShown D.tells (seen_all D.Disk self.old) (seen_all D.Disk self.new)
            × LeavesLater D.tells (seen_all D.Disk self.old) (seen_all D.Disk self.new)) }
        ensures leaves { LeavesKept D.tells self.old.pinned copied.now
            (seen_all D.Disk self.old) (seen_all D.Disk self.new) }
        ensures whole { KeepsWhole D.tells (seen_all D.Disk self.old) (seen_all D.Disk self.new) }
        ensures copied { LeavesNames copied.now D.tells (seen_all D.Disk self.old) (seen_all D.Disk self.new) }
        ensures stands { LimboStands (seen D.Disk self.new) self.new.limbo.items }
        ensures same { (self.new.catalogue ≡ self.old.catalogue)
            × (self.new.manifests ≡ self.old.manifests)
            × (self.new.pinned ≡ self.old.pinned) }
    {
        let removable = self.find_swept(copied)?;
        Ok(self.sweep_names(copied, &removable))
    }
}
