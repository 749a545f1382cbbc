// The publication: the next store lists what a running move has copied to it.
ghost use Rattle.std.specs.Prelude.{◌≡◌, List, [], OnOk, OnErr};
ghost use Rattle.etl_mover.specs.Move.{IsCopied};
ghost use Rattle.etl_mover.specs.declared.moving.Stage.TheVariants.{Published};
ghost use Rattle.durable_write.specs.Ends.{end_of_disk};
ghost use Rattle.durable_write.specs.Held.{Filed};
ghost use Rattle.tier_store.specs.Stores.{Stores};
ghost use Rattle.tier_store.specs.Seen.{seen, IsSettled, SameButLists};
ghost use Rattle.tier_store.specs.Change.{Has};
ghost use Rattle.tier_store.specs.Frame.{Frame};
ghost use Rattle.tier_store.specs.Given.{ChangesGiven};
ghost use Rattle.tier_store.specs.Moving.{RunsBeside, publishing};
ghost use Rattle.tier_store.specs.Pinned.{seen_all};
ghost use Rattle.tier_store.specs.Strays.{MakesNoStray, targets};

use crate::TierStore;
use disk_model::{Disk, DiskErr};
use etl_mover::Move;

impl<D: Disk> TierStore<D> {
    /// Lists in one commit what a running move has copied. `place` is that of the move's destination, the store's
    /// number less one. It needs that nothing stands in doubt, as after `review`, that the move has copied all its
    /// parts, and that what it has written stands beside what is held. A crash at any moment leaves what was held, or
    /// that with the files listed too. What is pinned stays as it is.
    ///
    /// After `Fault`, which comes only where the disk's count of faults rose in the call, it may not be known
    /// whether the files are listed; `review` finds out. After `Memory` what was held is still held. After
    /// both the move is as it was.
    pub fn publish(&mut self, place: usize, moving: &mut Move) -> Result<(), DiskErr>
        requires copied { IsCopied moving.old }
        requires runs { (files : List Filed) × (held : Stores) × Has D.tells (seen D.Disk self.old) held
            × RunsBeside place D.tells (seen_all D.Disk self.old) moving.old files held }

        ensures changes { (files : List Filed)
            → ChangesGiven (RunsBeside place D.tells (seen_all D.Disk self.old) moving.old files) D.tells
            (publishing place files) (seen D.Disk self.old) (seen D.Disk self.new) (end_of_disk result) }
        ensures frame { Frame D.tells (seen_all D.Disk self.old) (seen_all D.Disk self.new) }
        ensures tidy { OnOk result (IsSettled (seen D.Disk self.new)
            × MakesNoStray D.tells (seen_all D.Disk self.old) (targets moving.old) (seen_all D.Disk self.new) []) }
        ensures same { SameButLists self.old self.new }
        ensures published { OnOk result (moving.new ≡ record moving.old { stage = Published }) }
        ensures unpublished { OnErr result (moving.new ≡ moving.old) }
    {
        moving.publish(&mut self.disk, &mut self.manifests[place])
    }
}
