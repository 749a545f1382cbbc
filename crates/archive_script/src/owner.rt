// An archive over a disk in memory, on which acts are made by owners of any number.
ghost use Rattle.std.specs.Prelude.{◌≡◌, IfOk, true};
ghost use Rattle.std.proofs.Common.{refl, ◌∙◌};
ghost use Rattle.disk_model.specs.Record.{files_of, opened_of};
ghost use Rattle.act_model.specs.Alone.{Alone as ActsAlone};
ghost use Rattle.act_model.proofs.ActsAlone.{alone_legal, alone_nothing, alone_joined};
ghost use Rattle.act_model.specs.Machine.{Machine};
ghost use Rattle.act_model.specs.Step.{MayAsk};
ghost use Rattle.archive_core.specs.Parts.{parts};
ghost use Rattle.archive_core.specs.Stands.{Stands};
ghost use Rattle.store_reopen.specs.Reopen.{IsUnopened};

use act_model::{Act, Actor, Answer, Spent};
use archive_actors::Applies;
use archive_core::Archive;
use disk_model::{Disk, MemDisk, MemFile};
use edge_io::MemSink;
use etl_rules::Config;
use retrieval_query::{RawOut, Retrieved, retrieve};
use series_model::Query;
use std::alloc::Global;
use store_reopen::{ReopenErr, reopen};

/// An archive of its own, and the number of the one who acts on it now.
#[derive(Drop)]
pub(crate) struct Owner<X: Applies> {
    pub(crate) archive: X,
    pub(crate) who: u64,
}

impl<X: Applies> Actor for Owner<X> {
    type Reader = X::Reader;

    ghost number = { λ a. a.who };

    ghost stands = { λ a m. X.stands a.archive m };

    ghost between = { λ a entries b. (b.who ≡ a.who) × ActsAlone X.stands X.leaves a.who a.archive entries b.archive };

    ghost is_spent = { λ a. ⊥ };

    fn act(&mut self, act: Act) -> Result<Answer<X::Reader>, Spent> {
        Ok(self.archive.apply(self.who, act))
    }

    ghost legal = { λ a b entries m h s. alone_legal X.stands X.leaves a.who a.archive b.archive entries m h.1 s };

    ghost sound = { λ a m s. X.sound a.archive m s };

    ghost nothing = { λ a. (refl, alone_nothing X.stands X.leaves a.who a.archive) };

    ghost joined = { λ a b c xs ys p q.
        (q.0 ∙ p.0, alone_joined X.stands X.leaves a.who b.who a.archive b.archive c.archive xs ys p.0 p.1 q.1) };

    ghost number_stays = { λ a b entries h. h.0 };
}

/// Opens a disk with two doors. Where it isn't opened it comes back, with the cause.
pub(crate) fn opened(
    alloc: Global,
    disk: MemDisk,
    config: &Config,
) -> Result<Owner<Archive<MemDisk>>, ReopenErr<MemDisk>>
    requires { IsUnopened (files_of disk.calls) (opened_of disk.calls) }
    ensures { IfOk result (λ owner. (m : Machine) × Stands true (parts ⟦<MemDisk as Disk>⟧ owner.archive) m) }
{
    match reopen(alloc, disk, config) {
        Ok(store) => match Archive::of(alloc, store, 2) {
            Ok(archive) => Ok(Owner { archive, who: 0 }),
            Err(store) => Err(ReopenErr::Memory(store.into_disk())),
        },
        Err(e) => Err(e),
    }
}

/// Makes one act.
pub(crate) fn ask(owner: &mut Owner<Archive<MemDisk>>, act: Act) -> Answer<MemFile>
    requires stands { (m : Machine) × Stands true (parts ⟦<MemDisk as Disk>⟧ owner.old.archive) m }
    requires may_ask { MayAsk act }
    ensures { (m : Machine) × Stands true (parts ⟦<MemDisk as Disk>⟧ owner.new.archive) m }
{
    owner.archive.apply(owner.who, act)
}

/// Writes the raw text of a variable's answer.
pub(crate) fn get(
    alloc: Global,
    owner: &mut Owner<Archive<MemDisk>>,
    name: &[u8],
    query: Query,
    sink: &mut MemSink,
) -> Retrieved<MemFile>
    requires { (m : Machine) × Stands true (parts ⟦<MemDisk as Disk>⟧ owner.old.archive) m }
    ensures { (m : Machine) × Stands true (parts ⟦<MemDisk as Disk>⟧ owner.new.archive) m }
{
    let mut out = RawOut::new(alloc, sink);
    let end = retrieve(alloc, owner, name, query, &mut out);
    let _sink = out.into_sink();
    end
}

/// The disk of an archive that isn't asked any more.
pub(crate) fn into_disk(owner: Owner<Archive<MemDisk>>) -> MemDisk {
    owner.archive.into_store().into_disk()
}
