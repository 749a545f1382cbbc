// An archive whose answers are looked at for what is to be told.
ghost use Rattle.std.specs.Prelude.{◌≡◌, IfErr, IfOk};

use act_model::{Act, Answer};
use archive_actors::Applies;
use archive_core::Archive;
use disk_model::Disk;
use series_model::Reason;
use service_watch::Log;
use std::alloc::Global;

// So many bytes of a name are told at most. That of a variable has no more.
const LONGEST: usize = 128;

// Whose sample was tried last.
#[derive(Drop)]
struct Tried {
    // The row's, where a tick tried it, or else that of the name.
    row: Option<u32>,
    name: Vec<u8>,
}

impl Tried {
    // Keeps whose sample an act tries, if it tries one.
    fn note(&mut self, act: &Act) {
        match act {
            Act::Offer { name, .. } => {
                let name = name.bytes();
                self.row = None;
                self.name.clear();
                let _ = self
                    .name
                    .extend_from_slice(&name[..name.len().min(LONGEST)]);
            }
            Act::Tick { row, .. } => self.row = Some(*row),
            _ => {}
        }
    }
}

/// An archive that hands in what is to be told of its answers: the samples that it drops, and the
/// damage that a move meets.
#[derive(Drop)]
pub struct Observed<D: Disk> {
    // In a box, since each turn moves what it acts on.
    archive: Box<Archive<D>>,
    log: Log,
    tried: Tried,
}

impl<D: Disk> Observed<D> {
    /// This archive. It takes memory for it, and gives it back where that is wanting.
    pub fn new(alloc: Global, archive: Archive<D>, log: Log) -> Result<Observed<D>, Archive<D>>
        ensures made { IfOk result (λ observed. observed.archive.value ≡ archive) }
        ensures back { IfErr result (λ given. given ≡ archive) }
    {
        let archive = match Box::new(alloc, archive) {
            Ok(archive) => archive,
            Err(refused) => return Err(refused.value),
        };
        let tried = Tried {
            row: None,
            name: Vec::new(alloc),
        };
        Ok(Observed {
            archive,
            log,
            tried,
        })
    }

    // Hands in that a sample was dropped, by the name that it came under or its row has.
    fn tell_drop(&self, reason: Reason) {
        let Some(row) = self.tried.row else {
            self.log.dropped(reason, self.tried.name.as_slice());
            return;
        };
        let Answer::NamesAre { names, .. } = self.archive.names(row, 1) else {
            self.log.dropped(reason, b"?");
            return;
        };
        match names.items().first() {
            Some(name) => self.log.dropped(reason, name.bytes()),
            None => self.log.dropped(reason, b"?"),
        }
    }

    /// The archive, given back.
    pub fn into_archive(self) -> Archive<D>
        ensures { result ≡ self.archive.value }
    {
        Box::into_inner(self.archive)
    }
}

impl<D: Disk> Applies for Observed<D> {
    ghost use Rattle.archive_core.specs.Leaving.{Leaves};
    ghost use Rattle.archive_core.specs.Parts.{parts};
    ghost use Rattle.archive_core.specs.Stands.{Stands};

    type Reader = D::Reader;

    ghost stands = { λ o m. Stands D.tells (parts D.Disk o.archive.value) m };

    ghost leaves = { λ o e p. Leaves D.tells (parts D.Disk o.archive.value) e (parts D.Disk p.archive.value) };

    ghost sound = { λ o m s. s.sound };

    fn apply(&mut self, who: u64, act: Act) -> Answer<D::Reader> {
        self.tried.note(&act);
        let answer = self.archive.apply(who, act);
        match &answer {
            Answer::Dropped(reason) => self.tell_drop(*reason),
            Answer::Damaged { name, at } => self.log.damage(name, *at),
            _ => {}
        }
        answer
    }
}
