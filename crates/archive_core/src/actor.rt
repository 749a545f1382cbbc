// An archive is what actors act on, one alone or many in turns.
ghost use Rattle.archive_core.specs.Leaving.{Leaves};
ghost use Rattle.archive_core.specs.Parts.{parts};
ghost use Rattle.archive_core.specs.Stands.{Stands};

use crate::Archive;
use act_model::{Act, Answer};
use archive_actors::Applies;
use disk_model::Disk;

impl<D: Disk> Applies for Archive<D> {
    type Reader = D::Reader;

    ghost stands = { λ a m. Stands D.tells (parts D.Disk a) m };

    ghost leaves = { λ a e b. Leaves D.tells (parts D.Disk a) e (parts D.Disk b) };

    ghost sound = { λ a m s. s.sound };

    fn apply(&mut self, who: u64, act: Act) -> Answer<D::Reader> {
        self.apply(who, act)
    }
}
