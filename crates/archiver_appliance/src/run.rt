// A run of the program, from its words to its status.
ghost use Rattle.std.specs.Prelude.{◌≡◌, ◌↔◌, ◌≤◌, ◌<◌, ◌^◌, IsTrue, length, map};
ghost use Rattle.store_reopen.specs.Adoption.{NoneFiner, NoneFoundOpened};
ghost use Rattle.store_reopen.specs.Reopen.{IsUnopened, stores_of};
ghost use Rattle.command_words.specs.declared.command.Command.{Command as CommandValue};
ghost use Rattle.command_words.specs.declared.command.Command.TheVariants.{OverStore};
ghost use Rattle.command_words.specs.declared.command.StoreCommand.TheVariants as asked;
ghost use Rattle.command_words.specs.declared.service_words.ServeWords.{ServeWords as Numbers};
ghost use Rattle.command_words.specs.declared.status.Status.{Status as StatusValue};
ghost use Rattle.command_words.specs.Command.{IsCommand, IsFaulty};
ghost use Rattle.archiver_appliance.specs.Outside.{outside, IsQuiet, NoneFell};
ghost use Rattle.command_words.specs.Status.{number_of};
ghost use Rattle.archiver_appliance.specs.Run.{Ran, CanBeDone};
ghost use Rattle.archiver_appliance.specs.Run.{AreDoorsQuiet, EndsWellBy};
ghost use Rattle.archiver_appliance.specs.Obeying.{ObeysWords, ServesOver};
ghost use Rattle.archiver_appliance.specs.World.{world, TouchesOnly};

use crate::drilling::run_drill;
use crate::opened::{Came, over_archive};
use command_words::{Command, Status, command_of, complain};
use disk_model::Disk;
use edge_io::{Clock, Door, Sink, Source};
use etl_rules::Config;
use service::Post;
use service_watch::Logged;
use std::alloc::Global;
use std::sync::Wait;
use std::thread::Threads;
use stream_extract::extract;

/// What a run came to.
#[derive(Drop)]
pub struct Ended<D: Disk> {
    /// The number that the program ends with.
    pub status: u8,
    /// The disk that was handed in.
    pub disk: D,
    /// An opened file of which a read failed, which it has counted. It comes with status 7 alone.
    pub failed: Option<D::Reader>,
}

/// Does what the words ask for, tells its complaint, and answers the status that the program ends with.
///
/// | Status | When |
/// |---|---|
/// | 0 | all of it was done |
/// | 2 | the words are of no command; nothing is read, written or opened |
/// | 3 | `extract`, `ingest`: the input's first bad line |
/// | 4 | `get`: no row has the name |
/// | 5, 6, 7 | the source's, the sink's or the disk's count of faults rose, or that of a file in `failed` |
/// | 8 | the disk is damaged, or a file that it lists |
/// | 9 | memory was wanting |
/// | 11 | `serve`: a door's count of faults rose |
/// | 12 | the disk keeps another granularity than the configured one |
/// | 13 | `serve`, `drill`: no act was left to make, of the 2^63 - 1 that there are |
///
/// `serve` serves the posts to the ends of their doors; every other command leaves them as they are. Of what befell a
/// service it tells the first of 11, 7, 9 and 13.
///
/// It needs a disk of which no journal was opened, and no listed file beyond its listed length, and leaves it
/// so. For `adopt` it needs too that no unlisted file was opened, and leaves it so, and that no store has
/// partitions of five minutes.
pub fn run<
    R: Threads + Wait + Sync,
    S: Source,
    K: Sink,
    E: Sink,
    D: Disk + Send,
    C: Clock + Drop + Send,
    W: Door + Logged + Send,
>(
    rt: &R,
    alloc: Global,
    words: &[&str],
    config: &Config,
    source: &mut S,
    sink: &mut K,
    complaints: &mut E,
    disk: D,
    clock: &mut C,
    posts: &mut [Post<W>],
) -> Ended<D>
where
    D::Reader: Send,
    W::L: Send,
    requires few { length posts.old < 2 ^ 32 }
    requires unopened { IsTrue D.tells → IsUnopened (D.files disk) (D.opened disk) }
    requires found { IsCommand (map (λ w. w.now) words.now) (OverStore asked.Adopt) → IsTrue D.tells
        → NoneFoundOpened (stores_of config.now) (D.files disk) (D.opened disk) }
    requires coarse { IsCommand (map (λ w. w.now) words.now) (OverStore asked.Adopt) → NoneFiner config.now }

    ensures ran { Ran D.Reader.faults (map (λ w. w.now) words.now) config.now D.tells
        (outside S.Source K.Sink C.Clock D.Disk source.old sink.old clock.old disk)
        (outside S.Source K.Sink C.Clock D.Disk source.new sink.new clock.new result.disk) result.failed
        (E.written complaints.old) (E.written complaints.new)
        (E.write_faults complaints.old) (E.write_faults complaints.new) result.status }
    ensures faults { NoneFell (outside S.Source K.Sink C.Clock D.Disk source.old sink.old clock.old disk)
        (outside S.Source K.Sink C.Clock D.Disk source.new sink.new clock.new result.disk)
        × (E.write_faults complaints.old ≤ E.write_faults complaints.new) }

    ensures usage { (result.status ≡ 2) ↔ IsFaulty (map (λ w. w.now) words.now) }
    ensures touches { TouchesOnly C.coming (world source.old sink.old disk clock.old posts.old)
        (world source.new sink.new result.disk clock.new posts.new) (map (λ w. w.now) words.now) config.now D.tells
        (D.files disk) result.status }
    ensures serves { (numbers : Numbers) → IsCommand (map (λ w. w.now) words.now) (OverStore (asked.Serve numbers))
        → (status : StatusValue) × (result.status ≡ number_of status)
        × ServesOver S.Source K.Sink D.Disk C.Clock D.Reader.ReadAt W.L.Source W.L.Sink W.Door config.now
        (world source.old sink.old disk clock.old posts.old)
        (world source.new sink.new result.disk clock.new posts.new) status }

    // Where no count rose, each command is done that can be, or memory was wanting.
    ensures complete { (command : CommandValue) → IsCommand (map (λ w. w.now) words.now) command
        → CanBeDone config.now D.tells command
        (outside S.Source K.Sink C.Clock D.Disk source.old sink.old clock.old disk)
        → IsQuiet command (outside S.Source K.Sink C.Clock D.Disk source.old sink.old clock.old disk)
        (outside S.Source K.Sink C.Clock D.Disk source.new sink.new clock.new result.disk) result.failed
        → AreDoorsQuiet W.door_faults command posts.old posts.new
        → EndsWellBy command result.status }

    ensures unopened { IsTrue D.tells → IsUnopened (D.files result.disk) (D.opened result.disk) }
{
    let came = obey(rt, alloc, words, config, source, sink, disk, clock, posts);
    complain(&came.status, complaints);
    Ended {
        status: came.status.number(),
        disk: came.disk,
        failed: came.failed,
    }
}

// Does what the words ask for.
fn obey<
    R: Threads + Wait + Sync,
    S: Source,
    K: Sink,
    D: Disk + Send,
    C: Clock + Drop + Send,
    W: Door + Logged + Send,
>(
    rt: &R,
    alloc: Global,
    words: &[&str],
    config: &Config,
    source: &mut S,
    sink: &mut K,
    disk: D,
    clock: &mut C,
    posts: &mut [Post<W>],
) -> Came<D>
where
    D::Reader: Send,
    W::L: Send,
    requires few { length posts.old < 2 ^ 32 }
    requires unopened { IsTrue D.tells → IsUnopened (D.files disk) (D.opened disk) }
    requires found { IsCommand (map (λ w. w.now) words.now) (OverStore asked.Adopt) → IsTrue D.tells
        → NoneFoundOpened (stores_of config.now) (D.files disk) (D.opened disk) }
    requires coarse { IsCommand (map (λ w. w.now) words.now) (OverStore asked.Adopt) → NoneFiner config.now }
    ensures { ObeysWords S.Source K.Sink D.Disk C.Clock D.Reader.ReadAt W.L.Source W.L.Sink W.Door config.now
        (world source.old sink.old disk clock.old posts.old)
        (world source.new sink.new result.disk clock.new posts.new) (map (λ w. w.now) words.now) result.status
        result.failed }
{
    match command_of(words) {
        None => Came {
            status: Status::Usage,
            disk,
            failed: None,
        },
        Some(Command::Extract { query }) => Came {
            status: extract(alloc, query, source, sink),
            disk,
            failed: None,
        },
        Some(Command::Drill(drill)) => Came {
            status: run_drill(rt, alloc, drill, sink),
            disk,
            failed: None,
        },
        Some(Command::OverStore(command)) => {
            over_archive(rt, alloc, config, command, source, sink, disk, clock, posts)
        }
    }
}
