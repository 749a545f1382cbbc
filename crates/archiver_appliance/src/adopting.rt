// `adopt`: files that no manifest lists are taken over where they stand.
ghost use Rattle.std.specs.Prelude.{◌≡◌, ◌≤◌, ◌⊎◌, ℕ, List, Option, None, IsTrue};
ghost use Rattle.std.specs.Io.KnownBytes.{Appends};
ghost use Rattle.disk_model.specs.Files.{Rose as DiskRose};
ghost use Rattle.edge_io.specs.Moments.{Moments};
ghost use Rattle.edge_io.specs.Stream.{Rose, AppendsFront};
ghost use Rattle.store_reopen.specs.Adoption.{NoneFiner, NoneFoundOpened, adopt_disk_in};
ghost use Rattle.store_reopen.specs.Reopen.{IsUnopened, stores_of};
ghost use Rattle.command_words.specs.Status.{number_of};
ghost use Rattle.command_words.specs.declared.command.Command.TheVariants.{OverStore};
ghost use Rattle.command_words.specs.declared.command.StoreCommand.TheVariants as asked;
ghost use Rattle.archiver_appliance.specs.Adopting.{adopted_text, beside, stop_of};
ghost use Rattle.archiver_appliance.specs.Outside.{IsCausedBy};
ghost use Rattle.archiver_appliance.specs.Run.{Does, IsRefused};

use crate::opened::{Came, refused};
use command_words::{Status, write_pieces};
use disk_model::Disk;
use edge_io::Sink;
use etl_rules::Config;
use itoa::Buffer;
use std::alloc::Global;
use store_reopen::laws::one_verdict;
use store_reopen::{AdoptErr, Adopted, adopt};

/// Opens the disk, takes over the files that no manifest lists, and tells how many. Nothing is
/// asked of a source and a clock.
pub fn adopt_found<K: Sink, D: Disk>(
    alloc: Global,
    config: &Config,
    disk: D,
    sink: &mut K,
) -> Came<D>
    requires unopened { IsTrue D.tells → IsUnopened (D.files disk) (D.opened disk) }
    requires found { IsTrue D.tells → NoneFoundOpened (stores_of config.now) (D.files disk) (D.opened disk) }
    requires coarse { NoneFiner config.now }
    ensures does { (source : Option (List ℕ)) (clock : Option Moments) (reads : ℕ)
        → Does config.now D.tells (OverStore asked.Adopt) (beside source clock reads K.Sink D.Disk sink.old disk)
        (beside source clock reads K.Sink D.Disk sink.new result.disk) result.status }
    ensures refused { IsRefused config.now D.tells (D.files disk) (number_of result.status) → sink.new ≡ sink.old }
    ensures caused { IsCausedBy D.Reader.faults ⊥ (Rose (K.write_faults sink.old) (K.write_faults sink.new))
        (DiskRose (D.faults disk) (D.faults result.disk)) result.status result.failed }
    ensures write_faults { K.write_faults sink.old ≤ K.write_faults sink.new }
    ensures disk_faults { D.faults disk ≤ D.faults result.disk }
    ensures unopened { IsTrue D.tells → IsUnopened (D.files result.disk) (D.opened result.disk) }
{
    one_verdict();
    match adopt(alloc, disk, config) {
        Ok((store, adopted)) => Came {
            status: tell_adopted(adopted, sink),
            disk: store.into_disk(),
            failed: None,
        },
        Err(err) => stopped(err),
    }
}

// What an adoption comes to that wasn't begun, or was cut off.
fn stopped<D: Disk>(err: AdoptErr<D>) -> Came<D>
    ensures status { result.status ≡ stop_of err }
    ensures disk { result.disk ≡ adopt_disk_in err }
    ensures failed { result.failed ≡ None }
{
    match err {
        AdoptErr::Reopen(err) => refused(err),
    }
}

// Writes the five numbers. It takes no memory.
fn tell_adopted<K: Sink>(adopted: Adopted, sink: &mut K) -> Status
    ensures told { ((result ≡ Status.Done) × Appends (K.written sink.old) (K.written sink.new) (adopted_text adopted))
        ⊎ ((result ≡ Status.SinkFault)
        × AppendsFront (K.written sink.old) (K.written sink.new) (adopted_text adopted)) }
    ensures failed { result ≡ Status.SinkFault → Rose (K.write_faults sink.old) (K.write_faults sink.new) }
    ensures faults { K.write_faults sink.old ≤ K.write_faults sink.new }
{
    let mut files = Buffer::new();
    let mut samples = Buffer::new();
    let mut rows = Buffer::new();
    let mut skipped = Buffer::new();
    let mut cut = Buffer::new();
    let pieces = [
        b"adopted ".as_slice(),
        files.format(adopted.files).as_bytes(),
        b" ",
        samples.format(adopted.samples).as_bytes(),
        b" ",
        rows.format(adopted.rows).as_bytes(),
        b" skipped ",
        skipped.format(adopted.skipped).as_bytes(),
        b" cut ",
        cut.format(adopted.cut).as_bytes(),
        b"\n",
    ];
    match write_pieces(&pieces, sink) {
        Ok(()) => Status::Done,
        Err(_) => Status::SinkFault,
    }
}
