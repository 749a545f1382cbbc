// What a drill's archive holds in the end, as a text.
ghost use Rattle.std.specs.Prelude.{◌≡◌, ◌<◌, ◌+◌, ◌++◌, [], ◌∷◌, ℕ, List, IfOk, OnOk};
ghost use Rattle.series_model.specs.declared.sample.Query.{Query as QueryValue};
ghost use Rattle.act_model.specs.Machine.{Machine};
ghost use Rattle.archive_core.specs.Parts.{parts};
ghost use Rattle.archive_core.specs.Stands.{Stands};
ghost use Rattle.drill_feed.specs.Report.{tiers_text};
ghost use Rattle.drill_feed.specs.Workload.{name_text};
ghost use Rattle.archiver_appliance.specs.Drilling.{CameTo, HasFiles, HasTally, IsLine, Tells, TellsOn, TellsVariable};
ghost use Rattle.archiver_appliance.specs.Drilling.{added, query_of, tiers_of, told_u32};
ghost use Rattle.archiver_appliance.specs.Tallying.{IsEarly};

use crate::tallying::TallyOut;
use act_model::{DetailsTold, ask_details};
use archive_actors::Alone;
use archive_core::Archive;
use disk_model::Disk;
use drill_feed::{Drill, START, Tally, Tiers, VARIABLES, name_of, tiers_line, variable_line};
use retrieval_query::{Retrieved, retrieve};
use series_model::{Blob, Query};
use std::alloc::{AllocError, Global};

/// The text of what the archive holds: a line for each variable, and one for the files of each store. It fails for want
/// of memory, or of the disk, which is the drill's own; one who acts alone never lacks acts.
pub fn report<D: Disk>(
    alloc: Global,
    archive: &mut Archive<D>,
    drill: Drill,
) -> Result<Vec<u8>, AllocError>
    requires stands { (m : Machine) × Stands D.tells (parts D.Disk archive.old) m }
    ensures tells { IfOk result (λ text. TellsOn D.Disk archive.old archive.new (λ m entries. (lines files : List ℕ)
        × Tells m entries drill.hours 4 lines files
        × (text.items ≡ lines ++ tiers_text (tiers_of files)))) }
{
    let mut text = Vec::new(alloc);
    let mut files = [0; 3];
    for variable in 0..VARIABLES {
        put_variable(alloc, archive, drill, variable, &mut text, &mut files)?;
    }
    let [short, medium, long] = files;
    let tiers = Tiers {
        short,
        medium,
        long,
    };
    text.extend_from_slice(&tiers_line(alloc, tiers)?)?;
    Ok(text)
}

// Puts the line of one more variable, and adds its files.
fn put_variable<D: Disk>(
    alloc: Global,
    archive: &mut Archive<D>,
    drill: Drill,
    variable: u32,
    text: &mut Vec<u8>,
    files: &mut [u32; 3],
) -> Result<(), AllocError>
    requires known { variable < VARIABLES }
    requires stands { (m : Machine) × Stands D.tells (parts D.Disk archive.old) m }
    ensures stands { (m : Machine) × Stands D.tells (parts D.Disk archive.new) m }
    ensures tells { OnOk result (TellsOn D.Disk archive.old archive.new (λ m entries. (line more : List ℕ)
        × TellsVariable m entries drill.hours variable line more × (text.new.items ≡ text.old.items ++ line)
        × (files.new ≡ added files.old more))) }
{
    let name = name_of(variable);
    let query = Query {
        from: START,
        to: drill.now(),
    };
    let tally = tally_of(alloc, archive, name, query)?;
    text.extend_from_slice(&line_of(alloc, name, tally)?)?;
    let more = files_of(alloc, archive, name)?;
    add(files, more);
    Ok(())
}

// What is counted of a variable's samples.
fn tally_of<D: Disk>(
    alloc: Global,
    archive: &mut Archive<D>,
    name: &str,
    query: Query,
) -> Result<Option<Tally>, AllocError>
    requires stands { (m : Machine) × Stands D.tells (parts D.Disk archive.old) m }
    ensures stands { (m : Machine) × Stands D.tells (parts D.Disk archive.new) m }
    ensures early { IfOk result IsEarly }
    ensures tally { IfOk result (λ tally.
        TellsOn D.Disk archive.old archive.new (λ m entries. CameTo m entries (HasTally name.now query tally))) }
{
    let mut actor = Alone::new(archive, 0);
    let mut out = TallyOut::new();
    match retrieve(alloc, &mut actor, name.as_bytes(), query, &mut out) {
        Retrieved::Finished { .. } => Ok(out.tally()),
        _ => Err(AllocError),
    }
}

// The line of a variable.
fn line_of(alloc: Global, name: &str, tally: Option<Tally>) -> Result<Vec<u8>, AllocError>
    requires early { IsEarly tally }
    ensures { IfOk result (λ line. IsLine name.now tally line.items) }
{
    match tally {
        Some(tally) => variable_line(alloc, name, tally),
        None => empty_line(alloc, name),
    }
}

// The line of a variable without samples.
fn empty_line(alloc: Global, name: &str) -> Result<Vec<u8>, AllocError>
    ensures { IfOk result (λ line. IsLine name.now None line.items) }
{
    let mut line = Vec::from_slice(alloc, name.as_bytes())?;
    line.extend_from_slice(b" 0\n")?;
    Ok(line)
}

// How many files each store lists of a variable.
fn files_of<D: Disk>(
    alloc: Global,
    archive: &mut Archive<D>,
    name: &str,
) -> Result<[u64; 3], AllocError>
    requires stands { (m : Machine) × Stands D.tells (parts D.Disk archive.old) m }
    ensures stands { (m : Machine) × Stands D.tells (parts D.Disk archive.new) m }
    ensures files { IfOk result (λ files.
        TellsOn D.Disk archive.old archive.new (λ m entries. CameTo m entries (HasFiles name.now files))) }
{
    let name = Blob::from(Vec::from_slice(alloc, name.as_bytes())?);
    let mut actor = Alone::new(archive, 0);
    match ask_details(&mut actor, name) {
        Ok(DetailsTold::Described(details)) => Ok(details.files),
        Ok(_) => Err(AllocError),
        Err(_) => Err(AllocError),
    }
}

// Adds numbers of files. Each stays at its last value.
fn add(files: &mut [u32; 3], more: [u64; 3])
    ensures { files.new ≡ added files.old more }
{
    *files = [
        sum(files[0], more[0]),
        sum(files[1], more[1]),
        sum(files[2], more[2]),
    ];
}

fn sum(files: u32, more: u64) -> u32
    ensures { result ≡ told_u32 (files + more) }
{
    match u32::try_from(more) {
        Ok(more) => files.saturating_add(more),
        Err(_) => u32::MAX,
    }
}
