// The text of a merge's answer, sample by sample.
ghost use Rattle.std.specs.Prelude.{◌≡◌, ◌≤◌, ◌<◌, [], IsTrue, IsErrOf, Err, List, ℕ};
ghost use Rattle.disk_model.specs.Files.{Rose};
ghost use Rattle.series_model.specs.declared.sample.Sample.{Sample as SampleValue};
ghost use Rattle.act_model.specs.Event.{AreEvents};
ghost use Rattle.stream_merge.specs.Pieces.{NamedBytes};
ghost use Rattle.stream_merge.specs.Merging.{IsGoing, Rest, line_from};
ghost use Rattle.stream_merge.specs.Reads.{HasGiven};
ghost use Rattle.retrieval_query.specs.Giving.{GivesBy, Gives, GivesReadAt, GivesSome};

use crate::retrieved::{Retrieved, stopped_by};
use act_model::Out;
use pb_file::Steps;
use pb_messages::About;
use series_model::Query;
use std::alloc::Global;
use std::sync::ledger::{Blank, Ledger};
use stream_merge::{Merge, Merged, Pieces};

/// Begins the text of an answer and gives it the samples of a merge, up to the merge's end. Tells how many these were.
pub(crate) fn give_answer<P: Pieces, O: Out, L: Ledger>(
    alloc: Global,
    pieces: &mut P,
    mut merge: Merge<P::Reader>,
    name: &[u8],
    about: &About,
    query: Query,
    out: &mut O,
    blank: Blank,
) -> Result<u64, Retrieved<P::Reader>>
    requires ledger_name { blank.name ≡ L.name }
    requires parts { blank.parts ≡ L.parts }
    requires some { 0 < blank.parts }
    requires going { IsGoing P.Reader.tells P.Reader.bytes merge }
    requires none_open { merge.source.piece ≡ None }
    requires ty { merge.source.ty ≡ about.now.ty }
    requires may { P.may_open pieces.old }
    ensures gives { GivesBy P.Reader.tells P.Reader.faults P.opened P.failed about.now.ty pieces.old result pieces.new }
    ensures gave { GivesSome O.gave O.broke out.old
        (record { name = name.now; about = about.now; query = query }) result out.new }
    ensures whole { IsTrue P.Reader.tells → (ps : List NamedBytes) (xs : List SampleValue) → P.left pieces.old ps
        → Rest P.Reader.bytes merge ps xs → AreEvents about.now.ty xs
        → Gives O.gave O.broke out.old
        (record { name = name.now; about = about.now; query = query }) xs result out.new }
    ensures reads { IsTrue P.Reader.tells → merge.query ≡ query
        → HasGiven P.Reader.bytes merge (P.count pieces.old) [] []
        → GivesReadAt P.opened O.gave query (P.count pieces.new) merge.source.tail.items out.old
        (record { name = name.now; about = about.now; query = query }) pieces.old result pieces.new out.new }
    ensures faults { O.faults out.old ≤ O.faults out.new }
    ensures cause { IsErrOf result Retrieved.SinkFault → Rose (O.faults out.old) (O.faults out.new) }
{
    out.begin(name, about, query)?;
    let mut steps = Steps::<L>::new(blank);
    let mut line = Vec::new(alloc);
    let mut count = 0;
    'lines: loop {
        if let Some((t, held)) = merge.held(&mut line) {
            let len = held.len();
            out.sample(t, held)?;
            merge.pass(t, len, &mut steps);
            count += 1;
            continue;
        }
        match merge.next(pieces, &mut line, &mut steps) {
            Merged::Line { t } => {
                out.sample(t, &line)?;
                count += 1;
            }
            Merged::End => return Ok(count),
            merged => return Err(stopped_by(merged)),
        }
    }
}
