// An output that writes the JSON text of an answer.
ghost use Rattle.std.specs.Prelude.{◌≡◌, ◌≤◌, ◌++◌, [], OnOk, OnErr, IsErrOf};
ghost use Rattle.edge_io.specs.Stream.{Rose, AppendsFront};
ghost use Rattle.edge_io.specs.Sent.{Sends};
ghost use Rattle.json_out.specs.Writing.{Gives, Finishes, Breaks};
ghost use Rattle.json_out.specs.Fronts.{gives_breaks};

use crate::event::{put_head, put_next, read_event};
use act_model::{Out, OutErr};
use edge_io::{PutErr, Sink, SinkBuffer};
use pb_messages::{About, PayloadType};
use series_model::Query;
use std::alloc::Global;

/// The JSON text of an answer, written to a sink in batches.
///
/// `SinkFault` comes only where the sink's count of failed writes rose. After an error a front of the text went out.
#[derive(Drop)]
pub struct JsonOut<'a, K> {
    alloc: Global,
    sink: &'a mut K,
    buffer: SinkBuffer,
    // The type of the samples, once the text has begun.
    ty: Option<PayloadType>,
    // Whether a sample was given.
    later: bool,
    // A piece of the text, and the message of a line, in the memory that they took before.
    piece: Vec<u8>,
    message: Vec<u8>,
}

impl<'a, K: Sink> JsonOut<'a, K> {
    /// Nothing is gathered for the sink. It takes no memory.
    pub fn new(alloc: Global, sink: &'a mut K) -> JsonOut<'a, K>
        ensures same_reference { result.sink.ghost_name ≡ sink.entry.ghost_name }
        ensures sink { result.sink.now ≡ sink.old }
        ensures gathered { result.buffer ≡ [] }
    {
        JsonOut {
            alloc,
            sink,
            buffer: SinkBuffer::new(alloc),
            ty: None,
            later: false,
            piece: Vec::new(alloc),
            message: Vec::new(alloc),
        }
    }

    /// Gives the sink back, as it is: what is gathered for it and didn't go out is given up.
    pub fn into_sink(self) -> &'a mut K
        ensures same_reference { result.ghost_name ≡ self.entry.sink.ghost_name }
        ensures sink { result.now ≡ self.entry.sink.now }
    {
        let JsonOut { sink, .. } = self;
        sink
    }
}

impl<'a, K: Sink> Out for JsonOut<'a, K> {
    ghost use Rattle.std.specs.Prelude.{List, ◌∷◌};
    ghost use Rattle.series_model.specs.declared.sample.Sample.{Sample};
    ghost use Rattle.act_model.specs.Event.{AreEvents};
    ghost use Rattle.act_model.specs.Out.{Subject, MayGive};

    ghost gave = { λ before subject xs now. (now.sink.ghost_name ≡ before.sink.ghost_name)
        × Gives (K.written before.sink.now)
        (K.written now.sink.now) before.buffer now.buffer now.ty now.later subject xs };

    ghost finished = { λ before subject xs now. (now.sink.ghost_name ≡ before.sink.ghost_name)
        × Finishes (K.written before.sink.now) (K.written now.sink.now) before.buffer now.buffer subject xs };

    ghost broke = { λ before subject xs now. (now.sink.ghost_name ≡ before.sink.ghost_name)
        × Breaks (K.written before.sink.now) (K.written now.sink.now) before.buffer subject xs };

    ghost faults = { λ out. K.write_faults out.sink.now };

    /// At `Memory` nothing of the text was taken; what was gathered before may have gone out in part.
    fn begin(&mut self, name: &[u8], about: &About, _query: Query) -> Result<(), OutErr>
        ensures begun { OnOk result (⟦<JsonOut<'a, K> as Out>⟧.gave self.old
            (record { name = name.now; about = about.now; query = _query }) [] self.new) }
        ensures broken { OnErr result ((all : List Sample) → AreEvents about.now.ty all
            → ⟦<JsonOut<'a, K> as Out>⟧.broke self.old
            (record { name = name.now; about = about.now; query = _query }) all self.new) }
        ensures faults { K.write_faults self.old.sink.now ≤ K.write_faults self.new.sink.now }
        ensures cause { IsErrOf result OutErr.SinkFault
            → Rose (K.write_faults self.old.sink.now) (K.write_faults self.new.sink.now) }
        ensures memory { IsErrOf result OutErr.Memory
            → Sends (K.written self.old.sink.now) (K.written self.new.sink.now) self.old.buffer self.new.buffer }
    {
        self.piece.clear();
        let Ok(()) = put_head(self.alloc, name, about.headers.items(), &mut self.piece) else {
            return Err(OutErr::Memory);
        };
        send(&mut self.buffer, &self.piece, self.sink)?;
        self.ty = Some(about.ty);
        self.later = false;
        Ok(())
    }

    /// At `Memory` nothing of the sample was taken; what was gathered before may have gone out in part.
    fn sample(&mut self, t: u64, line: &[u8]) -> Result<(), OutErr>
        requires event { MayGive ⟦<JsonOut<'a, K> as Out>⟧.gave self.old (record { t = t; line = line.now }) }
        ensures given { (before : _) (subject : Subject) (xs : List Sample)
            → ⟦<JsonOut<'a, K> as Out>⟧.gave before subject xs self.old
            → OnOk result
            (⟦<JsonOut<'a, K> as Out>⟧.gave before subject (xs ++ record { t = t; line = line.now } ∷ []) self.new) }
        ensures broken { (before : _) (subject : Subject) (xs more : List Sample)
            → AreEvents subject.about.ty (xs ++ record { t = t; line = line.now } ∷ more)
            → ⟦<JsonOut<'a, K> as Out>⟧.gave before subject xs self.old
            → OnErr result
            (⟦<JsonOut<'a, K> as Out>⟧.broke before subject (xs ++ record { t = t; line = line.now } ∷ more) self.new) }
        ensures faults { K.write_faults self.old.sink.now ≤ K.write_faults self.new.sink.now }
        ensures cause { IsErrOf result OutErr.SinkFault
            → Rose (K.write_faults self.old.sink.now) (K.write_faults self.new.sink.now) }
        ensures memory { IsErrOf result OutErr.Memory
            → Sends (K.written self.old.sink.now) (K.written self.new.sink.now) self.old.buffer self.new.buffer }
    {
        let Some(ty) = self.ty else {
            unreachable!();
        };
        let event = read_event(self.alloc, ty, t, line, &mut self.message)?;
        self.piece.clear();
        let Ok(()) = put_next(self.alloc, self.later, t, &event, &mut self.piece) else {
            return Err(OutErr::Memory);
        };
        send(&mut self.buffer, &self.piece, self.sink)?;
        self.later = true;
        Ok(())
    }

    /// At `Memory` nothing of the text's end was taken; what was gathered before may have gone out in part.
    fn finish(&mut self) -> Result<(), OutErr>
        ensures finished { (before : _) (subject : Subject) (xs : List Sample)
            → ⟦<JsonOut<'a, K> as Out>⟧.gave before subject xs self.old
            → OnOk result (⟦<JsonOut<'a, K> as Out>⟧.finished before subject xs self.new) }
        ensures broken { (before : _) (subject : Subject) (xs : List Sample)
            → ⟦<JsonOut<'a, K> as Out>⟧.gave before subject xs self.old
            → OnErr result (⟦<JsonOut<'a, K> as Out>⟧.broke before subject xs self.new) }
        ensures faults { K.write_faults self.old.sink.now ≤ K.write_faults self.new.sink.now }
        ensures cause { IsErrOf result OutErr.SinkFault
            → Rose (K.write_faults self.old.sink.now) (K.write_faults self.new.sink.now) }
        ensures memory { IsErrOf result OutErr.Memory
            → Sends (K.written self.old.sink.now) (K.written self.new.sink.now) self.old.buffer self.new.buffer }
    {
        send(&mut self.buffer, b"]}]\n", self.sink)?;
        let Ok(()) = self.buffer.finish(self.sink) else {
            return Err(OutErr::SinkFault);
        };
        Ok(())
    }

    ghost front = { λ before now subject xs more events gave. (
      gave.0,
      gives_breaks (K.written before.sink.now)
          (K.written now.sink.now) before.buffer now.buffer now.ty now.later subject xs more gave.1,
    ) };
}

// Takes a piece of the text for the sink. At `Memory` nothing of the piece was taken.
fn send<K: Sink>(buffer: &mut SinkBuffer, piece: &[u8], sink: &mut K) -> Result<(), OutErr>
    ensures sent { OnOk result (Sends (K.written sink.old) (K.written sink.new) (buffer.old ++ piece.now) buffer.new) }
    ensures front { OnErr result (AppendsFront (K.written sink.old) (K.written sink.new) (buffer.old ++ piece.now)) }
    ensures memory { IsErrOf result OutErr.Memory
        → Sends (K.written sink.old) (K.written sink.new) buffer.old buffer.new }
    ensures faults { K.write_faults sink.old ≤ K.write_faults sink.new }
    ensures cause { IsErrOf result OutErr.SinkFault → Rose (K.write_faults sink.old) (K.write_faults sink.new) }
{
    match buffer.put(piece, sink) {
        Ok(()) => Ok(()),
        Err(PutErr::SinkFault) => Err(OutErr::SinkFault),
        Err(PutErr::Memory) => Err(OutErr::Memory),
    }
}
