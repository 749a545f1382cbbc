// An output that writes the raw text of an answer.
ghost use Rattle.std.specs.Prelude.{◌≡◌, [], OnOk, OnErr};
ghost use Rattle.retrieval_query.specs.Writing.{Gives, Finishes, Breaks};
ghost use Rattle.retrieval_query.specs.Fronts.{gives_breaks};

use crate::head::{HeaderLines, close};
use crate::put::put_line;
use crate::year::nearest_year;
use act_model::{Out, OutErr};
use edge_io::{Sink, SinkBuffer};
use pb_messages::About;
use series_model::Query;
use std::alloc::Global;

/// The raw text of an answer, written to a sink in batches.
///
/// `SinkFault` comes only where the sink's count of failed writes rose. After an error a front of the text went out.
#[derive(Drop)]
pub struct RawOut<'a, K> {
    alloc: Global,
    sink: &'a mut K,
    buffer: SinkBuffer,
    // What header lines are made of, once the text has begun.
    head: Option<HeaderLines>,
}

impl<'a, K: Sink> RawOut<'a, K> {
    /// Nothing is gathered for the sink. It takes no memory.
    pub fn new(alloc: Global, sink: &'a mut K) -> RawOut<'a, K>
        ensures same_reference { result.sink.ghost_name ≡ sink.entry.ghost_name }
        ensures sink { result.sink.now ≡ sink.old }
        ensures gathered { result.buffer ≡ [] }
    {
        RawOut {
            alloc,
            sink,
            buffer: SinkBuffer::new(alloc),
            head: None,
        }
    }

    /// Gives the sink back, as it is: what is gathered for it and didn't go out is given up.
    pub fn into_sink(self) -> &'a mut K
        ensures same_reference { result.ghost_name ≡ self.entry.sink.ghost_name }
        ensures sink { result.now ≡ self.entry.sink.now }
    {
        let RawOut { sink, .. } = self;
        sink
    }
}

impl<'a, K: Sink> Out for RawOut<'a, K> {
    ghost gave = { λ before subject xs now. (now.sink.ghost_name ≡ before.sink.ghost_name)
        × Gives (K.written before.sink.now) (K.written now.sink.now) before.buffer now.buffer now.head subject xs };

    ghost finished = { λ before subject xs now. (now.sink.ghost_name ≡ before.sink.ghost_name)
        × Finishes (K.written before.sink.now) (K.written now.sink.now) before.buffer now.buffer subject xs };

    ghost broke = { λ before subject xs now. (now.sink.ghost_name ≡ before.sink.ghost_name)
        × Breaks (K.written before.sink.now) (K.written now.sink.now) before.buffer subject xs };

    ghost faults = { λ out. K.write_faults out.sink.now };

    fn begin(&mut self, name: &[u8], about: &About, query: Query) -> Result<(), OutErr> {
        let Ok(head) = HeaderLines::new(self.alloc, name, about, nearest_year(query.from)) else {
            return Err(OutErr::Memory);
        };
        self.head = Some(head);
        Ok(())
    }

    fn sample(&mut self, t: u64, line: &[u8]) -> Result<(), OutErr> {
        let Some(head) = &mut self.head else {
            unreachable!();
        };
        head.open(nearest_year(t), &mut self.buffer, self.sink)?;
        put_line(&mut self.buffer, line, self.sink)
    }

    fn finish(&mut self) -> Result<(), OutErr> {
        close(&mut self.head, &mut self.buffer, self.sink)?;
        let Ok(()) = self.buffer.finish(self.sink) else {
            return Err(OutErr::SinkFault);
        };
        Ok(())
    }

    ghost front = { λ before now subject xs more events gave. (
      gave.0,
      gives_breaks (K.written before.sink.now)
          (K.written now.sink.now) before.buffer now.buffer now.head subject xs more events gave.1,
    ) };
}
