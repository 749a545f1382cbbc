// The bytes of a feed: one chunk, of one variable.
ghost use Rattle.std.specs.Prelude.{◌≡◌, ◌<◌, ◌^◌, ◌∷◌, [], ◌++◌, IfOk, None, OnOk};
ghost use Rattle.line_escape.specs.Escaping.{escaped};
ghost use Rattle.pb_messages.specs.Spelling.{event_text};
ghost use Rattle.pb_lines.specs.File.{lines_of};
ghost use Rattle.pb_lines.specs.Stream.{IsWholeStream};
ghost use Rattle.drill_feed.specs.Workload.{chunk_text, event, header_of, items_of, samples};

use crate::draws::Draws;
use crate::drill::{Drill, VARIABLES, name_of};
use line_escape::escape;
use pb_lines::header_line;
use pb_messages::{Event, PayloadInfo, PayloadType, Value, encode};
use series_model::{Blob, Pairs};
use std::alloc::{AllocError, Global};

// The year of all samples.
const YEAR: i32 = 2024;

impl Drill {
    /// The bytes of a variable's feed: the stream of one chunk, its header and then its samples, and nothing else. One
    /// buffer is kept for the message of each sample, so that beside it only the bytes themselves take memory.
    pub fn chunk(self, alloc: Global, variable: u32) -> Result<Vec<u8>, AllocError>
        requires { variable < VARIABLES }
        ensures bytes { IfOk result (λ bytes. bytes.items ≡ chunk_text self.hours variable) }
        ensures stream { IfOk result (λ bytes. IsWholeStream bytes.items (items_of self.hours variable) None) }
    {
        let mut bytes = Vec::new(alloc);
        header_line(&header_of(alloc, variable)?, &mut bytes)?;
        self.put_samples(alloc, variable, &mut bytes)?;
        Ok(bytes)
    }

    // Appends the lines of a variable's samples. Of four numbers that are drawn one is the variable's.
    fn put_samples(self, alloc: Global, variable: u32, out: &mut Vec<u8>) -> Result<(), AllocError>
        requires { variable < VARIABLES }
        ensures { OnOk result (out.new.items ≡ out.old.items ++ lines_of (samples self.hours variable)) }
    {
        let mut message = Vec::new(alloc);
        let mut draws = Draws { last: self.hours };
        draws.skip(variable);
        for minute in 0..self.minutes() {
            let value = draws.next();
            put_sample(60 * minute + variable, value, &mut message, out)?;
            draws.skip(VARIABLES - 1);
        }
        Ok(())
    }
}

// The header of a variable's chunk.
fn header_of(alloc: Global, variable: u32) -> Result<PayloadInfo, AllocError>
    requires { variable < VARIABLES }
    ensures { IfOk result (λ info. info ≡ header_of variable) }
{
    let name = Vec::from_slice(alloc, name_of(variable).as_bytes())?;
    Ok(PayloadInfo {
        ty: PayloadType::ScalarInt,
        name: Blob::from(name),
        year: YEAR,
        count: None,
        headers: Pairs::from(Vec::new(alloc)),
    })
}

// Appends the line of one sample with its newline. `message` is scratch space, whose room is kept.
fn put_sample(
    second: u32,
    value: u32,
    message: &mut Vec<u8>,
    out: &mut Vec<u8>,
) -> Result<(), AllocError>
    requires { value < 2 ^ 31 }
    ensures { OnOk result (out.new.items ≡ out.old.items ++ (escaped (event_text (event second value)) ++ 10 ∷ [])) }
{
    let event = Event {
        secs: second,
        nano: 0,
        val: Value::Int(value as i32),
        severity: 0,
        status: 0,
        repeat: None,
        fields: Pairs::from(Vec::new(*out.allocator())),
        actual_change: None,
    };
    message.clear();
    encode(PayloadType::ScalarInt, &event, message)?;
    escape(message, out)?;
    out.push(b'\n')?;
    Ok(())
}
