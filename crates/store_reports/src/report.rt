// What a check tells: a line for each file, and the first damaged one.
ghost use Rattle.std.specs.Prelude.{◌≡◌, ◌≤◌, ◌<◌, [], ◌++◌, length, codes, decimal, None, OnOk, IsErrOf};
ghost use Rattle.std.specs.Option.{option_or};
ghost use Rattle.edge_io.specs.Stream.{Rose, AppendsFront};
ghost use Rattle.edge_io.specs.Sent.{Sends};
ghost use Rattle.durable_write.specs.Held.{file_of};
ghost use Rattle.store_reports.specs.Check.{damage_of, file_line, finding_text};

use disk_model::FileName;
use durable_write::file_name;
use edge_io::{PutErr, Sink, SinkBuffer};
use itoa::Buffer;
use pv_catalog::Row;
use std::alloc::{AllocError, Global};
use store_manifest::Entry;

/// What a listed file is found to be.
#[derive(Clone, Copy, Debug, PartialEq, Eq)]
pub enum Finding {
    /// One of its partition, of so many samples.
    Good { count: u64 },
    /// Its first line that fails begins at this place.
    Damaged { at: u64 },
}

/// A damaged file.
#[derive(Drop)]
pub struct Damage {
    pub name: FileName,
    /// Where its first line that fails begins.
    pub at: u64,
}

// What is told so far: bytes that are gathered, and the first damaged file.
#[derive(Drop)]
pub(crate) struct Report {
    line: Vec<u8>,
    pub(crate) buffer: SinkBuffer,
    pub(crate) first: Option<Damage>,
}

impl Report {
    pub(crate) fn new(alloc: Global) -> Report
        ensures buffer { result.buffer ≡ [] }
        ensures first { result.first ≡ None }
    {
        Report {
            line: Vec::new(alloc),
            buffer: SinkBuffer::new(alloc),
            first: None,
        }
    }

    // Tells the file of an entry that a store lists.
    pub(crate) fn tell<K: Sink>(
        &mut self,
        alloc: Global,
        number: u8,
        rows: &[Row],
        entry: &Entry,
        finding: Finding,
        sink: &mut K,
    ) -> Result<(), PutErr>
        requires { entry.now.series < length rows.now }
        ensures line { OnOk result (Sends (K.written sink.old) (K.written sink.new)
            (self.old.buffer ++ file_line (file_of (number, rows.now) entry.now) finding) self.new.buffer) }
        ensures first { OnOk result
            (self.new.first ≡ option_or self.old.first (damage_of (file_of (number, rows.now) entry.now) finding)) }
        ensures memory { IsErrOf result PutErr.Memory
            → Sends (K.written sink.old) (K.written sink.new) self.old.buffer self.new.buffer }
        ensures fault { IsErrOf result PutErr.SinkFault
            → AppendsFront (K.written sink.old) (K.written sink.new)
            (self.old.buffer ++ file_line (file_of (number, rows.now) entry.now) finding) }
        ensures faults { K.write_faults sink.old ≤ K.write_faults sink.new }
        ensures cause { IsErrOf result PutErr.SinkFault → Rose (K.write_faults sink.old) (K.write_faults sink.new) }
    {
        let name = file_name(alloc, number, rows, entry)?;
        fill_line(&mut self.line, &name, finding)?;
        self.buffer.put(&self.line, sink)?;
        keep_first(&mut self.first, name, finding);
        Ok(())
    }
}

// Takes the file for the first damaged one if it is.
fn keep_first(first: &mut Option<Damage>, name: FileName, finding: Finding)
    ensures { first.new ≡ option_or first.old (damage_of name finding) }
{
    if first.is_some() {
        return;
    }
    if let Finding::Damaged { at } = finding {
        *first = Some(Damage { name, at });
    }
}

// Makes the line that of a file, in the memory that it has.
fn fill_line(line: &mut Vec<u8>, name: &FileName, finding: Finding) -> Result<(), AllocError>
    ensures { OnOk result (line.new.items ≡ file_line name.now finding) }
{
    let mut digits = Buffer::new();
    line.clear();
    line.extend_from_slice(digits.format(name.store).as_bytes())?;
    line.extend_from_slice(b" ")?;
    line.extend_from_slice(&name.path)?;
    line.extend_from_slice(b" ")?;
    add_finding(line, finding)?;
    line.extend_from_slice(b"\n")?;
    Ok(())
}

fn add_finding(line: &mut Vec<u8>, finding: Finding) -> Result<(), AllocError>
    ensures { OnOk result (line.new.items ≡ line.old.items ++ finding_text finding) }
{
    let mut digits = Buffer::new();
    match finding {
        Finding::Good { count } => {
            line.extend_from_slice(b"ok ")?;
            line.extend_from_slice(digits.format(count).as_bytes())
        }
        Finding::Damaged { at } => {
            line.extend_from_slice(b"damaged ")?;
            line.extend_from_slice(digits.format(at).as_bytes())
        }
    }
}
