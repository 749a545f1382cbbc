// The header lines of a raw text.
ghost use Rattle.std.specs.Prelude.{◌≡◌, ◌≤◌, ◌∷◌, ◌++◌, [], ℤ, Option, Some, None, IfOk, OnOk, OnErr, IsErrOf};
ghost use Rattle.std.specs.Prelude.{if◌then◌else◌};
ghost use Rattle.edge_io.specs.Stream.{Rose};
ghost use Rattle.act_model.specs.Out.{Subject};
ghost use Rattle.retrieval_query.specs.Raw.{header_of, line_of_header};
ghost use Rattle.retrieval_query.specs.Writing.{IsHeader, HasHead, Opens, OpensFront, Closes, ClosesFront};

use crate::put::put;
use act_model::OutErr;
use edge_io::{Sink, SinkBuffer};
use pb_lines::header_line;
use pb_messages::{About, PayloadInfo};
use series_model::Blob;
use std::alloc::{AllocError, Global};

/// What the header lines of a variable are made of.
#[derive(Drop)]
pub(crate) struct HeaderLines {
    info: PayloadInfo,
    // The year of the last header line.
    last: Option<i32>,
    // A header line, in the memory that one took before.
    line: Vec<u8>,
}

impl HeaderLines {
    /// No header line was put yet.
    pub(crate) fn new(
        alloc: Global,
        name: &[u8],
        about: &About,
        year: i32,
    ) -> Result<HeaderLines, AllocError>
        ensures info { IfOk result (λ head. (subject : Subject) → subject.name ≡ name.now → subject.about ≡ about.now
            → head.info ≡ header_of subject year) }
        ensures last { IfOk result (λ head. head.last ≡ None) }
    {
        Ok(HeaderLines {
            info: PayloadInfo {
                ty: about.ty,
                name: Blob::from(name.to_vec(alloc)?),
                year,
                count: about.count,
                headers: about.headers.clone()?,
            },
            last: None,
            line: Vec::new(alloc),
        })
    }

    /// Puts a header line of this year, unless the last one is of it.
    pub(crate) fn open<K: Sink>(
        &mut self,
        year: i32,
        buffer: &mut SinkBuffer,
        sink: &mut K,
    ) -> Result<(), OutErr>
        ensures opens { (subject : Subject) → IsHeader subject self.old.info
            → OnOk result
            (Opens (K.written sink.old) (K.written sink.new) buffer.old buffer.new subject self.old.last year) }
        ensures front { (subject : Subject) → IsHeader subject self.old.info
            → OnErr result
            (OpensFront (K.written sink.old) (K.written sink.new) buffer.old subject self.old.last year) }
        ensures info { (subject : Subject) → IsHeader subject self.old.info → IsHeader subject self.new.info }
        ensures last { OnOk result (self.new.last ≡ Some year) }
        ensures faults { K.write_faults sink.old ≤ K.write_faults sink.new }
        ensures cause { IsErrOf result OutErr.SinkFault → Rose (K.write_faults sink.old) (K.write_faults sink.new) }
    {
        if self.last == Some(year) {
            return Ok(());
        }
        self.info.year = year;
        self.line.clear();
        let Ok(()) = add_header(&self.info, self.last.is_some(), &mut self.line) else {
            return Err(OutErr::Memory);
        };
        put(buffer, &self.line, sink)?;
        self.last = Some(year);
        Ok(())
    }
}

/// Puts the header line of a text without samples, where the text has begun and no header line was put.
pub(crate) fn close<K: Sink>(
    head: &mut Option<HeaderLines>,
    buffer: &mut SinkBuffer,
    sink: &mut K,
) -> Result<(), OutErr>
    ensures closes { (subject : Subject) (last : Option ℤ) → HasHead subject head.old last
        → OnOk result (Closes (K.written sink.old) (K.written sink.new) buffer.old buffer.new subject last) }
    ensures front { (subject : Subject) (last : Option ℤ) → HasHead subject head.old last
        → OnErr result (ClosesFront (K.written sink.old) (K.written sink.new) buffer.old subject last) }
    ensures faults { K.write_faults sink.old ≤ K.write_faults sink.new }
    ensures cause { IsErrOf result OutErr.SinkFault → Rose (K.write_faults sink.old) (K.write_faults sink.new) }
{
    let Some(head) = head else {
        return Ok(());
    };
    if head.last.is_some() {
        return Ok(());
    }
    let year = head.info.year;
    head.open(year, buffer, sink)
}

// Appends a header line, behind an empty line where it is a later one.
fn add_header(info: &PayloadInfo, later: bool, line: &mut Vec<u8>) -> Result<(), AllocError>
    ensures { OnOk result
        (line.new.items ≡ line.old.items ++ ((if later then 10 ∷ [] else []) ++ line_of_header info.now)) }
{
    if later {
        line.push(b'\n')?;
    }
    header_line(info, line)
}
