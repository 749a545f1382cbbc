// What acts are answered, as text: a word or two, and the numbers of the answer in their order.
use act_model::{Answer, Details};
use anyhow::{Context, Result, bail};
use disk_model::{FileName, MemFile, ReadAt};
use pv_name::PvName;
use retrieval_query::Retrieved;
use series_model::{Blobs, Samples};
use std::alloc::Global;
use std::fmt::{Display, Write as _};
use std::str;

/// A text that grows, and whether memory was wanting for a part of it.
#[derive(Drop)]
pub(crate) struct Text {
    text: String,
    is_short: bool,
}

impl Text {
    pub(crate) fn new(alloc: Global) -> Text {
        Text {
            text: String::new(alloc),
            is_short: false,
        }
    }

    pub(crate) fn put<D: Display + Drop>(&mut self, shown: D) {
        self.is_short |= write!(self.text, "{shown}").is_err();
    }

    pub(crate) fn is_empty(&self) -> bool {
        self.text.is_empty()
    }

    /// The text, if it is whole.
    pub(crate) fn into_string(self) -> Result<String> {
        let whole = if self.is_short { None } else { Some(self.text) };
        whole.context("no memory")
    }
}

/// Bytes that are text, as names and paths are.
pub(crate) fn text_of(bytes: &[u8]) -> &str {
    str::from_utf8(bytes).unwrap_or("no text")
}

/// Bytes in hexadecimal digits, with a comma for each newline.
pub(crate) fn put_bytes(text: &mut Text, bytes: &[u8]) {
    for byte in bytes {
        match byte {
            b'\n' => text.put(','),
            _ => text.put(format_args!("{byte:02x}")),
        }
    }
}

/// Puts a file, and a place in it.
pub(crate) fn put_damage(text: &mut Text, name: &FileName, at: u64) {
    let path = text_of(&name.path);
    text.put(format_args!("damaged {}/{path} at {at}", name.store));
}

fn put_details(text: &mut Text, details: &Details) {
    let (name, about) = (text_of(details.name.bytes()), &details.about);
    text.put(format_args!("described {name} {} {:?}", about.ty.name(), about.method));
    text.put(format_args!(" count {:?}", about.count));
    for (name, value) in about.headers.items() {
        text.put(format_args!(" {}={}", text_of(name.bytes()), text_of(value.bytes())));
    }
    text.put(format_args!(" {:?} accepted {}", details.state, details.accepted));
    text.put(format_args!(" durable {} files {:?}", details.durable, details.files));
    text.put(format_args!(" from {:?} to {:?}", details.first, details.last));
}

// Puts how much of a piece is read, and that.
fn put_read(alloc: Global, text: &mut Text, mut reader: MemFile, len: u64) -> Result<()> {
    let mut bytes = vec![in alloc; 0u8; len as usize]?;
    let Ok(read) = reader.read_at(0, &mut bytes) else {
        bail!("no read");
    };
    text.put(format_args!("{read} "));
    put_bytes(text, &bytes);
    Ok(())
}

fn put_pin(text: &mut Text, pin: u32, name: &PvName, pieces: u64, tail: &Samples) {
    let name = text_of(name.bytes());
    text.put(format_args!("pinned {pin} {name} pieces {pieces} tail"));
    for sample in tail.items() {
        text.put(' ');
        put_bytes(text, sample.line.bytes());
    }
}

fn put_names(text: &mut Text, names: &Blobs, more: bool) {
    text.put(if more { "names and more" } else { "names" });
    for name in names.items() {
        text.put(format_args!(" {}", text_of(name.bytes())));
    }
}

// The word of an answer that has no more.
fn bare(answer: &Answer<MemFile>) -> Option<&'static str> {
    match answer {
        Answer::CatalogueFull => Some("catalogue full"),
        Answer::NoSuchVariable => Some("no such variable"),
        Answer::NotRunning => Some("not running"),
        Answer::NotPaused => Some("not paused"),
        Answer::Done => Some("done"),
        Answer::Kept => Some("kept"),
        Answer::Held => Some("held"),
        Answer::NoRow => Some("no row"),
        Answer::TickNone => Some("tick none"),
        Answer::NoMove => Some("no move"),
        Answer::Copying => Some("copying"),
        Answer::Copied => Some("copied"),
        Answer::Published => Some("published"),
        Answer::NoPin => Some("no pin"),
        Answer::Unpinned => Some("unpinned"),
        Answer::DiskFault => Some("disk fault"),
        Answer::Memory => Some("memory"),
        _ => None,
    }
}

// The word and the number of an answer that has one.
fn numbered(answer: &Answer<MemFile>) -> Option<(&'static str, u64)> {
    match answer {
        Answer::Registered { row } => Some(("registered", u64::from(*row))),
        Answer::NameTaken { row } => Some(("name taken", u64::from(*row))),
        Answer::KeyTaken { row } => Some(("key taken", u64::from(*row))),
        Answer::Renamed { row } => Some(("renamed", u64::from(*row))),
        Answer::Busy { m } => Some(("busy", u64::from(*m))),
        Answer::IntakeFull { held } => Some(("intake full", *held)),
        Answer::NotDue { due } => Some(("not due", *due)),
        Answer::TickKept { t } => Some(("tick kept", *t)),
        Answer::Nothing { doors } => Some(("nothing", *doors)),
        Answer::Retired { parts } => Some(("retired", *parts)),
        Answer::Swept { files } => Some(("swept", *files)),
        Answer::NotYours { owner } => Some(("not yours", *owner)),
        Answer::NoPiece { pieces } => Some(("no piece", *pieces)),
        Answer::DoorsLeft { doors } => Some(("doors", *doors)),
        _ => None,
    }
}

// What is answered of rows, files and samples.
fn put_found(text: &mut Text, answer: &Answer<MemFile>) -> Result<()> {
    match answer {
        Answer::Pinned {
            pin,
            name,
            pieces,
            tail,
            ..
        } => put_pin(text, *pin, name, *pieces, tail),
        Answer::NamesAre { names, more } => put_names(text, names, *more),
        Answer::Described(details) => put_details(text, details),
        Answer::Damaged { name, at } => put_damage(text, name, *at),
        Answer::Dropped(reason) => text.put(format_args!("dropped: {reason:?}")),
        _ => bail!("no answer"),
    }
    Ok(())
}

// An answer that has several numbers, or what was found.
fn put_numbers(text: &mut Text, answer: &Answer<MemFile>) -> Result<()> {
    match answer {
        Answer::Flushed {
            samples,
            left,
            doors,
        } => text.put(format_args!("flushed {samples} {left} {doors}")),
        Answer::Begun { m, row, parts } => text.put(format_args!("begun {m} {row} {parts}")),
        Answer::Again { len, copied } => text.put(format_args!("again {len} {copied}")),
        Answer::RenameNotPaused {
            state,
            change,
            seen,
        } => text.put(format_args!("rename not paused {state:?} {change} {seen}")),
        Answer::NotDurable { last, durable } => {
            text.put(format_args!("not durable {last} {durable:?}"));
        }
        _ => return put_found(text, answer),
    }
    Ok(())
}

// An answer that isn't a piece.
fn put_told(text: &mut Text, answer: &Answer<MemFile>) -> Result<()> {
    if let Some(word) = bare(answer) {
        text.put(word);
        return Ok(());
    }
    let Some((word, number)) = numbered(answer) else {
        return put_numbers(text, answer);
    };
    text.put(format_args!("{word} {number}"));
    Ok(())
}

/// Puts what is told of an answer; of a piece all is read.
pub(crate) fn put_answer(alloc: Global, text: &mut Text, answer: Answer<MemFile>) -> Result<()> {
    match answer {
        Answer::Piece {
            reader,
            name,
            head_len,
            len,
        } => {
            text.put(format_args!("piece {}/{}", name.store, text_of(&name.path)));
            text.put(format_args!(" head {head_len} length {len} read "));
            put_read(alloc, text, reader, len)
        }
        other => put_told(text, &other),
    }
}

/// Puts how a retrieval ended, and the raw text that it wrote.
pub(crate) fn put_got(text: &mut Text, end: &Retrieved<MemFile>, raw: &[u8]) -> Result<()> {
    match end {
        Retrieved::Finished { count } => text.put(format_args!("got {count}")),
        Retrieved::NoSuchVariable => {
            text.put("no such variable");
            return Ok(());
        }
        Retrieved::ReadFault { .. } => text.put("disk fault"),
        Retrieved::Damaged { name, at } => put_damage(text, name, *at),
        Retrieved::SinkFault | Retrieved::Spent | Retrieved::Memory => bail!("not got"),
    }
    text.put(' ');
    put_bytes(text, raw);
    Ok(())
}
