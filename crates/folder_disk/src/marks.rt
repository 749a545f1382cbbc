// Marks of an archive's folders: of which archive a folder is, and which of its four.
use std::alloc::{AllocError, Global};
use std::str;

// The file of a folder that has its mark. No key of a variable has a `-`, so no file and no
// folder of a store has its name.
pub const MARK: &str = "archive-mark";

// A mark has fewer bytes.
pub const ROOM: usize = 128;

// The line behind that of a site's mark, once all its stores have theirs.
pub const DONE: &str = "marked\n";

// How many hexadecimal digits an identity has.
const DIGITS: usize = 32;

// A folder's mark.
#[derive(Drop)]
pub struct Mark {
    // Of the archive, in hexadecimal digits.
    pub identity: String,
    // The site is 0.
    pub store: u8,
    // Whether the line is there that a site's has behind it.
    pub is_done: bool,
}

// What a folder is in its archive.
pub fn word_of(store: u8) -> &'static str {
    match store {
        0 => "site",
        1 => "short term",
        2 => "medium term",
        _ => "long term",
    }
}

// The line of a mark.
pub fn line_of(alloc: Global, identity: &str, store: u8) -> Result<String, AllocError> {
    format!(in alloc; "archive {identity} {}\n", word_of(store))
}

// An identity of these bytes.
pub fn identity_of(alloc: Global, bytes: &[u8]) -> Result<String, AllocError> {
    let mut identity = String::new(alloc);
    for byte in bytes {
        let digits = format!(in alloc; "{byte:02x}")?;
        identity.push_str(digits.as_str())?;
    }
    Ok(identity)
}

// The mark that a file has. One that isn't whole is none.
pub fn mark_of(alloc: Global, bytes: &[u8]) -> Result<Option<Mark>, AllocError> {
    let Some(end) = bytes.iter().position(|byte| *byte == b'\n') else {
        return Ok(None);
    };
    let (line, rest) = bytes.split_at(end + 1);
    let Ok(line) = str::from_utf8(line) else {
        return Ok(None);
    };
    let Some(identity) = identity_in(line) else {
        return Ok(None);
    };
    for store in 0..4u8 {
        if line_of(alloc, identity, store)?.as_str() == line {
            let mark = Mark {
                identity: String::from_str(alloc, identity)?,
                store,
                is_done: rest.starts_with(DONE.as_bytes()),
            };
            return Ok(Some(mark));
        }
    }
    Ok(None)
}

// The identity in a line that may be that of a mark.
fn identity_in(line: &str) -> Option<&str> {
    let (identity, _) = line.strip_prefix("archive ")?.split_once(' ')?;
    let is_identity = identity.len() == DIGITS
        && identity.bytes().all(|byte| byte.is_ascii_hexdigit());
    is_identity.then_some(identity)
}
