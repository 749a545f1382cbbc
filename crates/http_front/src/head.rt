//! The head of a request among bytes.
ghost use Rattle.std.specs.Prelude.{◌≤◌, length};
ghost use Rattle.http_front.specs.Reading.{most_bytes};
ghost use Rattle.http_front.specs.Heads.{Looked};

use crate::reading::MOST_FIELDS;
use httparse::Status;
use httparse::spans::{HeaderSpan, Span, parse_request};

/// What bytes come to.
#[derive(Clone, Copy, Drop)]
pub enum HeadSeen {
    /// They begin with a head of this method, target and minor version.
    Head {
        method: Span,
        target: Span,
        minor: u8,
    },
    /// They begin with no head, and bytes may follow that make one.
    More,
    /// No bytes can follow that make a head.
    Bad,
}

/// Looks for a head in front of the bytes. A head of 16,384 bytes has fewer than 8,192 fields.
pub fn look(bytes: &[u8], fields: &mut [HeaderSpan]) -> HeadSeen
    requires room { MOST_FIELDS ≤ length fields.old }
    requires short { length bytes.now ≤ most_bytes }
    ensures looked { Looked bytes.now result }
{
    match parse_request(bytes, fields) {
        Ok(Status::Complete(head)) => HeadSeen::Head {
            method: head.method,
            target: head.path,
            minor: head.version,
        },
        Ok(Status::Partial) => HeadSeen::More,
        Err(_) => HeadSeen::Bad,
    }
}
