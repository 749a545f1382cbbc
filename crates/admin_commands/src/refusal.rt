// Why a request is refused.
ghost use Rattle.std.specs.Prelude.{◌≡◌, ◌++◌, OnOk};
ghost use Rattle.admin_commands.specs.Refusals.{row_of, member_text, refusal_text, refusal_of};

use http_front::{HttpErr, Param};
use json_out::put_number;
use std::alloc::AllocError;

/// Why a request is refused.
#[derive(Clone, Copy, Debug, PartialEq, Eq)]
pub enum Refusal {
    /// The bytes are no head of a request.
    BadHead,
    /// The head is too long.
    HeadTooLong,
    /// The method isn't GET.
    BadMethod,
    /// Nothing is served at the path.
    BadPath,
    /// The parameter is missing or not of its form.
    BadParameter { which: Param },
    /// No row has the name.
    NoSuchVariable,
    /// This row has the name.
    NameTaken { row: u32 },
    /// This row has the name's key.
    KeyTaken { row: u32 },
    /// There is no room for a row.
    CatalogueFull,
    /// The variable isn't running.
    NotRunning,
    /// The variable isn't paused.
    NotPaused,
    /// A variable that isn't paused gets no other name.
    RenameNotPaused,
    /// A variable gets no other name before its last accepted sample is durable: the moments of the last one, and of
    /// the last durable one, in nanoseconds since 1970-01-01T00:00:00Z.
    NotDurable { last: u64, durable: Option<u64> },
    /// The disk failed.
    DiskFault,
    /// No act is left.
    Spent,
}

impl Refusal {
    /// How bytes are refused that are no request. Nothing is replied where the source failed or memory ran out.
    pub fn of_request(err: HttpErr) -> Option<Refusal>
        ensures { result ≡ refusal_of err }
    {
        match err {
            HttpErr::SourceFault => None,
            HttpErr::BadHead => Some(Refusal::BadHead),
            HttpErr::HeadTooLong => Some(Refusal::HeadTooLong),
            HttpErr::BadMethod => Some(Refusal::BadMethod),
            HttpErr::BadPath => Some(Refusal::BadPath),
            HttpErr::BadParameter { which } => Some(Refusal::BadParameter { which }),
            HttpErr::Memory => None,
        }
    }

    /// The status of the reply.
    pub(crate) fn status(self) -> u16
        ensures { result ≡ (row_of self).status }
    {
        match self {
            Refusal::BadHead => 400,
            Refusal::HeadTooLong => 431,
            Refusal::BadMethod => 405,
            Refusal::BadPath => 404,
            Refusal::BadParameter { .. } => 400,
            Refusal::NoSuchVariable => 404,
            Refusal::NameTaken { .. } => 409,
            Refusal::KeyTaken { .. } => 409,
            Refusal::CatalogueFull => 409,
            Refusal::NotRunning => 409,
            Refusal::NotPaused => 409,
            Refusal::RenameNotPaused => 409,
            Refusal::NotDurable { .. } => 409,
            Refusal::DiskFault => 500,
            Refusal::Spent => 503,
        }
    }

    // The number or word by which the body names it.
    fn word(self) -> &'static str
        ensures { result.now ≡ (row_of self).word }
    {
        match self {
            Refusal::BadHead => "E27",
            Refusal::HeadTooLong => "E28",
            Refusal::BadMethod => "E29",
            Refusal::BadPath => "E30",
            Refusal::BadParameter { .. } => "E31",
            Refusal::NoSuchVariable => "E26",
            Refusal::NameTaken { .. } => "E18",
            Refusal::KeyTaken { .. } => "E19",
            Refusal::CatalogueFull => "E20",
            Refusal::NotRunning => "E21",
            Refusal::NotPaused => "E22",
            Refusal::RenameNotPaused => "E32",
            Refusal::NotDurable { .. } => "E33",
            Refusal::DiskFault => "disk",
            Refusal::Spent => "spent",
        }
    }

    // Appends the member behind the status, if there is one.
    fn put_member(self, out: &mut Vec<u8>) -> Result<(), AllocError>
        ensures { OnOk result (out.new.items ≡ out.old.items ++ member_text self) }
    {
        match self {
            Refusal::BadParameter { which } => put_param(which, out),
            Refusal::NameTaken { row } => put_row(row, out),
            Refusal::KeyTaken { row } => put_row(row, out),
            Refusal::NotDurable { last, durable } => put_moments(last, durable, out),
            _ => Ok(()),
        }
    }

    /// Appends the body before its newline.
    pub(crate) fn put(self, out: &mut Vec<u8>) -> Result<(), AllocError>
        ensures { OnOk result (out.new.items ≡ out.old.items ++ refusal_text self) }
    {
        out.extend_from_slice(b"{\"status\":\"")?;
        out.extend_from_slice(self.word().as_bytes())?;
        out.extend_from_slice(b"\"")?;
        self.put_member(out)?;
        out.extend_from_slice(b"}")
    }
}

fn put_param(which: Param, out: &mut Vec<u8>) -> Result<(), AllocError>
    ensures { OnOk result (out.new.items ≡ out.old.items ++ member_text (Refusal.BadParameter which)) }
{
    out.extend_from_slice(b",\"parameter\":\"")?;
    out.extend_from_slice(which.name().as_bytes())?;
    out.extend_from_slice(b"\"")
}

fn put_row(row: u32, out: &mut Vec<u8>) -> Result<(), AllocError>
    ensures { OnOk result (out.new.items ≡ out.old.items ++ member_text (Refusal.NameTaken row)) }
{
    out.extend_from_slice(b",\"row\":")?;
    put_number(row, out)
}

fn put_moments(last: u64, durable: Option<u64>, out: &mut Vec<u8>) -> Result<(), AllocError>
    ensures { OnOk result (out.new.items ≡ out.old.items ++ member_text (Refusal.NotDurable last durable)) }
{
    out.extend_from_slice(b",\"last\":")?;
    put_number(last, out)?;
    out.extend_from_slice(b",\"durable\":")?;
    match durable {
        Some(t) => put_number(t, out),
        None => out.extend_from_slice(b"null"),
    }
}
