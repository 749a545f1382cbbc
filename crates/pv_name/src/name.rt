// The name of a variable, which is checked when it is made.
ghost use Rattle.std.specs.Prelude.{◌≡◌, ℕ, ◌<◌, ◌≤◌, ◌↔◌, List, length, drop, take, IsTrue, MatchOption, IfOk, IfErr};
ghost use Rattle.std.specs.Prelude.{nat_eq};
ghost use Rattle.std.specs.Cmp.Lexicographic.{pointwise};
ghost use Rattle.std.specs.Cmp.Rules.{comparing};
ghost use Rattle.std.proofs.Common.{rules};
ghost use Rattle.std.specs.List.{before_first, position};
ghost use Rattle.pv_name.specs.Name.{is_allowed, is_separator, IsBadSegment, IsFault, IsFirstFault, IsName, IsRefusal};

use std::alloc::{AllocError, Global};
use std::error::Error;
use std::fmt;
use std::marker::Model;

/// The marks that may stand in a name beside ASCII letters and digits.
const MARKS: &[u8; 16] = b"_-+:[]<>;./,#{}^";

const MOST_BYTES: usize = 128;

/// Why bytes are no name, in order.
#[derive(Clone, Copy, Debug, PartialEq, Eq)]
pub enum NameErr {
    /// The least place of a byte that isn't allowed or of the start of a segment that isn't; 0 for
    /// no bytes and 128 for more than 128.
    BadName { at: usize },
    /// There is no memory for the name.
    Memory,
}

impl fmt::Display for NameErr {
    fn fmt<W: fmt::Write>(&self, f: &mut fmt::Formatter<W>) -> fmt::Result {
        match self {
            NameErr::BadName { at } => write!(f, "bad name of a variable at byte {at}"),
            NameErr::Memory => f.write_str("out of memory"),
        }
    }
}

impl Error for NameErr {}

impl From<AllocError> for NameErr {
    ghost use Rattle.pv_name.specs.declared.name.NameErr.TheVariants.{Memory};

    ghost from_gives = { λ _ e. e ≡ Memory };

    fn from(_: AllocError) -> NameErr {
        NameErr::Memory
    }
}

/// The name of a process variable.
#[derive(Debug, Drop)]
pub struct PvName {
    bytes: Vec<u8>,
}

impl Model for PvName {
    ghost use Rattle.std.specs.Prelude.{ℕ, List};
    ghost use Rattle.pv_name.specs.Name.{IsName};

    ghost Value = { List ℕ };

    ghost view = { λ name. name.bytes.items };

    ghost invariant = { λ name. IsName name.bytes.items };
}

impl PvName {
    /// These bytes as a name. `BadName` comes exactly where they are none.
    pub fn new(alloc: Global, bytes: &[u8]) -> Result<PvName, NameErr>
        ensures ok { IfOk result (λ name. (name ≡ bytes.now) × IsName bytes.now) }
        ensures err { IfErr result (IsRefusal bytes.now) }
    {
        if bytes.len() > MOST_BYTES {
            return Err(NameErr::BadName { at: MOST_BYTES });
        }
        if let Some(at) = first_fault(bytes) {
            return Err(NameErr::BadName { at });
        }
        let bytes = Vec::from_slice(alloc, bytes)?;
        Ok(PvName { bytes })
    }

    /// The name's bytes.
    pub fn bytes(&self) -> &[u8]
        ensures value { result.now ≡ self.now }
        ensures name { IsName self.now }
    {
        self.bytes.as_slice()
    }
}

impl Clone for PvName {
    ghost is_clone = { λ name copy. copy ≡ name };

    fn clone(&self) -> Result<PvName, AllocError> {
        let bytes = self.bytes.clone()?;
        Ok(PvName { bytes })
    }
}

impl PartialEq for PvName {
    ghost eq = { pointwise nat_eq };

    ghost laws = { Prim.search (comparing, rules) };

    fn eq(&self, other: &PvName) -> bool {
        self.bytes == other.bytes
    }
}

impl Eq for PvName {
    ghost laws = { Prim.search (comparing, rules) };
}

fn first_fault(bytes: &[u8]) -> Option<usize>
    ensures { MatchOption result ((at : ℕ) → IsFault bytes.now at → ⊥) (IsFirstFault bytes.now) }
{
    for at in 0..=bytes.len() {
        if is_fault(bytes, at) {
            return Some(at);
        }
    }
    None
}

fn is_fault(bytes: &[u8], at: usize) -> bool
    requires { at ≤ length bytes.now }
    ensures { IsTrue result ↔ IsFault bytes.now at }
{
    if at < bytes.len() && !is_allowed(bytes[at]) {
        return true;
    }
    (at == 0 || is_separator(bytes[at - 1])) && begins_badly(&bytes[at..])
}

// Whether the bytes before the first separator are a segment that no name has.
fn begins_badly(rest: &[u8]) -> bool
    ensures { IsTrue result ↔ IsBadSegment (before_first is_separator rest.now) }
{
    let end = first_separator(rest).unwrap_or(rest.len());
    is_bad_segment(&rest[..end])
}

fn first_separator(rest: &[u8]) -> Option<usize>
    ensures { result ≡ position is_separator rest.now }
{
    rest.iter().position(|byte| is_separator(*byte))
}

#[tactic(auto, using(crate::proofs::Segments::bad_segments))]
fn is_bad_segment(segment: &[u8]) -> bool
    ensures { IsTrue result ↔ IsBadSegment segment.now }
{
    segment.len() <= 2 && segment.iter().all(|byte| *byte == b'.')
}

fn is_allowed(byte: u8) -> bool
    ensures { result ≡ is_allowed byte }
{
    byte.is_ascii_alphanumeric() || MARKS.contains(&byte)
}

pub(crate) fn is_separator(byte: u8) -> bool
    ensures { result ≡ is_separator byte }
{
    matches!(byte, b':' | b'-' | b'/')
}
