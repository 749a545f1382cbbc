//! The call that a request asks for.
ghost use Rattle.std.specs.Prelude.{◌≡◌, ◌∷◌, [], codes};
ghost use Rattle.form_urlencoded.specs.Form.{split_once};
ghost use Rattle.http_front.specs.Paths.{row_of};
ghost use Rattle.http_front.specs.Query.{Reading, IsNamed, IsPv, IsAsked, IsInterval};
ghost use Rattle.http_front.specs.Calls.{IsAbout, Asks, path_in, query_in, CallOf, Answers};

use crate::path::Path;
use crate::query::{read_asked, read_interval, read_name, read_pv, read_sampling, read_type};
use crate::request::{HttpErr, Param, Request, WebCall};
use pb_messages::About;
use pv_name::PvName;
use sample_bins::Op;
use series_model::{Pairs, Query};
use std::alloc::Global;

/// What a request of this method, target and minor version is answered.
pub fn answer_of(
    alloc: Global,
    method: &[u8],
    target: &[u8],
    version: u8,
) -> Result<Request, HttpErr>
    ensures { Answers method.now target.now version result }
{
    if method != b"GET".as_slice() {
        return Err(HttpErr::BadMethod);
    }
    match call_of(alloc, target) {
        Ok(call) => Ok(Request { call, version }),
        Err(refusal) => Err(refusal),
    }
}

// The call that the target asks for.
fn call_of(alloc: Global, target: &[u8]) -> Result<WebCall, HttpErr>
    ensures { CallOf target.now result }
{
    let (text, query) = split_target(target);
    match Path::from_text(text) {
        Some(path) => read_call(alloc, path, query),
        None => Err(HttpErr::BadPath),
    }
}

// The bytes before the first question mark, and those behind it.
fn split_target(target: &[u8]) -> (&[u8], &[u8])
    ensures path { result.0.now ≡ path_in target.now }
    ensures query { result.1.now ≡ query_in target.now }
{
    match target.iter().position(|byte| *byte == b'?') {
        Some(at) => (&target[..at], &target[at + 1..]),
        None => (target, &[]),
    }
}

// The call of this path with the parameters of this query.
fn read_call(alloc: Global, path: Path, query: &[u8]) -> Result<WebCall, HttpErr>
    ensures { Reading query.now (row_of path).columns (Asks path query.now) result }
{
    match path {
        Path::RawData => {
            let (op, pv, query) = read_data(alloc, query)?;
            Ok(WebCall::Raw { pv, query, op })
        }
        Path::JsonData => {
            let (op, pv, query) = read_data(alloc, query)?;
            Ok(WebCall::Json { pv, query, op })
        }
        Path::AllPvs => Ok(WebCall::AllPvs),
        Path::PvStatus => Ok(WebCall::PvStatus {
            pv: read_pv(alloc, query)?,
        }),
        Path::PvDetails => Ok(WebCall::PvDetails {
            pv: read_pv(alloc, query)?,
        }),
        Path::ArchivePv => {
            let (pv, about) = read_archiving(alloc, query)?;
            Ok(WebCall::ArchivePv { pv, about })
        }
        Path::PausePv => Ok(WebCall::PausePv {
            pv: read_pv(alloc, query)?,
        }),
        Path::ResumePv => Ok(WebCall::ResumePv {
            pv: read_pv(alloc, query)?,
        }),
        Path::RenamePv => {
            let (pv, newname) = read_renaming(alloc, query)?;
            Ok(WebCall::RenamePv { pv, newname })
        }
        Path::FlushAll => Ok(WebCall::FlushAll),
    }
}

// The operator of a retrieval, if there is one, the variable and the interval.
fn read_data(alloc: Global, query: &[u8]) -> Result<(Option<Op>, PvName, Query), HttpErr>
    ensures { Reading query.now (Param.PvOrBins ∷ Param.From ∷ Param.To ∷ [])
        (λ asked. IsAsked query.now asked.0 asked.1 × IsInterval query.now asked.2) result }
{
    let asked = read_asked(alloc, query)?;
    let interval = read_interval(alloc, query)?;
    let (op, pv) = asked;
    Ok((op, pv, interval))
}

// The variable that is to be archived, and how.
fn read_archiving(alloc: Global, query: &[u8]) -> Result<(PvName, About), HttpErr>
    ensures { Reading query.now (Param.Pv ∷ Param.TypeName ∷ Param.SamplingMethod ∷ Param.SamplingPeriod ∷ [])
        (λ both. IsPv query.now both.0 × IsAbout query.now both.1) result }
{
    let pv = read_pv(alloc, query)?;
    let ty = read_type(alloc, query)?;
    let method = read_sampling(alloc, query)?;
    let about = About {
        ty,
        method,
        count: None,
        headers: Pairs::from(Vec::new(alloc)),
    };
    Ok((pv, about))
}

// The variable that gets another name, and that name.
fn read_renaming(alloc: Global, query: &[u8]) -> Result<(PvName, PvName), HttpErr>
    ensures { Reading query.now (Param.Pv ∷ Param.NewName ∷ [])
        (λ both. IsPv query.now both.0 × IsNamed Param.NewName query.now both.1) result }
{
    let pv = read_pv(alloc, query)?;
    let newname = read_name(alloc, query, Param::NewName)?;
    Ok((pv, newname))
}
