//! The parameters of a query.
ghost use Rattle.std.specs.Prelude.{◌≡◌, ◌⊎◌, ◌∷◌, [], IfOk, option_map, codes};
ghost use Rattle.std.specs.Cow.{cow_str_bytes};
ghost use Rattle.http_front.specs.Param.{name_of};
ghost use Rattle.http_front.specs.Query.{value_of, value_or, Reading, IsNamed, IsPv, IsAsked, IsMoment, IsInterval};
ghost use Rattle.http_front.specs.Query.{IsType, IsSampling};

use crate::period::period_of;
use crate::request::{HttpErr, Param};
use arch_time::parse_iso;
use form_urlencoded::{decode, raw_pairs};
use pb_messages::{Method, PayloadType};
use pv_name::{NameErr, PvName};
use sample_bins::Op;
use series_model::Query;
use std::alloc::{AllocError, Global};
use std::borrow::CowStr;

// What the first pair of this name has.
fn value_of<'a>(
    alloc: Global,
    query: &'a [u8],
    name: &str,
) -> Result<Option<CowStr<'a>>, AllocError>
    ensures { IfOk result (λ found. option_map cow_str_bytes found ≡ value_of name.now query.now) }
{
    for (key, value) in raw_pairs(query) {
        if decode(alloc, key)?.as_str() == name {
            return Ok(Some(decode(alloc, value)?));
        }
    }
    Ok(None)
}

// The same, and this word where no pair has the name.
fn value_or<'a>(
    alloc: Global,
    query: &'a [u8],
    param: Param,
    word: &'static str,
) -> Result<CowStr<'a>, AllocError>
    ensures { IfOk result (λ text. cow_str_bytes text ≡ value_or word.now (name_of param) query.now) }
{
    match value_of(alloc, query, param.name())? {
        Some(text) => Ok(text),
        None => Ok(CowStr::Borrowed(word)),
    }
}

/// The name under `pv`.
pub fn read_pv(alloc: Global, query: &[u8]) -> Result<PvName, HttpErr>
    ensures { Reading query.now (Param.Pv ∷ []) (IsPv query.now) result }
{
    read_name(alloc, query, Param::Pv)
}

/// The name under `pv` or `newname`.
pub fn read_name(alloc: Global, query: &[u8], which: Param) -> Result<PvName, HttpErr>
    requires { (which ≡ Param.Pv) ⊎ (which ≡ Param.NewName) }
    ensures { Reading query.now (which ∷ []) (IsNamed which query.now) result }
{
    let bad = HttpErr::BadParameter { which };
    let Some(text) = value_of(alloc, query, which.name())? else {
        return Err(bad);
    };
    match PvName::new(alloc, text.as_str().as_bytes()) {
        Ok(name) => Ok(name),
        Err(NameErr::BadName { .. }) => Err(bad),
        Err(NameErr::Memory) => Err(HttpErr::Memory),
    }
}

/// The operator under `pv`, if there is one, and the name.
pub fn read_asked(alloc: Global, query: &[u8]) -> Result<(Option<Op>, PvName), HttpErr>
    ensures { Reading query.now (Param.PvOrBins ∷ []) (λ asked. IsAsked query.now asked.0 asked.1) result }
{
    let bad = HttpErr::BadParameter {
        which: Param::PvOrBins,
    };
    let Some(text) = value_of(alloc, query, Param::PvOrBins.name())? else {
        return Err(bad);
    };
    let Some(asked) = sample_bins::read_pv(text.as_str().as_bytes()) else {
        return Err(bad);
    };
    match PvName::new(alloc, asked.1) {
        Ok(name) => Ok((asked.0, name)),
        Err(NameErr::BadName { .. }) => Err(bad),
        Err(NameErr::Memory) => Err(HttpErr::Memory),
    }
}

// The moment under `from` or `to`.
fn read_moment(alloc: Global, query: &[u8], which: Param) -> Result<u64, HttpErr>
    requires { (which ≡ Param.From) ⊎ (which ≡ Param.To) }
    ensures { Reading query.now (which ∷ []) (IsMoment which query.now) result }
{
    let bad = HttpErr::BadParameter { which };
    let Some(text) = value_of(alloc, query, which.name())? else {
        return Err(bad);
    };
    match parse_iso(text.as_str().as_bytes()) {
        Ok(moment) => Ok(moment),
        Err(_) => Err(bad),
    }
}

/// The interval from `from` to `to`, which may lie before it.
pub fn read_interval(alloc: Global, query: &[u8]) -> Result<Query, HttpErr>
    ensures { Reading query.now (Param.From ∷ Param.To ∷ []) (IsInterval query.now) result }
{
    let from = read_moment(alloc, query, Param::From)?;
    let to = read_moment(alloc, query, Param::To)?;
    Ok(Query { from, to })
}

/// The type under `type`.
pub fn read_type(alloc: Global, query: &[u8]) -> Result<PayloadType, HttpErr>
    ensures { Reading query.now (Param.TypeName ∷ []) (IsType query.now) result }
{
    let bad = HttpErr::BadParameter {
        which: Param::TypeName,
    };
    let Some(text) = value_of(alloc, query, Param::TypeName.name())? else {
        return Err(bad);
    };
    PayloadType::from_name(text.as_str().as_bytes()).ok_or(bad)
}

/// How a variable is to be sampled: the period is read only where it is scanned.
pub fn read_sampling(alloc: Global, query: &[u8]) -> Result<Method, HttpErr>
    ensures { Reading query.now (Param.SamplingMethod ∷ Param.SamplingPeriod ∷ []) (IsSampling query.now) result }
{
    let word = value_or(alloc, query, Param::SamplingMethod, "MONITOR")?;
    if word.as_str() == "MONITOR" {
        return Ok(Method::Monitor);
    }
    if word.as_str() != "SCAN" {
        return Err(HttpErr::BadParameter {
            which: Param::SamplingMethod,
        });
    }
    let seconds = value_or(alloc, query, Param::SamplingPeriod, "1")?;
    match period_of(seconds.as_str().as_bytes()) {
        Some(period) => Ok(Method::Scan { period }),
        None => Err(HttpErr::BadParameter {
            which: Param::SamplingPeriod,
        }),
    }
}
