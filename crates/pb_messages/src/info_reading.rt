// A header read from the fields of its message.
ghost use Rattle.std.specs.Prelude.{◌≡◌, IfOk};
ghost use Rattle.std.specs.Option.{option_map, ok_or};
ghost use Rattle.arch_time.specs.YearTime.{IsSampleYear};
ghost use Rattle.pb_messages.specs.Info.{type_of, in_range, info_of, info_with, Gives};

use crate::{InfoErr, InfoFault, PayloadInfo};
use arch_time::{FIRST_YEAR, LAST_YEAR};
use pb_wire::{Fields, PayloadType, int32_of, number_of, read_pair, text_of, uint32_of};
use series_model::{Blob, PairList};
use std::alloc::Global;

// The last value of each number so far, and the headers.
#[derive(Drop)]
struct Members<'a> {
    ty: Option<u64>,
    name: Option<&'a [u8]>,
    year: Option<u64>,
    count: Option<u64>,
    headers: PairList,
}

impl Members<'_> {
    // The required members come first, in the order of their numbers, then the type and the year.
    #[tactic(auto, unfolding(crate::specs::Info::info_with))]
    fn into_info(self, alloc: Global) -> Result<PayloadInfo, InfoErr>
        ensures header { Gives result (info_with self.entry.ty
            (option_map (λ t. t.now) self.entry.name) self.entry.year self.entry.count self.entry.headers) }
        ensures year { IfOk result (λ info. IsSampleYear info.year) }
    {
        let number = self.ty.ok_or(InfoFault::Missing { field: 1 })?;
        let name = self.name.ok_or(InfoFault::Missing { field: 2 })?;
        let year = self.year.ok_or(InfoFault::Missing { field: 3 })?;
        let headers = self.headers.into_pairs();
        let headers = headers.ok_or(InfoFault::Missing { field: 15 })?;
        let ty = type_of(uint32_of(number))?;
        let year = year_of(int32_of(year))?;
        let name = Blob::copied(alloc, name)?;
        let count = self.count.map(|count| int32_of(count));
        Ok(PayloadInfo {
            ty,
            name,
            year,
            count,
            headers,
        })
    }
}

fn type_of(number: u32) -> Result<PayloadType, InfoFault>
    ensures { result ≡ ok_or (type_of number) (InfoFault.UnknownType number) }
{
    PayloadType::from_number(number).ok_or(InfoFault::UnknownType { number })
}

fn year_of(year: i32) -> Result<i32, InfoFault>
    ensures value { result ≡ in_range year }
    ensures range { IfOk result IsSampleYear }
{
    if year >= FIRST_YEAR && year <= LAST_YEAR {
        Ok(year)
    } else {
        Err(InfoFault::YearRange { year })
    }
}

/// The header that the bytes hold, or its first fault.
#[tactic(auto, using(series_model::proofs::PairLists::joined_assoc), unfolding(crate::specs::Info::info_of))]
pub fn decode_info(alloc: Global, bytes: &[u8]) -> Result<PayloadInfo, InfoErr>
    ensures header { Gives result (info_of bytes.now) }
    ensures year { IfOk result (λ info. IsSampleYear info.year) }
{
    let mut members = Members {
        ty: None,
        name: None,
        year: None,
        count: None,
        headers: PairList::new(alloc),
    };
    let mut fields = Fields::of(bytes);
    while let Some(field) = fields.next()? {
        match field.number {
            1 => members.ty = Some(number_of(field)?),
            2 => members.name = Some(text_of(field, 2)?),
            3 => members.year = Some(number_of(field)?),
            4 => members.count = Some(number_of(field)?),
            15 => {
                let pair = read_pair(text_of(field, 15)?, fields.place(), 15)?;
                members.headers.push(alloc, pair)?;
            }
            _ => {}
        }
    }
    members.into_info(alloc)
}
