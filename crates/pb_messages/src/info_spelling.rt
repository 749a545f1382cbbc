// The one spelling of a header: its fields in the order of their numbers.
ghost use Rattle.std.specs.Prelude.{◌≡◌, ◌<◌, ◌^◌, ◌++◌, Ok, OnOk, OnErr, length};
ghost use Rattle.std.specs.Io.{StartsWith};
ghost use Rattle.pb_wire.specs.FieldSpelling.{message_text};
ghost use Rattle.arch_time.specs.YearTime.{IsSampleYear};
ghost use Rattle.pb_messages.specs.Info.{info_of};
ghost use Rattle.pb_messages.specs.InfoSpelling.{required_fields, info_text, FitsInfo};

use crate::PayloadInfo;
use crate::spelling::put_pairs;
use pb_wire::{Wire, put_field, put_optional, sign_extended};
use std::alloc::AllocError;

/// Appends the one spelling of a header: it is read as that header where its year is one of samples.
/// Where memory runs out, `out` stays.
pub fn encode_info(info: &PayloadInfo, out: &mut Vec<u8>) -> Result<(), AllocError>
    ensures ok { OnOk result (out.new.items ≡ out.old.items ++ info_text info.now) }
    ensures err { OnErr result (out.new.items ≡ out.old.items) }
    ensures back { OnOk result (IsSampleYear info.now.year → info_of (info_text info.now) ≡ Ok info.now) }
{
    let before = out.len();
    let done = put_info(info, out);
    if done.is_err() {
        out.truncate(before);
    }
    done
}

// The same, but where memory runs out a part may stand behind the old bytes; so in those below.
#[tactic(auto, using(pb_wire::proofs::PairTexts::texts_apart), unfolding(crate::specs::InfoSpelling::info_text))]
fn put_info(info: &PayloadInfo, out: &mut Vec<u8>) -> Result<(), AllocError>
    ensures ok { OnOk result (out.new.items ≡ out.old.items ++ info_text info.now) }
    ensures grows { StartsWith out.new.items out.old.items }
    ensures fits { OnOk result (IsSampleYear info.now.year → FitsInfo info.now) }
{
    put_required(info, out)?;
    put_optional(out, 4, info.count.map(|count| sign_extended(count)))?;
    put_pairs(out, 15, info.headers.items())
}

fn put_required(info: &PayloadInfo, out: &mut Vec<u8>) -> Result<(), AllocError>
    ensures ok { OnOk result (out.new.items ≡ out.old.items ++ message_text (required_fields info.now)) }
    ensures grows { StartsWith out.new.items out.old.items }
    ensures fits { OnOk result (length info.now.name < 2 ^ 64) }
{
    put_field(out, 1, Wire::Varint(u64::from(info.ty.number())))?;
    put_field(out, 2, Wire::Bytes(info.name.bytes()))?;
    put_field(out, 3, Wire::Varint(sign_extended(info.year)))
}
