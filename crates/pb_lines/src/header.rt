// A header and its escaped line, both ways.
ghost use Rattle.std.specs.Prelude.{◌≡◌, ◌++◌, ◌∷◌, [], Ok, IfOk, IfErr, OnOk, OnErr};
ghost use Rattle.std.specs.Io.{StartsWith};
ghost use Rattle.line_escape.specs.Escaping.{escaped};
ghost use Rattle.line_escape.specs.Unescaping.{HasNoNewline};
ghost use Rattle.pb_messages.specs.Info.{info_of};
ghost use Rattle.pb_messages.specs.InfoSpelling.{info_text};
ghost use Rattle.arch_time.specs.YearTime.{IsSampleYear};
ghost use Rattle.pb_lines.specs.Header.{IsHeaderLine, IsHeadErr};

use crate::fault::HeadFault;
use line_escape::{EscapeErr, escape, unescape};
use pb_messages::{InfoErr, PayloadInfo, decode_info, encode_info};
use std::alloc::{AllocError, Global};

/// Why a header's line wasn't read.
#[derive(Clone, Copy, Debug, PartialEq, Eq)]
pub enum HeadErr {
    /// The line is no header.
    Fault(HeadFault),
    /// Memory ran out.
    Memory,
}

/// The header that the escaped line means.
///
/// `line` has no newline. `work` is scratch space: what it held is lost, its room is kept.
pub fn header_of_line(
    alloc: Global,
    line: &[u8],
    work: &mut Vec<u8>,
) -> Result<PayloadInfo, HeadErr>
    requires { HasNoNewline line.now }
    ensures ok { IfOk result (IsHeaderLine line.now) }
    ensures year { IfOk result (λ info. IsSampleYear info.year) }
    ensures err { IfErr result (IsHeadErr line.now) }
{
    work.clear();
    match unescape(line, work) {
        Ok(()) => {}
        Err(EscapeErr::BadEscape { at }) => return Err(HeadErr::Fault(HeadFault::Escape { at })),
        Err(EscapeErr::Memory) => return Err(HeadErr::Memory),
    }
    match decode_info(alloc, work) {
        Ok(info) => Ok(info),
        Err(InfoErr::Fault(fault)) => Err(HeadErr::Fault(HeadFault::Info(fault))),
        Err(InfoErr::Memory) => Err(HeadErr::Memory),
    }
}

/// Appends a header's line with its newline: its one spelling, escaped, which is read as that header
/// where its year is one of samples. Where memory runs out, `out` stays.
pub fn header_line(info: &PayloadInfo, out: &mut Vec<u8>) -> Result<(), AllocError>
    ensures ok { OnOk result (out.new.items ≡ out.old.items ++ (escaped (info_text info.now) ++ 10 ∷ [])) }
    ensures err { OnErr result (out.new.items ≡ out.old.items) }
    ensures back { OnOk result (IsSampleYear info.now.year → IsHeaderLine (escaped (info_text info.now)) info.now) }
{
    let before = out.len();
    let done = add_header_line(info, out);
    if done.is_err() {
        out.truncate(before);
    }
    done
}

// The same, but where memory runs out a part may stand behind the old bytes.
fn add_header_line(info: &PayloadInfo, out: &mut Vec<u8>) -> Result<(), AllocError>
    ensures ok { OnOk result (out.new.items ≡ out.old.items ++ (escaped (info_text info.now) ++ 10 ∷ [])) }
    ensures grows { StartsWith out.new.items out.old.items }
    ensures back { OnOk result (IsSampleYear info.now.year → info_of (info_text info.now) ≡ Ok info.now) }
{
    let mut message = Vec::new(*out.allocator());
    encode_info(info, &mut message)?;
    escape(&message, out)?;
    out.push(b'\n')?;
    Ok(())
}
