// Cases of escaped lines, fields, events and headers.
use crate::case::Case;
use pb_wire::{Fields, PayloadType, Varints, Wire};
use std::alloc::AllocError;

pub fn escape(case: &mut Case<'_>) -> Result<(), AllocError> {
    let bytes = case.bytes();
    let mut out = b"\xff".to_vec(case.alloc)?;
    line_escape::escape(&bytes, &mut out)?;
    case.tell_hex(&out);
    case.tell(format_args!(" {}", line_escape::escaped_len(&bytes)));
    Ok(())
}

// What is appended, and what is read into a buffer of its own.
pub fn unescape(case: &mut Case<'_>) -> Result<(), AllocError> {
    let line = case.bytes();
    if line.contains(&b'\n') {
        case.refuse();
        return Ok(());
    }
    let mut out = b"\xff".to_vec(case.alloc)?;
    let appended = line_escape::unescape(&line, &mut out);
    case.tell_hex(&out);
    let read = line_escape::unescaped(&line, &mut out);
    case.tell(format_args!(" {appended:?} {read:?}"));
    Ok(())
}

pub fn varint(case: &mut Case<'_>) -> Result<(), AllocError> {
    let mut out = Vec::new(case.alloc);
    pb_wire::put_varint(&mut out, case.number())?;
    case.tell_hex(&out);
    Ok(())
}

// Each field of a message, whose end has a place, and what ends it: a full stop, or a fault, and
// whether it is told again.
pub fn fields(case: &mut Case<'_>) {
    let (end, message) = (case.number() as usize, case.bytes());
    if end < message.len() {
        return case.refuse();
    }
    let mut fields = Fields::ending_at(&message, end);
    for _ in 0..u64::MAX {
        match fields.next() {
            Ok(Some(field)) => case.tell(format_args!("{} {:?}, ", field.number, field.value)),
            Ok(None) => return case.tell("."),
            Err(fault) => {
                let again = fields.next().err() == Some(fault);
                return case.tell(format_args!("{fault:?} {again}"));
            }
        }
    }
}

// The numbers that stand one after another, and the fault that ends them.
pub fn varints(case: &mut Case<'_>) {
    let (end, bytes) = (case.number() as usize, case.bytes());
    if end < bytes.len() {
        return case.refuse();
    }
    let mut numbers = Varints::ending_at(&bytes, end);
    for _ in 0..u64::MAX {
        match numbers.next() {
            Ok(Some(number)) => case.tell(format_args!("{number} ")),
            Ok(None) => return case.tell("."),
            Err(fault) => return case.tell(format_args!("{fault:?}")),
        }
    }
}

pub fn field(case: &mut Case<'_>) -> Result<(), AllocError> {
    let number = case.number32();
    if number == 0 || number >= 0x2000_0000 {
        case.refuse();
        return Ok(());
    }
    let (kind, numeral, bytes) = (case.word(), case.number(), case.bytes());
    let value = match kind {
        "varint" => Wire::Varint(numeral),
        "fixed64" => Wire::Fixed64(numeral),
        "fixed32" => Wire::Fixed32((numeral % 0x1_0000_0000) as u32),
        _ => Wire::Bytes(&bytes),
    };
    let mut out = Vec::new(case.alloc);
    pb_wire::put_field(&mut out, number, value)?;
    case.tell_hex(&out);
    Ok(())
}

pub fn zigzag(case: &mut Case<'_>) {
    let number = pb_wire::zigzag(case.signed());
    case.tell(format_args!("{number} {}", pb_wire::unzigzag(number)));
}

pub fn type_number(case: &mut Case<'_>) {
    match PayloadType::from_number(case.number32()) {
        Some(ty) => case.tell(format_args!("{} {}", ty.name(), ty.number())),
        None => case.tell("None"),
    }
}

pub fn type_name(case: &mut Case<'_>) {
    let ty = PayloadType::from_name(case.word().as_bytes());
    case.tell(format_args!("{ty:?}"));
}

// The moment alone, the event, and its message.
pub fn event(case: &mut Case<'_>) -> Result<(), AllocError> {
    let (ty, bytes) = (case.payload_type(), case.bytes());
    case.tell(format_args!("{:?} ", pb_messages::stamp(ty, &bytes)));
    match pb_messages::decode(case.alloc, ty, &bytes) {
        Ok(event) => {
            let mut out = Vec::new(case.alloc);
            pb_messages::encode(ty, &event, &mut out)?;
            case.tell(format_args!("{event:?} "));
            case.tell_hex(&out);
        }
        Err(fault) => case.tell(format_args!("{fault:?}")),
    }
    Ok(())
}

// The header, its message and its line.
pub fn header(case: &mut Case<'_>) -> Result<(), AllocError> {
    let bytes = case.bytes();
    match pb_messages::decode_info(case.alloc, &bytes) {
        Ok(info) => {
            let mut out = Vec::new(case.alloc);
            pb_messages::encode_info(&info, &mut out)?;
            case.tell(format_args!("{info:?} "));
            case.tell_hex(&out);
            let mut line = Vec::new(case.alloc);
            pb_lines::header_line(&info, &mut line)?;
            case.tell(" ");
            case.tell_hex(&line);
        }
        Err(fault) => case.tell(format_args!("{fault:?}")),
    }
    Ok(())
}
