// Bytes as texts of a line.
use std::alloc::AllocError;
use std::fmt::Write as _;

/// Puts the bytes that the text stands for behind others.
pub fn add_bytes(bytes: &mut Vec<u8>, text: &str) -> Result<(), AllocError> {
    let mut parts = text.split('\\');
    if let Some(first) = parts.next() {
        bytes.extend_from_slice(first.as_bytes())?;
    }
    for part in parts {
        add_escaped(bytes, part.as_bytes())?;
    }
    Ok(())
}

// What stands behind a backslash.
fn add_escaped(bytes: &mut Vec<u8>, part: &[u8]) -> Result<(), AllocError> {
    match part {
        [b'r', rest @ ..] => {
            bytes.push(b'\r')?;
            bytes.extend_from_slice(rest)
        }
        [b'n', rest @ ..] => {
            bytes.push(b'\n')?;
            bytes.extend_from_slice(rest)
        }
        [b'x', high, low, rest @ ..] => {
            bytes.push(digit(*high).wrapping_mul(16).wrapping_add(digit(*low)))?;
            bytes.extend_from_slice(rest)
        }
        other => bytes.extend_from_slice(other),
    }
}

fn digit(byte: u8) -> u8 {
    match byte {
        b'a'..=b'f' => byte - b'a' + 10,
        _ => byte.wrapping_sub(b'0'),
    }
}

/// Puts the text of these bytes behind another.
pub fn add_text(text: &mut String, bytes: &[u8]) -> Result<(), AllocError> {
    for byte in bytes {
        match *byte {
            b'\r' => text.push_str("\\r")?,
            b'\n' => text.push_str("\\n")?,
            b'\\' | 0..32 | 127.. => write!(text, "\\x{byte:02x}")?,
            _ => text.push(*byte as char)?,
        }
    }
    Ok(())
}

/// Bytes by how many they are, and by the sum of them, each times its place from 1 on.
pub fn add_sum(text: &mut String, bytes: &[u8]) -> Result<(), AllocError> {
    let mut place = 0u64;
    let mut sum = 0u64;
    for byte in bytes {
        place = place.wrapping_add(1);
        sum = sum.wrapping_add(place.wrapping_mul(u64::from(*byte)));
    }
    write!(text, "{place} bytes, sum {sum}")
}
