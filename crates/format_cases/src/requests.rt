// Cases of HTTP.
use crate::words::{Words, cut};
use crate::{bodies, heads, texts};
use std::alloc::{AllocError, Global};

/// What comes out of a case: nothing of one that only says which bytes are read.
pub fn told(alloc: Global, line: &str, input: &mut Vec<u8>) -> Result<String, AllocError> {
    let (word, rest) = cut(line);
    match word {
        "bytes" => {
            input.clear();
            texts::add_bytes(input, rest)?;
            Ok(String::new(alloc))
        }
        "more" => {
            let (count, text) = cut(rest);
            add_often(alloc, input, count.parse().unwrap_or(0), text)?;
            Ok(String::new(alloc))
        }
        "request" => heads::read(alloc, input, &Words::of(alloc, rest)?),
        "head" => heads::write(alloc, &Words::of(alloc, rest)?),
        "body" => bodies::write_once(alloc, input, &Words::of(alloc, rest)?),
        "again" => bodies::write_again(alloc, input, &Words::of(alloc, rest)?),
        _ => format!(in alloc; "no case: {line}\n"),
    }
}

// Puts the bytes of a text behind others, so often.
fn add_often(alloc: Global, input: &mut Vec<u8>, count: u32, text: &str) -> Result<(), AllocError> {
    let mut bytes = Vec::new(alloc);
    texts::add_bytes(&mut bytes, text)?;
    for _ in 0..count {
        input.extend_from_slice(&bytes)?;
    }
    Ok(())
}
