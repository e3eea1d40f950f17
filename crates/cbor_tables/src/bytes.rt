//! Bytes as a table writes them.

use crate::row::Malformed;
use hex::FromHexError;
use std::alloc::Global;

/// Reads bytes: pairs of hexadecimal digits, of which some may stand together, `"text"` between
/// quotes, and `f6*3` for three times f6.
///
/// `Malformed::Bytes` where it is none of these, and `Malformed::OutOfMemory`.
pub fn parse(alloc: Global, text: &str) -> Result<Vec<u8>, Malformed> {
    let mut bytes = Vec::new(alloc);
    let mut is_quoted = false;
    for part in text.split('"') {
        if is_quoted {
            bytes.extend_from_slice(part.as_bytes())?;
        } else {
            push_words(alloc, &mut bytes, part)?;
        }
        is_quoted = !is_quoted;
    }
    // A last quote that isn't closed leaves the text after it quoted.
    if is_quoted {
        Ok(bytes)
    } else {
        Err(Malformed::Bytes)
    }
}

fn push_words(alloc: Global, bytes: &mut Vec<u8>, text: &str) -> Result<(), Malformed> {
    for word in text.split_whitespace() {
        match word.split_once('*') {
            Some((digits, count)) => push_repeated(alloc, bytes, digits, count)?,
            None => bytes.extend_from_slice(&decode(alloc, word)?)?,
        }
    }
    Ok(())
}

fn push_repeated(
    alloc: Global,
    bytes: &mut Vec<u8>,
    digits: &str,
    count: &str,
) -> Result<(), Malformed> {
    let part = decode(alloc, digits)?;
    let count = count.parse::<u16>().map_err(|_| Malformed::Bytes)?;
    for _ in 0..count {
        bytes.extend_from_slice(&part)?;
    }
    Ok(())
}

fn decode(alloc: Global, digits: &str) -> Result<Vec<u8>, Malformed> {
    hex::decode(alloc, digits).map_err(|e| match e {
        FromHexError::OutOfMemory => Malformed::OutOfMemory,
        _ => Malformed::Bytes,
    })
}
