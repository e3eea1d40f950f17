//! Texts, bytes and characters, what may be absent, and items that are passed over.

use crate::desk::Desk;
use crate::row::Row;
use crate::types::bytes;
use cbor_de::{Deserializer, IgnoredAny};
use cbor_read::Read;
use std::io;

/// Judges a row of one of these, or of another type.
pub fn judge<'r, R: Read<'r> + Drop>(
    desk: &mut Desk<'_>,
    row: &Row<'_>,
    de: Deserializer<R>,
) -> io::Result<Option<Deserializer<R>>> {
    match row.kind {
        "char" => desk.reads::<char, R>(row, de)?,
        "String" => desk.reads::<String, R>(row, de)?,
        "&str" => desk.reads::<&str, R>(row, de)?,
        "&[u8]" => desk.reads::<&[u8], R>(row, de)?,
        "IgnoredAny" => desk.reads_alone::<IgnoredAny, R>(row, de)?,
        _ => return options(desk, row, de),
    }
    Ok(None)
}

fn options<'r, R: Read<'r> + Drop>(
    desk: &mut Desk<'_>,
    row: &Row<'_>,
    de: Deserializer<R>,
) -> io::Result<Option<Deserializer<R>>> {
    match row.kind {
        "Option<u8>" => desk.reads::<Option<u8>, R>(row, de)?,
        "Option<u32>" => desk.reads::<Option<u32>, R>(row, de)?,
        "Option<()>" => desk.reads::<Option<()>, R>(row, de)?,
        "Option<&str>" => desk.reads::<Option<&str>, R>(row, de)?,
        _ => return bytes::judge(desk, row, de),
    }
    Ok(None)
}
