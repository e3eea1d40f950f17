//! Byte strings.

use crate::desk::Desk;
use crate::row::Row;
use crate::types::lists;
use cbor_de::Deserializer;
use cbor_read::Read;
use cbor_value::bytes::{ByteArray, ByteBuf, Bytes};
use std::collections::BTreeMap;
use std::io;

/// Judges a row of one of these, or of another type.
pub fn judge<'r, R: Read<'r> + Drop>(
    desk: &mut Desk<'_>,
    row: &Row<'_>,
    de: Deserializer<R>,
) -> io::Result<Option<Deserializer<R>>> {
    match row.kind {
        "Bytes" => desk.reads::<Bytes, R>(row, de)?,
        "ByteBuf" => desk.reads::<ByteBuf, R>(row, de)?,
        "ByteArray<2>" => desk.reads::<ByteArray<2>, R>(row, de)?,
        "Option<ByteBuf>" => desk.reads::<Option<ByteBuf>, R>(row, de)?,
        "Vec<ByteBuf>" => desk.reads::<Vec<ByteBuf>, R>(row, de)?,
        "BTreeMap<ByteBuf, u8>" => desk.reads::<BTreeMap<ByteBuf, u8>, R>(row, de)?,
        _ => return lists::judge(desk, row, de),
    }
    Ok(None)
}
