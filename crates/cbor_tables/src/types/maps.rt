//! Maps.

use crate::desk::Desk;
use crate::row::Row;
use crate::types::tagged;
use cbor_de::Deserializer;
use cbor_read::Read;
use std::collections::BTreeMap;
use std::io;

/// Judges a row of one of these, or of another type.
pub fn judge<'r, R: Read<'r> + Drop>(
    desk: &mut Desk<'_>,
    row: &Row<'_>,
    de: Deserializer<R>,
) -> io::Result<Option<Deserializer<R>>> {
    match row.kind {
        "BTreeMap<u8, u8>" => desk.reads::<BTreeMap<u8, u8>, R>(row, de)?,
        "BTreeMap<i8, u8>" => desk.reads::<BTreeMap<i8, u8>, R>(row, de)?,
        "BTreeMap<u8, (bool,)>" => desk.reads::<BTreeMap<u8, (bool,)>, R>(row, de)?,
        "BTreeMap<String, u8>" => desk.reads::<BTreeMap<String, u8>, R>(row, de)?,
        "BTreeMap<String, String>" => desk.reads::<BTreeMap<String, String>, R>(row, de)?,
        "BTreeMap<String, Vec<String>>" => {
            desk.reads::<BTreeMap<String, Vec<String>>, R>(row, de)?;
        }
        "(u8, BTreeMap<String, String>)" => {
            desk.reads::<(u8, BTreeMap<String, String>), R>(row, de)?;
        }
        _ => return tagged::judge(desk, row, de),
    }
    Ok(None)
}
