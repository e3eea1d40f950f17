//! Lists, arrays and tuples.

use crate::desk::Desk;
use crate::row::Row;
use crate::types::maps;
use cbor_de::Deserializer;
use cbor_read::Read;
use cbor_value::Value;
use std::io;

/// Judges a row of one of these, or of another type.
pub fn judge<'r, R: Read<'r> + Drop>(
    desk: &mut Desk<'_>,
    row: &Row<'_>,
    de: Deserializer<R>,
) -> io::Result<Option<Deserializer<R>>> {
    match row.kind {
        "Vec<u8>" => desk.reads::<Vec<u8>, R>(row, de)?,
        "Vec<Vec<u8>>" => desk.reads::<Vec<Vec<u8>>, R>(row, de)?,
        "Vec<Value>" => desk.reads::<Vec<Value>, R>(row, de)?,
        "Vec<Option<bool>>" => desk.reads::<Vec<Option<bool>>, R>(row, de)?,
        "[u64; 2]" => desk.reads::<[u64; 2], R>(row, de)?,
        "[u16; 2]" => desk.reads::<[u16; 2], R>(row, de)?,
        _ => return tuples(desk, row, de),
    }
    Ok(None)
}

fn tuples<'r, R: Read<'r> + Drop>(
    desk: &mut Desk<'_>,
    row: &Row<'_>,
    de: Deserializer<R>,
) -> io::Result<Option<Deserializer<R>>> {
    match row.kind {
        "(u8,)" => desk.reads::<(u8,), R>(row, de)?,
        "(u8, bool)" => desk.reads::<(u8, bool), R>(row, de)?,
        "(u8, u8)" => desk.reads::<(u8, u8), R>(row, de)?,
        "(u8, i8, u16)" => desk.reads::<(u8, i8, u16), R>(row, de)?,
        "(u8, i8, u16, u8)" => desk.reads::<(u8, i8, u16, u8), R>(row, de)?,
        "(bool, (), char, Option<u8>)" => {
            desk.reads::<(bool, (), char, Option<u8>), R>(row, de)?;
        }
        _ => return tuples_of_texts(desk, row, de),
    }
    Ok(None)
}

fn tuples_of_texts<'r, R: Read<'r> + Drop>(
    desk: &mut Desk<'_>,
    row: &Row<'_>,
    de: Deserializer<R>,
) -> io::Result<Option<Deserializer<R>>> {
    match row.kind {
        "(String, String)" => desk.reads::<(String, String), R>(row, de)?,
        "(&str, &str)" => desk.reads::<(&str, &str), R>(row, de)?,
        "(u16, &str)" => desk.reads::<(u16, &str), R>(row, de)?,
        "(u8, i8, &str, ())" => desk.reads::<(u8, i8, &str, ()), R>(row, de)?,
        _ => return maps::judge(desk, row, de),
    }
    Ok(None)
}
