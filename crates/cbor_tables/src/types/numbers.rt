//! Numbers, simple values and floats, and values.

use crate::desk::Desk;
use crate::row::Row;
use crate::types::strings;
use cbor_de::Deserializer;
use cbor_read::Read;
use cbor_value::{Float, Value};
use std::io;

/// Judges a row of one of these, or of another type.
pub fn judge<'r, R: Read<'r> + Drop>(
    desk: &mut Desk<'_>,
    row: &Row<'_>,
    de: Deserializer<R>,
) -> io::Result<Option<Deserializer<R>>> {
    match row.kind {
        "Value" => desk.reads::<Value, R>(row, de)?,
        "bool" => desk.reads::<bool, R>(row, de)?,
        "()" => desk.reads::<(), R>(row, de)?,
        "Float" => desk.reads::<Float, R>(row, de)?,
        _ => return floats(desk, row, de),
    }
    Ok(None)
}

fn floats<'r, R: Read<'r> + Drop>(
    desk: &mut Desk<'_>,
    row: &Row<'_>,
    de: Deserializer<R>,
) -> io::Result<Option<Deserializer<R>>> {
    match row.kind {
        "f32" => desk.reads::<f32, R>(row, de)?,
        "f64" => desk.reads::<f64, R>(row, de)?,
        "Vec<f64>" => desk.reads::<Vec<f64>, R>(row, de)?,
        "Option<f64>" => desk.reads::<Option<f64>, R>(row, de)?,
        _ => return unsigned(desk, row, de),
    }
    Ok(None)
}

fn unsigned<'r, R: Read<'r> + Drop>(
    desk: &mut Desk<'_>,
    row: &Row<'_>,
    de: Deserializer<R>,
) -> io::Result<Option<Deserializer<R>>> {
    match row.kind {
        "u8" => desk.reads::<u8, R>(row, de)?,
        "u16" => desk.reads::<u16, R>(row, de)?,
        "u32" => desk.reads::<u32, R>(row, de)?,
        "u64" => desk.reads::<u64, R>(row, de)?,
        "u128" => desk.reads::<u128, R>(row, de)?,
        "usize" => desk.reads::<usize, R>(row, de)?,
        _ => return signed(desk, row, de),
    }
    Ok(None)
}

fn signed<'r, R: Read<'r> + Drop>(
    desk: &mut Desk<'_>,
    row: &Row<'_>,
    de: Deserializer<R>,
) -> io::Result<Option<Deserializer<R>>> {
    match row.kind {
        "i8" => desk.reads::<i8, R>(row, de)?,
        "i16" => desk.reads::<i16, R>(row, de)?,
        "i32" => desk.reads::<i32, R>(row, de)?,
        "i64" => desk.reads::<i64, R>(row, de)?,
        "i128" => desk.reads::<i128, R>(row, de)?,
        "isize" => desk.reads::<isize, R>(row, de)?,
        _ => return strings::judge(desk, row, de),
    }
    Ok(None)
}
