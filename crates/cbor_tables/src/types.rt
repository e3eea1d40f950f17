//! The types that a row may name: std's, byte strings, values, and tags.

mod bytes;
mod lists;
mod maps;
mod numbers;
mod strings;
mod tagged;

use crate::desk::Desk;
use crate::row::Row;
use cbor_de::Deserializer;
use cbor_read::Read;
use std::io;

/// Judges what is read as the type that a row names; gives the deserializer back where no type of
/// these has that name.
pub fn judge<'r, R: Read<'r> + Drop>(
    desk: &mut Desk<'_>,
    row: &Row<'_>,
    de: Deserializer<R>,
) -> io::Result<Option<Deserializer<R>>> {
    numbers::judge(desk, row, de)
}
