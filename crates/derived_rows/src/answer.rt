//! The answer of a row, as the library gives it.

use crate::row::Row;
use cbor_serde::{Options, Result, from_reader_with, from_slice_with, to_vec_with};
use serde::{Deserialize, DeserializeOwned, Serialize};
use std::alloc::Global;
use std::fmt::Debug;

/// Whether the row's bytes are read as it says, of a slice, and that is written as it says.
pub fn of_slice<'a, T: Deserialize<'a> + Serialize + Debug>(
    options: Options,
    alloc: Global,
    row: &Row<'_>,
    bytes: &'a [u8],
) -> Result<bool> {
    is_answered::<T>(options, alloc, row, from_slice_with(options, alloc, bytes))
}

/// The same of a slice and of a reader.
pub fn of_both<'a, T: Deserialize<'a> + DeserializeOwned + Serialize + Debug>(
    options: Options,
    alloc: Global,
    row: &Row<'_>,
    bytes: &'a [u8],
) -> Result<bool> {
    let read = from_reader_with(options, alloc, bytes);
    let by_reader = is_answered::<T>(options, alloc, row, read)?;
    let by_slice = of_slice::<T>(options, alloc, row, bytes)?;
    Ok(by_slice && by_reader)
}

// Whether this is what the row says.
fn is_answered<T: Serialize + Debug + Drop>(
    options: Options,
    alloc: Global,
    row: &Row<'_>,
    read: Result<T>,
) -> Result<bool> {
    let value = match read {
        Ok(value) => value,
        Err(error) if error.is_data() => return Ok(row.answer == "data"),
        Err(error) => {
            let words = format!(in alloc; "{error}")?;
            return Ok(row.answer == words.as_str());
        }
    };
    let shown = format!(in alloc; "{value:?}")?;
    if row.answer != shown.as_str() {
        return Ok(false);
    }
    if row.written.is_empty() {
        return Ok(true);
    }
    let written = to_vec_with(options, alloc, &value)?;
    let text = hex::encode(alloc, &written)?;
    Ok(row.written == text.as_str())
}
