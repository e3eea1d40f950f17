//! Strict reading: the canonical encoding alone is read.

use crate::desk::{Desk, Step};
use crate::how::Source;
use crate::row::Row;
use cbor_de::from_slice;
use cbor_io::error::Result;
use cbor_ser::to_vec;
use cbor_strict::from_slice_canonical;
use cbor_value::Value;
use std::alloc::Global;
use std::io;

/// Judges a row of a value that is read strictly; false where its type is another.
pub fn judge(desk: &mut Desk<'_>, row: &Row<'_>) -> io::Result<bool> {
    if row.kind != "Value" {
        return Ok(false);
    }
    desk.begins(Step::Read(Source::Slice))?;
    let read = from_slice_canonical(desk.rt.alloc(), &row.bytes);
    desk.judges_and_writes(row, read)?;
    Ok(true)
}

/// Has what is written of a row's value read strictly, and written again.
pub fn reads_back(desk: &mut Desk<'_>, row: &Row<'_>) -> io::Result<()> {
    match is_read_back(desk.rt.alloc(), &row.bytes) {
        Ok(true) => Ok(()),
        Ok(false) | Err(_) => desk.reports_strict(),
    }
}

// Whether what is written of these bytes is read strictly as what they are.
fn is_read_back(alloc: Global, bytes: &[u8]) -> Result<bool> {
    let value: Value = from_slice(alloc, bytes)?;
    let spelling = to_vec(alloc, &value)?;
    let again = from_slice_canonical(alloc, &spelling)?;
    Ok(again == value && to_vec(alloc, &again)?.as_slice() == spelling.as_slice())
}
