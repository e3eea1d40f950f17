//! The fronts of an item, each of which ends too early, and readers that fail after one.

use crate::desk::Desk;
use crate::pieces::Pieces;
use crate::row::Row;
use cbor_de::{Deserializer, from_mut_slice, from_reader, from_slice, from_slice_with_scratch};
use cbor_io::error::{ErrorCode, Result};
use cbor_value::Value;
use std::alloc::Global;
use std::io;

/// Has each proper front of a row's bytes refused by each source, as an end of input at the
/// front's end: no item's encoding begins another's. Where a reader reports a fault after a front,
/// and where it reports one in place of the end, it is that fault that is reported.
pub fn judge(desk: &mut Desk<'_>, row: &Row<'_>) -> io::Result<()> {
    let alloc = desk.rt.alloc();
    let mut scratch = [0; 64];
    for n in 0..row.bytes.len() {
        let front = &row.bytes[..n];
        if !ends_too_early(alloc, front, &mut scratch)? || !reports_fault(alloc, front) {
            desk.reports_front(n)?;
        }
    }
    if !is_fault(&from_reader::<Value, _>(alloc, Pieces::failing(&row.bytes))) {
        desk.reports_front(row.bytes.len())?;
    }
    Ok(())
}

// Whether a reader's fault after a front is reported, by a stream as its last answer.
fn reports_fault(alloc: Global, front: &[u8]) -> bool {
    let mut stream = Deserializer::from_reader(alloc, Pieces::failing(front)).into_iter::<Value>();
    let reported = match stream.next() {
        Some(read) => is_fault(&read),
        None => false,
    };
    let read = from_reader::<Value, _>(alloc, Pieces::failing(front));
    reported && stream.next().is_none() && is_fault(&read)
}

// Whether this is a fault of a reader.
fn is_fault(read: &Result<Value>) -> bool {
    match read {
        Ok(_) => false,
        Err(e) => matches!(e.code(), ErrorCode::Io(_)),
    }
}

// Whether each source refuses a front so.
fn ends_too_early(alloc: Global, front: &[u8], scratch: &mut [u8]) -> io::Result<bool> {
    let mut copy = Vec::from_slice(alloc, front)?;
    let end = front.len();
    Ok(
        is_end(&from_slice::<Value>(alloc, front), end)
            && is_end(
                &from_slice_with_scratch::<Value>(alloc, front, scratch),
                end,
            )
            && is_end(&from_mut_slice::<Value>(alloc, &mut copy), end)
            && is_end(&from_reader::<Value, _>(alloc, Pieces::new(front, 1)), end),
    )
}

// Whether this is the end of an input of so many bytes.
fn is_end(read: &Result<Value>, end: usize) -> bool {
    match read {
        Ok(_) => false,
        Err(e) => e.is_eof() && e.offset() == end as u64,
    }
}
