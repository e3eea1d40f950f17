//! Rows of a `Value`, which are read by the calls that read a whole input.

use crate::desk::{Desk, Step};
use crate::how::{SCRATCH, Source};
use crate::pieces::Pieces;
use crate::rewritten::are_rearranged;
use crate::row::Row;
use crate::{fronts, strict};
use cbor_de::{Deserializer, from_mut_slice, from_reader, from_slice, from_slice_with_scratch};
use cbor_value::Value;
use std::io;

/// Judges a row of a value that is read in all formats. One that is read, by each source, shows too
/// that each proper front of it is refused, and that it is read strictly as it is written.
pub fn judge(desk: &mut Desk<'_>, row: &Row<'_>) -> io::Result<()> {
    sources(desk, row)?;
    if row.how.source.is_none() && row.is_read() && !desk.reports_each {
        fronts::judge(desk, row)?;
        strict::reads_back(desk, row)?;
    }
    Ok(())
}

// Judges what each source that the row asks for gives, by the calls that read a whole input.
fn sources(desk: &mut Desk<'_>, row: &Row<'_>) -> io::Result<()> {
    let alloc = desk.rt.alloc();
    let bytes = &row.bytes;
    if row.asks_for(Source::Slice) {
        desk.begins(Step::Read(Source::Slice))?;
        let read = from_slice::<Value>(alloc, bytes);
        desk.judges_and_writes(row, read)?;
    }
    if row.asks_for(Source::Scratch) {
        let mut room = [0; SCRATCH as usize];
        let room = &mut room[..row.how.scratch_len()];
        desk.begins(Step::Read(Source::Scratch))?;
        let read = from_slice_with_scratch::<Value>(alloc, bytes, room);
        desk.judges_and_writes(row, read)?;
    }
    if row.asks_for(Source::InPlace) {
        let mut copy = bytes.clone()?;
        desk.begins(Step::Read(Source::InPlace))?;
        let read = from_mut_slice::<Value>(alloc, &mut copy);
        desk.judges_and_writes(row, read)?;
        if !are_rearranged(&copy, bytes) {
            desk.reports_lost()?;
        }
    }
    if row.asks_for(Source::Reader) {
        desk.begins(Step::Read(Source::Reader))?;
        let read = from_reader::<Value, _>(alloc, Pieces::new(bytes, row.how.piece));
        desk.judges_and_writes(row, read)?;
        if row.is_read() {
            before_a_fault(desk, row)?;
        }
    }
    Ok(())
}

// Of a reader that fails after the item, and isn't asked for more.
fn before_a_fault(desk: &mut Desk<'_>, row: &Row<'_>) -> io::Result<()> {
    let mut pieces = Pieces::failing(&row.bytes);
    let de = Deserializer::from_reader(desk.rt.alloc(), &mut pieces);
    desk.step = Step::Read(Source::Reader);
    desk.ends = false;
    desk.reads::<Value, _>(row, de)?;
    desk.ends = true;
    if pieces.failed {
        desk.reports_asked()?;
    }
    Ok(())
}
