//! What bytes are read as, by each source that a row asks for.

use crate::user_types;
use cbor_tables::rewritten::are_rearranged;
use cbor_tables::{Desk, How, Pieces, Row, SCRATCH, Source, Step, strict, types, values};
use serde_cbor::Deserializer;
use serde_cbor::de::{Read, Source as Bytes};
use std::io;

/// Judges a row by each source that it asks for; false where its type isn't known.
pub fn judge(desk: &mut Desk<'_>, row: &Row<'_>) -> io::Result<bool> {
    if row.how.strict {
        return strict::judge(desk, row);
    }
    if row.kind == "Value" && row.how.reads_all() {
        values::judge(desk, row)?;
        return Ok(true);
    }
    Ok(slice(desk, row)? && scratch(desk, row)? && in_place(desk, row)? && reader(desk, row)?)
}

fn slice(desk: &mut Desk<'_>, row: &Row<'_>) -> io::Result<bool> {
    if !row.asks_for(Source::Slice) {
        return Ok(true);
    }
    desk.step = Step::Read(Source::Slice);
    let de = Deserializer::from_slice(desk.rt.alloc(), &row.bytes);
    typed(desk, row, switched(de, row.how))
}

fn scratch(desk: &mut Desk<'_>, row: &Row<'_>) -> io::Result<bool> {
    if !row.asks_for(Source::Scratch) {
        return Ok(true);
    }
    desk.step = Step::Read(Source::Scratch);
    let mut room = [0; SCRATCH as usize];
    let room = &mut room[..row.how.scratch_len()];
    let de = Deserializer::from_slice_with_scratch(desk.rt.alloc(), &row.bytes, room);
    typed(desk, row, switched(de, row.how))
}

fn in_place(desk: &mut Desk<'_>, row: &Row<'_>) -> io::Result<bool> {
    if !row.asks_for(Source::InPlace) {
        return Ok(true);
    }
    desk.step = Step::Read(Source::InPlace);
    let mut copy = row.bytes.clone()?;
    let de = Deserializer::from_mut_slice(desk.rt.alloc(), &mut copy);
    let is_known = typed(desk, row, switched(de, row.how))?;
    if !are_rearranged(&copy, &row.bytes) {
        desk.reports_lost()?;
    }
    Ok(is_known)
}

fn reader(desk: &mut Desk<'_>, row: &Row<'_>) -> io::Result<bool> {
    if !row.asks_for(Source::Reader) {
        return Ok(true);
    }
    desk.step = Step::Read(Source::Reader);
    let mut pieces = Pieces::new(&row.bytes, row.how.piece);
    let de = Deserializer::from_reader(desk.rt.alloc(), &mut pieces);
    if !typed(desk, row, switched(de, row.how))? {
        return Ok(false);
    }
    if row.is_read() && !row.how.stream {
        before_a_fault(desk, row)?;
    }
    Ok(true)
}

// Of a reader that fails after the item, and isn't asked for more.
fn before_a_fault(desk: &mut Desk<'_>, row: &Row<'_>) -> io::Result<()> {
    let mut pieces = Pieces::failing(&row.bytes);
    let de = Deserializer::from_reader(desk.rt.alloc(), &mut pieces);
    desk.step = Step::Read(Source::Reader);
    desk.ends = false;
    typed(desk, row, switched(de, row.how))?;
    desk.ends = true;
    if pieces.failed {
        desk.reports_asked()?;
    }
    Ok(())
}

// Judges what is read as the type that a row names; false where no type has that name.
fn typed<'r, R: Read<'r> + Drop>(
    desk: &mut Desk<'_>,
    row: &Row<'_>,
    de: Deserializer<R>,
) -> io::Result<bool> {
    let Some(de) = types::judge(desk, row, de)? else {
        return Ok(true);
    };
    user_types::judge(desk, row, de)
}

// In the formats of a row, and as deep.
fn switched<R: Bytes>(de: Deserializer<R>, how: How) -> Deserializer<R> {
    let formats = how.reads;
    let mut de = de.nesting_limit(how.levels());
    if !formats.names {
        de = de.disable_named_format();
    }
    if !formats.numbers {
        de = de.disable_packed_format();
    }
    if !formats.map_enums {
        de = de.disable_standard_enums();
    }
    if !formats.array_enums {
        de = de.disable_legacy_enums();
    }
    de
}
