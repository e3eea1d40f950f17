//! The value that a format gives.

use cbor_value::{Float, Map, Value};
use serde::{Deserializer, Format, Kind};
use std::alloc::Global;

/// How many arrays and maps may stand inside one another.
pub(crate) const MAX_DEPTH: usize = 127;

/// The item that comes, of which so many levels may be arrays and maps.
#[cycle(fetch)]
pub(crate) fn fetch<F: Format>(
    alloc: Global,
    from: &mut Deserializer<'_, '_, F>,
    depth: usize,
) -> Result<Value, F::Error> {
    match from.peek()? {
        Kind::Unit => {
            from.take_unit()?;
            Ok(Value::Null)
        }
        Kind::Bool => Ok(Value::Bool(from.bool()?)),
        Kind::Unsigned | Kind::Signed => Ok(Value::Integer(from.i128()?)),
        Kind::Float => Ok(Value::Float(Float::from(from.f64()?))),
        Kind::Str => fetch_text(alloc, from),
        Kind::Bytes => Ok(Value::Bytes(from.byte_buf(alloc)?)),
        Kind::Seq if depth > 0 => Ok(Value::Array(fetch_items(alloc, from, depth - 1)?)),
        Kind::Map if depth > 0 => Ok(Value::Map(fetch_map(alloc, from, depth - 1)?)),
        Kind::Seq | Kind::Map => Err(from.custom("recursion limit exceeded")),
    }
}

// A text, or the integer that a format shows as one, where names may be integers.
fn fetch_text<F: Format>(
    alloc: Global,
    from: &mut Deserializer<'_, '_, F>,
) -> Result<Value, F::Error> {
    let mark = from.mark();
    match from.string(alloc) {
        Ok(text) => {
            from.release(mark);
            Ok(Value::Text(text))
        }
        Err(error) if from.is_fatal(&error) => Err(error),
        Err(_error) => {
            from.rewind(mark);
            from.release(mark);
            Ok(Value::Integer(from.i128()?))
        }
    }
}

#[cycle(fetch)]
fn fetch_items<F: Format>(
    alloc: Global,
    from: &mut Deserializer<'_, '_, F>,
    depth: usize,
) -> Result<Vec<Value>, F::Error> {
    from.begin_seq()?;
    let mut items = Vec::new(alloc);
    for _ in 0..u64::MAX {
        if !from.next_item()? {
            break;
        }
        if items.push(fetch(alloc, from, depth)?).is_err() {
            return Err(from.no_memory());
        }
    }
    Ok(items)
}

// Of equal keys the last has its value in the map.
#[cycle(fetch)]
fn fetch_map<F: Format>(
    alloc: Global,
    from: &mut Deserializer<'_, '_, F>,
    depth: usize,
) -> Result<Map, F::Error> {
    from.begin_map()?;
    let mut pairs = Vec::new(alloc);
    for _ in 0..u64::MAX {
        if !from.next_entry()? {
            break;
        }
        let key = fetch(alloc, from, depth)?;
        let value = fetch(alloc, from, depth)?;
        if pairs.push((key, value)).is_err() {
            return Err(from.no_memory());
        }
    }
    match Map::from_pairs(pairs) {
        Ok(map) => Ok(map),
        Err(_error) => Err(from.no_memory()),
    }
}
