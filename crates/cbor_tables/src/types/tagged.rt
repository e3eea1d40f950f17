//! Values with the outermost tag of their item, or within one that has to be there.

use crate::desk::Desk;
use crate::row::Row;
use cbor_convert::{Encoded, Required, Tagged};
use cbor_de::Deserializer;
use cbor_read::Read;
use cbor_value::Value;
use cbor_value::bytes::ByteBuf;
use std::collections::BTreeMap;
use std::io;

/// Tags around a pair, around its parts, and around a map's keys and values.
type Nest = Tagged<
    (
        Tagged<String>,
        Tagged<BTreeMap<Tagged<String>, Tagged<String>>>,
    ),
>;

/// Judges a row of one of these; gives the deserializer back where the type is another.
pub fn judge<'r, R: Read<'r> + Drop>(
    desk: &mut Desk<'_>,
    row: &Row<'_>,
    de: Deserializer<R>,
) -> io::Result<Option<Deserializer<R>>> {
    match row.kind {
        "Tagged<u8>" => desk.reads::<Tagged<u8>, R>(row, de)?,
        "Tagged<i128>" => desk.reads::<Tagged<i128>, R>(row, de)?,
        "Tagged<Value>" => desk.reads::<Tagged<Value>, R>(row, de)?,
        "Tagged<Tagged<u8>>" => desk.reads::<Tagged<Tagged<u8>>, R>(row, de)?,
        "Required<1, u32>" => desk.reads::<Required<1, u32>, R>(row, de)?,
        "Required<24, ByteBuf>" => desk.reads::<Required<24, ByteBuf>, R>(row, de)?,
        "Encoded<Value>" => desk.reads::<Encoded<Value>, R>(row, de)?,
        "Required<61, Required<18, Value>>" => {
            desk.reads::<Required<61, Required<18, Value>>, R>(row, de)?;
        }
        "Nest" => desk.reads::<Nest, R>(row, de)?,
        _ => return Ok(Some(de)),
    }
    Ok(None)
}
