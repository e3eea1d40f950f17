//! A value as a field of a type that derives.

use crate::fetch::{MAX_DEPTH, fetch};
use crate::send::send;
use cbor_value::Value;
use serde::{
    Described, Deserialize, DeserializeOwned, Deserializer, Format, Serialize, Serializer,
};
use std::alloc::Global;

/// Any item, as a field of a type that derives the kit's `serde`, or as the whole; in CBOR, and in
/// other formats of the kit.
///
/// Tags are passed over when it is read, and a value with a tag isn't written: the kit's `serde`
/// has none. A float is read as one of 64 bits, and one of 16 bits is written as one of 32.
///
/// ```rust
/// #[derive(Drop, Serialize, Deserialize)]
/// struct Message {
///     id: u32,
///     body: Item,
/// }
/// let message: Message = from_slice(alloc, b"\xa2\x62id\x01\x64body\x82\x01\xf6")?;
/// assert_eq!(rt; message.body.0.as_array().map(|items| items.len()), Some(2));
/// ```
#[derive(Debug, Drop, PartialEq)]
pub struct Item(pub Value);

impl Described for Item {
    ghost use Rattle.cbor_value.specs.View.{view};
    ghost use Rattle.cbor_serde_value.specs.Sent.{SendsValue};

    ghost writes = { λ item. SendsValue (view item.0) };
}

impl Serialize for Item {
    fn serialize<S: Serializer>(&self, out: &mut S) -> Result<(), S::Error> {
        send(&self.0, out)
    }
}

impl<'de> Deserialize<'de> for Item {
    fn deserialize<F: Format>(
        alloc: Global,
        from: &mut Deserializer<'de, '_, F>,
    ) -> Result<Item, F::Error> {
        Ok(Item(fetch(alloc, from, MAX_DEPTH)?))
    }
}

impl DeserializeOwned for Item {
    fn deserialize_owned<F: Format>(
        alloc: Global,
        from: &mut Deserializer<'_, '_, F>,
    ) -> Result<Item, F::Error> {
        Ok(Item(fetch(alloc, from, MAX_DEPTH)?))
    }
}
