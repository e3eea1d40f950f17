//! A value within a tag.

ghost use Rattle.cbor_model.specs.Document.{tagged};
ghost use Rattle.cbor_model.specs.Parts.{item};
ghost use Rattle.cbor_ser.specs.Serialized.{Serialized};

use cbor_io::error::Result;
use cbor_ser::{Serialize, Serializer, Write};

/// Appends the tag, and then the value.
pub fn within_tag<T: Serialize, W: Write>(
    ser: &mut Serializer<W>,
    tag: u64,
    value: &T,
) -> Result<()>
    ensures { Serialized W.written W.refuses W.references W.capacity ser.old
        (item (tagged tag (T.document value.now))) ser.new result }
{
    ser.serialize_tag(tag)?;
    value.serialize(ser)
}
