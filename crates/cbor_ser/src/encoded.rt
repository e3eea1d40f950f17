//! Items that aren't decoded, which are written as they are.

ghost use Rattle.std.specs.Prelude.{◌≡◌};
ghost use Rattle.cbor_model.specs.Document.{encoded};
ghost use Rattle.cbor_model.specs.Encoding.{Encodes};
ghost use Rattle.cbor_model.specs.Parts.{item};
ghost use Rattle.cbor_model.specs.Raw.{Raw};
ghost use Rattle.cbor_ser.specs.Serialized.{Serialized};

use crate::serialize::Serialize;
use crate::serializer::Serializer;
use cbor_io::error::Result;
use cbor_io::write::Write;
use cbor_value::raw_value::{RawSlice, RawValue};

// Appends the bytes that encode an item, as they are.
fn write_encoded<W: Write>(ser: &mut Serializer<W>, bytes: &[u8]) -> Result<()>
    ensures { (r : Raw) → Encodes bytes.now r →
        Serialized W.written W.refuses W.references W.capacity ser.old (item (encoded r))
        ser.new result }
{
    ser.write_piece(bytes)
}

impl Serialize for RawValue {
    ghost use Rattle.cbor_model.specs.Document.{encoded};
    ghost use Rattle.cbor_model.specs.Encoding.{encoded_item};
    ghost use Rattle.cbor_value.specs.RawBytes.{raw_bytes};

    ghost document = { λ v. encoded (encoded_item (raw_bytes v)) };

    fn serialize<W: Write>(&self, ser: &mut Serializer<W>) -> Result<()> {
        write_encoded(ser, self.as_bytes())
    }
}

impl Serialize for RawSlice<'_> {
    ghost use Rattle.cbor_model.specs.Document.{encoded};
    ghost use Rattle.cbor_model.specs.Encoding.{encoded_item};
    ghost use Rattle.cbor_value.specs.RawBytes.{slice_bytes};

    ghost document = { λ v. encoded (encoded_item (slice_bytes v)) };

    fn serialize<W: Write>(&self, ser: &mut Serializer<W>) -> Result<()> {
        write_encoded(ser, self.as_bytes())
    }
}
