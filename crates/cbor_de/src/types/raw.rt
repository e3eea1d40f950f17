//! Items that aren't decoded.

ghost use Rattle.std.specs.Prelude.{IfErr, IfOk};
ghost use Rattle.cbor_decode.specs.Decoder.{SameSettings};
ghost use Rattle.cbor_raw.specs.Gathered.{GathersNone, IsGathered};
ghost use Rattle.cbor_value.specs.RawBytes.{raw_bytes};

use crate::de::Deserializer;
use crate::deserialize::{Deserialize, DeserializeOwned, Readable};
use cbor_decode_as::raw::read_raw;
use cbor_io::error::Result;
use cbor_raw::gather::gather;
use cbor_raw::owned::read_owned;
use cbor_read::{Read, Source};
use cbor_value::raw_value::{RawSlice, RawValue, raw_slice, raw_value};

/// Any item, as the bytes that encode it, from any source. They are copied.
///
/// Where the source doesn't show the item's bytes, as a reader, they are taken one by one, into
/// memory that grows with them.
impl Readable for RawValue {
    ghost use Rattle.cbor_model.specs.Encoding.{Encodes};
    ghost use Rattle.cbor_value.specs.RawBytes.{raw_bytes};

    ghost reads = { λ c r x. Encodes (raw_bytes x) r };
}

impl<'de, R: Read<'de>> Deserialize<'de, R> for RawValue {
    fn deserialize(de: &mut Deserializer<R>) -> Result<RawValue> {
        match read_owned(&mut de.decoder) {
            Ok(bytes) => Ok(raw_value(bytes)),
            Err(error) => Err(error),
        }
    }
}

impl DeserializeOwned for RawValue {
    ghost same = { λ f a b r u h. h };
}

/// Any item, as the bytes that encode it, which the source lends for the input's life.
///
/// From a source that doesn't, as a reader, an item is refused with `invalid type: expected an item
/// that the input lends`.
impl Readable for RawSlice<'_> {
    ghost use Rattle.std.specs.Prelude.{true};
    ghost use Rattle.cbor_decode_as.specs.RawItems.{IsLentItem};
    ghost use Rattle.cbor_value.specs.RawBytes.{slice_bytes};

    ghost reads = { λ c r x. IsLentItem c r (slice_bytes x) };

    ghost reports_faults = { true };
}

impl<'de, R: Read<'de>> Deserialize<'de, R> for RawSlice<'de> {
    fn deserialize(de: &mut Deserializer<R>) -> Result<RawSlice<'de>> {
        match read_raw(&mut de.decoder) {
            Ok(bytes) => Ok(raw_slice(bytes)),
            Err(error) => Err(error),
        }
    }
}

impl<R: Source> Deserializer<R> {
    /// Takes the next item without decoding it, from any source: its bytes, and none behind them.
    ///
    /// It takes the bytes one by one, into memory that grows with them, as far as the item's heads
    /// say. The item may be nested as deep as the levels that are left, with keys of any format and
    /// strings in chunks of any length, where a [`RawValue`] that is read as a type keeps to the
    /// formats that are read and to the source's scratch.
    ///
    /// Bytes that no item begins with are refused as soon as they show it, and an end before the
    /// item's, by the errors that reading it returns.
    ///
    /// ```rust
    /// let reader: &[u8] = b"\x82\x18\x01\x02\x05"; // or any other `io::Read`
    /// let mut de = Deserializer::from_reader(alloc, reader);
    /// let item = de.raw_item()?;
    /// assert_eq!(rt; item.as_bytes(), b"\x82\x18\x01\x02".as_slice());
    /// assert_eq!(rt; u8::deserialize(&mut de)?, 5);
    /// ```
    pub fn raw_item(&mut self) -> Result<RawValue>
        // Exactly these bytes were taken, and they are one acceptable item.
        ensures ok { IfOk result (λ v. IsGathered self.old.decoder.levels
            (R.source self.old.decoder.source) (R.source self.new.decoder.source) (raw_bytes v)) }
        // No acceptable item stands there, but where memory ran out or the device has a fault.
        ensures err { IfErr result (GathersNone R.refusals self.old.decoder.levels
            (R.source self.old.decoder.source) (R.source self.new.decoder.source)) }
        ensures settings { SameSettings self.old.decoder self.new.decoder }
    {
        match gather(&mut self.decoder) {
            Ok(bytes) => Ok(raw_value(bytes)),
            Err(error) => Err(error),
        }
    }
}
