//! Times: a text, or seconds.

ghost use Rattle.std.specs.Prelude.{IfErr, IfOk};
ghost use Rattle.cbor_value.specs.View.{view};
ghost use Rattle.cbor_decode_as.specs.Takes.{IsMessage};
ghost use Rattle.cbor_tags.specs.Times.{IsSeconds, seconds_document};

use crate::tag::within_tag;
use cbor_convert::Required;
use cbor_de::{Deserialize, DeserializeOwned, Deserializer, Readable};
use cbor_io::error::{Error, Result};
use cbor_read::Read;
use cbor_round_trip::RoundTrip;
use cbor_ser::{Serialize, Serializer, Write};
use cbor_value::{Float, Value};
use std::alloc::Global;

/// A date and time as a text, as tag 0 has it (RFC 8949, section 3.4.1).
///
/// The text is kept as it came: that it is a date and time by RFC 3339 isn't looked at. What a
/// `String` doesn't read is refused with `invalid type: expected a string`, and what it reads that
/// isn't within the tag with `invalid type: expected tag 0`.
///
/// ```rust
/// let time: DateTime = from_slice(alloc, b"\xc0\x742013-03-21T20:04:00Z")?;
/// assert_eq!(rt; time.0.as_str(), "2013-03-21T20:04:00Z");
/// ```
#[derive(Clone, Debug, Drop, PartialEq, Eq)]
pub struct DateTime(
    /// The text.
    pub String,
);

/// Tag 0, and the text.
impl Serialize for DateTime {
    ghost use Rattle.std.specs.String.{string_bytes};
    ghost use Rattle.cbor_model.specs.Document.{tagged, text};

    ghost document = { λ t. tagged 0 (text (string_bytes t.0)) };

    fn serialize<W: Write>(&self, ser: &mut Serializer<W>) -> Result<()> {
        within_tag(ser, 0, &self.0)
    }
}

/// The text within tag 0.
impl Readable for DateTime {
    ghost use Rattle.std.specs.Prelude.{Some, true};
    ghost use Rattle.cbor_convert.specs.Tagged.{IsTagged};
    ghost use Rattle.cbor_de.specs.Forms.{never};

    ghost reads = { λ c r t. IsTagged (⟦<String as Readable>⟧.reads c) r (Some 0) t.0 };

    ghost wrong_forms = { never };

    ghost reports_faults = { true };
}

impl<'de, R: Read<'de>> Deserialize<'de, R> for DateTime {
    fn deserialize(de: &mut Deserializer<R>) -> Result<DateTime> {
        match Required::<0, String>::deserialize(de) {
            Ok(within) => Ok(DateTime(within.0)),
            Err(e) => Err(e),
        }
    }
}

impl DeserializeOwned for DateTime {
    ghost same = { λ f a b r x h. h };
}

impl RoundTrip for DateTime {
    ghost use Rattle.cbor_round_trip.specs.Tagged.{required_back};
    ghost use Rattle.cbor_round_trip.specs.TypeLaws.{law_of};

    ghost law = { law_of (required_back ⟦<String as RoundTrip>⟧.law.back {n = 0}
        {inner = λ t. t.0}) };

    ghost back = { Self.law.back };
}

/// A time in seconds since 1970-01-01T00:00Z, as tag 1 has it (RFC 8949, section 3.4.2): an integer
/// or a float, and written as the one that it is.
///
/// An item without the tag is refused with `invalid type: expected tag 1`, one within it that is
/// neither with `invalid type: expected an integer or a float`, and an integer that 64 bits don't
/// hold with `integer out of range: expected i64`.
///
/// ```rust
/// let time: EpochTime = from_slice(alloc, b"\xc1\x1a\x51\x4b\x67\xb0")?;
/// assert_eq!(rt; time, EpochTime::Seconds(1363896240));
/// let bytes = to_vec(alloc, &EpochTime::Float(Float::from(1363896240.5)))?;
/// assert_eq!(rt; bytes.as_slice(), b"\xc1\xfb\x41\xd4\x52\xd9\xec\x20\0\0".as_slice());
/// ```
#[derive(Clone, Copy, Debug, PartialEq, Eq)]
pub enum EpochTime {
    /// Whole seconds, which before 1970 are negative.
    Seconds(i64),
    /// Seconds and parts of one, in the width that was read.
    Float(Float),
}

/// Tag 1, and the seconds.
impl Serialize for EpochTime {
    ghost use Rattle.cbor_model.specs.Document.{tagged};

    ghost document = { λ t. tagged 1 (seconds_document t) };

    fn serialize<W: Write>(&self, ser: &mut Serializer<W>) -> Result<()> {
        match self {
            EpochTime::Seconds(seconds) => within_tag(ser, 1, seconds),
            EpochTime::Float(seconds) => within_tag(ser, 1, seconds),
        }
    }
}

/// The integer or the float within tag 1.
impl Readable for EpochTime {
    ghost use Rattle.std.specs.Prelude.{Some, true};
    ghost use Rattle.cbor_model.specs.Value.{value};
    ghost use Rattle.cbor_convert.specs.Tagged.{IsTagged};
    ghost use Rattle.cbor_de.specs.Forms.{key_form};

    ghost reads = { λ c r t. IsTagged (λ s x. IsSeconds (value s) x) r (Some 1) t };

    ghost wrong_forms = { key_form };

    ghost reports_faults = { true };
}

impl<'de, R: Read<'de>> Deserialize<'de, R> for EpochTime {
    fn deserialize(de: &mut Deserializer<R>) -> Result<EpochTime> {
        let alloc = de.alloc();
        match Required::<1, Value>::deserialize(de) {
            Ok(within) => seconds_of(alloc, &within.0),
            Err(e) => Err(e),
        }
    }
}

impl DeserializeOwned for EpochTime {
    ghost same = { λ f a b r x h. h };
}

impl RoundTrip for EpochTime {
    ghost use Rattle.cbor_round_trip.specs.Tagged.{required_back};
    ghost use Rattle.cbor_round_trip.specs.TypeLaws.{law_of};
    ghost use Rattle.cbor_tags.specs.TimeLaw.{seconds_back};

    ghost law = { law_of (required_back seconds_back {n = 1} {inner = λ t. t}) };

    ghost back = { Self.law.back };
}

// The seconds that a value is.
fn seconds_of(alloc: Global, value: &Value) -> Result<EpochTime>
    ensures seconds { IfOk result (IsSeconds (view value.now)) }
    ensures none { IfErr result (λ e. (t : EpochTime) → IsSeconds (view value.now) t → ⊥) }
    ensures message { IfErr result IsMessage }
{
    match value {
        Value::Integer(n) => match i64::try_from(*n) {
            Ok(seconds) => Ok(EpochTime::Seconds(seconds)),
            Err(_) => Err(Error::message(alloc, "integer out of range: expected i64")),
        },
        Value::Float(seconds) => Ok(EpochTime::Float(*seconds)),
        _ => Err(Error::message(alloc, "invalid type: expected an integer or a float")),
    }
}
