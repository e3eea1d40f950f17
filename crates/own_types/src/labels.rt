//! A struct whose keys are integers.

ghost use Rattle.std.specs.Prelude.{map, refl};
ghost use Rattle.serde_cbor.specs.Schemas.{optional, under_labels};
ghost use Rattle.own_types.specs.declared.labels.TheConstants.{KEY, KEY_LABELS};

use serde_cbor::de::{Deserialize, DeserializeOwned, Read, ReadBy, Readable, read_described};
use serde_cbor::parts::{FieldLabels, Labelled, Optional, Schema};
use serde_cbor::round_trip::RoundTripBy;
use serde_cbor::ser::{OptionalField, Serialize, Serializer, Write, WrittenBy};
use serde_cbor::{Deserializer, Result, RoundTrip};

/// What keys of COSE have in common: their type, and the algorithm (RFC 9052, section 7.1).
#[derive(Debug, Drop)]
pub struct Key {
    pub kty: i64,
    pub alg: Option<i64>,
}

/// The names of its fields.
const KEY: &[&str] = &["kty", "alg"];

/// Their labels.
const KEY_LABELS: &[i64] = &[1, 3];

/// The fields of a key.
pub struct KeyFields;

impl FieldLabels for KeyFields {
    type Parts = (i64, Optional<i64>);

    ghost labels = { KEY_LABELS.now };

    fn labels() -> &'static [i64] {
        KEY_LABELS
    }
}

impl Schema for Key {
    type Parts = Labelled<KeyFields>;

    ghost names = { map (λ n. n.now) KEY.now };

    ghost parts = { λ k. under_labels (k.kty, optional k.alg) };

    fn names() -> &'static [&'static str] {
        KEY
    }

    fn from_parts(Labelled((kty, alg)): Self::Parts) -> Key {
        Key { kty, alg: alg.0 }
    }
}

impl Serialize for Key {
    ghost document = { ⟦<Self as WrittenBy<<Self as Schema>::Parts>>⟧.document };

    fn serialize<W: Write>(&self, ser: &mut Serializer<W>) -> Result<()> {
        ser.serialize_labelled(self, &(&self.kty, OptionalField(&self.alg)))
    }
}

impl Readable for Key {
    ghost reads = { ⟦<Self as ReadBy<<Self as Schema>::Parts>>⟧.reads };

    ghost wrong_forms = { ⟦<Self as ReadBy<<Self as Schema>::Parts>>⟧.wrong_forms };
}

impl<'de, R: Read<'de>> Deserialize<'de, R> for Key {
    fn deserialize(de: &mut Deserializer<R>) -> Result<Key> {
        read_described(de)
    }
}

impl DeserializeOwned for Key {
    ghost same = { λ f a b r k h. h };
}

impl RoundTrip for Key {
    ghost law = { ⟦<Self as RoundTripBy<<Self as Schema>::Parts>>⟧.law.by_names refl refl };

    ghost back = { Self.law.back };
}
