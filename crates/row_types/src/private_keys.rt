//! Structs whose keys are labels: keys of COSE that are kept secret (RFC 8152, section 13).

use serde_cbor::bytes::ByteBuf;
use serde_cbor::de::{Deserialize, DeserializeOwned, Read, ReadBy, Readable, read_described};
use serde_cbor::parts::{FieldLabels, Labelled, Schema};
use serde_cbor::ser::{Serialize, Serializer, Write, WrittenBy};
use serde_cbor::{Deserializer, Result};

/// A key of an elliptic curve with its secret number, for any algorithm (RFC 8152, section 13.1.1).
/// Its labels ascend by their bytes.
#[derive(Debug, Drop)]
pub struct PrivateKey {
    pub kty: i64,
    pub kid: ByteBuf,
    pub crv: i64,
    pub x: ByteBuf,
    pub y: ByteBuf,
    pub d: ByteBuf,
}

const PRIVATE_KEY: &[&str] = &["kty", "kid", "crv", "x", "y", "d"];

const PRIVATE_KEY_LABELS: &[i64] = &[1, 2, -1, -2, -3, -4];

/// The labels of its fields.
pub struct PrivateKeyLabels;

impl FieldLabels for PrivateKeyLabels {
    ghost use Rattle.row_types.specs.declared.private_keys.TheConstants.{PRIVATE_KEY_LABELS};

    type Parts = (i64, ByteBuf, i64, ByteBuf, ByteBuf, ByteBuf);

    ghost labels = { PRIVATE_KEY_LABELS.now };

    fn labels() -> &'static [i64] {
        PRIVATE_KEY_LABELS
    }
}

impl Schema for PrivateKey {
    ghost use Rattle.std.specs.Prelude.{map};
    ghost use Rattle.serde_cbor.specs.Schemas.{under_labels};
    ghost use Rattle.row_types.specs.declared.private_keys.TheConstants.{PRIVATE_KEY};

    type Parts = Labelled<PrivateKeyLabels>;

    ghost names = { map (λ n. n.now) PRIVATE_KEY.now };

    ghost parts = { λ k. under_labels (k.kty, k.kid, k.crv, k.x, k.y, k.d) };

    fn names() -> &'static [&'static str] {
        PRIVATE_KEY
    }

    fn from_parts(Labelled((kty, kid, crv, x, y, d)): Self::Parts) -> PrivateKey {
        PrivateKey {
            kty,
            kid,
            crv,
            x,
            y,
            d,
        }
    }
}

impl Serialize for PrivateKey {
    ghost document = { ⟦<Self as WrittenBy<<Self as Schema>::Parts>>⟧.document };

    fn serialize<W: Write>(&self, ser: &mut Serializer<W>) -> Result<()> {
        let fields = (&self.kty, &self.kid, &self.crv, &self.x, &self.y, &self.d);
        ser.serialize_labelled(self, &fields)
    }
}

impl Readable for PrivateKey {
    ghost reads = { ⟦<Self as ReadBy<<Self as Schema>::Parts>>⟧.reads };

    ghost wrong_forms = { ⟦<Self as ReadBy<<Self as Schema>::Parts>>⟧.wrong_forms };
}

impl<'de, R: Read<'de>> Deserialize<'de, R> for PrivateKey {
    fn deserialize(de: &mut Deserializer<R>) -> Result<PrivateKey> {
        read_described(de)
    }
}

impl DeserializeOwned for PrivateKey {
    ghost same = { λ f a b r k h. h };
}

/// A secret that both sides have, for any algorithm (RFC 8152, section 13.3). Its labels ascend by
/// their bytes.
#[derive(Debug, Drop)]
pub struct SharedKey {
    pub kty: i64,
    pub kid: ByteBuf,
    pub k: ByteBuf,
}

const SHARED_KEY: &[&str] = &["kty", "kid", "k"];

const SHARED_KEY_LABELS: &[i64] = &[1, 2, -1];

/// The labels of its fields.
pub struct SharedKeyLabels;

impl FieldLabels for SharedKeyLabels {
    ghost use Rattle.row_types.specs.declared.private_keys.TheConstants.{SHARED_KEY_LABELS};

    type Parts = (i64, ByteBuf, ByteBuf);

    ghost labels = { SHARED_KEY_LABELS.now };

    fn labels() -> &'static [i64] {
        SHARED_KEY_LABELS
    }
}

impl Schema for SharedKey {
    ghost use Rattle.std.specs.Prelude.{map};
    ghost use Rattle.serde_cbor.specs.Schemas.{under_labels};
    ghost use Rattle.row_types.specs.declared.private_keys.TheConstants.{SHARED_KEY};

    type Parts = Labelled<SharedKeyLabels>;

    ghost names = { map (λ n. n.now) SHARED_KEY.now };

    ghost parts = { λ k. under_labels (k.kty, k.kid, k.k) };

    fn names() -> &'static [&'static str] {
        SHARED_KEY
    }

    fn from_parts(Labelled((kty, kid, k)): Self::Parts) -> SharedKey {
        SharedKey { kty, kid, k }
    }
}

impl Serialize for SharedKey {
    ghost document = { ⟦<Self as WrittenBy<<Self as Schema>::Parts>>⟧.document };

    fn serialize<W: Write>(&self, ser: &mut Serializer<W>) -> Result<()> {
        let fields = (&self.kty, &self.kid, &self.k);
        ser.serialize_labelled(self, &fields)
    }
}

impl Readable for SharedKey {
    ghost reads = { ⟦<Self as ReadBy<<Self as Schema>::Parts>>⟧.reads };

    ghost wrong_forms = { ⟦<Self as ReadBy<<Self as Schema>::Parts>>⟧.wrong_forms };
}

impl<'de, R: Read<'de>> Deserialize<'de, R> for SharedKey {
    fn deserialize(de: &mut Deserializer<R>) -> Result<SharedKey> {
        read_described(de)
    }
}

impl DeserializeOwned for SharedKey {
    ghost same = { λ f a b r k h. h };
}
