//! Structs whose keys are labels: keys and headers of COSE (RFC 8152, sections 3.1 and 13) and the
//! claims of a token (RFC 8392, section 3.1).

use serde_cbor::bytes::ByteBuf;
use serde_cbor::de::{Deserialize, DeserializeOwned, Read, ReadBy, Readable, read_described};
use serde_cbor::parts::{FieldLabels, Labelled, Optional, Schema};
use serde_cbor::round_trip::RoundTripBy;
use serde_cbor::ser::{OptionalField, Serialize, Serializer, Write, WrittenBy};
use serde_cbor::{Deserializer, Result, RoundTrip};

/// A key of an elliptic curve, in the order in which RFC 8152 prints such keys (section C.7.1).
#[derive(Debug, Drop)]
pub struct PublicKey {
    pub crv: i64,
    pub x: ByteBuf,
    pub y: ByteBuf,
    pub kty: i64,
    pub kid: Option<ByteBuf>,
}

const PUBLIC_KEY: &[&str] = &["crv", "x", "y", "kty", "kid"];

const PUBLIC_KEY_LABELS: &[i64] = &[-1, -2, -3, 1, 2];

/// The labels of its fields.
pub struct PublicKeyLabels;

impl FieldLabels for PublicKeyLabels {
    ghost use Rattle.row_types.specs.declared.labels.TheConstants.{PUBLIC_KEY_LABELS};

    type Parts = (i64, ByteBuf, ByteBuf, i64, Optional<ByteBuf>);

    ghost labels = { PUBLIC_KEY_LABELS.now };

    fn labels() -> &'static [i64] {
        PUBLIC_KEY_LABELS
    }
}

impl Schema for PublicKey {
    ghost use Rattle.std.specs.Prelude.{map};
    ghost use Rattle.serde_cbor.specs.Schemas.{optional, under_labels};
    ghost use Rattle.row_types.specs.declared.labels.TheConstants.{PUBLIC_KEY};

    type Parts = Labelled<PublicKeyLabels>;

    ghost names = { map (λ n. n.now) PUBLIC_KEY.now };

    ghost parts = { λ k. under_labels (k.crv, k.x, k.y, k.kty, optional k.kid) };

    fn names() -> &'static [&'static str] {
        PUBLIC_KEY
    }

    fn from_parts(Labelled((crv, x, y, kty, kid)): Self::Parts) -> PublicKey {
        PublicKey {
            crv,
            x,
            y,
            kty,
            kid: kid.0,
        }
    }
}

impl Serialize for PublicKey {
    ghost document = { ⟦<Self as WrittenBy<<Self as Schema>::Parts>>⟧.document };

    fn serialize<W: Write>(&self, ser: &mut Serializer<W>) -> Result<()> {
        let fields = (
            &self.crv,
            &self.x,
            &self.y,
            &self.kty,
            OptionalField(&self.kid),
        );
        ser.serialize_labelled(self, &fields)
    }
}

impl Readable for PublicKey {
    ghost reads = { ⟦<Self as ReadBy<<Self as Schema>::Parts>>⟧.reads };

    ghost wrong_forms = { ⟦<Self as ReadBy<<Self as Schema>::Parts>>⟧.wrong_forms };
}

impl<'de, R: Read<'de>> Deserialize<'de, R> for PublicKey {
    fn deserialize(de: &mut Deserializer<R>) -> Result<PublicKey> {
        read_described(de)
    }
}

impl DeserializeOwned for PublicKey {
    ghost same = { λ f a b r k h. h };
}

impl RoundTrip for PublicKey {
    ghost use Rattle.std.specs.Prelude.{refl};

    ghost law = { ⟦<Self as RoundTripBy<<Self as Schema>::Parts>>⟧.law.by_names refl refl };

    ghost back = { Self.law.back };
}

/// A secret that both sides have, in the order of RFC 8392, section A.2.
#[derive(Debug, Drop)]
pub struct SymmetricKey {
    pub k: ByteBuf,
    pub kty: i64,
    pub kid: ByteBuf,
    pub alg: i64,
}

const SYMMETRIC_KEY: &[&str] = &["k", "kty", "kid", "alg"];

const SYMMETRIC_KEY_LABELS: &[i64] = &[-1, 1, 2, 3];

/// The labels of its fields.
pub struct SymmetricKeyLabels;

impl FieldLabels for SymmetricKeyLabels {
    ghost use Rattle.row_types.specs.declared.labels.TheConstants.{SYMMETRIC_KEY_LABELS};

    type Parts = (ByteBuf, i64, ByteBuf, i64);

    ghost labels = { SYMMETRIC_KEY_LABELS.now };

    fn labels() -> &'static [i64] {
        SYMMETRIC_KEY_LABELS
    }
}

impl Schema for SymmetricKey {
    ghost use Rattle.std.specs.Prelude.{map};
    ghost use Rattle.serde_cbor.specs.Schemas.{under_labels};
    ghost use Rattle.row_types.specs.declared.labels.TheConstants.{SYMMETRIC_KEY};

    type Parts = Labelled<SymmetricKeyLabels>;

    ghost names = { map (λ n. n.now) SYMMETRIC_KEY.now };

    ghost parts = { λ k. under_labels (k.k, k.kty, k.kid, k.alg) };

    fn names() -> &'static [&'static str] {
        SYMMETRIC_KEY
    }

    fn from_parts(Labelled((k, kty, kid, alg)): Self::Parts) -> SymmetricKey {
        SymmetricKey { k, kty, kid, alg }
    }
}

impl Serialize for SymmetricKey {
    ghost document = { ⟦<Self as WrittenBy<<Self as Schema>::Parts>>⟧.document };

    fn serialize<W: Write>(&self, ser: &mut Serializer<W>) -> Result<()> {
        ser.serialize_labelled(self, &(&self.k, &self.kty, &self.kid, &self.alg))
    }
}

impl Readable for SymmetricKey {
    ghost reads = { ⟦<Self as ReadBy<<Self as Schema>::Parts>>⟧.reads };

    ghost wrong_forms = { ⟦<Self as ReadBy<<Self as Schema>::Parts>>⟧.wrong_forms };
}

impl<'de, R: Read<'de>> Deserialize<'de, R> for SymmetricKey {
    fn deserialize(de: &mut Deserializer<R>) -> Result<SymmetricKey> {
        read_described(de)
    }
}

impl DeserializeOwned for SymmetricKey {
    ghost same = { λ f a b r k h. h };
}

/// The claims of a token (RFC 8392, section 3.1), in the order of section A.1.
#[derive(Debug, Drop)]
pub struct Claims {
    pub iss: String,
    pub sub: String,
    pub aud: String,
    pub exp: u64,
    pub nbf: u64,
    pub iat: u64,
    pub cti: ByteBuf,
}

const CLAIMS: &[&str] = &["iss", "sub", "aud", "exp", "nbf", "iat", "cti"];

const CLAIMS_LABELS: &[i64] = &[1, 2, 3, 4, 5, 6, 7];

/// The labels of its fields.
pub struct ClaimsLabels;

impl FieldLabels for ClaimsLabels {
    ghost use Rattle.row_types.specs.declared.labels.TheConstants.{CLAIMS_LABELS};

    type Parts = (String, String, String, u64, u64, u64, ByteBuf);

    ghost labels = { CLAIMS_LABELS.now };

    fn labels() -> &'static [i64] {
        CLAIMS_LABELS
    }
}

impl Schema for Claims {
    ghost use Rattle.std.specs.Prelude.{map};
    ghost use Rattle.serde_cbor.specs.Schemas.{under_labels};
    ghost use Rattle.row_types.specs.declared.labels.TheConstants.{CLAIMS};

    type Parts = Labelled<ClaimsLabels>;

    ghost names = { map (λ n. n.now) CLAIMS.now };

    ghost parts = { λ c. under_labels (c.iss, c.sub, c.aud, c.exp, c.nbf, c.iat, c.cti) };

    fn names() -> &'static [&'static str] {
        CLAIMS
    }

    fn from_parts(Labelled((iss, sub, aud, exp, nbf, iat, cti)): Self::Parts) -> Claims {
        Claims {
            iss,
            sub,
            aud,
            exp,
            nbf,
            iat,
            cti,
        }
    }
}

impl Serialize for Claims {
    ghost document = { ⟦<Self as WrittenBy<<Self as Schema>::Parts>>⟧.document };

    fn serialize<W: Write>(&self, ser: &mut Serializer<W>) -> Result<()> {
        let fields = (
            &self.iss, &self.sub, &self.aud, &self.exp, &self.nbf, &self.iat, &self.cti,
        );
        ser.serialize_labelled(self, &fields)
    }
}

impl Readable for Claims {
    ghost reads = { ⟦<Self as ReadBy<<Self as Schema>::Parts>>⟧.reads };

    ghost wrong_forms = { ⟦<Self as ReadBy<<Self as Schema>::Parts>>⟧.wrong_forms };
}

impl<'de, R: Read<'de>> Deserialize<'de, R> for Claims {
    fn deserialize(de: &mut Deserializer<R>) -> Result<Claims> {
        read_described(de)
    }
}

impl DeserializeOwned for Claims {
    ghost same = { λ f a b r k h. h };
}

/// The header of a message that isn't protected: which key was taken, and the initialization vector
/// (RFC 8152, section 3.1).
#[derive(Debug, Drop)]
pub struct Headers {
    pub kid: ByteBuf,
    pub iv: Option<ByteBuf>,
}

const HEADERS: &[&str] = &["kid", "iv"];

const HEADERS_LABELS: &[i64] = &[4, 5];

/// The labels of its fields.
pub struct HeadersLabels;

impl FieldLabels for HeadersLabels {
    ghost use Rattle.row_types.specs.declared.labels.TheConstants.{HEADERS_LABELS};

    type Parts = (ByteBuf, Optional<ByteBuf>);

    ghost labels = { HEADERS_LABELS.now };

    fn labels() -> &'static [i64] {
        HEADERS_LABELS
    }
}

impl Schema for Headers {
    ghost use Rattle.std.specs.Prelude.{map};
    ghost use Rattle.serde_cbor.specs.Schemas.{optional, under_labels};
    ghost use Rattle.row_types.specs.declared.labels.TheConstants.{HEADERS};

    type Parts = Labelled<HeadersLabels>;

    ghost names = { map (λ n. n.now) HEADERS.now };

    ghost parts = { λ h. under_labels (h.kid, optional h.iv) };

    fn names() -> &'static [&'static str] {
        HEADERS
    }

    fn from_parts(Labelled((kid, iv)): Self::Parts) -> Headers {
        Headers { kid, iv: iv.0 }
    }
}

impl Serialize for Headers {
    ghost document = { ⟦<Self as WrittenBy<<Self as Schema>::Parts>>⟧.document };

    fn serialize<W: Write>(&self, ser: &mut Serializer<W>) -> Result<()> {
        ser.serialize_labelled(self, &(&self.kid, OptionalField(&self.iv)))
    }
}

impl Readable for Headers {
    ghost reads = { ⟦<Self as ReadBy<<Self as Schema>::Parts>>⟧.reads };

    ghost wrong_forms = { ⟦<Self as ReadBy<<Self as Schema>::Parts>>⟧.wrong_forms };
}

impl<'de, R: Read<'de>> Deserialize<'de, R> for Headers {
    fn deserialize(de: &mut Deserializer<R>) -> Result<Headers> {
        read_described(de)
    }
}

impl DeserializeOwned for Headers {
    ghost same = { λ f a b r k h. h };
}
