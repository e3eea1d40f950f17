//! Big numbers: integers of any length, as byte strings.

ghost use Rattle.std.specs.Prelude.{◌≡◌, ◌≤◌, ◌^◌, Bool, IfOk, MatchOption, Some};
ghost use Rattle.cbor_io.specs.Compare.{big_endian};
ghost use Rattle.cbor_tags.specs.Numbers.{HasNoLeadingZero, integer_of, sign_tag};

use crate::number::{number_of, shortest};
use crate::tag::within_tag;
use cbor_convert::{Required, Tagged};
use cbor_de::{Deserialize, DeserializeOwned, Deserializer, Readable};
use cbor_io::error::{Error, Result};
use cbor_read::Read;
use cbor_round_trip::RoundTrip;
use cbor_ser::{Serialize, Serializer, Write};
use cbor_value::bytes::ByteBuf;
use std::alloc::{AllocError, Global};

/// A number from 0 on, as the bytes of tag 2 (RFC 8949, section 3.4.3): in network byte order, and
/// of any length.
///
/// It keeps the bytes as they came, also leading zeros, which the preferred form leaves out; so two
/// that are equal as numbers may differ. What isn't a byte string, as a plain integer, is refused
/// with `invalid type: expected bytes`, and one that isn't within the tag with
/// `invalid type: expected tag 2`.
///
/// ```rust
/// let big = BigUint::from_u128(alloc, 1 << 64)?;
/// let bytes = to_vec(alloc, &big)?;
/// assert_eq!(rt; bytes.as_slice(), b"\xc2\x49\x01\0\0\0\0\0\0\0\0".as_slice());
/// let big: BigUint = from_slice(alloc, &bytes)?;
/// assert_eq!(rt; big.to_u128(), Some(18446744073709551616));
/// ```
#[derive(Clone, Debug, Drop, PartialEq, Eq)]
pub struct BigUint(
    /// The number's bytes, the highest first.
    pub ByteBuf,
);

impl BigUint {
    /// The number in as few bytes as it needs, which is the preferred form: of 0, none.
    pub fn from_u128(alloc: Global, number: u128) -> std::result::Result<BigUint, AllocError>
        ensures number { IfOk result (λ b. big_endian b.0.0.items ≡ number) }
        ensures preferred { IfOk result (λ b. HasNoLeadingZero b.0.0.items) }
    {
        let bytes = shortest(alloc, number)?;
        Ok(BigUint(ByteBuf(bytes)))
    }

    /// The number, or None where 128 bits don't hold it.
    pub fn to_u128(&self) -> Option<u128>
        ensures { MatchOption result (2 ^ 128 ≤ big_endian self.now.0.0.items)
            (λ n. n ≡ big_endian self.now.0.0.items) }
    {
        number_of(self.0.0.as_slice())
    }
}

/// Tag 2, and the bytes.
impl Serialize for BigUint {
    ghost use Rattle.cbor_model.specs.Document.{bytes, tagged};

    ghost document = { λ b. tagged 2 (bytes b.0.0.items) };

    fn serialize<W: Write>(&self, ser: &mut Serializer<W>) -> Result<()> {
        within_tag(ser, 2, &self.0)
    }
}

/// The byte string within tag 2.
impl Readable for BigUint {
    ghost use Rattle.std.specs.Prelude.{true};
    ghost use Rattle.cbor_convert.specs.Tagged.{IsTagged};
    ghost use Rattle.cbor_de.specs.Forms.{never};

    ghost reads = { λ c r b. IsTagged (⟦<ByteBuf as Readable>⟧.reads c) r (Some 2) b.0 };

    ghost wrong_forms = { never };

    ghost reports_faults = { true };
}

impl<'de, R: Read<'de>> Deserialize<'de, R> for BigUint {
    fn deserialize(de: &mut Deserializer<R>) -> Result<BigUint> {
        match Required::<2, ByteBuf>::deserialize(de) {
            Ok(within) => Ok(BigUint(within.0)),
            Err(e) => Err(e),
        }
    }
}

impl DeserializeOwned for BigUint {
    ghost same = { λ f a b r x h. h };
}

impl RoundTrip for BigUint {
    ghost use Rattle.cbor_round_trip.specs.Tagged.{required_back};
    ghost use Rattle.cbor_round_trip.specs.TypeLaws.{law_of};

    ghost law = { law_of (required_back ⟦<ByteBuf as RoundTrip>⟧.law.back {n = 2}
        {inner = λ b. b.0}) };

    ghost back = { Self.law.back };
}

/// An integer, as the bytes of tag 2 or 3 (RFC 8949, section 3.4.3): in network byte order, and of
/// any length.
///
/// It keeps the bytes as they came, as [`BigUint`] does. What isn't a byte string, as a plain
/// integer, is refused with `invalid type: expected bytes`, and one that is within neither tag with
/// `invalid type: expected tag 2 or 3`.
///
/// ```rust
/// let big = BigInt::from_i128(alloc, -18446744073709551617)?;
/// let bytes = to_vec(alloc, &big)?;
/// assert_eq!(rt; bytes.as_slice(), b"\xc3\x49\x01\0\0\0\0\0\0\0\0".as_slice());
/// let big: BigInt = from_slice(alloc, &bytes)?;
/// assert!(rt; big.negative);
/// assert_eq!(rt; big.to_i128(), Some(-18446744073709551617));
/// ```
#[derive(Clone, Debug, Drop, PartialEq, Eq)]
pub struct BigInt {
    /// Whether the integer is -1 - n, under tag 3, where the bytes' number is n; else it is n,
    /// under tag 2.
    pub negative: bool,
    /// The bytes of n, the highest first.
    pub bytes: ByteBuf,
}

impl BigInt {
    /// The integer in as few bytes as it needs, which is the preferred form: of 0 and -1, none.
    pub fn from_i128(alloc: Global, number: i128) -> std::result::Result<BigInt, AllocError>
        ensures number { IfOk result (λ b. integer_of b.negative b.bytes.0.items ≡ number) }
        ensures preferred { IfOk result (λ b. HasNoLeadingZero b.bytes.0.items) }
    {
        let negative = number < 0;
        let magnitude = if negative { -1 - number } else { number };
        let bytes = shortest(alloc, magnitude as u128)?;
        Ok(BigInt {
            negative,
            bytes: ByteBuf(bytes),
        })
    }

    /// The integer, or None where 128 bits don't hold it.
    pub fn to_i128(&self) -> Option<i128>
        ensures { MatchOption result (2 ^ 127 ≤ big_endian self.now.bytes.0.items)
            (λ z. z ≡ integer_of self.now.negative self.now.bytes.0.items) }
    {
        let number = i128::try_from(number_of(self.bytes.0.as_slice())?).ok()?;
        Some(if self.negative { -1 - number } else { number })
    }
}

/// Tag 2 or 3, and the bytes.
impl Serialize for BigInt {
    ghost use Rattle.cbor_model.specs.Document.{bytes, tagged};

    ghost document = { λ b. tagged (sign_tag b.negative) (bytes b.bytes.0.items) };

    fn serialize<W: Write>(&self, ser: &mut Serializer<W>) -> Result<()> {
        within_tag(ser, if self.negative { 3 } else { 2 }, &self.bytes)
    }
}

/// The byte string within tag 2 or 3.
impl Readable for BigInt {
    ghost use Rattle.std.specs.Prelude.{true};
    ghost use Rattle.cbor_convert.specs.Tagged.{IsTagged};
    ghost use Rattle.cbor_de.specs.Forms.{never};

    ghost reads = { λ c r b. IsTagged (⟦<ByteBuf as Readable>⟧.reads c) r
        (Some (sign_tag b.negative)) b.bytes };

    ghost wrong_forms = { never };

    ghost reports_faults = { true };
}

impl<'de, R: Read<'de>> Deserialize<'de, R> for BigInt {
    fn deserialize(de: &mut Deserializer<R>) -> Result<BigInt> {
        let alloc = de.alloc();
        match Tagged::<ByteBuf>::deserialize(de) {
            Ok(within) => match is_negative(within.tag) {
                Some(negative) => Ok(BigInt {
                    negative,
                    bytes: within.value,
                }),
                None => Err(Error::message(alloc, "invalid type: expected tag 2 or 3")),
            },
            Err(e) => Err(e),
        }
    }
}

impl DeserializeOwned for BigInt {
    ghost same = { λ f a b r x h. h };
}

impl RoundTrip for BigInt {
    ghost use Rattle.cbor_round_trip.specs.Tagged.{tagged_back};
    ghost use Rattle.cbor_round_trip.specs.TypeLaws.{law_of};

    ghost law = { law_of (tagged_back ⟦<ByteBuf as RoundTrip>⟧.law.back
        {tag = λ b. Some (sign_tag b.negative)} {inner = λ b. b.bytes}) };

    ghost back = { Self.law.back };
}

// Whether an integer under this tag is negative, or None of a tag that is of none.
fn is_negative(tag: Option<u64>) -> Option<bool>
    ensures { MatchOption result ((n : Bool) → tag ≡ Some (sign_tag n) → ⊥)
        (λ n. tag ≡ Some (sign_tag n)) }
{
    match tag {
        Some(2) => Some(false),
        Some(3) => Some(true),
        _ => None,
    }
}
