//! A value within the one tag that it has to have.

ghost use Rattle.std.specs.Prelude.{◌≡◌, Some};
ghost use Rattle.cbor_io.specs.Error.{code_of, offset_of, IsMessageOf};
ghost use Rattle.cbor_convert.specs.Tagged.{tag_expected};

use crate::tagged::Tagged;
use cbor_de::{Deserialize, DeserializeOwned, Deserializer, Readable};
use cbor_io::error::{Error, Result};
use cbor_read::Read;
use cbor_ser::{Serialize, Serializer, Write};
use std::alloc::Global;

/// A value within the tag of the number `N` (RFC 8949, section 3.4), as the 18 of a `COSE_Sign1`
/// (RFC 9052) or the 61 of a CWT (RFC 8392).
///
/// It writes the tag, and then the value. It reads the value from the item within that tag. What
/// `T` doesn't read is refused as `T` refuses it, whatever its tag; what it reads without a tag, or
/// where the outermost tag is another, with the message `invalid type: expected tag N`. The tag
/// counts as a level of nesting.
///
/// ```rust
/// let bytes = to_vec(alloc, &Required::<1, u32>(1363896240))?;
/// assert_eq!(rt; bytes.as_slice(), b"\xc1\x1a\x51\x4b\x67\xb0".as_slice());
/// let time: Required<1, u32> = from_slice(alloc, &bytes)?;
/// assert_eq!(rt; time.0, 1363896240);
/// assert!(rt; from_slice::<Required<1, u32>>(alloc, &bytes[1..]).is_err());
/// ```
#[derive(Clone, Debug, Drop, PartialEq, Eq, PartialOrd, Ord)]
pub struct Required<const N: u64, T>(
    /// What is within the tag.
    pub T,
);

/// The tag, and then the value.
impl<const N: u64, T: Serialize> Serialize for Required<N, T> {
    ghost use Rattle.cbor_model.specs.Document.{tagged};

    ghost document = { λ x. tagged N (T.document x.0) };

    fn serialize<W: Write>(&self, ser: &mut Serializer<W>) -> Result<()> {
        ser.serialize_tag(N)?;
        self.0.serialize(ser)
    }
}

/// What is within the tag.
impl<const N: u64, T: Readable> Readable for Required<N, T> {
    ghost use Rattle.std.specs.Prelude.{Some};
    ghost use Rattle.cbor_convert.specs.Tagged.{IsTagged, WithinTag};
    ghost use Rattle.cbor_de.specs.Calls.{reports_any};

    ghost reads = { λ c r x. IsTagged (T.reads c) r (Some N) x.0 };

    ghost asks_memory = { λ a. WithinTag (T.asks_memory a) };

    ghost wrong_forms = { T.wrong_forms };

    ghost reports_faults = { reports_any T.passes_over T.total T.reports_faults };
}

impl<'de, const N: u64, R: Read<'de>, T: Deserialize<'de, R>> Deserialize<'de, R>
    for Required<N, T> {
    fn deserialize(de: &mut Deserializer<R>) -> Result<Required<N, T>> {
        let alloc = de.alloc();
        match Tagged::<T>::deserialize(de) {
            Ok(tagged) => {
                if tagged.tag == Some(N) {
                    Ok(Required(tagged.value))
                } else {
                    Err(not_within::<N>(alloc))
                }
            }
            Err(e) => Err(e),
        }
    }
}

impl<const N: u64, T: DeserializeOwned> DeserializeOwned for Required<N, T> {
    ghost use Rattle.std.specs.Prelude.{Some};
    ghost use Rattle.cbor_convert.specs.Tagged.{same_tagged};

    ghost same = { λ f a b r x h. same_tagged _ _ (T.same f a b) r (Some N) x.0 h };
}

// The error of an item that isn't within the tag, as `invalid type: expected tag 18`.
#[cold]
#[inline(never)]
fn not_within<const N: u64>(alloc: Global) -> Error
    ensures text { IsMessageOf (Some (tag_expected N)) (code_of result) }
    ensures offset { offset_of result ≡ 0 }
{
    match format!(in alloc; "invalid type: expected tag {N}") {
        Ok(text) => Error::message(alloc, text),
        Err(e) => Error::from(e),
    }
}
