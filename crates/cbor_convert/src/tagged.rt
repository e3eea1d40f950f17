//! A value, and the tag that its item is within.

ghost use Rattle.std.specs.Prelude.{◌≡◌};

use crate::outermost::outermost;
use cbor_de::{Deserialize, DeserializeOwned, Deserializer, Readable};
use cbor_io::error::Result;
use cbor_read::Read;
use cbor_ser::{Serialize, Serializer, Write};

/// A value, and the outermost tag that its item is within, if it is within one.
///
/// It reads that tag or none, and then the value from the item after it: of further tags the
/// value's own type decides, and each but `Value` and the types of `tags` passes over them. The tag
/// counts as a level of nesting. It writes the tag, where there is one, and then the value.
///
/// ```rust
/// let due: Tagged<u32> = from_slice(alloc, b"\xc1\x1a\x51\x4b\x67\xb0")?;
/// assert_eq!(rt; due.tag, Some(1));
/// assert_eq!(rt; due.value, 1363896240);
/// assert_eq!(rt; to_vec(alloc, &due)?.as_slice(), b"\xc1\x1a\x51\x4b\x67\xb0".as_slice());
/// ```
///
/// A type that is read within one tag alone, or within none, asks for the tag:
///
/// ```rust
/// impl<'de, R: Read<'de>> Deserialize<'de, R> for Uri {
///     fn deserialize(de: &mut Deserializer<R>) -> Result<Uri> {
///         let alloc = de.alloc();
///         let text: Tagged<String> = Tagged::deserialize(de)?;
///         match text.tag {
///             None | Some(32) => Ok(Uri(text.value)),
///             Some(_) => Err(Error::message(alloc, "unexpected tag")),
///         }
///     }
/// }
/// ```
#[derive(Clone, Debug, Drop, PartialEq, Eq, PartialOrd, Ord)]
pub struct Tagged<T> {
    /// The number of the outermost tag.
    pub tag: Option<u64>,
    /// What is within it.
    pub value: T,
}

impl<T> Tagged<T> {
    /// This value, within this tag where there is one.
    ///
    /// ```rust
    /// let bytes = to_vec(alloc, &Tagged::new(Some(1), 5u8))?;
    /// assert_eq!(rt; bytes.as_slice(), b"\xc1\x05".as_slice());
    /// let plain: Tagged<u8> = from_slice(alloc, &[5])?;
    /// assert_eq!(rt; plain.tag, None);
    /// ```
    pub fn new(tag: Option<u64>, value: T) -> Tagged<T>
        ensures tag { result.tag ≡ tag }
        ensures value { result.value ≡ value }
    {
        Tagged { tag, value }
    }
}

/// Its tag, where it has one, and then the value.
impl<T: Serialize> Serialize for Tagged<T> {
    ghost use Rattle.cbor_convert.specs.Tagged.{tagged_document};

    ghost document = { λ t. tagged_document t.tag (T.document t.value) };

    fn serialize<W: Write>(&self, ser: &mut Serializer<W>) -> Result<()> {
        match self.tag {
            Some(tag) => {
                ser.serialize_tag(tag)?;
                self.value.serialize(ser)
            }
            None => self.value.serialize(ser),
        }
    }
}

/// The outermost tag and what is within it, or an item without a tag.
impl<T: Readable> Readable for Tagged<T> {
    ghost use Rattle.cbor_convert.specs.Tagged.{IsTagged, WithinTag};
    ghost use Rattle.cbor_de.specs.Calls.{reports_any};

    ghost reads = { λ c r t. IsTagged (T.reads c) r t.tag t.value };

    ghost total = { T.total };

    ghost asks_memory = { λ a. WithinTag (T.asks_memory a) };

    ghost wrong_forms = { T.wrong_forms };

    ghost reports_faults = { reports_any T.passes_over T.total T.reports_faults };
}

impl<'de, R: Read<'de>, T: Deserialize<'de, R>> Deserialize<'de, R> for Tagged<T> {
    #[tactic(auto, using(cbor_de::proofs::facts::Forms::plain))]
    fn deserialize(de: &mut Deserializer<R>) -> Result<Tagged<T>> {
        let _levels = de.levels_left();
        match outermost(de) {
            Ok(Some(tag)) => {
                let value = T::deserialize(de);
                de.leave_tag();
                match value {
                    Ok(value) => Ok(Tagged {
                        tag: Some(tag),
                        value,
                    }),
                    Err(e) => Err(e),
                }
            }
            Ok(None) => match T::deserialize(de) {
                Ok(value) => Ok(Tagged { tag: None, value }),
                Err(e) => Err(e),
            },
            Err(e) => Err(e),
        }
    }
}

impl<T: DeserializeOwned> DeserializeOwned for Tagged<T> {
    ghost use Rattle.cbor_convert.specs.Tagged.{same_tagged};

    ghost same = { λ f a b r t h. same_tagged _ _ (T.same f a b) r t.tag t.value h };
}
