//! A bookmark: a text, and two texts within tags (RFC 7049, sections 2.4.1 and 2.4.4.3).

ghost use Rattle.std.specs.Prelude.{IsTrue, IsFalse};
ghost use Rattle.row_types.specs.Uris.{IsKnown};

use serde_cbor::de::{Deserialize, DeserializeOwned, Read, ReadBy, Readable, read_described};
use serde_cbor::parts::Schema;
use serde_cbor::ser::{Serialize, Serializer, Write, WrittenBy};
use serde_cbor::tags::Tagged;
use serde_cbor::{Deserializer, Error, Result};

/// A URI: the text within tag 32, or a text without a tag.
#[derive(Debug, Drop)]
pub struct Uri(pub String);

/// The tag of a URI.
const URI: u64 = 32;

impl Serialize for Uri {
    ghost use Rattle.serde_cbor.specs.Document.{tagged};

    ghost document = { λ u. tagged 32 (⟦<String as Serialize>⟧.document u.0) };

    fn serialize<W: Write>(&self, ser: &mut Serializer<W>) -> Result<()> {
        ser.serialize_tag(URI)?;
        self.0.serialize(ser)
    }
}

impl Readable for Uri {
    ghost use Rattle.row_types.specs.Uris.{IsUri};

    ghost reads = { λ c. IsUri (⟦<String as Readable>⟧.reads c) };
}

impl<'de, R: Read<'de>> Deserialize<'de, R> for Uri {
    fn deserialize(de: &mut Deserializer<R>) -> Result<Uri> {
        let alloc = de.alloc();
        let text: Tagged<String> = Tagged::deserialize(de)?;
        if may_hold(text.tag) {
            Ok(Uri(text.value))
        } else {
            Err(Error::message(alloc, "unexpected tag"))
        }
    }
}

impl DeserializeOwned for Uri {
    ghost same = { λ f a b r u h. h };
}

// Whether this tag holds a URI, or none does.
fn may_hold(tag: Option<u64>) -> bool
    ensures yes { IsTrue result → IsKnown tag }
    ensures no { IsFalse result → IsKnown tag → ⊥ }
{
    match tag {
        Some(number) => number == URI,
        None => true,
    }
}

/// What is written of a page: its title, where it is, and when it was marked (tag 0).
#[derive(Debug, Drop)]
pub struct Bookmark {
    pub title: String,
    pub link: Uri,
    pub created: Tagged<String>,
}

/// The names of its fields.
const BOOKMARK: &[&str] = &["title", "link", "created"];

impl Schema for Bookmark {
    ghost use Rattle.std.specs.Prelude.{map};
    ghost use Rattle.row_types.specs.declared.bookmark.TheConstants.{BOOKMARK};

    type Parts = (String, Uri, Tagged<String>);

    ghost names = { map (λ n. n.now) BOOKMARK.now };

    ghost parts = { λ b. (b.title, b.link, b.created) };

    fn names() -> &'static [&'static str] {
        BOOKMARK
    }

    fn from_parts((title, link, created): Self::Parts) -> Bookmark {
        Bookmark {
            title,
            link,
            created,
        }
    }
}

impl Serialize for Bookmark {
    ghost document = { ⟦<Self as WrittenBy<<Self as Schema>::Parts>>⟧.document };

    fn serialize<W: Write>(&self, ser: &mut Serializer<W>) -> Result<()> {
        ser.serialize_fields(self, &(&self.title, &self.link, &self.created))
    }
}

impl Readable for Bookmark {
    ghost reads = { ⟦<Self as ReadBy<<Self as Schema>::Parts>>⟧.reads };

    ghost wrong_forms = { ⟦<Self as ReadBy<<Self as Schema>::Parts>>⟧.wrong_forms };
}

impl<'de, R: Read<'de>> Deserialize<'de, R> for Bookmark {
    fn deserialize(de: &mut Deserializer<R>) -> Result<Bookmark> {
        read_described(de)
    }
}

impl DeserializeOwned for Bookmark {
    ghost same = { λ f a b r x h. h };
}
