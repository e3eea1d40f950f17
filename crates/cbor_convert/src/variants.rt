//! Variants of an enum, put together part by part.

ghost use Rattle.std.specs.Prelude.{◌≡◌, ℕ, List, IfErr, IfOk, MatchResult};
ghost use Rattle.cbor_model.specs.Plain as plain;
ghost use Rattle.cbor_model.specs.Document.{Docs, no_docs, DocPairs, no_doc_pairs, Fields, text};
ghost use Rattle.cbor_model.specs.Document.{tuple_variant, struct_variant, IsStorableDocument};
ghost use Rattle.cbor_value.specs.View.{view};
ghost use Rattle.cbor_io.specs.Error.{IsOutOfMemory};
ghost use Rattle.cbor_ser.specs.Written.{IsNotWritten};
ghost use Rattle.cbor_convert.specs.Builders.{HoldsParts, HoldsFields, by_names};
ghost use Rattle.cbor_convert.specs.Builders.{push_doc, push_pair};
ghost use Rattle.cbor_convert.specs.Meaning.{Makes};

use crate::list::SerializeVec;
use crate::pairs::PairList;
use cbor_io::error::Result;
use cbor_ser::Serialize;
use cbor_value::{Map, Value};
use std::alloc::Global;

// The map of a variant's name and what it holds.
fn named(alloc: Global, name: &str, content: Value) -> Result<Value>
    ensures made { IfOk result (λ v. view v
        ≡ plain.map (plain.pair (plain.text name.now) (view content) plain.no_pairs)) }
    ensures memory { IfErr result IsOutOfMemory }
{
    let name = String::from_str(alloc, name)?;
    let mut pairs = Vec::new(alloc);
    pairs.push((Value::Text(name), content))?;
    Ok(Value::Map(Map::from_pairs(pairs)?))
}

/// Builds the `Value` of a variant of unnamed parts: the map of its name and the list of its parts.
///
/// ```rust
/// let mut flag = SerializeTupleVariant::new(alloc, "Flag");
/// flag.serialize_field(&"foo")?;
/// flag.serialize_field(&true)?;
/// let flag = to_vec(alloc, &flag.end()?)?;
/// assert_eq!(rt; flag.as_slice(), b"\xa1\x64Flag\x82\x63foo\xf5".as_slice());
/// ```
#[derive(Drop)]
pub struct SerializeTupleVariant {
    variant: &'static str,
    parts: SerializeVec,
}

impl SerializeTupleVariant {
    /// No part yet. It takes no memory.
    pub fn new(alloc: Global, variant: &'static str) -> SerializeTupleVariant
        ensures { HoldsParts variant.now no_docs result }
    {
        SerializeTupleVariant {
            variant,
            parts: SerializeVec::new(alloc),
        }
    }

    /// Puts a part after those before it. It refuses as [`to_value`](crate::to_value()) does, and
    /// holds what it held then.
    pub fn serialize_field<T: Serialize>(&mut self, part: &T) -> Result<()>
        ensures held { (n : List ℕ) (ds : Docs) → HoldsParts n ds self.old → MatchResult result
            (λ _. HoldsParts n (push_doc ds (T.document part.now)) self.new)
            (λ _. HoldsParts n ds self.new) }
        ensures refused { IfErr result (IsNotWritten (IsStorableDocument (T.document part.now))) }
    {
        self.parts.serialize_element(part)
    }

    /// The variant, whatever its number.
    pub fn end(self) -> Result<Value>
        ensures { (i : ℕ) (n : List ℕ) (ds : Docs) → HoldsParts n ds self
            → Makes (tuple_variant i n ds) result }
    {
        let SerializeTupleVariant { variant, parts } = self;
        let alloc = parts.alloc;
        let content = parts.end()?;
        named(alloc, variant, content)
    }
}

/// Builds the `Value` of a variant of named fields: the map of its name and the map of its fields.
///
/// ```rust
/// let mut point = SerializeStructVariant::new(alloc, "Point");
/// point.serialize_field("x", &5u8)?;
/// let point = to_vec(alloc, &point.end()?)?;
/// assert_eq!(rt; point.as_slice(), b"\xa1\x65Point\xa1\x61x\x05".as_slice());
/// ```
#[derive(Drop)]
pub struct SerializeStructVariant {
    variant: &'static str,
    fields: PairList,
}

impl SerializeStructVariant {
    /// No field yet. It takes no memory.
    pub fn new(alloc: Global, variant: &'static str) -> SerializeStructVariant
        ensures { HoldsFields variant.now no_doc_pairs result }
    {
        SerializeStructVariant {
            variant,
            fields: PairList::new(alloc),
        }
    }

    /// Puts in a field by its name. It refuses as [`to_value`](crate::to_value()) does, and holds
    /// what it held then.
    pub fn serialize_field<T: Serialize>(&mut self, name: &'static str, value: &T) -> Result<()>
        ensures held { (n : List ℕ) (ps : DocPairs) → HoldsFields n ps self.old
            → MatchResult result
            (λ _. HoldsFields n (push_pair ps (text name.now) (T.document value.now)) self.new)
            (λ _. HoldsFields n ps self.new) }
        ensures refused { IfErr result (IsNotWritten (IsStorableDocument (T.document value.now))) }
    {
        self.fields.push_field(name, value)
    }

    /// The variant, whatever its number.
    pub fn end(self) -> Result<Value>
        ensures { (i : ℕ) (n : List ℕ) (fs : Fields) → HoldsFields n (by_names fs) self
            → Makes (struct_variant i n fs) result }
    {
        let SerializeStructVariant { variant, fields } = self;
        let alloc = fields.alloc;
        let content = fields.into_map()?;
        named(alloc, variant, content)
    }
}
