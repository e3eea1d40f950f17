//! A map or a struct, put together pair by pair.

ghost use Rattle.std.specs.Prelude.{IfErr, MatchResult};
ghost use Rattle.cbor_model.specs.Document.{Doc, DocPairs, no_doc_pairs, Fields, mapping};
ghost use Rattle.cbor_model.specs.Document.{structure, text, declared, IsStorableDocument};
ghost use Rattle.cbor_ser.specs.Written.{IsNotWritten};
ghost use Rattle.cbor_convert.specs.Builders.{HoldsPairs, HoldsKey, AwaitsKey, AwaitsValue};
ghost use Rattle.cbor_convert.specs.Builders.{by_names, push_pair};
ghost use Rattle.cbor_convert.specs.Meaning.{Makes};

use crate::pairs::PairList;
use crate::values::to_value;
use cbor_io::error::Result;
use cbor_ser::Serialize;
use cbor_value::Value;
use std::alloc::Global;

/// Builds the `Value` of a map, or of a struct. Of equal keys the last value stays.
///
/// Keys and values are given by turns: that no key waits at `serialize_key`, `serialize_field` and
/// `end`, and that one does at `serialize_value`, are the caller's conditions.
///
/// ```rust
/// let mut map = SerializeMap::new(alloc);
/// map.serialize_key(&1u8)?;
/// map.serialize_value(&2u8)?;
/// map.serialize_field("a", &true)?;
/// assert_eq!(rt; to_vec(alloc, &map.end()?)?.as_slice(), b"\xa2\x01\x02\x61a\xf5".as_slice());
/// ```
#[derive(Drop)]
pub struct SerializeMap {
    list: PairList,
    // A key that waits for its value.
    key: Option<Value>,
}

impl SerializeMap {
    /// No pair yet. It takes no memory.
    pub fn new(alloc: Global) -> SerializeMap
        ensures pairs { HoldsPairs no_doc_pairs result }
        ensures key { AwaitsKey result }
    {
        SerializeMap {
            list: PairList::new(alloc),
            key: None,
        }
    }

    /// Takes a key, whose value is to come next. It refuses as [`to_value`] does, and holds what it
    /// held then.
    pub fn serialize_key<K: Serialize>(&mut self, key: &K) -> Result<()>
        requires { AwaitsKey self.old }
        ensures held { (ps : DocPairs) → HoldsPairs ps self.old → MatchResult result
            (λ _. HoldsKey ps (K.document key.now) self.new)
            (λ _. HoldsPairs ps self.new) }
        ensures key { MatchResult result (λ _. AwaitsValue self.new) (λ _. AwaitsKey self.new) }
        ensures refused { IfErr result (IsNotWritten (IsStorableDocument (K.document key.now))) }
    {
        let key = to_value(self.list.alloc, key)?;
        self.key = Some(key);
        Ok(())
    }

    /// Puts in the value of the key that waits. After a refusal the key waits as before.
    pub fn serialize_value<V: Serialize>(&mut self, value: &V) -> Result<()>
        requires { AwaitsValue self.old }
        ensures held { (ps : DocPairs) (k : Doc) → HoldsKey ps k self.old → MatchResult result
            (λ _. HoldsPairs (push_pair ps k (V.document value.now)) self.new)
            (λ _. HoldsKey ps k self.new) }
        ensures key { MatchResult result (λ _. AwaitsKey self.new) (λ _. AwaitsValue self.new) }
        ensures refused { IfErr result (IsNotWritten (IsStorableDocument (V.document value.now))) }
    {
        let value = to_value(self.list.alloc, value)?;
        self.list.pairs.reserve(1)?;
        let key = self.key.take().unwrap();
        self.list.pairs.push((key, value))?;
        Ok(())
    }

    /// Puts in a field by its name. It refuses as [`to_value`] does, and holds what it held then.
    pub fn serialize_field<T: Serialize>(&mut self, name: &'static str, value: &T) -> Result<()>
        requires { AwaitsKey self.old }
        ensures held { (ps : DocPairs) → HoldsPairs ps self.old → MatchResult result
            (λ _. HoldsPairs (push_pair ps (text name.now) (T.document value.now)) self.new)
            (λ _. HoldsPairs ps self.new) }
        ensures key { AwaitsKey self.new }
        ensures refused { IfErr result (IsNotWritten (IsStorableDocument (T.document value.now))) }
    {
        self.list.push_field(name, value)
    }

    /// The map of these pairs, in the order of their keys.
    pub fn end(self) -> Result<Value>
        requires { AwaitsKey self }
        ensures pairs { (ps : DocPairs) → HoldsPairs ps self → Makes (mapping declared ps) result }
        ensures fields { (fs : Fields) → HoldsPairs (by_names fs) self
            → Makes (structure fs) result }
    {
        self.list.into_map()
    }
}
