//! Keys and values in the order in which they were given.

ghost use Rattle.std.specs.Prelude.{IfErr, MatchResult};
ghost use Rattle.cbor_model.specs.Document.{DocPairs, no_doc_pairs, Fields, mapping, structure};
ghost use Rattle.cbor_model.specs.Document.{text, declared, IsStorableDocument};
ghost use Rattle.cbor_ser.specs.Written.{IsNotWritten};
ghost use Rattle.cbor_convert.specs.Builders.{Lists, by_names, push_pair};
ghost use Rattle.cbor_convert.specs.Meaning.{Makes};

use crate::values::to_value;
use cbor_io::error::Result;
use cbor_ser::Serialize;
use cbor_value::{Map, Value};
use std::alloc::Global;

/// Keys and values, one pair after the other.
#[derive(Drop)]
pub(crate) struct PairList {
    pub(crate) alloc: Global,
    pub(crate) pairs: Vec<(Value, Value)>,
}

impl PairList {
    /// No pair yet.
    pub(crate) fn new(alloc: Global) -> PairList
        ensures { Lists no_doc_pairs result }
    {
        PairList {
            alloc,
            pairs: Vec::new(alloc),
        }
    }

    /// Puts in a field by its name.
    pub(crate) fn push_field<T: Serialize>(&mut self, name: &'static str, value: &T) -> Result<()>
        ensures held { (ps : DocPairs) → Lists ps self.old → MatchResult result
            (λ _. Lists (push_pair ps (text name.now) (T.document value.now)) self.new)
            (λ _. Lists ps self.new) }
        ensures refused { IfErr result (IsNotWritten (IsStorableDocument (T.document value.now))) }
    {
        let value = to_value(self.alloc, value)?;
        let name = String::from_str(self.alloc, name)?;
        self.pairs.push((Value::Text(name), value))?;
        Ok(())
    }

    /// The map of these pairs.
    pub(crate) fn into_map(self) -> Result<Value>
        ensures pairs { (ps : DocPairs) → Lists ps self → Makes (mapping declared ps) result }
        ensures fields { (fs : Fields) → Lists (by_names fs) self → Makes (structure fs) result }
    {
        let PairList { alloc: _, pairs } = self;
        Ok(Value::Map(Map::from_pairs(pairs)?))
    }
}
