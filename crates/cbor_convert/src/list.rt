//! An array, put together item by item.

ghost use Rattle.std.specs.Prelude.{IfErr, IsOk, MatchResult};
ghost use Rattle.cbor_model.specs.Document.{Docs, no_docs, sequence, declared, IsStorableDocument};
ghost use Rattle.cbor_ser.specs.Written.{IsNotWritten};
ghost use Rattle.cbor_convert.specs.Builders.{HoldsItems, push_doc};
ghost use Rattle.cbor_convert.specs.Meaning.{Makes};

use crate::values::to_value;
use cbor_io::error::Result;
use cbor_ser::Serialize;
use cbor_value::Value;
use std::alloc::Global;

/// Builds the `Value` of a list, a tuple or a tuple struct.
///
/// ```rust
/// let mut list = SerializeVec::new(alloc);
/// list.serialize_element(&true)?;
/// list.serialize_element(&"foo")?;
/// assert_eq!(rt; list.end()?, to_value(alloc, &(true, "foo"))?);
/// ```
#[derive(Drop)]
pub struct SerializeVec {
    pub(crate) alloc: Global,
    items: Vec<Value>,
}

impl SerializeVec {
    /// No item yet. It takes no memory.
    pub fn new(alloc: Global) -> SerializeVec
        ensures { HoldsItems no_docs result }
    {
        SerializeVec {
            alloc,
            items: Vec::new(alloc),
        }
    }

    /// Puts an item after those before it. It refuses as [`to_value`] does, and holds what it held
    /// then.
    pub fn serialize_element<T: Serialize>(&mut self, item: &T) -> Result<()>
        ensures held { (ds : Docs) → HoldsItems ds self.old → MatchResult result
            (λ _. HoldsItems (push_doc ds (T.document item.now)) self.new)
            (λ _. HoldsItems ds self.new) }
        ensures refused { IfErr result (IsNotWritten (IsStorableDocument (T.document item.now))) }
    {
        let value = to_value(self.alloc, item)?;
        self.items.push(value)?;
        Ok(())
    }

    /// Puts a part of a tuple or a tuple struct after those before it, as `serialize_element`
    /// does.
    pub fn serialize_field<T: Serialize>(&mut self, part: &T) -> Result<()>
        ensures held { (ds : Docs) → HoldsItems ds self.old → MatchResult result
            (λ _. HoldsItems (push_doc ds (T.document part.now)) self.new)
            (λ _. HoldsItems ds self.new) }
        ensures refused { IfErr result (IsNotWritten (IsStorableDocument (T.document part.now))) }
    {
        self.serialize_element(part)
    }

    /// The array of these items. It takes no memory, and is never refused.
    pub fn end(self) -> Result<Value>
        ensures array { (ds : Docs) → HoldsItems ds self → Makes (sequence declared ds) result }
        ensures made { IsOk result }
    {
        let SerializeVec { alloc: _, items } = self;
        Ok(Value::Array(items))
    }
}
