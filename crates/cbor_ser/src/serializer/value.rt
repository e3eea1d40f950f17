//! Writing values item by item, each by the call for it, where a setting says how a float is written.

ghost use Rattle.std.specs.Prelude.{Some};
ghost use Rattle.cbor_model.specs.Document.{document_of, documents_of, document_pairs_of};
ghost use Rattle.cbor_model.specs.Parts.{item, items, pairs, ending};
ghost use Rattle.cbor_model.specs.Plain as plain;
ghost use Rattle.cbor_value.specs.View.{view, views, map_view, pair_views};
ghost use Rattle.cbor_ser.specs.Serialized.{Serialized};

use super::Serializer;
use cbor_io::error::Result;
use cbor_io::write::Write;
use cbor_value::{Map, Value};

impl<W: Write> Serializer<W> {
    // Appends a value.
    #[cycle(value)]
    pub(crate) fn write_by_items(&mut self, value: &Value) -> Result<()>
        ensures { Serialized W.written W.refuses W.references W.capacity self.old
            (item (document_of (view value.now))) self.new result }
    {
        match value {
            Value::Null => self.serialize_unit(),
            Value::Bool(b) => self.serialize_bool(*b),
            Value::Integer(i) => self.serialize_i128(*i),
            Value::Float(float) => self.serialize_float(*float),
            Value::Bytes(bytes) => self.serialize_bytes(bytes),
            Value::Text(text) => self.serialize_str(text),
            Value::Array(list) => self.write_list(list),
            Value::Map(map) => self.write_map(map),
            Value::Tag(tag, inner) => self.write_tagged(*tag, inner),
        }
    }

    #[cycle(value)]
    fn write_tagged(&mut self, tag: u64, inner: &Value) -> Result<()>
        ensures { Serialized W.written W.refuses W.references W.capacity self.old
            (item (document_of (plain.tag tag (view inner.now)))) self.new result }
    {
        self.serialize_tag(tag)?;
        self.write_by_items(inner)
    }

    #[cycle(value)]
    fn write_list(&mut self, list: &[Value]) -> Result<()>
        ensures { Serialized W.written W.refuses W.references W.capacity self.old
            (item (document_of (plain.array (views list.now)))) self.new result }
    {
        self.write_array_head(Some(list.len()))?;
        self.write_values(list)
    }

    // Appends values, one after the other.
    #[cycle(value)]
    #[tactic(auto, using(cbor_value::proofs::facts::Sizes::size_at))]
    fn write_values(&mut self, list: &[Value]) -> Result<()>
        ensures { Serialized W.written W.refuses W.references W.capacity self.old
            (items (documents_of (views list.now)) (ending (Some 0))) self.new result }
    {
        for one in list {
            self.write_by_items(one)?;
        }
        Ok(())
    }

    #[cycle(value)]
    fn write_map(&mut self, map: &Map) -> Result<()>
        ensures { Serialized W.written W.refuses W.references W.capacity self.old
            (item (document_of (plain.map (map_view map.now)))) self.new result }
    {
        self.write_map_head(Some(map.len()))?;
        self.write_pairs(map.iter().as_slice())
    }

    // Appends keys and values, as they are listed.
    #[cycle(value)]
    #[tactic(auto, using(cbor_value::proofs::facts::Sizes::key_size_at, cbor_value::proofs::facts::Sizes::value_size_at))]
    fn write_pairs(&mut self, list: &[(Value, Value)]) -> Result<()>
        ensures { Serialized W.written W.refuses W.references W.capacity self.old
            (pairs (document_pairs_of (pair_views list.now)) (ending (Some 0))) self.new result }
    {
        for (key, value) in list {
            self.write_by_items(key)?;
            self.write_by_items(value)?;
        }
        Ok(())
    }
}
