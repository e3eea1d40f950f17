//! What holds of any value in a program, for proofs.

ghost use Rattle.cbor_model.specs.InMemory.{IsInMemory, AreInMemory, ArePairsInMemory};
ghost use Rattle.cbor_model.specs.InMemory.{IsByteString, IsTextString};
ghost use Rattle.cbor_model.specs.InRange.{IsInRange};
ghost use Rattle.cbor_value.specs.View.{view, views, float_view, pair_views};

use super::{Float, Value};

impl Value {
    /// Shows to a proof what holds of any value: each length, count and tag number is below 2^64,
    /// and each text is UTF-8.
    ///
    /// So it need not be written for its order to be that of its bytes: of two values that CBOR
    /// stores, `cmp` is the byte order of their canonical encodings, by the law `byte_order`, and
    /// what is written of them reads back, by `written_reads_back`.
    ///
    /// It goes through the whole value, changes nothing and takes no memory.
    #[tactic(auto, using(cbor_model::proofs::facts::Laws::in_memory_is_in_range))]
    pub fn in_memory(&self)
        ensures in_memory { IsInMemory (view self.now) }
        ensures in_range { IsInRange (view self.now) }
    {
        walk(self)
    }
}

#[cycle(memory)]
fn walk(value: &Value)
    ensures { IsInMemory (view value.now) }
{
    match value {
        Value::Null | Value::Bool(_) | Value::Integer(_) => {}
        Value::Float(float) => fits(*float),
        Value::Bytes(bytes) => holds_bytes(bytes),
        Value::Text(text) => holds_text(text),
        Value::Array(items) => walk_items(items),
        Value::Map(map) => walk_pairs(&map.pairs),
        Value::Tag(tag, inner) => {
            let _tag = *tag;
            walk(inner)
        }
    }
}

#[cycle(memory)]
fn walk_items(items: &[Value])
    ensures { AreInMemory (views items.now) }
{
    for item in items {
        walk(item);
    }
}

#[cycle(memory)]
fn walk_pairs(pairs: &[(Value, Value)])
    ensures { ArePairsInMemory (pair_views pairs.now) }
{
    for pair in pairs {
        walk(&pair.0);
        walk(&pair.1);
    }
}

fn fits(float: Float)
    ensures { IsInMemory (float_view float) }
{
    match float {
        Float::Half(_bits) => {}
        Float::Single(_bits) => {}
        Float::Double(_bits) => {}
    }
}

fn holds_bytes(bytes: &[u8])
    ensures { IsByteString bytes.now }
{
    let _ = bytes.len();
}

fn holds_text(text: &str)
    ensures { IsTextString text.now }
{
    holds_bytes(text.as_bytes())
}
