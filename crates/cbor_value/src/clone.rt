//! Copies of values, which take memory.

ghost use Rattle.std.specs.Prelude.{◌≡◌, map, IfOk, IfErr};
ghost use Rattle.cbor_io.specs.Error.{IsOutOfMemory};
ghost use Rattle.cbor_value.specs.View.{view, views, map_view, pair_views};

use super::{Float, Map, Value};
use cbor_io::error::Result;
use std::alloc::Global;

impl Value {
    /// An equal value in this memory. Where an allocation fails, what was copied until then is
    /// dropped.
    ///
    /// ```rust
    /// let value = Value::Integer(-300);
    /// let copy = value.clone(alloc)?;
    /// assert_eq!(rt; copy, value);
    /// ```
    pub fn clone(&self, alloc: Global) -> Result<Value>
        ensures equal { IfOk result (λ v. view v ≡ view self.now) }
        ensures memory { IfErr result IsOutOfMemory }
    {
        copy(alloc, self)
    }
}

impl Map {
    /// An equal map in this memory. Where an allocation fails, what was copied until then is
    /// dropped.
    pub fn clone(&self, alloc: Global) -> Result<Map>
        ensures equal { IfOk result (λ m. map_view m ≡ map_view self.now) }
        ensures memory { IfErr result IsOutOfMemory }
    {
        copy_map(alloc, self)
    }
}

#[cycle(copy)]
fn copy(alloc: Global, value: &Value) -> Result<Value>
    ensures equal { IfOk result (λ v. view v ≡ view value.now) }
    ensures memory { IfErr result IsOutOfMemory }
{
    match value {
        Value::Null => Ok(Value::Null),
        Value::Bool(b) => Ok(Value::Bool(*b)),
        Value::Integer(i) => Ok(Value::Integer(*i)),
        Value::Float(float) => Ok(Value::Float(*float)),
        Value::Bytes(bytes) => Ok(Value::Bytes(Vec::from_slice(alloc, bytes)?)),
        Value::Text(text) => Ok(Value::Text(String::from_str(alloc, text)?)),
        Value::Array(items) => Ok(Value::Array(copy_items(alloc, items)?)),
        Value::Map(map) => Ok(Value::Map(copy_map(alloc, map)?)),
        Value::Tag(tag, inner) => {
            let inner = copy(alloc, inner)?;
            Ok(Value::Tag(*tag, Box::new(alloc, inner)?))
        }
    }
}

#[cycle(copy)]
fn copy_items(alloc: Global, items: &[Value]) -> Result<Vec<Value>>
    ensures equal { IfOk result (λ v. views v.items ≡ views items.now) }
    ensures memory { IfErr result IsOutOfMemory }
{
    let mut copies = Vec::new(alloc);
    for item in items {
        let item = copy(alloc, item)?;
        copies.push(item)?;
    }
    Ok(copies)
}

#[cycle(copy)]
fn copy_map(alloc: Global, map: &Map) -> Result<Map>
    ensures equal { IfOk result (λ m. map_view m ≡ map_view map.now) }
    ensures memory { IfErr result IsOutOfMemory }
{
    let pairs = copy_pairs(alloc, &map.pairs)?;
    Ok(Map { pairs })
}

#[cycle(copy)]
fn copy_pairs(alloc: Global, pairs: &[(Value, Value)]) -> Result<Vec<(Value, Value)>>
    ensures equal { IfOk result (λ v. pair_views v.items ≡ pair_views pairs.now) }
    ensures memory { IfErr result IsOutOfMemory }
{
    let mut copies = Vec::new(alloc);
    for pair in pairs {
        let key = copy(alloc, &pair.0)?;
        let value = copy(alloc, &pair.1)?;
        copies.push((key, value))?;
    }
    Ok(copies)
}
