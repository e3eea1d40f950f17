//! Values from Rust's own. None of these takes memory.

ghost use Rattle.std.specs.Prelude.{◌≡◌, pos, string_bytes};
ghost use Rattle.cbor_model.specs.Plain as plain;
ghost use Rattle.cbor_value.specs.View.{view, views, map_view, float_view};

use super::{Float, Map, Value};
use crate::bytes::ByteBuf;

/// False or true.
impl From<bool> for Value {
    ghost from_gives = { λ b v. view v ≡ plain.bool b };

    fn from(b: bool) -> Value {
        Value::Bool(b)
    }
}

/// An integer, as `Value::from(-1i8)` is `Value::Integer(-1)`.
impl From<i8> for Value {
    ghost from_gives = { λ n v. view v ≡ plain.integer n };

    fn from(n: i8) -> Value {
        Value::Integer(n as i128)
    }
}

/// An integer.
impl From<i16> for Value {
    ghost from_gives = { λ n v. view v ≡ plain.integer n };

    fn from(n: i16) -> Value {
        Value::Integer(n as i128)
    }
}

/// An integer.
impl From<i32> for Value {
    ghost from_gives = { λ n v. view v ≡ plain.integer n };

    fn from(n: i32) -> Value {
        Value::Integer(n as i128)
    }
}

/// An integer.
impl From<i64> for Value {
    ghost from_gives = { λ n v. view v ≡ plain.integer n };

    fn from(n: i64) -> Value {
        Value::Integer(n as i128)
    }
}

/// An integer.
impl From<u8> for Value {
    ghost from_gives = { λ n v. view v ≡ plain.integer (pos n) };

    fn from(n: u8) -> Value {
        Value::Integer(n as i128)
    }
}

/// An integer.
impl From<u16> for Value {
    ghost from_gives = { λ n v. view v ≡ plain.integer (pos n) };

    fn from(n: u16) -> Value {
        Value::Integer(n as i128)
    }
}

/// An integer.
impl From<u32> for Value {
    ghost from_gives = { λ n v. view v ≡ plain.integer (pos n) };

    fn from(n: u32) -> Value {
        Value::Integer(n as i128)
    }
}

/// An integer.
impl From<u64> for Value {
    ghost from_gives = { λ n v. view v ≡ plain.integer (pos n) };

    fn from(n: u64) -> Value {
        Value::Integer(n as i128)
    }
}

/// A float, in its width.
impl From<Float> for Value {
    ghost from_gives = { λ float v. view v ≡ float_view float };

    fn from(float: Float) -> Value {
        Value::Float(float)
    }
}

/// A byte string.
impl From<Vec<u8>> for Value {
    ghost from_gives = { λ bytes v. view v ≡ plain.bytes bytes.items };

    fn from(bytes: Vec<u8>) -> Value {
        Value::Bytes(bytes)
    }
}

/// A byte string, whose bytes move.
impl From<ByteBuf> for Value {
    ghost from_gives = { λ b v. view v ≡ plain.bytes b.0.items };

    fn from(bytes: ByteBuf) -> Value {
        Value::Bytes(bytes.0)
    }
}

/// A text string, as `Value::from("a".to_owned(alloc)?)`.
impl From<String> for Value {
    ghost from_gives = { λ text v. view v ≡ plain.text (string_bytes text) };

    fn from(text: String) -> Value {
        Value::Text(text)
    }
}

/// An array.
impl From<Vec<Value>> for Value {
    ghost from_gives = { λ items v. view v ≡ plain.array (views items.items) };

    fn from(items: Vec<Value>) -> Value {
        Value::Array(items)
    }
}

/// A map.
impl From<Map> for Value {
    ghost from_gives = { λ map v. view v ≡ plain.map (map_view map) };

    fn from(map: Map) -> Value {
        Value::Map(map)
    }
}
