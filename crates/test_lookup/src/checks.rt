//! Values that tests are made of.

use cbor_value::Value;
use std::alloc::{AllocError, Global};

pub fn text(alloc: Global, text: &str) -> Result<Value, AllocError> {
    Ok(Value::Text(text.to_owned(alloc)?))
}

pub fn tag(alloc: Global, tag: u64, value: Value) -> Result<Value, AllocError> {
    match Box::new(alloc, value) {
        Ok(inner) => Ok(Value::Tag(tag, inner)),
        Err(_) => Err(AllocError),
    }
}
