//! Any type as a `Value`, and a `Value` as any type.

ghost use Rattle.std.specs.Prelude.{Some, [], IfOk};
ghost use Rattle.serde.specs.Event.{Log};
ghost use Rattle.cbor_value.specs.View.{view};
ghost use Rattle.cbor_serde_options.specs.Defaults.{default_options};
ghost use Rattle.cbor_serde.specs.Item.{IsValueOf};

use crate::ser::to_vec_with;
use cbor_io::error::Result;
use cbor_serde_de::from_bytes;
use cbor_serde_options::Options;
use cbor_value::Value;
use serde::{DeserializeOwned, Serialize};
use std::alloc::Global;

/// The [`Value`] that the bytes of [`to_vec`](crate::to_vec) encode. It refuses what that refuses.
///
/// ```rust
/// let value = to_value(alloc, &vec![in alloc; 1u8, 2]?)?;
/// let expected = vec![in alloc; Value::Integer(1), Value::Integer(2)]?;
/// assert_eq!(rt; value, Value::Array(expected));
/// ```
pub fn to_value<T: Serialize>(alloc: Global, value: &T) -> Result<Value>
    ensures { IfOk result (λ v. (log : Log) × T.writes value.now (Some []) log
        × IsValueOf default_options log (view v)) }
{
    to_value_with(Options::new(), alloc, value)
}

/// The [`Value`] that the bytes of [`to_vec_with`](crate::to_vec_with) encode by these options.
pub fn to_value_with<T: Serialize>(options: Options, alloc: Global, value: &T) -> Result<Value>
    ensures { IfOk result (λ v. (log : Log) × T.writes value.now (Some []) log
        × IsValueOf options log (view v)) }
{
    let bytes = to_vec_with(options, alloc, value)?;
    match cbor_de::from_slice(alloc, &bytes) {
        Ok(value) => Ok(value),
        Err(error) => Err(error),
    }
}

/// What a type reads of the canonical encoding of a [`Value`]. It refuses a value with an integer
/// outside `-2^64..=2^64-1`, and what [`from_slice`](crate::from_slice) refuses of its bytes.
///
/// ```rust
/// let numbers: Vec<u8> = from_value(alloc, &to_value(alloc, &(1u8, 2u8))?)?;
/// assert_eq!(rt; numbers.as_slice(), [1, 2].as_slice());
/// ```
pub fn from_value<T: DeserializeOwned>(alloc: Global, value: &Value) -> Result<T> {
    from_value_with(Options::new(), alloc, value)
}

/// What a type reads of the canonical encoding of a [`Value`], by these options.
pub fn from_value_with<T: DeserializeOwned>(
    options: Options,
    alloc: Global,
    value: &Value,
) -> Result<T> {
    let bytes = cbor_ser::to_vec(alloc, value)?;
    from_bytes(options, alloc, &bytes)
}
