//! What a value of any type stands for.

ghost use Rattle.std.specs.Prelude.{◌≡◌, IfOk, IfErr, OnOk, MatchResult, length};
ghost use Rattle.cbor_model.specs.Acceptable.{IsAcceptableWithin};
ghost use Rattle.cbor_model.specs.Canonical.{IsStorable, IsOrdered};
ghost use Rattle.cbor_model.specs.Document.{IsStorableDocument};
ghost use Rattle.cbor_model.specs.Raw.{Raw};
ghost use Rattle.cbor_model.specs.Spelling.{spell};
ghost use Rattle.cbor_model.specs.Value.{value};
ghost use Rattle.cbor_io.specs.Error.{IsOutOfMemory};
ghost use Rattle.cbor_value.specs.View.{view};
ghost use Rattle.cbor_ser.specs.Written.{IsNotWritten};
ghost use Rattle.cbor_convert.specs.Meaning.{value_of};

use cbor_decode::Decoder;
use cbor_io::error::Result;
use cbor_read::SliceRead;
use cbor_ser::{Serialize, to_vec};
use cbor_value::Value;
use std::alloc::Global;

/// The `Value` that a value of any type stands for: what `from_slice` reads of the bytes that
/// `to_vec` writes of it, at any depth.
///
/// The pairs of a map are put in order, and of equal keys the last value stays.
///
/// It refuses an integer outside `-2^64..=2^64-1`, at any depth, with the message
/// `The number can't be stored in CBOR`, and returns `OutOfMemory` where an allocation fails.
///
/// ```rust
/// let value = to_value(alloc, &(true, 5u8))?;
/// assert_eq!(rt; value, Value::Array(vec![in alloc; Value::Bool(true), Value::Integer(5)]?));
/// ```
pub fn to_value<T: Serialize>(alloc: Global, value: &T) -> Result<Value>
    ensures value { IfOk result (λ v. view v ≡ value_of (T.document value.now)) }
    // It can be stored, as all that is read.
    ensures stored { IfOk result (λ v. IsStorable (view v)) }
    ensures ordered { IfOk result (λ v. IsOrdered (view v)) }
    // Memory aside, it refuses exactly what can't be stored.
    ensures storable { OnOk result (IsStorableDocument (T.document value.now)) }
    ensures refused { IfErr result (IsNotWritten (IsStorableDocument (T.document value.now))) }
{
    let bytes = to_vec(alloc, value)?;
    value_in(alloc, &bytes)
}

// The value of the item that the bytes encode, however deep it is nested.
fn value_in(alloc: Global, bytes: &[u8]) -> Result<Value>
    ensures { (r : Raw) → IsAcceptableWithin (length bytes.now) r → spell r ≡ bytes.now
        → MatchResult result (λ v. view v ≡ value r) IsOutOfMemory }
{
    let mut de = Decoder::new(alloc, SliceRead::new(alloc, bytes));
    // An item has no more levels than bytes.
    de.levels = bytes.len() as u64;
    match de.value() {
        Ok(value) => Ok(value),
        Err(refused) => Err(de.error(refused)),
    }
}

/// The call [`to_value`](to_value()) of each type that is written.
///
/// ```rust
/// assert_eq!(rt; Some(5u8).to_value(alloc)?, Value::Integer(5));
/// ```
pub trait ToValue: Serialize {
    ghost use Rattle.std.specs.Prelude.{◌≡◌, IfOk, IfErr, OnOk};
    ghost use Rattle.cbor_model.specs.Canonical.{IsStorable, IsOrdered};
    ghost use Rattle.cbor_model.specs.Document.{IsStorableDocument};
    ghost use Rattle.cbor_value.specs.View.{view};
    ghost use Rattle.cbor_ser.specs.Written.{IsNotWritten};
    ghost use Rattle.cbor_convert.specs.Meaning.{value_of};

    /// The `Value` that this stands for, as by [`to_value`](to_value()).
    ///
    /// ```rust
    /// assert_eq!(rt; 5u8.to_value(alloc)?, Value::Integer(5));
    /// ```
    fn to_value(&self, alloc: Global) -> Result<Value>
        ensures value { IfOk result (λ v. view v ≡ value_of (Self.document self.now)) }
        ensures stored { IfOk result (λ v. IsStorable (view v)) }
        ensures ordered { IfOk result (λ v. IsOrdered (view v)) }
        ensures storable { OnOk result (IsStorableDocument (Self.document self.now)) }
        ensures refused { IfErr result
            (IsNotWritten (IsStorableDocument (Self.document self.now))) };
}

impl<T: Serialize> ToValue for T {
    fn to_value(&self, alloc: Global) -> Result<Value> {
        to_value(alloc, self)
    }
}
