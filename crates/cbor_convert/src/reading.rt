//! What a `Value` is read as.

ghost use Rattle.std.specs.Prelude.{IfOk, IfErr, OnOk};
ghost use Rattle.cbor_model.specs.Acceptable.{IsAcceptable};
ghost use Rattle.cbor_model.specs.Canonical.{IsStorable, canon, canonical};
ghost use Rattle.cbor_io.specs.Error.{IsOutOfMemory};
ghost use Rattle.cbor_value.specs.View.{view};
ghost use Rattle.cbor_de.specs.Whole.{from_reader_context};
ghost use Rattle.cbor_convert.specs.ReadWritten.{ReadsWritten};

use cbor_de::{Deserialize, DeserializeOwned, from_vec};
use cbor_io::error::Result;
use cbor_read::VecRead;
use cbor_ser::to_vec;
use cbor_value::Value;
use std::alloc::Global;

/// What a type reads of the item that `to_vec` writes of a `Value` ([`from_vec`]).
///
/// It refuses a value with an integer outside `-2^64..=2^64-1`, with the message
/// `The number can't be stored in CBOR`; one that is nested more than 127 levels deep, with
/// `RecursionLimitExceeded`, where the type reads every item; and what the type doesn't read, as
/// `from_vec` does. It returns no I/O error, unless a type makes one itself.
///
/// ```rust
/// let pair: (bool, u8) = from_value(alloc, to_value(alloc, &(true, 5u8))?)?;
/// assert_eq!(rt; pair, (true, 5));
/// ```
pub fn from_value<'de, T: DeserializeOwned + Deserialize<'de, VecRead>>(
    alloc: Global,
    value: Value,
) -> Result<T>
    // The value's canonical encoding is read, if it can be stored.
    ensures answers { ReadsWritten T.passes_over T.total T.reports_faults T.wrong_forms
        (T.reads from_reader_context) (IsStorable (view value)) (canon (view value)) result }
    // So its canonical item is acceptable, and that is read.
    ensures acceptable { OnOk result (IsAcceptable (canonical (view value))) }
    ensures found { IfOk result (T.reads from_reader_context (canonical (view value))) }
    // Each such value is read, unless memory runs out.
    ensures accepted { (x : T) → IsStorable (view value) → IsAcceptable (canonical (view value))
        → T.reads from_reader_context (canonical (view value)) x
        → IfErr result IsOutOfMemory }
{
    let bytes = to_vec(alloc, &value)?;
    from_vec(alloc, bytes)
}
