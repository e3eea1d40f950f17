//! How long an encoding is, without writing it.
//!
//! A [`ByteCount`] is a sink that counts, and [`encoded_len`] writes to one. The crate names the
//! definitions of `cbor_model`, the error and the sinks of `cbor_io`, and the writing of `cbor_ser`.
//! Others rely on the contracts and on `specs/Count.antt`.
#![tactic(auto)]

ghost use Rattle.std.specs.Prelude.{◌≡◌, ◌<◌, ◌^◌, false, length, IfErr, IfOk, IsOk, OnOk};
ghost use Rattle.cbor_model.specs.Document.{IsStorableDocument, document_bytes};
ghost use Rattle.cbor_length.specs.Count.{IsNotCounted};

use cbor_io::error::Result;
use cbor_ser::{Serialize, to_writer};
use std::alloc::Global;

mod count;
mod trace;

pub use count::ByteCount;

/// How many bytes [`to_vec`](cbor_ser::to_vec) writes of a value, which aren't written.
///
/// It takes no memory, so that it refuses what `to_vec` refuses of the value alone: an integer
/// outside `-2^64..=2^64-1`, at any depth, with the message `The number can't be stored in CBOR`,
/// for whose text the allocator is; and a length beyond 2^64 - 1 with `length out of range`. Of other
/// settings of a [`Serializer`](cbor_ser::Serializer) a [`ByteCount`] as its sink tells the length.
///
/// ```rust
/// assert_eq!(rt; encoded_len(alloc, &Value::Integer(-300))?, 3);
/// assert_eq!(rt; encoded_len(alloc, &"IETF")?, 5);
/// ```
pub fn encoded_len<T: Serialize>(alloc: Global, value: &T) -> Result<u64>
    ensures length { IfOk result
        (λ n. n ≡ length (document_bytes (T.document value.now) false false)) }
    ensures storable { OnOk result (IsStorableDocument (T.document value.now)) }
    // It is refused only for such a number, or for such a length.
    ensures counted { IsStorableDocument (T.document value.now)
        → length (document_bytes (T.document value.now) false false) < 2 ^ 64 → IsOk result }
    ensures refused { IfErr result (IsNotCounted (T.document value.now)) }
{
    let mut count = ByteCount::new();
    to_writer(alloc, &mut count, value)?;
    Ok(count.count())
}
