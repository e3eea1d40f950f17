//! The law over what is written, and over the calls.

ghost use Rattle.std.specs.Prelude.{◌≡◌, ◌≤◌, false, IfOk, IfErr};
ghost use Rattle.cbor_model.specs.Acceptable.{max_depth};
ghost use Rattle.cbor_model.specs.Document.{document_bytes, raw_of, IsStorableDocument};
ghost use Rattle.cbor_model.specs.Raw.{depth};
ghost use Rattle.cbor_io.specs.Error.{IsOutOfMemory};
ghost use Rattle.cbor_de.specs.Whole.{from_reader_context};
ghost use Rattle.cbor_convert.specs.ReadWritten.{ReadsWritten};
ghost use Rattle.cbor_round_trip.specs.ReadBack.{IsWrittenReadBack, ReadsOneValue};

use crate::round_trip::RoundTrip;
use cbor_de::{Deserialize, from_vec};
use cbor_io::error::Result;
use cbor_read::VecRead;
use cbor_ser::to_vec;
use std::alloc::Global;

/// The bytes of a value's document are read as that value, where its item nests at most 127 levels;
/// and as no value of another document. It holds under each setting of the writer, and for each
/// source.
///
/// A caller gives it what `to_vec` and `to_vec_packed` say of the document (`storable` and
/// `in_range`), and gets what the clauses `found` and `accepted` of the four `from_*` are about.
pub fn written_reads_back_as<T: RoundTrip>()
    ensures { IsWrittenReadBack T.document T.reads T.law.fits }
{}

/// A type reads an input as one value: two values that it is read as, from sources that lend this
/// or that, are written alike, under each setting of the writer.
///
/// A caller gives it the clauses `found` of two of the `from_*`. Of a struct with a field that has
/// a default it asks that the default is one value (`law.determined`, which else is `tt` for each
/// part).
pub fn one_value<T: RoundTrip>()
    ensures { ReadsOneValue T.document T.reads T.law.determined }
{}

/// Writes a value, and reads it from its bytes again: a value of the same document, if the value
/// keeps what the law asks of it (`law.fits`).
///
/// It refuses what [`to_vec`] refuses, an integer outside `-2^64..=2^64-1` at any depth, with the
/// message `The number can't be stored in CBOR`; what is nested deeper than the 127 levels that are
/// read, with `RecursionLimitExceeded`, where the type reads every item; and it returns
/// `OutOfMemory` where an allocation fails. Nothing else of a value that keeps the law is refused.
///
/// ```rust
/// let again: u32 = write_and_read(alloc, &500)?;
/// assert_eq!(rt; again, 500);
/// ```
pub fn write_and_read<'de, T: RoundTrip + Deserialize<'de, VecRead>>(
    alloc: Global,
    value: &T,
) -> Result<T>
    ensures same { T.law.fits value.now
        → IfOk result (λ again. T.document again ≡ T.document value.now) }
    // It is returned, unless memory runs out.
    ensures answered { T.law.fits value.now → IsStorableDocument (T.document value.now)
        → depth (raw_of (T.document value.now) false false) ≤ max_depth
        → IfErr result IsOutOfMemory }
    // What is written is read, if it can be stored: so it is refused as its encoding is.
    ensures answers { ReadsWritten T.passes_over T.total T.reports_faults T.wrong_forms
        (T.reads from_reader_context) (IsStorableDocument (T.document value.now))
        (document_bytes (T.document value.now) false false) result }
{
    let bytes = to_vec(alloc, value)?;
    from_vec(alloc, bytes)
}
