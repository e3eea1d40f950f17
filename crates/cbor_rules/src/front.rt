//! The item at the front of what is left of a slice.

ghost use Rattle.std.specs.Prelude.{◌≡◌, ◌⊎◌, ◌≤◌, ℕ, List, [], length, drop, IfErr, IfOk, None};
ghost use Rattle.cbor_model.specs.Acceptable.{max_depth};
ghost use Rattle.cbor_model.specs.Formats.{all_formats};
ghost use Rattle.cbor_model.specs.Raw.{Raw};
ghost use Rattle.cbor_model.specs.RawReader.{Begins};
ghost use Rattle.cbor_io.specs.Error.{IsOutOfMemory};
ghost use Rattle.cbor_read.specs.Source.{slice_input};
ghost use Rattle.cbor_read.specs.Sources.{input_of_slice};
ghost use Rattle.cbor_decode.specs.FirstRefusal.{ReportsFirst};
ghost use Rattle.cbor_decode_as.specs.Takes.{formats_of, WhereTotal};
ghost use Rattle.cbor_de.specs.FirstOfItem.{bounds_of};
ghost use Rattle.cbor_de.specs.Forms.{MayReport};
ghost use Rattle.cbor_de.specs.ItemTaken.{BeginsAs};
ghost use Rattle.cbor_de.specs.Whole.{from_slice_asks, from_slice_context};
ghost use Rattle.cbor_rules.specs.NextItem.{EndsAt, RefusesNext};
ghost use Rattle.cbor_rules.specs.Rules.{Terms};

use cbor_de::{Deserialize, Deserializer, item_taken};
use cbor_io::error::Result;
use cbor_read::{SliceRead, Source};
use std::alloc::Global;

/// What the item is read as that begins at this offset, and where it ends.
pub(crate) fn front<'a, T: Deserialize<'a, SliceRead<'a>>>(
    alloc: Global,
    slice: &'a [u8],
    start: usize,
) -> Result<(T, usize)>
    requires { start ≤ length slice.now }
    ensures found { IfOk result
        (λ r. EndsAt (T.reads from_slice_context) slice.now start r.0 r.1) }
    ensures accepted { (x : T) (rest : List ℕ)
        → BeginsAs all_formats max_depth (T.reads from_slice_context) (drop start slice.now) x rest
        → IfErr result IsOutOfMemory }
    ensures every { (item : Raw) (rest : List ℕ)
        → Begins max_depth (drop start slice.now) item rest
        → IfErr result (λ e. WhereTotal T.total (IsOutOfMemory e)) }
    ensures first { IfErr result (λ e. WhereTotal T.total (IsOutOfMemory e
        ⊎ ReportsFirst (bounds_of max_depth (slice_input slice.now start [] None))
        (drop start slice.now) e)) }
    ensures form { IfErr result
        (MayReport T.wrong_forms all_formats (slice_input slice.now start [] None)) }
    ensures fault { (terms : Terms) → IfErr result (λ e. WhereTotal T.passes_over (IsOutOfMemory e
        ⊎ RefusesNext (T.reads from_slice_context)
        (record { input = slice.now; taken = start; terms = terms }) e)) }
    ensures memory { (x : T) (rest : List ℕ)
        → (front : BeginsAs all_formats max_depth (T.reads from_slice_context)
        (drop start slice.now) x rest)
        → IfErr result (λ e. T.asks_memory from_slice_asks front.item) }
{
    item_taken::<T>();
    let mut de = reader_at(alloc, slice, start);
    match T::deserialize(&mut de) {
        Ok(value) => {
            let end = de.byte_offset();
            Ok((value, end))
        }
        Err(e) => Err(e),
    }
}

/// What reads the bytes of a slice from this offset on.
fn reader_at<'a>(alloc: Global, slice: &'a [u8], start: usize) -> Deserializer<SliceRead<'a>>
    requires { start ≤ length slice.now }
    ensures input { input_of_slice result.decoder.source ≡ slice_input slice.now start [] None }
    ensures levels { result.decoder.levels ≡ max_depth }
    ensures formats { formats_of result.decoder.formats ≡ all_formats }
{
    let mut source = SliceRead::new(alloc, slice);
    source.advance(start);
    Deserializer::new(alloc, source)
}
