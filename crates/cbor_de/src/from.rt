//! Reading a whole input as a type.

ghost use Rattle.std.specs.Prelude.{◌^◌, ◌<◌, ℕ, List, length, Some, None};
ghost use Rattle.std.specs.Prelude.{IfErr, MatchResult};
ghost use Rattle.cbor_model.specs.Acceptable.{max_depth};
ghost use Rattle.cbor_model.specs.Formats.{all_formats};
ghost use Rattle.cbor_model.specs.Laws.{SpellsValue};
ghost use Rattle.cbor_model.specs.Plain.{Val};
ghost use Rattle.cbor_model.specs.Raw.{AreBytes, longest_joined};
ghost use Rattle.cbor_io.specs.Error.{IsOutOfMemory};
ghost use Rattle.cbor_decode.specs.Gives.{Gave, IsMemoryOrFault, IsScratchOrMemory};
ghost use Rattle.cbor_read.specs.Source.{asks_for, start_of_reader, start_of_slice};
ghost use Rattle.cbor_decode_as.specs.Takes.{context, formats_of, lending, MemoryFor, WhereTotal};
ghost use Rattle.cbor_de.specs.Forms.{MayReport};
ghost use Rattle.cbor_de.specs.Whole.{Answers, ReadsAll, ReportsWhole, WholeFault, asks_none};
ghost use Rattle.cbor_de.specs.Whole.{from_mut_slice_context, from_reader_asks};
ghost use Rattle.cbor_de.specs.Whole.{from_reader_context, from_slice_asks, from_slice_context};
ghost use Rattle.cbor_de.specs.Calls as call;

use crate::de::Deserializer;
use crate::deserialize::{Deserialize, DeserializeOwned};
use cbor_buffered::{BufferedRead, InlineBlock};
use cbor_io::error::Result;
use cbor_read::{MutSliceRead, Read, SliceRead, SliceReadFixed, VecRead};
use std::alloc::Global;
use std::io;

// What all that the source has to give is read as.
fn read_all<'de, T: Deserialize<'de, R>, R: Read<'de> + Drop>(alloc: Global, source: R) -> Result<T>
    ensures read { ReadsAll R.refusals all_formats (T.reads (lending all_formats R.lends))
        max_depth (R.source source) result }
    ensures fault { IfErr result (ReportsWhole T.passes_over T.total R.refusals all_formats
        (T.reads (lending all_formats R.lends)) max_depth (R.source source)) }
    ensures own_fault { IfErr result (λ e. WhereTotal
        (call.reports_any T.passes_over T.total T.reports_faults)
        (WholeFault R.refusals max_depth (R.source source) e)) }
    ensures memory { IfErr result (MemoryFor (T.asks_memory (asks_for R.refusals R.lends))
        all_formats (T.reads (lending all_formats R.lends)) max_depth (R.source source)) }
    ensures form { IfErr result (MayReport T.wrong_forms all_formats (R.source source)) }
{
    let mut de = Deserializer::new(alloc, source);
    whole(&mut de)
}

// What the one item that is to come is read as.
fn whole<'de, T: Deserialize<'de, R>, R: Read<'de>>(de: &mut Deserializer<R>) -> Result<T>
    ensures read { ReadsAll R.refusals (formats_of de.old.decoder.formats)
        (T.reads (context de.old.decoder.formats R.lends)) de.old.decoder.levels
        (R.source de.old.decoder.source) result }
    ensures fault { IfErr result (ReportsWhole T.passes_over T.total R.refusals
        (formats_of de.old.decoder.formats) (T.reads (context de.old.decoder.formats R.lends))
        de.old.decoder.levels (R.source de.old.decoder.source)) }
    ensures own_fault { IfErr result (λ e. WhereTotal
        (call.reports_any T.passes_over T.total T.reports_faults)
        (WholeFault R.refusals de.old.decoder.levels (R.source de.old.decoder.source) e)) }
    ensures memory { IfErr result (MemoryFor (T.asks_memory (asks_for R.refusals R.lends))
        (formats_of de.old.decoder.formats) (T.reads (context de.old.decoder.formats R.lends))
        de.old.decoder.levels (R.source de.old.decoder.source)) }
    ensures form { IfErr result (call.MayReport R.source T.wrong_forms de.old) }
{
    let value = match T::deserialize(de) {
        Ok(value) => value,
        Err(e) => return Err(e),
    };
    match de.end() {
        Ok(()) => Ok(value),
        Err(e) => Err(e),
    }
}

// Tells a proof that what a slice holds is below 256, and fewer than 2^64.
fn are_bytes(slice: &[u8])
    ensures bytes { AreBytes slice.now }
    ensures short { length slice.now < 2 ^ 64 }
{
    let _ = slice.len();
}

/// Decodes the one item that the slice encodes as a `T` (RFC 7049, sections 2.1 to 2.4).
///
/// The item has to be acceptable: well formed, nested at most 127 levels deep, each text UTF-8; and
/// one that the type reads. Heads may be longer than they have to be, and lengths indefinite.
///
/// A [`Value`](cbor_value::Value) is read from any acceptable item. Null and undefined are `Null`;
/// of a map's pairs with one key the last value stays, and the keys are put in order. Of the simple
/// values only false, true, null and undefined are acceptable (`f0` and `f8 ff` are refused).
///
/// The refusals, each at an offset in bytes:
/// - `EofWhileParsingValue`, `EofWhileParsingArray`, `EofWhileParsingMap`: the bytes end too early,
///   the latter two where an element of an array or a key of a map of indefinite length, or its
///   break, is due; at the end of the bytes;
/// - `UnassignedCode`: a first byte that the format doesn't assign, or that of another simple
///   value, after that byte;
/// - `UnexpectedCode`: a break, or a byte in a chunk's place, that may not stand there, after it;
/// - `InvalidUtf8`: a text isn't UTF-8, where its first invalid sequence begins; for a text in
///   chunks, counted back from its end by the joined bytes from that sequence on (4 of
///   `7f 61 c3 61 28 ff`, whose joined bytes `c3 28` are invalid from the first on);
/// - `LengthOutOfRange`: a text would end at 2^64 or beyond, after its head;
/// - `RecursionLimitExceeded`: the 128th array, map or tag inside others, after its head;
/// - `TrailingData`: bytes follow the item, after the first of them; or items or pairs that the
///   type doesn't read follow those that it does;
/// - `ArrayTooShort`, `ArrayTooLong`: an array in an enum's place has no name, or no item where
///   the variant has a part; or it has a name alone and the variant no part; after its last item;
/// - `Message`, without an offset: an item that the type doesn't read;
/// - `OutOfMemory`: an allocation failed. A length field alone takes no memory. None is taken
///   for a bool, a number, a float, `()` and a borrowed string; for a `char` and a `ByteArray` that
///   aren't in chunks; for an `IgnoredAny` of an item that has no string in chunks; for a `Value`
///   that is a bool, a number, a float or null; and for an `Option` of these: where such an item is
///   there, it is read.
///
/// Where several faults stand in one input, a type that reads every item, as `Value` does, returns
/// the first. A bool, a number, a `char`, `()`, a string, and an `Option` of these return the first
/// of the item that the bytes begin with, and `Message` exactly where an acceptable item stands
/// there that they don't read. A vector, an array, a tuple, a set, a box or an `Option` of such
/// types, nested in any way, returns no fault of the bytes but the first: before it may come a
/// message, or `TrailingData` where an array has too many items. None of all these refuses an item
/// for its form, by `ArrayTooShort`, `ArrayTooLong`, `WrongEnumFormat` or `WrongStructFormat`. Any
/// other type does so by the codes, and at the places, that it says (`Readable::wrong_forms`), and
/// returns any fault of the bytes, unless it says more (`Readable::reports_faults`).
///
/// ```rust
/// let number: u8 = from_slice(alloc, b"\x18\x2a")?;
/// assert_eq!(rt; number, 42);
///
/// let value: Value = from_slice(alloc, &[0x82, 0x18, 0x17, 0xf7])?;
/// assert_eq!(rt; value, Value::Array(vec![in alloc; Value::Integer(23), Value::Null]?));
/// ```
pub fn from_slice<'a, T: Deserialize<'a, SliceRead<'a>>>(
    alloc: Global,
    slice: &'a [u8],
) -> Result<T>
    ensures answers { Answers T.passes_over T.total T.reports_faults (T.reads from_slice_context)
        (T.asks_memory from_slice_asks) IsOutOfMemory None slice.now result }
    // A wrong form is reported by a code, and at a place, that the type may report it by and at.
    ensures form { IfErr result
        (MayReport T.wrong_forms all_formats (start_of_slice slice.now None)) }
{
    read_all(alloc, SliceRead::new(alloc, slice))
}

/// Decodes the one item that the slice encodes as a `T`, as [`from_slice`] does; strings in chunks
/// are joined in a scratch buffer of the caller's.
///
/// It refuses as `from_slice` does, and with `ScratchTooSmall` where the chunks of a string, each
/// whole in the bytes, are longer together than the scratch: at the offset after the head of the
/// chunk that doesn't fit. What the scratch holds afterwards isn't said.
///
/// Beside what `from_slice` takes no memory for, none is taken for a `char` and a `ByteArray` in
/// chunks that fit the scratch, and for an `IgnoredAny`.
///
/// ```rust
/// let flag: bool = from_slice_with_scratch(alloc, b"\xf5", &mut [])?;
/// assert!(rt; flag);
/// ```
pub fn from_slice_with_scratch<'a, T: Deserialize<'a, SliceReadFixed<'a, 'a>>>(
    alloc: Global,
    slice: &'a [u8],
    scratch: &'a mut [u8],
) -> Result<T>
    ensures answers { Answers T.passes_over T.total T.reports_faults (T.reads from_slice_context)
        (T.asks_memory asks_none) IsOutOfMemory (Some (length scratch.old)) slice.now result }
    // An item with a string in chunks that is longer than the scratch isn't read; where the type
    // reads every item, that is reported, unless memory runs out.
    ensures small { (v : Val) → (spelt : SpellsValue slice.now v)
        → length scratch.old < longest_joined spelt.item
        → MatchResult result (λ x. ⊥) (λ e. WhereTotal T.total (IsScratchOrMemory e)) }
    ensures form { IfErr result (MayReport T.wrong_forms all_formats
        (start_of_slice slice.now (Some (length scratch.old)))) }
{
    read_all(alloc, SliceReadFixed::new(slice, scratch))
}

/// Decodes the one item that the slice encodes as a `T`, as [`from_slice`] does. The slice is
/// rewritten: strings in chunks are joined in place. What it holds afterwards isn't said.
///
/// Beside what `from_slice` takes no memory for, none is taken for a borrowed string, a `char` and
/// a `ByteArray` in chunks, and for an `IgnoredAny`.
///
/// ```rust
/// let number: i64 = from_mut_slice(alloc, &mut [0x38, 0x7f])?;
/// assert_eq!(rt; number, -128);
/// ```
pub fn from_mut_slice<'a, T: Deserialize<'a, MutSliceRead<'a>>>(
    alloc: Global,
    slice: &'a mut [u8],
) -> Result<T>
    ensures answers { Answers T.passes_over T.total T.reports_faults (T.reads from_mut_slice_context)
        (T.asks_memory asks_none) IsOutOfMemory None slice.old result }
    ensures form { IfErr result
        (MayReport T.wrong_forms all_formats (start_of_slice slice.old None)) }
{
    are_bytes(slice);
    read_all(alloc, MutSliceRead::new(slice))
}

/// Decodes the one item that the bytes encode as a `T`, as [`from_slice`] does, of a vector that is
/// used up: what is read borrows nothing of it. It takes memory as [`from_reader`] does.
///
/// ```rust
/// let number: u8 = from_vec(alloc, b"\x18\x2a".to_vec(alloc)?)?;
/// assert_eq!(rt; number, 42);
/// ```
pub fn from_vec<'de, T: DeserializeOwned + Deserialize<'de, VecRead>>(
    alloc: Global,
    bytes: Vec<u8>,
) -> Result<T>
    ensures answers { Answers T.passes_over T.total T.reports_faults (T.reads from_reader_context)
        (T.asks_memory from_reader_asks) IsOutOfMemory None bytes.items result }
    ensures form { IfErr result
        (MayReport T.wrong_forms all_formats (start_of_slice bytes.items None)) }
{
    are_bytes(&bytes);
    read_all(alloc, VecRead::new(alloc, bytes))
}

/// Decodes the one item that the reader's bytes encode as a `T`, as [`from_slice`] does. It reads
/// to the reader's end, and takes memory only for bytes that came, also for a `char` and a
/// `ByteArray`.
///
/// It asks its reader for 1 KiB at a time, which stands on the stack: no `BufReader` is needed.
/// After a refusal up to 1 KiB that wasn't decoded is gone from the reader. Where others go on with
/// the reader, take [`Deserializer::from_reader`], which takes no byte that it doesn't need.
///
/// It refuses as `from_slice` does, with `Io` where the reader reports a fault (an interrupted read
/// is one), and with `LengthOutOfRange` where it gives 2^64 bytes and more.
///
/// ```rust
/// let number: u8 = from_reader(alloc, b"\x18\x2a".as_slice())?;
/// assert_eq!(rt; number, 42);
/// ```
///
/// A type that borrows from its input isn't read from a reader, which the compiler says:
///
/// ```rust,compile_fail
/// let text: &str = from_reader(alloc, b"\x61a".as_slice())?;
/// ```
pub fn from_reader<'de, T, R>(alloc: Global, reader: R) -> Result<T>
where
    T: DeserializeOwned + Deserialize<'de, BufferedRead<R, InlineBlock>>,
    R: io::Read + Drop,
    // Of a reader that reports its bytes, fewer than 2^64, however it gives them:
    ensures answers { (bytes : List ℕ) → Gave (R.remaining reader) bytes
        → Answers T.passes_over T.total T.reports_faults (T.reads from_reader_context)
        (T.asks_memory from_reader_asks) IsMemoryOrFault None bytes result }
    ensures form { IfErr result
        (MayReport T.wrong_forms all_formats (start_of_reader (R.remaining reader))) }
{
    read_all(alloc, BufferedRead::inline(alloc, reader))
}
