//! Tuples, which are read by one recursion over the list of their parts: the tuples of the standard
//! library, and those that are the parts of an enum's variant.

ghost use Rattle.std.specs.Prelude.{◌≡◌, IfErr, OnOk};
ghost use Rattle.cbor_model.specs.Readable.{PassesTags};
ghost use Rattle.cbor_decode.specs.Decoder.{SameSettings};
ghost use Rattle.cbor_decode_as.specs.Accesses.{TakesPart};
ghost use Rattle.cbor_decode_as.specs.Arrays.{AsArray};
ghost use Rattle.cbor_decode_as.specs.Takes.{context, formats_of};
ghost use Rattle.cbor_de.specs.ItemLists.{ReportsShort, TakesItems, length_text};
ghost use Rattle.cbor_de.specs.Access as access;
ghost use Rattle.cbor_de.specs.Calls as call;

use crate::de::Deserializer;
use crate::deserialize::{Deserialize, Readable};
use crate::ready::read_gathered;
use crate::sequence::invalid_length;
use cbor_decode::{Collection, Remaining};
use cbor_decode_as::collection::{self, more_items};
use cbor_io::error::Result;
use cbor_read::Read;

// ---- tuples

/// The items of an array that are read as a tuple, as `(u64, u8)`.
pub trait ReadableTuple: Sized + Drop {
    ghost use Rattle.std.specs.Prelude.{Bool};
    ghost use Rattle.cbor_model.specs.Raw.{Raws};
    ghost use Rattle.cbor_model.specs.Readable.{Context};
    ghost use Rattle.cbor_de.specs.Forms.{WrongForms};

    // As what the items are read.
    ghost parts: { Context → Raws → Self → Type 0 };

    // By which codes one of them may be refused for its form, and where.
    ghost wrong_forms: { WrongForms };

    // Whether the refusals of each report the faults of the bytes.
    ghost reports_faults: { Bool };
}

/// A tuple that is read from a source.
pub trait ReadTuple<'de, R: Read<'de>>: ReadableTuple {
    /// Reads the items of an array that remain, of which none was read, and its end.
    fn read_tuple(de: &mut Deserializer<R>, remaining: Remaining) -> Result<Self>
        ensures read { TakesItems R.refusals (formats_of de.old.decoder.formats)
            (Self.parts (context de.old.decoder.formats R.lends)) de.old.decoder.levels remaining
            (R.source de.old.decoder.source) (R.source de.new.decoder.source) result }
        ensures fault { IfErr result
            (access.ItemsFault R.source R.refusals Self.reports_faults remaining de.old) }
        ensures form { IfErr result (call.MayReport R.source Self.wrong_forms de.old) }
        ensures formats { de.new.decoder.formats ≡ de.old.decoder.formats };
}

// Reads an array of exactly these items.
#[inline(always)]
#[tactic(auto, using(crate::proofs::refusals::Forms::plain))]
pub(crate) fn read_array<'de, R: Read<'de>, T: ReadTuple<'de, R>>(
    de: &mut Deserializer<R>,
) -> Result<T>
    ensures read { call.TakesItem R.source R.refusals
        (PassesTags (AsArray (T.parts (context de.old.decoder.formats R.lends))))
        de.old de.new result }
    ensures taken { OnOk result (call.Advances R.source de.old de.new) }
    ensures own_fault { IfErr result
        (call.OwnFault R.source R.refusals T.reports_faults de.old) }
    ensures form { IfErr result (call.MayReport R.source T.wrong_forms de.old) }
    ensures settings { SameSettings de.old.decoder de.new.decoder }
{
    let outer = de.decoder.levels;
    let remaining = match collection::head(&mut de.decoder, Collection::Array) {
        Ok(remaining) => remaining,
        Err(e) => return Err(e),
    };
    // A result that is kept while the levels are set would be moved whole.
    match T::read_tuple(de, remaining) {
        Ok(tuple) => {
            de.decoder.levels = outer;
            Ok(tuple)
        }
        Err(e) => {
            de.decoder.levels = outer;
            Err(e)
        }
    }
}

// ---- lists

// The parts of a tuple: `()`, or a part and the list of the others, as `(u64, (u8, ()))`.
pub(crate) trait ItemList: Sized + Drop {
    ghost use Rattle.std.specs.Prelude.{Bool};
    ghost use Rattle.cbor_model.specs.Raw.{Raws};
    ghost use Rattle.cbor_model.specs.Readable.{Context};
    ghost use Rattle.cbor_de.specs.Forms.{WrongForms};

    // As what the items are read.
    ghost parts: { Context → Raws → Self → Type 0 };

    // By which codes one of them may be refused for its form, and where.
    ghost wrong_forms: { WrongForms };

    // Whether the refusals of each report the faults of the bytes.
    ghost reports_faults: { Bool };
}

// The parts of a tuple, which are read from a source.
pub(crate) trait ReadItems<'de, R: Read<'de>>: ItemList {
    // Reads the items of an array that remain, and its end. So many were read before them, of so
    // many that are expected.
    fn read_items(
        de: &mut Deserializer<R>,
        remaining: Remaining,
        before: usize,
        expected: usize,
    ) -> Result<Self>
        ensures read { TakesItems R.refusals (formats_of de.old.decoder.formats)
            (Self.parts (context de.old.decoder.formats R.lends)) de.old.decoder.levels remaining
            (R.source de.old.decoder.source) (R.source de.new.decoder.source) result }
        ensures fault { IfErr result
            (access.ItemsFault R.source R.refusals Self.reports_faults remaining de.old) }
        ensures form { IfErr result (call.MayReport R.source Self.wrong_forms de.old) }
        ensures formats { de.new.decoder.formats ≡ de.old.decoder.formats };
}

impl ItemList for () {
    ghost use Rattle.std.specs.Prelude.{true};
    ghost use Rattle.cbor_decode_as.specs.Enums.{no_part};
    ghost use Rattle.cbor_de.specs.Forms.{never};

    ghost parts = { λ c. no_part };

    ghost wrong_forms = { never };

    ghost reports_faults = { true };
}

impl<'de, R: Read<'de>> ReadItems<'de, R> for () {
    #[inline(always)]
    fn read_items(
        de: &mut Deserializer<R>,
        remaining: Remaining,
        _before: usize,
        _expected: usize,
    ) -> Result<()> {
        collection::end(&mut de.decoder, remaining, Collection::Array)
    }
}

impl<A: Readable, F: ItemList> ItemList for (A, F) {
    ghost use Rattle.cbor_de.specs.Calls.{and_reports, reports_any};
    ghost use Rattle.cbor_de.specs.Forms.{any_of};
    ghost use Rattle.cbor_decode_as.specs.Enums.{part_then};

    ghost parts = { λ c. part_then (A.reads c) (F.parts c) };

    ghost wrong_forms = { any_of A.wrong_forms F.wrong_forms };

    ghost reports_faults = { and_reports (reports_any A.passes_over A.total A.reports_faults)
        F.reports_faults };
}

impl<'de, R: Read<'de>, A: Deserialize<'de, R>, F: ReadItems<'de, R>> ReadItems<'de, R> for (A, F) {
    #[inline(always)]
    fn read_items(
        de: &mut Deserializer<R>,
        mut remaining: Remaining,
        before: usize,
        expected: usize,
    ) -> Result<(A, F)> {
        let first = match next_part::<R, A>(de, &mut remaining, before, expected) {
            Ok(first) => first,
            Err(e) => return Err(e),
        };
        match F::read_items(de, remaining, before.saturating_add(1), expected) {
            Ok(others) => Ok((first, others)),
            Err(e) => Err(e),
        }
    }
}

// Reads the next item of an array of which so much remains.
#[inline(always)]
#[tactic(auto, using(crate::proofs::refusals::Forms::plain))]
fn next_part<'de, R: Read<'de>, T: Deserialize<'de, R>>(
    de: &mut Deserializer<R>,
    remaining: &mut Remaining,
    before: usize,
    expected: usize,
) -> Result<T>
    ensures read { TakesPart R.refusals (formats_of de.old.decoder.formats)
        (T.reads (context de.old.decoder.formats R.lends))
        de.old.decoder.levels remaining.old remaining.new
        (R.source de.old.decoder.source) (R.source de.new.decoder.source) result }
    ensures short { IfErr result (ReportsShort R.refusals (length_text before expected)
        remaining.old (R.source de.old.decoder.source)) }
    ensures fault { IfErr result (access.ItemsFault R.source R.refusals
        (call.reports_any T.passes_over T.total T.reports_faults) remaining.old de.old) }
    ensures form { IfErr result (call.MayReport R.source T.wrong_forms de.old) }
    ensures settings { SameSettings de.old.decoder de.new.decoder }
{
    match more_items(&mut de.decoder, remaining) {
        Ok(true) => match T::at_hand(de) {
            Some(item) => Ok(item),
            None => read_gathered::<R, T>(de),
        },
        Ok(false) => Err(invalid_length(de.decoder.alloc, before, expected)),
        Err(e) => Err(e),
    }
}
