//! Arrays, one item after the other (RFC 7049, section 2.1, major type 4).

ghost use Rattle.std.specs.Prelude.{◌≡◌, ◌≢◌, ◌<◌, IfOk, IfErr, Some};
ghost use Rattle.cbor_decode.specs.declared.cursor.Remaining.TheVariants.{Counted};
ghost use Rattle.std.specs.Borrow.{sem, RestsIfErr};
ghost use Rattle.cbor_io.specs.Error.{IsMessageOf, code_of, offset_of};
ghost use Rattle.cbor_read.specs.Source.{asks_for};
ghost use Rattle.cbor_io.specs.declared.error.ErrorCode.TheVariants.{OutOfMemory};
ghost use Rattle.cbor_decode.specs.Gives.{IsErrorOf, ReportsNoForm};
ghost use Rattle.cbor_decode.specs.Gives.{ReportsNoKey, ReportsNoMemory, ReportsWhy};
ghost use Rattle.cbor_decode.specs.Heads.{remaining_of};
ghost use Rattle.cbor_model.specs.Reader.{next_at};
ghost use Rattle.cbor_model.specs.Refusal.{end_in_array};
ghost use Rattle.cbor_decode_as.specs.Accesses.{size_of, TakesMore};
ghost use Rattle.cbor_decode_as.specs.Collections.{TakesEndOf};
ghost use Rattle.cbor_decode_as.specs.Takes.{IsMessage, OnceMade, context};
ghost use Rattle.cbor_de.specs.ItemLists.{ReportsShort, length_text};
ghost use Rattle.cbor_de.specs.contracts.de.Deserializer.{the_row};
ghost use Rattle.cbor_decode.specs.Cursor.{Counts};
ghost use Rattle.cbor_decode.specs.declared.head.Head.TheVariants as kind;
ghost use Rattle.cbor_decode.specs.Decoder.{SameSettings};
ghost use Rattle.cbor_de.specs.Access as access;
ghost use Rattle.cbor_de.specs.Calls as call;
ghost use Rattle.cbor_decode.specs.declared.cursor.Collection.TheVariants as of;

use crate::de::Deserializer;
use crate::deserialize::Deserialize;
use cbor_decode::{Collection, Done, Refused, Remaining};
use cbor_decode_as::collection::{self, more_items};
use cbor_io::error::{Error, Result};
use cbor_read::{Read, Source};
use std::alloc::Global;

impl<R: Source> Deserializer<R> {
    /// Takes the tags and the head of an array, and goes one level in for its items.
    ///
    /// An item of another kind is refused with `invalid type: expected an array`, and an array for
    /// which no level is left with `RecursionLimitExceeded`. What follows the head isn't looked at:
    /// it is for the calls of the access to refuse.
    ///
    /// ```rust
    /// let mut de = Deserializer::from_slice(alloc, b"\x9f\x01\x02\xff");
    /// let mut items = de.array()?; // of indefinite length
    /// let mut sum = 0;
    /// while let Some(item) = items.next_element::<u8>()? {
    ///     sum += item as u64;
    /// }
    /// items.end()?;
    /// assert_eq!(rt; sum, 3);
    /// ```
    pub fn array<'a>(&'a mut self) -> Result<SeqAccess<'a, R>>
        ensures* rests { sem 𝓛 (RestsIfErr (the_row R.row) self.entry (λ s. s.de.ghost_name) result
            (λ last. access.Rests R.source self.old.decoder.levels self.old last)) }
        ensures same_reference { IfOk result (λ s. s.de.ghost_name ≡ self.entry.ghost_name) }
        ensures head { IfOk result (λ s. access.Opens R.source of.Array self.old s.de.now s.remaining) }
        ensures refused { IfErr result (access.RefusesOpening R.source of.Array R.refusals self.old) }
        // The head alone, whatever follows it.
        ensures opened { IfOk result
            (λ s. access.Begins R.source kind.Array self.old s.de.now s.remaining) }
        ensures unopened { IfErr result
            (access.RefusesBeginning R.source R.refusals kind.Array self.old) }
        ensures fault { IfErr result
            (access.BeginningFault R.source R.refusals kind.Array self.old) }
        ensures no_form { IfErr result (λ e. ReportsNoForm (code_of e)) }
        ensures memory { IfErr result (access.MemoryForOther R.source kind.Array self.old) }
        ensures taken { IfOk result (λ s. call.Advances R.source self.old s.de.now) }
        ensures settings { IfOk result
            (λ s. call.Within self.old.decoder.levels s.outer self.old s.de.now) }
    {
        let outer = self.decoder.levels;
        let remaining = collection::head(&mut self.decoder, Collection::Array)?;
        Ok(SeqAccess {
            de: self,
            remaining,
            outer,
        })
    }
}

/// The error of an array that has too few items, as `invalid length 1, expected 2`.
#[cold]
#[inline(never)]
#[tactic(auto, using(crate::proofs::refusals::Forms::message_form))]
pub(crate) fn invalid_length(alloc: Global, found: usize, expected: usize) -> Error
    ensures message { IsMessage result }
    ensures text { IsMessageOf (Some (length_text found expected)) (code_of result) }
    ensures offset { offset_of result ≡ 0 }
    ensures no_form { ReportsNoForm (code_of result) }
{
    match format!(in alloc; "invalid length {found}, expected {expected}") {
        Ok(text) => Error::message(alloc, text),
        Err(e) => Error::from(e),
    }
}

/// The items of an array that are still to be read.
///
/// It holds the level that the array took. [`end`](SeqAccess::end), [`refuse`](SeqAccess::refuse)
/// and each call that returns Err leave that level. After an Err no call follows.
///
/// ```rust
/// let mut de = Deserializer::new(alloc, SliceRead::new(alloc, b"\x82\x01\x02"));
/// let mut items = de.array()?;
/// assert_eq!(rt; items.size_hint(), Some(2));
/// assert_eq!(rt; items.next_element::<u8>()?, Some(1));
/// assert_eq!(rt; items.next_element::<u8>()?, Some(2));
/// assert_eq!(rt; items.next_element::<u8>()?, None);
/// items.end()?;
/// ```
#[derive(Drop)]
pub struct SeqAccess<'a, R> {
    // What reads the items.
    pub(crate) de: &'a mut Deserializer<R>,
    // What remains of the array.
    pub(crate) remaining: Remaining,
    // How many levels were left before the array.
    pub(crate) outer: u64,
}

impl<'a, R: Source> SeqAccess<'a, R> {
    /// Reads the next item; None where the array's last item was read.
    ///
    /// It refuses as the reading of `T` does, and with `EofWhileParsingArray` where an array of
    /// indefinite length has no end.
    #[inline(always)]
    #[tactic(auto, using(crate::proofs::refusals::Forms::plain))]
    pub fn next_element<'de, T: Deserialize<'de, R>>(&mut self) -> Result<Option<T>>
    where
        R: Read<'de>,
        // The access is live: no call on it has answered Err.
        requires { self.old.de.now.decoder.levels < self.old.outer }
        ensures same_reference { self.new.de.ghost_name ≡ self.old.de.ghost_name }
        ensures read { access.TakesNext R.source R.refusals
            (T.reads (context self.old.de.now.decoder.formats R.lends)) self.old.remaining
            self.new.remaining self.old.de.now self.new.de.now result }
        // Memory is asked for by the reading of `T` alone.
        ensures memory { IfErr result (access.MemoryForNext R.source
            (T.asks_memory (asks_for R.refusals R.lends))
            (T.reads (context self.old.de.now.decoder.formats R.lends)) self.old.remaining
            self.old.de.now) }
        ensures fault { IfErr result (access.NextFault R.source R.refusals T.passes_over T.total
            self.old.remaining self.old.de.now) }
        ensures own_fault { IfErr result (access.ItemsFault R.source R.refusals
            (call.reports_any T.passes_over T.total T.reports_faults) self.old.remaining
            self.old.de.now) }
        ensures form { IfErr result (call.MayReport R.source T.wrong_forms self.old.de.now) }
        // Nothing remains after the last item, and a loop over the items ends.
        ensures remains { IfOk result
            (access.Ends R.source self.old.remaining self.new.remaining self.old.de.now
            self.new.de.now) }
        ensures settings { call.StaysInside self.old.outer self.old.de.now self.new.de.now result }
        ensures outer { self.new.outer ≡ self.old.outer }
    {
        match more_items(&mut self.de.decoder, &mut self.remaining) {
            Ok(true) => {}
            Ok(false) => return Ok(None),
            Err(e) => {
                self.de.decoder.levels = self.outer;
                return Err(e);
            }
        }
        match T::deserialize(self.de) {
            Ok(item) => Ok(Some(item)),
            Err(e) => {
                self.de.decoder.levels = self.outer;
                Err(e)
            }
        }
    }

    /// Reads the next item of an array that has to have so many; this many were read before it.
    ///
    /// It refuses as the reading of `T` does, and with `invalid length`, which names both numbers,
    /// where the array's last item was read.
    ///
    /// ```rust
    /// let mut de = Deserializer::from_slice(alloc, b"\x82\x61a\xf5");
    /// let mut items = de.array()?;
    /// let name = items.part::<String>(0, 2)?;
    /// let flag = items.part::<bool>(1, 2)?;
    /// items.end()?;
    /// assert_eq!(rt; name.as_str(), "a");
    /// assert!(rt; flag);
    /// ```
    #[inline(always)]
    #[tactic(auto, using(crate::proofs::refusals::Forms::plain))]
    pub fn part<'de, T: Deserialize<'de, R>>(&mut self, before: usize, expected: usize) -> Result<T>
    where
        R: Read<'de>,
        requires { self.old.de.now.decoder.levels < self.old.outer }
        ensures same_reference { self.new.de.ghost_name ≡ self.old.de.ghost_name }
        ensures read { access.TakesPart R.source R.refusals
            (T.reads (context self.old.de.now.decoder.formats R.lends)) self.old.remaining
            self.new.remaining self.old.de.now self.new.de.now result }
        ensures short { IfErr result (ReportsShort R.refusals (length_text before expected)
            self.old.remaining (R.source self.old.de.now.decoder.source)) }
        // Memory is asked for by the reading of `T`, and for the text where no item comes.
        ensures memory { IfErr result (access.MemoryForItem R.source
            (T.asks_memory (asks_for R.refusals R.lends))
            (T.reads (context self.old.de.now.decoder.formats R.lends)) self.old.remaining
            self.old.de.now) }
        // Where no item comes it is a message, and else as for `next_element`.
        ensures fault { IfErr result (access.MissingOrNextFault R.source R.refusals T.passes_over
            T.total self.old.remaining self.old.de.now) }
        ensures own_fault { IfErr result (access.ItemsFault R.source R.refusals
            (call.reports_any T.passes_over T.total T.reports_faults) self.old.remaining
            self.old.de.now) }
        ensures form { IfErr result (call.MayReport R.source T.wrong_forms self.old.de.now) }
        ensures settings { call.StaysInside self.old.outer self.old.de.now self.new.de.now result }
        ensures outer { self.new.outer ≡ self.old.outer }
    {
        match self.next_element::<T>() {
            Ok(Some(item)) => Ok(item),
            Ok(None) => {
                self.de.decoder.levels = self.outer;
                Err(invalid_length(self.de.decoder.alloc, before, expected))
            }
            Err(e) => Err(e),
        }
    }

    /// How many items of a declared count are still to be read; None where no count was declared,
    /// or where it doesn't fit a `usize`.
    pub fn size_hint(&self) -> Option<usize>
        ensures { result ≡ size_of self.now.remaining }
    {
        match self.remaining {
            Remaining::Counted(n) => usize::try_from(n).ok(),
            Remaining::ToBreak => None,
        }
    }

    /// Takes the end of the array.
    ///
    /// Items that weren't read are refused with `TrailingData`: at the present offset where a count
    /// was declared; else after the first byte of the next item, or with `EofWhileParsingArray`
    /// where there is none.
    pub fn end(self) -> Result<()>
        requires { self.de.now.decoder.levels < self.outer }
        ensures read { TakesEndOf of.Array R.refusals self.entry.remaining
            (R.source self.entry.de.now.decoder.source) (R.source self.exit.0.now.decoder.source)
            result }
        ensures no_form { IfErr result (λ e. ReportsNoForm (code_of e)) }
        ensures memory { IfErr result (λ e. code_of e ≢ OutOfMemory) }
        ensures settings { call.BackTo self.entry.outer self.entry.de.now self.exit.0.now }
    {
        let SeqAccess {
            de,
            remaining,
            outer,
        } = self;
        de.decoder.levels = outer;
        collection::end(&mut de.decoder, remaining, Collection::Array)
    }

    /// Leaves the array for this error, which it passes on.
    pub fn refuse(self, e: Error) -> Error
        requires { self.de.now.decoder.levels < self.outer }
        ensures error { result ≡ e }
        ensures source { self.exit.0.now.decoder.source ≡ self.entry.de.now.decoder.source }
        ensures settings { call.BackTo self.entry.outer self.entry.de.now self.exit.0.now }
    {
        let SeqAccess {
            de,
            remaining: _,
            outer,
        } = self;
        de.decoder.levels = outer;
        e
    }
}

impl<'a, R: Source> SeqAccess<'a, R> {
    // Whether another item comes; its first byte stays. An array of indefinite length that has no
    // end is refused with `EofWhileParsingArray`; `refused` makes the error.
    #[inline(always)]
    pub(crate) fn more(&mut self) -> Done<bool>
        requires { self.old.de.now.decoder.levels < self.old.outer }
        ensures same_reference { self.new.de.ghost_name ≡ self.old.de.ghost_name }
        ensures read { OnceMade (IsErrorOf self.new.de.now.decoder.refusal)
            (TakesMore R.refusals self.old.remaining self.new.remaining
            (R.source self.old.de.now.decoder.source)
            (R.source self.new.de.now.decoder.source)) result }
        ensures fault { IfErr result (ReportsWhy R.refusals
            (λ l. next_at end_in_array (remaining_of self.old.remaining))
            (R.source self.old.de.now.decoder.source) self.new.de.now.decoder.refusal) }
        ensures counts { IfOk result (λ more. Counts self.old.remaining more self.new.remaining) }
        ensures no_key { IfErr result (ReportsNoKey self.new.de.now.decoder.refusal) }
        ensures memory { IfErr result (ReportsNoMemory self.new.de.now.decoder.refusal) }
        ensures settings { SameSettings self.old.de.now.decoder self.new.de.now.decoder }
        ensures outer { self.new.outer ≡ self.old.outer }
    {
        self.de.decoder.more(&mut self.remaining, Collection::Array)
    }

    // Leaves the array for the error of a call on it that was refused.
    #[cold]
    #[inline(never)]
    pub(crate) fn refused(self, refused: Refused) -> Error
        requires { self.de.now.decoder.levels < self.outer }
        ensures reports { IsErrorOf self.entry.de.now.decoder.refusal refused result }
        ensures no_form { ReportsNoKey self.entry.de.now.decoder.refusal refused
            → ReportsNoForm (code_of result) }
        ensures source { self.exit.0.now.decoder.source ≡ self.entry.de.now.decoder.source }
        ensures settings { call.BackTo self.entry.outer self.entry.de.now self.exit.0.now }
    {
        let SeqAccess {
            de,
            remaining: _,
            outer,
        } = self;
        de.decoder.levels = outer;
        de.decoder.error(refused)
    }
}
