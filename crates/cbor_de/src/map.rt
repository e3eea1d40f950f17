//! Maps, one pair after the other (RFC 7049, section 2.1, major type 5).

ghost use Rattle.std.specs.Prelude.{◌≡◌, ◌≢◌, ◌<◌, true, false, IfOk, IfErr};
ghost use Rattle.std.specs.Option.{is_some};
ghost use Rattle.std.specs.Borrow.{sem, RestsIfErr};
ghost use Rattle.cbor_decode.specs.declared.cursor.Remaining.TheVariants.{Counted};
ghost use Rattle.cbor_io.specs.Error.{code_of};
ghost use Rattle.cbor_io.specs.declared.error.ErrorCode.TheVariants.{OutOfMemory};
ghost use Rattle.cbor_decode.specs.Gives.{ReportsNoForm};
ghost use Rattle.cbor_read.specs.Source.{asks_for};
ghost use Rattle.cbor_io.specs.declared.error.Error.{Error};
ghost use Rattle.cbor_decode.specs.declared.head.Head.TheVariants as kind;
ghost use Rattle.cbor_decode_as.specs.Accesses.{size_of};
ghost use Rattle.cbor_decode_as.specs.Cases.{ReportsBadKey};
ghost use Rattle.cbor_decode_as.specs.Collections.{TakesEndOf};
ghost use Rattle.cbor_decode_as.specs.Takes.{context, formats_of};
ghost use Rattle.cbor_de.specs.Forms.{MayReportKey};
ghost use Rattle.cbor_de.specs.contracts.de.Deserializer.{the_row};
ghost use Rattle.cbor_de.specs.Access as access;
ghost use Rattle.cbor_de.specs.Calls as call;
ghost use Rattle.cbor_decode.specs.declared.cursor.Collection.TheVariants as of;

use crate::de::Deserializer;
use crate::deserialize::Deserialize;
use cbor_decode::{Collection, Remaining};
use cbor_decode_as::collection::{self, more_pairs};
use cbor_io::error::{Error, Result};
use cbor_read::{Read, Source};

impl<R: Source> Deserializer<R> {
    /// Takes the tags and the head of a map, and goes one level in for its pairs.
    ///
    /// An item of another kind is refused with `invalid type: expected a map`, and a map for which
    /// no level is left with `RecursionLimitExceeded`. What follows the head isn't looked at: it is
    /// for the calls of the access to refuse.
    ///
    /// ```rust
    /// let mut de = Deserializer::from_slice(alloc, b"\xa1\x61a\x01");
    /// let mut pairs = de.map()?;
    /// assert_eq!(rt; pairs.next_key::<&str>()?, Some("a"));
    /// assert_eq!(rt; pairs.next_value::<u8>()?, 1);
    /// assert_eq!(rt; pairs.next_key::<&str>()?, None);
    /// pairs.end()?;
    /// ```
    pub fn map<'a>(&'a mut self) -> Result<MapAccess<'a, R>>
        ensures* rests { sem 𝓛 (RestsIfErr (the_row R.row) self.entry (λ m. m.de.ghost_name) result
            (λ last. access.Rests R.source self.old.decoder.levels self.old last)) }
        ensures same_reference { IfOk result (λ m. m.de.ghost_name ≡ self.entry.ghost_name) }
        ensures head { IfOk result (λ m. access.Opens R.source of.Map self.old m.de.now m.remaining) }
        ensures refused { IfErr result (access.RefusesOpening R.source of.Map R.refusals self.old) }
        // The head alone, whatever follows it.
        ensures opened { IfOk result
            (λ m. access.Begins R.source kind.Map self.old m.de.now m.remaining) }
        ensures unopened { IfErr result
            (access.RefusesBeginning R.source R.refusals kind.Map self.old) }
        ensures fault { IfErr result
            (access.BeginningFault R.source R.refusals kind.Map self.old) }
        ensures no_form { IfErr result (λ e. ReportsNoForm (code_of e)) }
        ensures memory { IfErr result (access.MemoryForOther R.source kind.Map self.old) }
        ensures taken { IfOk result (λ m. call.Advances R.source self.old m.de.now) }
        ensures settings { IfOk result
            (λ m. call.Within self.old.decoder.levels m.outer self.old m.de.now) }
        ensures due { IfOk result (λ m. m.value_due ≡ false) }
    {
        let outer = self.decoder.levels;
        let remaining = collection::head(&mut self.decoder, Collection::Map)?;
        Ok(MapAccess {
            de: self,
            remaining,
            outer,
            value_due: false,
        })
    }
}

/// The pairs of a map that are still to be read, each a key and its value.
///
/// It holds the level that the map took. [`end`](MapAccess::end), [`refuse`](MapAccess::refuse) and
/// each call that returns Err leave that level. After an Err no call follows.
///
/// ```rust
/// let mut de = Deserializer::new(alloc, SliceRead::new(alloc, b"\xa1\x01\xf5"));
/// let mut pairs = de.map()?;
/// assert_eq!(rt; pairs.size_hint(), Some(1));
/// assert_eq!(rt; pairs.next_key::<u8>()?, Some(1));
/// assert!(rt; pairs.next_value::<bool>()?);
/// assert_eq!(rt; pairs.next_key::<u8>()?, None);
/// pairs.end()?;
/// ```
#[derive(Drop)]
pub struct MapAccess<'a, R> {
    // What reads the keys and the values.
    pub(crate) de: &'a mut Deserializer<R>,
    // What remains of the map, after the pair that was begun.
    pub(crate) remaining: Remaining,
    // How many levels were left before the map.
    pub(crate) outer: u64,
    // Whether a key was read whose value wasn't.
    pub(crate) value_due: bool,
}

impl<'a, R: Source> MapAccess<'a, R> {
    /// Reads the next key; None where the map's last pair was read.
    ///
    /// It refuses as the reading of `K` does, with `WrongStructFormat` before a key of a format
    /// that isn't read, and with `EofWhileParsingMap` where a map of indefinite length has no end.
    #[inline(always)]
    #[tactic(auto, using(crate::proofs::refusals::Forms::plain))]
    pub fn next_key<'de, K: Deserialize<'de, R>>(&mut self) -> Result<Option<K>>
    where
        R: Read<'de>,
        // The access is live: no call on it has answered Err.
        requires live { self.old.de.now.decoder.levels < self.old.outer }
        requires due { self.old.value_due ≡ false }
        ensures same_reference { self.new.de.ghost_name ≡ self.old.de.ghost_name }
        ensures read { access.TakesKey R.source R.refusals
            (K.reads (context self.old.de.now.decoder.formats R.lends)) self.old.remaining
            self.new.remaining self.old.de.now self.new.de.now result }
        // Memory is asked for by the reading of `K` alone.
        ensures memory { IfErr result (access.MemoryForKey R.source
            (K.asks_memory (asks_for R.refusals R.lends))
            (K.reads (context self.old.de.now.decoder.formats R.lends)) self.old.remaining
            self.old.de.now) }
        ensures fault { IfErr result (access.KeyFault R.source R.refusals K.passes_over K.total
            self.old.remaining self.old.de.now) }
        ensures own_fault { IfErr result (access.OwnKeyFault R.source R.refusals
            (call.reports_any K.passes_over K.total K.reports_faults) self.old.remaining
            self.old.de.now) }
        // Nothing remains after the last pair, and a loop over the pairs ends.
        ensures remains { IfOk result
            (access.Ends R.source self.old.remaining self.new.remaining self.old.de.now
            self.new.de.now) }
        // The key alone that may not begin as it does is reported so, at its first byte.
        ensures form { IfErr result (MayReportKey K.wrong_forms
            (formats_of self.old.de.now.decoder.formats) self.old.remaining
            (R.source self.old.de.now.decoder.source)) }
        // Of a key that may begin as it does, it is the reading of `K` that refuses.
        ensures bad_key { IfErr result (ReportsBadKey R.refusals
            (formats_of self.old.de.now.decoder.formats) self.old.remaining
            (R.source self.old.de.now.decoder.source)) }
        ensures due { IfOk result (λ next. self.new.value_due ≡ is_some next) }
        ensures settings { call.StaysInside self.old.outer self.old.de.now self.new.de.now result }
        ensures outer { self.new.outer ≡ self.old.outer }
    {
        match more_pairs(&mut self.de.decoder, &mut self.remaining) {
            Ok(true) => {}
            Ok(false) => return Ok(None),
            Err(refused) => {
                self.de.decoder.levels = self.outer;
                return Err(self.de.decoder.error(refused));
            }
        }
        match K::deserialize(self.de) {
            Ok(key) => {
                self.value_due = true;
                Ok(Some(key))
            }
            Err(e) => {
                self.de.decoder.levels = self.outer;
                Err(e)
            }
        }
    }

    /// Reads the value of the key that was read last. It refuses as the reading of `V` does.
    #[inline(always)]
    pub fn next_value<'de, V: Deserialize<'de, R>>(&mut self) -> Result<V>
    where
        R: Read<'de>,
        requires live { self.old.de.now.decoder.levels < self.old.outer }
        requires due { self.old.value_due ≡ true }
        ensures same_reference { self.new.de.ghost_name ≡ self.old.de.ghost_name }
        ensures read { call.TakesItem R.source R.refusals
            (V.reads (context self.old.de.now.decoder.formats R.lends))
            self.old.de.now self.new.de.now result }
        ensures memory { IfErr result
            (call.MemoryFor R.source (V.asks_memory (asks_for R.refusals R.lends))
            (V.reads (context self.old.de.now.decoder.formats R.lends)) self.old.de.now) }
        ensures fault { IfErr result (call.ReportsItem R.source R.refusals V.passes_over V.total
            self.old.de.now) }
        ensures own_fault { IfErr result (call.OwnFault R.source R.refusals
            (call.reports_any V.passes_over V.total V.reports_faults) self.old.de.now) }
        ensures form { IfErr result (call.MayReport R.source V.wrong_forms self.old.de.now) }
        ensures due { IfOk result (λ v. self.new.value_due ≡ false) }
        ensures settings { call.StaysInside self.old.outer self.old.de.now self.new.de.now result }
        ensures outer { self.new.outer ≡ self.old.outer }
        ensures remaining { self.new.remaining ≡ self.old.remaining }
        // A loop over the pairs ends.
        ensures remains { IfOk result
            (λ v. access.NoMore R.source self.old.remaining self.new.remaining self.old.de.now
            self.new.de.now) }
    {
        match V::deserialize(self.de) {
            Ok(value) => {
                self.value_due = false;
                Ok(value)
            }
            Err(e) => {
                self.de.decoder.levels = self.outer;
                Err(e)
            }
        }
    }

    /// How many pairs of a declared count are still to be read, without one whose key was read;
    /// None where no count was declared, or where it doesn't fit a `usize`.
    pub fn size_hint(&self) -> Option<usize>
        ensures { result ≡ size_of self.now.remaining }
    {
        match self.remaining {
            Remaining::Counted(n) => usize::try_from(n).ok(),
            Remaining::ToBreak => None,
        }
    }

    /// Takes the end of the map.
    ///
    /// Pairs that weren't read are refused with `TrailingData`: at the present offset where a count
    /// was declared; else after the first byte of the next key, or with `EofWhileParsingMap` where
    /// there is none.
    pub fn end(self) -> Result<()>
        requires live { self.de.now.decoder.levels < self.outer }
        requires due { self.value_due ≡ false }
        ensures read { TakesEndOf of.Map R.refusals self.entry.remaining
            (R.source self.entry.de.now.decoder.source) (R.source self.exit.0.now.decoder.source)
            result }
        ensures no_form { IfErr result (λ e. ReportsNoForm (code_of e)) }
        ensures memory { IfErr result (λ e. code_of e ≢ OutOfMemory) }
        ensures settings { call.BackTo self.entry.outer self.entry.de.now self.exit.0.now }
    {
        let MapAccess {
            de,
            remaining,
            outer,
            value_due: _,
        } = self;
        de.decoder.levels = outer;
        collection::end(&mut de.decoder, remaining, Collection::Map)
    }

    /// Leaves the map for this error, which it passes on.
    pub fn refuse(self, e: Error) -> Error
        requires { self.de.now.decoder.levels < self.outer }
        ensures error { result ≡ e }
        ensures source { self.exit.0.now.decoder.source ≡ self.entry.de.now.decoder.source }
        ensures settings { call.BackTo self.entry.outer self.entry.de.now self.exit.0.now }
    {
        let MapAccess {
            de,
            remaining: _,
            outer,
            value_due: _,
        } = self;
        de.decoder.levels = outer;
        e
    }
}
