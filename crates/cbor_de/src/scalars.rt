//! Simple values, numbers and strings, which hold no other item, and the head of any item.

ghost use Rattle.std.specs.Prelude.{◌≡◌, IfErr, OnOk};
ghost use Rattle.std.specs.Io.BufRead.{Rests};
ghost use types.Logic.{sem};
ghost use Rattle.cbor_model.specs.Readable.{PassesTags, IsBool, IsInteger, IsUnit};
ghost use Rattle.cbor_io.specs.Error.{code_of};
ghost use Rattle.cbor_decode.specs.Decoder.{SameSettings};
ghost use Rattle.cbor_decode.specs.Gives.{ReportsNoForm};
ghost use Rattle.cbor_decode_as.specs.Scalars.{IsFloatItem};
ghost use Rattle.cbor_decode_as.specs.Strings.{IsMadeOf, IsNoKey, LendsBytes, LendsString};
ghost use Rattle.cbor_decode_as.specs.Strings.{LendsText};
ghost use Rattle.cbor_decode_as.specs.Takes.{context, formats_of};
ghost use Rattle.cbor_read.specs.Source.{asks_for};
ghost use Rattle.cbor_decode_as.specs.Strings.{AsksForBytes, AsksForString, AsksToLend};
ghost use Rattle.cbor_decode_as.specs.Strings.{LendsWhole, UnreadOnly};
ghost use Rattle.cbor_de.specs.contracts.de.Deserializer.{the_row as typed_row};
ghost use Rattle.cbor_de.specs.Calls as call;

use crate::de::Deserializer;
use cbor_decode::{Done, Head};
use cbor_decode_as::borrowed::{EitherStr, Unread};
use cbor_decode_as::{borrowed, head, integer, scalar};
use cbor_io::error::{Error, Result};
use cbor_read::{EitherLifetime, Read, Source};
use cbor_value::Float;

/// The result of a borrowing read.
type Lent<T> = std::result::Result<T, Unread>;

impl<R: Source> Deserializer<R> {
    /// Reads false or true (RFC 7049, section 2.3).
    ///
    /// What isn't whole is refused by its fault, and another item by a message.
    #[inline(always)]
    pub fn read_bool(&mut self) -> Result<bool>
        ensures read { call.TakesItem R.source R.refusals (PassesTags IsBool)
            self.old self.new result }
        ensures taken { OnOk result (call.Advances R.source self.old self.new) }
        ensures fault { IfErr result (call.RefusesWhole R.source R.refusals self.old) }
        ensures no_form { IfErr result (λ e. ReportsNoForm (code_of e)) }
        ensures memory { IfErr result (call.TakesNoMemory R.source (PassesTags IsBool) self.old) }
        ensures settings { SameSettings self.old.decoder self.new.decoder }
    {
        scalar::read_bool(&mut self.decoder)
    }

    /// Reads a float of 16, 32 or 64 bits (RFC 7049, section 2.3).
    ///
    /// What isn't whole is refused by its fault, and another item by a message.
    #[inline(always)]
    pub fn read_float(&mut self) -> Result<Float>
        ensures read { call.TakesItem R.source R.refusals (PassesTags IsFloatItem)
            self.old self.new result }
        ensures taken { OnOk result (call.Advances R.source self.old self.new) }
        ensures fault { call.ReadsWhole R.source R.refusals self.old result }
        ensures no_form { IfErr result (λ e. ReportsNoForm (code_of e)) }
        ensures memory { IfErr result
            (call.TakesNoMemory R.source (PassesTags IsFloatItem) self.old) }
        ensures settings { SameSettings self.old.decoder self.new.decoder }
    {
        scalar::read_float(&mut self.decoder)
    }

    /// Reads null or undefined (RFC 7049, section 2.3).
    ///
    /// What isn't whole is refused by its fault, and another item by a message.
    #[inline(always)]
    pub fn read_unit(&mut self) -> Result<()>
        ensures read { call.TakesItem R.source R.refusals (PassesTags IsUnit)
            self.old self.new result }
        ensures taken { OnOk result (call.Advances R.source self.old self.new) }
        ensures fault { IfErr result (call.RefusesWhole R.source R.refusals self.old) }
        ensures no_form { IfErr result (λ e. ReportsNoForm (code_of e)) }
        ensures memory { IfErr result (call.TakesNoMemory R.source (PassesTags IsUnit) self.old) }
        ensures settings { SameSettings self.old.decoder self.new.decoder }
    {
        scalar::read_unit(&mut self.decoder)
    }

    /// Reads a whole number. What isn't whole is refused by its fault, and another item by a
    /// message.
    ///
    /// ```rust
    /// let mut de = Deserializer::from_slice(alloc, b"\x39\x01\x2b");
    /// assert_eq!(rt; de.read_integer()?, -300);
    /// ```
    #[inline(always)]
    pub fn read_integer(&mut self) -> Result<i128>
        ensures read { call.TakesItem R.source R.refusals (PassesTags IsInteger)
            self.old self.new result }
        ensures taken { OnOk result (call.Advances R.source self.old self.new) }
        ensures fault { IfErr result (call.RefusesWhole R.source R.refusals self.old) }
        ensures no_form { IfErr result (λ e. ReportsNoForm (code_of e)) }
        ensures memory { IfErr result
            (call.TakesNoMemory R.source (PassesTags IsInteger) self.old) }
        ensures settings { SameSettings self.old.decoder self.new.decoder }
    {
        integer::read_integer(&mut self.decoder)
    }

    /// The error of a string that wasn't lent; the message is for an item of another kind.
    #[cold]
    #[inline(never)]
    pub fn unread(&mut self, why: Unread, message: &str) -> Error
        ensures made { IsMadeOf why result }
        ensures no_form { IsNoKey why → ReportsNoForm (code_of result) }
        ensures source { self.new.decoder.source ≡ self.old.decoder.source }
        ensures settings { SameSettings self.old.decoder self.new.decoder }
    {
        borrowed::unread_error(&mut self.decoder, why, message)
    }
}

impl<'de, R: Read<'de>> Deserializer<R> {
    /// Lends a text, or a byte string that is UTF-8. Another item is [`Unread::Other`], and was
    /// passed over; what isn't whole, of any kind, is refused by its fault.
    #[inline(always)]
    pub fn read_text<'a>(&'a mut self) -> Lent<EitherStr<'a, 'de>>
        ensures* after_borrow { sem 𝓛 (Rests (typed_row R.row) self.entry (λ new.
            (new.decoder.levels ≡ self.old.decoder.levels)
            × (new.decoder.formats ≡ self.old.decoder.formats)
            × LendsText R.refusals
            (context self.old.decoder.formats R.lends) self.old.decoder.levels
            (R.source self.old.decoder.source) (R.source new.decoder.source) result
            × IfErr result IsNoKey
            × IfErr result (UnreadOnly (AsksToLend AsksForString (asks_for R.refusals R.lends)
            (formats_of self.old.decoder.formats) self.old.decoder.levels
            (R.source self.old.decoder.source)))
            × LendsWhole R.refusals self.old.decoder.levels
            (R.source self.old.decoder.source) result
            × OnOk result (call.Advances R.source self.old new))) }
    {
        borrowed::read_text(&mut self.decoder)
    }

    /// Lends the bytes of a byte string, or of a text. It refuses as
    /// [`read_text`](Deserializer::read_text) does.
    #[inline(always)]
    pub fn read_bytes<'a>(&'a mut self) -> Lent<EitherLifetime<'a, 'de>>
        ensures* after_borrow { sem 𝓛 (Rests (typed_row R.row) self.entry (λ new.
            (new.decoder.levels ≡ self.old.decoder.levels)
            × (new.decoder.formats ≡ self.old.decoder.formats)
            × LendsString R.refusals
            (context self.old.decoder.formats R.lends) self.old.decoder.levels
            (R.source self.old.decoder.source) (R.source new.decoder.source) result
            × IfErr result IsNoKey
            × IfErr result (UnreadOnly (AsksToLend AsksForString (asks_for R.refusals R.lends)
            (formats_of self.old.decoder.formats) self.old.decoder.levels
            (R.source self.old.decoder.source)))
            × LendsWhole R.refusals self.old.decoder.levels
            (R.source self.old.decoder.source) result
            × OnOk result (call.Advances R.source self.old new))) }
    {
        borrowed::read_bytes(&mut self.decoder)
    }

    /// Lends the bytes of a byte string.
    #[inline(always)]
    pub(crate) fn read_byte_string<'a>(&'a mut self) -> Lent<EitherLifetime<'a, 'de>>
        ensures* after_borrow { sem 𝓛 (Rests (typed_row R.row) self.entry (λ new.
            (new.decoder.levels ≡ self.old.decoder.levels)
            × (new.decoder.formats ≡ self.old.decoder.formats)
            × LendsBytes R.refusals
            (context self.old.decoder.formats R.lends) self.old.decoder.levels
            (R.source self.old.decoder.source) (R.source new.decoder.source) result
            × IfErr result IsNoKey
            × IfErr result (UnreadOnly (AsksToLend AsksForBytes (asks_for R.refusals R.lends)
            (formats_of self.old.decoder.formats) self.old.decoder.levels
            (R.source self.old.decoder.source)))
            × LendsWhole R.refusals self.old.decoder.levels
            (R.source self.old.decoder.source) result
            × OnOk result (call.Advances R.source self.old new))) }
    {
        borrowed::read_byte_string(&mut self.decoder)
    }
}
