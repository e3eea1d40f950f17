//! The smallest steps: a byte, a level, the end of the input.

ghost use Rattle.std.specs.Prelude.{◌≡◌, ◌+◌, ◌^◌, ◌<◌, nat_lt};
ghost use Rattle.std.specs.Prelude.{OnOk, OnErr, IfErr};
ghost use Rattle.cbor_io.specs.declared.read_error.ReadErrorCode.TheVariants.{RecursionLimitExceeded};
ghost use Rattle.cbor_model.specs.Acceptable.{max_depth};
ghost use Rattle.cbor_model.specs.Formats.{all_formats};
ghost use Rattle.cbor_model.specs.Reader.{byte_at};
ghost use Rattle.cbor_decode.specs.AtEnd.{EndStops};
ghost use Rattle.cbor_decode.specs.Decoder.{source_of, levels_of, formats_of, SameSettings};
ghost use Rattle.cbor_decode.specs.Gives.{IsAt, ReportsNoKey, end_at};
ghost use Rattle.cbor_decode.specs.Gives.{ReportsNoMemory};
ghost use Rattle.cbor_decode.specs.declared.refusal.Refused.TheVariants.{Kept};
ghost use Rattle.cbor_decode.specs.Steps as step;

use crate::Decoder;
use crate::formats::Formats;
use crate::refusal::Done;
use cbor_read::{ReadError, ReadErrorCode, Source};
use std::alloc::Global;

/// How many arrays, maps and tags may stand inside one another.
const MAX_DEPTH: u64 = 127;

impl<R: Source> Decoder<R> {
    /// Reads from this source, in all formats.
    pub fn new(alloc: Global, source: R) -> Decoder<R>
        ensures source { source_of result ≡ source }
        ensures levels { levels_of result ≡ max_depth }
        ensures formats { formats_of result.formats ≡ all_formats }
    {
        Decoder {
            alloc,
            source,
            levels: MAX_DEPTH,
            formats: Formats::ALL,
            refusal: ReadError::eof(0),
        }
    }

    /// Whether a text of n bytes would end below 2^64.
    pub fn has_room(&self, n: u64) -> bool
        ensures { result ≡ nat_lt ((R.source self.now.source).offset + n) (2 ^ 64) }
    {
        self.source.offset().checked_add(n).is_some()
    }

    /// Takes one byte.
    #[inline(always)]
    pub fn byte(&mut self) -> Done<u8>
        ensures read { step.Gives R.source R.refusals (λ b. b) (λ l. byte_at)
            self.old self.new result }
        ensures taken { OnOk result (step.Advances R.source self.old self.new) }
        ensures buffer { OnOk result (step.KeepsBuffer R.source self.old self.new) }
        ensures no_key { IfErr result (ReportsNoKey self.new.refusal) }
        ensures memory { IfErr result (ReportsNoMemory self.new.refusal) }
        ensures settings { SameSettings self.old self.new }
    {
        match self.source.ahead().first().copied() {
            Some(first) => {
                self.source.advance(1);
                Ok(first)
            }
            None => self.byte_slow(),
        }
    }

    // Takes one byte, of which none is buffered: the source is asked for it.
    #[inline(never)]
    fn byte_slow(&mut self) -> Done<u8>
        ensures read { step.Gives R.source R.refusals (λ b. b) (λ l. byte_at)
            self.old self.new result }
        ensures taken { OnOk result (step.Advances R.source self.old self.new) }
        ensures buffer { OnOk result (step.KeepsBuffer R.source self.old self.new) }
        ensures no_key { IfErr result (ReportsNoKey self.new.refusal) }
        ensures memory { IfErr result (ReportsNoMemory self.new.refusal) }
        ensures settings { SameSettings self.old self.new }
    {
        match self.source.next() {
            Ok(Some(b)) => Ok(b),
            Ok(None) => Err(self.refuse(ReadErrorCode::EofWhileParsingValue)),
            Err(refusal) => Err(self.keep(refusal)),
        }
    }

    /// Goes one level in, where one is left.
    pub fn enter(&mut self) -> Done<()>
        ensures inside { OnOk result (self.old.levels ≡ self.new.levels + 1) }
        ensures below { OnOk result (self.new.levels + 1 < 2 ^ 64) }
        ensures none { OnErr result ((self.old.levels ≡ 0) × (self.new.levels ≡ 0)) }
        ensures refused { IfErr result (λ r. r ≡ Kept) }
        ensures kept { OnErr result
            (IsAt RecursionLimitExceeded (R.source self.old.source).offset self.new.refusal) }
        ensures no_key { IfErr result (ReportsNoKey self.new.refusal) }
        ensures memory { IfErr result (ReportsNoMemory self.new.refusal) }
        ensures source { self.new.source ≡ self.old.source }
        ensures formats { self.new.formats ≡ self.old.formats }
    {
        if self.levels == 0 {
            return Err(self.refuse(ReadErrorCode::RecursionLimitExceeded));
        }
        self.levels -= 1;
        Ok(())
    }

    /// Takes the end of the input.
    #[tactic(auto, using(crate::proofs::SourceCalls::trailing_stops))]
    pub fn ended(&mut self) -> Done<()>
        ensures read { step.Gives R.source R.refusals (λ u. u) (λ l. end_at)
            self.old self.new result }
        ensures takes { EndStops R.refusals (R.source self.old.source) (R.source self.new.source)
            self.new.refusal result }
        ensures settings { SameSettings self.old self.new }
    {
        match self.source.next() {
            Ok(Some(_)) => Err(self.refuse(ReadErrorCode::TrailingData)),
            Ok(None) => Ok(()),
            Err(refusal) => Err(self.keep(refusal)),
        }
    }
}
