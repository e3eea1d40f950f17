//! Tags (RFC 7049, section 2.4).

ghost use Rattle.std.specs.Prelude.{◌≡◌, ◌≢◌, ◌+◌, ◌^◌, ◌<◌, IfOk, IfErr, IfSome};
ghost use Rattle.cbor_io.specs.Error.{code_of};
ghost use Rattle.cbor_io.specs.declared.error.ErrorCode.TheVariants.{OutOfMemory};
ghost use Rattle.cbor_decode.specs.Gives.{ReportsNoForm};
ghost use Rattle.cbor_decode_as.specs.Tags.{ReadsTag, LevelsBehind, TagIs};
ghost use Rattle.cbor_decode_as.specs.Takes.{formats_of};

use crate::de::Deserializer;
use cbor_decode_as::tags;
use cbor_io::error::Result;
use cbor_read::Source;

impl<R: Source> Deserializer<R> {
    /// Takes a tag's head and goes one level in, to the item that the tag is of; None, which takes
    /// nothing, where the next byte isn't one of c0 to db or the input is at its end. After that
    /// item [`leave_tag`](Deserializer::leave_tag) goes back out.
    ///
    /// It is refused with `EofWhileParsingValue` where the input ends in the head, with
    /// `RecursionLimitExceeded`, after the head, where no level is left, and as the source is. No
    /// level is entered then.
    ///
    /// ```rust
    /// let mut de = Deserializer::from_slice(alloc, b"\xc1\x1a\x51\x4b\x67\xb0\x05");
    /// assert_eq!(rt; de.read_tag()?, Some(1));
    /// assert_eq!(rt; u64::deserialize(&mut de)?, 1363896240);
    /// de.leave_tag();
    /// assert_eq!(rt; de.read_tag()?, None);
    /// assert_eq!(rt; u8::deserialize(&mut de)?, 5);
    /// ```
    #[inline(always)]
    pub fn read_tag(&mut self) -> Result<Option<u64>>
        ensures read { ReadsTag R.refusals self.old.decoder.levels
            (R.source self.old.decoder.source) (R.source self.new.decoder.source) result }
        ensures item { IfOk result (λ o. IfSome o (λ n.
            TagIs (formats_of self.old.decoder.formats) self.old.decoder.levels n
            (R.source self.old.decoder.source) (R.source self.new.decoder.source))) }
        ensures no_form { IfErr result (λ e. ReportsNoForm (code_of e)) }
        ensures memory { IfErr result (λ e. code_of e ≢ OutOfMemory) }
        ensures levels { LevelsBehind result self.old.decoder.levels self.new.decoder.levels }
        ensures formats { self.new.decoder.formats ≡ self.old.decoder.formats }
    {
        tags::read_tag(&mut self.decoder)
    }

    /// Goes out of the tag that [`read_tag`](Deserializer::read_tag) went in to. That its level
    /// stands is the caller's condition.
    pub fn leave_tag(&mut self)
        requires { self.old.decoder.levels + 1 < 2 ^ 64 }
        ensures levels { self.new.decoder.levels ≡ self.old.decoder.levels + 1 }
        ensures source { self.new.decoder.source ≡ self.old.decoder.source }
        ensures formats { self.new.decoder.formats ≡ self.old.decoder.formats }
    {
        self.decoder.levels += 1;
    }
}
