//! Passing over strings.

ghost use Rattle.std.specs.Prelude.{◌≡◌, ◌-◌, ◌≤◌, length, IfErr, IfOk};
ghost use Rattle.std.specs.Str.Lossy.{utf8_valid_len};
ghost use Rattle.cbor_model.specs.Formats.{all_formats};
ghost use Rattle.cbor_model.specs.Head.{no_bytes};
ghost use Rattle.cbor_model.specs.Reader.{bytes_at, string_at, string_chunks_at};
ghost use Rattle.cbor_model.specs.Reader.{text_at, text_chunks_at};
ghost use Rattle.cbor_decode.specs.Decoder.{SameSettings};
ghost use Rattle.cbor_decode.specs.Gives.{ReportsNoKey, ReportsNoMemory, values};
ghost use Rattle.cbor_decode.specs.HasChunks.{AsksForWhole};
ghost use Rattle.cbor_decode.specs.Memory.{AsksToJoin, MemoryOnly};
ghost use Rattle.cbor_decode.specs.Heads.{passed};
ghost use Rattle.cbor_decode.specs.Strings.{bad_of, checked_by};
ghost use Rattle.cbor_decode.specs.Steps as step;

use crate::Decoder;
use crate::refusal::Done;
use cbor_io::head::Major;
use cbor_io::utf8::from_utf8;
use cbor_read::{ReadErrorCode, Source};

// How many of these bytes stand from the first on that isn't UTF-8.
#[inline(always)]
#[tactic(auto, using(crate::proofs::SkippedStrings::all_valid))]
fn bad_in(bytes: &[u8]) -> usize
    ensures { result ≡ length bytes.now - utf8_valid_len bytes.now }
{
    match from_utf8(bytes) {
        Ok(_) => 0,
        Err(e) => bytes.len() - e.valid_up_to(),
    }
}

impl<R: Source> Decoder<R> {
    /// Passes over n bytes.
    #[tactic(auto, using(crate::proofs::Asked::whole_asked))]
    pub fn skip_bytes(&mut self, n: u64) -> Done<()>
        ensures read { step.Gives R.source R.refusals (λ u. u)
            (λ l bs. passed (string_at (values all_formats l) no_bytes n bs))
            self.old self.new result }
        ensures memory { IfErr result (MemoryOnly (AsksForWhole R.refusals R.lends)
            self.new.refusal) }
        ensures no_key { IfErr result (ReportsNoKey self.new.refusal) }
        ensures settings { SameSettings self.old self.new }
    {
        match self.source.skip(n as usize) {
            Ok(()) => Ok(()),
            Err(refusal) => Err(self.keep(refusal)),
        }
    }

    /// Passes over a text of n bytes.
    #[tactic(auto, using(crate::proofs::Memory::none_asked, crate::proofs::Asked::none_asked_all))]
    pub fn skip_text(&mut self, n: u64) -> Done<()>
        ensures read { step.Gives R.source R.refusals (λ u. u)
            (λ l bs. passed (text_at (values all_formats l) no_bytes n bs))
            self.old self.new result }
        ensures memory { IfErr result (MemoryOnly (AsksForWhole R.refusals R.lends)
            self.new.refusal) }
        ensures no_key { IfErr result (ReportsNoKey self.new.refusal) }
        ensures settings { SameSettings self.old self.new }
    {
        if !self.has_room(n) {
            return Err(self.refuse(ReadErrorCode::LengthOutOfRange));
        }
        let bad = self.bad_of_next(n)?;
        self.skip_checked(bad)
    }

    /// Passes over a byte string in chunks.
    pub fn skip_byte_chunks(&mut self) -> Done<()>
        ensures read { step.Gives R.source R.refusals (λ u. u)
            (λ l bs. passed (string_chunks_at (values all_formats l) bs)) self.old self.new result }
        ensures memory { IfErr result (MemoryOnly (AsksToJoin R.refusals R.lends)
            self.new.refusal) }
        ensures no_key { IfErr result (ReportsNoKey self.new.refusal) }
        ensures settings { SameSettings self.old self.new }
    {
        self.join(Major::ByteString)
    }

    /// Passes over a text in chunks.
    #[tactic(auto, using(crate::proofs::Memory::none_asked, crate::proofs::Asked::none_asked_all))]
    pub fn skip_text_chunks(&mut self) -> Done<()>
        ensures read { step.Gives R.source R.refusals (λ u. u)
            (λ l bs. passed (text_chunks_at (values all_formats l) bs)) self.old self.new result }
        ensures memory { IfErr result (MemoryOnly (AsksToJoin R.refusals R.lends)
            self.new.refusal) }
        ensures no_key { IfErr result (ReportsNoKey self.new.refusal) }
        ensures settings { SameSettings self.old self.new }
    {
        self.join(Major::TextString)?;
        let bad = bad_in(self.source.buffer());
        self.skip_checked(bad)
    }

    // Takes n bytes, and returns how many of them stand from the first on that isn't UTF-8.
    #[tactic(auto, using(crate::proofs::SkippedStrings::valid_within, crate::proofs::SkippedStrings::bad_within, crate::proofs::Asked::whole_asked))]
    fn bad_of_next(&mut self, n: u64) -> Done<usize>
        ensures read { step.Gives R.source R.refusals (λ bad. bad) (λ l bs. bad_of (bytes_at n bs))
            self.old self.new result }
        ensures counted { IfOk result (λ bad. bad ≤ (R.source self.new.source).offset) }
        ensures memory { IfErr result (MemoryOnly (AsksForWhole R.refusals R.lends)
            self.new.refusal) }
        ensures no_key { IfErr result (ReportsNoKey self.new.refusal) }
        ensures settings { SameSettings self.old self.new }
    {
        match self.source.skip_text(n as usize) {
            Ok(valid) => Ok(n as usize - valid),
            Err(refusal) => Err(self.keep(refusal)),
        }
    }

    // Passes over a text that was taken just now, of which so many bytes stand from the first on
    // that isn't UTF-8.
    fn skip_checked(&mut self, bad: usize) -> Done<()>
        requires taken { bad ≤ (R.source self.old.source).offset }
        ensures read { step.Gives R.source R.refusals (λ u. u) (λ l. checked_by bad)
            self.old self.new result }
        ensures memory { IfErr result (ReportsNoMemory self.new.refusal) }
        ensures no_key { IfErr result (ReportsNoKey self.new.refusal) }
        ensures settings { SameSettings self.old self.new }
    {
        if bad == 0 {
            return Ok(());
        }
        Err(self.refuse_back(ReadErrorCode::InvalidUtf8, bad))
    }
}
