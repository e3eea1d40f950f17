//! Byte strings and texts.

ghost use Rattle.std.specs.Prelude.{◌+◌, ◌≤◌, length, IfOk, IfErr, OnOk};
ghost use Rattle.cbor_model.specs.Formats.{all_formats};
ghost use Rattle.cbor_model.specs.Head.{no_bytes};
ghost use Rattle.cbor_model.specs.Reader.{bytes_at, chunk_at, chunks_at};
ghost use Rattle.cbor_model.specs.Reader.{checked_text, text_at, text_chunks_at, exceeds_most};
ghost use Rattle.cbor_model.specs.Plain as plain;
ghost use Rattle.cbor_io.specs.Head.{major_number};
ghost use Rattle.cbor_decode.specs.Decoder.{SameSettings};
ghost use Rattle.cbor_decode.specs.Gives.{ReportsNoKey, values};
ghost use Rattle.cbor_decode.specs.Memory.{AsksToJoin, MemoryOnly};
ghost use Rattle.cbor_decode.specs.Heads.{joined_of};
ghost use Rattle.cbor_decode.specs.Strings.{ChunkGives, text_view};
ghost use Rattle.cbor_decode.specs.Steps as step;

use crate::Decoder;
use crate::cursor::BREAK;
use crate::refusal::Done;
use cbor_io::head::Major;
use cbor_io::utf8::string_from_utf8;
use cbor_read::{ReadErrorCode, Source};

impl<R: Source> Decoder<R> {
    /// Takes n bytes.
    #[inline(always)]
    pub fn bytes(&mut self, n: u64) -> Done<Vec<u8>>
        ensures read { step.Gives R.source R.refusals (λ v. v.items) (λ l. bytes_at n)
            self.old self.new result }
        ensures counted { IfOk result
            (λ v. length v.items ≤ (R.source self.new.source).offset) }
        ensures no_key { IfErr result (ReportsNoKey self.new.refusal) }
        ensures settings { SameSettings self.old self.new }
    {
        let ahead = self.source.ahead();
        if n <= ahead.len() as u64 {
            let bytes = Vec::from_slice(self.alloc, &ahead[..n as usize])?;
            self.source.advance(n as usize);
            return Ok(bytes);
        }
        self.bytes_slow(n)
    }

    // Takes n bytes of which too few are buffered: the source is asked for them.
    #[inline(never)]
    fn bytes_slow(&mut self, n: u64) -> Done<Vec<u8>>
        ensures read { step.Gives R.source R.refusals (λ v. v.items) (λ l. bytes_at n)
            self.old self.new result }
        ensures counted { IfOk result
            (λ v. length v.items ≤ (R.source self.new.source).offset) }
        ensures no_key { IfErr result (ReportsNoKey self.new.refusal) }
        ensures settings { SameSettings self.old self.new }
    {
        let mut bytes = Vec::new(self.alloc);
        match self.source.read_to_vec(n as usize, &mut bytes) {
            Ok(()) => Ok(bytes),
            Err(refusal) => Err(self.keep(refusal)),
        }
    }

    /// Reads a text of n bytes.
    #[inline(always)]
    pub fn text(&mut self, n: u64) -> Done<String>
        ensures read { step.Gives R.source R.refusals text_view
            (λ l. text_at (values all_formats l) no_bytes n) self.old self.new result }
        ensures settings { SameSettings self.old self.new }
    {
        if !self.has_room(n) {
            return Err(self.refuse(ReadErrorCode::LengthOutOfRange));
        }
        let bytes = self.bytes(n)?;
        self.checked(bytes)
    }

    /// Reads a byte string in chunks.
    #[inline(always)]
    pub fn byte_chunks(&mut self) -> Done<Vec<u8>>
        ensures read { step.Gives R.source R.refusals (λ v. v.items)
            (λ l bs. joined_of (chunks_at (exceeds_most l.room) 0 2 bs)) self.old self.new result }
        ensures settings { SameSettings self.old self.new }
    {
        self.chunks(Major::ByteString)
    }

    /// Reads a text in chunks.
    #[inline(always)]
    pub fn text_chunks(&mut self) -> Done<String>
        ensures read { step.Gives R.source R.refusals text_view
            (λ l. text_chunks_at (values all_formats l)) self.old self.new result }
        ensures settings { SameSettings self.old self.new }
    {
        let bytes = self.chunks(Major::TextString)?;
        self.checked(bytes)
    }

    // The text of these bytes, which were taken just now, if they are UTF-8.
    #[inline(always)]
    #[tactic(auto, unfolding(cbor_model::specs::Reader::checked_text))]
    fn checked(&mut self, bytes: Vec<u8>) -> Done<String>
        requires taken { length bytes.items ≤ (R.source self.old.source).offset }
        ensures read { step.Gives R.source R.refusals text_view
            (λ l. checked_text (values all_formats l) (plain.text bytes.items) bytes.items)
            self.old self.new result }
        ensures settings { SameSettings self.old self.new }
    {
        let len = bytes.len();
        match string_from_utf8(bytes) {
            Ok(text) => Ok(text),
            Err(e) => {
                let valid = e.utf8_error().valid_up_to();
                Err(self.refuse_back(ReadErrorCode::InvalidUtf8, len - valid))
            }
        }
    }

    /// Takes chunks of the major type up to the break, and joins them.
    pub fn chunks(&mut self, major: Major) -> Done<Vec<u8>>
        ensures read { step.Gives R.source R.refusals (λ v. v.items)
            (λ l bs. joined_of (chunks_at (exceeds_most l.room) 0 (major_number major) bs))
            self.old self.new result }
        ensures counted { IfOk result
            (λ v. length v.items ≤ (R.source self.new.source).offset) }
        ensures no_key { IfErr result (ReportsNoKey self.new.refusal) }
        ensures settings { SameSettings self.old self.new }
    {
        self.join(major)?;
        let joined = Vec::from_slice(self.alloc, self.source.buffer())?;
        Ok(joined)
    }

    /// Takes chunks of the major type up to the break, and joins them in the source's buffer.
    #[inline(never)]
    #[tactic(auto, using(crate::proofs::Memory::none_asked))]
    pub fn join(&mut self, major: Major) -> Done<()>
        ensures read { step.Gives R.source R.refusals (λ u. (R.source self.new.source).buffer)
            (λ l bs. joined_of (chunks_at (exceeds_most l.room) 0 (major_number major) bs))
            self.old self.new result }
        ensures counted { OnOk result
            (length (R.source self.new.source).buffer ≤ (R.source self.new.source).offset) }
        ensures no_key { IfErr result (ReportsNoKey self.new.refusal) }
        ensures memory { IfErr result (MemoryOnly (AsksToJoin R.refusals R.lends)
            self.new.refusal) }
        ensures settings { SameSettings self.old self.new }
    {
        self.source.clear_buffer();
        'chunks: loop {
            let first = self.byte()?;
            if first == BREAK {
                return Ok(());
            }
            self.chunk(major, first)?;
        }
    }

    // Takes the chunk of this first byte, which has to be one of the major type, to the buffer's
    // end.
    #[tactic(auto, using(crate::proofs::Memory::none_asked, crate::proofs::Memory::kept_asked))]
    fn chunk(&mut self, major: Major, first: u8) -> Done<()>
        ensures read { ChunkGives R.refusals
            (λ l have. chunk_at (λ n. exceeds_most l.room (have + n)) (major_number major) first)
            (R.source self.old.source) (R.source self.new.source) self.new.refusal result }
        ensures no_key { IfErr result (ReportsNoKey self.new.refusal) }
        ensures memory { IfErr result (MemoryOnly (AsksToJoin R.refusals R.lends)
            self.new.refusal) }
        ensures settings { SameSettings self.old self.new }
    {
        let low = first % 32;
        if Major::of(first) != major || low >= 28 {
            return Err(self.refuse(ReadErrorCode::UnexpectedCode));
        }
        let n = self.argument(low)?;
        match self.source.read_to_buffer(n as usize) {
            Ok(()) => Ok(()),
            Err(refusal) => Err(self.keep(refusal)),
        }
    }
}
