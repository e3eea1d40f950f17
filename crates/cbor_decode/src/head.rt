//! Heads: what an item's first bytes say of it (RFC 7049, section 2).

ghost use Rattle.std.specs.Prelude.{◌≡◌, length, IfErr, OnErr, OnOk};
ghost use Rattle.std.specs.Int.{w8, w16, w32, w64};
ghost use Rattle.cbor_model.specs.Reader.{number_at, number_behind};
ghost use Rattle.cbor_model.specs.Major.{major_of};
ghost use Rattle.cbor_io.specs.Head.{major_number};
ghost use Rattle.cbor_decode.specs.Decoder.{SameSettings};
ghost use Rattle.cbor_decode.specs.Gives.{ReportsNoKey, ReportsNoMemory};
ghost use Rattle.cbor_decode.specs.Heads.{HeadGives, head_at, head_of};
ghost use Rattle.cbor_decode.specs.Heads.{simple_head};
ghost use Rattle.cbor_read.specs.Source.{TookKept, RefusedInto};
ghost use Rattle.cbor_decode.specs.declared.refusal.Refused.TheVariants.{Kept};
ghost use Rattle.cbor_decode.specs.Steps as step;

use crate::Decoder;
use crate::cursor::Remaining;
use crate::refusal::Done;
use cbor_io::head::Major;
use cbor_read::{ReadErrorCode, Source};
use cbor_value::Float;

// The lower five bits of the first byte of an indefinite length.
const INDEFINITE: u8 = 31;

/// What an item is, as its head says.
#[derive(Clone, Copy)]
pub enum Head {
    /// The whole number n.
    Unsigned(u64),
    /// The whole number -1 - n.
    Negative(u64),
    /// A byte string of this length, or one in chunks.
    Bytes(Option<u64>),
    /// A text of this length, or one in chunks.
    Text(Option<u64>),
    /// An array of so many items.
    Array(Remaining),
    /// A map of so many pairs.
    Map(Remaining),
    /// A tag of this number; its item follows.
    Tag(u64),
    /// False or true.
    Bool(bool),
    Null,
    Undefined,
    /// A float.
    Float(Float),
    /// The break, where an item is wanted.
    Break,
}

impl<R: Source> Decoder<R> {
    /// Takes the rest of a head after its first byte.
    #[inline(always)]
    pub fn head(&mut self, first: u8) -> Done<Head>
        ensures read { HeadGives R.refusals (head_at first)
            (R.source self.old.source) (R.source self.new.source) self.new.refusal result }
        ensures no_key { IfErr result (ReportsNoKey self.new.refusal) }
        ensures memory { IfErr result (ReportsNoMemory self.new.refusal) }
        ensures settings { SameSettings self.old self.new }
    {
        // A text of up to 23 bytes, which most keys are.
        if let 0x60..=0x77 = first {
            return Ok(Head::Text(Some((first - 0x60) as u64)));
        }
        let low = first % 32;
        let major = Major::of(first);
        if let Major::Simple = major {
            return self.simple(low);
        }
        if low == INDEFINITE {
            return self.indefinite(major);
        }
        let n = self.argument(low)?;
        Ok(match major {
            Major::UnsignedInteger => Head::Unsigned(n),
            Major::NegativeInteger => Head::Negative(n),
            Major::ByteString => Head::Bytes(Some(n)),
            Major::TextString => Head::Text(Some(n)),
            Major::Array => Head::Array(Remaining::Counted(n)),
            Major::Map => Head::Map(Remaining::Counted(n)),
            _ => Head::Tag(n),
        })
    }

    // What follows a first byte of major type 7 (RFC 7049, section 2.3).
    #[inline(always)]
    fn simple(&mut self, low: u8) -> Done<Head>
        ensures read { HeadGives R.refusals (simple_head low)
            (R.source self.old.source) (R.source self.new.source) self.new.refusal result }
        ensures no_key { IfErr result (ReportsNoKey self.new.refusal) }
        ensures memory { IfErr result (ReportsNoMemory self.new.refusal) }
        ensures settings { SameSettings self.old self.new }
    {
        match low {
            20 => Ok(Head::Bool(false)),
            21 => Ok(Head::Bool(true)),
            22 => Ok(Head::Null),
            23 => Ok(Head::Undefined),
            25 => Ok(Head::Float(Float::Half(self.number_of_2()?))),
            26 => Ok(Head::Float(Float::Single(self.number_of_4()?))),
            27 => Ok(Head::Float(Float::Double(self.number_of_8()?))),
            31 => Ok(Head::Break),
            _ => Err(self.refuse(ReadErrorCode::UnassignedCode)),
        }
    }

    // What a first byte says whose lower five bits are 31.
    #[inline(always)]
    fn indefinite(&mut self, major: Major) -> Done<Head>
        ensures read { HeadGives R.refusals (head_of (major_of (major_number major)) 31)
            (R.source self.old.source) (R.source self.new.source) self.new.refusal result }
        ensures no_key { IfErr result (ReportsNoKey self.new.refusal) }
        ensures memory { IfErr result (ReportsNoMemory self.new.refusal) }
        ensures settings { SameSettings self.old self.new }
    {
        match major {
            Major::ByteString => Ok(Head::Bytes(None)),
            Major::TextString => Ok(Head::Text(None)),
            Major::Array => Ok(Head::Array(Remaining::ToBreak)),
            Major::Map => Ok(Head::Map(Remaining::ToBreak)),
            Major::Simple => Ok(Head::Break),
            _ => Err(self.refuse(ReadErrorCode::UnassignedCode)),
        }
    }

    /// Takes the argument after a first byte with these lower five bits.
    #[inline(always)]
    pub fn argument(&mut self, low: u8) -> Done<u64>
        ensures read { step.Gives R.source R.refusals (λ n. n) (λ l. number_behind low)
            self.old self.new result }
        ensures buffer { OnOk result (step.KeepsBuffer R.source self.old self.new) }
        ensures no_key { IfErr result (ReportsNoKey self.new.refusal) }
        ensures memory { IfErr result (ReportsNoMemory self.new.refusal) }
        ensures settings { SameSettings self.old self.new }
    {
        match low {
            0..=23 => Ok(low as u64),
            24 => Ok(self.number_of_1()? as u64),
            25 => Ok(self.number_of_2()? as u64),
            26 => Ok(self.number_of_4()? as u64),
            27 => self.number_of_8(),
            _ => Err(self.refuse(ReadErrorCode::UnassignedCode)),
        }
    }

    // Takes a number of one byte.
    #[inline(always)]
    pub fn number_of_1(&mut self) -> Done<u8>
        ensures read { step.Gives R.source R.refusals (λ n. n) (λ l. number_at w8)
            self.old self.new result }
        ensures buffer { OnOk result (step.KeepsBuffer R.source self.old self.new) }
        ensures no_key { IfErr result (ReportsNoKey self.new.refusal) }
        ensures memory { IfErr result (ReportsNoMemory self.new.refusal) }
        ensures settings { SameSettings self.old self.new }
    {
        let mut bytes = [0; 1];
        self.fill(&mut bytes)?;
        Ok(bytes[0])
    }

    // Takes a number of two bytes, the most significant first.
    #[inline(always)]
    pub fn number_of_2(&mut self) -> Done<u16>
        ensures read { step.Gives R.source R.refusals (λ n. n) (λ l. number_at w16)
            self.old self.new result }
        ensures buffer { OnOk result (step.KeepsBuffer R.source self.old self.new) }
        ensures no_key { IfErr result (ReportsNoKey self.new.refusal) }
        ensures memory { IfErr result (ReportsNoMemory self.new.refusal) }
        ensures settings { SameSettings self.old self.new }
    {
        let mut bytes = [0; 2];
        self.fill(&mut bytes)?;
        Ok(u16::from_be_bytes(bytes))
    }

    // Takes a number of four bytes, the most significant first.
    #[inline(always)]
    pub fn number_of_4(&mut self) -> Done<u32>
        ensures read { step.Gives R.source R.refusals (λ n. n) (λ l. number_at w32)
            self.old self.new result }
        ensures buffer { OnOk result (step.KeepsBuffer R.source self.old self.new) }
        ensures no_key { IfErr result (ReportsNoKey self.new.refusal) }
        ensures memory { IfErr result (ReportsNoMemory self.new.refusal) }
        ensures settings { SameSettings self.old self.new }
    {
        let mut bytes = [0; 4];
        self.fill(&mut bytes)?;
        Ok(u32::from_be_bytes(bytes))
    }

    // Takes a number of eight bytes, the most significant first.
    #[inline(always)]
    pub fn number_of_8(&mut self) -> Done<u64>
        ensures read { step.Gives R.source R.refusals (λ n. n) (λ l. number_at w64)
            self.old self.new result }
        ensures buffer { OnOk result (step.KeepsBuffer R.source self.old self.new) }
        ensures no_key { IfErr result (ReportsNoKey self.new.refusal) }
        ensures memory { IfErr result (ReportsNoMemory self.new.refusal) }
        ensures settings { SameSettings self.old self.new }
    {
        let mut bytes = [0; 8];
        self.fill(&mut bytes)?;
        Ok(u64::from_be_bytes(bytes))
    }

    // Takes as many bytes as there is room for.
    #[inline(always)]
    fn fill(&mut self, bytes: &mut [u8]) -> Done<()>
        ensures ok { OnOk result
            (TookKept (R.source self.old.source) (R.source self.new.source) bytes.new) }
        ensures refused { IfErr result (λ r. r ≡ Kept) }
        ensures kept { OnErr result (RefusedInto R.refusals
            (R.source self.old.source) (R.source self.new.source) (length bytes.old)
            self.new.refusal) }
        ensures no_key { IfErr result (ReportsNoKey self.new.refusal) }
        ensures memory { IfErr result (ReportsNoMemory self.new.refusal) }
        ensures settings { SameSettings self.old self.new }
    {
        let ahead = self.source.ahead();
        let n = bytes.len();
        if n <= ahead.len() {
            bytes.copy_from_slice(&ahead[..n]);
            self.source.advance(n);
            return Ok(());
        }
        self.fill_slow(bytes)
    }

    // Fills it where too few bytes are buffered: the source is asked for them.
    #[inline(never)]
    fn fill_slow(&mut self, bytes: &mut [u8]) -> Done<()>
        ensures ok { OnOk result
            (TookKept (R.source self.old.source) (R.source self.new.source) bytes.new) }
        ensures refused { IfErr result (λ r. r ≡ Kept) }
        ensures kept { OnErr result (RefusedInto R.refusals
            (R.source self.old.source) (R.source self.new.source) (length bytes.old)
            self.new.refusal) }
        ensures no_key { IfErr result (ReportsNoKey self.new.refusal) }
        ensures memory { IfErr result (ReportsNoMemory self.new.refusal) }
        ensures settings { SameSettings self.old self.new }
    {
        match self.source.read_into(bytes) {
            Ok(()) => Ok(()),
            Err(refusal) => Err(self.keep(refusal)),
        }
    }
}
