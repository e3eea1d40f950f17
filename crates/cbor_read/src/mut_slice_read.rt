//! A slice as a source, which is rewritten in place.

ghost use Rattle.std.specs.Prelude.{◌≡◌, ◌+◌, ◌-◌, ◌^◌, ◌++◌, ◌<◌, ◌≤◌, [], length, take, drop};
ghost use Rattle.std.specs.Prelude.{IfOk, IfErr, None};
ghost use Rattle.cbor_io.specs.ReadError.{why, place};
ghost use Rattle.cbor_io.specs.declared.read_error.ReadErrorCode.TheVariants as refusal;

use super::front::{append, valid_in};
use super::in_place::bring_down;
use super::{EitherLifetime, Read, ReadError, Result, Source};
use std::{fmt, mem};

/// The bytes of a slice that may be rewritten. All that is handed out is lent for the slice's whole
/// life, also parts that were joined: the first stays where it is, each further one is brought down
/// to those before it, and what lay between stands after it then, in some order. So no byte is
/// lost: up to the offset the slice keeps its bytes in another order, and those after the offset
/// stay. However many parts came before, no more than twice a part's bytes change their place.
///
/// `read_to_vec` takes memory, for the vector that it fills; no other call does.
///
/// Its calls return `EofWhileParsingValue` where too few bytes are to come, `read_to_vec` also
/// `OutOfMemory`, and nothing else.
///
/// ```rust
/// let mut bytes = *b"\x63foo\x63bar";
/// let mut source = MutSliceRead::new(&mut bytes);
/// source.clear_buffer();
/// source.next()?;
/// source.read_to_buffer(3)?;
/// source.next()?;
/// source.read_to_buffer(3)?;
/// assert!(rt; matches!(source.take_buffer(), EitherLifetime::Long(b"foobar")));
/// ```
#[derive(Drop)]
pub struct MutSliceRead<'a> {
    // what was not lent
    slice: &'a mut [u8],
    // how many bytes of the input come before the slice
    before: usize,
    // how many bytes of the slice were taken
    taken: usize,
    // where in the slice the joined bytes begin
    start: usize,
    // how many they are; after them, up to those that weren't taken, stands what was taken between
    // them, in some order
    joined: usize,
    ghost within: { taken ≤ length slice.now },
    ghost ordered: { start + joined ≤ taken },
    ghost fits: { before + length slice.now < 2 ^ 64 },
}

impl<'a> MutSliceRead<'a> {
    ghost use Rattle.cbor_read.specs.Source.{start_of_slice};
    ghost use Rattle.cbor_read.specs.Sources.{input_of_mut_slice};

    /// The bytes of this slice, none of them taken.
    pub fn new(slice: &'a mut [u8]) -> MutSliceRead<'a>
        ensures { input_of_mut_slice result ≡ start_of_slice slice.old None }
    {
        MutSliceRead {
            slice,
            before: 0,
            taken: 0,
            start: 0,
            joined: 0,
        }
    }

    // Where the next n bytes end in the slice.
    fn end_of(&self, n: usize) -> Result<usize>
        ensures ok { IfOk result
            (λ end. (end ≡ self.now.taken + n) × (end ≤ length self.now.slice.now)) }
        ensures err { IfErr result (λ e. (why e ≡ refusal.EofWhileParsingValue)
            × (place e ≡ self.now.before + length self.now.slice.now)
            × (length self.now.slice.now < self.now.taken + n)) }
    {
        if n <= self.slice.len() - self.taken {
            Ok(self.taken + n)
        } else {
            Err(ReadError::eof((self.before + self.slice.len()) as u64))
        }
    }

    // Where the joined bytes begin. Where there are none, the next part may stay where it is.
    fn joined_from(&self) -> usize
        ensures order { result + self.now.joined ≤ self.now.taken }
        ensures same { take self.now.joined (drop result self.now.slice.now)
            ≡ take self.now.joined (drop self.now.start self.now.slice.now) }
    {
        if self.joined == 0 {
            self.taken
        } else {
            self.start
        }
    }

    // The bytes up to `end` that were not taken.
    fn part(&self, end: usize) -> &[u8]
        requires low { self.now.taken ≤ end }
        requires high { end ≤ length self.now.slice.now }
        ensures { result.now
            ≡ take (end - self.now.taken) (drop self.now.taken self.now.slice.now) }
    {
        &self.slice[self.taken..end]
    }
}

// Cuts the first n bytes off, for the slice's whole life.
fn cut_front<'a>(bytes: &mut &'a mut [u8], n: usize) -> &'a [u8]
    requires { n ≤ length bytes.old.now }
    ensures bytes { result.now ≡ take n bytes.old.now }
    ensures rest { bytes.new.now ≡ drop n bytes.old.now }
{
    let (front, rest) = mem::replace(bytes, &mut []).split_at_mut(n);
    *bytes = rest;
    front
}

// Drops the bytes before `start`, and cuts the next n off.
fn cut_part<'a>(bytes: &mut &'a mut [u8], start: usize, n: usize) -> &'a [u8]
    requires { start + n ≤ length bytes.old.now }
    ensures bytes { result.now ≡ take n (drop start bytes.old.now) }
    ensures len { length result.now ≡ n }
    ensures whole { drop start bytes.old.now ≡ result.now ++ bytes.new.now }
    ensures rest { bytes.new.now ≡ drop (start + n) bytes.old.now }
{
    let _ = cut_front(bytes, start);
    cut_front(bytes, n)
}

impl<'a> Source for MutSliceRead<'a> {
    ghost use Rattle.std.specs.Prelude.{true, false, OnOk, OnErr};
    ghost use Rattle.std.specs.Prelude.{◌∷◌, ◌≢◌, IfSome, IsSome, MatchOption, Some};
    ghost use Rattle.cbor_read.specs.Source.{mut_refusals, or_memory, first_of, MemoryWhere};
    ghost use Rattle.cbor_read.specs.Source.{Buffered, FitsRoom, KeepsBytes, Lengthened, NextDoes};
    ghost use Rattle.cbor_read.specs.Source.{RefusedByte, RefusedInto, RefusedPart, RefusedToBuffer};
    ghost use Rattle.cbor_read.specs.Source.{Skipped, SkippedText, Stays, TookBehind, TookKept};
    ghost use Rattle.cbor_read.specs.Sources.{input_of_mut_slice, Rearranged, SameSlice};

    ghost source = { input_of_mut_slice };

    ghost peeked = { λ s. first_of (drop s.taken s.slice.now) };

    ghost at_hand = { λ s. drop s.taken s.slice.now };

    ghost refusals = { mut_refusals };

    ghost lends = { record { whole = true; joined = true } };

    fn next(&mut self) -> Result<Option<u8>>
        ensures does { NextDoes mut_refusals (input_of_mut_slice self.old) (input_of_mut_slice self.new)
            result }
        ensures counted { (input_of_mut_slice self.new).offset < 2 ^ 64 }
        ensures peeked { IfSome (first_of (drop self.old.taken self.old.slice.now))
            (λ b. IfOk result (λ o. o ≡ Some b)) }
        ensures same { SameSlice self.old self.new }
    {
        Ok(if self.taken < self.slice.len() {
            let byte = self.slice[self.taken];
            self.taken += 1;
            Some(byte)
        } else {
            None
        })
    }

    fn peek(&mut self) -> Result<Option<u8>>
        ensures stays { OnOk result (Stays (input_of_mut_slice self.old) (input_of_mut_slice self.new)) }
        ensures peeked { IfOk result (λ o. first_of (drop self.new.taken self.new.slice.now) ≡ o) }
        ensures same_byte { IfSome (first_of (drop self.old.taken self.old.slice.now))
            (λ b. IfOk result (λ o. o ≡ Some b)) }
        ensures front { IfOk result (λ o. MatchOption o
            (IfSome (input_of_mut_slice self.old).to_come (λ bs. bs ≡ []))
            (λ b. IfSome (input_of_mut_slice self.old).to_come (λ bs. take 1 bs ≡ b ∷ []))) }
        ensures err { IfErr result (RefusedByte mut_refusals
            (input_of_mut_slice self.old) (input_of_mut_slice self.new)) }
        ensures same { SameSlice self.old self.new }
    {
        Ok(if self.taken < self.slice.len() {
            Some(self.slice[self.taken])
        } else {
            None
        })
    }

    #[inline(always)]
    fn ahead(&self) -> &[u8] {
        &self.slice[self.taken..]
    }

    #[inline(always)]
    fn advance(&mut self, n: usize)
        requires { n ≤ length (drop self.old.taken self.old.slice.now) }
        ensures took { TookKept (input_of_mut_slice self.old) (input_of_mut_slice self.new)
            (take n (drop self.old.taken self.old.slice.now)) }
        ensures counted { (input_of_mut_slice self.new).offset < 2 ^ 64 }
        ensures same { SameSlice self.old self.new }
    {
        self.taken += n;
    }

    fn clear_buffer(&mut self)
        ensures bytes { KeepsBytes (input_of_mut_slice self.old) (input_of_mut_slice self.new) }
        ensures empty { (input_of_mut_slice self.new).buffer ≡ [] }
        ensures same { SameSlice self.old self.new }
    {
        self.joined = 0;
    }

    #[tactic(auto, using(crate::proofs::Inputs::moved, crate::proofs::Lengthened::none_taken))]
    fn read_to_buffer(&mut self, n: usize) -> Result<()>
        ensures ok { OnOk result
            (Buffered (input_of_mut_slice self.old) (input_of_mut_slice self.new) n) }
        ensures fits { OnOk result (FitsRoom (input_of_mut_slice self.new)) }
        ensures err { IfErr result (RefusedToBuffer mut_refusals
            (input_of_mut_slice self.old) (input_of_mut_slice self.new) n) }
        ensures kept { OnErr result (Lengthened
            (input_of_mut_slice self.old) (input_of_mut_slice self.new)
            (input_of_mut_slice self.old).buffer (input_of_mut_slice self.new).buffer) }
        ensures memory { IfErr result (MemoryWhere false) }
        ensures rearranged { Rearranged self.old self.new }
    {
        let end = self.end_of(n)?;
        let start = self.joined_from();
        let slice = &mut *self.slice;
        bring_down(slice, start + self.joined, self.taken, n);
        self.start = start;
        self.joined += n;
        self.taken = end;
        Ok(())
    }

    fn buffer(&self) -> &[u8] {
        &self.slice[self.start..self.start + self.joined]
    }

    fn buffer_room(&self) -> Option<usize> {
        None
    }

    #[tactic(auto, using(crate::proofs::Lengthened::none_taken))]
    fn read_to_vec(&mut self, n: usize, out: &mut Vec<u8>) -> Result<()>
        ensures ok { OnOk result
            (TookBehind (input_of_mut_slice self.old) (input_of_mut_slice self.new) n out.old.items
            out.new.items) }
        ensures err { IfErr result (RefusedInto (or_memory mut_refusals)
            (input_of_mut_slice self.old) (input_of_mut_slice self.new) n) }
        ensures kept { OnErr result (Lengthened (input_of_mut_slice self.old)
            (input_of_mut_slice self.new) out.old.items out.new.items) }
        ensures same { SameSlice self.old self.new }
    {
        let end = self.end_of(n)?;
        append(out, self.part(end))?;
        self.taken = end;
        Ok(())
    }

    fn read_into(&mut self, buf: &mut [u8]) -> Result<()>
        ensures ok { OnOk result (TookKept (input_of_mut_slice self.old) (input_of_mut_slice self.new)
            buf.new) }
        ensures err { IfErr result (RefusedInto mut_refusals
            (input_of_mut_slice self.old) (input_of_mut_slice self.new) (length buf.old)) }
        ensures memory { IfErr result (λ e. why e ≢ refusal.OutOfMemory) }
        ensures same { SameSlice self.old self.new }
    {
        let end = self.end_of(buf.len())?;
        buf.copy_from_slice(self.part(end));
        self.taken = end;
        Ok(())
    }

    fn skip(&mut self, n: usize) -> Result<()>
        ensures ok { OnOk result (Skipped (input_of_mut_slice self.old) (input_of_mut_slice self.new) n) }
        ensures err { IfErr result (RefusedPart mut_refusals
            (input_of_mut_slice self.old) (input_of_mut_slice self.new) n) }
        ensures memory { IfErr result (MemoryWhere false) }
        ensures same { SameSlice self.old self.new }
    {
        let end = self.end_of(n)?;
        self.taken = end;
        Ok(())
    }

    fn skip_text(&mut self, n: usize) -> Result<usize>
        ensures ok { IfOk result (SkippedText (input_of_mut_slice self.old) (input_of_mut_slice self.new) n) }
        ensures err { IfErr result (RefusedPart mut_refusals
            (input_of_mut_slice self.old) (input_of_mut_slice self.new) n) }
        ensures memory { IfErr result (MemoryWhere false) }
        ensures same { SameSlice self.old self.new }
    {
        let end = self.end_of(n)?;
        let valid = valid_in(self.part(end));
        self.taken = end;
        Ok(valid)
    }

    fn discard(&mut self)
        requires { IsSome (first_of (drop self.old.taken self.old.slice.now)) }
        ensures took { IfSome (first_of (drop self.old.taken self.old.slice.now))
            (λ b. TookKept (input_of_mut_slice self.old) (input_of_mut_slice self.new) (b ∷ [])) }
        ensures same { SameSlice self.old self.new }
    {
        self.taken += 1;
    }

    fn offset(&self) -> u64 {
        (self.before + self.taken) as u64
    }
}

impl<'a> Read<'a> for MutSliceRead<'a> {
    ghost use Rattle.std.specs.Prelude.{IfSome, true, false};
    ghost use Rattle.std.specs.Io.BufRead.{Rests};
    ghost use Rattle.cbor_read.specs.Source.{KeepsBytes, MemoryWhere, ReadLeaves, is_long};
    ghost use Rattle.cbor_read.specs.Source.{mut_refusals, part_bytes};
    ghost use Rattle.cbor_read.specs.Sources.{input_of_mut_slice};
    ghost use Rattle.cbor_read.specs.Lending.{CutOff, mut_slice_row};
    ghost use types.Logic.{sem};

    fn read<'b>(&'b mut self, n: usize) -> Result<EitherLifetime<'b, 'a>>
        ensures count { IfOk result (λ p. length (part_bytes p) ≡ n) }
        ensures front { IfOk result (λ p. IfSome (input_of_mut_slice self.old).to_come
            (λ bs. part_bytes p ≡ take n bs)) }
        ensures long { IfOk result (λ p. is_long p ≡ true) }
        ensures memory { IfErr result (MemoryWhere false) }
        ensures* after_borrow { sem 𝓛 (Rests mut_slice_row self.entry (λ new.
            ReadLeaves mut_refusals (input_of_mut_slice self.old) (input_of_mut_slice new) n result
            × CutOff self.old new)) }
    {
        let end = self.end_of(n)?;
        let start = self.taken;
        self.start = 0;
        self.joined = 0;
        self.taken = 0;
        let part = cut_part(&mut self.slice, start, n);
        self.before += end;
        Ok(EitherLifetime::Long(part))
    }

    fn take_buffer<'b>(&'b mut self) -> EitherLifetime<'b, 'a>
        ensures bytes { part_bytes result ≡ (input_of_mut_slice self.old).buffer }
        ensures long { is_long result ≡ true }
        ensures* after_borrow { sem 𝓛 (Rests mut_slice_row self.entry (λ new.
            KeepsBytes (input_of_mut_slice self.old) (input_of_mut_slice new)
            × CutOff self.old new)) }
    {
        let start = self.start;
        let end = start + self.joined;
        let taken = self.taken;
        self.start = 0;
        self.joined = 0;
        self.taken = 0;
        let part = cut_front(&mut self.slice, taken);
        self.before += taken;
        EitherLifetime::Long(&part[start..end])
    }
}

// The input isn't printed: it may be long, or hold what is no reader's to see.
impl fmt::Debug for MutSliceRead<'_> {
    fn fmt<W: fmt::Write>(&self, f: &mut fmt::Formatter<W>) -> fmt::Result {
        f.debug_struct("MutSliceRead")
            .field("offset", &(self.before + self.taken))
            .field("remaining", &(self.slice.len() - self.taken))
            .finish_non_exhaustive()
    }
}
