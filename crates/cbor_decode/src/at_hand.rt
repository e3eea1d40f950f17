//! Heads that are whole at hand, of numbers, floats, bools, and of what is short: they are known by
//! the bytes themselves, without a refusal. All others are for [`Decoder::head`].

ghost use Rattle.std.specs.Prelude.{◌≡◌, ◌≤◌, ◌++◌, List, ℕ, length, take, MatchOption, IfSome};
ghost use Rattle.std.specs.Prelude.{OnSome, Ok, Some};
ghost use Rattle.cbor_model.specs.Reader.{number_behind};
ghost use Rattle.cbor_decode.specs.Decoder.{SameSettings};
ghost use Rattle.cbor_decode.specs.Heads.{HeadGives, opening_at};
ghost use Rattle.cbor_decode.specs.declared.cursor.Remaining.TheVariants.{Counted};
ghost use Rattle.cbor_decode.specs.declared.head.Head.TheVariants.{Unsigned, Negative, Text, Array};
ghost use Rattle.cbor_decode.specs.declared.head.Head.TheVariants.{Map};
ghost use Rattle.cbor_decode.specs.declared.head.Head.TheVariants.{Bool as BoolHead};
ghost use Rattle.cbor_decode.specs.declared.head.Head.TheVariants.{Float as FloatHead};
ghost use Rattle.cbor_value.specs.declared.Float.TheVariants.{Single, Double};
ghost use Rattle.cbor_decode.specs.Steps as step;

use crate::Decoder;
use cbor_read::Source;

// The argument after a first byte with these lower five bits, and how many of the bytes behind it
// are the argument's; None where they are too few, or none has such bits.
#[inline(always)]
fn argument_in(low: u8, behind: &[u8]) -> Option<(u64, usize)>
    ensures within { IfSome result (λ found. found.1 ≤ length behind.now) }
    ensures read { IfSome result (λ found. (rest : List ℕ)
        → number_behind low (take found.1 behind.now ++ rest) ≡ Ok (found.0, rest)) }
{
    match low {
        0..=23 => Some((low as u64, 0)),
        24 => match behind.first_chunk() {
            Some(bytes) => Some((u8::from_be_bytes(*bytes) as u64, 1)),
            None => None,
        },
        25 => match behind.first_chunk() {
            Some(bytes) => Some((u16::from_be_bytes(*bytes) as u64, 2)),
            None => None,
        },
        26 => match behind.first_chunk() {
            Some(bytes) => Some((u32::from_be_bytes(*bytes) as u64, 4)),
            None => None,
        },
        27 => match behind.first_chunk() {
            Some(bytes) => Some((u64::from_be_bytes(*bytes), 8)),
            None => None,
        },
        _ => None,
    }
}

impl<R: Source> Decoder<R> {
    /// Takes a whole number from 0 to the most. None where another head or a greater number comes,
    /// or too few bytes are available; then nothing is taken.
    #[inline(always)]
    pub fn unsigned(&mut self, most: u64) -> Option<u64>
        ensures read { MatchOption result (R.source self.new.source ≡ R.source self.old.source)
            (λ n. HeadGives R.refusals opening_at (R.source self.old.source)
            (R.source self.new.source) self.new.refusal (Ok (Unsigned n))) }
        ensures bound { IfSome result (λ n. n ≤ most) }
        ensures taken { OnSome result (step.Advances R.source self.old self.new) }
        ensures settings { SameSettings self.old self.new }
    {
        let ahead = self.source.ahead();
        match ahead.first().copied() {
            Some(first @ 0x00..=0x1b) => match argument_in(first, &ahead[1..]) {
                Some((n, behind)) => {
                    if n > most {
                        return None;
                    }
                    self.source.advance(1 + behind);
                    Some(n)
                }
                None => None,
            },
            _ => None,
        }
    }

    /// Takes a whole number -1 - n, of an n up to the most, and returns n. None as
    /// [`unsigned`](Decoder::unsigned) returns it.
    #[inline(always)]
    pub fn negative(&mut self, most: u64) -> Option<u64>
        ensures read { MatchOption result (R.source self.new.source ≡ R.source self.old.source)
            (λ n. HeadGives R.refusals opening_at (R.source self.old.source)
            (R.source self.new.source) self.new.refusal (Ok (Negative n))) }
        ensures bound { IfSome result (λ n. n ≤ most) }
        ensures taken { OnSome result (step.Advances R.source self.old self.new) }
        ensures settings { SameSettings self.old self.new }
    {
        let ahead = self.source.ahead();
        match ahead.first().copied() {
            Some(first @ 0x20..=0x3b) => match argument_in(first - 0x20, &ahead[1..]) {
                Some((n, behind)) => {
                    if n > most {
                        return None;
                    }
                    self.source.advance(1 + behind);
                    Some(n)
                }
                None => None,
            },
            _ => None,
        }
    }

    /// Takes a float of 32 bits and returns its bits. None where another head comes, or too few
    /// bytes are available; then nothing is taken.
    #[inline(always)]
    pub fn single(&mut self) -> Option<u32>
        ensures read { MatchOption result (R.source self.new.source ≡ R.source self.old.source)
            (λ bits. HeadGives R.refusals opening_at (R.source self.old.source)
            (R.source self.new.source) self.new.refusal (Ok (FloatHead (Single bits)))) }
        ensures taken { OnSome result (step.Advances R.source self.old self.new) }
        ensures settings { SameSettings self.old self.new }
    {
        let ahead = self.source.ahead();
        match ahead.first().copied() {
            Some(0xfa) => match ahead[1..].first_chunk() {
                Some(bytes) => {
                    let bits = u32::from_be_bytes(*bytes);
                    self.source.advance(5);
                    Some(bits)
                }
                None => None,
            },
            _ => None,
        }
    }

    /// Takes a float of 64 bits and returns its bits. None as [`single`](Decoder::single) returns
    /// it.
    #[inline(always)]
    pub fn double(&mut self) -> Option<u64>
        ensures read { MatchOption result (R.source self.new.source ≡ R.source self.old.source)
            (λ bits. HeadGives R.refusals opening_at (R.source self.old.source)
            (R.source self.new.source) self.new.refusal (Ok (FloatHead (Double bits)))) }
        ensures taken { OnSome result (step.Advances R.source self.old self.new) }
        ensures settings { SameSettings self.old self.new }
    {
        let ahead = self.source.ahead();
        match ahead.first().copied() {
            Some(0xfb) => match ahead[1..].first_chunk() {
                Some(bytes) => {
                    let bits = u64::from_be_bytes(*bytes);
                    self.source.advance(9);
                    Some(bits)
                }
                None => None,
            },
            _ => None,
        }
    }

    /// Takes false or true. None where another head comes, or no byte is available; then nothing is
    /// taken.
    #[inline(always)]
    pub fn boolean(&mut self) -> Option<bool>
        ensures read { MatchOption result (R.source self.new.source ≡ R.source self.old.source)
            (λ b. HeadGives R.refusals opening_at (R.source self.old.source)
            (R.source self.new.source) self.new.refusal (Ok (BoolHead b))) }
        ensures taken { OnSome result (step.Advances R.source self.old self.new) }
        ensures settings { SameSettings self.old self.new }
    {
        match self.source.ahead().first().copied() {
            Some(0xf4) => {
                self.source.advance(1);
                Some(false)
            }
            Some(0xf5) => {
                self.source.advance(1);
                Some(true)
            }
            _ => None,
        }
    }

    /// Takes the head of a text of up to 23 bytes, which most names are, and returns how many. None
    /// where another head comes, or no byte is available; then nothing is taken.
    #[inline(always)]
    pub fn short_text(&mut self) -> Option<u64>
        ensures read { MatchOption result (R.source self.new.source ≡ R.source self.old.source)
            (λ n. HeadGives R.refusals opening_at (R.source self.old.source)
            (R.source self.new.source) self.new.refusal (Ok (Text (Some n)))) }
        ensures taken { OnSome result (step.Advances R.source self.old self.new) }
        ensures settings { SameSettings self.old self.new }
    {
        match self.source.ahead().first().copied() {
            Some(first @ 0x60..=0x77) => {
                self.source.advance(1);
                Some((first - 0x60) as u64)
            }
            _ => None,
        }
    }

    /// Takes the head of an array of up to 23 items and returns how many. None as
    /// [`short_text`](Decoder::short_text) returns it.
    #[inline(always)]
    pub fn short_array(&mut self) -> Option<u64>
        ensures read { MatchOption result (R.source self.new.source ≡ R.source self.old.source)
            (λ n. HeadGives R.refusals opening_at (R.source self.old.source)
            (R.source self.new.source) self.new.refusal (Ok (Array (Counted n)))) }
        ensures taken { OnSome result (step.Advances R.source self.old self.new) }
        ensures settings { SameSettings self.old self.new }
    {
        match self.source.ahead().first().copied() {
            Some(first @ 0x80..=0x97) => {
                self.source.advance(1);
                Some((first - 0x80) as u64)
            }
            _ => None,
        }
    }

    /// Takes the head of a map of up to 23 pairs and returns how many. None as
    /// [`short_text`](Decoder::short_text) returns it.
    #[inline(always)]
    pub fn short_map(&mut self) -> Option<u64>
        ensures read { MatchOption result (R.source self.new.source ≡ R.source self.old.source)
            (λ n. HeadGives R.refusals opening_at (R.source self.old.source)
            (R.source self.new.source) self.new.refusal (Ok (Map (Counted n)))) }
        ensures taken { OnSome result (step.Advances R.source self.old self.new) }
        ensures settings { SameSettings self.old self.new }
    {
        match self.source.ahead().first().copied() {
            Some(first @ 0xa0..=0xb7) => {
                self.source.advance(1);
                Some((first - 0xa0) as u64)
            }
            _ => None,
        }
    }
}
