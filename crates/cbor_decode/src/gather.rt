//! Bringing the front of an item to hand, where a source has to ask for its bytes.

ghost use Rattle.cbor_read.specs.Source.{Stays};
ghost use Rattle.cbor_decode.specs.Decoder.{SameSettings};

use crate::Decoder;
use cbor_read::Source;

// The most bytes that a head has.
const LONGEST: usize = 9;

// How many bytes the head has that begins so.
#[inline(always)]
fn head_length(first: u8) -> usize {
    match first {
        // A simple value of two bytes is refused by its first.
        0xf8 => 1,
        _ => match first % 32 {
            24 => 2,
            25 => 3,
            26 => 5,
            27 => 9,
            _ => 1,
        },
    }
}

impl<R: Source> Decoder<R> {
    /// Tries to bring the head at the front to hand, which has to be wanted, and returns whether
    /// more bytes are at hand then. Nothing is taken.
    #[inline(always)]
    #[tactic(auto, using(cbor_read::proofs::facts::Sources::stays_same))]
    pub fn gather_head(&mut self) -> bool
        ensures stays { Stays (R.source self.old.source) (R.source self.new.source) }
        ensures settings { SameSettings self.old self.new }
    {
        if !self.source.lacks(LONGEST) {
            return false;
        }
        self.gather_rest()
    }

    // The same where fewer bytes are at hand than a head may have.
    #[inline(never)]
    #[tactic(auto, using(cbor_read::proofs::facts::Sources::stays_then))]
    fn gather_rest(&mut self) -> bool
        ensures stays { Stays (R.source self.old.source) (R.source self.new.source) }
        ensures settings { SameSettings self.old self.new }
    {
        let before = self.source.ahead().len();
        match self.gather_first() {
            Some(first) => {
                self.source.gather(head_length(first));
                self.source.ahead().len() > before
            }
            None => false,
        }
    }

    // The first byte of what comes, if it is at hand or can be brought there.
    #[inline(always)]
    #[tactic(auto, using(cbor_read::proofs::facts::Sources::stays_same))]
    fn gather_first(&mut self) -> Option<u8>
        ensures stays { Stays (R.source self.old.source) (R.source self.new.source) }
        ensures settings { SameSettings self.old self.new }
    {
        if let Some(first) = self.source.ahead().first().copied() {
            return Some(first);
        }
        self.source.gather(1);
        self.source.ahead().first().copied()
    }

    /// Tries to bring a text of up to 23 bytes at the front to hand, which has to be wanted, and
    /// returns whether more bytes are at hand then. Nothing is taken.
    #[inline(always)]
    #[tactic(auto, using(cbor_read::proofs::facts::Sources::stays_same))]
    pub fn gather_text(&mut self) -> bool
        ensures stays { Stays (R.source self.old.source) (R.source self.new.source) }
        ensures settings { SameSettings self.old self.new }
    {
        let before = self.source.ahead().len();
        match self.source.ahead().first().copied() {
            Some(first @ 0x60..=0x77) => {
                self.source.gather(1 + (first - 0x60) as usize);
                self.source.ahead().len() > before
            }
            _ => false,
        }
    }
}
