//! Bringing the name of a field, or the beginning of an enum, to hand, where a source has to ask for
//! its bytes.

ghost use Rattle.cbor_read.specs.Source.{Stays};
ghost use Rattle.cbor_decode.specs.Decoder.{SameSettings};

use cbor_decode::Decoder;
use cbor_read::Source;

// The most bytes of a name that is read at hand.
const LONGEST: usize = 24;

// The first byte of a map of one pair.
const ONE_PAIR: u8 = 0xa1;

// Tries to bring the name at the front to hand, which has to be wanted: a text of up to 23 bytes, or
// the first byte of another item. Nothing is taken.
#[inline(always)]
#[tactic(auto, using(cbor_read::proofs::facts::Sources::stays_same))]
pub(crate) fn gather_name<R: Source>(decoder: &mut Decoder<R>)
    ensures stays { Stays (R.source decoder.old.source) (R.source decoder.new.source) }
    ensures settings { SameSettings decoder.old decoder.new }
{
    if decoder.source.lacks(LONGEST) {
        gather_text(decoder);
    }
}

// The same where fewer bytes are at hand than a name may have.
#[inline(never)]
#[tactic(auto, using(cbor_read::proofs::facts::Sources::stays_then))]
fn gather_text<R: Source>(decoder: &mut Decoder<R>)
    ensures stays { Stays (R.source decoder.old.source) (R.source decoder.new.source) }
    ensures settings { SameSettings decoder.old decoder.new }
{
    decoder.source.gather(1);
    let _ = decoder.gather_text();
}

// Tries to bring the beginning of an enum to hand, which has to be wanted: a name alone or, behind the
// head of a map of one pair, as its key, where it may be read so. Nothing is taken.
#[inline(always)]
#[tactic(auto, using(cbor_read::proofs::facts::Sources::stays_same))]
pub(crate) fn gather_variant<R: Source>(decoder: &mut Decoder<R>)
    ensures stays { Stays (R.source decoder.old.source) (R.source decoder.new.source) }
    ensures settings { SameSettings decoder.old decoder.new }
{
    if decoder.source.lacks(1 + LONGEST) {
        gather_enum(decoder);
    }
}

// The same where fewer bytes are at hand than that may have.
#[inline(never)]
#[tactic(auto, using(cbor_read::proofs::facts::Sources::stays_then))]
fn gather_enum<R: Source>(decoder: &mut Decoder<R>)
    ensures stays { Stays (R.source decoder.old.source) (R.source decoder.new.source) }
    ensures settings { SameSettings decoder.old decoder.new }
{
    decoder.source.gather(1);
    let formats = decoder.formats;
    if decoder.source.ahead().first().copied() == Some(ONE_PAIR) {
        if formats.standard_enums && decoder.levels > 0 {
            gather_key(decoder);
        }
    } else if formats.standard_enums || formats.legacy_enums {
        let _ = decoder.gather_text();
    }
}

// The same of the key behind a map's head.
#[inline(always)]
#[tactic(auto, using(cbor_read::proofs::facts::Sources::stays_then))]
fn gather_key<R: Source>(decoder: &mut Decoder<R>)
    ensures stays { Stays (R.source decoder.old.source) (R.source decoder.new.source) }
    ensures settings { SameSettings decoder.old decoder.new }
{
    decoder.source.gather(2);
    if let Some(first @ 0x60..=0x77) = decoder.source.ahead().get(1).copied() {
        if decoder.formats.may_begin_key(first) {
            decoder.source.gather(2 + (first - 0x60) as usize);
        }
    }
}
