//! What may be absent.

ghost use Rattle.std.specs.Prelude.{◌≡◌, ◌≢◌, true, IfErr, IfOk, IfSome, Ok, Some};
ghost use Rattle.cbor_decode.specs.Decoder.{SameSettings};
ghost use Rattle.cbor_decode.specs.Gives.{ReportsNoKey, ReportsNoMemory};
ghost use Rattle.cbor_decode_as.specs.Nulls.{null_at};
ghost use Rattle.cbor_decode.specs.Steps as step;

use cbor_decode::{Decoder, Done};
use cbor_read::Source;

/// The first byte of null (RFC 7049, section 2.3).
const NULL: u8 = 0xf6;

/// Takes `f6` if it is the byte at hand, and returns whether it was; None where no byte is at hand.
/// Else nothing is taken.
#[inline(always)]
pub fn null_at_hand<R: Source>(decoder: &mut Decoder<R>) -> Option<bool>
    ensures read { IfSome result (λ null. step.Gives R.source R.refusals (λ b. b) (λ l. null_at)
        decoder.old decoder.new (Ok null)) }
    ensures taken { IfSome result
        (λ null. null ≡ true → step.Advances R.source decoder.old decoder.new) }
    ensures kept { result ≢ Some true
        → R.source decoder.new.source ≡ R.source decoder.old.source }
    ensures settings { SameSettings decoder.old decoder.new }
{
    match decoder.source.ahead().first().copied() {
        Some(NULL) => {
            decoder.source.advance(1);
            Some(true)
        }
        Some(_) => Some(false),
        None => None,
    }
}

/// Takes `f6` if it is next, and returns whether it was. Nothing is taken of another
/// item, and where the input is at its end. It is refused as the source is.
#[inline(always)]
pub fn take_null<R: Source>(decoder: &mut Decoder<R>) -> Done<bool>
    ensures read { step.Gives R.source R.refusals (λ b. b) (λ l. null_at)
        decoder.old decoder.new result }
    ensures taken { IfOk result
        (λ null. null ≡ true → step.Advances R.source decoder.old decoder.new) }
    ensures no_key { IfErr result (ReportsNoKey decoder.new.refusal) }
    ensures memory { IfErr result (ReportsNoMemory decoder.new.refusal) }
    ensures settings { SameSettings decoder.old decoder.new }
{
    match null_at_hand(decoder) {
        Some(null) => Ok(null),
        None => take_null_peeked(decoder),
    }
}

// The same where no byte is at hand: the source is asked to show one.
#[inline(never)]
fn take_null_peeked<R: Source>(decoder: &mut Decoder<R>) -> Done<bool>
    ensures read { step.Gives R.source R.refusals (λ b. b) (λ l. null_at)
        decoder.old decoder.new result }
    ensures taken { IfOk result
        (λ null. null ≡ true → step.Advances R.source decoder.old decoder.new) }
    ensures no_key { IfErr result (ReportsNoKey decoder.new.refusal) }
    ensures memory { IfErr result (ReportsNoMemory decoder.new.refusal) }
    ensures settings { SameSettings decoder.old decoder.new }
{
    match decoder.source.peek() {
        Ok(Some(NULL)) => {
            // An offset that was read is known to be below 2^64.
            let _before = decoder.source.offset();
            decoder.source.discard();
            Ok(true)
        }
        Ok(_) => Ok(false),
        Err(refusal) => Err(decoder.keep(refusal)),
    }
}
