//! Characters, which are texts of one (RFC 7049, section 2.1, major type 3).

ghost use Rattle.std.specs.Prelude.{OnSome};
ghost use Rattle.cbor_model.specs.Readable.{PassesTags};
ghost use Rattle.cbor_decode.specs.Decoder.{SameSettings};
ghost use Rattle.cbor_decode_as.specs.Strings.{IsCharacter};
ghost use Rattle.cbor_decode.specs.Steps as step;
ghost use Rattle.cbor_decode_as.specs.DecoderCalls as call;

use cbor_decode::Decoder;
use cbor_read::Source;

// The head of a text of one byte.
const ONE_BYTE: u8 = 0x61;

/// Reads a text of one ASCII character that is at hand, without tags. None where another item
/// comes, or too few bytes are at hand; then nothing is taken.
#[inline(always)]
pub fn ascii_at_hand<R: Source>(decoder: &mut Decoder<R>) -> Option<char>
    ensures read { call.TakesAtHand R.source R.refusals (PassesTags IsCharacter)
        decoder.old decoder.new result }
    ensures taken { OnSome result (step.Advances R.source decoder.old decoder.new) }
    ensures settings { SameSettings decoder.old decoder.new }
{
    let ahead = decoder.source.ahead();
    if ahead.len() < 2 || ahead[0] != ONE_BYTE {
        return None;
    }
    let byte = ahead[1];
    if byte >= 0x80 {
        return None;
    }
    decoder.source.advance(2);
    Some(byte as char)
}
