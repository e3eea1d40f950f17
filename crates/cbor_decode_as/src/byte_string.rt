//! Byte strings alone (RFC 7049, section 2.1, major type 2; in chunks, section 2.2.2).

ghost use Rattle.std.specs.Prelude.{IfErr, OnOk};
ghost use Rattle.cbor_model.specs.Readable.{PassesTags};
ghost use Rattle.cbor_io.specs.Error.{code_of};
ghost use Rattle.cbor_decode.specs.Decoder.{SameSettings};
ghost use Rattle.cbor_decode.specs.Gives.{ReportsNoForm, ReportsNoKey};
ghost use Rattle.cbor_decode_as.specs.Strings.{IsByteString, SeeksItem, SeeksWhole};
ghost use Rattle.cbor_decode_as.specs.Takes.{formats_of};
ghost use Rattle.cbor_decode.specs.Steps as step;
ghost use Rattle.cbor_decode_as.specs.DecoderCalls as call;

use crate::head::pass_over;
use crate::identifier::{Why, unnamed};
use crate::scalar::scalar_head;
use crate::string::byte_string;
use cbor_decode::{Decoder, Done, Head};
use cbor_io::error::Result;
use cbor_read::Source;

/// The message of an item that isn't a byte string.
pub const NO_BYTES: &str = "invalid type: expected bytes";

// Seeks a byte string; None where an item of another kind is there.
#[inline(always)]
fn bytes<R: Source>(decoder: &mut Decoder<R>) -> Done<Option<Vec<u8>>>
    ensures read { SeeksItem R.refusals (formats_of decoder.old.formats)
        (PassesTags (λ r v. IsByteString r v.items)) decoder.old.levels
        (R.source decoder.old.source) (R.source decoder.new.source)
        decoder.new.refusal result }
    ensures taken { OnOk result (step.Advances R.source decoder.old decoder.new) }
    ensures fault { SeeksWhole R.refusals decoder.old.levels (R.source decoder.old.source)
        decoder.new.refusal result }
    ensures no_key { IfErr result (ReportsNoKey decoder.new.refusal) }
    ensures settings { SameSettings decoder.old decoder.new }
{
    let found = scalar_head(decoder)?;
    match found.head {
        Head::Bytes(n) => {
            let bytes = byte_string(decoder, n)?;
            Ok(Some(bytes))
        }
        _ => match pass_over(decoder, found) {
            Ok(()) => Ok(None),
            Err(refused) => Err(refused),
        },
    }
}

/// Reads a byte string to memory of its own. Another item, a text too, is refused with
/// [`NO_BYTES`], and what isn't whole, of any kind, by its fault.
pub fn read_byte_string<R: Source>(decoder: &mut Decoder<R>) -> Result<Vec<u8>>
    ensures read { call.TakesItem R.source R.refusals (PassesTags (λ r v. IsByteString r v.items))
        decoder.old decoder.new result }
    ensures taken { OnOk result (step.Advances R.source decoder.old decoder.new) }
    ensures fault { IfErr result (call.RefusesWhole R.source R.refusals decoder.old) }
    ensures no_form { IfErr result (λ e. ReportsNoForm (code_of e)) }
    ensures settings { SameSettings decoder.old decoder.new }
{
    match bytes(decoder) {
        Ok(Some(bytes)) => Ok(bytes),
        Ok(None) => Err(unnamed(decoder, Why::Other, NO_BYTES)),
        Err(refused) => Err(unnamed(decoder, Why::Refused(refused), NO_BYTES)),
    }
}
