//! The tag at the front.

ghost use Rattle.std.specs.Prelude.{◌≡◌, ◌≢◌, IfOk, IfErr, IfSome, IfNone};
ghost use Rattle.cbor_io.specs.Error.{code_of};
ghost use Rattle.cbor_io.specs.declared.error.ErrorCode.TheVariants.{OutOfMemory};
ghost use Rattle.cbor_decode.specs.Gives.{ReportsNoForm};
ghost use Rattle.cbor_decode_as.specs.Takes.{formats_of};
ghost use Rattle.cbor_decode_as.specs.Tags.{ReadsTag, LevelsBehind, TagIs};
ghost use Rattle.cbor_convert.specs.Tagged.{StandsNoTag};

use cbor_de::Deserializer;
use cbor_de::steps::{error_of, peek};
use cbor_io::error::Result;
use cbor_read::Source;

/// Takes the head of the tag that the item at the front is within, and goes one level in, as
/// `Deserializer::read_tag` does; None, which takes nothing, where it is within none.
pub(crate) fn outermost<R: Source>(de: &mut Deserializer<R>) -> Result<Option<u64>>
    ensures read { ReadsTag R.refusals de.old.decoder.levels (R.source de.old.decoder.source)
        (R.source de.new.decoder.source) result }
    ensures item { IfOk result (λ o. IfSome o (λ n.
        TagIs (formats_of de.old.decoder.formats) de.old.decoder.levels n
        (R.source de.old.decoder.source) (R.source de.new.decoder.source))) }
    ensures none { IfOk result (λ o. IfNone o
        (StandsNoTag (R.source de.old.decoder.source) (R.source de.new.decoder.source))) }
    ensures no_form { IfErr result (λ e. ReportsNoForm (code_of e)) }
    ensures memory { IfErr result (λ e. code_of e ≢ OutOfMemory) }
    ensures levels { LevelsBehind result de.old.decoder.levels de.new.decoder.levels }
    ensures formats { de.new.decoder.formats ≡ de.old.decoder.formats }
{
    match peek(de) {
        Ok(Some(_first)) => de.read_tag(),
        Ok(None) => Ok(None),
        Err(refusal) => Err(error_of(de, refusal)),
    }
}
