//! Items that are at hand, or that a source can bring there.

ghost use Rattle.std.specs.Prelude.{IfErr, OnSome};
ghost use Rattle.cbor_decode.specs.Decoder.{SameSettings};
ghost use Rattle.cbor_decode_as.specs.Takes.{context};
ghost use Rattle.cbor_de.specs.Calls as call;

use crate::de::Deserializer;
use crate::deserialize::{Deserialize, Readable};
use cbor_io::error::Result;
use cbor_read::{Read, Source};

// Reads the item at the front, if it is whole at hand, or if the source can bring the rest of its
// head there. None as `at_hand` returns it, though more bytes may be at hand then.
#[inline(always)]
pub(crate) fn ready<T: Readable, R: Source>(de: &mut Deserializer<R>) -> Option<T>
    ensures read { call.TakesGathered R.source R.refusals
        (T.reads (context de.old.decoder.formats R.lends)) de.old de.new result }
    ensures taken { OnSome result (call.Advances R.source de.old de.new) }
    ensures settings { SameSettings de.old.decoder de.new.decoder }
{
    match T::at_hand(de) {
        Some(item) => Some(item),
        None => T::gathered(de),
    }
}

// Reads an item that isn't whole at hand: gathered, or by `deserialize`.
#[tactic(auto, using(crate::proofs::refusals::Forms::plain))]
pub(crate) fn read_gathered<'de, R: Read<'de>, T: Deserialize<'de, R>>(
    de: &mut Deserializer<R>,
) -> Result<T>
    ensures read { call.TakesItem R.source R.refusals
        (T.reads (context de.old.decoder.formats R.lends)) de.old de.new result }
    ensures own_fault { IfErr result (call.OwnFault R.source R.refusals
        (call.reports_any T.passes_over T.total T.reports_faults) de.old) }
    ensures form { IfErr result (call.MayReport R.source T.wrong_forms de.old) }
    ensures settings { SameSettings de.old.decoder de.new.decoder }
{
    match T::gathered(de) {
        Some(item) => Ok(item),
        None => T::deserialize(de),
    }
}
