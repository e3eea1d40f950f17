//! Taking an item that keeps rules from any source, and reading its bytes as a type.

ghost use Rattle.std.specs.Prelude.{◌≡◌};
ghost use Rattle.cbor_model.specs.Acceptable.{max_depth};
ghost use Rattle.cbor_decode.specs.Decoder.{SameSettings};
ghost use Rattle.cbor_de.specs.Whole.{from_reader_asks, from_reader_context};
ghost use Rattle.cbor_rules.specs.Rules.{under};
ghost use Rattle.cbor_rules.specs.Streams.{AnswersNextItem, RefusesAs};

use crate::answers::Refusal;
use crate::raw::next_raw_item_with_tags;
use crate::settings::Rules;
use cbor_de::{Deserialize, DeserializeOwned, Deserializer, Source, VecRead, from_vec, steps};

/// Takes the next item, if it keeps the rules, and reads its bytes.
pub(crate) fn next_item<'de, R: Source, T: DeserializeOwned + Deserialize<'de, VecRead>>(
    de: &mut Deserializer<R>,
    rules: Rules,
    tags: &[u64],
) -> Result<Option<T>, Refusal>
    requires { de.old.decoder.levels ≡ max_depth }
    ensures answers { AnswersNextItem R.refusals (T.reads from_reader_context)
        (RefusesAs T.passes_over T.total T.reports_faults T.wrong_forms
        (T.reads from_reader_context) (T.asks_memory from_reader_asks)) (under rules tags.now)
        (R.source de.old.decoder.source) (R.source de.new.decoder.source) result }
    ensures settings { SameSettings de.old.decoder de.new.decoder }
{
    let start = steps::offset(de);
    match next_raw_item_with_tags(de, rules, tags) {
        Ok(None) => Ok(None),
        Ok(Some(item)) => match from_vec::<T>(de.alloc(), item.into_bytes()) {
            Ok(value) => Ok(Some(value)),
            Err(error) => Err(Refusal::Unread(error.further(start))),
        },
        Err(refusal) => Err(refusal),
    }
}
