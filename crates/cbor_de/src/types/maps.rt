//! Maps of std, which are read from maps.

use crate::de::Deserializer;
use crate::deserialize::{Deserialize, DeserializeOwned, Readable};
use cbor_io::error::{Error, Result};
use cbor_read::Read;
use std::alloc::AllocError;
use std::collections::BTreeMap;

/// A map, pair by pair; of equal keys the last value stands.
impl<K: Readable + Ord, V: Readable> Readable for BTreeMap<K, V> {
    ghost use Rattle.cbor_model.specs.Readable.{PassesTags};
    ghost use Rattle.cbor_decode_as.specs.Maps.{AsMap, AreEntries};
    ghost use Rattle.cbor_de.specs.Calls.{and_reports, reports_any};
    ghost use Rattle.cbor_de.specs.Forms.{any_of, key_form};

    ghost reads = { λ c. PassesTags (AsMap
        (λ rs m. AreEntries K.cmp (K.reads c) (V.reads c) rs m.entries)) };

    ghost wrong_forms = { any_of (any_of key_form K.wrong_forms) V.wrong_forms };

    ghost reports_faults = { and_reports
        (reports_any K.Readable.passes_over K.Readable.total K.Readable.reports_faults)
        (reports_any V.passes_over V.total V.reports_faults) };
}

impl<'de, R: Read<'de>, K: Deserialize<'de, R> + Ord, V: Deserialize<'de, R>> Deserialize<'de, R>
    for BTreeMap<K, V> {
    #[tactic(auto, using(crate::proofs::refusals::Forms::plain))]
    fn deserialize(de: &mut Deserializer<R>) -> Result<BTreeMap<K, V>> {
        let mut map = BTreeMap::new(de.decoder.alloc);
        let mut access = de.map()?;
        'pairs: while let Some(key) = access.next_key::<K>()? {
            let value = access.next_value::<V>()?;
            if map.insert(key, value).is_err() {
                return Err(access.refuse(Error::from(AllocError)));
            }
        }
        access.end()?;
        Ok(map)
    }
}

impl<K: DeserializeOwned + Ord, V: DeserializeOwned> DeserializeOwned for BTreeMap<K, V> {
    ghost use Rattle.cbor_model.specs.Readable.{untagged};
    ghost use Rattle.cbor_decode_as.specs.Maps.{AreEntries, as_map_same, are_entries_same};
    ghost use Rattle.cbor_decode_as.specs.Takes.{lending};

    ghost same = { λ f a b r v h. as_map_same
        (λ rs m. AreEntries K.cmp (K.reads (lending f a)) (V.reads (lending f a)) rs m.entries)
        (λ rs m. AreEntries K.cmp (K.reads (lending f b)) (V.reads (lending f b)) rs m.entries)
        (λ rs m. are_entries_same K.cmp
        (K.reads (lending f a)) (K.reads (lending f b))
        (V.reads (lending f a)) (V.reads (lending f b))
        (K.same f a b) (V.same f a b) rs m.entries)
        (untagged r) v h };
}
