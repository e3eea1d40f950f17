//! Sets of std, which are read from arrays.

ghost use Rattle.std.specs.Prelude.{◌≡◌, [], IfOk, IfErr};
ghost use Rattle.cbor_io.specs.Error.{IsOutOfMemory};
ghost use Rattle.cbor_de.specs.Sets.{put_items};

use super::sequences::array_items;
use crate::de::Deserializer;
use crate::deserialize::{Deserialize, DeserializeOwned, Readable};
use cbor_io::error::{Error, Result};
use cbor_read::Read;
use std::alloc::{AllocError, Global};
use std::collections::BTreeSet;

/// An array, item by item; of equal items the first stands.
impl<T: Readable + Ord> Readable for BTreeSet<T> {
    ghost use Rattle.cbor_model.specs.Readable.{PassesTags};
    ghost use Rattle.cbor_decode_as.specs.Arrays.{AsArray};
    ghost use Rattle.cbor_de.specs.Calls.{reports_any};
    ghost use Rattle.cbor_de.specs.Sets.{AreKeys};

    ghost reads = { λ c. PassesTags (AsArray (λ rs s. AreKeys T.cmp (T.reads c) rs s.keys)) };

    ghost wrong_forms = { T.wrong_forms };

    ghost reports_faults = { reports_any T.passes_over T.Readable.total T.reports_faults };
}

impl<'de, R: Read<'de>, T: Deserialize<'de, R> + Ord> Deserialize<'de, R> for BTreeSet<T> {
    #[tactic(auto, using(crate::proofs::refusals::Forms::plain))]
    fn deserialize(de: &mut Deserializer<R>) -> Result<BTreeSet<T>> {
        let items = match array_items::<T, R>(de) {
            Ok(items) => items,
            Err(e) => return Err(e),
        };
        match set_of(de.decoder.alloc, items) {
            Ok(set) => Ok(set),
            Err(full) => Err(full),
        }
    }
}

// The set of these items.
fn set_of<T: Ord + Drop>(alloc: Global, items: Vec<T>) -> Result<BTreeSet<T>>
    ensures keys { IfOk result (λ s. s.keys ≡ put_items T.cmp [] items.items) }
    ensures memory { IfErr result IsOutOfMemory }
{
    let mut set = BTreeSet::new(alloc);
    for item in items {
        if set.insert(item).is_err() {
            return Err(Error::from(AllocError));
        }
    }
    Ok(set)
}

impl<T: DeserializeOwned + Ord> DeserializeOwned for BTreeSet<T> {
    ghost use Rattle.cbor_model.specs.Readable.{untagged};
    ghost use Rattle.cbor_decode_as.specs.Arrays.{as_array_same};
    ghost use Rattle.cbor_de.specs.Sets.{AreKeys, are_keys_same};
    ghost use Rattle.cbor_decode_as.specs.Takes.{lending};

    ghost same = { λ f a b r s h. as_array_same
        (λ rs t. AreKeys T.cmp (T.reads (lending f a)) rs t.keys)
        (λ rs t. AreKeys T.cmp (T.reads (lending f b)) rs t.keys)
        (λ rs t. are_keys_same T.cmp (T.reads (lending f a)) (T.reads (lending f b))
        (T.same f a b) rs t.keys)
        (untagged r) s h };
}
