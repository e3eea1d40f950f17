//! Vectors and arrays, which are read from arrays.

ghost use Rattle.std.specs.Prelude.{◌≡◌, IfOk, IfErr, OnOk, vec_len};
ghost use Rattle.cbor_decode.specs.Decoder.{SameSettings};
ghost use Rattle.cbor_model.specs.Readable.{PassesTags};
ghost use Rattle.cbor_decode_as.specs.Arrays.{AsArray, AreExactly, AreRead, items_in};
ghost use Rattle.cbor_decode_as.specs.Takes.{context};
ghost use Rattle.cbor_de.specs.Calls as call;

use crate::de::Deserializer;
use crate::deserialize::{Deserialize, DeserializeOwned, Readable};
use crate::ready::ready;
use cbor_decode::capacity::push_any;
use cbor_io::error::{Error, Result};
use cbor_read::Read;
use std::alloc::AllocError;

/// An array, item by item. Nothing is reserved by a declared count.
impl<T: Readable> Readable for Vec<T> {
    ghost use Rattle.cbor_model.specs.Readable.{PassesTags};
    ghost use Rattle.cbor_decode_as.specs.Arrays.{AsArray, AreRead};
    ghost use Rattle.cbor_de.specs.Calls.{reports_any};

    ghost reads = { λ c. PassesTags (AsArray (λ rs v. AreRead (T.reads c) rs v.items)) };

    ghost wrong_forms = { T.wrong_forms };

    ghost reports_faults = { reports_any T.passes_over T.total T.reports_faults };
}

impl<'de, R: Read<'de>, T: Deserialize<'de, R>> Deserialize<'de, R> for Vec<T> {
    fn deserialize(de: &mut Deserializer<R>) -> Result<Vec<T>> {
        array_items::<T, R>(de)
    }
}

// The items of an array.
#[inline(always)]
#[tactic(auto, using(crate::proofs::refusals::Forms::plain))]
pub(super) fn array_items<'de, T: Deserialize<'de, R>, R: Read<'de>>(
    de: &mut Deserializer<R>,
) -> Result<Vec<T>>
    ensures read { call.TakesItem R.source R.refusals
        (PassesTags (AsArray (AreRead (T.reads (context de.old.decoder.formats R.lends)))))
        de.old de.new (items_in result) }
    ensures taken { OnOk result (call.Advances R.source de.old de.new) }
    ensures own_fault { IfErr result (call.OwnFault R.source R.refusals
        (call.reports_any T.passes_over T.total T.reports_faults) de.old) }
    ensures form { IfErr result (call.MayReport R.source T.wrong_forms de.old) }
    ensures settings { SameSettings de.old.decoder de.new.decoder }
{
    let mut items = Vec::new(de.decoder.alloc);
    let mut access = de.array()?;
    // As `next_element` goes on, whose answer would be moved for each item.
    'items: loop {
        match access.more() {
            Ok(true) => {}
            Ok(false) => break,
            Err(refused) => return Err(access.refused(refused)),
        }
        let item = match ready::<T, R>(access.de) {
            Some(item) => item,
            None => match T::deserialize(access.de) {
                Ok(item) => item,
                Err(e) => return Err(access.refuse(e)),
            },
        };
        if push_any(&mut items, item, access.remaining).is_err() {
            return Err(access.refuse(Error::from(AllocError)));
        }
    }
    access.end()?;
    Ok(items)
}

impl<T: DeserializeOwned> DeserializeOwned for Vec<T> {
    ghost use Rattle.cbor_model.specs.Readable.{untagged};
    ghost use Rattle.cbor_decode_as.specs.Arrays.{AreRead, as_array_same, are_read_same};
    ghost use Rattle.cbor_decode_as.specs.Takes.{lending};

    ghost same = { λ f a b r v h. as_array_same
        (λ rs w. AreRead (T.reads (lending f a)) rs w.items)
        (λ rs w. AreRead (T.reads (lending f b)) rs w.items)
        (λ rs w. are_read_same (T.reads (lending f a)) (T.reads (lending f b))
        (T.same f a b) rs w.items)
        (untagged r) v h };
}

// The items of an array of exactly n.
#[tactic(auto, using(crate::proofs::refusals::Forms::plain))]
fn exactly<'de, T: Deserialize<'de, R>, R: Read<'de>>(
    de: &mut Deserializer<R>,
    n: usize,
) -> Result<Vec<T>>
    ensures read { call.TakesItem R.source R.refusals
        (PassesTags (AsArray (AreExactly (T.reads (context de.old.decoder.formats R.lends)) n)))
        de.old de.new (items_in result) }
    ensures taken { OnOk result (call.Advances R.source de.old de.new) }
    ensures own_fault { IfErr result (call.OwnFault R.source R.refusals
        (call.reports_any T.passes_over T.total T.reports_faults) de.old) }
    ensures form { IfErr result (call.MayReport R.source T.wrong_forms de.old) }
    ensures count { IfOk result (λ v. vec_len v ≡ n) }
    ensures settings { SameSettings de.old.decoder de.new.decoder }
{
    let mut items = Vec::new(de.decoder.alloc);
    let mut access = de.array()?;
    'items: while items.len() < n {
        let item = access.part::<T>(items.len(), n)?;
        if items.push(item).is_err() {
            return Err(access.refuse(Error::from(AllocError)));
        }
    }
    access.end()?;
    Ok(items)
}

/// An array of exactly `N` items. One of fewer is refused with `invalid length n, expected N`, and
/// one of more with `TrailingData`.
impl<T: Readable, const N: usize> Readable for [T; N] {
    ghost use Rattle.cbor_model.specs.Readable.{PassesTags};
    ghost use Rattle.cbor_decode_as.specs.Arrays.{AsArray, AreExactly};
    ghost use Rattle.cbor_de.specs.Calls.{reports_any};

    ghost reads = { λ c. PassesTags (AsArray (AreExactly (T.reads c) N)) };

    ghost wrong_forms = { T.wrong_forms };

    ghost reports_faults = { reports_any T.passes_over T.total T.reports_faults };
}

impl<'de, R: Read<'de>, T: Deserialize<'de, R>, const N: usize> Deserialize<'de, R> for [T; N] {
    fn deserialize(de: &mut Deserializer<R>) -> Result<[T; N]> {
        let items = match exactly::<T, R>(de, N) {
            Ok(items) => items,
            Err(e) => return Err(e),
        };
        match <[T; N]>::try_from(items) {
            Ok(array) => Ok(array),
            // `exactly` returns as many.
            Err(_) => unreachable!(),
        }
    }
}

impl<T: DeserializeOwned, const N: usize> DeserializeOwned for [T; N] {
    ghost use Rattle.cbor_model.specs.Readable.{untagged};
    ghost use Rattle.cbor_decode_as.specs.Arrays.{AreExactly, as_array_same, are_read_same};
    ghost use Rattle.cbor_decode_as.specs.Takes.{lending};

    ghost same = { λ f a b r v h. as_array_same
        (AreExactly (T.reads (lending f a)) N)
        (AreExactly (T.reads (lending f b)) N)
        (λ rs xs k. (
          are_read_same (T.reads (lending f a)) (T.reads (lending f b))
              (T.same f a b) rs xs k.0,
          k.1,
        ))
        (untagged r) v h };
}
