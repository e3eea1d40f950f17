//! Reading a whole input by rules.

ghost use Rattle.cbor_de.specs.Whole.{from_slice_asks, from_slice_context};
ghost use Rattle.cbor_rules.specs.Answers.{AnswersByRules};
ghost use Rattle.cbor_rules.specs.Rules.{only, under};

use crate::answers::Refusal;
use crate::settings::Rules;
use crate::walk::first_departure;
use cbor_de::{Deserialize, from_slice};
use cbor_read::SliceRead;
use std::alloc::Global;

/// What the item is read as that the bytes encode, if they keep each of the rules.
///
/// It reads as `from_slice` does, and refuses what that refuses, with its error. An item that
/// departs from a rule is refused by its first departure: with the rule, and the offset after the
/// bytes that show it. That is after the head for a head that isn't the shortest and for a tag,
/// after the first byte of an indefinite length, after a float or an undefined, and after a key
/// that is not plain or may not follow the ones before it. An array, a map or a string that is too
/// long is refused after its head; in an indefinite length after the item or the key that is one
/// too many, and after the head of the chunk with which its bytes are too many. What is reported of
/// a head comes before what is reported of the key that it ends.
///
/// The rules are looked at once the item was read: a limit bounds what is kept, and not what reading
/// takes. [`from_slice_checked`](crate::from_slice_checked) looks at them first.
///
/// No memory is taken beyond that of `from_slice`, but under `KeyOrder::Unique` where some map in
/// the item has a pair: there each map's keys are kept while the map is gone through, as references
/// to their bytes, and a key that isn't encoded canonically as its value's canonical encoding, which
/// is no longer than the key, and for which the key is read as a `Value`. A key is compared with as
/// many as the logarithm of their number.
///
/// ```rust
/// let numbers: [u8; 2] = from_slice_with(alloc, &[0x82, 0x01, 0x02], Rules::DETERMINISTIC)?;
/// assert_eq!(rt; numbers, [1, 2]);
/// let bytes = &[0x81, 0x18, 0x17];
/// let Err(Refusal::Departs(departure)) =
///     from_slice_with::<Value>(alloc, bytes, Rules::CTAP2)
/// else {
///     return Err(Fail::from("18 17 is not the shortest"));
/// };
/// assert_eq!(rt; departure, Departure { rule: Rule::ShortestHeads, offset: 3 });
/// ```
pub fn from_slice_with<'a, T: Deserialize<'a, SliceRead<'a>>>(
    alloc: Global,
    slice: &'a [u8],
    rules: Rules,
) -> Result<T, Refusal>
    ensures answers { AnswersByRules T.passes_over T.total T.reports_faults T.wrong_forms
        (T.reads from_slice_context) (T.asks_memory from_slice_asks) (only rules) slice.now result }
{
    from_slice_with_tags(alloc, slice, rules, &[])
}

/// What the item is read as that the bytes encode, as by [`from_slice_with`], but where the rules
/// refuse tags these stand: each tag of the item is one of them.
///
/// Each tag is looked for in the list from its beginning.
///
/// ```rust
/// let rules = Rules { no_tags: true, ..Rules::CANONICAL };
/// let time: u64 = from_slice_with_tags(alloc, b"\xc1\x18\x64", rules, &[0, 1])?;
/// assert_eq!(rt; time, 100);
/// ```
pub fn from_slice_with_tags<'a, T: Deserialize<'a, SliceRead<'a>>>(
    alloc: Global,
    slice: &'a [u8],
    rules: Rules,
    tags: &[u64],
) -> Result<T, Refusal>
    ensures answers { AnswersByRules T.passes_over T.total T.reports_faults T.wrong_forms
        (T.reads from_slice_context) (T.asks_memory from_slice_asks) (under rules tags.now) slice.now result }
{
    let value = from_slice::<T>(alloc, slice)?;
    match first_departure(alloc, rules, tags, slice)? {
        Some(departure) => Err(Refusal::Departs(departure)),
        None => Ok(value),
    }
}
