//! Reading a whole input once its bytes were gone over by the rules.

ghost use Rattle.cbor_de.specs.Whole.{from_slice_asks, from_slice_context};
ghost use Rattle.cbor_rules.specs.Checked.{AnswersChecked};
ghost use Rattle.cbor_rules.specs.Rules.{only, under};

use crate::answers::Refusal;
use crate::from::from_slice_with_tags;
use crate::settings::Rules;
use cbor_de::{Deserialize, IgnoredAny, from_slice};
use cbor_read::SliceRead;
use std::alloc::Global;

/// What the item is read as that the bytes encode, if they keep each of the rules, where nothing is
/// read as a `T` before that is known.
///
/// It gives what [`from_slice_with`](crate::from_slice_with) gives, at the cost of going over the
/// bytes twice before they are read: once for an acceptable item, and once for its first departure.
/// What it refuses it refuses so, in this order:
/// - bytes that encode no acceptable item, whatever the type, by `Refusal::Unread` with the first
///   refusal that they allow, as [`from_slice`] refuses them for a `Value`;
/// - an item that departs from a rule, whatever the type, by `Refusal::Departs` with its first
///   departure, as `from_slice_with` reports it;
/// - an item that keeps the rules and isn't read as a `T`, by `Refusal::Unread` with the error of
///   `from_slice`.
///
/// So no memory is taken for the value of an item that departs. To go over the bytes takes memory
/// where a string is in chunks, to join them, and under `KeyOrder::Unique` where some map has a
/// pair, as `from_slice_with` says; and none for another item, however long.
///
/// ```rust
/// let limits = Rules { most_items: Some(2), ..Rules::ANY };
/// let numbers: Vec<u8> = from_slice_checked(alloc, b"\x82\x01\x02", limits)?;
/// assert_eq!(rt; numbers.len(), 2);
/// let Err(Refusal::Departs(departure)) =
///     from_slice_checked::<Vec<u8>>(alloc, b"\x83\x01\x02\x03", limits)
/// else {
///     return Err(Fail::from("three items are more than two"));
/// };
/// assert_eq!(rt; departure, Departure { rule: Rule::MostItems, offset: 1 });
/// ```
pub fn from_slice_checked<'a, T: Deserialize<'a, SliceRead<'a>>>(
    alloc: Global,
    slice: &'a [u8],
    rules: Rules,
) -> Result<T, Refusal>
    ensures answers { AnswersChecked T.passes_over T.total T.reports_faults T.wrong_forms
        (T.reads from_slice_context) (T.asks_memory from_slice_asks) (only rules) slice.now result }
{
    from_slice_checked_with_tags(alloc, slice, rules, &[])
}

/// What the item is read as that the bytes encode, as by [`from_slice_checked`], but where the rules
/// refuse tags these stand: each tag of the item is one of them.
///
/// ```rust
/// let rules = Rules { no_tags: true, most_items: Some(2), ..Rules::ANY };
/// let times: Vec<u64> = from_slice_checked_with_tags(alloc, b"\x81\xc1\x18\x64", rules, &[1])?;
/// assert_eq!(rt; times.as_slice(), [100].as_slice());
/// ```
pub fn from_slice_checked_with_tags<'a, T: Deserialize<'a, SliceRead<'a>>>(
    alloc: Global,
    slice: &'a [u8],
    rules: Rules,
    tags: &[u64],
) -> Result<T, Refusal>
    ensures answers { AnswersChecked T.passes_over T.total T.reports_faults T.wrong_forms
        (T.reads from_slice_context) (T.asks_memory from_slice_asks) (under rules tags.now) slice.now result }
{
    from_slice_with_tags::<IgnoredAny>(alloc, slice, rules, tags)?;
    let value = from_slice::<T>(alloc, slice)?;
    Ok(value)
}
