//! Taking the bytes of an item that keeps rules, which are looked at while they come.

ghost use Rattle.std.specs.Prelude.{◌≡◌, ◌+◌, ◌^◌, ◌<◌, ◌++◌, List, length, None, Some};
ghost use Rattle.std.specs.Prelude.{ℕ, IfErr, IfOk, OnOk};
ghost use Rattle.cbor_model.specs.Raw.{Raw, IsWellFormed};
ghost use Rattle.cbor_model.specs.Spelling.{spell};
ghost use Rattle.cbor_io.specs.Error.{IsOutOfMemory};
ghost use Rattle.cbor_decode.specs.Decoder.{SameSettings};
ghost use Rattle.cbor_raw.specs.Gathered.{GathersNone};
ghost use Rattle.cbor_rules.specs.Answers.{IfDeparts, IfUnread};
ghost use Rattle.cbor_rules.specs.NextItem.{departure_from};
ghost use Rattle.cbor_rules.specs.RawByRules.{AnswersNextRaw, GathersByRules, ShowsDeparture};
ghost use Rattle.cbor_rules.specs.Rules.{first_departure, only, under};

use crate::answers::{Departure, Refusal};
use crate::settings::Rules;
use crate::walk::first_departure;
use cbor_de::{Deserializer, Source, steps};
use cbor_pushed::Scan;
use cbor_value::raw_value::{RawValue, raw_value};
use std::alloc::Global;

/// Takes the next item without decoding it, from any source, if it keeps each of the rules: its
/// bytes, and none behind them. None where the input ends before it.
///
/// It takes the bytes one by one, as [`Deserializer::raw_item`] does, into memory that grows with
/// them, and goes over those that came by the rules whenever their number is a power of two. So what
/// departs, as an array, a map or a string that is too long, is refused before twice as many bytes
/// have come as show it: limits bound the memory that a peer can make a reader take. To go over them
/// takes memory only under `KeyOrder::Unique`, as
/// [`from_slice_checked`](crate::from_slice_checked) says.
///
/// A departure is told as by `from_slice_checked`, with an offset that counts from the beginning of
/// the input, whatever follows of the item: no acceptable item that keeps the rules begins with the
/// bytes that came. Of bytes that depart and, further on, are no item, either may be told. Other
/// refusals are those of `raw_item`.
///
/// What it returns is read by `from_slice`, as a `Value` or as a type that borrows:
///
/// ```rust
/// let limits = Rules { most_items: Some(2), most_bytes: Some(100), ..Rules::ANY };
/// // [1, "a"], and an array of 2^32 - 1 items
/// let socket: &[u8] = b"\x82\x01\x61a\x9a\xff\xff\xff\xff\0\0\0"; // or any other `io::Read`
/// let mut de = Deserializer::from_reader(alloc, socket);
/// let Ok(Some(item)) = next_raw_item(&mut de, limits) else {
///     return Err(Fail::from("no item"));
/// };
/// let message: (u8, &str) = from_slice(alloc, item.as_bytes())?;
/// assert_eq!(rt; message.1, "a");
/// let Err(Refusal::Departs(departure)) = next_raw_item(&mut de, limits) else {
///     return Err(Fail::from("2^32 - 1 items are more than two"));
/// };
/// assert_eq!(rt; departure, Departure { rule: Rule::MostItems, offset: 9 });
/// ```
pub fn next_raw_item<R: Source>(
    de: &mut Deserializer<R>,
    rules: Rules,
) -> Result<Option<RawValue>, Refusal>
    ensures answers { AnswersNextRaw R.refusals (only rules) de.old.decoder.levels
        (R.source de.old.decoder.source) (R.source de.new.decoder.source) result }
    ensures settings { SameSettings de.old.decoder de.new.decoder }
{
    next_raw_item_with_tags(de, rules, &[])
}

/// Takes the next item as [`next_raw_item`] does, but where the rules refuse tags these stand, as
/// for [`from_slice_with_tags`](crate::from_slice_with_tags).
///
/// ```rust
/// let rules = Rules { no_tags: true, ..Rules::ANY };
/// let mut de = Deserializer::from_slice(alloc, b"\xc1\x18\x64\xc2\x40");
/// let Ok(Some(time)) = next_raw_item_with_tags(&mut de, rules, &[0, 1]) else {
///     return Err(Fail::from("no time"));
/// };
/// assert_eq!(rt; time.as_bytes(), b"\xc1\x18\x64".as_slice());
/// assert!(rt; next_raw_item_with_tags(&mut de, rules, &[0, 1]).is_err());
/// ```
pub fn next_raw_item_with_tags<R: Source>(
    de: &mut Deserializer<R>,
    rules: Rules,
    tags: &[u64],
) -> Result<Option<RawValue>, Refusal>
    ensures answers { AnswersNextRaw R.refusals (under rules tags.now) de.old.decoder.levels
        (R.source de.old.decoder.source) (R.source de.new.decoder.source) result }
    ensures settings { SameSettings de.old.decoder de.new.decoder }
{
    match steps::peek(de) {
        Ok(Some(_)) => {}
        Ok(None) => return Ok(None),
        Err(refusal) => return Err(Refusal::Unread(steps::error_of(de, refusal))),
    }
    match item_by_rules(de, rules, tags) {
        Ok(bytes) => Ok(Some(raw_value(bytes))),
        Err(refusal) => Err(refusal),
    }
}

// The bytes of the item that is to come.
fn item_by_rules<R: Source>(
    de: &mut Deserializer<R>,
    rules: Rules,
    tags: &[u64],
) -> Result<Vec<u8>, Refusal>
    ensures found { IfOk result (λ v. GathersByRules (under rules tags.now) de.old.decoder.levels
        (R.source de.old.decoder.source) (R.source de.new.decoder.source) v.items) }
    ensures departed { IfErr result (IfDeparts (ShowsDeparture (under rules tags.now)
        de.old.decoder.levels (R.source de.old.decoder.source)
        (R.source de.new.decoder.source))) }
    ensures unread { IfErr result (IfUnread (GathersNone R.refusals de.old.decoder.levels
        (R.source de.old.decoder.source) (R.source de.new.decoder.source))) }
    ensures settings { SameSettings de.old.decoder de.new.decoder }
{
    let alloc = de.alloc();
    let start = steps::offset(de);
    let mut bytes = Vec::new(alloc);
    let mut scan = Scan::new(alloc);
    'bytes: loop {
        let is_whole = match steps::take_more(de, start, &mut bytes, &mut scan) {
            Ok(is_whole) => is_whole,
            Err(error) => return Err(Refusal::Unread(error)),
        };
        if is_whole || bytes.len().is_power_of_two() {
            match depart(alloc, rules, tags, &bytes, start) {
                Ok(()) => {}
                Err(refusal) => return Err(refusal),
            }
        }
        if is_whole {
            return Ok(bytes);
        }
    }
}

// Refuses bytes that depart, or whose item does, of which the first stands at this offset.
fn depart(
    alloc: Global,
    rules: Rules,
    tags: &[u64],
    bytes: &[u8],
    start: u64,
) -> Result<(), Refusal>
    requires { start + length bytes.now < 2 ^ 64 }
    ensures kept { OnOk result ((item : Raw) → IsWellFormed item → spell item ≡ bytes.now
        → first_departure (under rules tags.now) item ≡ None) }
    ensures shown { IfErr result (IfDeparts (λ d. (item : Raw) (more : List ℕ)
        → IsWellFormed item → spell item ≡ bytes.now ++ more
        → departure_from start (under rules tags.now) item ≡ Some d)) }
    ensures memory { IfErr result (IfUnread IsOutOfMemory) }
{
    match first_departure(alloc, rules, tags, bytes) {
        Ok(None) => Ok(()),
        Ok(Some(departure)) => Err(Refusal::Departs(Departure {
            rule: departure.rule,
            offset: start + departure.offset,
        })),
        Err(error) => Err(Refusal::Unread(error)),
    }
}
