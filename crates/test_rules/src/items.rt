//! Items one after the other, or before other bytes: the first examples of RFC 8949, Appendix A,
//! as a sequence (RFC 8742), and a key of COSE before what follows it.

use crate::checks::{error_of, has_departed, value_of};
use cbor_de::{Deserialize, IgnoredAny, SliceRead};
use cbor_rules::{Rule, RuledItems, Rules};
use cbor_value::Value;
use std::process::Abort;
use std::test::Fail;
use test_checks::Verdict;

/// What is asked of items, and what comes of it. A refusal takes nothing.
#[derive(Clone, Copy)]
enum Step<'a> {
    /// The next is this number, and ends at this offset.
    Number(i64, usize),
    /// The next is this text, and ends at this offset.
    Text(&'a str, usize),
    /// The next is passed over, and ends at this offset.
    Passes(usize),
    /// The next, as whichever type it is read, departs from this rule first, at this offset.
    Departs(Rule, u64),
    /// The next, which is a text, departs so.
    TextDeparts(Rule, u64),
    /// The next is an item, but no `u8` and no `bool`.
    Misfits,
    /// What follows is no item, which is reported at this offset.
    Faults(u64),
    /// So many bytes are taken.
    Taken(usize),
    /// No item is left.
    Ends,
}

use Step::{Departs, Ends, Faults, Misfits, Number, Passes, Taken, Text, TextDeparts};

/// The next item, and where it ends.
fn next<'a, T: Deserialize<'a, SliceRead<'a>>>(
    items: &mut RuledItems<'a, '_>,
) -> Result<(T, usize), Fail> {
    match value_of(items.next_item())? {
        Some(item) => Ok((item, items.byte_offset())),
        None => Err(Fail::from("no item")),
    }
}

/// The next item departs so, and nothing is taken.
fn departs_as<'a, T: Deserialize<'a, SliceRead<'a>>>(
    rt: &impl Abort,
    items: &mut RuledItems<'a, '_>,
    rule: Rule,
    offset: u64,
) -> Verdict {
    let before = items.byte_offset();
    has_departed(rt, items.next_item::<T>(), rule, offset)?;
    assert_eq!(rt; items.byte_offset(), before);
    Ok(())
}

fn departs(rt: &impl Abort, items: &mut RuledItems<'_, '_>, rule: Rule, offset: u64) -> Verdict {
    departs_as::<Value>(rt, items, rule, offset)?;
    departs_as::<IgnoredAny>(rt, items, rule, offset)
}

/// The next item isn't read, which is reported at this offset, and nothing is taken.
fn is_unread<'a, T: Deserialize<'a, SliceRead<'a>>>(
    rt: &impl Abort,
    items: &mut RuledItems<'a, '_>,
    offset: u64,
) -> Verdict {
    let before = items.byte_offset();
    let e = error_of(items.next_item::<T>())?;
    assert_eq!(rt; e.offset(), offset);
    assert_eq!(rt; items.byte_offset(), before);
    Ok(())
}

// A message has no offset.
fn misfits(rt: &impl Abort, items: &mut RuledItems<'_, '_>) -> Verdict {
    is_unread::<u8>(rt, items, 0)?;
    is_unread::<bool>(rt, items, 0)
}

fn ends(rt: &impl Abort, items: &mut RuledItems<'_, '_>) -> Verdict {
    assert!(rt; value_of(items.next_item::<Value>())?.is_none());
    Ok(())
}

/// Of these items comes what the steps say.
fn plays(rt: &impl Abort, items: &mut RuledItems<'_, '_>, steps: &[Step<'_>]) -> Verdict {
    for step in steps {
        match *step {
            Number(number, end) => assert!(rt; next::<i64>(items)? == (number, end)),
            Text(text, end) => assert!(rt; next::<&str>(items)? == (text, end)),
            Passes(end) => assert!(rt; next::<IgnoredAny>(items)?.1 == end),
            Departs(rule, offset) => departs(rt, items, rule, offset)?,
            TextDeparts(rule, offset) => departs_as::<&str>(rt, items, rule, offset)?,
            Misfits => misfits(rt, items)?,
            Faults(offset) => is_unread::<Value>(rt, items, offset)?,
            Taken(end) => assert!(rt; items.byte_offset() == end),
            Ends => ends(rt, items)?,
        }
    }
    Ok(())
}

// 1000, "IETF" and -1 (Appendix A)
const SEQUENCE: &[u8] = b"\x19\x03\xe8\x64IETF\x20";

#[test]
fn reads_a_sequence(rt: HostRuntime) -> Verdict {
    let mut items = RuledItems::new(rt.alloc(), SEQUENCE, Rules::DETERMINISTIC);
    let steps = [Number(1000, 3), Text("IETF", 8), Number(-1, 9), Ends];
    plays(&rt, &mut items, &steps)
}

// The same but "IETF", whose length takes a byte more than it has to: the departure is after the
// head, which 78 begins.
#[test]
fn reports_a_departure_from_the_beginning_of_all(rt: HostRuntime) -> Verdict {
    let bytes = b"\x19\x03\xe8\x78\x04IETF\x20";
    let mut items = RuledItems::new(rt.alloc(), bytes, Rules::CTAP2);
    let rule = Rule::ShortestHeads;
    let steps = [
        Number(1000, 3),
        TextDeparts(rule, 5),
        Departs(rule, 5),
        Taken(3),
    ];
    plays(&rt, &mut items, &steps)
}

#[test]
fn reads_as_another_type_what_was_refused(rt: HostRuntime) -> Verdict {
    let mut items = RuledItems::new(rt.alloc(), SEQUENCE, Rules::DETERMINISTIC);
    let steps = [Misfits, Number(1000, 3), Misfits, Passes(8), Number(-1, 9)];
    plays(&rt, &mut items, &steps)
}

// The key of an elliptic curve (RFC 9052, Appendix C.7.1, without its `kid`), cut to points of two
// bytes: {1: 2, -1: 1, -2: h'65ed', -3: h'1e52'}. Behind it stand a break, and a byte that the
// format doesn't assign.
const KEY: &[u8] = b"\xa4\x01\x02\x20\x01\x21\x42\x65\xed\x22\x42\x1e\x52\xff\xfc";

#[test]
fn leaves_what_follows_an_item(rt: HostRuntime) -> Verdict {
    let mut items = RuledItems::new(rt.alloc(), KEY, Rules::CTAP2);
    plays(&rt, &mut items, &[Passes(13), Faults(14), Taken(13)])?;
    // cut off, at the end of the bytes
    let mut items = RuledItems::new(rt.alloc(), &KEY[..12], Rules::CTAP2);
    plays(&rt, &mut items, &[Faults(12), Taken(0)])
}

#[test]
fn refuses_no_bytes_as_none(rt: HostRuntime) -> Verdict {
    let mut items = RuledItems::new(rt.alloc(), b"", Rules::ANY);
    plays(&rt, &mut items, &[Ends, Taken(0)])
}

// Keys that may stand in any order are told apart in each item by itself: {2: 0, 1: 0}, {1: 0} and
// {1: 0, 1: 0}.
#[test]
fn begins_keys_anew(rt: HostRuntime) -> Verdict {
    let bytes = b"\xa2\x02\0\x01\0\xa1\x01\0\xa2\x01\0\x01\0";
    let mut items = RuledItems::new(rt.alloc(), bytes, Rules::UNIQUE_KEYS);
    let steps = [Passes(5), Passes(8), Departs(Rule::UniqueKeys, 12)];
    plays(&rt, &mut items, &steps)
}

const NO_TAGS: Rules = Rules {
    no_tags: true,
    ..Rules::ANY
};

// 1(1363896240) and 32("http://www.example.com") (Appendix A)
const TAGGED: &[u8] = b"\xc1\x1a\x51\x4b\x67\xb0\xd8\x20\x76http://www.example.com";

#[test]
fn reads_tags_of_the_list_alone(rt: HostRuntime) -> Verdict {
    let mut items = RuledItems::with_tags(rt.alloc(), TAGGED, NO_TAGS, &[0, 1]);
    let steps = [Number(1_363_896_240, 6), TextDeparts(Rule::NoTags, 8)];
    plays(&rt, &mut items, &steps)?;
    let mut items = RuledItems::new(rt.alloc(), TAGGED, NO_TAGS);
    plays(&rt, &mut items, &[Departs(Rule::NoTags, 1)])
}
