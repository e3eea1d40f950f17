//! Items of any source, each read as a type once its bytes keep the rules.

use crate::checks::{error_of, has_departed, value_of};
use crate::readers::{Endless, Failing};
use cbor_de::{Offset, SliceRead, Source};
use cbor_rules::{Rule, RuledStream, Rules};
use cbor_value::Value;
use std::alloc::Global;
use std::process::Abort;
use test_checks::{Verdict, is_refused};

/// What is asked of items, and what comes of it.
#[derive(Clone, Copy)]
enum Step<'a> {
    /// The next is this number.
    Number(i64),
    /// The next is this text.
    Text(&'a str),
    /// The next departs from this rule first, at this offset.
    Departs(Rule, u64),
    /// The next isn't read as any item, for this reason.
    Faults(&'a str),
    /// The next isn't read as a pair, for this reason.
    Misfits(&'a str),
    /// So many bytes are taken.
    Taken(usize),
    /// No item is given any more.
    Ends,
}

use Step::{Departs, Ends, Faults, Misfits, Number, Taken, Text};

fn is_number<R: Source>(rt: &impl Abort, items: &mut RuledStream<'_, R>, number: i64) -> Verdict {
    let item: Option<i64> = value_of(items.next_item())?;
    assert!(rt; item == Some(number));
    Ok(())
}

fn is_text<R: Source>(rt: &impl Abort, items: &mut RuledStream<'_, R>, text: &str) -> Verdict {
    let item: Option<String> = value_of(items.next_item())?;
    assert!(rt; matches!(&item, Some(it) if it.as_str() == text));
    Ok(())
}

fn departs<R: Source>(
    rt: &impl Abort,
    items: &mut RuledStream<'_, R>,
    rule: Rule,
    offset: u64,
) -> Verdict {
    has_departed(rt, items.next_item::<Value>(), rule, offset)
}

fn faults<R: Source>(items: &mut RuledStream<'_, R>, words: &str) -> Verdict {
    let e = error_of(items.next_item::<Value>())?;
    is_refused::<()>(Err(e), words)
}

fn misfits<R: Source>(items: &mut RuledStream<'_, R>, words: &str) -> Verdict {
    let e = error_of(items.next_item::<(u8, u8)>())?;
    is_refused::<()>(Err(e), words)
}

fn ends<R: Source>(rt: &impl Abort, items: &mut RuledStream<'_, R>) -> Verdict {
    assert!(rt; value_of(items.next_item::<Value>())?.is_none());
    Ok(())
}

/// Of these items comes what the steps say.
fn plays<R: Source + Offset>(
    rt: &impl Abort,
    items: &mut RuledStream<'_, R>,
    steps: &[Step<'_>],
) -> Verdict {
    for step in steps {
        match *step {
            Number(number) => is_number(rt, items, number)?,
            Text(text) => is_text(rt, items, text)?,
            Departs(rule, offset) => departs(rt, items, rule, offset)?,
            Faults(words) => faults(items, words)?,
            Misfits(words) => misfits(items, words)?,
            Taken(end) => assert!(rt; items.byte_offset() == end),
            Ends => ends(rt, items)?,
        }
    }
    Ok(())
}

/// From a reader of these bytes comes what the steps say.
fn gives(
    rt: &impl Abort,
    alloc: Global,
    bytes: &[u8],
    rules: Rules,
    steps: &[Step<'_>],
) -> Verdict {
    plays(
        rt,
        &mut RuledStream::from_reader(alloc, bytes, rules),
        steps,
    )
}

// 1000, "IETF" and -1 (RFC 8949, Appendix A)
#[test]
fn reads_items_of_a_reader(rt: HostRuntime) -> Verdict {
    let bytes = b"\x19\x03\xe8\x64IETF\x20";
    let steps = [Number(1000), Text("IETF"), Taken(8), Number(-1), Ends, Ends];
    gives(&rt, rt.alloc(), bytes, Rules::DETERMINISTIC, &steps)
}

// The same, with a head for "IETF" that isn't the shortest.
#[test]
fn ends_with_a_departure(rt: HostRuntime) -> Verdict {
    let alloc = rt.alloc();
    let source = SliceRead::new(alloc, b"\x19\x03\xe8\x78\x04IETF\x20");
    let mut items = RuledStream::new(alloc, source, Rules::CTAP2);
    let steps = [Number(1000), Departs(Rule::ShortestHeads, 5), Ends];
    plays(&rt, &mut items, &steps)
}

// Offsets count from the beginning of the input: of bytes that are no item, and of an array that has
// one item more than the type reads. A message has none.
#[test]
fn ends_with_what_is_not_read(rt: HostRuntime) -> Verdict {
    let alloc = rt.alloc();
    let faulty = b"\x01\x82\x01\x1c";
    let steps = [Number(1), Faults("unassigned type at offset 4"), Ends];
    gives(&rt, alloc, faulty, Rules::CANONICAL, &steps)?;
    let long = b"\x01\x83\x01\x02\x03\x04";
    let steps = [
        Number(1),
        Misfits("trailing data at offset 4"),
        Taken(5),
        Ends,
    ];
    gives(&rt, alloc, long, Rules::CANONICAL, &steps)
}

// A tag that stands, and one that doesn't.
#[test]
fn takes_tags_that_stand(rt: HostRuntime) -> Verdict {
    let alloc = rt.alloc();
    let source = SliceRead::new(alloc, b"\xc1\x1a\x51\x4b\x67\xb0\xc2\x40");
    let mut items = RuledStream::with_tags(alloc, source, Rules::CTAP2, &[0, 1]);
    let steps = [Number(1_363_896_240), Departs(Rule::NoTags, 7), Ends];
    plays(&rt, &mut items, &steps)
}

// What came whole is given, before the byte after it is asked for. A fault is told once.
#[test]
fn gives_what_comes_before_a_fault(rt: HostRuntime) -> Verdict {
    let reader = Failing {
        bytes: b"\x01\x18\x2a",
    };
    let mut items = RuledStream::from_reader(rt.alloc(), reader, Rules::CANONICAL);
    let steps = [Number(1), Number(42), Faults("I/O error"), Ends, Taken(3)];
    plays(&rt, &mut items, &steps)
}

const LIMITS: Rules = Rules {
    most_items: Some(2),
    ..Rules::ANY
};

// A peer that never ends: an array of at most two items is refused with its third, byte 5 of all.
#[test]
fn refuses_an_endless_array(rt: HostRuntime) -> Verdict {
    let peer = Endless {
        bytes: b"\x01\x9f\x01\x02\x03",
        given: 0,
    };
    let mut items = RuledStream::from_reader(rt.alloc(), peer, LIMITS);
    let steps = [Number(1), Departs(Rule::MostItems, 5), Taken(5), Ends];
    plays(&rt, &mut items, &steps)
}
