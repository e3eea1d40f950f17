// What types of one's own send.

use crate::checks::{is_refused_at, is_written};
use cbor_serde::to_vec;
use serde::{Described, Serialize, Serializer};
use test_checks::{Verdict, is_refused};

// What a type sends of itself.
#[derive(Clone, Copy)]
enum Call {
    True,
    Array(Option<usize>),
    EndArray,
    Map(Option<usize>),
    Key(&'static str),
    EndMap,
    /// A number that is printed, as a text.
    Printed(u8),
    /// A number, and what comes of it is passed over.
    TriesNumber(u128),
    /// An array's end, and what comes of it is passed over.
    TriesEndArray,
}

fn send<S: Serializer>(call: Call, out: &mut S) -> Result<(), S::Error> {
    match call {
        Call::True => out.bool(true),
        Call::Array(len) => out.begin_seq(len),
        Call::EndArray => out.end_seq(),
        Call::Map(len) => out.begin_map(len),
        Call::Key(name) => out.key(name),
        Call::EndMap => out.end_map(),
        Call::Printed(number) => out.collect_str(&number),
        Call::TriesNumber(number) => {
            let _ = out.u128(number);
            Ok(())
        }
        Call::TriesEndArray => {
            let _ = out.end_seq();
            Ok(())
        }
    }
}

// It sends these, up to the first that is refused.
#[derive(Clone, Copy)]
struct Script(&'static [Call]);

impl Described for Script {}

impl Serialize for Script {
    fn serialize<S: Serializer>(&self, out: &mut S) -> Result<(), S::Error> {
        for call in self.0 {
            send(*call, out)?;
        }
        Ok(())
    }
}

// An array of a declared length, one without, and a text that is printed.
const SENT: &[(&[Call], &[u8])] = &[
    (
        &[Call::Array(Some(1)), Call::True, Call::EndArray],
        b"\x81\xf5",
    ),
    (
        &[Call::Array(None), Call::True, Call::EndArray],
        b"\x9f\xf5\xff",
    ),
    (&[Call::Printed(42)], b"\x6242"),
];

#[test]
fn writes_what_is_sent(rt: HostRuntime) -> Verdict {
    for (calls, bytes) in SENT {
        is_written(&rt, rt.alloc(), &Script(*calls), bytes)?;
    }
    Ok(())
}

const MORE: &str = "more items than the length that was declared";

const FEWER: &str = "fewer items than the length that was declared";

// Of arrays an item too many and one too few, and one that is left open; of a map a key without its
// value; two items, and none; and what goes on after a number that is refused, and after the end
// of an array that lacks its item, of which nothing is left open.
const REFUSED: &[(&[Call], &str)] = &[
    (
        &[Call::Array(Some(1)), Call::True, Call::True, Call::EndArray],
        MORE,
    ),
    (&[Call::Array(Some(2)), Call::True, Call::EndArray], FEWER),
    (
        &[Call::Array(Some(1)), Call::True],
        "no whole item was written",
    ),
    (&[Call::Map(None), Call::Key("a"), Call::EndMap], FEWER),
    (&[Call::True, Call::True], MORE),
    (&[], "no whole item was written"),
    (&[Call::TriesNumber(1 << 64), Call::True], MORE),
    (
        &[
            Call::Array(Some(1)),
            Call::TriesEndArray,
            Call::True,
            Call::EndArray,
        ],
        "a step was refused",
    ),
];

#[test]
fn wants_one_whole_item(rt: HostRuntime) -> Verdict {
    for (row, (calls, words)) in REFUSED.iter().enumerate() {
        is_refused_at(row, to_vec(rt.alloc(), &Script(*calls)), words)?;
    }
    Ok(())
}

// Empty arrays, so many inside one another.
#[derive(Clone, Copy)]
struct Nest(usize);

impl Described for Nest {}

impl Serialize for Nest {
    fn serialize<S: Serializer>(&self, out: &mut S) -> Result<(), S::Error> {
        for level in 0..self.0 {
            let len = if level + 1 < self.0 { 1 } else { 0 };
            out.begin_seq(Some(len))?;
        }
        for _ in 0..self.0 {
            out.end_seq()?;
        }
        Ok(())
    }
}

#[test]
fn refuses_a_level_too_many(rt: HostRuntime) -> Verdict {
    let alloc = rt.alloc();
    let bytes = to_vec(alloc, &Nest(127))?;
    assert_eq!(rt; bytes.len(), 127);
    assert_eq!(rt; bytes.first(), Some(&0x81));
    assert_eq!(rt; bytes.last(), Some(&0x80));
    is_refused(
        to_vec(alloc, &Nest(128)),
        "recursion limit exceeded at offset 128",
    )
}
