//! A stream that goes on after a message of the wrong type: each item is read as a `Value`, and
//! that as the message.

use serde_cbor::de::SliceRead;
use serde_cbor::stream::StreamDeserializer;
use serde_cbor::value::from_value;
use serde_cbor::{Deserializer, Value};
use std::alloc::Global;
use std::process::Abort;
use std::test::Fail;
use test_checks::{Verdict, is_refused};

type Stream<'a> = StreamDeserializer<'a, SliceRead<'a>, Value>;

/// The next item, which ends at this offset.
fn next_item(rt: &impl Abort, stream: &mut Stream<'_>, end: usize) -> Result<Value, Fail> {
    let item = stream.next().ok_or("none")??;
    assert!(rt; stream.byte_offset() == end);
    Ok(item)
}

/// The next item is this message, or none.
fn gives(
    rt: &impl Abort,
    alloc: Global,
    stream: &mut Stream<'_>,
    end: usize,
    message: Option<u8>,
) -> Verdict {
    let answer = from_value::<u8>(alloc, next_item(rt, stream, end)?);
    match message {
        Some(number) => {
            assert!(rt; answer? == number);
            Ok(())
        }
        None => is_refused(answer, "invalid type: expected an integer"),
    }
}

/// The stream ends with this refusal.
fn ends(rt: &impl Abort, stream: &mut Stream<'_>, words: &str) -> Verdict {
    is_refused(stream.next().ok_or("none")?, words)?;
    assert!(rt; stream.next().is_none());
    Ok(())
}

// 1, then ["a"] and "b", then 42, and a break that no item begins with; and where each ends.
#[test]
fn goes_on_after_another_type(rt: HostRuntime) -> Verdict {
    let bytes = b"\x01\x81\x61a\x61b\x18\x2a\xff";
    let mut stream = Deserializer::from_slice(rt.alloc(), bytes).into_iter();
    for (end, message) in [(1, Some(1)), (4, None), (6, None), (8, Some(42))] {
        gives(&rt, rt.alloc(), &mut stream, end, message)?;
    }
    ends(&rt, &mut stream, "unexpected code at offset 9")
}
