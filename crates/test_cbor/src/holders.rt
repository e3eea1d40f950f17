//! What holds another value: a box, and a text that is lent or owned, written and read; and what is
//! lent, which is written alone.

use crate::checks::{is_unread, is_written};
use samples::structs::SmallStruct;
use serde_cbor::ser::Items;
use serde_cbor::{from_reader, from_slice};
use std::alloc::Global;
use std::borrow::CowStr;
use std::process::Abort;
use test_checks::{Verdict, is_refused};

fn boxed(alloc: Global, bytes: &[u8]) -> serde_cbor::Result<Box<u8>> {
    from_slice(alloc, bytes)
}

#[test]
fn a_box_is_what_it_holds(rt: HostRuntime) -> Verdict {
    let alloc = rt.alloc();
    let number = boxed(alloc, b"\x18\x2a")?;
    assert!(&rt; *number == 42);
    is_written(&rt, alloc, &number, b"\x18\x2a")?;
    is_refused(boxed(alloc, b"\xf4"), "invalid type: expected an integer")
}

#[test]
fn a_list_holds_boxes(rt: HostRuntime) -> Verdict {
    let alloc = rt.alloc();
    let texts: Vec<Box<String>> = from_reader(alloc, b"\x81\x62hi".as_slice())?;
    is_written(&rt, alloc, &texts, b"\x81\x62hi")
}

#[test]
fn what_is_lent_is_written_as_what_it_is(rt: HostRuntime) -> Verdict {
    let alloc = rt.alloc();
    let number = 500u16;
    is_written(&rt, alloc, &&number, b"\x19\x01\xf4")?;
    let small = SmallStruct { spam: 17, eggs: 42 };
    let bytes = b"\x82\xa2\x64spam\x11\x64eggs\x18\x2a\x01";
    is_written(&rt, alloc, &(&small, 1u8), bytes)
}

#[test]
fn items_are_written_as_an_array(rt: HostRuntime) -> Verdict {
    let alloc = rt.alloc();
    for (items, bytes) in [
        ([1, 500].as_slice(), b"\x82\x01\x19\x01\xf4".as_slice()),
        (&[], b"\x80"),
    ] {
        is_written::<Items<u16>>(&rt, alloc, &Items(items), bytes)?;
    }
    Ok(())
}

/// The bytes are read as the text "abc", which is lent or not, and written shortest.
fn is_abc(rt: &impl Abort, alloc: Global, bytes: &[u8], is_lent: bool) -> Verdict {
    let text: CowStr<'_> = from_slice(alloc, bytes)?;
    assert!(rt; matches!(&text, CowStr::Borrowed(_)) == is_lent);
    assert!(rt; text.as_str() == "abc");
    is_written(rt, alloc, &text, b"\x63abc")
}

#[test]
fn a_text_is_lent_where_it_stands(rt: HostRuntime) -> Verdict {
    is_abc(&rt, rt.alloc(), b"\x63abc", true)?;
    is_unread::<CowStr<'_>>(rt.alloc(), b"\x01", "invalid type: expected a string")
}

#[test]
fn a_text_in_chunks_is_owned(rt: HostRuntime) -> Verdict {
    is_abc(&rt, rt.alloc(), b"\x7f\x62ab\x61c\xff", false)
}
