// Items that follow one another, and readers that never end.

use crate::checks::is_refused_at;
use crate::devices::{Failing, is_its_fault};
use cbor_serde::{Error, Options, Result as Answer, Stream, from_reader};
use serde::DeserializeOwned;
use std::alloc::Global;
use std::io;
use std::process::Abort;
use test_checks::{Verdict, is_refused};

// Whether the type refuses the item; its message takes memory.
fn does_not_fit(error: &Error) -> bool {
    error.is_data() || error.is_memory()
}

// A refusal with these words is next, and then nothing.
fn ends_by<R: io::Read + Drop, T: DeserializeOwned>(
    rt: &impl Abort,
    items: &mut Stream<R, T>,
    words: &str,
) -> Verdict {
    is_refused(items.next().ok_or("none")?, words)?;
    ends(rt, items);
    Ok(())
}

// Nothing is next.
fn ends<R: io::Read + Drop, T: DeserializeOwned>(rt: &impl Abort, items: &mut Stream<R, T>) {
    assert!(rt; items.next().is_none());
}

// RFC 7049, Appendix A: [1, 2, 3], [] and "IETF".
#[test]
fn gives_items_one_by_one(rt: HostRuntime) -> Verdict {
    let mut items = Stream::<_, Vec<u8>>::new(rt.alloc(), b"\x83\x01\x02\x03\x80".as_slice());
    assert_eq!(rt;
        items.next().ok_or("none")??.as_slice(),
        [1, 2, 3].as_slice()
    );
    assert!(rt; items.next().ok_or("none")??.is_empty());
    ends(&rt, &mut items);
    ends(&rt, &mut items);
    Ok(())
}

#[test]
fn ends_at_a_fault(rt: HostRuntime) -> Verdict {
    let mut cut = Stream::<_, String>::new(rt.alloc(), b"\x64IETF\x64IE".as_slice());
    assert_eq!(rt; cut.next().ok_or("none")??.as_str(), "IETF");
    ends_by(&rt, &mut cut, "EOF while parsing a value at offset 3")?;
    let flat = Options::new().nesting_limit(0);
    let mut deep = Stream::<_, Vec<u8>>::with_options(flat, rt.alloc(), b"\x80".as_slice());
    ends_by(&rt, &mut deep, "recursion limit exceeded at offset 1")
}

#[test]
fn ends_at_another_type(rt: HostRuntime) -> Verdict {
    let mut other = Stream::<_, u8>::new(rt.alloc(), b"\x64IETF\x01".as_slice());
    assert!(rt; matches!(other.next(), Some(Err(error)) if does_not_fit(&error)));
    ends(&rt, &mut other);
    Ok(())
}

#[test]
fn reports_a_fault_of_the_reader(rt: HostRuntime) -> Verdict {
    let mut items = Stream::<_, u8>::new(rt.alloc(), Failing { given: false });
    is_its_fault(&rt, items.next().ok_or("none")?)?;
    ends(&rt, &mut items);
    Ok(())
}

// It gives one byte without end.
#[derive(Drop)]
struct Endless(u8);

impl io::Read for Endless {
    fn read(&mut self, buf: &mut [u8]) -> io::Result<usize> {
        for byte in buf.iter_mut() {
            *byte = self.0;
        }
        Ok(buf.len())
    }
}

fn of_endless(alloc: Global, byte: u8) -> Answer<u8> {
    from_reader(alloc, Endless(byte))
}

const ENDLESS: &[(u8, &str)] = &[
    (1, "trailing data at offset 2"),
    (0x81, "recursion limit exceeded at offset 128"),
];

#[test]
fn takes_no_more_than_the_item(rt: HostRuntime) -> Verdict {
    for (row, (byte, words)) in ENDLESS.iter().enumerate() {
        is_refused_at(row, of_endless(rt.alloc(), *byte), words)?;
    }
    Ok(())
}

#[test]
fn takes_no_more_than_each_item(rt: HostRuntime) -> Verdict {
    let mut ones = Stream::<_, u8>::new(rt.alloc(), Endless(1));
    assert_eq!(rt; ones.next().ok_or("none")??, 1);
    assert_eq!(rt; ones.next().ok_or("none")??, 1);
    Ok(())
}

// What a type refuses stands before the fault in it.
#[test]
fn refuses_by_what_comes_first(rt: HostRuntime) -> Verdict {
    let text: &[u8] = b"\x82\x61a\x62\xc3\x28";
    assert!(rt;
        matches!(from_reader::<_, (u8, u8)>(rt.alloc(), text), Err(error) if does_not_fit(&error))
    );
    is_refused(
        from_reader::<_, (String, String)>(rt.alloc(), text),
        "invalid UTF-8 at offset 4",
    )
}
