//! The bounds of the well-formed sequences (the Unicode Standard, table 3-7).

use cbor_io::utf8::from_utf8;
use test_checks::Verdict;

#[test]
fn first_and_last_characters_of_each_length(rt: HostRuntime) -> Verdict {
    for text in [
        b"\x00\x7f\xc2\x80\xdf\xbf".as_slice(),
        b"\xe0\xa0\x80\xed\x9f\xbf".as_slice(),
        b"\xee\x80\x80\xef\xbf\xbf".as_slice(),
        b"\xf0\x90\x80\x80\xf4\x8f\xbf\xbf".as_slice(),
    ] {
        assert_eq!(rt; from_utf8(text)?.len(), text.len());
    }
    Ok(())
}

/// How many bytes at the front are text, where not all are.
fn valid_up_to(bytes: &[u8]) -> Option<usize> {
    match from_utf8(bytes) {
        Ok(_) => None,
        Err(e) => Some(e.valid_up_to()),
    }
}

#[test]
fn bytes_just_outside(rt: HostRuntime) {
    let faults = [
        b"\x80   ",
        b"\xbf   ",
        b"\xc1\xbf  ",
        b"\xc2\x7f  ",
        b"\xdf\xc0  ",
        b"\xe0\x9f\xbf ",
        b"\xed\xa0\x80 ",
        b"\xf0\x8f\xbf\xbf",
        b"\xf4\x90\x80\x80",
        b"\xf5\x80\x80\x80",
    ];
    for fault in faults {
        assert_eq!(rt; valid_up_to(fault.as_slice()), Some(0));
    }
}

#[test]
fn the_front_that_is_text(rt: HostRuntime) {
    let cut = b"sixteen bytes at first, and then \xe2\x82";
    assert_eq!(rt; valid_up_to(cut), Some(33));
}
