//! Items in pieces: the examples of RFC 8949, Appendix A, and sequences of them (RFC 8742).

use crate::checks::{comes_singly, gives, is_followed, waits};
use cbor_pushed::PushedItems;
use test_checks::Verdict;

#[test]
fn numbers_and_simple_values_come_byte_by_byte(rt: HostRuntime) -> Verdict {
    let rows: [&[u8]; 16] = [
        b"\0".as_slice(),
        b"\x17".as_slice(),
        b"\x18\x18".as_slice(),
        b"\x19\x03\xe8".as_slice(),
        b"\x1a\0\x0f\x42\x40".as_slice(),
        b"\x1b\0\0\0\xe8\xd4\xa5\x10\0".as_slice(),
        b"\x1b\xff\xff\xff\xff\xff\xff\xff\xff".as_slice(),
        b"\x20".as_slice(),
        b"\x3b\xff\xff\xff\xff\xff\xff\xff\xff".as_slice(),
        b"\x39\x03\xe7".as_slice(),
        b"\xf9\x3e\0".as_slice(),
        b"\xfa\x47\xc3\x50\0".as_slice(),
        b"\xfb\x3f\xf1\x99\x99\x99\x99\x99\x9a".as_slice(),
        b"\xf4".as_slice(),
        b"\xf6".as_slice(),
        b"\xf7".as_slice(),
    ];
    for item in rows {
        comes_singly(&rt, rt.alloc(), item)?;
        is_followed(&rt, rt.alloc(), item)?;
    }
    Ok(())
}

#[test]
fn strings_and_tags_come_byte_by_byte(rt: HostRuntime) -> Verdict {
    let rows: [&[u8]; 14] = [
        b"\x40".as_slice(),
        b"\x44\x01\x02\x03\x04".as_slice(),
        b"\x60".as_slice(),
        b"\x64IETF".as_slice(),
        b"\x62\xc3\xbc".as_slice(),
        b"\x64\xf0\x90\x85\x91".as_slice(),
        b"\x5f\x42\x01\x02\x43\x03\x04\x05\xff".as_slice(),
        b"\x7f\x65strea\x64ming\xff".as_slice(),
        b"\x5f\xff".as_slice(),
        b"\x7f\xff".as_slice(),
        b"\xc1\x1a\x51\x4b\x67\xb0".as_slice(),
        b"\xd7\x44\x01\x02\x03\x04".as_slice(),
        b"\xd8\x18\x45\x64IETF".as_slice(),
        b"\xc2\x49\x01\0\0\0\0\0\0\0\0".as_slice(),
    ];
    for item in rows {
        comes_singly(&rt, rt.alloc(), item)?;
        is_followed(&rt, rt.alloc(), item)?;
    }
    Ok(())
}

#[test]
fn arrays_and_maps_come_byte_by_byte(rt: HostRuntime) -> Verdict {
    let rows: [&[u8]; 15] = [
        b"\x80".as_slice(),
        b"\x83\x01\x02\x03".as_slice(),
        b"\x83\x01\x82\x02\x03\x82\x04\x05".as_slice(),
        b"\xa0".as_slice(),
        b"\xa2\x01\x02\x03\x04".as_slice(),
        b"\xa2\x61a\x01\x61b\x82\x02\x03".as_slice(),
        b"\x82\x61a\xa1\x61b\x61c".as_slice(),
        b"\xa5\x61a\x61A\x61b\x61B\x61c\x61C\x61d\x61D\x61e\x61E".as_slice(),
        b"\x9f\xff".as_slice(),
        b"\x9f\x01\x82\x02\x03\x9f\x04\x05\xff\xff".as_slice(),
        b"\x83\x01\x9f\x02\x03\xff\x82\x04\x05".as_slice(),
        b"\xbf\xff".as_slice(),
        b"\xbf\x61a\x01\x61b\x9f\x02\x03\xff\xff".as_slice(),
        b"\x82\x61a\xbf\x61b\x61c\xff".as_slice(),
        b"\xbf\x63Fun\xf5\x63Amt\x21\xff".as_slice(),
    ];
    for item in rows {
        comes_singly(&rt, rt.alloc(), item)?;
        is_followed(&rt, rt.alloc(), item)?;
    }
    Ok(())
}

// 1000, "IETF" in chunks and [1, 2], from one piece, and a fourth item that begins in it
#[test]
fn one_piece_has_several_items(rt: HostRuntime) -> Verdict {
    let mut items = PushedItems::new(rt.alloc());
    items.push(b"\x19\x03\xe8\x7f\x62IE\x62TF\xff\x82\x01\x02\xa1")?;
    gives(&rt, &mut items, b"\x19\x03\xe8")?;
    gives(&rt, &mut items, b"\x7f\x62IE\x62TF\xff")?;
    gives(&rt, &mut items, b"\x82\x01\x02")?;
    waits(&mut items)?;
    assert!(rt; items.bytes() == b"\xa1".as_slice());
    items.push(b"\x01\x20\x05")?;
    gives(&rt, &mut items, b"\xa1\x01\x20")?;
    gives(&rt, &mut items, b"\x05")?;
    waits(&mut items)?;
    assert!(rt; items.bytes().is_empty());
    Ok(())
}

// [1000, "IETF", h'0102'], cut within a head, a text, and a chunk and its head
#[test]
fn pieces_end_anywhere(rt: HostRuntime) -> Verdict {
    let mut items = PushedItems::new(rt.alloc());
    items.push(b"\x83\x19\x03")?;
    waits(&mut items)?;
    items.push(b"\xe8\x64IE")?;
    waits(&mut items)?;
    items.push(b"")?;
    waits(&mut items)?;
    items.push(b"TF\x5f\x58")?;
    waits(&mut items)?;
    items.push(b"\x02\x01")?;
    waits(&mut items)?;
    items.push(b"\x02")?;
    waits(&mut items)?;
    items.push(b"\xff\xff")?;
    gives(
        &rt,
        &mut items,
        b"\x83\x19\x03\xe8\x64IETF\x5f\x58\x02\x01\x02\xff",
    )?;
    assert!(rt; items.bytes() == b"\xff".as_slice());
    Ok(())
}

// "ü", whose two bytes are in two chunks
#[test]
fn a_character_is_cut_by_chunks(rt: HostRuntime) -> Verdict {
    comes_singly(&rt, rt.alloc(), b"\x7f\x61\xc3\x61\xbc\xff")
}

// An item that is whole stays so until it is taken, and is found again.
#[test]
fn a_whole_item_waits(rt: HostRuntime) -> Verdict {
    let mut items = PushedItems::new(rt.alloc());
    items.push(b"\x82\x01\x02")?;
    assert_eq!(rt; items.item_len()?, Some(3));
    items.push(b"\xff")?;
    assert_eq!(rt; items.item_len()?, Some(3));
    assert_eq!(rt; items.item_len()?, Some(3));
    gives(&rt, &mut items, b"\x82\x01\x02")
}

// More is taken than there is.
#[test]
fn all_are_taken(rt: HostRuntime) -> Verdict {
    let mut items = PushedItems::new(rt.alloc());
    items.push(b"\x01\x82\x02")?;
    items.advance(9);
    assert!(rt; items.bytes().is_empty());
    items.push(b"\x20\x03")?;
    gives(&rt, &mut items, b"\x20")?;
    gives(&rt, &mut items, b"\x03")
}
