//! Arrays, read item by item.

use crate::checks::{ends_here, gives, refuses};
use cbor_de::{Deserialize, Deserializer, IgnoredAny, SliceRead};
use cbor_io::error::{Error, Result as Answer};
use cbor_value::Value;
use test_checks::{Verdict, is_refused};

#[test]
fn reads_item_by_item(rt: HostRuntime) -> Verdict {
    let alloc = rt.alloc();
    let mut de = Deserializer::from_slice(alloc, b"\x82\x01\xf5");
    assert!(rt; two_items(&mut de)? == (Some(1), Some(true)));
    ends_here(&mut de)
}

/// The items of an array of a number and a truth value.
fn two_items(de: &mut Deserializer<SliceRead<'_>>) -> Answer<(Option<u8>, Option<bool>)> {
    let mut items = de.array()?;
    let number = items.next_element::<u8>()?;
    let truth = items.next_element::<bool>()?;
    items.end()?;
    Ok((number, truth))
}

#[test]
fn reports_how_many_items_are_left(rt: HostRuntime) -> Verdict {
    for (bytes, all, left) in [(&b"\x82\x01\xf5"[..], 2, 1), (b"\x81\x01", 1, 0)] {
        let mut de = Deserializer::from_slice(rt.alloc(), bytes);
        assert!(&rt; left_behind_one(&mut de)? == (Some(all), Some(left)));
    }
    Ok(())
}

/// How many items of an array are to come, and how many after the first, a number.
fn left_behind_one(de: &mut Deserializer<SliceRead<'_>>) -> Answer<(Option<usize>, Option<usize>)> {
    let mut items = de.array()?;
    let all = items.size_hint();
    items.next_element::<u8>()?;
    Ok((all, items.size_hint()))
}

#[test]
fn leaves_an_array_for_an_error(rt: HostRuntime) -> Verdict {
    let alloc = rt.alloc();
    let mut de = Deserializer::from_slice(alloc, b"\x82\x01\x81\x03");
    let items = de.array()?;
    let e = items.refuse(Error::message(alloc, "no such item"));
    is_refused(Answer::<()>::Err(e), "no such item")?;
    gives(&rt, &mut de, 1u8)
}

fn gives_any(de: &mut Deserializer<SliceRead<'_>>) -> Verdict {
    let _any = <IgnoredAny as Deserialize<SliceRead<'_>>>::deserialize(de)?;
    Ok(())
}

// Each refusal leaves all levels for the next item.
#[test]
fn goes_on_behind_a_refusal(rt: HostRuntime) -> Verdict {
    let alloc = rt.alloc();
    let mut bytes = [0x81; 256];
    bytes[255] = 0x00;
    let mut de = Deserializer::from_slice(alloc, &bytes);
    refuses::<Value>(&rt, &mut de, "recursion limit exceeded at offset 128")?;
    gives_any(&mut de)?;
    ends_here(&mut de)
}

#[test]
fn goes_on_behind_lists_that_are_refused(rt: HostRuntime) -> Verdict {
    let mut bytes = [0x81; 131];
    bytes[..3].copy_from_slice(b"\x82\x01\xf4");
    bytes[130] = 0x00;
    let mut de = Deserializer::from_slice(rt.alloc(), &bytes);
    refuses::<Vec<u8>>(&rt, &mut de, "invalid type: expected an integer")?;
    gives_any(&mut de)?;
    ends_here(&mut de)
}
