//! Maps, read pair by pair.

use crate::checks::{ends_here, gives};
use cbor_de::{Deserializer, SliceRead};
use cbor_io::error::{Error, Result as Answer};
use std::test::Fail;
use test_checks::{Verdict, is_refused};

#[test]
fn reads_pair_by_pair(rt: HostRuntime) -> Verdict {
    let alloc = rt.alloc();
    let mut de = Deserializer::from_slice(alloc, b"\xa2\x01\xf5\x61\x61\x02");
    assert!(rt; two_pairs(&mut de)? == (1, true, "a", 2));
    ends_here(&mut de)
}

/// The keys and values of a map of two pairs.
fn two_pairs<'a>(de: &mut Deserializer<SliceRead<'a>>) -> Result<(u8, bool, &'a str, u8), Fail> {
    let mut pairs = de.map()?;
    let Some(number) = pairs.next_key::<u8>()? else {
        return Err(Fail::from("no pair"));
    };
    let truth = pairs.next_value::<bool>()?;
    let Some(text) = pairs.next_key::<&str>()? else {
        return Err(Fail::from("one pair"));
    };
    let last = pairs.next_value::<u8>()?;
    pairs.end()?;
    Ok((number, truth, text, last))
}

#[test]
fn reports_how_many_pairs_are_left(rt: HostRuntime) -> Verdict {
    for (bytes, all, left) in [
        (&b"\xa2\x01\xf5\x61\x61\x02"[..], 2, 1),
        (b"\xa1\x01\xf5", 1, 0),
    ] {
        let mut de = Deserializer::from_slice(rt.alloc(), bytes);
        assert!(&rt; left_behind_a_key(&mut de)? == (Some(all), Some(left)));
    }
    Ok(())
}

/// How many pairs of a map are to come, and how many after the first key, a number.
fn left_behind_a_key(
    de: &mut Deserializer<SliceRead<'_>>,
) -> Answer<(Option<usize>, Option<usize>)> {
    let mut pairs = de.map()?;
    let all = pairs.size_hint();
    pairs.next_key::<u8>()?;
    Ok((all, pairs.size_hint()))
}

#[test]
fn refuses_pairs_that_are_left(rt: HostRuntime) -> Verdict {
    let alloc = rt.alloc();
    for (bytes, want) in [
        (&b"\xa1\x01\x02"[..], "trailing data at offset 1"),
        (b"\xbf\x01\x02\xff", "trailing data at offset 2"),
        (b"\xbf", "EOF while parsing a map at offset 1"),
    ] {
        let mut de = Deserializer::from_slice(alloc, bytes);
        let pairs = de.map()?;
        is_refused(pairs.end(), want)?;
    }
    Ok(())
}

#[test]
fn leaves_a_map_for_an_error(rt: HostRuntime) -> Verdict {
    let alloc = rt.alloc();
    let mut de = Deserializer::from_slice(alloc, b"\xa1\x01\x02");
    let pairs = de.map()?;
    let e = pairs.refuse(Error::message(alloc, "no such key"));
    is_refused(Answer::<()>::Err(e), "no such key")?;
    gives(&rt, &mut de, 1u8)
}
