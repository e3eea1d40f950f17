//! What a reader lends.

use cbor_de::{Deserializer, EitherLifetime, EitherStr, IoRead};
use std::process::Abort;
use std::test::Fail;
use test_checks::Verdict;

#[test]
fn lends_from_a_reader_until_its_next_call(rt: HostRuntime) -> Verdict {
    let alloc = rt.alloc();
    let mut de = Deserializer::from_reader(alloc, b"\x62ab\x41c".as_slice());
    lends_text(&rt, &mut de)?;
    lends_byte_string(&rt, &mut de)?;
    de.end()?;
    Ok(())
}

/// The text "ab" is next, and is lent until the next call.
fn lends_text(rt: &impl Abort, de: &mut Deserializer<IoRead<&[u8]>>) -> Verdict {
    match de.read_text() {
        Ok(EitherStr::Short(text)) => assert!(rt; text == "ab"),
        Ok(EitherStr::Long(_)) => return Err(Fail::from("a reader lends nothing for long")),
        Err(why) => return Err(Fail::from(de.unread(why, "no text"))),
    }
    Ok(())
}

/// The byte string 63 is next, and is lent until the next call.
fn lends_byte_string(rt: &impl Abort, de: &mut Deserializer<IoRead<&[u8]>>) -> Verdict {
    match de.read_bytes() {
        Ok(EitherLifetime::Short(bytes)) => assert!(rt; bytes == b"c".as_slice()),
        Ok(EitherLifetime::Long(_)) => return Err(Fail::from("a reader lends nothing for long")),
        Err(why) => return Err(Fail::from(de.unread(why, "no bytes"))),
    }
    Ok(())
}
