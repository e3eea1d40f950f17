//! A reader that waits for its peer: it isn't asked before the item that came whole is given.

use cbor_buffered::BufferedRead;
use cbor_de::{Deserialize, Deserializer, StreamDeserializer};
use cbor_value::Value;
use std::alloc::Global;
use std::io;
use std::process::Abort;
use test_checks::Verdict;

/// A peer that sends these messages, one a call, and counts the calls.
#[derive(Drop)]
struct Peer<'a> {
    messages: &'a [&'a [u8]],
    calls: usize,
}

impl io::Read for Peer<'_> {
    fn read(&mut self, buf: &mut [u8]) -> io::Result<usize> {
        let sent = self.calls;
        self.calls = sent.saturating_add(1);
        let Some(message) = self.messages.get(sent) else {
            return Ok(0);
        };
        let count = buf.len().min(message.len());
        buf[..count].copy_from_slice(&message[..count]);
        Ok(count)
    }
}

/// By the first item so many calls were made of the reader.
fn asks(rt: &impl Abort, alloc: Global, messages: &[&[u8]], calls: usize) -> Verdict {
    let mut peer = Peer { messages, calls: 0 };
    let source = BufferedRead::new(alloc, &mut peer)?;
    let mut stream = StreamDeserializer::<_, Value>::new(alloc, source);
    stream.next().ok_or("none")??;
    drop(stream);
    assert!(rt; peer.calls == calls);
    Ok(())
}

/// Examples of RFC 8949, Appendix A, and others of each kind.
const ITEMS: [&'static [u8]; 13] = [
    b"\x00",
    b"\x39\x01\x00",
    b"\xfb\x3f\xf1\x99\x99\x99\x99\x99\x9a",
    b"\x60",
    b"\x63foo",
    b"\x43\x01\x02\x03",
    b"\x7f\x61a\x62bc\xff",
    b"\x80",
    b"\x82\x01\x81\x61a",
    b"\x9f\x01\xff",
    b"\xa1\x01\x82\x02\x03",
    b"\xbf\x61a\x01\xff",
    b"\xc1\x1a\x51\x4b\x67\xb0",
];

// Each in a message of its own, and with the front of the next.
#[test]
fn asks_for_nothing_behind_an_item(rt: HostRuntime) -> Verdict {
    let alloc = rt.alloc();
    for item in ITEMS {
        asks(&rt, alloc, &[item, item], 1)?;
        let mut more = Vec::from_slice(alloc, item)?;
        more.push(0x82)?;
        asks(&rt, alloc, &[&more, b"\x01"], 1)?;
    }
    Ok(())
}

// Each in two messages, cut at each place.
#[test]
fn asks_for_what_an_item_lacks_alone(rt: HostRuntime) -> Verdict {
    let alloc = rt.alloc();
    for item in ITEMS {
        for at in 1..item.len() {
            let (front, rest) = item.split_at(at);
            asks(&rt, alloc, &[front, rest, item], 2)?;
        }
    }
    Ok(())
}

/// `[[1000000, 24], [1.1], ["IETF"]]`, of examples of RFC 8949, Appendix A.
const LISTS: &[u8] = &[
    0x83, 0x82, 0x1a, 0x00, 0x0f, 0x42, 0x40, 0x18, 0x18, 0x81, 0xfb, 0x3f, 0xf1, 0x99, 0x99, 0x99,
    0x99, 0x99, 0x9a, 0x81, 0x64, 0x49, 0x45, 0x54, 0x46,
];

type Lists = (Vec<u32>, Vec<f64>, Vec<String>);

fn asks_of_lists(rt: &impl Abort, alloc: Global, messages: &[&[u8]], calls: usize) -> Verdict {
    let mut peer = Peer { messages, calls: 0 };
    let mut de = Deserializer::new(alloc, BufferedRead::new(alloc, &mut peer)?);
    let (numbers, floats, texts) = Lists::deserialize(&mut de)?;
    drop(de);
    assert!(rt; numbers.as_slice() == [1_000_000, 24].as_slice());
    assert!(rt; floats.as_slice() == [1.1].as_slice());
    assert!(rt; texts.len() == 1 && texts[0].as_str() == "IETF");
    assert!(rt; peer.calls == calls);
    Ok(())
}

// What lists gather is what their items lack: cut at each place, and byte by byte.
#[test]
fn gathers_nothing_behind_an_item(rt: HostRuntime) -> Verdict {
    let alloc = rt.alloc();
    asks_of_lists(&rt, alloc, &[LISTS, LISTS], 1)?;
    let mut bytes = Vec::new(alloc);
    for at in 0..LISTS.len() {
        let (front, rest) = LISTS.split_at(at);
        bytes.push(&rest[..1])?;
        if at > 0 {
            asks_of_lists(&rt, alloc, &[front, rest, LISTS], 2)?;
        }
    }
    asks_of_lists(&rt, alloc, &bytes, LISTS.len())
}

// An item that is refused by its first byte: the next isn't wanted.
#[test]
fn gathers_nothing_of_what_is_refused(rt: HostRuntime) -> Verdict {
    let alloc = rt.alloc();
    for refused in [b"\x81\xf8", b"\x81\x1c", b"\x81\xff"] {
        let mut peer = Peer {
            messages: &[refused.as_slice(), b"\x20"],
            calls: 0,
        };
        let mut de = Deserializer::new(alloc, BufferedRead::new(alloc, &mut peer)?);
        assert!(&rt; <Vec<u32>>::deserialize(&mut de).is_err());
        drop(de);
        assert!(&rt; peer.calls == 1);
    }
    Ok(())
}
