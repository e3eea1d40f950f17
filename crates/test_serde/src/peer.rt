// A reader that waits for its peer: no byte is asked for behind the item that is given.

use cbor_serde::{Item, Stream};
use std::alloc::Global;
use std::io;
use std::process::Abort;
use test_checks::Verdict;

// It gives so many bytes a call at most, and counts them and the calls.
#[derive(Drop)]
struct Peer<'a> {
    rest: &'a [u8],
    at_once: usize,
    given: usize,
    calls: usize,
}

impl io::Read for Peer<'_> {
    fn read(&mut self, buf: &mut [u8]) -> io::Result<usize> {
        self.calls = self.calls.saturating_add(1);
        let count = buf.len().min(self.rest.len()).min(self.at_once);
        buf[..count].copy_from_slice(&self.rest[..count]);
        self.rest = &self.rest[count..];
        self.given = self.given.saturating_add(count);
        Ok(count)
    }
}

// Of these items, one behind the other, the first is given for its bytes alone.
fn asks_for(rt: &impl Abort, alloc: Global, item: &[u8]) -> Verdict {
    let mut bytes = Vec::from_slice(alloc, item)?;
    bytes.extend_from_slice(item)?;
    for at_once in [1, 3, 100] {
        let mut peer = Peer {
            rest: &bytes,
            at_once,
            given: 0,
            calls: 0,
        };
        let mut items = Stream::<_, Item>::new(alloc, &mut peer);
        items.next().ok_or("none")??;
        drop(items);
        assert!(rt; peer.given == item.len(), "{item:?}, {at_once} at once");
        assert!(rt; peer.calls <= item.len(), "{item:?}, {at_once} at once");
    }
    Ok(())
}

// RFC 7049, Appendix A: 0, -257, "IETF", "streaming", [1, [2, 3]], [_ 1], {"a": 1} and {_ "a": 1}.
#[test]
fn asks_for_no_byte_behind_an_item(rt: HostRuntime) -> Verdict {
    let alloc = rt.alloc();
    for item in [
        b"\x00".as_slice(),
        b"\x39\x01\x00",
        b"\x64IETF",
        b"\x7f\x65strea\x64ming\xff",
        b"\x82\x01\x82\x02\x03",
        b"\x9f\x01\xff",
        b"\xa1\x61a\x01",
        b"\xbf\x61a\x01\xff",
    ] {
        asks_for(&rt, alloc, item)?;
    }
    Ok(())
}
