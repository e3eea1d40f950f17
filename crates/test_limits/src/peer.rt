//! A reader that waits for its peer: no byte is asked for before the item that is whole is given.

use cbor_de::Deserializer;
use cbor_value::Value;
use std::alloc::{AllocError, Global};
use std::io;
use std::process::Abort;
use test_checks::Verdict;

/// Gives up to so many bytes a call, and counts them and the calls.
#[derive(Drop)]
struct Peer {
    bytes: Vec<u8>,
    at_once: usize,
    given: usize,
    calls: usize,
}

impl Peer {
    fn new(alloc: Global, bytes: &[u8], at_once: usize) -> Result<Peer, AllocError> {
        Ok(Peer {
            bytes: Vec::from_slice(alloc, bytes)?,
            at_once,
            given: 0,
            calls: 0,
        })
    }
}

impl io::Read for Peer {
    fn read(&mut self, buf: &mut [u8]) -> io::Result<usize> {
        self.calls = self.calls.saturating_add(1);
        let rest = &self.bytes[self.given.min(self.bytes.len())..];
        let count = buf.len().min(rest.len()).min(self.at_once);
        buf[..count].copy_from_slice(&rest[..count]);
        self.given = self.given.saturating_add(count);
        Ok(count)
    }
}

/// Reads the first item of a stream.
fn first(alloc: Global, peer: &mut Peer) -> Verdict {
    let mut stream = Deserializer::from_reader(alloc, peer).into_iter::<Value>();
    stream.next().ok_or("none")??;
    Ok(())
}

/// Of this item and another the first is given once its bytes came, and no more of them.
fn asks_for(rt: &impl Abort, alloc: Global, item: &[u8]) -> Verdict {
    let mut bytes = Vec::from_slice(alloc, item)?;
    bytes.extend_from_slice(item)?;
    for at_once in [1, 3, 100] {
        let mut peer = Peer::new(alloc, &bytes, at_once)?;
        first(alloc, &mut peer)?;
        assert!(rt; peer.given == item.len());
        assert!(rt; peer.calls <= item.len());
    }
    Ok(())
}

#[test]
fn asks_for_no_byte_behind_a_leaf(rt: HostRuntime) -> Verdict {
    let alloc = rt.alloc();
    for item in [
        b"\x00".as_slice(),
        b"\x39\x01\x00",
        b"\xfb\x3f\xf1\x99\x99\x99\x99\x99\x9a",
        b"\xf6",
        b"\x60",
        b"\x63foo",
        b"\x43\x01\x02\x03",
        b"\x7f\x61a\x62bc\xff",
        b"\x5f\xff",
    ] {
        asks_for(&rt, alloc, item)?;
    }
    Ok(())
}

#[test]
fn asks_for_no_byte_behind_what_holds_items(rt: HostRuntime) -> Verdict {
    let alloc = rt.alloc();
    for item in [
        b"\x80".as_slice(),
        b"\x82\x01\x81\x61a",
        b"\x9f\x01\xff",
        b"\xa0",
        b"\xa1\x01\x82\x02\x03",
        b"\xbf\x61a\x01\xff",
        b"\xc1\x1a\x51\x4b\x67\xb0",
        b"\xd8\x20\x80",
    ] {
        asks_for(&rt, alloc, item)?;
    }
    Ok(())
}

/// Reads the first list of a stream.
fn first_list(alloc: Global, peer: &mut Peer) -> Verdict {
    let mut stream = Deserializer::from_reader(alloc, peer).into_iter::<Vec<u8>>();
    stream.next().ok_or("none")??;
    Ok(())
}

/// Reads the first text of a stream.
fn first_text(alloc: Global, peer: &mut Peer) -> Verdict {
    let mut stream = Deserializer::from_reader(alloc, peer).into_iter::<String>();
    stream.next().ok_or("none")??;
    Ok(())
}

#[test]
fn asks_for_no_byte_behind_a_type(rt: HostRuntime) -> Verdict {
    let alloc = rt.alloc();
    let mut peer = Peer::new(alloc, b"\x9f\x01\x02\xff\x9f", 1)?;
    first_list(alloc, &mut peer)?;
    assert!(rt; peer.given == 4);
    let mut peer = Peer::new(alloc, b"\x63foo\x63", 1)?;
    first_text(alloc, &mut peer)?;
    assert!(rt; peer.given == 4);
    Ok(())
}
