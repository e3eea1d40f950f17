//! A struct or an enum from a reader that waits for its peer: it isn't asked before the one that came
//! whole is given, wherever names and values are cut.

use samples::enums::EachKind;
use samples::structs::Credentials;
use serde_cbor::Deserializer;
use serde_cbor::de::{BufferedRead, Deserialize};
use std::alloc::Global;
use std::io;
use std::test::Fail;
use test_checks::Verdict;

/// A peer that sends these messages, one a call, and counts the calls.
#[derive(Drop)]
struct Peer<'a> {
    messages: &'a [&'a [u8]],
    calls: usize,
}

impl io::Read for Peer<'_> {
    fn read(&mut self, buf: &mut [u8]) -> io::Result<usize> {
        let sent = self.calls;
        self.calls = sent.saturating_add(1);
        let Some(message) = self.messages.get(sent) else {
            return Ok(0);
        };
        let count = buf.len().min(message.len());
        buf[..count].copy_from_slice(&message[..count]);
        Ok(count)
    }
}

/// `{"user_id": 10, "password_hash": [1, 2, 3, 4]}`.
const CREDENTIALS: &[u8] = b"\xa2\x67user_id\x0a\x6dpassword_hash\x84\x01\x02\x03\x04";

/// A variant of each kind, by its name and by its number.
const KINDS: [&'static [u8]; 6] = [
    b"\x65Empty",
    b"\xa1\x66Number\x18\x2a",
    b"\xa1\x64Flag\x82\x61a\xf5",
    b"\xa1\x65Point\xa2\x61x\x05\x61y\x24",
    b"\x82\x01\x18\x2a",
    b"\x9f\x02\x61a\xf5\xff",
];

/// How many calls were made of the peer by when the struct was given.
fn calls_for_credentials(alloc: Global, messages: &[&[u8]]) -> Result<usize, Fail> {
    let mut peer = Peer { messages, calls: 0 };
    let mut de = Deserializer::new(alloc, BufferedRead::new(alloc, &mut peer)?);
    let credentials = Credentials::deserialize(&mut de)?;
    drop(de);
    if credentials.user_id != 10 || credentials.password_hash != [1, 2, 3, 4] {
        return Err(Fail::from("other credentials"));
    }
    Ok(peer.calls)
}

/// How many by when the enum was.
fn calls_for_kind(alloc: Global, messages: &[&[u8]]) -> Result<usize, Fail> {
    let mut peer = Peer { messages, calls: 0 };
    let mut de = Deserializer::new(alloc, BufferedRead::new(alloc, &mut peer)?);
    EachKind::deserialize(&mut de)?;
    drop(de);
    Ok(peer.calls)
}

#[test]
fn asks_for_nothing_behind_a_struct(rt: HostRuntime) -> Verdict {
    let alloc = rt.alloc();
    assert!(rt; calls_for_credentials(alloc, &[CREDENTIALS, CREDENTIALS])? == 1);
    let mut bytes = Vec::new(alloc);
    for at in 0..CREDENTIALS.len() {
        let (front, rest) = CREDENTIALS.split_at(at);
        bytes.push(&rest[..1])?;
        if at > 0 {
            let calls = calls_for_credentials(alloc, &[front, rest, CREDENTIALS])?;
            assert!(rt; calls == 2);
        }
    }
    assert!(rt; calls_for_credentials(alloc, &bytes)? == CREDENTIALS.len());
    Ok(())
}

#[test]
fn asks_for_nothing_behind_an_enum(rt: HostRuntime) -> Verdict {
    let alloc = rt.alloc();
    for kind in KINDS {
        assert!(rt; calls_for_kind(alloc, &[kind, kind])? == 1);
        let mut bytes = Vec::new(alloc);
        for at in 0..kind.len() {
            let (front, rest) = kind.split_at(at);
            bytes.push(&rest[..1])?;
            if at > 0 {
                assert!(rt; calls_for_kind(alloc, &[front, rest, kind])? == 2);
            }
        }
        assert!(rt; calls_for_kind(alloc, &bytes)? == kind.len());
    }
    Ok(())
}
