//! What authenticators write. CTAP2's order is the length-first form's where the keys of a map are
//! of one type, or of one length, as here.

use cbor_forms::to_vec_length_first;
use cbor_io::error::Result;
use cbor_value::{Map, Value};
use std::alloc::Global;
use std::process::Abort;
use test_checks::Verdict;

// The key of a credential in a header of test data for CTAP2 (`wiredata_fido2.h`,
// `WIREDATA_CTAP_CBOR_CRED`).
const CREDENTIAL_KEY: &[u8] = b"\
    \xa5\x01\x02\x03\x26\x20\x01\
    \x21\x58\x20\x9d\x95\xa1\xb5\xd6\x11\xbf\xe2\x28\xa0\x7f\xca\x1e\xd9\x09\x0f\x0d\xe7\
    \x8e\x29\xe8\x2e\x11\xdb\x55\x62\x13\xd7\x26\xc2\x7e\x2b\
    \x22\x58\x20\xbe\x74\x2a\xac\xde\x11\x40\x76\x31\x0b\xed\x55\xde\xf3\x03\xe4\x1c\xac\
    \x42\x63\x8f\xe8\x30\x63\xb7\x07\x4e\x5d\xfb\x17\x5e\x9b";

// Its point.
const X: &[u8] = b"\
    \x9d\x95\xa1\xb5\xd6\x11\xbf\xe2\x28\xa0\x7f\xca\x1e\xd9\x09\x0f\x0d\xe7\x8e\x29\xe8\
    \x2e\x11\xdb\x55\x62\x13\xd7\x26\xc2\x7e\x2b";

const Y: &[u8] = b"\
    \xbe\x74\x2a\xac\xde\x11\x40\x76\x31\x0b\xed\x55\xde\xf3\x03\xe4\x1c\xac\x42\x63\x8f\
    \xe8\x30\x63\xb7\x07\x4e\x5d\xfb\x17\x5e\x9b";

// What an authenticator is able to do (CTAP 2.0, section 5.4), of Chrome's tests
// (`ctap_response_unittest.cc`).
const INFO: &[u8] = b"\
    \xa6\x01\x83\x66U2F_V9\x66U2F_V9\x66U2F_V2\x02\x82\x63uvm\x6bhmac-secret\
    \x03\x50\xf8\xa0\x11\xf3\x8c\x0a\x4d\x15\x80\x06\x17\x11\x1f\x9e\xdc\x7d\x04\xa5\
    \x62rk\xf5\x62up\xf5\x62uv\xf5\x64plat\xf5\x69clientPin\xf4\x05\x19\x04\xb0\
    \x06\x81\x01";

// Which model it is.
const AAGUID: &[u8] = b"\xf8\xa0\x11\xf3\x8c\x0a\x4d\x15\x80\x06\x17\x11\x1f\x9e\xdc\x7d";

/// The value is written so, with shorter keys first.
fn encodes(rt: &impl Abort, alloc: Global, value: &Value, want: &[u8]) -> Verdict {
    assert!(rt; to_vec_length_first(alloc, value)?.as_slice() == want);
    Ok(())
}

fn bytes(alloc: Global, bytes: &[u8]) -> Result<Value> {
    Ok(Value::Bytes(bytes.to_vec(alloc)?))
}

fn text(alloc: Global, text: &str) -> Result<Value> {
    Ok(Value::Text(String::from_str(alloc, text)?))
}

fn texts(alloc: Global, texts: &[&str]) -> Result<Value> {
    let mut items = Vec::new(alloc);
    for it in texts {
        items.push(text(alloc, it)?)?;
    }
    Ok(Value::Array(items))
}

// The labels in the order in which RFC 8152, appendix C.7.1, prints those of its keys.
fn key(alloc: Global) -> Result<Value> {
    let pairs = vec![in alloc;
        (Value::Integer(-1), Value::Integer(1)),
        (Value::Integer(-2), bytes(alloc, X)?),
        (Value::Integer(-3), bytes(alloc, Y)?),
        (Value::Integer(1), Value::Integer(2)),
        (Value::Integer(3), Value::Integer(-7)),
    ]?;
    Ok(Value::Map(Map::from_pairs(pairs)?))
}

// The options in the order of the alphabet.
fn options(alloc: Global) -> Result<Value> {
    let pairs = vec![in alloc;
        (text(alloc, "clientPin")?, Value::Bool(false)),
        (text(alloc, "plat")?, Value::Bool(true)),
        (text(alloc, "rk")?, Value::Bool(true)),
        (text(alloc, "up")?, Value::Bool(true)),
        (text(alloc, "uv")?, Value::Bool(true)),
    ]?;
    Ok(Value::Map(Map::from_pairs(pairs)?))
}

// The members from the last to the first.
fn info(alloc: Global) -> Result<Value> {
    let versions = texts(alloc, &["U2F_V9", "U2F_V9", "U2F_V2"])?;
    let extensions = texts(alloc, &["uvm", "hmac-secret"])?;
    let protocols = vec![in alloc; Value::Integer(1)]?;
    let pairs = vec![in alloc;
        (Value::Integer(6), Value::Array(protocols)),
        (Value::Integer(5), Value::Integer(1200)),
        (Value::Integer(4), options(alloc)?),
        (Value::Integer(3), bytes(alloc, AAGUID)?),
        (Value::Integer(2), extensions),
        (Value::Integer(1), versions),
    ]?;
    Ok(Value::Map(Map::from_pairs(pairs)?))
}

#[test]
fn writes_the_key_of_a_credential(rt: HostRuntime) -> Verdict {
    encodes(&rt, rt.alloc(), &key(rt.alloc())?, CREDENTIAL_KEY)
}

#[test]
fn writes_the_answer_of_an_authenticator(rt: HostRuntime) -> Verdict {
    encodes(&rt, rt.alloc(), &info(rt.alloc())?, INFO)
}
