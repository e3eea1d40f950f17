//! A type that contains itself, of a user's own.

use samples::tree::Tree;
use serde_cbor::Deserializer;
use serde_cbor::de::Deserialize;
use test_checks::{Verdict, is_refused};

#[test]
fn goes_on_behind_what_is_no_tree(rt: HostRuntime) -> Verdict {
    let mut de = Deserializer::from_slice(rt.alloc(), b"\x81\xf6\x05");
    is_refused(Tree::deserialize(&mut de), "invalid type: expected a tree")?;
    assert!(rt; u8::deserialize(&mut de)? == 5);
    de.end()?;
    Ok(())
}
