//! Values as literals.

use crate::checks::{UNSTORED, is_written};
use serde_cbor::cbor;
use test_checks::{Verdict, is_refused};

#[test]
fn makes_scalars(rt: HostRuntime) -> Verdict {
    let alloc = rt.alloc();
    let text = "IETF";
    is_written(&rt, alloc, &cbor!(in alloc; null)?, b"\xf6")?;
    is_written(&rt, alloc, &cbor!(in alloc; true)?, b"\xf5")?;
    is_written(&rt, alloc, &cbor!(in alloc; -1)?, b"\x20")?;
    is_written(&rt, alloc, &cbor!(in alloc; text)?, b"\x64IETF")
}

// The encodings of RFC 8949, Appendix A.
#[test]
fn makes_arrays(rt: HostRuntime) -> Verdict {
    let alloc = rt.alloc();
    let three = 3u8;
    let value = cbor!(in alloc; [1, [2, three], [4, 5]])?;
    is_written(&rt, alloc, &value, b"\x83\x01\x82\x02\x03\x82\x04\x05")
}

#[test]
fn makes_maps(rt: HostRuntime) -> Verdict {
    let alloc = rt.alloc();
    let three = 3u8;
    let value = cbor!(in alloc; {"a": 1, "b": [2, three]})?;
    is_written(&rt, alloc, &value, b"\xa2\x61a\x01\x61b\x82\x02\x03")
}

#[test]
fn makes_a_map_in_an_array(rt: HostRuntime) -> Verdict {
    let alloc = rt.alloc();
    let value = cbor!(in alloc; ["a", {"b": "c"}])?;
    is_written(&rt, alloc, &value, b"\x82\x61a\xa1\x61b\x61c")
}

#[test]
fn makes_keys_of_any_kind(rt: HostRuntime) -> Verdict {
    let alloc = rt.alloc();
    let key = (1u8, 2u8);
    let value = cbor!(in alloc; {-1: null, 1: {}, (key): [], 1: 2, })?;
    is_written(&rt, alloc, &value, b"\xa3\x01\x02\x20\xf6\x82\x01\x02\x80")
}

#[test]
fn refuses_what_cannot_be_stored(rt: HostRuntime) -> Verdict {
    let alloc = rt.alloc();
    let great = 1u128 << 64;
    let refused = cbor!(in alloc; [1, {"a": great}]);
    is_refused(refused, UNSTORED)
}
