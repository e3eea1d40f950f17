//! Numbers that can't be stored.

use crate::checks::{is_not_written, tag};
use cbor_ser::{Serializer, SliceWrite};
use cbor_value::Value;
use test_checks::{Verdict, is_refused};

#[test]
fn refuses_numbers_that_are_too_far_out(rt: HostRuntime) -> Verdict {
    for i in [1 << 64, -2 - u64::MAX as i128, i128::MAX, i128::MIN] {
        is_not_written(&rt, rt.alloc(), &Value::Integer(i))?;
    }
    Ok(())
}

#[test]
fn refuses_such_a_number_at_the_end_of_an_array(rt: HostRuntime) -> Verdict {
    let alloc = rt.alloc();
    let array = vec![in alloc; Value::Null, Value::Integer(1 << 64)]?;
    is_not_written(&rt, alloc, &Value::Array(array))
}

#[test]
fn refuses_such_a_number_under_a_tag(rt: HostRuntime) -> Verdict {
    let alloc = rt.alloc();
    is_not_written(&rt, alloc, &tag(alloc, 1, Value::Integer(i128::MIN))?)
}

#[test]
fn refuses_such_a_number_at_any_depth(rt: HostRuntime) -> Verdict {
    let alloc = rt.alloc();
    let array = Value::Array(vec![in alloc; Value::Integer(1 << 64), Value::Null]?);
    let tagged = tag(alloc, 2, array)?;
    is_not_written(&rt, alloc, &Value::Array(vec![in alloc; tagged]?))
}

// There is no room for any byte, and the sink isn't asked.
#[test]
fn refuses_such_a_number_before_the_sink(rt: HostRuntime) -> Verdict {
    let words = "The number can't be stored in CBOR";
    let mut room: [u8; 0] = [];
    let mut ser = Serializer::new(rt.alloc(), SliceWrite::new(&mut room));
    is_refused(ser.serialize_i128(1 << 64), words)?;
    is_refused(ser.serialize_i128(-2 - u64::MAX as i128), words)?;
    is_refused(ser.serialize_u128(1 << 64), words)
}
