//! Values that were never written compare as their bytes do.

ghost use Rattle.std.specs.Prelude.{◌≡◌};
ghost use Rattle.cbor_model.specs.Canonical.{IsStorable, canon};
ghost use Rattle.cbor_model.specs.Order.{lex};
ghost use Rattle.cbor_value.specs.View.{view};

use cbor_model::byte_order;
use cbor_value::Value;
use std::cmp::Ordering;

/// How two values compare, which is how their canonical encodings do.
#[tactic(auto, unfolding(cbor_value::specs::View::flat_of))]
fn compared(a: &Value, b: &Value) -> Ordering
    ensures { IsStorable (view a.now) → IsStorable (view b.now)
        → result ≡ lex (canon (view a.now)) (canon (view b.now)) }
{
    a.in_memory();
    b.in_memory();
    byte_order();
    a.cmp(b)
}

// 10 is `0a`, and -1 is `20` (RFC 7049, appendix A).
#[test]
fn compares_as_bytes_do(rt: HostRuntime) {
    let ten = Value::Integer(10);
    let minus_one = Value::Integer(-1);
    assert_eq!(rt; compared(&ten, &minus_one), Ordering::Less);
    assert_eq!(rt; compared(&minus_one, &ten), Ordering::Greater);
    assert_eq!(rt; compared(&ten, &ten), Ordering::Equal);
}
