//! A struct with floats in its fields.

ghost use Rattle.std.specs.Prelude.{codes};

use crate::checks::is_written;
use serde_cbor::Result;
use serde_cbor::parts::Schema;
use serde_cbor::ser::{Serialize, Serializer, Write, WrittenBy, to_vec_packed};
use test_checks::Verdict;

/// What a sensor measured.
#[derive(Drop)]
struct Reading {
    celsius: f64,
    humidity: Option<f32>,
    spectrum: Vec<f64>,
}

const READING: &[&str] = &["celsius", "humidity", "spectrum"];

impl Schema for Reading {
    ghost use Rattle.std.specs.Prelude.{map};
    ghost use Rattle.test_cbor.specs.declared.floats.TheConstants.{READING};

    type Parts = (f64, Option<f32>, Vec<f64>);

    ghost names = { map (λ n. n.now) READING.now };

    ghost parts = { λ r. (r.celsius, r.humidity, r.spectrum) };

    fn names() -> &'static [&'static str] {
        READING
    }

    fn from_parts((celsius, humidity, spectrum): Self::Parts) -> Reading {
        Reading {
            celsius,
            humidity,
            spectrum,
        }
    }
}

impl Serialize for Reading {
    ghost document = { ⟦<Self as WrittenBy<<Self as Schema>::Parts>>⟧.document };

    fn serialize<W: Write>(&self, ser: &mut Serializer<W>) -> Result<()> {
        ser.serialize_fields(self, &(&self.celsius, &self.humidity, &self.spectrum))
    }
}

// -4.1 and 100000.0 are examples of RFC 7049, Appendix A; 21.5 is 4035800000000000 in 64 bits.
#[test]
fn writes_floats_in_fields(rt: HostRuntime) -> Verdict {
    let alloc = rt.alloc();
    let reading = Reading {
        celsius: -4.1,
        humidity: Some(100000.0),
        spectrum: vec![in alloc; 21.5]?,
    };
    let named = b"\xa3\x67celsius\xfb\xc0\x10\x66\x66\x66\x66\x66\x66\x68humidity\xfa\x47\xc3\x50\0\
\x68spectrum\x81\xfb\x40\x35\x80\0\0\0\0\0";
    is_written(&rt, alloc, &reading, named)?;
    let packed = b"\xa3\0\xfb\xc0\x10\x66\x66\x66\x66\x66\x66\x01\xfa\x47\xc3\x50\0\
\x02\x81\xfb\x40\x35\x80\0\0\0\0\0";
    assert!(rt; to_vec_packed(alloc, &reading)?.as_slice() == packed.as_slice());
    Ok(())
}
