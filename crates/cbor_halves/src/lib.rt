//! The float of 16 bits that is the number of a float of 32 bits (IEEE 754), by which a number is
//! written in the shortest width that holds it. That the numbers are the same, and that none is
//! missed, is proved in `cbor_value`.
#![tactic(auto)]

ghost use Rattle.std.specs.Prelude.{◌≡◌};
ghost use Rattle.cbor_halves.specs.Halves.{half_of};

/// The bits of binary16 whose number is that of these bits of binary32; None where no float of 16
/// bits is that number. Zeros and infinities keep their signs. Of a NaN it is `7e00`, whatever its
/// sign and payload (RFC 8949, section 4.2.2).
///
/// ```rust
/// assert_eq!(rt; half_of(0x3fc0_0000), Some(0x3e00));
/// assert_eq!(rt; half_of(0x3dcc_cccd), None);
/// ```
pub fn half_of(bits: u32) -> Option<u16>
    ensures { result ≡ half_of bits }
{
    let sign = if 0x8000_0000 <= bits { 0x8000u16 } else { 0 };
    let exponent = bits / 0x80_0000 % 256;
    let fraction = bits % 0x80_0000;
    if exponent == 255 {
        return Some(if fraction == 0 { sign + 0x7c00 } else { 0x7e00 });
    }
    if exponent == 0 && fraction == 0 {
        return Some(sign);
    }
    if 113 <= exponent && exponent <= 142 && fraction % 0x2000 == 0 {
        return Some(sign + (exponent - 112) as u16 * 1024 + (fraction / 0x2000) as u16);
    }
    if 103 <= exponent && exponent <= 112 {
        let digits = 0x80_0000 + fraction;
        let unit = 1u32 << (126 - exponent);
        if digits % unit == 0 {
            return Some(sign + (digits / unit % 1024) as u16);
        }
    }
    None
}
