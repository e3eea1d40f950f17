//! The order of byte strings of one length, eight bytes at a time.

ghost use Rattle.std.specs.Prelude.{◌≡◌, ℕ, ◌<◌, length, slice_index};
ghost use Rattle.std.specs.Ordering.{nat_cmp};
ghost use Rattle.std.specs.Cmp.Lexicographic.{slice_cmp};
ghost use Rattle.cbor_io.specs.Compare.{big_endian};

use std::cmp::Ordering;

// Above this length std, which compares many words at a time, is faster.
const LONG: usize = 64;

/// The order of two byte strings of one length, byte by byte from the front, as `a.cmp(b)` returns.
/// It takes fewer instructions than that where they have 8 to 64 bytes.
///
/// ```rust
/// assert_eq!(rt; compare(b"first key", b"other key"), Ordering::Less);
/// ```
pub fn compare(a: &[u8], b: &[u8]) -> Ordering
    requires { length a.now ≡ length b.now }
    ensures { result ≡ slice_cmp nat_cmp a.now b.now }
{
    if a.len() < 8 || LONG < a.len() {
        return a.cmp(b);
    }
    let last = a.len() - 8;
    let mut at = 0;
    while at < last {
        let found = compare_words(&a[at..at + 8], &b[at..at + 8]);
        if found.is_ne() {
            return found;
        }
        at += 8;
    }
    // These words may overlap those before, which are equal.
    compare_words(&a[last..], &b[last..])
}

#[inline(always)]
fn compare_words(a: &[u8], b: &[u8]) -> Ordering
    requires { (length a.now ≡ 8) × (length b.now ≡ 8) }
    ensures { result ≡ slice_cmp nat_cmp a.now b.now }
{
    word(a).cmp(&word(b))
}

#[inline(always)]
fn word(bytes: &[u8]) -> u64
    requires { length bytes.now ≡ 8 }
    ensures value { result ≡ big_endian bytes.now }
    ensures bytes { (i : ℕ) → slice_index bytes.now i < 256 }
{
    u64::from_be_bytes([
        bytes[0], bytes[1], bytes[2], bytes[3], bytes[4], bytes[5], bytes[6], bytes[7],
    ])
}
