//! Whether a key is above the one before it, eight bytes at a time.

ghost use Rattle.std.specs.Prelude.{◌≡◌, ◌≢◌, ℕ, ◌+◌, ◌<◌, ◌≤◌, length, slice_index, take};
ghost use Rattle.std.specs.Prelude.{IsTrue, MatchBool};
ghost use Rattle.std.specs.declared.cmp.Ordering.TheVariants.{Less};
ghost use Rattle.cbor_model.specs.Order.{lex};
ghost use Rattle.cbor_io.specs.Compare.{big_endian};

/// Whether the bytes of a key are above those of the one before it, which are as many.
///
/// It goes by words of eight bytes, the last of which may overlap the one before. Only the first
/// that differ are compared as numbers.
#[inline(always)]
pub(crate) fn is_above(before: &[u8], key: &[u8]) -> bool
    requires same { length before.now ≡ length key.now }
    requires long { 8 ≤ length key.now }
    ensures { MatchBool result (lex before.now key.now ≡ Less) (lex before.now key.now ≢ Less) }
{
    let last = key.len() - 8;
    let mut at = same_front(before, key);
    'words: while at < last {
        let one = word(&before[at..at + 8]);
        let other = word(&key[at..at + 8]);
        if one != other {
            return one < other;
        }
        at += 8;
    }
    // These words may overlap those before, which are equal.
    word(&before[last..]) < word(&key[last..])
}

/// How many bytes from the front are found to be the same in both: 48, 32 or none. Keys beside one
/// another often share a long front, and so it is passed over without a loop.
#[inline(always)]
fn same_front(before: &[u8], key: &[u8]) -> usize
    requires { length before.now ≡ length key.now }
    ensures within { result ≤ length key.now }
    ensures front { take result before.now ≡ take result key.now }
{
    if key.len() < 32 || !same_pair(before, key, 0) || !same_pair(before, key, 16) {
        return 0;
    }
    if key.len() < 48 || !same_pair(before, key, 32) {
        return 32;
    }
    48
}

/// Whether the two words at an offset are the same in both, where all bytes before them are.
#[inline(always)]
fn same_pair(before: &[u8], key: &[u8], at: usize) -> bool
    requires same { length before.now ≡ length key.now }
    requires within { at + 16 ≤ length key.now }
    requires front { take at before.now ≡ take at key.now }
    ensures { IsTrue result → take (at + 16) before.now ≡ take (at + 16) key.now }
{
    word(&before[at..at + 8]) == word(&key[at..at + 8])
        && word(&before[at + 8..at + 16]) == word(&key[at + 8..at + 16])
}

#[inline(always)]
fn word(bytes: &[u8]) -> u64
    requires { length bytes.now ≡ 8 }
    ensures value { result ≡ big_endian bytes.now }
    ensures bytes { (i : ℕ) → slice_index bytes.now i < 256 }
{
    u64::from_be_bytes([
        bytes[0], bytes[1], bytes[2], bytes[3], bytes[4], bytes[5], bytes[6], bytes[7],
    ])
}
