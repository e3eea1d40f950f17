//! Going through the bytes of an item up to its first departure from the canonical form.
//!
//! Nothing is kept of the item, so it takes no memory. It goes past definite lengths alone, since
//! an indefinite one is a departure, and past a string in one step.

ghost use Rattle.std.specs.Prelude.{◌≡◌, ◌≢◌, ℕ, ◌<◌, ◌≤◌, ◌-◌, ◌/◌, ◌%◌, [], length, nat_lt};
ghost use Rattle.std.specs.Prelude.{slice_index, take, MatchBool, MatchOption};
ghost use Rattle.std.specs.declared.cmp.Ordering.TheVariants.{Less};
ghost use Rattle.cbor_strict.specs.Departure.{floor};
ghost use Rattle.cbor_model.specs.Major.{major_of};
ghost use Rattle.cbor_model.specs.Order.{lex};
ghost use Rattle.cbor_model.specs.Reader.{number_behind, width_of};
ghost use Rattle.cbor_io.specs.Compare.{big_endian};
ghost use Rattle.cbor_strict.specs.Walk.{all_walk, content_walk, integer_walk, pairs_walk, past};
ghost use Rattle.cbor_strict.specs.Walk.{simple_walk, string_walk, walk};
ghost use Rattle.cbor_strict.specs.Walks.{last, IsNumber, IsWithin};
ghost use Rattle.cbor_strict.specs.Walks.{StopsNumber, ReportsDeparture, Walks};

use crate::words::is_above;
use cbor_io::compare::compare;
use std::cmp::Ordering;

/// What came of going on.
#[derive(Clone, Copy)]
pub enum Walk {
    /// No departure, and so many bytes after.
    Passed(usize),
    /// The first departure, and so many bytes after what shows it.
    Departed(usize),
    /// No departure up to where no item goes on so, or the bytes end.
    Stopped,
}

/// The offset at which the bytes show that no canonical encoding goes on so, or none where they end
/// or are at fault before that.
pub(crate) fn first_departure(bytes: &[u8]) -> Option<usize>
    ensures { ReportsDeparture bytes.now result }
{
    match item(bytes) {
        Walk::Departed(left) => Some(bytes.len() - left),
        _ => None,
    }
}

/// Goes past an item.
#[cycle(walk)]
#[inline(always)]
fn item(bytes: &[u8]) -> Walk
    ensures walks { Walks bytes.now walk result }
    ensures within { IsWithin (length bytes.now) result }
{
    match bytes.split_first() {
        Some((first, rest)) => content(*first, rest),
        None => Walk::Stopped,
    }
}

/// Goes past what follows a first byte. What nests no other item takes no call.
#[cycle(walk)]
#[inline(always)]
fn content(first: u8, bytes: &[u8]) -> Walk
    ensures walks { Walks bytes.now
        (λ fuel. content_walk (walk fuel) (major_of (first / 32)) (first % 32)) result }
    ensures within { IsWithin (length bytes.now) result }
{
    let major = first / 32;
    let low = first % 32;
    if major <= 1 {
        integer(low, bytes)
    } else if major <= 3 {
        string(low, bytes)
    } else if first >= 0xe0 {
        simple(first, bytes)
    } else {
        nested(major, low, bytes)
    }
}

/// Goes past what follows a first byte of an array, a map or a tag.
#[cycle(walk)]
#[inline(never)]
fn nested(major: u8, low: u8, bytes: &[u8]) -> Walk
    requires { (4 ≤ major) × (major ≤ 6) }
    ensures walks { Walks bytes.now (λ fuel. content_walk (walk fuel) (major_of major) low) result }
    ensures within { IsWithin (length bytes.now) result }
{
    if low == 31 {
        // No tag is of an indefinite length.
        if major == 6 {
            return Walk::Stopped;
        }
        return Walk::Departed(bytes.len());
    }
    match number(low, bytes) {
        Some((n, left)) => {
            if is_long(low, n) {
                return Walk::Departed(left);
            }
            let rest = behind(bytes, left);
            if major == 4 {
                // One item takes no loop.
                if n == 1 { item(rest) } else { items(n, rest) }
            } else if major == 5 {
                pairs(n, rest)
            } else {
                item(rest)
            }
        }
        None => Walk::Stopped,
    }
}

/// Goes past n items.
#[cycle(walk)]
#[inline(never)]
fn items(n: u64, bytes: &[u8]) -> Walk
    ensures walks { Walks bytes.now (λ fuel. all_walk (walk fuel) n) result }
    ensures within { IsWithin (length bytes.now) result }
{
    let mut rest = bytes;
    for _i in 0..n {
        match item(rest) {
            Walk::Passed(left) => rest = behind(rest, left),
            other => return other,
        }
    }
    Walk::Passed(rest.len())
}

/// Goes past n pairs, whose keys' bytes ascend.
#[cycle(walk)]
#[inline(never)]
fn pairs(n: u64, bytes: &[u8]) -> Walk
    ensures walks { Walks bytes.now (λ fuel. pairs_walk (walk fuel) n []) result }
    ensures within { IsWithin (length bytes.now) result }
{
    let mut rest = bytes;
    // No key is empty, so the first is above none.
    let mut before = &bytes[..0];
    for _i in 0..n {
        match item(rest) {
            Walk::Passed(left) => {
                let key = ahead(rest, left);
                if !ascends(before, key) {
                    return Walk::Departed(left);
                }
                before = key;
                rest = behind(rest, left);
            }
            other => return other,
        }
        match item(rest) {
            Walk::Passed(left) => rest = behind(rest, left),
            other => return other,
        }
    }
    Walk::Passed(rest.len())
}

/// The last so many bytes.
#[inline(always)]
fn behind(bytes: &[u8], left: usize) -> &[u8]
    requires { left ≤ length bytes.now }
    ensures { result.now ≡ last left bytes.now }
{
    &bytes[bytes.len() - left..]
}

/// The bytes ahead of the last so many.
#[inline(always)]
fn ahead(bytes: &[u8], left: usize) -> &[u8]
    requires { left ≤ length bytes.now }
    ensures { result.now ≡ take (length bytes.now - left) bytes.now }
{
    &bytes[..bytes.len() - left]
}

/// Whether a key of these bytes is above the one before it, or the first. Keys of the lengths that
/// numbers have are compared as numbers, and those of 8 to 64 bytes by words.
#[inline(always)]
fn ascends(before: &[u8], key: &[u8]) -> bool
    ensures { MatchBool result (lex before.now key.now ≡ Less) (lex before.now key.now ≢ Less) }
{
    if before.len() != key.len() {
        return before.is_empty() || is_below(before, key);
    }
    match key.len() {
        1 => before[0] < key[0],
        2 => two(before) < two(key),
        3 => three(before) < three(key),
        5 => five(before) < five(key),
        8..=64 => is_above(before, key),
        _ => is_less(compare(before, key)),
    }
}

/// Likewise of any lengths.
#[inline(never)]
fn is_below(before: &[u8], key: &[u8]) -> bool
    ensures { MatchBool result (lex before.now key.now ≡ Less) (lex before.now key.now ≢ Less) }
{
    is_less(before.cmp(key))
}

#[inline(always)]
fn is_less(order: Ordering) -> bool
    ensures { MatchBool result (order ≡ Less) (order ≢ Less) }
{
    match order {
        Ordering::Less => true,
        _ => false,
    }
}

/// Two bytes as a number, the first of them the highest, and likewise three and five.
#[inline(always)]
fn two(bytes: &[u8]) -> u64
    requires { length bytes.now ≡ 2 }
    ensures value { result ≡ big_endian bytes.now }
    ensures bytes { (i : ℕ) → slice_index bytes.now i < 256 }
{
    u16::from_be_bytes([bytes[0], bytes[1]]) as u64
}

#[inline(always)]
fn three(bytes: &[u8]) -> u64
    requires { length bytes.now ≡ 3 }
    ensures value { result ≡ big_endian bytes.now }
    ensures bytes { (i : ℕ) → slice_index bytes.now i < 256 }
{
    bytes[0] as u64 * 0x1_0000 + u16::from_be_bytes([bytes[1], bytes[2]]) as u64
}

#[inline(always)]
fn five(bytes: &[u8]) -> u64
    requires { length bytes.now ≡ 5 }
    ensures value { result ≡ big_endian bytes.now }
    ensures bytes { (i : ℕ) → slice_index bytes.now i < 256 }
{
    let last = u32::from_be_bytes([bytes[1], bytes[2], bytes[3], bytes[4]]);
    bytes[0] as u64 * 0x1_0000_0000 + last as u64
}

/// Goes past what follows a first byte of an integer.
#[inline(always)]
fn integer(low: u8, bytes: &[u8]) -> Walk
    ensures walks { Walks bytes.now (λ fuel. integer_walk low) result }
    ensures within { IsWithin (length bytes.now) result }
{
    match number(low, bytes) {
        Some((n, left)) => {
            if is_long(low, n) {
                Walk::Departed(left)
            } else {
                Walk::Passed(left)
            }
        }
        None => Walk::Stopped,
    }
}

/// Goes past what follows a first byte of a string.
#[inline(always)]
fn string(low: u8, bytes: &[u8]) -> Walk
    ensures walks { Walks bytes.now (λ fuel. string_walk low) result }
    ensures within { IsWithin (length bytes.now) result }
{
    // Most are shorter than 256 bytes, and take two tests where those of any length take a table.
    if low <= 24 {
        string_slow(low, bytes)
    } else {
        long_string(low, bytes)
    }
}

/// Goes past what follows a first byte of a string whose length takes more than one byte.
#[inline(never)]
fn long_string(low: u8, bytes: &[u8]) -> Walk
    ensures walks { Walks bytes.now (λ fuel. string_walk low) result }
    ensures within { IsWithin (length bytes.now) result }
{
    string_slow(low, bytes)
}

/// Goes past what follows a first byte of a string of any length.
#[inline(always)]
fn string_slow(low: u8, bytes: &[u8]) -> Walk
    ensures walks { Walks bytes.now (λ fuel. string_walk low) result }
    ensures within { IsWithin (length bytes.now) result }
{
    if low == 31 {
        return Walk::Departed(bytes.len());
    }
    match number(low, bytes) {
        Some((n, left)) => {
            if is_long(low, n) {
                Walk::Departed(left)
            } else {
                past(n, behind(bytes, left))
            }
        }
        None => Walk::Stopped,
    }
}

/// Goes past n bytes.
#[inline(always)]
fn past(n: u64, bytes: &[u8]) -> Walk
    ensures walks { Walks bytes.now (λ fuel. past n) result }
    ensures within { IsWithin (length bytes.now) result }
{
    let len = bytes.len() as u64;
    if len < n {
        Walk::Stopped
    } else {
        Walk::Passed((len - n) as usize)
    }
}

/// Goes past what follows a first byte of major type 7.
#[tactic(auto, using(crate::proofs::Walking::last_all), unfolding(crate::specs::Walk::simple_walk))]
#[inline(always)]
fn simple(first: u8, bytes: &[u8]) -> Walk
    ensures walks { Walks bytes.now (λ fuel. simple_walk (first % 32)) result }
    ensures within { IsWithin (length bytes.now) result }
{
    // A float of 64 bits, as most of these are: it takes no table.
    if first == 0xfb {
        return float::<8>(bytes);
    }
    match first % 32 {
        20 | 21 | 22 => Walk::Passed(bytes.len()),
        23 => Walk::Departed(bytes.len()),
        25 => float::<2>(bytes),
        26 => float::<4>(bytes),
        27 => float::<8>(bytes),
        _ => Walk::Stopped,
    }
}

/// Goes past the bits of a float of N bytes.
#[tactic(auto, using(crate::proofs::Walking::last_all))]
#[inline(always)]
fn float<const N: usize>(bytes: &[u8]) -> Walk
    requires { N ≤ 8 }
    ensures walks { Walks bytes.now (λ fuel. past N) result }
    ensures within { IsWithin (length bytes.now) result }
{
    match bytes.split_first_chunk::<N>() {
        Some((_, rest)) => Walk::Passed(rest.len()),
        None => Walk::Stopped,
    }
}

/// The number after a first byte with these lower five bits, and how many bytes are after it.
#[tactic(auto, using(crate::proofs::Walking::last_all), unfolding(cbor_model::specs::Reader::number_behind))]
#[inline(always)]
fn number(low: u8, bytes: &[u8]) -> Option<(u64, usize)>
    ensures { MatchOption result (StopsNumber low bytes.now) (IsNumber low bytes.now) }
{
    match low {
        0..=23 => Some((low as u64, bytes.len())),
        24 => {
            let (n, rest) = bytes.split_first_chunk::<1>()?;
            Some((n[0] as u64, rest.len()))
        }
        25 => {
            let (n, rest) = bytes.split_first_chunk::<2>()?;
            Some((u16::from_be_bytes(*n) as u64, rest.len()))
        }
        26 => {
            let (n, rest) = bytes.split_first_chunk::<4>()?;
            Some((u32::from_be_bytes(*n) as u64, rest.len()))
        }
        27 => {
            let (n, rest) = bytes.split_first_chunk::<8>()?;
            Some((u64::from_be_bytes(*n), rest.len()))
        }
        _ => None,
    }
}

/// Whether a number after such a first byte fits a narrower width.
#[inline(always)]
fn is_long(low: u8, n: u64) -> bool
    requires { low < 28 }
    ensures { result ≡ nat_lt n (floor (width_of low)) }
{
    match low {
        24 => n < 24,
        25 => n < 0x100,
        26 => n < 0x1_0000,
        27 => n < 0x1_0000_0000,
        _ => false,
    }
}
