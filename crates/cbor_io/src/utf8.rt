//! The test that bytes are UTF-8 (RFC 3629), for texts of any script.

ghost use Rattle.std.specs.Prelude.{◌≡◌, ◌↔◌, length, drop, MatchResult, IfErr, IfOk, IsOk, IsTrue};
ghost use Rattle.std.specs.Str.{IsAscii, IsUtf8, IsValidUpTo, IsErrorLen, valid_up_to, error_len};
ghost use Rattle.std.specs.Str.Lossy.{utf8_valid_len, utf8_error_len};
ghost use Rattle.std.specs.String.{string_vec, from_utf8_error_vec, from_utf8_error_cause};
ghost use Rattle.cbor_io.specs.Utf8.{Utf8State, after_byte, after_bytes, place};

use std::simd::prelude::*;
use std::str::Utf8Error;
use std::string::FromUtf8Error;

// The states between two bytes: what has to follow those that were read (RFC 3629, section 4; the
// definitions are in `specs/Utf8.antt`). A state's number is the place of six bits in each row of
// the table, and they are the state that the row's byte leads to. 0 is a state too, that of bytes
// which begin no text.
const BOUNDARY: u64 = 6;

const ONE_TAIL: u64 = 12;

const TWO_TAILS: u64 = 18;

const THREE_TAILS: u64 = 24;

const AFTER_E0: u64 = 30;

const AFTER_ED: u64 = 36;

const AFTER_F0: u64 = 42;

const AFTER_F4: u64 = 48;

// The rows. A byte UTF8-tail is low (from 0x80), middle (from 0x90) or high (from 0xa0 to 0xbf),
// since not each may stand second.
const ASCII: u64 = BOUNDARY << BOUNDARY;

const TAIL: u64 = BOUNDARY << ONE_TAIL | ONE_TAIL << TWO_TAILS | TWO_TAILS << THREE_TAILS;

const LOW: u64 = TAIL | ONE_TAIL << AFTER_ED | TWO_TAILS << AFTER_F4;

const MIDDLE: u64 = TAIL | ONE_TAIL << AFTER_ED | TWO_TAILS << AFTER_F0;

const HIGH: u64 = TAIL | ONE_TAIL << AFTER_E0 | TWO_TAILS << AFTER_F0;

const LEAD_2: u64 = ONE_TAIL << BOUNDARY;

const LEAD_3: u64 = TWO_TAILS << BOUNDARY;

const LEAD_4: u64 = THREE_TAILS << BOUNDARY;

const E0: u64 = AFTER_E0 << BOUNDARY;

const ED: u64 = AFTER_ED << BOUNDARY;

const F0: u64 = AFTER_F0 << BOUNDARY;

const F4: u64 = AFTER_F4 << BOUNDARY;

const NEVER: u64 = 0;

static ROWS: [u64; 256] = [
    ASCII, ASCII, ASCII, ASCII, ASCII, ASCII, ASCII, ASCII, ASCII, ASCII, ASCII, ASCII, ASCII,
    ASCII, ASCII, ASCII, ASCII, ASCII, ASCII, ASCII, ASCII, ASCII, ASCII, ASCII, ASCII, ASCII,
    ASCII, ASCII, ASCII, ASCII, ASCII, ASCII, ASCII, ASCII, ASCII, ASCII, ASCII, ASCII, ASCII,
    ASCII, ASCII, ASCII, ASCII, ASCII, ASCII, ASCII, ASCII, ASCII, ASCII, ASCII, ASCII, ASCII,
    ASCII, ASCII, ASCII, ASCII, ASCII, ASCII, ASCII, ASCII, ASCII, ASCII, ASCII, ASCII, ASCII,
    ASCII, ASCII, ASCII, ASCII, ASCII, ASCII, ASCII, ASCII, ASCII, ASCII, ASCII, ASCII, ASCII,
    ASCII, ASCII, ASCII, ASCII, ASCII, ASCII, ASCII, ASCII, ASCII, ASCII, ASCII, ASCII, ASCII,
    ASCII, ASCII, ASCII, ASCII, ASCII, ASCII, ASCII, ASCII, ASCII, ASCII, ASCII, ASCII, ASCII,
    ASCII, ASCII, ASCII, ASCII, ASCII, ASCII, ASCII, ASCII, ASCII, ASCII, ASCII, ASCII, ASCII,
    ASCII, ASCII, ASCII, ASCII, ASCII, ASCII, ASCII, ASCII, ASCII, ASCII, ASCII, LOW, LOW, LOW,
    LOW, LOW, LOW, LOW, LOW, LOW, LOW, LOW, LOW, LOW, LOW, LOW, LOW, MIDDLE, MIDDLE, MIDDLE,
    MIDDLE, MIDDLE, MIDDLE, MIDDLE, MIDDLE, MIDDLE, MIDDLE, MIDDLE, MIDDLE, MIDDLE, MIDDLE, MIDDLE,
    MIDDLE, HIGH, HIGH, HIGH, HIGH, HIGH, HIGH, HIGH, HIGH, HIGH, HIGH, HIGH, HIGH, HIGH, HIGH,
    HIGH, HIGH, HIGH, HIGH, HIGH, HIGH, HIGH, HIGH, HIGH, HIGH, HIGH, HIGH, HIGH, HIGH, HIGH, HIGH,
    HIGH, HIGH, NEVER, NEVER, LEAD_2, LEAD_2, LEAD_2, LEAD_2, LEAD_2, LEAD_2, LEAD_2, LEAD_2,
    LEAD_2, LEAD_2, LEAD_2, LEAD_2, LEAD_2, LEAD_2, LEAD_2, LEAD_2, LEAD_2, LEAD_2, LEAD_2, LEAD_2,
    LEAD_2, LEAD_2, LEAD_2, LEAD_2, LEAD_2, LEAD_2, LEAD_2, LEAD_2, LEAD_2, LEAD_2, E0, LEAD_3,
    LEAD_3, LEAD_3, LEAD_3, LEAD_3, LEAD_3, LEAD_3, LEAD_3, LEAD_3, LEAD_3, LEAD_3, LEAD_3, ED,
    LEAD_3, LEAD_3, F0, LEAD_4, LEAD_4, LEAD_4, F4, NEVER, NEVER, NEVER, NEVER, NEVER, NEVER,
    NEVER, NEVER, NEVER, NEVER, NEVER,
];

/// The bytes as text, or where they are no UTF-8 the error that `str::from_utf8` returns for them.
/// It takes fewer instructions than that where the text isn't ASCII.
///
/// ```rust
/// assert_eq!(rt; utf8::from_utf8(b"\xe2\x82\xac")?, "€");
/// assert_eq!(rt; utf8::from_utf8(b"ab\xff").unwrap_err().valid_up_to(), 2);
/// ```
pub fn from_utf8(bytes: &[u8]) -> Result<&str, Utf8Error>
    ensures cases { MatchResult result (λ s. (s.now ≡ bytes.now) × IsUtf8 bytes.now)
        (λ e. ¬ (IsUtf8 bytes.now) × IsValidUpTo bytes.now (valid_up_to e)) }
    ensures error_len { IfErr result (λ e. IsErrorLen bytes.now (valid_up_to e) (error_len e)) }
    ensures valid_len { IfErr result (λ e. valid_up_to e ≡ utf8_valid_len bytes.now) }
    ensures fault { IfErr result
        (λ e. error_len e ≡ utf8_error_len (drop (valid_up_to e) bytes.now)) }
{
    if is_text(bytes) {
        return Ok(unsafe { str::from_utf8_unchecked(bytes) });
    }
    // Where the fault lies is for std to say.
    str::from_utf8(bytes)
}

/// The owned bytes as a `String`, or the error that `String::from_utf8` returns for them, which
/// hands the bytes back. No memory is taken.
///
/// ```rust
/// let bytes = vec![in alloc; 0xe2, 0x82, 0xac]?;
/// assert_eq!(rt; utf8::string_from_utf8(bytes)?.as_str(), "€");
/// ```
pub fn string_from_utf8(bytes: Vec<u8>) -> Result<String, FromUtf8Error>
    ensures ok { IfOk result (λ t. string_vec t ≡ bytes) }
    ensures err { IfErr result (λ e. from_utf8_error_vec e ≡ bytes) }
    ensures succeeds { IsUtf8 bytes.items → IsOk result }
    ensures valid_len { IfErr result
        (λ e. valid_up_to (from_utf8_error_cause e) ≡ utf8_valid_len bytes.items) }
    ensures fault { IfErr result (λ e. error_len (from_utf8_error_cause e)
        ≡ utf8_error_len (drop (utf8_valid_len bytes.items) bytes.items)) }
{
    if is_text(&bytes) {
        return Ok(unsafe { String::from_utf8_unchecked(bytes) });
    }
    String::from_utf8(bytes)
}

/// Whether the bytes are UTF-8.
///
/// ```rust
/// assert!(rt; utf8::is_text(b"\xe2\x82\xac"));
/// assert!(rt; !utf8::is_text(b"\xed\xa0\x80")); // a surrogate
/// ```
pub fn is_text(bytes: &[u8]) -> bool
    ensures { IsTrue result ↔ IsUtf8 bytes.now }
{
    bytes.is_ascii() || ends_at_boundary(bytes)
}

// Whether the bytes lead from one boundary of characters to another.
fn ends_at_boundary(bytes: &[u8]) -> bool
    ensures { IsTrue result ↔ IsUtf8 bytes.now }
{
    let mut state = BOUNDARY;
    let mut at = 0;
    while 16 <= bytes.len() - at {
        state = after_block(state, &bytes[at..at + 16]);
        at += 16;
    }
    after_bytes(state, &bytes[at..]) == BOUNDARY
}

// After a boundary ASCII changes no state.
#[inline(always)]
fn after_block(state: u64, block: &[u8]) -> u64
    requires { length block.now ≡ 16 }
    ensures { (s : Utf8State) → state ≡ place s → result ≡ place (after_bytes s block.now) }
{
    if state == BOUNDARY && is_ascii(block) {
        state
    } else {
        after_bytes(state, block)
    }
}

// By one comparison. The test of std takes more on so few bytes.
#[inline(always)]
fn is_ascii(block: &[u8]) -> bool
    requires { length block.now ≡ 16 }
    ensures { IsTrue result → IsAscii block.now }
{
    u8x16::from_slice(block)
        .simd_ge(u8x16::splat(0x80))
        .to_bitmask()
        == 0
}

#[inline(always)]
fn after_bytes(start: u64, bytes: &[u8]) -> u64
    ensures { (s : Utf8State) → start ≡ place s → result ≡ place (after_bytes s bytes.now) }
{
    let mut state = start;
    for byte in bytes {
        state = after_byte(state, *byte);
    }
    state
}

#[inline(always)]
fn after_byte(state: u64, byte: u8) -> u64
    ensures { (s : Utf8State) → state ≡ place s → result ≡ place (after_byte s byte) }
{
    (ROWS[byte as usize] >> (state % 64)) % 64
}
