//! The heads of arrays, maps and tags.

ghost use Rattle.std.specs.Prelude.{◌∷◌, IfSome};
ghost use Rattle.cbor_pushed.specs.Scanned.{HasHead};

use crate::numbers::number;
use crate::rest::Rest;
use cbor_decode::Remaining;

/// What is to come behind the head of an array, a map or a tag that the bytes begin with, and how
/// many bytes the head has; None where they begin with none, or it isn't whole.
pub(crate) fn opening(bytes: &[u8]) -> Option<(Rest, usize)>
    ensures { IfSome result (λ r. HasHead bytes.now r.0 r.1) }
{
    let (first, behind) = bytes.split_first()?;
    match *first {
        0x9f => Some((Rest::Items(Remaining::ToBreak), 1)),
        0xbf => Some((Rest::Pairs(Remaining::ToBreak), 1)),
        0x80..=0xdb => counted(*first, behind),
        _ => None,
    }
}

// The same of one whose head has a number, of which the first byte stands before these.
fn counted(first: u8, behind: &[u8]) -> Option<(Rest, usize)>
    ensures { IfSome result (λ r. HasHead (first ∷ behind.now) r.0 r.1) }
{
    let (n, left) = number(first % 32, behind)?;
    let rest = match first / 32 {
        4 => Rest::Items(Remaining::Counted(n)),
        5 => Rest::Pairs(Remaining::Counted(n)),
        6 => Rest::Items(Remaining::Counted(1)),
        _ => return None,
    };
    Some((rest, behind.len() - left + 1))
}
