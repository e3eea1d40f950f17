//! The kind of the item that is to come.

ghost use Rattle.std.specs.Prelude.{◌≡◌};
ghost use Rattle.cbor_serde_de.specs.Kinds.{kind_of};

use cbor_decode::{Decoder, Head};
use cbor_decode_as::head::tagged_head;
use cbor_read::SliceRead;
use serde::Kind;
use std::alloc::Global;

/// The kind of the item that begins with this byte; None of a tag and of what begins no item.
#[inline(always)]
pub(crate) fn kind_at(first: u8) -> Option<Kind> {
    match first {
        0x00..=0x1b => Some(Kind::Unsigned),
        0x20..=0x3b => Some(Kind::Signed),
        0x40..=0x5b | 0x5f => Some(Kind::Bytes),
        0x60..=0x7b | 0x7f => Some(Kind::Str),
        0x80..=0x9b | 0x9f => Some(Kind::Seq),
        0xa0..=0xbb | 0xbf => Some(Kind::Map),
        0xf4 | 0xf5 => Some(Kind::Bool),
        0xf6 | 0xf7 => Some(Kind::Unit),
        0xf9..=0xfb => Some(Kind::Float),
        _ => None,
    }
}

/// The kind of the item with this head; None of a tag and of a break.
pub(crate) fn kind_of(head: Head) -> Option<Kind>
    ensures { result ≡ kind_of head }
{
    match head {
        Head::Unsigned(_) => Some(Kind::Unsigned),
        Head::Negative(_) => Some(Kind::Signed),
        Head::Bytes(_) => Some(Kind::Bytes),
        Head::Text(_) => Some(Kind::Str),
        Head::Array(_) => Some(Kind::Seq),
        Head::Map(_) => Some(Kind::Map),
        Head::Bool(_) => Some(Kind::Bool),
        Head::Null | Head::Undefined => Some(Kind::Unit),
        Head::Float(_) => Some(Kind::Float),
        Head::Tag(_) | Head::Break => None,
    }
}

/// The kind of the item at the front of these bytes within its tags, of which so many levels are
/// read; None where no head of an item stands there.
pub(crate) fn kind_within(alloc: Global, bytes: &[u8], levels: u64) -> Option<Kind> {
    let mut decoder = Decoder::new(alloc, SliceRead::new(alloc, bytes));
    decoder.levels = levels;
    match tagged_head(&mut decoder) {
        Ok(head) => kind_of(head),
        Err(_) => None,
    }
}
