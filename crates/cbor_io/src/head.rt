//! Heads: the byte, or bytes, that an item begins with (RFC 7049, section 2).

ghost use Rattle.std.specs.Prelude.{◌≡◌, ◌<◌, ◌/◌};
ghost use Rattle.cbor_io.specs.Head.{major_number};

/// The eight major types (RFC 7049, section 2.1), which the upper three bits of an item's first
/// byte say.
#[derive(Clone, Copy, Debug, PartialEq, Eq)]
pub enum Major {
    /// 0: an unsigned integer.
    UnsignedInteger,
    /// 1: a negative integer; n stands for -1 - n.
    NegativeInteger,
    /// 2: a byte string.
    ByteString,
    /// 3: a text string, of UTF-8.
    TextString,
    /// 4: an array of items.
    Array,
    /// 5: a map of pairs of items.
    Map,
    /// 6: a tag, and the item that it is of.
    Tag,
    /// 7: a simple value, a float, or the break.
    Simple,
}

impl Major {
    /// That of the item that begins with this byte.
    ///
    /// ```rust
    /// assert_eq!(rt; Major::of(0x83), Major::Array); // 83: an array of three items
    /// assert_eq!(rt; Major::of(0x83).number(), 4);
    /// ```
    pub fn of(first: u8) -> Major
        ensures { major_number result ≡ first / 32 }
    {
        match first / 32 {
            0 => Major::UnsignedInteger,
            1 => Major::NegativeInteger,
            2 => Major::ByteString,
            3 => Major::TextString,
            4 => Major::Array,
            5 => Major::Map,
            6 => Major::Tag,
            _ => Major::Simple,
        }
    }

    /// Its number, as `Major::Tag` is major type 6.
    pub fn number(self) -> u8
        ensures number { result ≡ major_number self }
        ensures below { result < 8 }
    {
        self as u8
    }
}
