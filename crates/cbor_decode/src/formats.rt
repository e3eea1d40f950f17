//! Which formats are read.

ghost use Rattle.std.specs.Prelude.{◌≡◌};
ghost use Rattle.cbor_model.specs.Formats.{may_begin_key};
ghost use Rattle.cbor_decode.specs.Decoder.{formats_of};

/// Which formats a [`Decoder`](crate::Decoder) reads.
#[derive(Clone, Copy, Debug)]
pub struct Formats {
    /// Whether keys of maps may be names.
    pub named: bool,
    /// Whether keys of maps may be numbers from 0.
    pub packed: bool,
    /// Whether an enum may be its name alone, or a map of one pair.
    pub standard_enums: bool,
    /// Whether an enum may be an array.
    pub legacy_enums: bool,
}

impl Formats {
    /// All of them.
    pub const ALL: Formats = Formats {
        named: true,
        packed: true,
        standard_enums: true,
        legacy_enums: true,
    };

    /// Whether a key of a map may begin with this byte: a number from 0 begins with 00 to 1b, a
    /// text with 60 to 7b or, in chunks, with 7f.
    #[inline(always)]
    pub fn may_begin_key(self, byte: u8) -> bool
        ensures { result ≡ may_begin_key (formats_of self) byte }
    {
        // Most decoders read both.
        if self.named && self.packed {
            return true;
        }
        match byte {
            0x00..=0x1b => self.packed,
            0x60..=0x7b | 0x7f => self.named,
            _ => true,
        }
    }
}
