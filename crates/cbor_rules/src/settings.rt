//! The rules that bytes can be held to.

ghost use Rattle.std.specs.Prelude.{◌≡◌};

/// What the keys of each map have to be: in an order in which they ascend by their encodings, each
/// value once, or any. Keys that ascend differ in their bytes; one value has several encodings
/// unless heads are the shortest, lengths definite, floats at their shortest and undefined, which is
/// read as null, refused too.
#[derive(Clone, Copy, Debug, PartialEq, Eq)]
pub enum KeyOrder {
    /// In any order, and more than once.
    Any,
    /// In any order, each value once: two encodings of one value are one key twice. Equal numbers
    /// in floats of two widths are two values, as for `Value`.
    Unique,
    /// By their bytes, as RFC 8949, section 4.2.1, has it.
    Bytewise,
    /// Shorter ones first, and those of one length by their bytes: RFC 8949, section 4.2.3, and
    /// RFC 7049, section 3.9.
    LengthFirst,
    /// By their major types, then shorter ones first, and then by their bytes, as CTAP2 has it.
    TypeFirst,
}

/// One of the rules, as a [`Departure`](crate::Departure) names it.
#[derive(Clone, Copy, Debug, PartialEq, Eq)]
pub enum Rule {
    /// Each length, count, integer and tag is in the shortest head that holds it.
    ShortestHeads,
    /// No length is indefinite.
    DefiniteLengths,
    /// No key of a map is an array, a map or a tag.
    PlainKeys,
    /// Each map's keys strictly ascend.
    AscendingKeys,
    /// No map has a value as a key twice.
    UniqueKeys,
    /// No float is an integer from -2^63 to 2^64 - 1, and no integer is below -2^63: dCBOR's
    /// numeric reduction (draft-mcnally-deterministic-cbor).
    ReducedNumbers,
    /// No float could be narrower and the same number.
    ShortestFloats,
    /// Each NaN is `f9 7e 00`.
    OneNan,
    /// No item is undefined.
    NoUndefined,
    /// No item has a tag.
    NoTags,
    /// No array has more items than there may be.
    MostItems,
    /// No map has more pairs than there may be.
    MostPairs,
    /// No string has more bytes than there may be, its chunks joined.
    MostBytes,
}

/// The rules that are on.
///
/// ```rust
/// let rules = Rules { no_tags: true, ..Rules::DETERMINISTIC };
/// assert!(rt; rules.shortest_heads);
/// ```
///
/// By [`from_slice_with`](crate::from_slice_with) an item is read before the rules are looked at, so
/// there a limit bounds what is kept, and not what memory reading takes, which the input's length
/// bounds. [`from_slice_checked`](crate::from_slice_checked) refuses an item by its limits before
/// memory is taken for it:
///
/// ```rust
/// let limits = Rules { most_items: Some(2), most_bytes: Some(100), ..Rules::ANY };
/// let value: Value = from_slice_checked(alloc, b"\x82\x01\x61a", limits)?;
/// ```
#[derive(Clone, Copy, Debug, PartialEq, Eq)]
pub struct Rules {
    /// The order in which the keys of each map strictly ascend, or that each value is a key once.
    pub keys: KeyOrder,
    /// Whether each key of a map has to be a number, a string or a simple value.
    pub plain_keys: bool,
    /// Whether each head has to be the shortest.
    pub shortest_heads: bool,
    /// Whether each length has to be definite.
    pub definite_lengths: bool,
    /// Whether each number has to be as dCBOR reduces it: an integer where it is one from -2^63 to
    /// 2^64 - 1, and no integer below these.
    pub reduced_numbers: bool,
    /// Whether each float has to be at its shortest.
    pub shortest_floats: bool,
    /// Whether each NaN has to be `f9 7e 00`.
    pub one_nan: bool,
    /// Whether undefined is refused.
    pub no_undefined: bool,
    /// Whether tags are refused.
    pub no_tags: bool,
    /// The most items that an array may have, or None for any number.
    pub most_items: Option<u64>,
    /// The most pairs that a map may have, or None for any number.
    pub most_pairs: Option<u64>,
    /// The most bytes that a string may have, its chunks joined, or None for any number.
    pub most_bytes: Option<u64>,
}

impl Rules {
    /// None: what `from_slice` reads.
    pub const ANY: Rules = Rules {
        keys: KeyOrder::Any,
        plain_keys: false,
        shortest_heads: false,
        definite_lengths: false,
        reduced_numbers: false,
        shortest_floats: false,
        one_nan: false,
        no_undefined: false,
        no_tags: false,
        most_items: None,
        most_pairs: None,
        most_bytes: None,
    };

    /// No map has a key twice, which RFC 8949, section 5.6, asks of valid items, and COSE of its
    /// maps of labels (RFC 9052, section 9). In all else it is what `from_slice` reads.
    pub const UNIQUE_KEYS: Rules = Rules {
        keys: KeyOrder::Unique,
        ..Rules::ANY
    };

    /// The canonical form of this library: shortest heads, definite lengths, keys ascending by
    /// their bytes, floats in the width that they have, and no undefined. It is what
    /// `from_slice_canonical` reads and `to_vec_canonical` writes.
    pub const CANONICAL: Rules = Rules {
        keys: KeyOrder::Bytewise,
        plain_keys: false,
        shortest_heads: true,
        definite_lengths: true,
        reduced_numbers: false,
        shortest_floats: false,
        one_nan: false,
        no_undefined: true,
        no_tags: false,
        most_items: None,
        most_pairs: None,
        most_bytes: None,
    };

    /// The core deterministic encoding (RFC 8949, section 4.2.1): shortest heads and floats,
    /// definite lengths, and keys ascending by their bytes. A NaN is `f9 7e 00`, as section 4.2.2
    /// has it for protocols that use one NaN. It is exactly what `to_vec_deterministic` writes.
    ///
    /// So undefined is refused, which no value is written as, though section 4.2.1 has it. It is let
    /// through, and read as null, where that rule is off:
    ///
    /// ```rust
    /// let rules = Rules { no_undefined: false, ..Rules::DETERMINISTIC };
    /// let value: Value = from_slice_with(alloc, b"\xf7", rules)?;
    /// assert!(rt; value == Value::Null);
    /// ```
    pub const DETERMINISTIC: Rules = Rules {
        keys: KeyOrder::Bytewise,
        plain_keys: false,
        shortest_heads: true,
        definite_lengths: true,
        reduced_numbers: false,
        shortest_floats: true,
        one_nan: true,
        no_undefined: true,
        no_tags: false,
        most_items: None,
        most_pairs: None,
        most_bytes: None,
    };

    /// The deterministic encoding with shorter keys first (RFC 8949, section 4.2.3). It is exactly
    /// what `to_vec_length_first` writes, so that undefined is refused.
    pub const LENGTH_FIRST: Rules = Rules {
        keys: KeyOrder::LengthFirst,
        plain_keys: false,
        shortest_heads: true,
        definite_lengths: true,
        reduced_numbers: false,
        shortest_floats: true,
        one_nan: true,
        no_undefined: true,
        no_tags: false,
        most_items: None,
        most_pairs: None,
        most_bytes: None,
    };

    /// The canonical form of CTAP2 (CTAP 2.1, section 8): shortest heads, definite lengths, keys
    /// ascending by type, length and bytes, floats in the width that they have, and no tags. No key
    /// is an array or a map, which CTAP2 doesn't use as such; of others its order is that of the
    /// bytes, so that this is exactly what `to_vec_canonical` writes of a value without tags and
    /// without such keys (laws `ctap2_written_is_accepted`, `ctap2_accepted_is_written`); undefined
    /// is refused. That CTAP2 nests four levels at the most is none of these rules.
    pub const CTAP2: Rules = Rules {
        keys: KeyOrder::TypeFirst,
        plain_keys: true,
        shortest_heads: true,
        definite_lengths: true,
        reduced_numbers: false,
        shortest_floats: false,
        one_nan: false,
        no_undefined: true,
        no_tags: true,
        most_items: None,
        most_pairs: None,
        most_bytes: None,
    };

    /// dCBOR (draft-mcnally-deterministic-cbor): the core deterministic encoding, with each number
    /// that is an integer from -2^63 to 2^64 - 1 as that integer, no other integers, and of simple
    /// values false, true and null alone. It is what `to_vec_dcbor` writes. That text is in
    /// Unicode's normalization form C, as the draft asks, is not looked at.
    pub const DCBOR: Rules = Rules {
        keys: KeyOrder::Bytewise,
        plain_keys: false,
        shortest_heads: true,
        definite_lengths: true,
        reduced_numbers: true,
        shortest_floats: true,
        one_nan: true,
        no_undefined: true,
        no_tags: false,
        most_items: None,
        most_pairs: None,
        most_bytes: None,
    };

    /// These, with this order of keys.
    pub fn with_keys(self, order: KeyOrder) -> Rules
        ensures { result ≡ record self { keys = order } }
    {
        Rules {
            keys: order,
            ..self
        }
    }
}
