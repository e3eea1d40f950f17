//! What may be chosen of the encoding.

ghost use Rattle.std.specs.Prelude.{◌≡◌, true};
ghost use Rattle.cbor_serde_options.specs.Defaults.{default_options};

/// How many levels of arrays, maps and tags are read where nothing else is said.
const MAX_LEVELS: u8 = 127;

/// How names and floats are encoded, and how deep arrays, maps and tags may be nested.
///
/// ```rust
/// let cose = Options::new().integer_keys();
/// ```
#[derive(Clone, Copy, Debug, PartialEq, Eq)]
pub struct Options {
    /// Whether a field or a variant whose name is a decimal integer is that integer.
    pub integer_keys: bool,
    /// Whether a struct is written as the array of its fields.
    pub structs_as_arrays: bool,
    /// Whether a float is written in the shortest width that holds it.
    pub shortest_floats: bool,
    /// How many levels of arrays, maps and tags are read.
    pub levels: u8,
}

impl Options {
    /// Fields by their names, structs as maps, floats in their own width, and 127 levels.
    pub fn new() -> Options
        ensures { result ≡ default_options }
    {
        Options {
            integer_keys: false,
            structs_as_arrays: false,
            shortest_floats: false,
            levels: MAX_LEVELS,
        }
    }

    /// A field or a variant whose name is a decimal integer, as by `#[serde(rename = "-1")]`, is
    /// that integer, written and read: the field's key, the variant alone, or the key of what the
    /// variant holds. A text with its digits is another name then.
    ///
    /// An integer is then shown as a text to a type that looks which kind of item comes, such as
    /// JSON's `Value`, which reads no integers by this option.
    ///
    /// ```rust
    /// #[derive(Drop, Serialize, Deserialize)]
    /// enum Algorithm {
    ///     #[serde(rename = "-7")]
    ///     Es256,
    /// }
    /// #[derive(Drop, Serialize, Deserialize)]
    /// struct Key {
    ///     #[serde(rename = "1")]
    ///     kty: u8,
    ///     #[serde(rename = "3")]
    ///     alg: Algorithm,
    ///     #[serde(rename = "-1")]
    ///     curve: u8,
    /// }
    /// let cose = Options::new().integer_keys();
    /// let key: Key = from_slice_with(cose, alloc, b"\xa3\x01\x02\x03\x26\x20\x01")?;
    /// assert_eq!(rt; key.curve, 1);
    /// ```
    pub fn integer_keys(self) -> Options
        ensures { result ≡ record self { integer_keys = true } }
    {
        Options {
            integer_keys: true,
            ..self
        }
    }

    /// A struct, and a variant with named fields, is written as the array of its fields' values, in
    /// their order, as COSE has its messages. It stays a map where its first field's name is an
    /// integer by [`integer_keys`](Options::integer_keys), as in COSE's headers, and where it
    /// writes no field.
    ///
    /// A field that is left out moves those behind it: write a `None` as null. A flattened field is
    /// refused. Structs are read from maps and from arrays, whatever is chosen.
    ///
    /// ```rust
    /// #[derive(Drop, Serialize, Deserialize)]
    /// struct Point {
    ///     x: u8,
    ///     y: u8,
    /// }
    /// let arrays = Options::new().structs_as_arrays();
    /// let bytes = to_vec_with(arrays, alloc, &Point { x: 1, y: 2 })?;
    /// assert_eq!(rt; bytes.as_slice(), b"\x82\x01\x02".as_slice());
    /// ```
    pub fn structs_as_arrays(self) -> Options
        ensures { result ≡ record self { structs_as_arrays = true } }
    {
        Options {
            structs_as_arrays: true,
            ..self
        }
    }

    /// A float is written in the shortest of 16, 32 and 64 bits that holds it, and a NaN as
    /// `f9 7e 00`, as the Rust crate writes floats.
    ///
    /// ```rust
    /// let shortest = Options::new().shortest_floats();
    /// assert_eq!(rt; to_vec_with(shortest, alloc, &1.5f64)?.as_slice(), b"\xf9\x3e\0".as_slice());
    /// ```
    pub fn shortest_floats(self) -> Options
        ensures { result ≡ record self { shortest_floats = true } }
    {
        Options {
            shortest_floats: true,
            ..self
        }
    }

    /// Arrays, maps and tags that are nested deeper than so many levels are refused with
    /// `RecursionLimitExceeded` when they are read.
    ///
    /// ```rust
    /// let flat = Options::new().nesting_limit(0);
    /// let refused = from_slice_with::<Vec<u8>>(flat, alloc, b"\x80");
    /// assert!(rt; refused.is_err());
    /// ```
    pub fn nesting_limit(self, levels: u8) -> Options
        ensures { result ≡ record self { levels = levels } }
    {
        Options { levels, ..self }
    }
}
