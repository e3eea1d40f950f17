//! How the bytes of a row are read, and in which form their value is written.

ghost use Rattle.std.specs.Prelude.{◌≤◌};

/// How the bytes are read, and in which form their value is written.
#[derive(Clone, Copy, Debug, PartialEq)]
pub struct How {
    /// The source, where it is one alone.
    pub source: Option<Source>,
    /// How long the scratch is.
    pub scratch: u8,
    /// How many bytes a call of the reader gives at most.
    pub piece: u8,
    /// Which formats are read.
    pub reads: Formats,
    /// How many levels deep an item may be nested.
    pub limit: u8,
    /// The canonical encoding alone is read, of a slice.
    pub strict: bool,
    /// Items are read one after the other, to the end.
    pub stream: bool,
    /// Fields and variants are written by their numbers.
    pub packed: bool,
    /// Enums are written as arrays.
    pub legacy: bool,
    /// The canonical encoding is written of what the value stands for.
    pub canonical: bool,
    /// The library takes no memory for it.
    pub no_memory: bool,
}

/// A source.
#[derive(Clone, Copy, Debug, PartialEq)]
pub enum Source {
    Slice,
    Scratch,
    InPlace,
    Reader,
}

/// Which formats are read.
#[derive(Clone, Copy, Debug, PartialEq)]
pub struct Formats {
    pub names: bool,
    pub numbers: bool,
    pub map_enums: bool,
    pub array_enums: bool,
}

/// The longest scratch.
pub const SCRATCH: u8 = 64;

/// How many levels are read where a row doesn't say.
const LEVELS: u8 = 127;

/// The most levels that a row may ask for.
const MOST_LEVELS: u8 = 254;

impl How {
    /// By each source, the reader a byte at a time, in all formats; written by names.
    pub fn new() -> How {
        How {
            source: None,
            scratch: SCRATCH,
            piece: 1,
            reads: Formats {
                names: true,
                numbers: true,
                map_enums: true,
                array_enums: true,
            },
            limit: LEVELS,
            strict: false,
            stream: false,
            packed: false,
            legacy: false,
            canonical: false,
            no_memory: false,
        }
    }

    /// Reads the words of a row, with commas between them; None where one isn't known.
    pub fn parse(text: &str) -> Option<How> {
        let mut how = How::new();
        if text.is_empty() {
            return Some(how);
        }
        for word in text.split(',') {
            if !how.set(word.trim()) && !how.set_number(word.trim()) {
                return None;
            }
        }
        Some(how)
    }

    /// Whether one item is read, in all formats, as deep as where nothing is said.
    pub fn reads_all(&self) -> bool {
        let reads = self.reads;
        let all_formats = reads.names && reads.numbers && reads.map_enums && reads.array_enums;
        all_formats && self.limit == LEVELS && !self.stream
    }

    /// Whether items may be nested deeper than where nothing is said.
    pub fn reads_deeper(&self) -> bool {
        self.limit > LEVELS
    }

    /// How many levels deep an item may be nested.
    pub fn levels(&self) -> u8
        ensures { result ≤ 254 }
    {
        self.limit.min(MOST_LEVELS)
    }

    /// How long the scratch is.
    pub fn scratch_len(&self) -> usize
        ensures { result ≤ 64 }
    {
        usize::from(self.scratch.min(SCRATCH))
    }

    // Takes a word on its own; false where it isn't known.
    fn set(&mut self, word: &str) -> bool {
        match word {
            "slice" => self.source = Some(Source::Slice),
            "in place" => self.source = Some(Source::InPlace),
            "reader" => self.source = Some(Source::Reader),
            "no names" => self.reads.names = false,
            "no numbers" => self.reads.numbers = false,
            "no map enums" => self.reads.map_enums = false,
            "no array enums" => self.reads.array_enums = false,
            "strict" => self.strict = true,
            "stream" => self.stream = true,
            "packed" => self.packed = true,
            "legacy" => self.legacy = true,
            "canonical" => self.canonical = true,
            "no memory" => self.no_memory = true,
            // .ci/growths sees to it: some 4 KB in all, however long the row is.
            "little memory" => {}
            _ => return false,
        }
        true
    }

    // Takes a word with a number after it; false where it isn't known.
    fn set_number(&mut self, word: &str) -> bool {
        let Some((word, number)) = word.split_once(' ') else {
            return false;
        };
        let Ok(number) = number.parse::<u8>() else {
            return false;
        };
        match word {
            "scratch" if number <= SCRATCH => {
                self.source = Some(Source::Scratch);
                self.scratch = number;
            }
            "reader" if number != 0 => {
                self.source = Some(Source::Reader);
                self.piece = number;
            }
            "limit" if number <= MOST_LEVELS => self.limit = number,
            _ => return false,
        }
        true
    }
}
