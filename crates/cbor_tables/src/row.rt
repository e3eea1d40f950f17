//! A row of a table.

use crate::bytes;
use crate::how::{How, Source};
use std::alloc::{AllocError, Global};
use std::fmt;

/// A row.
#[derive(Drop)]
pub struct Row<'a> {
    /// What the bytes are read as.
    pub kind: &'a str,
    /// How they are read, and in which form the value is written.
    pub how: How,
    /// The bytes.
    pub bytes: Vec<u8>,
    /// The value as `{:?}` prints it, or `error: ` and the error's text; nothing for any value.
    pub answer: &'a str,
    /// The bytes that the value is written as.
    pub written: Option<Vec<u8>>,
}

/// Why a line is no row.
#[derive(Clone, Copy, Debug, PartialEq)]
pub enum Malformed {
    /// It has another number of columns.
    Columns,
    /// No type has this name.
    Kind,
    /// A word of how to read isn't known.
    How,
    /// The bytes are none.
    Bytes,
    /// It says neither an answer nor what is written, or of an error that it is written.
    NoAnswer,
    /// It doesn't say what it shows.
    NoWord,
    /// Memory ran out.
    OutOfMemory,
}

impl From<AllocError> for Malformed {
    fn from(_: AllocError) -> Malformed {
        Malformed::OutOfMemory
    }
}

impl fmt::Display for Malformed {
    fn fmt<W: fmt::Write>(&self, f: &mut fmt::Formatter<W>) -> fmt::Result {
        let text = match self {
            Malformed::Columns => "not six columns",
            Malformed::Kind => "unknown type",
            Malformed::How => "unknown word in the column how",
            Malformed::Bytes => "not bytes",
            Malformed::NoAnswer => "no answer, or a refusal that is written",
            Malformed::NoWord => "no word on what it shows",
            Malformed::OutOfMemory => "out of memory",
        };
        write!(f, "{text}")
    }
}

impl<'a> Row<'a> {
    /// Reads a line.
    pub fn parse(alloc: Global, line: &'a str) -> Result<Row<'a>, Malformed> {
        let (kind, rest) = cut(line)?;
        let (how, rest) = cut(rest)?;
        let (read, rest) = cut(rest)?;
        let (answer, rest) = cut(rest)?;
        let (written, shows) = cut(rest)?;
        if shows.contains('|') {
            return Err(Malformed::Columns);
        }
        if shows.is_empty() {
            return Err(Malformed::NoWord);
        }
        if says_nothing(answer, written) {
            return Err(Malformed::NoAnswer);
        }
        let read = bytes::parse(alloc, read)?;
        let written = match written {
            "" => None,
            "=" => Some(read.clone()?),
            text => Some(bytes::parse(alloc, text)?),
        };
        Ok(Row {
            kind,
            how: How::parse(how).ok_or(Malformed::How)?,
            bytes: read,
            answer,
            written,
        })
    }
}

impl Row<'_> {
    /// Whether the bytes are read, and not refused.
    pub fn is_read(&self) -> bool {
        !self.answer.starts_with("error: ")
    }

    // Whether the type borrows from its source.
    fn borrows(&self) -> bool {
        self.kind.contains('&') || self.kind == "Bytes"
    }

    /// Whether the row asks for this source. What borrows is read from a reader only where the row
    /// says so.
    pub fn asks_for(&self, source: Source) -> bool {
        match self.how.source {
            Some(one) => one == source,
            None => source != Source::Reader || !self.borrows(),
        }
    }
}

// The first column, and the others.
fn cut(line: &str) -> Result<(&str, &str), Malformed> {
    match line.split_once('|') {
        Some((column, others)) => Ok((column.trim(), others.trim())),
        None => Err(Malformed::Columns),
    }
}

// Whether neither column says anything, or both say what can't be.
fn says_nothing(answer: &str, written: &str) -> bool {
    if written.is_empty() {
        answer.is_empty()
    } else {
        answer.starts_with("error: ")
    }
}
