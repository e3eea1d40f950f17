//! A row of a table.

use std::alloc::Global;

/// Some bytes, what they are read as or refused with, and what that is written as.
#[derive(Drop)]
pub struct Row<'a> {
    /// The type, as `types.rt` names it.
    pub kind: &'a str,
    pub bytes: Vec<u8>,
    /// What `{:?}` prints of what is read, or the words of the error; `data` of a message.
    pub answer: &'a str,
    /// In hexadecimal; empty where the row doesn't say it.
    pub written: &'a str,
}

impl<'a> Row<'a> {
    /// The row of a line `TYPE | BYTES | ANSWER | WRITTEN`, the last of which may be left out; None
    /// of another line.
    pub fn parse(alloc: Global, line: &'a str) -> Option<Row<'a>> {
        let mut cells = line.split(" | ");
        let kind = cells.next()?;
        let bytes = hex::decode(alloc, cells.next()?.trim()).ok()?;
        let answer = cells.next()?;
        let written = cells.next().unwrap_or("");
        Some(Row {
            kind,
            bytes,
            answer,
            written,
        })
    }
}
