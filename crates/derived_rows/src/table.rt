//! A table, row by row.

use crate::row::Row;
use crate::types::judge;
use std::io;

/// How many rows a table has, and how many of them are not answered as they say.
#[derive(Clone, Copy, Debug, PartialEq)]
pub struct Tally {
    pub rows: usize,
    pub wrong: usize,
}

/// Answers each row of a table, and reports those that are answered otherwise. A line that is no
/// row counts as a wrong one.
pub fn answer(rt: &HostRuntime, table: &str, text: &str) -> io::Result<Tally> {
    let mut tally = Tally { rows: 0, wrong: 0 };
    for (i, line) in text.lines().enumerate() {
        if line.trim().is_empty() || line.starts_with('#') {
            continue;
        }
        tally.rows = tally.rows.saturating_add(1);
        if !is_right(rt, line) {
            tally.wrong = tally.wrong.saturating_add(1);
            println!(rt; "{table}:{}: answered otherwise", i.saturating_add(1))?;
        }
    }
    Ok(tally)
}

// Whether the line is a row that is answered as it says.
fn is_right(rt: &HostRuntime, line: &str) -> bool {
    match Row::parse(rt.alloc(), line) {
        Some(row) => matches!(judge(rt.alloc(), &row), Ok(Some(true))),
        None => false,
    }
}
