//! A table, row by row.

use crate::sources;
use cbor_tables::{Desk, Malformed, Row, Source, Step};
use std::io;

/// How many rows a table has, and how many of them are not answered rightly.
#[derive(Clone, Copy, Debug, PartialEq)]
pub struct Tally {
    pub rows: usize,
    pub wrong: usize,
}

/// Answers each row of a table, and reports those that are answered otherwise. A line that is no
/// row, and a table of none, count as wrong rows.
pub fn answer(rt: &HostRuntime, table: &str, text: &str, reports_each: bool) -> io::Result<Tally> {
    let mut tally = Tally { rows: 0, wrong: 0 };
    for (i, line) in text.lines().enumerate() {
        if line.trim().is_empty() || line.starts_with('#') {
            continue;
        }
        let mut desk = Desk {
            rt,
            reports_each,
            table,
            line: i.saturating_add(1),
            step: Step::Read(Source::Slice),
            ends: true,
            steps: 0,
            wrong: 0,
        };
        answer_line(&mut desk, line)?;
        tally.rows = tally.rows.saturating_add(1);
        if desk.wrong != 0 {
            tally.wrong = tally.wrong.saturating_add(1);
        }
    }
    if tally.rows == 0 {
        println!(rt; "{table}: no rows")?;
        tally.wrong = 1;
    }
    Ok(tally)
}

// Answers a line.
fn answer_line(desk: &mut Desk<'_>, line: &str) -> io::Result<()> {
    let row = match Row::parse(desk.rt.alloc(), line) {
        Ok(row) => row,
        Err(malformed) => return desk.refuses(malformed),
    };
    if !sources::judge(desk, &row)? {
        return desk.refuses(Malformed::Kind);
    }
    Ok(())
}
