//! What the programs do that answer tables.

use crate::table::{Tally, answer};
use std::{env, fs, io};

/// Answers the tables that the program's words name, and returns whether all rows are answered as
/// they say. It reports the rows that are not, and how many there were; `each` before the names has
/// each step of each row reported. A table that can't be read, or has no rows, counts as a wrong
/// row.
pub fn run(rt: &HostRuntime) -> io::Result<bool> {
    let mut all = Tally { rows: 0, wrong: 0 };
    let mut tables = 0usize;
    let mut reports_each = false;
    for word in env::args(rt)?.skip(1) {
        if word.as_str() == "each" {
            reports_each = true;
            continue;
        }
        let tally = answer_file(rt, word.as_str(), reports_each)?;
        all.rows = all.rows.saturating_add(tally.rows);
        all.wrong = all.wrong.saturating_add(tally.wrong);
        tables = tables.saturating_add(1);
    }
    println!(rt;
        "{} rows in {tables} tables, {} answered otherwise",
        all.rows, all.wrong
    )?;
    Ok(all.rows != 0 && all.wrong == 0)
}

// Answers a table.
fn answer_file(rt: &HostRuntime, name: &str, reports_each: bool) -> io::Result<Tally> {
    match fs::read_to_string(rt, name) {
        Ok(text) => answer(rt, name, text.as_str(), reports_each),
        Err(error) => {
            println!(rt; "{name}: {error}")?;
            Ok(Tally { rows: 0, wrong: 1 })
        }
    }
}
