//! Answers the tables of rows in `data/`, and reports the rows that are answered otherwise than
//! they say.
#![tactic(auto)]

mod answer;
mod row;
mod table;
mod types;

use std::process::ExitCode;
use std::{env, fs, io};

fn main(rt: HostRuntime) -> ExitCode {
    match run(&rt) {
        Ok(true) => ExitCode::SUCCESS,
        Ok(false) => ExitCode::FAILURE,
        Err(error) => {
            // Nothing is left to do where standard error fails as well.
            let _ = eprintln!(rt; "derived_rows: {error}");
            ExitCode::FAILURE
        }
    }
}

// Answers the tables that the program's words name; whether all rows are answered as they say.
fn run(rt: &HostRuntime) -> io::Result<bool> {
    let mut rows = 0usize;
    let mut wrong = 0usize;
    for name in env::args(rt)?.skip(1) {
        let text = fs::read_to_string(rt, name.as_str())?;
        let tally = table::answer(rt, name.as_str(), text.as_str())?;
        rows = rows.saturating_add(tally.rows);
        wrong = wrong.saturating_add(tally.wrong);
    }
    println!(rt; "{rows} rows, {wrong} answered otherwise")?;
    Ok(rows != 0 && wrong == 0)
}
