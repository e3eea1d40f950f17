//! Answers the tables of rows in `data/`, and reports the rows that are answered otherwise than
//! they say.
#![tactic(auto)]

mod message;
mod program;
mod sources;
mod table;
mod user_types;

use std::process::ExitCode;

fn main(rt: HostRuntime) -> ExitCode {
    match program::run(&rt) {
        Ok(true) => ExitCode::SUCCESS,
        Ok(false) => ExitCode::FAILURE,
        Err(error) => {
            // Nothing is left to do where standard error fails as well.
            let _ = eprintln!(rt; "cbor_rows: {error}");
            ExitCode::FAILURE
        }
    }
}
