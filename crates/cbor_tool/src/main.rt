//! Reads lines of CBOR in hexadecimal, and answers each with its canonical encoding. With the one
//! word `strict` after its name it reads canonical encodings alone, with the name of a form those
//! that keep its rules, and with `diagnose` it answers in diagnostic notation (RFC 8949, section
//! 8). With a last word `raw` it reads bytes in place of lines: a sequence of items (RFC 8742).
//!
//! It names `serde_cbor`, `cbor_diagnostic`, the definitions of `cbor_model`, and the kit's `hex`.
#![tactic(auto)]

mod arguments;
mod laws;
mod program;
mod sequence;
#[cfg(test)]
mod tests;

use crate::program::{Mode, run, run_by_rules, run_in, run_strict};
use crate::sequence::run_sequence;
use serde_cbor::Result;
use std::alloc::AllocError;
use std::env;
use std::io::{BufReader, ErrorKind};
use std::process::ExitCode;

const WORDS: &str = "strict | deterministic | length-first | ctap2 | dcbor | unique-keys | \
    [diagnose [--pretty]] [raw]";

fn main(rt: HostRuntime) -> ExitCode {
    match answer_input(&rt) {
        Ok(true) => ExitCode::SUCCESS,
        Ok(false) => {
            // Nothing is left to do where standard error fails.
            let _ = eprintln!(rt; "usage: cbor_tool [{WORDS}]");
            ExitCode::from(2)
        }
        Err(error) => {
            let _ = eprintln!(rt; "cbor_tool: {error}");
            ExitCode::FAILURE
        }
    }
}

// Answers standard input on standard output, as the words after the program's name choose. Where
// they choose nothing it reads nothing, and answers false.
fn answer_input(rt: &HostRuntime) -> Result<bool> {
    let words = read_words(rt)?;
    let mut reader = BufReader::new(rt.alloc(), rt.stdin()).map_err(|_| AllocError)?;
    let mut writer = rt.stdout();
    match arguments::mode(&words) {
        Some(Mode::Lenient) => run(rt.alloc(), &mut reader, &mut writer)?,
        Some(Mode::Strict) => run_strict(rt.alloc(), &mut reader, &mut writer)?,
        Some(Mode::ByRules(preset)) => {
            run_by_rules(preset, rt.alloc(), &mut reader, &mut writer)?
        }
        Some(mode) => run_in(mode, rt.alloc(), &mut reader, &mut writer)?,
        None => {
            let Some(form) = arguments::form(&words) else {
                return Ok(false);
            };
            run_sequence(form, rt.alloc(), reader, &mut writer)?;
        }
    }
    Ok(true)
}

// The words after the program's name.
fn read_words(rt: &HostRuntime) -> Result<Vec<String>> {
    let args = match env::args(rt) {
        Ok(args) => args,
        Err(fault) if fault.kind() == ErrorKind::OutOfMemory => return Err(AllocError.into()),
        // A word that isn't UTF-8, too.
        Err(fault) => return Err(fault.into()),
    };
    let mut words = Vec::new(rt.alloc());
    for word in args.skip(1) {
        words.push(word)?;
    }
    Ok(words)
}
