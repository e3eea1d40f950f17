//! Streams: items that are read one after the other.

use crate::desk::{Desk, Outcome, outcome_of};
use crate::row::Row;
use cbor_de::{Deserialize, Deserializer};
use cbor_read::Read;
use std::fmt::Debug;
use std::io;

/// Judges what a stream gives: each answer in turn, and that none follows.
pub fn judge<'r, T, R>(desk: &mut Desk<'_>, row: &Row<'_>, de: Deserializer<R>) -> io::Result<()>
where
    T: Deserialize<'r, R> + Debug,
    R: Read<'r> + Drop,
{
    desk.begins(desk.step)?;
    let outcome = outcome::<T, R>(de, row.answer);
    desk.ends(row, outcome)
}

// What comes of a stream, where these answers are wanted, of which the last is None.
fn outcome<'r, T, R>(de: Deserializer<R>, wanted: &str) -> Outcome
where
    T: Deserialize<'r, R> + Debug,
    R: Read<'r> + Drop,
{
    let mut wanted = wanted.split("; ");
    for answer in de.into_iter::<T>() {
        let outcome = outcome_of(&answer, wanted.next().unwrap_or(""));
        if outcome != Outcome::Right {
            return outcome;
        }
    }
    if wanted.next() == Some("None") && wanted.next().is_none() {
        Outcome::Right
    } else {
        Outcome::Wrong
    }
}
