//! What the laws of these types ask of a value (`law.fits`): nothing that a program's value lacks.

use crate::big::{BigInt, BigUint};
use crate::time::{DateTime, EpochTime};
use cbor_round_trip::RoundTrip;

/// Every time is read back as it was written.
pub fn times_fit(a: &DateTime, b: EpochTime)
    ensures of_date_time { ⟦<DateTime as RoundTrip>⟧.law.fits a.now }
    ensures of_epoch_time { ⟦<EpochTime as RoundTrip>⟧.law.fits b }
{}

/// So is every big number, with the bytes that it has.
pub fn big_numbers_fit(a: &BigUint, b: &BigInt)
    ensures of_big_uint { ⟦<BigUint as RoundTrip>⟧.law.fits a.now }
    ensures of_big_int { ⟦<BigInt as RoundTrip>⟧.law.fits b.now }
{}
