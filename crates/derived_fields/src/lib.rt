//! What fields hold: numbers, texts, tuples, maps, byte strings, nothing.
#![tactic(auto)]

use serde::{Deserialize, Serialize};
use std::collections::BTreeMap;

/// Fields of many types.
#[derive(Debug, Drop, Serialize, Deserialize)]
pub struct Mixed<'a> {
    pub c: char,
    pub big: i128,
    pub small: f32,
    pub none: Option<u8>,
    pub some: Option<u8>,
    pub unit: (),
    pub tup: (u8, &'a str),
    pub map: BTreeMap<i32, bool>,
    pub arr: [u8; 3],
}

/// An array of its parts.
#[derive(Debug, Drop, Serialize, Deserialize)]
pub struct Pair(pub u8, pub bool);

/// The part alone.
#[derive(Debug, Drop, Serialize, Deserialize)]
pub struct Wrap(pub u64);

/// Null.
#[derive(Debug, Drop, Serialize, Deserialize)]
pub struct Nothing;

/// A byte string, and an array of numbers.
#[derive(Debug, Drop, Serialize, Deserialize)]
pub struct Blob {
    #[serde(with = "cbor_serde::bytes")]
    pub data: Vec<u8>,
    pub plain: Vec<u8>,
}
