//! Five types as users derive them: an enum in each of the four forms, and a struct that borrows,
//! flattens and contains itself.
#![tactic(auto)]

use cbor_serde::{Result, from_slice, to_vec};
use serde::{Deserialize, Serialize};
use std::alloc::Global;

/// Variants by their names, and one that holds something as a map of one pair.
#[derive(Debug, Drop, PartialEq, Serialize, Deserialize)]
#[serde(rename_all = "snake_case")]
pub enum Shape {
    Dot,
    Circle(f32),
    Line(u8, i16),
    LongRect { width: u16, height: u16 },
}

/// The variant's name among its fields.
#[derive(Debug, Drop, PartialEq, Serialize, Deserialize)]
#[serde(tag = "type")]
pub enum Event {
    Start { at: u64 },
    Stop,
}

/// The variant's name beside what it holds.
#[derive(Debug, Drop, PartialEq, Serialize, Deserialize)]
#[serde(tag = "t", content = "c")]
pub enum Answer {
    Shapes(Vec<Shape>),
    Refused(u8, bool),
    Nothing,
}

/// What it holds alone: the first variant that reads it.
#[derive(Debug, Drop, PartialEq, Serialize, Deserialize)]
#[serde(untagged)]
pub enum Note {
    Number(u64),
    Text(String),
}

/// A text that the input lends, the fields of another type, and folders within.
#[derive(Debug, Drop, PartialEq, Serialize, Deserialize)]
#[serde(recursive, rename_all = "camelCase")]
pub struct Folder<'a> {
    pub file_name: &'a str,
    #[serde(flatten)]
    pub event: Event,
    #[serde(skip_serializing_if = "Option::is_none")]
    pub note: Option<Note>,
    #[serde(default, recursive)]
    pub folders: Vec<Folder<'a>>,
}

/// The bytes of a folder.
pub fn write_folder(alloc: Global, folder: &Folder<'_>) -> Result<Vec<u8>> {
    to_vec(alloc, folder)
}

/// The folder that the bytes encode, which lend its names.
pub fn read_folder<'a>(alloc: Global, bytes: &'a [u8]) -> Result<Folder<'a>> {
    from_slice(alloc, bytes)
}

/// The bytes of an answer.
pub fn write_answer(alloc: Global, answer: &Answer) -> Result<Vec<u8>> {
    to_vec(alloc, answer)
}

/// The answer that the bytes encode.
pub fn read_answer(alloc: Global, bytes: &[u8]) -> Result<Answer> {
    from_slice(alloc, bytes)
}
