//! Enums that derive the kit's `serde`, in each of the four forms.
#![tactic(auto)]

use derived_structs::User;
use serde::{Deserialize, Serialize};

/// Variants by their names, and one that holds something as a map of one pair.
#[derive(Debug, Drop, Serialize, Deserialize)]
#[serde(rename_all = "snake_case")]
pub enum Shape {
    NoShape,
    Circle(f32),
    Line(u8, i16),
    Rect { w: u16, h: u16 },
}

/// The variant's name among its fields.
#[derive(Debug, Drop, Serialize, Deserialize)]
#[serde(tag = "type")]
pub enum Event {
    Start { at: u64 },
    Named(User),
    Stop,
}

/// The variant's name beside what it holds.
#[derive(Debug, Drop, Serialize, Deserialize)]
#[serde(tag = "t", content = "c")]
pub enum Adjacent {
    One(u8),
    Two(u8, bool),
    Set { x: i8 },
    Unit,
}

/// What it holds alone: the first variant that reads it.
#[derive(Debug, Drop, Serialize, Deserialize)]
#[serde(untagged)]
pub enum Any {
    Number(u64),
    Pair(u8, bool),
    Named(User),
    Texts(Vec<String>),
}

/// The fields of a tagged enum among its own.
#[derive(Debug, Drop, Serialize, Deserialize)]
pub struct Hinted {
    #[serde(flatten)]
    pub kind: Event,
    pub extra: u8,
}
