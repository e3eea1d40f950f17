//! Types that derive the kit's `serde`, with attributes that no type of the other crates has.
#![tactic(auto)]

use serde::{Deserialize, Deserializer, Format, Serialize, Serializer};
use std::alloc::Global;
use std::borrow::CowStr;

/// Other cases of names, and a variant that has more than one name.
#[derive(Debug, Drop, Serialize, Deserialize)]
#[serde(rename_all = "SCREAMING_SNAKE_CASE")]
pub struct Loud {
    pub max_size: u8,
    pub first_kind: Kind,
}

#[derive(Debug, Drop, Serialize, Deserialize)]
#[serde(rename_all = "kebab-case")]
pub enum Kind {
    FirstOne,
    SecondOne(u8),
    #[serde(rename = "third", alias = "3rd")]
    ThirdOne { inner_size: u8 },
    #[serde(skip)]
    Hidden,
}

/// The case of the fields of all variants.
#[derive(Debug, Drop, Serialize, Deserialize)]
#[serde(rename_all = "UPPERCASE", rename_all_fields = "PascalCase")]
pub enum Wide {
    Area { max_width: u8, max_height: u8 },
    Line { from_x: i8 },
}

/// What is missing has the value that the whole's default has.
#[derive(Debug, Drop, Serialize, Deserialize)]
#[serde(default, rename_all = "SCREAMING-KEBAB-CASE")]
pub struct Preset {
    pub log_level: u8,
    pub is_on: bool,
}

impl Default for Preset {
    fn default() -> Preset {
        Preset {
            log_level: 3,
            is_on: true,
        }
    }
}

/// Fields that are written and read otherwise.
#[derive(Debug, Drop, Serialize, Deserialize)]
pub struct Sided {
    #[serde(rename(serialize = "out", deserialize = "in"))]
    pub value: u8,
    #[serde(skip_serializing, default)]
    pub secret: u8,
    #[serde(skip_deserializing)]
    pub made: u8,
    #[serde(default = "eighty")]
    pub port: u16,
    #[serde(serialize_with = "send_negated", deserialize_with = "read_negated")]
    pub depth: i32,
}

fn eighty() -> u16 {
    80
}

fn send_negated<S: Serializer>(depth: &i32, out: &mut S) -> Result<(), S::Error> {
    out.i64(-i64::from(*depth))
}

fn read_negated<F: Format>(
    _alloc: Global,
    from: &mut Deserializer<'_, '_, F>,
) -> Result<i32, F::Error> {
    match i32::try_from(from.i64()?) {
        Ok(depth) => Ok(depth.wrapping_neg()),
        Err(_) => Err(from.invalid()),
    }
}

/// Its field alone.
#[derive(Debug, Drop, Serialize, Deserialize)]
#[serde(transparent)]
pub struct Id {
    pub number: u32,
}

/// Another type, which it is made of and made into.
#[derive(Clone, Copy, Debug, Drop, Serialize, Deserialize)]
#[serde(try_from = "u8", into = "u8")]
pub struct Percent(u8);

impl TryFrom<u8> for Percent {
    type Error = &'static str;

    fn try_from(n: u8) -> Result<Percent, &'static str> {
        if n <= 100 {
            Ok(Percent(n))
        } else {
            Err("more than all")
        }
    }
}

impl From<Percent> for u8 {
    fn from(percent: Percent) -> u8 {
        percent.0
    }
}

/// Another type, each value of which makes one.
#[derive(Clone, Copy, Debug, Drop, Serialize, Deserialize)]
#[serde(from = "Option<u8>", into = "u8")]
pub struct Volume(u8);

impl From<Option<u8>> for Volume {
    fn from(n: Option<u8>) -> Volume {
        Volume(n.unwrap_or(50))
    }
}

impl From<Volume> for u8 {
    fn from(volume: Volume) -> u8 {
        volume.0
    }
}

/// Any other name is its last variant.
#[derive(Debug, Drop, Serialize, Deserialize)]
#[serde(tag = "kind", rename_all = "lowercase", deny_unknown_fields)]
pub enum Command {
    Go { to: u8 },
    Stop,
    #[serde(other)]
    Unknown,
}

/// A case of the fields of one variant, a variant that is only read, and one that is only written.
#[derive(Debug, Drop, Serialize, Deserialize)]
#[serde(rename_all = "lowercase")]
pub enum Step {
    #[serde(rename_all = "kebab-case")]
    Copied { from_slot: u8, to_slot: u8 },
    Moved(#[serde(serialize_with = "send_negated", deserialize_with = "read_negated")] i32),
    #[serde(skip_serializing)]
    Old(u8),
    #[serde(skip_deserializing)]
    Waiting,
}

impl Default for Step {
    fn default() -> Step {
        Step::Waiting
    }
}

/// A text that is lent where it can be, and a default that isn't read.
#[derive(Debug, Drop, Serialize, Deserialize)]
#[serde(expecting = "a task")]
pub struct Task<'a> {
    #[serde(borrow)]
    pub title: CowStr<'a>,
    #[serde(default)]
    pub step: Step,
}

/// A parameter that nothing written holds, and a number that is left out where it is zero.
#[derive(Debug, Drop, Serialize, Deserialize)]
#[serde(bound = "")]
pub struct Cache<T: Drop> {
    pub hits: u16,
    #[serde(default, skip_serializing_if = "is_zero")]
    pub misses: u16,
    #[serde(skip)]
    pub kept: Vec<T>,
}

fn is_zero(n: &u16) -> bool {
    *n == 0
}

/// A type of any items.
#[derive(Debug, Drop, Serialize, Deserialize)]
pub struct Page<T> {
    pub items: Vec<T>,
    #[serde(skip_serializing_if = "Option::is_none")]
    pub next: Option<u32>,
}

/// The fields of two types among its own.
#[derive(Debug, Drop, Serialize, Deserialize)]
pub struct Joined {
    #[serde(flatten)]
    pub user: User,
    #[serde(flatten)]
    pub sides: Sides,
    pub id: Id,
}

#[derive(Debug, Drop, Serialize, Deserialize)]
pub struct User {
    pub user_id: u32,
    pub admin: bool,
}

#[derive(Debug, Drop, Serialize, Deserialize)]
pub struct Sides {
    pub w: u8,
    #[serde(default)]
    pub h: u8,
}
