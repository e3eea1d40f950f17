//! Structs that derive the kit's `serde`: names, defaults, fields that are left out, flattened
//! ones.
#![tactic(auto)]

use serde::{Deserialize, Serialize};

/// Fields by their names.
#[derive(Debug, Drop, Serialize, Deserialize)]
pub struct User {
    pub user_id: u32,
    pub admin: bool,
}

/// Names in another case, a text that the input lends, and a field with a default.
#[derive(Debug, Drop, Serialize, Deserialize)]
#[serde(rename_all = "camelCase")]
pub struct Moon<'a> {
    pub name: &'a str,
    pub orbit_days: u64,
    #[serde(default)]
    pub craters: Vec<u32>,
}

/// A default, a field that is never written, one that is left out, another name and an alias.
#[derive(Debug, Drop, Serialize, Deserialize)]
pub struct Tuned {
    #[serde(default)]
    pub level: u8,
    #[serde(skip)]
    pub hidden: u8,
    #[serde(skip_serializing_if = "Option::is_none")]
    pub note: Option<bool>,
    #[serde(rename = "n", alias = "num")]
    pub number: i64,
}

/// The fields of another type among its own.
#[derive(Debug, Drop, Serialize, Deserialize)]
pub struct Outer {
    pub id: u8,
    #[serde(flatten)]
    pub inner: User,
    pub last: f64,
}

/// Fields that it does not have are refused.
#[derive(Debug, Drop, Serialize, Deserialize)]
#[serde(deny_unknown_fields)]
pub struct Strict {
    pub a: u8,
    pub b: Option<u8>,
}

/// A type that contains itself.
#[derive(Debug, Drop, Serialize, Deserialize)]
#[serde(recursive)]
pub struct Tree {
    pub v: u8,
    #[serde(recursive)]
    pub kids: Vec<Tree>,
}
