//! Structs whose keys are integers (`Options::integer_keys`), as protocols have them.
#![tactic(auto)]

use serde::{Deserialize, Serialize};

/// A COSE key of an elliptic curve (RFC 8152, sections 7.1 and 13.1.1).
#[derive(Debug, Drop, Serialize, Deserialize)]
pub struct CoseKey {
    #[serde(rename = "1")]
    pub kty: u8,
    #[serde(rename = "3", skip_serializing_if = "Option::is_none")]
    pub alg: Option<i32>,
    #[serde(rename = "-1")]
    pub crv: u8,
    #[serde(rename = "-2", with = "cbor_serde::bytes")]
    pub x: Vec<u8>,
    #[serde(rename = "-3", with = "cbor_serde::bytes")]
    pub y: Vec<u8>,
}

/// The claims of a CBOR Web Token (RFC 8392, section 3.1).
#[derive(Debug, Drop, Serialize, Deserialize)]
pub struct Claims<'a> {
    #[serde(rename = "1")]
    pub iss: &'a str,
    #[serde(rename = "2")]
    pub sub: &'a str,
    #[serde(rename = "3")]
    pub aud: &'a str,
    #[serde(rename = "4")]
    pub exp: u64,
    #[serde(rename = "5")]
    pub nbf: u64,
    #[serde(rename = "6")]
    pub iat: u64,
    #[serde(rename = "7", with = "cbor_serde::bytes")]
    pub cti: Vec<u8>,
}

/// One of these, whose time has a fraction of a second (RFC 8392, sections 2 and 3.1.6).
#[derive(Debug, Drop, Serialize, Deserialize)]
pub struct Issued {
    #[serde(rename = "6")]
    pub iat: f64,
}

/// An attestation object (Web Authentication, section 6.5.4).
#[derive(Debug, Drop, Serialize, Deserialize)]
pub struct Attestation<'a> {
    pub fmt: &'a str,
    #[serde(rename = "attStmt")]
    pub statement: Statement,
    #[serde(rename = "authData", with = "cbor_serde::bytes")]
    pub data: Vec<u8>,
}

/// An attestation statement: that of the format `none`, or a signature.
#[derive(Debug, Drop, Serialize, Deserialize)]
pub struct Statement {
    #[serde(skip_serializing_if = "Option::is_none")]
    pub alg: Option<i32>,
    #[serde(default, skip_serializing_if = "Vec::is_empty", with = "cbor_serde::bytes")]
    pub sig: Vec<u8>,
}
