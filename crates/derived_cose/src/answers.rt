//! Answers of authenticators.

use crate::keys::Algorithm;
use serde::{Deserialize, Serialize};

/// What an authenticator is able to do (CTAP 2.0, section 5.4).
#[derive(Debug, Drop, Serialize, Deserialize)]
pub struct Info<'a> {
    #[serde(rename = "1")]
    pub versions: Vec<&'a str>,
    #[serde(rename = "2")]
    pub extensions: Vec<&'a str>,
    #[serde(rename = "3", with = "cbor_serde::bytes")]
    pub aaguid: Vec<u8>,
    #[serde(rename = "4")]
    pub options: InfoOptions,
    #[serde(rename = "5")]
    pub max_msg_size: u32,
    #[serde(rename = "6")]
    pub pin_protocols: Vec<u8>,
}

/// The options of an authenticator. One without a user's presence or verification leaves it out.
#[derive(Debug, Drop, Serialize, Deserialize)]
#[serde(rename_all = "camelCase")]
pub struct InfoOptions {
    pub rk: bool,
    pub up: bool,
    #[serde(skip_serializing_if = "Option::is_none")]
    pub uv: Option<bool>,
    pub plat: bool,
    #[serde(skip_serializing_if = "Option::is_none")]
    pub client_pin: Option<bool>,
}

/// A byte string.
#[derive(Debug, Drop, Serialize, Deserialize)]
pub struct Octets(#[serde(with = "cbor_serde::bytes")] pub Vec<u8>);

/// An attestation object whose statement is a signature (Web Authentication, section 8.2).
#[derive(Debug, Drop, Serialize, Deserialize)]
pub struct Packed<'a> {
    pub fmt: &'a str,
    #[serde(rename = "attStmt")]
    pub statement: PackedStatement,
    #[serde(rename = "authData")]
    pub data: Octets,
}

/// The signature of an attestation, and the certificates of its key.
#[derive(Debug, Drop, Serialize, Deserialize)]
pub struct PackedStatement {
    pub alg: Algorithm,
    pub sig: Octets,
    pub x5c: Vec<Octets>,
}
