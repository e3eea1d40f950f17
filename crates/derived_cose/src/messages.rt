//! Messages of COSE.

use crate::keys::Algorithm;
use serde::{Deserialize, Serialize};

/// What stands in the protected header of a message that is signed.
#[derive(Debug, Drop, Serialize, Deserialize)]
pub struct Protected {
    #[serde(rename = "1")]
    pub alg: Algorithm,
}

/// The header of a message that isn't protected.
#[derive(Debug, Drop, Serialize, Deserialize)]
pub struct Headers {
    #[serde(rename = "4", with = "cbor_serde::bytes")]
    pub kid: Vec<u8>,
}

/// The same, with a nonce; what is empty is left out (RFC 8152, section 3.1).
#[derive(Debug, Drop, Serialize, Deserialize)]
pub struct OpenHeaders {
    #[serde(rename = "4", default)]
    #[serde(skip_serializing_if = "Vec::is_empty", with = "cbor_serde::bytes")]
    pub kid: Vec<u8>,
    #[serde(rename = "5", default)]
    #[serde(skip_serializing_if = "Vec::is_empty", with = "cbor_serde::bytes")]
    pub iv: Vec<u8>,
}

/// A message with one signature (RFC 8152, section 4.2), for `Options::structs_as_arrays`.
#[derive(Debug, Drop, Serialize, Deserialize)]
pub struct Sign1 {
    #[serde(with = "cbor_serde::bytes")]
    pub protected: Vec<u8>,
    pub unprotected: Headers,
    #[serde(with = "cbor_serde::bytes")]
    pub payload: Vec<u8>,
    #[serde(with = "cbor_serde::bytes")]
    pub signature: Vec<u8>,
}

/// The same as a tuple, which is an array without that option.
#[derive(Debug, Drop, Serialize, Deserialize)]
pub struct Sign1Parts(
    #[serde(with = "cbor_serde::bytes")] pub Vec<u8>,
    pub Headers,
    #[serde(with = "cbor_serde::bytes")] pub Vec<u8>,
    #[serde(with = "cbor_serde::bytes")] pub Vec<u8>,
);

/// A message with a code by a key that both sides have (RFC 8152, section 6.2), for
/// `Options::structs_as_arrays`.
#[derive(Debug, Drop, Serialize, Deserialize)]
pub struct Mac0 {
    #[serde(with = "cbor_serde::bytes")]
    pub protected: Vec<u8>,
    pub unprotected: OpenHeaders,
    #[serde(with = "cbor_serde::bytes")]
    pub payload: Vec<u8>,
    #[serde(with = "cbor_serde::bytes")]
    pub tag: Vec<u8>,
}

/// A message that is encrypted by such a key (RFC 8152, section 5.2), for
/// `Options::structs_as_arrays`.
#[derive(Debug, Drop, Serialize, Deserialize)]
pub struct Encrypt0 {
    #[serde(with = "cbor_serde::bytes")]
    pub protected: Vec<u8>,
    pub unprotected: OpenHeaders,
    #[serde(with = "cbor_serde::bytes")]
    pub ciphertext: Vec<u8>,
}
