//! Keys of COSE.

use serde::{Deserialize, Serialize};

/// What a key is (RFC 8152, table 21).
#[derive(Clone, Copy, Debug, PartialEq, Serialize, Deserialize)]
pub enum KeyType {
    #[serde(rename = "1")]
    Okp,
    #[serde(rename = "2")]
    Ec2,
    #[serde(rename = "4")]
    Symmetric,
}

/// The curve of a key (RFC 8152, table 22).
#[derive(Clone, Copy, Debug, PartialEq, Serialize, Deserialize)]
pub enum Curve {
    #[serde(rename = "1")]
    P256,
    #[serde(rename = "2")]
    P384,
    #[serde(rename = "3")]
    P521,
}

/// What is computed with a key (RFC 8152, tables 5, 7 and 10).
#[derive(Clone, Copy, Debug, PartialEq, Serialize, Deserialize)]
pub enum Algorithm {
    #[serde(rename = "-36")]
    Es512,
    #[serde(rename = "-35")]
    Es384,
    #[serde(rename = "-7")]
    Es256,
    #[serde(rename = "4")]
    HmacSha64,
    #[serde(rename = "5")]
    HmacSha256,
    #[serde(rename = "10")]
    AesCcm64,
}

/// A public key of an elliptic curve, with the name that it is known by.
#[derive(Debug, Drop, Serialize, Deserialize)]
pub struct PublicKey {
    #[serde(rename = "-1")]
    pub crv: Curve,
    #[serde(rename = "-2", with = "cbor_serde::bytes")]
    pub x: Vec<u8>,
    #[serde(rename = "-3", with = "cbor_serde::bytes")]
    pub y: Vec<u8>,
    #[serde(rename = "1")]
    pub kty: KeyType,
    #[serde(rename = "2", with = "cbor_serde::bytes")]
    pub kid: Vec<u8>,
}

/// A key of an elliptic curve with its secret part.
#[derive(Debug, Drop, Serialize, Deserialize)]
pub struct SigningKey {
    #[serde(rename = "-4", with = "cbor_serde::bytes")]
    pub d: Vec<u8>,
    #[serde(rename = "-3", with = "cbor_serde::bytes")]
    pub y: Vec<u8>,
    #[serde(rename = "-2", with = "cbor_serde::bytes")]
    pub x: Vec<u8>,
    #[serde(rename = "-1")]
    pub crv: Curve,
    #[serde(rename = "1")]
    pub kty: KeyType,
    #[serde(rename = "2", with = "cbor_serde::bytes")]
    pub kid: Vec<u8>,
    #[serde(rename = "3")]
    pub alg: Algorithm,
}

/// A secret that both sides have.
#[derive(Debug, Drop, Serialize, Deserialize)]
pub struct SymmetricKey {
    #[serde(rename = "-1", with = "cbor_serde::bytes")]
    pub k: Vec<u8>,
    #[serde(rename = "1")]
    pub kty: KeyType,
    #[serde(rename = "2", with = "cbor_serde::bytes")]
    pub kid: Vec<u8>,
    #[serde(rename = "3")]
    pub alg: Algorithm,
}

/// A key of an elliptic curve with its secret part, for any algorithm (RFC 8152, section 13.1.1).
/// Its labels ascend by their bytes.
#[derive(Debug, Drop, Serialize, Deserialize)]
pub struct PrivateKey {
    #[serde(rename = "1")]
    pub kty: KeyType,
    #[serde(rename = "2", with = "cbor_serde::bytes")]
    pub kid: Vec<u8>,
    #[serde(rename = "-1")]
    pub crv: Curve,
    #[serde(rename = "-2", with = "cbor_serde::bytes")]
    pub x: Vec<u8>,
    #[serde(rename = "-3", with = "cbor_serde::bytes")]
    pub y: Vec<u8>,
    #[serde(rename = "-4", with = "cbor_serde::bytes")]
    pub d: Vec<u8>,
}

/// A secret that both sides have, for any algorithm (RFC 8152, section 13.3). Its labels ascend.
#[derive(Debug, Drop, Serialize, Deserialize)]
pub struct SharedKey {
    #[serde(rename = "1")]
    pub kty: KeyType,
    #[serde(rename = "2", with = "cbor_serde::bytes")]
    pub kid: Vec<u8>,
    #[serde(rename = "-1", with = "cbor_serde::bytes")]
    pub k: Vec<u8>,
}
