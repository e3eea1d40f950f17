//! Keys, messages and answers of public protocols: COSE, CBOR Web Tokens, CTAP and WebAuthn.
#![tactic(auto)]

mod answers;
mod keys;
mod messages;

pub use answers::{Info, InfoOptions, Octets, Packed, PackedStatement};
pub use keys::{
    Algorithm, Curve, KeyType, PrivateKey, PublicKey, SharedKey, SigningKey, SymmetricKey,
};
pub use messages::{Encrypt0, Headers, Mac0, OpenHeaders, Protected, Sign1, Sign1Parts};
