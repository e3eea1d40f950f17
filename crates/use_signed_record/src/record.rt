//! Records whose protected header and payload are signed: COSE_Sign1 messages (RFC 9052, section
//! 4.2) in the canonical encoding.

ghost use Rattle.std.specs.Prelude.{◌≡◌, ◌↔◌, ℕ, List, IfErr, IfOk, IsTrue, MatchOption};
ghost use Rattle.std.specs.Prelude.{Some, true};
ghost use Rattle.std.specs.Fn.{FnOnceReturnsAtPair};
ghost use Rattle.serde_cbor.specs.Canonical.{IsOrdered};
ghost use Rattle.serde_cbor.specs.Error.{IsOutOfMemory};
ghost use Rattle.serde_cbor.specs.Plain.{Pairs};
ghost use Rattle.serde_cbor.specs.View.{view};
ghost use Rattle.use_signed_record.specs.Record.{ContentIsSigned, IsChecked, IsRefused};
ghost use Rattle.use_signed_record.specs.Record.{algorithm_of, message, signed_bytes};

use serde_cbor::bytes::Bytes;
use serde_cbor::error::Error;
use serde_cbor::model::value_is_in_range;
use serde_cbor::{Value, from_slice_canonical, to_vec_canonical};
use std::alloc::Global;
use std::fmt;
use std::fmt::{Display, Formatter, Write};

/// The tag of a COSE_Sign1 message (RFC 9052, section 2).
const SIGN1: u64 = 18;

/// The label of the algorithm in a header (RFC 9052, section 3.1).
const ALGORITHM: i128 = 1;

/// What a signed record says. Its unprotected header, which nobody signed, isn't part of it.
#[derive(Debug, Drop)]
pub struct Record {
    /// The protected header, a map.
    pub header: Value,
    /// The payload.
    pub payload: Vec<u8>,
}

/// Why [`open`] hands out no record.
#[derive(Debug, Drop)]
pub enum OpenError {
    /// The input isn't canonically encoded, or memory ran out.
    Encoding(Error),
    /// The protected header isn't, at an offset from its own first byte, or memory ran out.
    Header(Error),
    /// The input isn't a COSE_Sign1 message, or its header doesn't name the algorithm.
    NotARecord,
    /// The check refused the signature.
    WrongSignature,
}

impl Display for OpenError {
    fn fmt<W: Write>(&self, f: &mut Formatter<W>) -> fmt::Result {
        match self {
            OpenError::Encoding(error) => write!(f, "{error}"),
            OpenError::Header(error) => write!(f, "{error} of the protected header"),
            OpenError::NotARecord => f.write_str("not a record of this algorithm"),
            OpenError::WrongSignature => f.write_str("wrong signature"),
        }
    }
}

/// The record that the input encodes, if its header names the algorithm and `is_valid` accepts its
/// signature.
///
/// `is_valid` is called once, with the bytes that were signed and with the signature. The signed
/// bytes are those of the header and the payload that are handed out, and of no others: input that
/// isn't in the one canonical encoding of what it says is refused before the call.
pub fn open<F: FnOnce(&[u8], &[u8]) -> bool>(
    alloc: Global,
    input: &[u8],
    algorithm: i128,
    is_valid: F,
) -> Result<Record, OpenError>
    requires { F.IsAlwaysCallable is_valid }
    ensures checked { IfOk result (λ r. IsChecked (FnOnceReturnsAtPair F.FnOnce is_valid)
        input.now algorithm (view r.header) r.payload.items true) }
    ensures refused { IfErr result
        (IsRefused (FnOnceReturnsAtPair F.FnOnce is_valid) input.now algorithm) }
{
    let value = match from_slice_canonical(alloc, input) {
        Ok(value) => value,
        Err(error) => return Err(OpenError::Encoding(error)),
    };
    let Some(parts) = parts_of(&value) else {
        return Err(OpenError::NotARecord);
    };
    let header = match from_slice_canonical(alloc, parts.protected) {
        Ok(header) => header,
        Err(error) => return Err(OpenError::Header(error)),
    };
    if !names(&header, algorithm) {
        return Err(OpenError::NotARecord);
    }
    let (signed, payload) = match signed_and_payload(alloc, &parts) {
        Ok(both) => both,
        Err(error) => return Err(OpenError::Encoding(error)),
    };
    if !is_valid(&signed, parts.signature) {
        return Err(OpenError::WrongSignature);
    }
    Ok(Record { header, payload })
}

/// The bytes that are signed say the header and the payload, and no others: records with equal
/// ones have the same, and records with different ones have different ones.
///
/// A function that does nothing, and whose contract is that law.
pub fn content_is_signed()
    ensures { ContentIsSigned }
{
    value_is_in_range();
}

// The byte strings of a message.
#[derive(Clone, Copy)]
struct Parts<'a> {
    protected: &'a [u8],
    payload: &'a [u8],
    signature: &'a [u8],
}

// The parts of a message; `None` of a value that is none.
fn parts_of(value: &Value) -> Option<Parts<'_>>
    ensures { MatchOption result
        ((h : List ℕ) (u : Pairs) (p s : List ℕ) → view value.now ≡ message h u p s → ⊥)
        (λ parts. (u : Pairs)
        × (view value.now ≡ message parts.protected.now u parts.payload.now parts.signature.now)) }
{
    let (SIGN1, items) = value.as_tag()? else {
        return None;
    };
    let [protected, unprotected, payload, signature] = items.as_array()? else {
        return None;
    };
    unprotected.as_map()?;
    Some(Parts {
        protected: protected.as_bytes()?,
        payload: payload.as_bytes()?,
        signature: signature.as_bytes()?,
    })
}

// Whether a header names this algorithm.
fn names(header: &Value, algorithm: i128) -> bool
    requires { IsOrdered (view header.now) }
    ensures { IsTrue result ↔ (algorithm_of (view header.now) ≡ Some algorithm) }
{
    algorithm_in(header) == Some(algorithm)
}

// The algorithm that a header names.
fn algorithm_in(header: &Value) -> Option<i128>
    requires { IsOrdered (view header.now) }
    ensures { result ≡ algorithm_of (view header.now) }
{
    header.get_integer(ALGORITHM)?.as_integer()
}

// The bytes that were signed, and the payload.
fn signed_and_payload(alloc: Global, parts: &Parts) -> Result<(Vec<u8>, Vec<u8>), Error>
    ensures signed { IfOk result (λ both. both.0.items
        ≡ signed_bytes parts.now.protected.now parts.now.payload.now) }
    ensures payload { IfOk result (λ both. both.1.items ≡ parts.now.payload.now) }
    ensures memory { IfErr result IsOutOfMemory }
{
    let protected = Bytes::new(parts.protected);
    let payload = Bytes::new(parts.payload);
    let signed = to_vec_canonical(alloc, &("Signature1", protected, Bytes::new(&[]), payload))?;
    Ok((signed, parts.payload.to_vec(alloc)?))
}
