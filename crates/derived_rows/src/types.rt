//! The types that rows name.

use crate::answer::{of_both, of_slice};
use crate::row::Row;
use cbor_serde::{Options, Result};
use derived_attributes::{
    Cache, Command, Id, Joined, Kind, Loud, Page, Percent, Preset, Sided, Step, Task, Volume, Wide,
};
use derived_cose::{
    Encrypt0, Info, Mac0, Packed, PrivateKey, Protected, PublicKey, SharedKey, Sign1, Sign1Parts,
    SigningKey, SymmetricKey,
};
use derived_enums::{Adjacent, Any, Event, Hinted, Shape};
use derived_fields::{Blob, Mixed, Nothing, Pair, Wrap};
use derived_keys::{Attestation, Claims, CoseKey, Issued};
use derived_structs::{Moon, Outer, Strict, Tree, Tuned, User};
use derived_types::{Answer, Folder};
use std::alloc::Global;
use std::cmp::Ordering;

/// Whether a row is answered as it says; None where no type has that name. Floats are written in
/// the shortest width, as the Rust crate writes them.
pub fn judge(alloc: Global, row: &Row<'_>) -> Result<Option<bool>> {
    let options = Options::new().shortest_floats();
    if let Some(right) = structs(options, alloc, row)? {
        return Ok(Some(right));
    }
    if let Some(right) = fields(options, alloc, row)? {
        return Ok(Some(right));
    }
    if let Some(right) = enums(options, alloc, row)? {
        return Ok(Some(right));
    }
    if let Some(right) = plain(options, alloc, row)? {
        return Ok(Some(right));
    }
    if let Some(right) = attributes(options, alloc, row)? {
        return Ok(Some(right));
    }
    if let Some(right) = keys(options, alloc, row)? {
        return Ok(Some(right));
    }
    cose(options.integer_keys(), alloc, row)
}

fn structs(options: Options, alloc: Global, row: &Row<'_>) -> Result<Option<bool>> {
    let bytes = row.bytes.as_slice();
    let right = match row.kind {
        "user" => of_both::<User>(options, alloc, row, bytes)?,
        "moon" => of_slice::<Moon>(options, alloc, row, bytes)?,
        "folder" => of_slice::<Folder>(options, alloc, row, bytes)?,
        "tuned" => of_both::<Tuned>(options, alloc, row, bytes)?,
        "outer" => of_both::<Outer>(options, alloc, row, bytes)?,
        "strict" => of_both::<Strict>(options, alloc, row, bytes)?,
        "tree" => of_both::<Tree>(options, alloc, row, bytes)?,
        _ => return Ok(None),
    };
    Ok(Some(right))
}

fn fields(options: Options, alloc: Global, row: &Row<'_>) -> Result<Option<bool>> {
    let bytes = row.bytes.as_slice();
    let right = match row.kind {
        "mixed" => of_slice::<Mixed>(options, alloc, row, bytes)?,
        "pair" => of_both::<Pair>(options, alloc, row, bytes)?,
        "wrap" => of_both::<Wrap>(options, alloc, row, bytes)?,
        "nothing" => of_both::<Nothing>(options, alloc, row, bytes)?,
        "blob" => of_both::<Blob>(options, alloc, row, bytes)?,
        _ => return Ok(None),
    };
    Ok(Some(right))
}

fn enums(options: Options, alloc: Global, row: &Row<'_>) -> Result<Option<bool>> {
    let bytes = row.bytes.as_slice();
    let right = match row.kind {
        "shape" => of_both::<Shape>(options, alloc, row, bytes)?,
        "event" => of_both::<Event>(options, alloc, row, bytes)?,
        "adjacent" => of_both::<Adjacent>(options, alloc, row, bytes)?,
        "any" => of_both::<Any>(options, alloc, row, bytes)?,
        "hinted" => of_both::<Hinted>(options, alloc, row, bytes)?,
        "answer" => of_both::<Answer>(options, alloc, row, bytes)?,
        _ => return Ok(None),
    };
    Ok(Some(right))
}

fn attributes(options: Options, alloc: Global, row: &Row<'_>) -> Result<Option<bool>> {
    let bytes = row.bytes.as_slice();
    let right = match row.kind {
        "loud" => of_both::<Loud>(options, alloc, row, bytes)?,
        "kind" => of_both::<Kind>(options, alloc, row, bytes)?,
        "wide" => of_both::<Wide>(options, alloc, row, bytes)?,
        "preset" => of_both::<Preset>(options, alloc, row, bytes)?,
        "sided" => of_both::<Sided>(options, alloc, row, bytes)?,
        "id" => of_both::<Id>(options, alloc, row, bytes)?,
        "percent" => of_both::<Percent>(options, alloc, row, bytes)?,
        "command" => of_both::<Command>(options, alloc, row, bytes)?,
        "page of numbers" => of_both::<Page<u8>>(options, alloc, row, bytes)?,
        "page of kinds" => of_both::<Page<Kind>>(options, alloc, row, bytes)?,
        "page of pages" => of_both::<Page<Page<bool>>>(options, alloc, row, bytes)?,
        "joined" => of_both::<Joined>(options, alloc, row, bytes)?,
        "volume" => of_both::<Volume>(options, alloc, row, bytes)?,
        "step" => of_both::<Step>(options, alloc, row, bytes)?,
        "task" => of_slice::<Task>(options, alloc, row, bytes)?,
        "cache" => of_both::<Cache<Ordering>>(options, alloc, row, bytes)?,
        _ => return Ok(None),
    };
    Ok(Some(right))
}

fn plain(options: Options, alloc: Global, row: &Row<'_>) -> Result<Option<bool>> {
    let bytes = row.bytes.as_slice();
    let right = match row.kind {
        "(u8, bool)" => of_both::<(u8, bool)>(options, alloc, row, bytes)?,
        "Option<u8>" => of_both::<Option<u8>>(options, alloc, row, bytes)?,
        "Vec<u8>" => of_both::<Vec<u8>>(options, alloc, row, bytes)?,
        "String" => of_both::<String>(options, alloc, row, bytes)?,
        "f32" => of_both::<f32>(options, alloc, row, bytes)?,
        "f64" => of_both::<f64>(options, alloc, row, bytes)?,
        "char" => of_both::<char>(options, alloc, row, bytes)?,
        "u64" => of_both::<u64>(options, alloc, row, bytes)?,
        _ => return Ok(None),
    };
    Ok(Some(right))
}

fn keys(options: Options, alloc: Global, row: &Row<'_>) -> Result<Option<bool>> {
    let bytes = row.bytes.as_slice();
    let integers = options.integer_keys();
    let right = match row.kind {
        "named key" => of_both::<CoseKey>(options, alloc, row, bytes)?,
        "key" => of_both::<CoseKey>(integers, alloc, row, bytes)?,
        "claims" => of_slice::<Claims>(integers, alloc, row, bytes)?,
        "issued" => of_both::<Issued>(integers, alloc, row, bytes)?,
        "attestation" => of_slice::<Attestation>(integers, alloc, row, bytes)?,
        _ => return Ok(None),
    };
    Ok(Some(right))
}

fn cose(options: Options, alloc: Global, row: &Row<'_>) -> Result<Option<bool>> {
    let bytes = row.bytes.as_slice();
    let arrays = options.structs_as_arrays();
    let right = match row.kind {
        "public keys" => of_both::<Vec<PublicKey>>(options, alloc, row, bytes)?,
        "signing key" => of_both::<SigningKey>(options, alloc, row, bytes)?,
        "symmetric key" => of_both::<SymmetricKey>(options, alloc, row, bytes)?,
        "private key" => of_both::<PrivateKey>(options, alloc, row, bytes)?,
        "shared key" => of_both::<SharedKey>(options, alloc, row, bytes)?,
        "protected" => of_both::<Protected>(arrays, alloc, row, bytes)?,
        "sign1" => of_both::<Sign1>(arrays, alloc, row, bytes)?,
        "sign1 parts" => of_both::<Sign1Parts>(options, alloc, row, bytes)?,
        "mac0" => of_both::<Mac0>(arrays, alloc, row, bytes)?,
        "encrypt0" => of_both::<Encrypt0>(arrays, alloc, row, bytes)?,
        "info" => of_slice::<Info>(options, alloc, row, bytes)?,
        "packed" => of_slice::<Packed>(options, alloc, row, bytes)?,
        _ => return Ok(None),
    };
    Ok(Some(right))
}
