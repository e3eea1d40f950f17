//! Types as users write them.

use crate::message::Message;
use cbor_tables::{Desk, Row};
use own_types::labels::Key;
use own_types::records::{Pair, Settings};
use row_types::assorted::Assorted;
use row_types::bookmark::Bookmark;
use row_types::choice::Choice;
use row_types::enums::{DataEnum, TwoVariants, Wish};
use row_types::floats::FloatEnum;
use row_types::labels::{Claims, Headers, PublicKey, SymmetricKey};
use row_types::letters::{EnumStruct, Letter, ReprEnumStruct};
use row_types::private_keys::{PrivateKey, SharedKey};
use row_types::structs::{Brief, NewtypeStruct, OptionalPerson, UnitStruct};
use row_types::weather::Weather;
use samples::enums::{Color, EachKind};
use samples::nested::{Example, Foo};
use samples::structs::{Credentials, Mascot, Person, SmallStruct};
use samples::tree::Tree;
use serde_cbor::Deserializer;
use serde_cbor::bytes::ByteBuf;
use serde_cbor::de::Read;
use serde_cbor::tags::Tagged;
use std::io;

/// Judges a row of one of these; false where the type isn't known.
pub fn judge<'r, R: Read<'r> + Drop>(
    desk: &mut Desk<'_>,
    row: &Row<'_>,
    de: Deserializer<R>,
) -> io::Result<bool> {
    match row.kind {
        "Credentials" => desk.reads::<Credentials, R>(row, de)?,
        "SmallStruct" => desk.reads::<SmallStruct, R>(row, de)?,
        "Brief" => desk.reads::<Brief, R>(row, de)?,
        "NewtypeStruct<bool>" => desk.reads::<NewtypeStruct<bool>, R>(row, de)?,
        "NewtypeStruct<u8>" => desk.reads::<NewtypeStruct<u8>, R>(row, de)?,
        "Mascot" => desk.reads::<Mascot, R>(row, de)?,
        "Person" => desk.reads::<Person, R>(row, de)?,
        "Foo" => desk.reads::<Foo, R>(row, de)?,
        "Example" => desk.reads::<Example, R>(row, de)?,
        "OptionalPerson" => desk.reads::<OptionalPerson, R>(row, de)?,
        "Weather" => desk.reads::<Weather, R>(row, de)?,
        "Tree" => desk.reads::<Tree, R>(row, de)?,
        _ => return enums(desk, row, de),
    }
    Ok(true)
}

fn enums<'r, R: Read<'r> + Drop>(
    desk: &mut Desk<'_>,
    row: &Row<'_>,
    de: Deserializer<R>,
) -> io::Result<bool> {
    match row.kind {
        "Choice" => desk.reads::<Choice, R>(row, de)?,
        "Color" => desk.reads::<Color, R>(row, de)?,
        "EachKind" => desk.reads::<EachKind, R>(row, de)?,
        "DataEnum" => desk.reads::<DataEnum, R>(row, de)?,
        "TwoVariants" => desk.reads::<TwoVariants, R>(row, de)?,
        _ => return lists_of_enums(desk, row, de),
    }
    Ok(true)
}

fn lists_of_enums<'r, R: Read<'r> + Drop>(
    desk: &mut Desk<'_>,
    row: &Row<'_>,
    de: Deserializer<R>,
) -> io::Result<bool> {
    match row.kind {
        "Vec<Wish>" => desk.reads::<Vec<Wish>, R>(row, de)?,
        "Vec<DataEnum>" => desk.reads::<Vec<DataEnum>, R>(row, de)?,
        _ => return small(desk, row, de),
    }
    Ok(true)
}

fn small<'r, R: Read<'r> + Drop>(
    desk: &mut Desk<'_>,
    row: &Row<'_>,
    de: Deserializer<R>,
) -> io::Result<bool> {
    match row.kind {
        "Letter" => desk.reads::<Letter, R>(row, de)?,
        "EnumStruct" => desk.reads::<EnumStruct, R>(row, de)?,
        "ReprEnumStruct" => desk.reads::<ReprEnumStruct, R>(row, de)?,
        "FloatEnum" => desk.reads::<FloatEnum, R>(row, de)?,
        "Bookmark" => desk.reads::<Bookmark, R>(row, de)?,
        "UnitStruct" => desk.reads::<UnitStruct, R>(row, de)?,
        "Assorted" => desk.reads::<Assorted, R>(row, de)?,
        _ => return nested(desk, row, de),
    }
    Ok(true)
}

fn nested<'r, R: Read<'r> + Drop>(
    desk: &mut Desk<'_>,
    row: &Row<'_>,
    de: Deserializer<R>,
) -> io::Result<bool> {
    match row.kind {
        "Message" => desk.reads::<Message, R>(row, de)?,
        "Settings" => desk.reads::<Settings, R>(row, de)?,
        "Pair<u8>" => desk.reads::<Pair<u8>, R>(row, de)?,
        _ => return labelled(desk, row, de),
    }
    Ok(true)
}

fn labelled<'r, R: Read<'r> + Drop>(
    desk: &mut Desk<'_>,
    row: &Row<'_>,
    de: Deserializer<R>,
) -> io::Result<bool> {
    match row.kind {
        "Headers" => desk.reads::<Headers, R>(row, de)?,
        "Key" => desk.reads::<Key, R>(row, de)?,
        "PublicKey" => desk.reads::<PublicKey, R>(row, de)?,
        "Vec<PublicKey>" => desk.reads::<Vec<PublicKey>, R>(row, de)?,
        "SymmetricKey" => desk.reads::<SymmetricKey, R>(row, de)?,
        "PrivateKey" => desk.reads::<PrivateKey, R>(row, de)?,
        "SharedKey" => desk.reads::<SharedKey, R>(row, de)?,
        "Claims" => desk.reads::<Claims, R>(row, de)?,
        _ => return messages(desk, row, de),
    }
    Ok(true)
}

fn messages<'r, R: Read<'r> + Drop>(
    desk: &mut Desk<'_>,
    row: &Row<'_>,
    de: Deserializer<R>,
) -> io::Result<bool> {
    match row.kind {
        "Tagged<(ByteBuf, Headers, ByteBuf)>" => {
            desk.reads::<Tagged<(ByteBuf, Headers, ByteBuf)>, R>(row, de)?
        }
        "Tagged<(ByteBuf, Headers, ByteBuf, ByteBuf)>" => {
            desk.reads::<Tagged<(ByteBuf, Headers, ByteBuf, ByteBuf)>, R>(row, de)?
        }
        _ => return Ok(false),
    }
    Ok(true)
}
