//! CBOR's values, floats and byte strings as items of the kit's `serde`.
//!
//! `specs/Sent.antt` says which events a value sends.
#![tactic(auto)]

mod bytes;
mod fetch;
mod float_item;
mod item;
mod send;

pub use bytes::{ByteArray, ByteBuf, Bytes};
pub use float_item::FloatItem;
pub use item::Item;
