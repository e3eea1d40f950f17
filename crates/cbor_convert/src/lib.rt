//! Values in a program, as `Value`s: what a value of any type that is written stands for, and what
//! a `Value` is read as.
//!
//! [`to_value`] and [`from_value`] go from a type to a `Value` and back, [`to_vec_canonical`]
//! writes the one encoding that stands for a value of any type, and the builders put a `Value`
//! together part by part. [`Tagged`] keeps the outermost tag of an item (RFC 7049, section 2.4),
//! and [`Required`] asks for one; [`Encoded`] is an item that is kept as its bytes.
#![tactic(auto)]

mod canonical;
mod encoded;
mod laws;
mod list;
mod map;
mod outermost;
mod pairs;
mod reading;
mod required;
mod tagged;
mod values;
mod variants;

pub use canonical::to_vec_canonical;
pub use encoded::Encoded;
pub use laws::{compare_as_bytes, same_value_same_bytes};
pub use list::SerializeVec;
pub use map::SerializeMap;
pub use reading::from_value;
pub use required::Required;
pub use tagged::Tagged;
pub use values::{ToValue, to_value};
pub use variants::{SerializeStructVariant, SerializeTupleVariant};
