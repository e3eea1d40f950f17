//! Types of std that are read, byte strings, and those of the values.

mod boxed;
mod byte_strings;
mod character;
mod floats;
mod ignored;
mod maps;
mod option;
mod raw;
mod sequences;
mod sets;
mod signed;
mod simple;
mod strings;
mod tuples;
mod unsigned;
mod value;

pub use ignored::IgnoredAny;
