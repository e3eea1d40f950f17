//! Values of any kind, their parts, and what values of other types stand for.

pub use cbor_convert::{
    SerializeMap, SerializeStructVariant, SerializeTupleVariant, SerializeVec, ToValue,
    compare_as_bytes, from_value, same_value_same_bytes, to_value,
};
pub use cbor_forms::{
    integer_of, length_first_reads_back, reduced, reduced_number, reduced_once,
    same_dcbor_numbers_same_bytes, same_number_in_dcbor, same_number_same_float,
    same_numbers_same_bytes, shortened, shortened_once, shorter_keys_first,
};
pub use cbor_value::{Float, Map, Value};
