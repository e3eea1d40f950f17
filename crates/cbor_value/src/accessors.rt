//! What a value holds, by its kind.

ghost use Rattle.std.specs.Prelude.{◌≡◌, option_map, IfErr, string_bytes};
ghost use Rattle.std.specs.Result.{result_ok};
ghost use Rattle.std.specs.Borrow.{LendsIf, sem};
ghost use Rattle.cbor_value.specs.declared.Value.{Bytes, Text, Array, Map as OfMap};
ghost use Rattle.cbor_value.specs.Contents.{is_null, as_bool, as_integer, as_u64, as_i64, as_f64};
ghost use Rattle.cbor_value.specs.Contents.{as_bytes, as_text, as_array, as_map, as_tag};
ghost use Rattle.cbor_value.specs.Rows.{value_row, map_row, array_row, bytes_row, text_row};
ghost use Rattle.cbor_value.specs.View.{view, views, map_view};

use super::{Map, Value};

impl Value {
    /// Whether it is null.
    ///
    /// ```rust
    /// assert!(rt; Value::Null.is_null());
    /// assert!(rt; !Value::Bool(false).is_null());
    /// ```
    pub fn is_null(&self) -> bool
        ensures { result ≡ is_null (view self.now) }
    {
        match self {
            Value::Null => true,
            _ => false,
        }
    }

    /// The bool, or `None` of another value.
    ///
    /// ```rust
    /// assert_eq!(rt; Value::Bool(true).as_bool(), Some(true));
    /// assert_eq!(rt; Value::Null.as_bool(), None);
    /// ```
    pub fn as_bool(&self) -> Option<bool>
        ensures { result ≡ as_bool (view self.now) }
    {
        match self {
            Value::Bool(b) => Some(*b),
            _ => None,
        }
    }

    /// The integer, or `None` of another value: a float is no integer, whatever its number.
    ///
    /// ```rust
    /// assert_eq!(rt; Value::Integer(-7).as_integer(), Some(-7));
    /// assert_eq!(rt; Value::from(7.0).as_integer(), None);
    /// ```
    pub fn as_integer(&self) -> Option<i128>
        ensures { result ≡ as_integer (view self.now) }
    {
        match self {
            Value::Integer(i) => Some(*i),
            _ => None,
        }
    }

    /// The integer where a `u64` holds it, and otherwise `None`.
    ///
    /// ```rust
    /// assert_eq!(rt; Value::Integer(7).as_u64(), Some(7));
    /// assert_eq!(rt; Value::Integer(-7).as_u64(), None);
    /// ```
    pub fn as_u64(&self) -> Option<u64>
        ensures { result ≡ as_u64 (view self.now) }
    {
        u64::try_from(self.as_integer()?).ok()
    }

    /// The integer where an `i64` holds it, and otherwise `None`.
    ///
    /// ```rust
    /// assert_eq!(rt; Value::Integer(-7).as_i64(), Some(-7));
    /// assert_eq!(rt; Value::Integer(1 << 63).as_i64(), None);
    /// ```
    pub fn as_i64(&self) -> Option<i64>
        ensures { result ≡ as_i64 (view self.now) }
    {
        i64::try_from(self.as_integer()?).ok()
    }

    /// The float's number, exactly and whatever its width, or `None` of another value: no integer
    /// is a float. A NaN gives a NaN, of no particular sign or payload.
    ///
    /// ```rust
    /// assert_eq!(rt; Value::Float(Float::Half(0x3e00)).as_f64(), Some(1.5));
    /// assert_eq!(rt; Value::Integer(1).as_f64(), None);
    /// ```
    pub fn as_f64(&self) -> Option<f64>
        ensures { result ≡ as_f64 (view self.now) }
    {
        match self {
            Value::Float(float) => Some(float.to_f64()),
            _ => None,
        }
    }

    /// The bytes of a byte string, or `None` of another value.
    ///
    /// ```rust
    /// let value = Value::Bytes(vec![in alloc; 1, 2]?);
    /// assert_eq!(rt; value.as_bytes().map(|bytes| bytes.len()), Some(2));
    /// assert!(rt; Value::Null.as_bytes().is_none());
    /// ```
    pub fn as_bytes(&self) -> Option<&[u8]>
        ensures { option_map (λ b. b.now) result ≡ as_bytes (view self.now) }
    {
        match self {
            Value::Bytes(bytes) => Some(bytes),
            _ => None,
        }
    }

    /// The text of a text string, or `None` of another value.
    ///
    /// ```rust
    /// let value = Value::Text("port".to_owned(alloc)?);
    /// assert_eq!(rt; value.as_str(), Some("port"));
    /// assert_eq!(rt; Value::Null.as_str(), None);
    /// ```
    pub fn as_str(&self) -> Option<&str>
        ensures { option_map (λ s. s.now) result ≡ as_text (view self.now) }
    {
        match self {
            Value::Text(text) => Some(text.as_str()),
            _ => None,
        }
    }

    /// The items of an array, or `None` of another value.
    pub fn as_array(&self) -> Option<&[Value]>
        ensures { option_map (λ items. views items.now) result ≡ as_array (view self.now) }
    {
        match self {
            Value::Array(items) => Some(items),
            _ => None,
        }
    }

    /// The map, or `None` of another value.
    pub fn as_map(&self) -> Option<&Map>
        ensures { option_map (λ map. map_view map.now) result ≡ as_map (view self.now) }
    {
        match self {
            Value::Map(map) => Some(map),
            _ => None,
        }
    }

    /// A tag's number and the tagged value, or `None` of another value.
    ///
    /// ```rust
    /// let value = Value::Tag(1, Box::new(alloc, Value::Integer(0))?);
    /// assert_eq!(rt; value.as_tag(), Some((1, &Value::Integer(0))));
    /// ```
    pub fn as_tag(&self) -> Option<(u64, &Value)>
        ensures { option_map (λ t. (t.0, view t.1.now)) result ≡ as_tag (view self.now) }
    {
        match self {
            Value::Tag(tag, inner) => Some((*tag, inner)),
            _ => None,
        }
    }
}

impl Value {
    /// The bytes of a byte string, to be changed, or `None` of another value.
    pub fn as_bytes_mut(&mut self) -> Option<&mut Vec<u8>>
        ensures* writes_back { sem 𝓛 (LendsIf value_row bytes_row self.entry result
            Bytes self.old) }
        ensures value { option_map (λ b. b.now.items) result ≡ as_bytes (view self.old) }
    {
        match self {
            Value::Bytes(bytes) => Some(bytes),
            _ => None,
        }
    }

    /// The text of a text string, to be changed, or `None` of another value.
    pub fn as_text_mut(&mut self) -> Option<&mut String>
        ensures* writes_back { sem 𝓛 (LendsIf value_row text_row self.entry result Text self.old) }
        ensures value { option_map (λ s. string_bytes s.now) result ≡ as_text (view self.old) }
    {
        match self {
            Value::Text(text) => Some(text),
            _ => None,
        }
    }

    /// The items of an array, to be changed, or `None` of another value.
    pub fn as_array_mut(&mut self) -> Option<&mut Vec<Value>>
        ensures* writes_back { sem 𝓛 (LendsIf value_row array_row self.entry result
            Array self.old) }
        ensures value { option_map (λ items. views items.now.items) result
            ≡ as_array (view self.old) }
    {
        match self {
            Value::Array(items) => Some(items),
            _ => None,
        }
    }

    /// The map, to be changed, or `None` of another value.
    pub fn as_map_mut(&mut self) -> Option<&mut Map>
        ensures* writes_back { sem 𝓛 (LendsIf value_row map_row self.entry result OfMap self.old) }
        ensures value { option_map (λ map. map_view map.now) result ≡ as_map (view self.old) }
    {
        match self {
            Value::Map(map) => Some(map),
            _ => None,
        }
    }
}

impl Value {
    /// The bytes of a byte string. Another value is given back.
    pub fn into_bytes(self) -> Result<Vec<u8>, Value>
        ensures part { option_map (λ b. b.items) (result_ok result) ≡ as_bytes (view self) }
        ensures back { IfErr result (λ back. back ≡ self) }
    {
        match self {
            Value::Bytes(bytes) => Ok(bytes),
            other => Err(other),
        }
    }

    /// The text of a text string. Another value is given back.
    pub fn into_text(self) -> Result<String, Value>
        ensures part { option_map (λ s. string_bytes s) (result_ok result) ≡ as_text (view self) }
        ensures back { IfErr result (λ back. back ≡ self) }
    {
        match self {
            Value::Text(text) => Ok(text),
            other => Err(other),
        }
    }

    /// The items of an array. Another value is given back.
    pub fn into_array(self) -> Result<Vec<Value>, Value>
        ensures part { option_map (λ items. views items.items) (result_ok result)
            ≡ as_array (view self) }
        ensures back { IfErr result (λ back. back ≡ self) }
    {
        match self {
            Value::Array(items) => Ok(items),
            other => Err(other),
        }
    }

    /// The map. Another value is given back.
    pub fn into_map(self) -> Result<Map, Value>
        ensures part { option_map map_view (result_ok result) ≡ as_map (view self) }
        ensures back { IfErr result (λ back. back ≡ self) }
    {
        match self {
            Value::Map(map) => Ok(map),
            other => Err(other),
        }
    }

    /// A tag's number and the tagged value. Another value is given back.
    pub fn into_tag(self) -> Result<(u64, Value), Value>
        ensures part { option_map (λ t. (t.0, view t.1)) (result_ok result) ≡ as_tag (view self) }
        ensures back { IfErr result (λ back. back ≡ self) }
    {
        match self {
            Value::Tag(tag, inner) => Ok((tag, Box::into_inner(inner))),
            other => Err(other),
        }
    }
}
