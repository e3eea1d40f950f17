//! Changing a map's value in place.

ghost use Rattle.std.specs.Prelude.{◌≡◌, option_map};
ghost use Rattle.std.specs.Borrow.{sem};
ghost use Rattle.std.specs.FinMap as finmap;
ghost use Rattle.cbor_model.specs.Canonical.{KeysAscend};
ghost use Rattle.cbor_model.specs.Plain.{text, integer};
ghost use Rattle.cbor_value.specs.Lending.{LendsValue};
ghost use Rattle.cbor_value.specs.View.{view, map_view, map_of};

use super::lookup::Key;
use super::{Map, Value};

impl Map {
    /// The value of a key, to be changed in place, or `None` where the map lacks the key. The keys
    /// stay as they are, and so do the values of the others. It takes no memory.
    ///
    /// ```rust
    /// let mut map = Map::new(alloc);
    /// map.insert(Value::Integer(1), Value::Bool(false))?;
    /// if let Some(value) = map.get_mut(&Value::Integer(1)) {
    ///     *value = Value::Bool(true);
    /// }
    /// assert_eq!(rt; map.get_integer(1), Some(&Value::Bool(true)));
    /// ```
    pub fn get_mut(&mut self, key: &Value) -> Option<&mut Value>
        ensures* writes_back { sem 𝓛 (LendsValue self.entry (view key.now) result) }
        ensures found { KeysAscend (map_view self.old)
            → option_map (λ v. view v.now) result ≡ finmap.get (map_of self.old) (view key.now) }
    {
        self.find_mut(key)
    }

    /// The value of a text key, to be changed in place, as by [`get_mut`](Map::get_mut) of that
    /// text, with no `String` made of it.
    ///
    /// ```rust
    /// let mut map = Map::new(alloc);
    /// map.insert(Value::Text("port".to_owned(alloc)?), Value::Integer(80))?;
    /// if let Some(port) = map.get_str_mut("port") {
    ///     *port = Value::Integer(8080);
    /// }
    /// assert_eq!(rt; map.get_str("port"), Some(&Value::Integer(8080)));
    /// ```
    pub fn get_str_mut(&mut self, key: &str) -> Option<&mut Value>
        ensures* writes_back { sem 𝓛 (LendsValue self.entry (text key.now) result) }
        ensures found { KeysAscend (map_view self.old)
            → option_map (λ v. view v.now) result ≡ finmap.get (map_of self.old) (text key.now) }
    {
        self.find_mut(&key)
    }

    /// The value of an integer key, to be changed in place, as by [`get_mut`](Map::get_mut) of that
    /// integer.
    pub fn get_integer_mut(&mut self, key: i128) -> Option<&mut Value>
        ensures* writes_back { sem 𝓛 (LendsValue self.entry (integer key) result) }
        ensures found { KeysAscend (map_view self.old)
            → option_map (λ v. view v.now) result ≡ finmap.get (map_of self.old) (integer key) }
    {
        self.find_mut(&key)
    }

    /// The value of a key, to be changed in place.
    fn find_mut<K: Key>(&mut self, key: &K) -> Option<&mut Value>
        ensures* writes_back { sem 𝓛 (LendsValue self.entry (K.stands_for key.now) result) }
        ensures found { KeysAscend (map_view self.old) → option_map (λ v. view v.now) result
            ≡ finmap.get (map_of self.old) (K.stands_for key.now) }
    {
        match self.position(key) {
            Ok(i) => {
                let pair = &mut self.pairs[i];
                Some(&mut pair.1)
            }
            Err(_) => None,
        }
    }
}
