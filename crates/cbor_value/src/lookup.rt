//! Looking into a value: by a key that is a text or an integer, and by a position.

ghost use Rattle.std.specs.Prelude.{◌≡◌, ◌≤◌, option_map, IfSome};
ghost use Rattle.std.specs.FinMap as finmap;
ghost use Rattle.cbor_model.specs.Canonical.{KeysAscend, IsOrdered};
ghost use Rattle.cbor_model.specs.Order.{val_cmp};
ghost use Rattle.cbor_model.specs.Plain.{Val, text, integer, pair_count};
ghost use Rattle.cbor_value.specs.Lookup.{value_of, item_of};
ghost use Rattle.cbor_value.specs.Search.{binary_digits};
ghost use Rattle.cbor_value.specs.View.{view, map_view, map_of};

use super::order::{cmp_integers, cmp_texts};
use super::{Map, Value};
use std::cmp::Ordering;

/// What a map is searched for: a value, or what stands for one and takes no memory.
pub(crate) trait Key {
    /// The key as a value.
    ghost stands_for: { Self → Val };

    /// The order of the key and a value.
    fn compare(&self, other: &Value) -> Ordering
        ensures { result ≡ val_cmp (stands_for self.now) (view other.now) };
}

impl Key for Value {
    ghost stands_for = { view };

    #[tactic(auto, unfolding(crate::specs::View::flat_of))]
    fn compare(&self, other: &Value) -> Ordering {
        self.cmp(other)
    }
}

impl Key for &str {
    ghost stands_for = { λ key. text key.now };

    /// Integers and byte strings stand before texts, and all else after them.
    #[tactic(auto, unfolding(cbor_model::specs::Order::flat))]
    fn compare(&self, other: &Value) -> Ordering {
        match other {
            Value::Text(text) => cmp_texts(self, text),
            Value::Integer(_) => Ordering::Greater,
            Value::Bytes(_) => Ordering::Greater,
            _ => Ordering::Less,
        }
    }
}

impl Key for i128 {
    ghost stands_for = { integer };

    /// Integers stand before all else.
    #[tactic(auto, unfolding(cbor_model::specs::Order::flat))]
    fn compare(&self, other: &Value) -> Ordering {
        match other {
            Value::Integer(i) => cmp_integers(*self, *i),
            _ => Ordering::Less,
        }
    }
}

impl Map {
    /// The value of a text key, as `get` of that text, with no `String` made of it.
    ///
    /// ```rust
    /// let mut map = Map::new(alloc);
    /// map.insert(Value::Text("port".to_owned(alloc)?), Value::Integer(80))?;
    /// assert_eq!(rt; map.get_str("port"), Some(&Value::Integer(80)));
    /// assert_eq!(rt; map.get_str("host"), None);
    /// ```
    pub fn get_str(&self, key: &str) -> Option<&Value>
        ensures { KeysAscend (map_view self.now)
            → option_map (λ v. view v.now) result ≡ finmap.get (map_of self.now) (text key.now) }
    {
        let (value, _) = self.get_str_counted(key);
        value
    }

    /// The value of a text key as by `get_str`, and how many keys the search compared it with: at
    /// most as many as the number of pairs has binary digits.
    pub fn get_str_counted(&self, key: &str) -> (Option<&Value>, u32)
        ensures found { KeysAscend (map_view self.now)
            → option_map (λ v. view v.now) result.0 ≡ finmap.get (map_of self.now) (text key.now) }
        ensures few { result.1 ≤ binary_digits (pair_count (map_view self.now)) }
        ensures some { result.1 ≡ 0 → pair_count (map_view self.now) ≡ 0 }
    {
        self.find(&key)
    }

    /// The value of an integer key, as `get` of that integer.
    ///
    /// ```rust
    /// let mut map = Map::new(alloc);
    /// map.insert(Value::Integer(-1), Value::Bool(true))?;
    /// assert_eq!(rt; map.get_integer(-1), Some(&Value::Bool(true)));
    /// assert_eq!(rt; map.get_integer(1), None);
    /// ```
    pub fn get_integer(&self, key: i128) -> Option<&Value>
        ensures { KeysAscend (map_view self.now)
            → option_map (λ v. view v.now) result ≡ finmap.get (map_of self.now) (integer key) }
    {
        let (value, _) = self.get_integer_counted(key);
        value
    }

    /// The value of an integer key as by `get_integer`, and how many keys the search compared it
    /// with: at most as many as the number of pairs has binary digits.
    pub fn get_integer_counted(&self, key: i128) -> (Option<&Value>, u32)
        ensures found { KeysAscend (map_view self.now)
            → option_map (λ v. view v.now) result.0 ≡ finmap.get (map_of self.now) (integer key) }
        ensures few { result.1 ≤ binary_digits (pair_count (map_view self.now)) }
        ensures some { result.1 ≡ 0 → pair_count (map_view self.now) ≡ 0 }
    {
        self.find(&key)
    }
}

impl Value {
    /// A map's value of a text key. It is `None` where the map lacks the key, and of a value that
    /// is no map.
    ///
    /// ```rust
    /// let mut map = Map::new(alloc);
    /// let ports = vec![in alloc; Value::Integer(80)]?;
    /// map.insert(Value::Text("ports".to_owned(alloc)?), Value::Array(ports))?;
    /// let value = Value::Map(map);
    /// let first = value.get_str("ports").and_then(|ports| ports.get_index(0));
    /// assert_eq!(rt; first, Some(&Value::Integer(80)));
    /// ```
    pub fn get_str(&self, key: &str) -> Option<&Value>
        ensures found { IsOrdered (view self.now) → option_map (λ v. view v.now) result
            ≡ value_of (text key.now) (view self.now) }
        ensures ordered { IsOrdered (view self.now) → IfSome result (λ v. IsOrdered (view v.now)) }
    {
        self.value_of(&key)
    }

    /// A map's value of an integer key. It is `None` where the map lacks the key, and of a value
    /// that is no map: [`get_index`](Value::get_index) takes a position in an array.
    pub fn get_integer(&self, key: i128) -> Option<&Value>
        ensures found { IsOrdered (view self.now) → option_map (λ v. view v.now) result
            ≡ value_of (integer key) (view self.now) }
        ensures ordered { IsOrdered (view self.now) → IfSome result (λ v. IsOrdered (view v.now)) }
    {
        self.value_of(&key)
    }

    /// An array's item at a position, from 0. It is `None` where the array is shorter, and of a
    /// value that is no array: [`get_integer`](Value::get_integer) takes a map's integer key.
    pub fn get_index(&self, position: usize) -> Option<&Value>
        ensures found { option_map (λ v. view v.now) result ≡ item_of position (view self.now) }
        ensures ordered { IsOrdered (view self.now) → IfSome result (λ v. IsOrdered (view v.now)) }
    {
        match self {
            Value::Array(items) => items.get(position),
            _ => None,
        }
    }

    /// A map's value of a key.
    pub(crate) fn value_of<K: Key>(&self, key: &K) -> Option<&Value>
        ensures found { IsOrdered (view self.now) → option_map (λ v. view v.now) result
            ≡ value_of (K.stands_for key.now) (view self.now) }
        ensures ordered { IsOrdered (view self.now) → IfSome result (λ v. IsOrdered (view v.now)) }
    {
        match self {
            Value::Map(map) => {
                let (value, _) = map.find(key);
                value
            }
            _ => None,
        }
    }
}
