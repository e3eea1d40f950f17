//! Maps: their pairs stand in a list, in the order of the keys.

ghost use Rattle.std.specs.Prelude.{◌≡◌, ◌+◌, ◌-◌, ◌^◌, ◌==◌, ◌<◌, ◌≤◌, length, true, ◌↔◌, IsOk};
ghost use Rattle.std.specs.Prelude.{IfOk, OnOk, OnErr, IfErr, Some, IsSome};
ghost use Rattle.std.specs.List.{All};
ghost use Rattle.std.specs.Option.{option_map};
ghost use Rattle.std.specs.Slice.Iter.{iter_rest};
ghost use Rattle.std.specs.FinMap as finmap;
ghost use Rattle.cbor_model.specs.Plain as plain;
ghost use Rattle.cbor_model.specs.Plain.{Val, no_pairs, pair_count};
ghost use Rattle.cbor_model.specs.Order.{lex, flat, val_cmp};
ghost use Rattle.cbor_model.specs.Canonical.{KeysAscend, IsOrdered};
ghost use Rattle.cbor_model.specs.Value.{put};
ghost use Rattle.cbor_model.specs.FiniteMap.{first_pair, last_pair, put_all, without};
ghost use Rattle.cbor_io.specs.Error.{IsOutOfMemory};
ghost use Rattle.cbor_value.specs.View.{view, map_view, map_of, pair_views, IsMapOrdered};
ghost use Rattle.cbor_value.specs.View.{IsPairOrdered};
ghost use Rattle.cbor_value.specs.Search.{StandsAt, IsPlaceIn, IsPlaceOf, binary_digits};

use super::lookup::Key;
use super::{Map, Value};
use cbor_io::error;
use std::alloc::Global;
use std::cmp::Ordering;
use std::mem;
use std::slice::Iter;

impl Map {
    /// A map with no pairs, which grows in this memory. It takes none yet.
    ///
    /// ```rust
    /// let mut map = Map::new(rt.alloc());
    /// ```
    pub fn new(alloc: Global) -> Map
        ensures { map_view result ≡ no_pairs }
    {
        Map {
            pairs: Vec::new(alloc),
        }
    }

    /// The map that these pairs give, put in one after the other: of equal keys the last pair
    /// stays.
    ///
    /// Where the keys ascend the pairs stay where they are, which takes no memory. Else they are
    /// sorted, which can return `OutOfMemory`: the pairs are dropped then.
    ///
    /// ```rust
    /// let (one, two) = (Value::Integer(1), Value::Integer(2));
    /// let pairs = vec![in alloc; (two, Value::Null), (one, Value::Null)]?;
    /// let map = Map::from_pairs(pairs)?;
    /// ```
    #[inline(never)]
    pub fn from_pairs(mut pairs: Vec<(Value, Value)>) -> error::Result<Map>
        ensures listed { IfOk result (λ m. map_view m ≡ put_all (pair_views pairs.items) no_pairs) }
        ensures ascending { IfOk result (λ m. KeysAscend (map_view m)) }
        ensures ordered { IfOk result (λ m. All IsPairOrdered pairs.items → IsMapOrdered m) }
        ensures unrefused { KeysAscend (pair_views pairs.items) → IsOk result }
        ensures memory { IfErr result IsOutOfMemory }
    {
        if keys_ascend(&pairs) {
            return Ok(Map { pairs });
        }
        // the pair to stay comes first among equal keys
        pairs.reverse();
        pairs.sort_by(by_key)?;
        pairs.dedup_by(|p, q| p.0 == q.0);
        Ok(Map { pairs })
    }

    /// Puts a pair in, and returns the value that the key had before.
    ///
    /// The map grows only where the key is new: for a key that is there it takes no memory, and
    /// isn't refused. Where its allocation fails, the map stays as it was, and the pair is dropped.
    ///
    /// ```rust
    /// let mut map = Map::new(alloc);
    /// assert_eq!(rt; map.insert(Value::Integer(1), Value::Null)?, None);
    /// assert_eq!(rt; map.insert(Value::Integer(1), Value::Bool(true))?, Some(Value::Null));
    /// ```
    pub fn insert(&mut self, key: Value, value: Value) -> error::Result<Option<Value>>
        ensures before { IfOk result (λ before. KeysAscend (map_view self.old)
            → option_map view before ≡ finmap.get (map_of self.old) (view key)) }
        ensures inserted { OnOk result (KeysAscend (map_view self.old)
            → map_of self.new ≡ finmap.insert (map_of self.old) (view key) (view value)) }
        ensures listed { OnOk result (KeysAscend (map_view self.old)
            → map_view self.new ≡ put (view key) (view value) (map_view self.old)) }
        ensures ascending { KeysAscend (map_view self.old) → KeysAscend (map_view self.new) }
        ensures ordered { IsMapOrdered self.old → IsOrdered (view key) → IsOrdered (view value)
            → IsMapOrdered self.new }
        ensures unrefused { KeysAscend (map_view self.old)
            → IsSome (finmap.get (map_of self.old) (view key)) → IsOk result }
        ensures err { OnErr result (map_view self.new ≡ map_view self.old) }
        ensures memory { IfErr result IsOutOfMemory }
    {
        match self.position(&key) {
            Ok(i) => Ok(Some(self.replace(i, value))),
            Err(i) => {
                self.pairs.insert(i, (key, value))?;
                Ok(None)
            }
        }
    }

    /// The value of a key, or `None` where the map lacks the key.
    ///
    /// ```rust
    /// let mut map = Map::new(alloc);
    /// map.insert(Value::Integer(1), Value::Bool(true))?;
    /// assert_eq!(rt; map.get(&Value::Integer(1)), Some(&Value::Bool(true)));
    /// assert_eq!(rt; map.get(&Value::Integer(2)), None);
    /// ```
    ///
    /// A key is a value. [`get_str`](Map::get_str) and [`get_integer`](Map::get_integer) take a
    /// text and an integer as they are.
    pub fn get(&self, key: &Value) -> Option<&Value>
        ensures { KeysAscend (map_view self.now)
            → option_map (λ v. view v.now) result ≡ finmap.get (map_of self.now) (view key.now) }
    {
        let (value, _) = self.get_counted(key);
        value
    }

    /// The value of a key as by `get`, and how many keys the search compared it with: at most as
    /// many as the number of pairs has binary digits.
    pub fn get_counted(&self, key: &Value) -> (Option<&Value>, u32)
        ensures found { KeysAscend (map_view self.now)
            → option_map (λ v. view v.now) result.0 ≡ finmap.get (map_of self.now) (view key.now) }
        ensures few { result.1 ≤ binary_digits (pair_count (map_view self.now)) }
        ensures some { result.1 ≡ 0 → pair_count (map_view self.now) ≡ 0 }
    {
        self.find(key)
    }

    /// Whether it has the key.
    ///
    /// ```rust
    /// let mut map = Map::new(alloc);
    /// map.insert(Value::Integer(1), Value::Null)?;
    /// assert!(rt; map.contains_key(&Value::Integer(1)));
    /// assert!(rt; !map.contains_key(&Value::Integer(2)));
    /// ```
    pub fn contains_key(&self, key: &Value) -> bool
        ensures { KeysAscend (map_view self.now)
            → result ≡ finmap.contains_key (map_of self.now) (view key.now) }
    {
        self.get(key).is_some()
    }

    /// Takes a key's pair out, and returns its value. It takes no memory.
    ///
    /// Where the map lacks the key it stays as it was, and the call returns `None`.
    ///
    /// ```rust
    /// let mut map = Map::new(alloc);
    /// map.insert(Value::Integer(1), Value::Bool(true))?;
    /// assert_eq!(rt; map.remove(&Value::Integer(1)), Some(Value::Bool(true)));
    /// assert!(rt; map.is_empty());
    /// ```
    pub fn remove(&mut self, key: &Value) -> Option<Value>
        ensures before { KeysAscend (map_view self.old)
            → option_map view result ≡ finmap.get (map_of self.old) (view key.now) }
        ensures removed { KeysAscend (map_view self.old)
            → map_of self.new ≡ finmap.remove (map_of self.old) (view key.now) }
        ensures listed { KeysAscend (map_view self.old)
            → map_view self.new ≡ without (view key.now) (map_view self.old) }
        ensures ascending { KeysAscend (map_view self.old) → KeysAscend (map_view self.new) }
        ensures ordered { IsMapOrdered self.old → IsMapOrdered self.new }
    {
        match self.position(key) {
            Ok(i) => {
                let (_, value) = self.pairs.remove(i);
                Some(value)
            }
            Err(_) => None,
        }
    }

    /// How many pairs it has.
    pub fn len(&self) -> usize
        ensures listed { result ≡ pair_count (map_view self.now) }
        ensures counted { KeysAscend (map_view self.now) → result ≡ finmap.len (map_of self.now) }
    {
        self.pairs.len()
    }

    /// Whether it has no pairs.
    pub fn is_empty(&self) -> bool
        ensures { result ≡ (pair_count (map_view self.now) == 0) }
    {
        self.pairs.is_empty()
    }

    /// The pair of the least key, or `None` where it has no pairs.
    ///
    /// ```rust
    /// let mut map = Map::new(alloc);
    /// map.insert(Value::Integer(-1), Value::Null)?;
    /// map.insert(Value::Integer(7), Value::Null)?;
    /// // A negative integer comes after all unsigned ones.
    /// assert_eq!(rt; map.first_key_value(), Some((&Value::Integer(7), &Value::Null)));
    /// assert_eq!(rt; map.last_key_value(), Some((&Value::Integer(-1), &Value::Null)));
    /// ```
    pub fn first_key_value(&self) -> Option<(&Value, &Value)>
        ensures { option_map (λ p. (view p.0.now, view p.1.now)) result
            ≡ first_pair (map_view self.now) }
    {
        self.pairs.first().map(|pair| (&pair.0, &pair.1))
    }

    /// The pair of the greatest key, or `None` where it has no pairs.
    pub fn last_key_value(&self) -> Option<(&Value, &Value)>
        ensures { option_map (λ p. (view p.0.now, view p.1.now)) result
            ≡ last_pair (map_view self.now) }
    {
        match self.pairs.last() {
            Some(pair) => Some((&pair.0, &pair.1)),
            None => None,
        }
    }

    /// Its pairs, in the order of the keys, which are the caller's to take apart.
    ///
    /// ```rust
    /// let mut map = Map::new(alloc);
    /// map.insert(Value::Integer(2), Value::Null)?;
    /// map.insert(Value::Integer(1), Value::Bool(true))?;
    /// let mut keys: Vec<Value> = Vec::new(alloc);
    /// for (key, _value) in map.into_pairs() {
    ///     keys.push(key)?;
    /// }
    /// assert!(rt; keys.as_slice() == [Value::Integer(1), Value::Integer(2)].as_slice());
    /// ```
    pub fn into_pairs(self) -> Vec<(Value, Value)>
        ensures { pair_views result.items ≡ map_view self }
    {
        let Map { pairs } = self;
        pairs
    }

    /// Its pairs of a key and a value, in the order of the keys.
    ///
    /// ```rust
    /// let mut map = Map::new(alloc);
    /// map.insert(Value::Integer(1), Value::Bool(true))?;
    /// for (key, value) in map.iter() {
    ///     assert_eq!(rt; key, &Value::Integer(1));
    ///     assert_eq!(rt; value, &Value::Bool(true));
    /// }
    /// ```
    pub fn iter(&self) -> Iter<'_, (Value, Value)>
        ensures { pair_views (iter_rest result) ≡ map_view self.now }
    {
        self.pairs.iter()
    }

    /// Where the key stands, or else where it belongs.
    pub(crate) fn position<K: Key>(&self, key: &K) -> Result<usize, usize>
        ensures in_range { IsPlaceIn (length self.now.pairs.items) result }
        ensures found { KeysAscend (map_view self.now)
            → IsPlaceOf (K.stands_for key.now) (map_view self.now) result }
    {
        let mut count = 0;
        self.search(key, &mut count)
    }

    /// The value of a key, and how many keys the search compared it with.
    pub(crate) fn find<K: Key>(&self, key: &K) -> (Option<&Value>, u32)
        ensures found { KeysAscend (map_view self.now) → option_map (λ v. view v.now) result.0
            ≡ finmap.get (map_of self.now) (K.stands_for key.now) }
        ensures few { result.1 ≤ binary_digits (pair_count (map_view self.now)) }
        ensures some { result.1 ≡ 0 → pair_count (map_view self.now) ≡ 0 }
    {
        let mut count = 0;
        match self.search(key, &mut count) {
            Ok(i) => {
                let pair = &self.pairs[i];
                (Some(&pair.1), count)
            }
            Err(_) => (None, count),
        }
    }

    /// The key's position, by halves; it counts the keys that it is compared with.
    fn search<K: Key>(&self, key: &K, count: &mut u32) -> Result<usize, usize>
        requires { count.old ≡ 0 }
        ensures in_range { IsPlaceIn (length self.now.pairs.items) result }
        ensures found { KeysAscend (map_view self.now)
            → IsPlaceOf (K.stands_for key.now) (map_view self.now) result }
        ensures few { count.new ≤ binary_digits (pair_count (map_view self.now)) }
        ensures some { count.new ≡ 0 → pair_count (map_view self.now) ≡ 0 }
    {
        let mut start = 0;
        let mut end = self.pairs.len();
        'halves: while start < end {
            let middle = start + (end - start) / 2;
            let pair = &self.pairs[middle];
            match compare(key, &pair.0, count) {
                Ordering::Less => end = middle,
                Ordering::Equal => return Ok(middle),
                Ordering::Greater => start = middle + 1,
            }
        }
        Err(start)
    }

    /// Gives the i-th pair another value, and returns the one that it had.
    fn replace(&mut self, i: usize, value: Value) -> Value
        requires { i < length self.old.pairs.items }
        ensures before { (k : Val) → StandsAt k i (map_view self.old)
            → Some (view result) ≡ finmap.get (map_of self.old) k }
        ensures listed { (k : Val) → StandsAt k i (map_view self.old)
            → map_view self.new ≡ put k (view value) (map_view self.old) }
    {
        let pair = &mut self.pairs[i];
        mem::replace(&mut pair.1, value)
    }
}

/// Compares two keys, and counts that.
fn compare<K: Key>(key: &K, other: &Value, count: &mut u32) -> Ordering
    requires { count.old < 2 ^ 32 - 1 }
    ensures order { result ≡ val_cmp (K.stands_for key.now) (view other.now) }
    ensures counted { count.new ≡ count.old + 1 }
{
    *count += 1;
    key.compare(other)
}

/// Whether the keys strictly ascend.
fn keys_ascend(pairs: &[(Value, Value)]) -> bool
    ensures { (result ≡ true) ↔ KeysAscend (pair_views pairs.now) }
{
    pairs.is_sorted_by(|p, q| by_key(p, q).is_lt())
}

/// Compares the keys of two pairs.
#[tactic(auto, unfolding(crate::specs::View::flat_of))]
fn by_key(p: &(Value, Value), q: &(Value, Value)) -> Ordering
    ensures { result ≡ val_cmp (view p.now.0) (view q.now.0) }
{
    p.0.cmp(&q.0)
}
