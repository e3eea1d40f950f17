//! Values as literals: the macro [`cbor!`](crate::cbor), and the calls that it writes.

ghost use Rattle.std.specs.Prelude.{◌≡◌, ◌∷◌, [], ◌++◌, OnOk, OnErr, IfErr};
ghost use Rattle.cbor_io.specs.Error.{IsOutOfMemory};
ghost use Rattle.cbor_model.specs.Canonical.{KeysAscend};
ghost use Rattle.cbor_model.specs.Value.{put};
ghost use Rattle.cbor_value.specs.View.{view, map_view};

use cbor_io::error::Result;
use cbor_value::{Map, Value};

/// A [`Value`](crate::Value) as a literal of JSON writes it, an expression of the type
/// `Result<Value>`. The allocator comes first.
///
/// - `null`, arrays in brackets, and maps in braces nest.
/// - Any other expression stands for what [`to_value`](crate::value::to_value()) makes of it, which
///   borrows it: a number, `true`, a text, or a value of any type that is written.
/// - A key is a literal, as `"a"`, `1` or `-1`, or an expression in parentheses. Of equal keys the
///   last pair stays.
///
/// It refuses what `to_value` refuses, and returns `OutOfMemory` where an allocation fails. An
/// array or a map can have some hundred items, since the macro goes over them one by one; more are
/// put together by [`SerializeVec`](crate::value::SerializeVec) and
/// [`SerializeMap`](crate::value::SerializeMap).
///
/// ```rust
/// let id = 7u8;
/// let value = cbor!(in alloc; {"id": id, 1: [true, null, 1.5], -1: {}})?;
/// assert_eq!(rt; value.get_str("id"), Some(&Value::Integer(7)));
/// ```
#[macro_export]
macro_rules! cbor {
    (in $alloc:expr; $($value:tt)+) => {{
        let alloc = $alloc;
        let built: $crate::Result<$crate::Value> = 'built: {
            Ok($crate::cbor_internal!(alloc 'built; $($value)+))
        };
        built
    }};
    ($($rest:tt)*) => {
        compile_error!("`cbor!` takes an allocator first: write `cbor!(in alloc; [1, null])?`")
    };
}

/// What [`cbor!`](crate::cbor) is made of, one value or one item at a time. It isn't for use alone.
#[macro_export]
macro_rules! cbor_internal {
    // `?`, which leaves the block `$out` and not the caller's function.
    (@try $out:lifetime $step:expr) => {
        match $step {
            Ok(done) => done,
            Err(refused) => break $out Err(refused),
        }
    };

    // The items that are left.
    (@items $alloc:ident $out:lifetime $items:ident) => {};
    (@items $alloc:ident $out:lifetime $items:ident null $(, $($rest:tt)*)?) => {
        $crate::cbor_internal!(@item $alloc $out $items (null) $($($rest)*)?);
    };
    (@items $alloc:ident $out:lifetime $items:ident [$($inner:tt)*] $(, $($rest:tt)*)?) => {
        $crate::cbor_internal!(@item $alloc $out $items ([$($inner)*]) $($($rest)*)?);
    };
    (@items $alloc:ident $out:lifetime $items:ident {$($inner:tt)*} $(, $($rest:tt)*)?) => {
        $crate::cbor_internal!(@item $alloc $out $items ({$($inner)*}) $($($rest)*)?);
    };
    (@items $alloc:ident $out:lifetime $items:ident $item:expr, $($rest:tt)*) => {
        $crate::cbor_internal!(@item $alloc $out $items ($item) $($rest)*);
    };
    (@items $alloc:ident $out:lifetime $items:ident $item:expr) => {
        $crate::cbor_internal!(@item $alloc $out $items ($item));
    };
    (@item $alloc:ident $out:lifetime $items:ident ($($item:tt)+) $($rest:tt)*) => {
        let item = $crate::cbor_internal!($alloc $out; $($item)+);
        $crate::cbor_internal!(@try $out $crate::literal::push(&mut $items, item));
        $crate::cbor_internal!(@items $alloc $out $items $($rest)*);
    };

    // The pairs that are left.
    (@pairs $alloc:ident $out:lifetime $map:ident) => {};
    (@pairs $alloc:ident $out:lifetime $map:ident $key:literal : $($rest:tt)+) => {
        $crate::cbor_internal!(@pair $alloc $out $map ($key) $($rest)+);
    };
    (@pairs $alloc:ident $out:lifetime $map:ident ($key:expr) : $($rest:tt)+) => {
        $crate::cbor_internal!(@pair $alloc $out $map ($key) $($rest)+);
    };
    (@pair $alloc:ident $out:lifetime $map:ident $key:tt null $(, $($rest:tt)*)?) => {
        $crate::cbor_internal!(@put $alloc $out $map $key (null) $($($rest)*)?);
    };
    (@pair $alloc:ident $out:lifetime $map:ident $key:tt [$($inner:tt)*] $(, $($rest:tt)*)?) => {
        $crate::cbor_internal!(@put $alloc $out $map $key ([$($inner)*]) $($($rest)*)?);
    };
    (@pair $alloc:ident $out:lifetime $map:ident $key:tt {$($inner:tt)*} $(, $($rest:tt)*)?) => {
        $crate::cbor_internal!(@put $alloc $out $map $key ({$($inner)*}) $($($rest)*)?);
    };
    (@pair $alloc:ident $out:lifetime $map:ident $key:tt $value:expr, $($rest:tt)*) => {
        $crate::cbor_internal!(@put $alloc $out $map $key ($value) $($rest)*);
    };
    (@pair $alloc:ident $out:lifetime $map:ident $key:tt $value:expr) => {
        $crate::cbor_internal!(@put $alloc $out $map $key ($value));
    };
    (@put $alloc:ident $out:lifetime $map:ident ($key:expr) ($($value:tt)+) $($rest:tt)*) => {
        let key = $crate::cbor_internal!(@try $out $crate::value::to_value($alloc, &$key));
        let value = $crate::cbor_internal!($alloc $out; $($value)+);
        $crate::cbor_internal!(@try $out $crate::literal::insert(&mut $map, key, value));
        $crate::cbor_internal!(@pairs $alloc $out $map $($rest)*);
    };

    // A value.
    ($alloc:ident $out:lifetime; null) => {
        $crate::Value::Null
    };
    ($alloc:ident $out:lifetime; [$($items:tt)*]) => {{
        let mut items = Vec::new($alloc);
        $crate::cbor_internal!(@items $alloc $out items $($items)*);
        $crate::Value::Array(items)
    }};
    ($alloc:ident $out:lifetime; {$($pairs:tt)*}) => {{
        let mut map = $crate::value::Map::new($alloc);
        $crate::cbor_internal!(@pairs $alloc $out map $($pairs)*);
        $crate::Value::Map(map)
    }};
    ($alloc:ident $out:lifetime; $other:expr) => {
        $crate::cbor_internal!(@try $out $crate::value::to_value($alloc, &$other))
    };
}

/// Puts an item of an array after those before it.
pub fn push(items: &mut Vec<Value>, item: Value) -> Result<()>
    ensures pushed { OnOk result (items.new.items ≡ items.old.items ++ item ∷ []) }
    ensures kept { OnErr result (items.new.items ≡ items.old.items) }
    ensures memory { IfErr result IsOutOfMemory }
{
    items.push(item)?;
    Ok(())
}

/// Puts a pair into a map, where the value of an equal key is dropped.
pub fn insert(map: &mut Map, key: Value, value: Value) -> Result<()>
    ensures listed { OnOk result (KeysAscend (map_view map.old)
        → map_view map.new ≡ put (view key) (view value) (map_view map.old)) }
    ensures ascending { KeysAscend (map_view map.old) → KeysAscend (map_view map.new) }
    ensures kept { OnErr result (map_view map.new ≡ map_view map.old) }
    ensures memory { IfErr result IsOutOfMemory }
{
    let _before = map.insert(key, value)?;
    Ok(())
}
