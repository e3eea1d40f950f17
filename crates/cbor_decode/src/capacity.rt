//! Room for the items of an array, and for the pairs of a map.

ghost use Rattle.std.specs.Prelude.{◌≡◌, ◌<◌, [], ◌∷◌, ◌++◌, vec_len, vec_capacity, IfErr, OnOk};
ghost use Rattle.cbor_decode.specs.declared.refusal.Refused.TheVariants.{OutOfMemory};

use crate::cursor::Remaining;
use crate::refusal::Done;

/// Adds an item of up to 1,024 bytes after the others, where so many remain after it.
///
/// `Vec` would take room for four at once. Where fewer than four come, room is taken for those
/// alone, and where none says how many, for one at first: most arrays and maps are small, and each
/// level of a nest holds one item.
#[inline(always)]
pub fn push<T: Drop>(items: &mut Vec<T>, item: T, remaining: Remaining) -> Done<()>
    ensures items { OnOk result (items.new.items ≡ items.old.items ++ item ∷ []) }
    ensures refused { IfErr result (λ r. r ≡ OutOfMemory) }
{
    if items.len() == items.capacity() {
        grow(items, remaining)?;
    }
    items.push_reserved(item);
    Ok(())
}

/// Adds an item of any size after the others, where so many remain after it.
///
/// An array of one takes room for one. Where more remain, `Vec` decides, which takes room for one
/// at first where an item takes more than 1,024 bytes.
#[inline(always)]
pub fn push_any<T: Drop>(items: &mut Vec<T>, item: T, remaining: Remaining) -> Done<()>
    ensures items { OnOk result (items.new.items ≡ items.old.items ++ item ∷ []) }
    ensures refused { IfErr result (λ r. r ≡ OutOfMemory) }
{
    if items.len() == items.capacity() {
        match remaining {
            Remaining::Counted(0) => grow(items, remaining)?,
            _ => items.reserve(1)?,
        }
    }
    items.push_reserved(item);
    Ok(())
}

// Makes room for one more at least.
#[cold]
#[inline(never)]
fn grow<T>(items: &mut Vec<T>, remaining: Remaining) -> Done<()>
    ensures items { items.new.items ≡ items.old.items }
    ensures spare { OnOk result (vec_len items.new < vec_capacity items.new) }
    ensures refused { IfErr result (λ r. r ≡ OutOfMemory) }
{
    match remaining {
        Remaining::Counted(behind @ 0..=2) if items.is_empty() => {
            items.reserve_exact(behind as usize + 1)?
        }
        Remaining::ToBreak if items.is_empty() => items.reserve_exact(1)?,
        _ => items.reserve(1)?,
    }
    Ok(())
}
