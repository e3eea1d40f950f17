//! Joining parts of a slice in place: a part comes down to those before it, and no byte is lost.

ghost use Rattle.std.specs.Prelude.{◌≡◌, ◌+◌, ◌-◌, ◌^◌, ◌++◌, ◌<◌, ◌≤◌, length, take, drop};
ghost use Rattle.std.specs.List.Sorted.{IsPermutation};

// A rotation copies the gap aside while the bytes after it come down. The room for the copy is
// cleared at each call, so there are two sizes. For longer gaps the rotation is std's, which clears
// 4096 bytes; for a gap of one byte too, where it clears none.
const SMALL_GAP: usize = 32;

const LARGE_GAP: usize = 1024;

// Brings what stands from `gap` on to the front. The first `gap` bytes stand after it then, in
// some order.
//
// No more than twice as many bytes change their place as come to the front: those that are no more
// than the bytes before them change places with as many of them, and the others stay (`between`).
#[tactic(auto, using(crate::proofs::InPlace::exchanged, crate::proofs::InPlace::between_stays, crate::proofs::InPlace::rotated))]
fn bring_to_front(bytes: &mut [u8], gap: usize)
    requires { gap ≤ length bytes.old }
    ensures front { take (length bytes.old - gap) bytes.new ≡ drop gap bytes.old }
    ensures permutation { IsPermutation bytes.old bytes.new }
    ensures between { length bytes.old - gap ≤ gap
        → drop (length bytes.old - gap) (take gap bytes.new)
        ≡ drop (length bytes.old - gap) (take gap bytes.old) }
{
    let n = bytes.len() - gap;
    if n <= gap {
        swap_ends(bytes, gap, n);
    } else if gap == 1 || gap > LARGE_GAP {
        bytes.rotate_left(gap);
    } else if gap <= SMALL_GAP {
        rotate_by_copy::<SMALL_GAP>(bytes, gap);
    } else {
        rotate_by_copy::<LARGE_GAP>(bytes, gap);
    }
}

// A rotation by at most N bytes, which are copied aside.
#[inline(never)]
fn rotate_by_copy<const N: usize>(bytes: &mut [u8], gap: usize)
    requires within { gap ≤ length bytes.old }
    requires few { gap ≤ N }
    requires size { N < 2 ^ 63 }
    ensures { bytes.new ≡ drop gap bytes.old ++ take gap bytes.old }
{
    let mut spare = [0; N];
    spare[..gap].copy_from_slice(&bytes[..gap]);
    let n = bytes.len() - gap;
    bytes.copy_within(gap.., 0);
    bytes[n..].copy_from_slice(&spare[..gap]);
}

// The first n bytes change places with the n from `gap` on, which are the last.
fn swap_ends(bytes: &mut [u8], gap: usize, n: usize)
    requires apart { n ≤ gap }
    requires last { gap + n ≡ length bytes.old }
    ensures { bytes.new ≡ drop gap bytes.old ++ (drop n (take gap bytes.old) ++ take n bytes.old) }
{
    let (before, part) = bytes.split_at_mut(gap);
    before[..n].swap_with_slice(part);
}

// Brings the n bytes from `from` on down to `to`. What lay between comes after them, in some
// order.
pub(super) fn bring_down(bytes: &mut [u8], to: usize, from: usize, n: usize)
    requires order { to ≤ from }
    requires within { from + n ≤ length bytes.old }
    ensures front { take (to + n) bytes.new ≡ take to bytes.old ++ take n (drop from bytes.old) }
    ensures permutation { IsPermutation (take (from + n) bytes.old) (take (from + n) bytes.new) }
    ensures rest { drop (from + n) bytes.new ≡ drop (from + n) bytes.old }
{
    if n == 0 || to == from {
        return;
    }
    bring_to_front(&mut bytes[to..from + n], from - to);
}
