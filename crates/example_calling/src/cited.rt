//! What callers show by citing one of the library's laws.
ghost use Rattle.std.specs.Prelude.{◌≡◌, ◌≤◌, IfOk, IfSome, IsTrue, length};

use rpds::laws::{hashed, ordered, sequences};
use rpds::{HashTrieMap, RedBlackTreeMap, Sequence};
use std::alloc::AllocError;
use std::ops::Bound;

/// How many pairs an ordered map has: those below a key and those from it on.
pub fn size_by_parts(map: &RedBlackTreeMap<u64, u64>, key: u64) -> usize
    ensures { result ≡ length map.now.entries }
{
    ordered::range_len_is_lawful::<u64, u64>();
    // For its clause: no map has more pairs than a number holds.
    let _size = map.size();
    map.rank(&key) + map.range_len(Bound::Included(&key), Bound::Unbounded)
}

/// A text into which a line was put, and from which it was taken again.
pub fn put_in_and_taken_out(
    text: &Sequence<u64>,
    index: usize,
    line: u64,
) -> Result<Option<Sequence<u64>>, AllocError>
    requires { index ≤ length text.now }
    ensures { IfOk result (λ back. IfSome back (λ same. same ≡ text.now)) }
{
    sequences::insert_is_lawful::<u64>();
    match text.insert(index, line)? {
        None => Ok(None),
        Some(longer) => longer.remove(index),
    }
}

/// Whether nothing changed from a map to itself.
pub fn is_unchanged(map: &HashTrieMap<u64, u64>) -> bool
    ensures { IsTrue result }
{
    hashed::unchanged_is_lawful::<u64, u64>();
    map.diff(map).next().is_none()
}
