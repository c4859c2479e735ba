//! What lists, vectors and sequences have after parts of them were put together or cut off.
ghost use Rattle.std.specs.Prelude.{◌≡◌, ◌+◌, ◌<◌, ◌≤◌, ◌++◌, Some, IfOk, length, slice_get};

use rpds::{List, Sequence, Vector};
use std::alloc::AllocError;

/// The first item of two lists that were put together.
pub fn first_of_both(list: &List<u64>, other: &List<u64>) -> Result<Option<u64>, AllocError>
    ensures { IfOk result (λ first. first ≡ slice_get (list.now ++ other.now) 0) }
{
    Ok(list.append(other)?.first().copied())
}

/// The first item behind as many as are skipped.
pub fn first_after(list: &List<u64>, count: usize) -> Result<Option<u64>, AllocError>
    ensures { IfOk result (λ first. first ≡ slice_get list.now count) }
{
    Ok(list.skip(count)?.first().copied())
}

/// An item among the first.
pub fn item_of_first(
    vector: &Vector<u64>,
    count: usize,
    index: usize,
) -> Result<Option<u64>, AllocError>
    requires { index < count }
    ensures { IfOk result (λ item. item ≡ slice_get vector.now.items index) }
{
    Ok(vector.take(count)?.get(index).copied())
}

/// The item at an index at which it was put in.
pub fn item_put_in(vector: &Vector<u64>, index: usize, item: u64) -> Result<Option<u64>, AllocError>
    requires { index ≤ length vector.now.items }
    ensures { IfOk result (λ found. found ≡ Some item) }
{
    match vector.insert(index, item)? {
        None => Ok(None),
        Some(longer) => Ok(longer.get(index).copied()),
    }
}

/// The item at an index from which one was taken out.
pub fn item_moved_up(vector: &Vector<u64>, index: usize) -> Result<Option<u64>, AllocError>
    requires { index < length vector.now.items }
    ensures { IfOk result (λ found. found ≡ slice_get vector.now.items (index + 1)) }
{
    match vector.remove(index)? {
        None => Ok(None),
        Some(shorter) => Ok(shorter.get(index).copied()),
    }
}

/// The line at an index at which it was put in.
pub fn line_put_in(text: &Sequence<u64>, index: usize, line: u64) -> Result<Option<u64>, AllocError>
    requires { index ≤ length text.now }
    ensures { IfOk result (λ found. found ≡ Some line) }
{
    match text.insert(index, line)? {
        None => Ok(None),
        Some(longer) => Ok(longer.get(index).copied()),
    }
}

/// A text that is cut in two, and put together again.
pub fn cut_and_mended(text: &Sequence<u64>, index: usize) -> Result<Sequence<u64>, AllocError>
    ensures { IfOk result (λ mended. mended ≡ text.now) }
{
    let (before, after) = text.split_at(index)?;
    before.append(&after)
}
