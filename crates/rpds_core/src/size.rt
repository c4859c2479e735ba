//! Sizes of containers, which a `usize` holds. A call that makes a container longer asks here for the new size before it
//! changes anything.
ghost use Rattle.std.specs.Prelude.{◌≡◌, ◌+◌, ◌<◌, ◌≤◌, IfOk, OnOk, OnErr};

use std::alloc::AllocError;

/// The size of a container of `size` items with one more. An error where no `usize` holds it.
#[inline(always)]
pub fn one_more(size: usize) -> Result<usize, AllocError>
    ensures sum { IfOk result (λ more. more ≡ size + 1) }
    ensures room { OnOk result (size < usize.MAX) }
    ensures full { OnErr result (size ≡ usize.MAX) }
{
    size.checked_add(1).ok_or(AllocError)
}

/// The size of a container of `size` items with as many more as `other`. An error where no `usize` holds it.
#[inline(always)]
pub fn total(size: usize, other: usize) -> Result<usize, AllocError>
    ensures sum { IfOk result (λ all. all ≡ size + other) }
    ensures room { OnOk result (size + other ≤ usize.MAX) }
    ensures full { OnErr result (usize.MAX < size + other) }
{
    size.checked_add(other).ok_or(AllocError)
}
