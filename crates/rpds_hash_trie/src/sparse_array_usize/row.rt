//! Copies of a row of pointers. Each is made to fit, in one allocation.
ghost use Rattle.std.specs.Prelude.{◌≡◌, ◌<◌, ◌≤◌, IfOk, length};
ghost use Rattle.std.specs.List.{insert, remove};
ghost use Rattle.rpds_core.specs.Rows.{behind};

use rpds_core::row::with_room;
use std::alloc::{AllocError, Allocator};
use std::rc::Rc;

// A copy with one pointer more.
pub(crate) fn with_inserted<X: Drop, A: Allocator + Copy>(
    alloc: A,
    row: &[Rc<X, A>],
    at: usize,
    more: Rc<X, A>,
) -> Result<Vec<Rc<X, A>, A>, AllocError>
    requires at { at ≤ length row.now }
    requires fits { length row.now < usize.MAX }
    ensures { IfOk result (λ v. behind v.items ≡ insert (behind row.now) at more.value) }
{
    let mut copy = with_room(alloc, &row[..at], row.len() + 1)?;
    copy.push_reserved(more);
    copy.extend_with_clones(&row[at..])?;
    Ok(copy)
}

// A copy without one pointer.
pub(crate) fn with_removed<X: Drop, A: Allocator + Copy>(
    alloc: A,
    row: &[Rc<X, A>],
    at: usize,
) -> Result<Vec<Rc<X, A>, A>, AllocError>
    requires { at < length row.now }
    ensures { IfOk result (λ v. behind v.items ≡ remove (behind row.now) at) }
{
    let mut copy = with_room(alloc, &row[..at], row.len() - 1)?;
    copy.extend_with_clones(&row[at + 1..])?;
    Ok(copy)
}
