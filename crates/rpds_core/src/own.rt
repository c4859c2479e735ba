//! What a pointer points to, made its own.
ghost use Rattle.std.specs.Prelude.{◌≡◌, ◌⊎◌, IfOk};
ghost use Rattle.std.specs.Borrow.{sem};
ghost use Rattle.std.specs.Rc.{rc_follows_make_mut};

use std::alloc::{AllocError, Allocator};
use std::rc::Rc;

/// The value behind a pointer, made the pointer's own: a copy of it where it has other owners.
pub fn own<'a, N: Clone + Drop, A: Allocator + Copy>(
    node: &'a mut Rc<N, A>,
) -> Result<&'a mut N, AllocError>
    ensures* writes_back { sem 𝓛
        (rc_follows_make_mut N.row A.row A.Allocator N.is_clone node.entry result) }
    ensures value { IfOk result (λ unique. (unique.now ≡ node.old.value)
        ⊎ N.is_clone node.old.value unique.now) }
{
    if Rc::strong_count(node) != 1 || Rc::weak_count(node) != 0 {
        // The error apart, so that a node that isn't shared is known to be Ok: two results that join are tested again.
        let unique = copied(node)?;
        return Ok(unique);
    }
    match Rc::get_mut(node) {
        Some(unique) => Ok(unique),
        None => Err(AllocError),
    }
}

// Out of line, so that a node that is not shared costs a few steps alone.
#[inline(never)]
fn copied<'a, N: Clone + Drop, A: Allocator + Copy>(
    node: &'a mut Rc<N, A>,
) -> Result<&'a mut N, AllocError>
    ensures* writes_back { sem 𝓛
        (rc_follows_make_mut N.row A.row A.Allocator N.is_clone node.entry result) }
    ensures value { IfOk result (λ unique. (unique.now ≡ node.old.value)
        ⊎ N.is_clone node.old.value unique.now) }
{
    Rc::make_mut(node)
}
