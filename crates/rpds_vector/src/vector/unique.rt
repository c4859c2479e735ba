//! A node that is changed in place, made its vector's own.
ghost use Rattle.std.specs.Prelude.{◌≡◌, IfOk};
ghost use Rattle.std.specs.Borrow.{sem};
ghost use Rattle.rpds_vector.specs.VectorLends.{lends_node};

use crate::vector::node::Node;
use rpds_core::own::own;
use std::alloc::{AllocError, Allocator};
use std::rc::Rc;

// The node behind a pointer, made the pointer's own: a copy where it has other owners, which is equal.
#[inline(always)]
pub(crate) fn make_unique<'a, T: Drop, A: Allocator + Copy>(
    node: &'a mut Rc<Node<T, A>, A>,
) -> Result<&'a mut Node<T, A>, AllocError>
    ensures* writes_back { sem 𝓛 (lends_node T.row A.row A.Allocator node.entry result) }
    ensures value { IfOk result (λ unique. unique.now ≡ node.old.value) }
{
    own(node)
}
