//! A node that is changed in place, made its tree's own.
ghost use Rattle.std.specs.Prelude.{◌≡◌, ◌+◌, ◌⊎◌, IfOk};
ghost use Rattle.std.specs.Borrow.{sem};
ghost use Rattle.std.specs.Rc.{rc_follows_make_mut};

use rpds_core::own::own;
use rpds_core::steps::Steps;
use std::alloc::{AllocError, Allocator};
use std::rc::Rc;

// The node behind a pointer, made the pointer's own: a copy of it where it has other owners. It counts as a node made.
pub(crate) fn make_unique<'a, N: Clone + Drop, A: Allocator + Copy>(
    node: &'a mut Rc<N, A>,
    steps: &mut Steps,
) -> Result<&'a mut N, AllocError>
    ensures* writes_back { sem 𝓛
        (rc_follows_make_mut N.row A.row A.Allocator N.is_clone node.entry result) }
    ensures value { IfOk result (λ unique. (unique.now ≡ node.old.value)
        ⊎ N.is_clone node.old.value unique.now) }
    ensures made { steps.new ≡ record steps.old { made = steps.old.made + 1 } }
{
    steps.raise_made();
    own(node)
}
