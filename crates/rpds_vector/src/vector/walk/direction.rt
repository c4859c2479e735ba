//! The end of a vector that a walk starts at.
ghost use Rattle.std.specs.Prelude.{◌≡◌, ◌<◌, ◌≤◌, ◌∷◌, [], Bool, false, true, length, IfSome, MatchOption};
ghost use Rattle.rpds_core.specs.DoubleEnded.{along};
ghost use Rattle.rpds_core.specs.Rows.{behind};
ghost use Rattle.rpds_vector.specs.VectorWalk.{ahead, IsPrefix};

use crate::vector::Vector;
use crate::vector::node::Node;
use std::alloc::Allocator;
use std::rc::Rc;

// The end that a walk starts at. How many items lie ahead says how far it has come.
pub(crate) trait Direction {
    // Whether that is the back.
    ghost back: { Bool };

    // The item of a row that comes first on the way, and the others.
    fn split<X>(row: &[X]) -> Option<(&X, &[X])>
        ensures { MatchOption result (row.now ≡ []) (λ cut.
            along back row.now ≡ cut.0.now ∷ along back cut.1.now) };

    // The node of few levels that comes next on the way, where the walk stands at an edge of one.
    fn subtree<'a, T, A: Allocator>(vector: &'a Vector<T, A>, left: usize) -> Option<&'a Node<T, A>>
        requires some { 0 < left }
        requires place { left ≤ length vector.now.items }
        ensures next { IfSome result (λ node.
            IsPrefix (along back node.now.items) (ahead back left vector.now.items)) }
        ensures low { IfSome result (λ node. node.now.height ≤ 3) };

    // The items of the leaf that comes next on the way.
    fn leaf<'a, T, A: Allocator>(vector: &'a Vector<T, A>, left: usize) -> &'a [Rc<T, A>]
        requires some { 0 < left }
        requires place { left ≤ length vector.now.items }
        ensures next { IsPrefix (along back (behind result.now)) (ahead back left vector.now.items) }
        ensures some { 0 < length result.now };
}

pub(crate) struct Forward;

impl Direction for Forward {
    ghost back = { false };

    fn split<X>(row: &[X]) -> Option<(&X, &[X])> {
        row.split_first()
    }

    #[inline(always)]
    fn subtree<'a, T, A: Allocator>(
        vector: &'a Vector<T, A>,
        left: usize,
    ) -> Option<&'a Node<T, A>> {
        let index = vector.len() - left;
        vector.subtree(index, index)
    }

    #[inline(always)]
    fn leaf<'a, T, A: Allocator>(vector: &'a Vector<T, A>, left: usize) -> &'a [Rc<T, A>] {
        let index = vector.len() - left;
        &vector.leaf(index)[vector.place(index)..]
    }
}

pub(crate) struct Backward;

impl Direction for Backward {
    ghost back = { true };

    fn split<X>(row: &[X]) -> Option<(&X, &[X])> {
        row.split_last()
    }

    #[inline(always)]
    fn subtree<'a, T, A: Allocator>(
        vector: &'a Vector<T, A>,
        left: usize,
    ) -> Option<&'a Node<T, A>> {
        vector.subtree(left - 1, left)
    }

    #[inline(always)]
    fn leaf<'a, T, A: Allocator>(vector: &'a Vector<T, A>, left: usize) -> &'a [Rc<T, A>] {
        let index = left - 1;
        &vector.leaf(index)[..vector.place(index) + 1]
    }
}
