//! The leaves of a vector, from one of its ends.
ghost use Rattle.std.specs.Prelude.{◌≡◌, ◌<◌, ◌≤◌, ◌++◌, [], length, ⊤};
ghost use Rattle.rpds_core.specs.DoubleEnded.{along};
ghost use Rattle.rpds_core.specs.Rows.{behind};
ghost use Rattle.rpds_vector.specs.VectorWalk.{ahead, IsPrefix};

use crate::vector::Vector;
use crate::vector::walk::direction::Direction;
use crate::vector::walk::leaves_below::LeavesBelow;
use std::alloc::{AllocError, Allocator};
use std::marker::Model;
use std::rc::Rc;

// The leaves that are left. It goes down from the root to a node of few levels, and from there to all leaves below that.
#[derive(Drop)]
pub(crate) struct Leaves<'a, T, A: Allocator, D: Direction> {
    vector: &'a Vector<T, A>,
    left: usize,
    below: LeavesBelow<'a, T, A, D>,
}

impl<'a, T, A: Allocator, D: Direction> Model for Leaves<'a, T, A, D> {
    ghost use Rattle.std.specs.Prelude.{List, ◌≤◌, length};
    ghost use Rattle.rpds_vector.specs.VectorWalk.{ahead, IsPrefix};

    ghost Value = { List T };

    ghost view = { λ w. ahead D.back w.left w.vector.now.items };

    ghost invariant = { λ w. (w.left ≤ length w.vector.now.items)
        × IsPrefix w.below (ahead D.back w.left w.vector.now.items) };
}

impl<'a, T, A: Allocator, D: Direction> Leaves<'a, T, A, D> {
    // The leaves of the last `left` items on the way.
    #[inline(always)]
    pub(crate) fn of_last(vector: &'a Vector<T, A>, left: usize) -> Leaves<'a, T, A, D>
        requires { left ≤ length vector.now.items }
        ensures { result ≡ ahead D.back left vector.now.items }
    {
        Leaves {
            vector,
            left,
            below: LeavesBelow::none(),
        }
    }

    // The items of the next leaf. There are none where no leaf is left.
    #[inline(always)]
    pub(crate) fn next(&mut self) -> &'a [Rc<T, A>]
        ensures items { self.old ≡ along D.back (behind result.now) ++ self.new }
        ensures none { result.now ≡ [] → self.old ≡ [] }
    {
        if self.left == 0 {
            return &[];
        }
        let items = next_leaf(self.vector, self.left, &mut self.below);
        self.left -= items.len();
        items
    }
}

// The items of the leaf that comes next, where so many items are left.
#[inline(always)]
fn next_leaf<'a, T, A: Allocator, D: Direction>(
    vector: &'a Vector<T, A>,
    left: usize,
    below: &mut LeavesBelow<'a, T, A, D>,
) -> &'a [Rc<T, A>]
    requires some { 0 < left }
    requires place { left ≤ length vector.now.items }
    requires below { IsPrefix below.old (ahead D.back left vector.now.items) }
    ensures next { IsPrefix (along D.back (behind result.now) ++ below.new)
        (ahead D.back left vector.now.items) }
    ensures some { 0 < length result.now }
{
    if let Some(leaf) = below.next() {
        return leaf.items();
    }
    if let Some(node) = D::subtree(vector, left) {
        let (leaf, others) = LeavesBelow::of(node);
        *below = others;
        return leaf.items();
    }
    D::leaf(vector, left)
}

impl<'a, T, A: Allocator, D: Direction> Clone for Leaves<'a, T, A, D> {
    ghost is_clone = { λ it copy. copy ≡ it };

    ghost is_infallible = { λ _. ⊤ };

    fn clone(&self) -> Result<Leaves<'a, T, A, D>, AllocError> {
        Ok(Leaves {
            vector: self.vector,
            left: self.left,
            below: self.below.clone()?,
        })
    }
}
