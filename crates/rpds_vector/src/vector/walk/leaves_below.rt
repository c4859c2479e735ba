//! The leaves below a node of few levels.
ghost use Rattle.std.specs.Prelude.{◌≡◌, ◌≤◌, ◌++◌, [], IfSome, MatchOption, ⊤};
ghost use Rattle.rpds_core.specs.DoubleEnded.{along};

use crate::vector::node::Node;
use crate::vector::walk::children::Children;
use crate::vector::walk::direction::Direction;
use std::alloc::{AllocError, Allocator};
use std::marker::Model;

// The leaves that are left below a node of at most 3 levels of branches: of each level it holds a row.
#[derive(Drop)]
pub(crate) struct LeavesBelow<'a, T, A: Allocator, D: Direction> {
    leaves: Children<'a, T, A, D>,
    parents: Children<'a, T, A, D>,
    grandparents: Children<'a, T, A, D>,
}

impl<'a, T, A: Allocator, D: Direction> Model for LeavesBelow<'a, T, A, D> {
    ghost use Rattle.std.specs.Prelude.{List, ◌++◌};
    ghost use Rattle.rpds_vector.specs.VectorWalk.{items_along, AreLow};

    ghost Value = { List T };

    ghost view = { λ w. items_along D.back w.leaves
        ++ (items_along D.back w.parents ++ items_along D.back w.grandparents) };

    ghost invariant = { λ w. AreLow 0 w.leaves × (AreLow 1 w.parents × AreLow 2 w.grandparents) };
}

impl<'a, T, A: Allocator, D: Direction> LeavesBelow<'a, T, A, D> {
    // No leaves.
    #[inline(always)]
    pub(crate) fn none() -> LeavesBelow<'a, T, A, D>
        ensures { result ≡ [] }
    {
        LeavesBelow {
            leaves: Children::none(),
            parents: Children::none(),
            grandparents: Children::none(),
        }
    }

    // The next leaf.
    #[inline(always)]
    pub(crate) fn next(&mut self) -> Option<&'a Node<T, A>>
        ensures items { MatchOption result ((self.old ≡ []) × (self.new ≡ [])) (λ leaf.
            self.old ≡ along D.back leaf.now.items ++ self.new) }
        ensures leaf { IfSome result (λ leaf. leaf.now.height ≡ 0) }
    {
        if let Some(leaf) = self.leaves.next() {
            return Some(leaf);
        }
        if let Some(parent) = self.parents.next() {
            let (leaf, leaves) = Children::of(parent);
            self.leaves = leaves;
            return Some(leaf);
        }
        let grandparent = self.grandparents.next()?;
        let (parent, parents) = Children::of(grandparent);
        let (leaf, leaves) = Children::of(parent);
        self.parents = parents;
        self.leaves = leaves;
        Some(leaf)
    }

    // The first leaf below a node, and the others.
    #[inline(always)]
    pub(crate) fn of(node: &'a Node<T, A>) -> (&'a Node<T, A>, LeavesBelow<'a, T, A, D>)
        requires { node.now.height ≤ 3 }
        ensures items { along D.back result.0.now.items ++ result.1 ≡ along D.back node.now.items }
        ensures leaf { result.0.now.height ≡ 0 }
    {
        let (grandparent, grandparents) = Children::of(node);
        let (parent, parents) = Children::of(grandparent);
        let (leaf, leaves) = Children::of(parent);
        let others = LeavesBelow {
            leaves,
            parents,
            grandparents,
        };
        (leaf, others)
    }
}

impl<'a, T, A: Allocator, D: Direction> Clone for LeavesBelow<'a, T, A, D> {
    ghost is_clone = { λ it copy. copy ≡ it };

    ghost is_infallible = { λ _. ⊤ };

    fn clone(&self) -> Result<LeavesBelow<'a, T, A, D>, AllocError> {
        Ok(LeavesBelow {
            leaves: self.leaves.clone()?,
            parents: self.parents.clone()?,
            grandparents: self.grandparents.clone()?,
        })
    }
}
