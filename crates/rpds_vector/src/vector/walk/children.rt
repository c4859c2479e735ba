//! A row of nodes, of which a walk takes one after another.
ghost use Rattle.std.specs.Prelude.{◌≡◌, ℕ, ◌+◌, ◌≤◌, ◌∷◌, [], MatchOption, ⊤};
ghost use Rattle.rpds_core.specs.DoubleEnded.{along};
ghost use Rattle.rpds_vector.specs.VectorWalk.{items_along, AreLow};

use crate::vector::node::{Kind, Node};
use crate::vector::walk::direction::Direction;
use std::alloc::{AllocError, Allocator};
use std::marker::{Model, PhantomData};
use std::rc::Rc;

// The nodes of a row that are left.
#[derive(Drop)]
pub(crate) struct Children<'a, T, A: Allocator, D: Direction> {
    row: &'a [Rc<Node<T, A>, A>],
    direction: PhantomData<D>,
}

impl<'a, T, A: Allocator, D: Direction> Model for Children<'a, T, A, D> {
    ghost use Rattle.std.specs.Prelude.{List};
    ghost use Rattle.rpds_core.specs.DoubleEnded.{along};
    ghost use Rattle.rpds_core.specs.Rows.{behind};
    ghost use Rattle.rpds_vector.specs.Trie.{Trie};

    ghost Value = { List (Trie T) };

    ghost view = { λ children. along D.back (behind children.row.now) };
}

impl<'a, T, A: Allocator, D: Direction> Children<'a, T, A, D> {
    // No nodes.
    #[inline(always)]
    pub(crate) fn none() -> Children<'a, T, A, D>
        ensures { result ≡ [] }
    {
        Children {
            row: &[],
            direction: PhantomData,
        }
    }

    // The next node.
    #[inline(always)]
    pub(crate) fn next(&mut self) -> Option<&'a Node<T, A>>
        ensures { MatchOption result ((self.old ≡ []) × (self.new ≡ [])) (λ node.
            self.old ≡ node.now ∷ self.new) }
    {
        match D::split(self.row) {
            None => None,
            Some((node, rest)) => {
                self.row = rest;
                Some(node.as_ref())
            }
        }
    }

    // The first child of a node on the way, and the others. A leaf is given itself.
    #[inline(always)]
    pub(crate) fn of(node: &'a Node<T, A>) -> (&'a Node<T, A>, Children<'a, T, A, D>)
        ensures items { items_along D.back (result.0.now ∷ result.1) ≡ along D.back node.now.items }
        ensures low { (most : ℕ) → node.now.height ≤ most + 1
            → AreLow most (result.0.now ∷ result.1) }
    {
        let Kind::Branch(children) = &node.kind else {
            return (node, Children::none());
        };
        let Some((first, row)) = D::split(children.as_slice()) else {
            return (node, Children::none());
        };
        let others = Children {
            row,
            direction: PhantomData,
        };
        (first.as_ref(), others)
    }
}

impl<'a, T, A: Allocator, D: Direction> Clone for Children<'a, T, A, D> {
    ghost is_clone = { λ it copy. copy ≡ it };

    ghost is_infallible = { λ _. ⊤ };

    fn clone(&self) -> Result<Children<'a, T, A, D>, AllocError> {
        Ok(Children {
            row: self.row,
            direction: PhantomData,
        })
    }
}
