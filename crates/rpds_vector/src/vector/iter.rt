//! An iterator over the items, from both ends.
ghost use Rattle.std.specs.Prelude.{◌≡◌, ◌<◌, ◌∷◌, ◌++◌, [], Some, length, IfSome, ⊤};
ghost use Rattle.std.specs.Iterator.{YieldsFirstRef, YieldsLastRef, item_count, UpTo};
ghost use Rattle.std.specs.Iterator.SizeHint.{IsWithinCount};

use crate::vector::Vector;
use crate::vector::walk::{Backward, Forward, Walk};
use std::alloc::{AllocError, Allocator, Global};
use std::iter::FusedIterator;
use std::marker::Model;

/// The items that are left, as references. To make it is constant, and it allocates nothing. Most steps cost a few
/// instructions, one at the edge of a leaf goes to the next, and one in `2^(4 * bits)` goes down the trie, with 16 bits and more
/// each at the edge of a leaf.
#[derive(Drop)]
pub struct Iter<'a, T, A: Allocator = Global> {
    front: Walk<'a, T, A, Forward>,
    back: Walk<'a, T, A, Backward>,
    left: usize,
}

impl<'a, T, A: Allocator> Model for Iter<'a, T, A> {
    ghost use Rattle.std.specs.Prelude.{List, take};
    ghost use Rattle.rpds_core.specs.DoubleEnded.{AreFacing};

    ghost Value = { List T };

    ghost view = { λ w. take w.left w.front };

    ghost invariant = { λ w. AreFacing w.front w.back w.left };
}

impl<'a, T, A: Allocator> Iterator for Iter<'a, T, A> {
    type Item = &'a T;

    ghost next_gives = { YieldsFirstRef (λ it. it) };

    ghost remaining = { item_count (λ it. it) };

    #[inline(always)]
    fn next(&mut self) -> Option<&'a T> {
        if self.left == 0 {
            return None;
        }
        match self.front.next() {
            None => None,
            Some(item) => {
                self.left -= 1;
                Some(item)
            }
        }
    }

    fn size_hint(&self) -> (usize, Option<usize>)
        ensures exact { result ≡ (length self.now, Some (length self.now)) }
        ensures lower { IsWithinCount result.0 (item_count (λ it. it) self.now) }
        ensures upper { IfSome result.1 (UpTo (item_count (λ it. it) self.now)) }
    {
        (self.left, Some(self.left))
    }
}

impl<'a, T, A: Allocator> ExactSizeIterator for Iter<'a, T, A> {
    fn len(&self) -> usize {
        self.left
    }
}

impl<'a, T, A: Allocator> FusedIterator for Iter<'a, T, A> {}

impl<'a, T, A: Allocator> Clone for Iter<'a, T, A> {
    ghost is_clone = { λ it copy. copy ≡ it };

    ghost is_infallible = { λ _. ⊤ };

    fn clone(&self) -> Result<Iter<'a, T, A>, AllocError> {
        Ok(Iter {
            front: self.front.clone()?,
            back: self.back.clone()?,
            left: self.left,
        })
    }
}

impl<'a, T, A: Allocator> DoubleEndedIterator for Iter<'a, T, A> {
    ghost next_back_gives = { YieldsLastRef (λ it. it) };

    #[inline(always)]
    fn next_back(&mut self) -> Option<&'a T> {
        if self.left == 0 {
            return None;
        }
        match self.back.next() {
            None => None,
            Some(item) => {
                self.left -= 1;
                Some(item)
            }
        }
    }
}

impl<T, A: Allocator> Vector<T, A> {
    /// An iterator over the items in order, from both ends.
    #[inline(always)]
    pub fn iter(&self) -> Iter<'_, T, A>
        ensures { result ≡ self.now.items }
    {
        Iter {
            front: Walk::over_all(self),
            back: Walk::over_all(self),
            left: self.len,
        }
    }
}

impl<'a, T, A: Allocator> IntoIterator for &'a Vector<T, A> {
    type Item = &'a T;

    type IntoIter = Iter<'a, T, A>;

    ghost into_iter_gives = { λ vector it. it ≡ vector.now.items };

    fn into_iter(self) -> Iter<'a, T, A> {
        self.iter()
    }
}
