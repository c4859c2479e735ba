//! An iterator over the items, from both ends.
ghost use Rattle.std.specs.Prelude.{◌≡◌, Some, drop, length, IfSome, ⊤};
ghost use Rattle.std.specs.Iterator.{YieldsFirstRef, YieldsLastRef, item_count, UpTo};
ghost use Rattle.std.specs.Iterator.SizeHint.{IsWithinCount};

use crate::sequence::Sequence;
use rpds_red_black::walk::{Backward, Forward, Walk};
use std::alloc::{AllocError, Allocator, Global};
use std::iter::FusedIterator;
use std::marker::Model;

/// The items that are left, as references. To make it is constant: each end goes down its first path when it is asked. All steps
/// together enter each node once from one end, and take no memory.
#[derive(Drop)]
pub struct Iter<'a, T, A: Allocator = Global> {
    front: Walk<'a, T, (), A, Forward>,
    back: Walk<'a, T, (), A, Backward>,
    left: usize,
}

impl<'a, T, A: Allocator> Model for Iter<'a, T, A> {
    ghost use Rattle.std.specs.Prelude.{List, take};
    ghost use Rattle.std.specs.Map.{keys_of};
    ghost use Rattle.rpds_core.specs.DoubleEnded.{AreFacing};

    ghost Value = { List T };

    ghost view = { λ it. keys_of (take it.left it.front) };

    ghost invariant = { λ it. AreFacing it.front it.back it.left };
}

impl<'a, T, A: Allocator> Iterator for Iter<'a, T, A> {
    type Item = &'a T;

    ghost next_gives = { YieldsFirstRef (λ it. it) };

    ghost remaining = { item_count (λ it. it) };

    #[inline(always)]
    fn next(&mut self) -> Option<&'a T> {
        if self.left == 0 {
            return None;
        }
        self.left -= 1;
        let (item, _) = self.front.next();
        Some(item)
    }

    fn size_hint(&self) -> (usize, Option<usize>)
        ensures exact { result ≡ (length self.now, Some (length self.now)) }
        ensures lower { IsWithinCount result.0 (item_count (λ it. it) self.now) }
        ensures upper { IfSome result.1 (UpTo (item_count (λ it. it) self.now)) }
    {
        (self.left, Some(self.left))
    }
}

impl<'a, T, A: Allocator> ExactSizeIterator for Iter<'a, T, A> {
    fn len(&self) -> usize {
        self.left
    }
}

impl<'a, T, A: Allocator> FusedIterator for Iter<'a, T, A> {}

impl<'a, T, A: Allocator> Clone for Iter<'a, T, A> {
    ghost is_clone = { λ it copy. copy ≡ it };

    ghost is_infallible = { λ _. ⊤ };

    fn clone(&self) -> Result<Iter<'a, T, A>, AllocError> {
        Ok(Iter {
            front: self.front.clone()?,
            back: self.back.clone()?,
            left: self.left,
        })
    }
}

impl<'a, T, A: Allocator> DoubleEndedIterator for Iter<'a, T, A> {
    ghost next_back_gives = { YieldsLastRef (λ it. it) };

    #[inline(always)]
    fn next_back(&mut self) -> Option<&'a T> {
        if self.left == 0 {
            return None;
        }
        self.left -= 1;
        let (item, _) = self.back.next();
        Some(item)
    }
}

impl<T, A: Allocator> Sequence<T, A> {
    /// An iterator over the items in order, from both ends.
    #[inline(always)]
    pub fn iter(&self) -> Iter<'_, T, A>
        ensures { result ≡ self.now }
    {
        let size = self.len();
        Iter {
            front: Walk::over(&self.tree),
            back: Walk::over(&self.tree),
            left: size,
        }
    }

    /// An iterator over the items from the index on, from both ends: none where the index isn't below the length. One path leads to
    /// the first of them.
    pub fn iter_from(&self, index: usize) -> Iter<'_, T, A>
        ensures { result ≡ drop index self.now }
    {
        let size = self.len();
        let start = index.min(size);
        let mut items = Iter {
            front: Walk::over(&self.tree),
            back: Walk::over(&self.tree),
            left: size,
        };
        items.front.start_at(&self.tree, size, start);
        items.left = size - start;
        items
    }
}

impl<'a, T, A: Allocator> IntoIterator for &'a Sequence<T, A> {
    type Item = &'a T;

    type IntoIter = Iter<'a, T, A>;

    ghost into_iter_gives = { λ sequence it. it ≡ sequence.now };

    fn into_iter(self) -> Iter<'a, T, A> {
        self.iter()
    }
}
