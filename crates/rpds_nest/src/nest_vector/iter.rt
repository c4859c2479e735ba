//! An iterator over the items.
ghost use Rattle.std.specs.Prelude.{◌≡◌, Some, IfSome, length, ⊤};
ghost use Rattle.std.specs.Iterator.{YieldsFirstRef, item_count, UpTo};
ghost use Rattle.std.specs.Iterator.SizeHint.{IsWithinCount};

use crate::nest_vector::NestVector;
use std::alloc::{AllocError, Allocator, Global};
use std::iter::FusedIterator;
use std::marker::Model;

/// The items that are left, as references, the first one first. It allocates nothing, and a step costs as `get`.
#[derive(Drop)]
pub struct Iter<'a, T, A: Allocator = Global> {
    vector: &'a NestVector<T, A>,
    index: usize,
}

impl<'a, T, A: Allocator> Model for Iter<'a, T, A> {
    ghost use Rattle.std.specs.Prelude.{List, drop, length, ◌≤◌};

    ghost Value = { List T };

    ghost view = { λ it. drop it.index it.vector.now };

    ghost invariant = { λ it. it.index ≤ length it.vector.now };
}

impl<'a, T, A: Allocator> Iterator for Iter<'a, T, A> {
    type Item = &'a T;

    ghost next_gives = { YieldsFirstRef (λ it. it) };

    ghost remaining = { item_count (λ it. it) };

    fn next(&mut self) -> Option<&'a T> {
        if self.index == self.vector.len() {
            return None;
        }
        let item = self.vector.item(self.index);
        self.index += 1;
        Some(item)
    }

    fn size_hint(&self) -> (usize, Option<usize>)
        ensures exact { result ≡ (length self.now, Some (length self.now)) }
        ensures lower { IsWithinCount result.0 (item_count (λ it. it) self.now) }
        ensures upper { IfSome result.1 (UpTo (item_count (λ it. it) self.now)) }
    {
        let left = self.vector.len() - self.index;
        (left, Some(left))
    }
}

impl<'a, T, A: Allocator> ExactSizeIterator for Iter<'a, T, A> {
    fn len(&self) -> usize {
        self.vector.len() - self.index
    }
}

impl<'a, T, A: Allocator> FusedIterator for Iter<'a, T, A> {}

impl<'a, T, A: Allocator> Clone for Iter<'a, T, A> {
    ghost is_clone = { λ it copy. copy ≡ it };

    ghost is_infallible = { λ _. ⊤ };

    fn clone(&self) -> Result<Iter<'a, T, A>, AllocError> {
        Ok(Iter {
            vector: self.vector,
            index: self.index,
        })
    }
}

impl<T, A: Allocator> NestVector<T, A> {
    /// An iterator over the items in order.
    pub fn iter(&self) -> Iter<'_, T, A>
        ensures { result ≡ self.now }
    {
        Iter {
            vector: self,
            index: 0,
        }
    }
}

impl<'a, T, A: Allocator> IntoIterator for &'a NestVector<T, A> {
    type Item = &'a T;

    type IntoIter = Iter<'a, T, A>;

    ghost into_iter_gives = { λ vector it. it ≡ vector.now };

    fn into_iter(self) -> Iter<'a, T, A> {
        self.iter()
    }
}
