//! The iterator of a queue.
ghost use Rattle.std.specs.Prelude.{◌≡◌, length, Some, IfSome, IfOk, IsOk};
ghost use Rattle.std.specs.Iterator.{YieldsFirstRef, item_count, UpTo};
ghost use Rattle.std.specs.Iterator.SizeHint.{IsWithinCount};

use super::Queue;
use crate::list;
use std::alloc::{AllocError, Allocator, Global};
use std::iter::FusedIterator;
use std::marker::Model;

/// The items that are left, as references, the front first.
#[derive(Drop)]
pub struct Iter<'a, T, A: Allocator = Global> {
    out: list::Iter<'a, T, A>,
    // The newest first, as in the in list.
    waiting: Vec<&'a T, A>,
}

impl<'a, T, A: Allocator> Model for Iter<'a, T, A> {
    ghost use Rattle.std.specs.Prelude.{◌++◌, ◌<◌, ◌+◌, ◌^◌, List, length, map, reverse};

    ghost Value = { List T };

    ghost view = { λ it. it.out ++ reverse (map (λ x. x.now) it.waiting.items) };

    ghost invariant = { λ it. length it.out + length it.waiting.items < 2 ^ 64 };
}

impl<T, A: Allocator + Copy> Queue<T, A> {
    /// An iterator over the items, the front first. It allocates when it is made: one buffer for the items that wait.
    pub fn iter(&self) -> Result<Iter<'_, T, A>, AllocError>
        ensures items { IfOk result (λ it. it ≡ self.now.items) }
        ensures succeeds { self.now.waiting ≡ 0 → IsOk result }
    {
        let mut waiting = Vec::with_capacity(self.alloc, self.in_list.len())?;
        for item in self.in_list.iter() {
            waiting.push_reserved(item);
        }
        Ok(Iter {
            out: self.out_list.iter(),
            waiting,
        })
    }
}

impl<'a, T, A: Allocator> Iterator for Iter<'a, T, A> {
    type Item = &'a T;

    ghost next_gives = { YieldsFirstRef (λ it. it) };

    ghost remaining = { item_count (λ it. it) };

    fn next(&mut self) -> Option<&'a T> {
        match self.out.next() {
            Some(item) => Some(item),
            None => self.waiting.pop(),
        }
    }

    fn size_hint(&self) -> (usize, Option<usize>)
        ensures exact { result ≡ (length self.now, Some (length self.now)) }
        ensures lower { IsWithinCount result.0 (item_count (λ it. it) self.now) }
        ensures upper { IfSome result.1 (UpTo (item_count (λ it. it) self.now)) }
    {
        let (left, _) = self.out.size_hint();
        let len = left + self.waiting.len();
        (len, Some(len))
    }
}

impl<'a, T, A: Allocator> ExactSizeIterator for Iter<'a, T, A> {
    fn len(&self) -> usize {
        self.out.len() + self.waiting.len()
    }
}

impl<'a, T, A: Allocator> FusedIterator for Iter<'a, T, A> {}

/// It allocates one buffer, for the items that are left and wait.
impl<'a, T, A: Allocator + Copy> Clone for Iter<'a, T, A> {
    ghost is_clone = { λ it copy. copy ≡ it };

    fn clone(&self) -> Result<Iter<'a, T, A>, AllocError> {
        let waiting = Vec::from_slice(*self.waiting.allocator(), &self.waiting)?;
        Ok(Iter {
            out: self.out.clone()?,
            waiting,
        })
    }
}
