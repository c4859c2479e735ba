//! The iterator of a queue that allocates nothing.
ghost use Rattle.std.specs.Prelude.{◌≡◌, ⊤};
ghost use Rattle.std.specs.Iterator.{YieldsFirstRef, item_count};

use super::Queue;
use crate::list;
use crate::list::FromBack;
use std::alloc::{AllocError, Allocator, Global};
use std::iter::FusedIterator;
use std::marker::Model;

/// The items that are left, as references, the front first. With n items that wait it takes about n log n steps in all,
/// and no memory.
#[derive(Drop)]
pub struct FromFront<'a, T, A: Allocator = Global> {
    out: list::Iter<'a, T, A>,
    waiting: FromBack<'a, T, A>,
}

impl<'a, T, A: Allocator> Model for FromFront<'a, T, A> {
    ghost use Rattle.std.specs.Prelude.{List, ◌++◌};

    ghost Value = { List T };

    ghost view = { λ w. w.out ++ w.waiting };
}

impl<T, A: Allocator> Queue<T, A> {
    /// An iterator over the items, the front first, which can't fail as [`iter`](Queue::iter) can. It allocates nothing.
    pub fn from_front(&self) -> FromFront<'_, T, A>
        ensures { result ≡ self.now.items }
    {
        FromFront {
            out: self.out_list.iter(),
            waiting: self.in_list.from_back(),
        }
    }
}

impl<'a, T, A: Allocator> Iterator for FromFront<'a, T, A> {
    type Item = &'a T;

    ghost next_gives = { YieldsFirstRef (λ it. it) };

    ghost remaining = { item_count (λ it. it) };

    fn next(&mut self) -> Option<&'a T> {
        match self.out.next() {
            Some(item) => Some(item),
            None => self.waiting.next(),
        }
    }
}

impl<'a, T, A: Allocator> FusedIterator for FromFront<'a, T, A> {}

impl<'a, T, A: Allocator> Clone for FromFront<'a, T, A> {
    ghost is_clone = { λ it copy. copy ≡ it };

    ghost is_infallible = { λ _. ⊤ };

    fn clone(&self) -> Result<FromFront<'a, T, A>, AllocError> {
        Ok(FromFront {
            out: self.out.clone()?,
            waiting: self.waiting.clone()?,
        })
    }
}
