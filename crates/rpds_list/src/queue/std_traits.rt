//! std's traits that make and fill a queue by what an iterator gives.
ghost use Rattle.std.specs.Prelude.{◌≡◌, ◌+◌, [], ◌++◌, length, map};

use crate::queue::Queue;
use std::alloc::{AllocError, Allocator};
use std::default::{Emptied, MadeWith};
use std::iter::{Extend, FromIterator};

/// `collect`: the items in the order in which they come. None of them waits.
impl<T: Drop, A: Allocator + Copy> FromIterator<T> for Queue<T, A> {
    type Alloc = A;

    ghost from_iter_gives = { λ items queue. (queue.items ≡ items) × (queue.waiting ≡ 0) };

    fn from_iter<U: IntoIterator<Item = T>>(alloc: A, iter: U) -> Result<Queue<T, A>, AllocError> {
        Queue::from_iter(alloc, iter)
    }
}

/// `extend` by the trait is [`Queue::extend`](Queue::extend): all items that come wait.
impl<T: Drop, A: Allocator + Copy> Extend<T> for Queue<T, A> {
    ghost extend_gives = { λ queue more longer. longer ≡ record { items = queue.items ++ more; waiting = queue.waiting + length more } };

    fn extend<U: IntoIterator<Item = T>>(&mut self, iter: U) -> Result<(), AllocError> {
        let items = iter.into_iter();
        Queue::extend(self, items)
    }
}

/// The same of what references lead to.
impl<'a, T: Copy + Drop + 'a, A: Allocator + Copy> Extend<&'a T> for Queue<T, A> {
    ghost extend_gives = { λ queue more longer. (let copies = map (λ x. x.now) more in longer ≡ record { items = queue.items ++ copies; waiting = queue.waiting + length copies }) };

    fn extend<U: IntoIterator<Item = &'a T>>(&mut self, iter: U) -> Result<(), AllocError> {
        let items = iter.into_iter();
        Queue::extend(self, items.copied())
    }
}

/// The empty queue, for `or_default` of std's maps.
impl<T: Drop, A: Allocator + Copy> MadeWith<A> for Queue<T, A> {
    ghost is_made_with = { λ queue. (queue.items ≡ []) × (queue.waiting ≡ 0) };

    fn made_with(alloc: A) -> Queue<T, A> {
        Queue::new(alloc)
    }
}

/// The empty queue, for `mem::try_take`.
impl<T: Drop, A: Allocator + Copy> Emptied for Queue<T, A> {
    ghost is_emptied = { λ queue. (queue.items ≡ []) × (queue.waiting ≡ 0) };

    fn emptied(like: &Queue<T, A>) -> Result<Queue<T, A>, AllocError> {
        Ok(Queue::new(*like.allocator()))
    }
}
