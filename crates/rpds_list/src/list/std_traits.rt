//! std's traits that make and fill a list by what an iterator gives.
ghost use Rattle.std.specs.Prelude.{◌≡◌, [], ◌++◌, reverse, map};

use crate::list::List;
use std::alloc::{AllocError, Allocator};
use std::default::{Emptied, MadeWith};
use std::iter::{Extend, FromIterator};

/// `collect`: the items in the order in which they come.
impl<T: Drop, A: Allocator + Copy> FromIterator<T> for List<T, A> {
    type Alloc = A;

    ghost from_iter_gives = { λ items list. list ≡ items };

    fn from_iter<U: IntoIterator<Item = T>>(alloc: A, iter: U) -> Result<List<T, A>, AllocError> {
        List::from_iter(alloc, iter)
    }
}

/// `extend` by the trait is [`List::extend`](List::extend): the item that comes last is the first of the list then.
impl<T: Drop, A: Allocator + Copy> Extend<T> for List<T, A> {
    ghost extend_gives = { λ list more longer. longer ≡ reverse more ++ list };

    fn extend<U: IntoIterator<Item = T>>(&mut self, iter: U) -> Result<(), AllocError> {
        let items = iter.into_iter();
        List::extend(self, items)
    }
}

/// The same of what references lead to.
impl<'a, T: Copy + Drop + 'a, A: Allocator + Copy> Extend<&'a T> for List<T, A> {
    ghost extend_gives = { λ list more longer. longer ≡ reverse (map (λ x. x.now) more) ++ list };

    fn extend<U: IntoIterator<Item = &'a T>>(&mut self, iter: U) -> Result<(), AllocError> {
        let items = iter.into_iter();
        List::extend(self, items.copied())
    }
}

/// The empty list, for `or_default` of std's maps.
impl<T: Drop, A: Allocator + Copy> MadeWith<A> for List<T, A> {
    ghost is_made_with = { λ list. list ≡ [] };

    fn made_with(alloc: A) -> List<T, A> {
        List::new(alloc)
    }
}

/// The empty list, for `mem::try_take`.
impl<T: Drop, A: Allocator + Copy> Emptied for List<T, A> {
    ghost is_emptied = { λ list. list ≡ [] };

    fn emptied(like: &List<T, A>) -> Result<List<T, A>, AllocError> {
        Ok(List::new(*like.allocator()))
    }
}
