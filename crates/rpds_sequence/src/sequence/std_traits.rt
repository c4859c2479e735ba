//! std's traits that make and fill a sequence by what an iterator gives.
ghost use Rattle.std.specs.Prelude.{◌≡◌, [], ◌++◌, map};

use crate::sequence::Sequence;
use std::alloc::{AllocError, Allocator};
use std::default::{Emptied, MadeWith};
use std::iter::{Extend, FromIterator};

/// `collect`: a sequence of the items in the order in which they come.
impl<T: Drop, A: Allocator + Copy> FromIterator<T> for Sequence<T, A> {
    type Alloc = A;

    ghost from_iter_gives = { λ items sequence. sequence ≡ items };

    fn from_iter<U: IntoIterator<Item = T>>(
        alloc: A,
        iter: U,
    ) -> Result<Sequence<T, A>, AllocError> {
        Sequence::from_iter(alloc, iter)
    }
}

/// `extend` by the trait is [`Sequence::extend`](Sequence::extend): the items come behind the last.
impl<T: Drop, A: Allocator + Copy> Extend<T> for Sequence<T, A> {
    ghost extend_gives = { λ sequence more longer. longer ≡ sequence ++ more };

    fn extend<U: IntoIterator<Item = T>>(&mut self, iter: U) -> Result<(), AllocError> {
        let items = iter.into_iter();
        Sequence::extend(self, items)
    }
}

/// The same of what references lead to.
impl<'a, T: Copy + Drop + 'a, A: Allocator + Copy> Extend<&'a T> for Sequence<T, A> {
    ghost extend_gives = { λ sequence more longer. longer ≡ sequence ++ map (λ x. x.now) more };

    fn extend<U: IntoIterator<Item = &'a T>>(&mut self, iter: U) -> Result<(), AllocError> {
        let items = iter.into_iter();
        Sequence::extend(self, items.copied())
    }
}

/// The empty sequence, for `or_default` of std's maps.
impl<T: Drop, A: Allocator + Copy> MadeWith<A> for Sequence<T, A> {
    ghost is_made_with = { λ sequence. sequence ≡ [] };

    fn made_with(alloc: A) -> Sequence<T, A> {
        Sequence::new(alloc)
    }
}

/// The empty sequence, for `mem::try_take`.
impl<T: Drop, A: Allocator + Copy> Emptied for Sequence<T, A> {
    ghost is_emptied = { λ sequence. sequence ≡ [] };

    fn emptied(like: &Sequence<T, A>) -> Result<Sequence<T, A>, AllocError> {
        Ok(Sequence::new(*like.allocator()))
    }
}
