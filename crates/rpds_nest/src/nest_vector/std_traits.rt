//! std's traits that make and fill a vector by what an iterator gives.
ghost use Rattle.std.specs.Prelude.{◌≡◌, [], ◌++◌, map};

use crate::nest_vector::NestVector;
use std::alloc::{AllocError, Allocator};
use std::default::{Emptied, MadeWith};
use std::iter::{Extend, FromIterator};

/// `collect`: the items in the order in which they come.
impl<T: Drop, A: Allocator + Copy> FromIterator<T> for NestVector<T, A> {
    type Alloc = A;

    ghost from_iter_gives = { λ items vector. vector ≡ items };

    fn from_iter<U: IntoIterator<Item = T>>(
        alloc: A,
        iter: U,
    ) -> Result<NestVector<T, A>, AllocError> {
        NestVector::from_iter(alloc, iter)
    }
}

/// `extend` by the trait is [`NestVector::extend`](NestVector::extend): the items come behind the last.
impl<T: Drop, A: Allocator + Copy> Extend<T> for NestVector<T, A> {
    ghost extend_gives = { λ vector more longer. longer ≡ vector ++ more };

    fn extend<U: IntoIterator<Item = T>>(&mut self, iter: U) -> Result<(), AllocError> {
        let items = iter.into_iter();
        NestVector::extend(self, items)
    }
}

/// The same of what references lead to.
impl<'a, T: Copy + Drop + 'a, A: Allocator + Copy> Extend<&'a T> for NestVector<T, A> {
    ghost extend_gives = { λ vector more longer. longer ≡ vector ++ map (λ x. x.now) more };

    fn extend<U: IntoIterator<Item = &'a T>>(&mut self, iter: U) -> Result<(), AllocError> {
        let items = iter.into_iter();
        NestVector::extend(self, items.copied())
    }
}

/// The empty vector, for `or_default` of std's maps.
impl<T: Drop, A: Allocator + Copy> MadeWith<A> for NestVector<T, A> {
    ghost is_made_with = { λ vector. vector ≡ [] };

    fn made_with(alloc: A) -> NestVector<T, A> {
        NestVector::new(alloc)
    }
}

/// The empty vector, for `mem::try_take`.
impl<T: Drop, A: Allocator + Copy> Emptied for NestVector<T, A> {
    ghost is_emptied = { λ vector. vector ≡ [] };

    fn emptied(like: &NestVector<T, A>) -> Result<NestVector<T, A>, AllocError> {
        Ok(NestVector::new(*like.allocator()))
    }
}
