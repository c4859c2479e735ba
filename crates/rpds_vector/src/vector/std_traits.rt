//! std's traits that make and fill a vector by what an iterator gives.
ghost use Rattle.std.specs.Prelude.{◌≡◌, [], ◌++◌, map};

use crate::vector::Vector;
use std::alloc::{AllocError, Allocator};
use std::default::{Emptied, MadeWith};
use std::iter::{Extend, FromIterator};

/// `collect`: a vector of 5 bits with the items in the order in which they come.
impl<T: Drop, A: Allocator + Copy> FromIterator<T> for Vector<T, A> {
    type Alloc = A;

    ghost from_iter_gives = { λ items vector. (vector.items ≡ items) × (vector.bits ≡ 5) };

    fn from_iter<U: IntoIterator<Item = T>>(alloc: A, iter: U) -> Result<Vector<T, A>, AllocError> {
        Vector::from_iter(alloc, iter)
    }
}

/// `extend` by the trait is [`Vector::extend`](Vector::extend): the items come behind the last.
impl<T: Drop, A: Allocator + Copy> Extend<T> for Vector<T, A> {
    ghost extend_gives = { λ vector more longer. longer ≡ record vector { items = vector.items ++ more } };

    fn extend<U: IntoIterator<Item = T>>(&mut self, iter: U) -> Result<(), AllocError> {
        let items = iter.into_iter();
        Vector::extend(self, items)
    }
}

/// The same of what references lead to.
impl<'a, T: Copy + Drop + 'a, A: Allocator + Copy> Extend<&'a T> for Vector<T, A> {
    ghost extend_gives = { λ vector more longer. longer ≡ record vector { items = vector.items ++ map (λ x. x.now) more } };

    fn extend<U: IntoIterator<Item = &'a T>>(&mut self, iter: U) -> Result<(), AllocError> {
        let items = iter.into_iter();
        Vector::extend(self, items.copied())
    }
}

/// The empty vector, for `or_default` of std's maps.
impl<T: Drop, A: Allocator + Copy> MadeWith<A> for Vector<T, A> {
    ghost is_made_with = { λ vector. (vector.items ≡ []) × (vector.bits ≡ 5) };

    fn made_with(alloc: A) -> Vector<T, A> {
        Vector::new(alloc)
    }
}

/// The empty vector, for `mem::try_take`.
impl<T: Drop, A: Allocator + Copy> Emptied for Vector<T, A> {
    ghost is_emptied = { λ vector. (vector.items ≡ []) × (vector.bits ≡ 5) };

    fn emptied(like: &Vector<T, A>) -> Result<Vector<T, A>, AllocError> {
        Ok(Vector::new(*like.allocator()))
    }
}
