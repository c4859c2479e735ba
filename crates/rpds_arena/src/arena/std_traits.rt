//! std's traits that make and fill an arena by what an iterator gives, and make empty ones.
ghost use Rattle.std.specs.Prelude.{◌≡◌, ◌++◌, [], map};

use crate::arena::Arena;
use rpds_vector::vector::Vector;
use std::alloc::{AllocError, Allocator};
use std::default::{Emptied, MadeWith};
use std::iter::{Extend, FromIterator};
use std::marker::PhantomData;

/// `collect`: the items in the order in which they come. `id_at` gives their ids.
impl<T: Drop, K, A: Allocator + Copy> FromIterator<T> for Arena<T, K, A> {
    type Alloc = A;

    ghost from_iter_gives = { λ items arena. arena ≡ items };

    fn from_iter<U: IntoIterator<Item = T>>(
        alloc: A,
        iter: U,
    ) -> Result<Arena<T, K, A>, AllocError> {
        let items = Vector::from_iter(alloc, iter)?;
        Ok(Arena {
            items,
            tag: PhantomData,
        })
    }
}

/// The items come behind all others. An error leaves the arena as it is.
impl<T: Drop, K, A: Allocator + Copy> Extend<T> for Arena<T, K, A> {
    ghost extend_gives = { λ arena more longer. longer ≡ arena ++ more };

    fn extend<U: IntoIterator<Item = T>>(&mut self, iter: U) -> Result<(), AllocError> {
        let items = iter.into_iter();
        self.items.extend(items)
    }
}

/// Copies of the items come behind all others. An error leaves the arena as it is.
impl<'a, T: Copy + Drop + 'a, K, A: Allocator + Copy> Extend<&'a T> for Arena<T, K, A> {
    ghost extend_gives = { λ arena more longer. longer ≡ arena ++ map (λ x. x.now) more };

    fn extend<U: IntoIterator<Item = &'a T>>(&mut self, iter: U) -> Result<(), AllocError> {
        let items = iter.into_iter();
        self.items.extend(items.copied())
    }
}

/// The empty arena, for `or_default` of std's maps.
impl<T: Drop, K, A: Allocator + Copy> MadeWith<A> for Arena<T, K, A> {
    ghost is_made_with = { λ arena. arena ≡ [] };

    fn made_with(alloc: A) -> Arena<T, K, A> {
        Arena::new_tagged(alloc)
    }
}

/// The empty arena, for `mem::try_take`.
impl<T: Drop, K, A: Allocator + Copy> Emptied for Arena<T, K, A> {
    ghost is_emptied = { λ arena. arena ≡ [] };

    fn emptied(like: &Arena<T, K, A>) -> Result<Arena<T, K, A>, AllocError> {
        Ok(Arena::new_tagged(*like.allocator()))
    }
}
